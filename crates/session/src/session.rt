use ledger::Ledger;

/// One settlement day over a nostro and under a queue order: pay-ins, passes over the waiting pairs, and pay-outs.
///
/// An intake becomes a session once, so no instruction can be given to it.
// Clauses name the nostro's cash and the order's relation each time: both are functions, and no model's value holds one.
#[derive(Drop)]
pub struct Session<N, O> {
    pub(crate) ledger: Ledger,
    pub(crate) nostro: N,
    pub(crate) order: O,
}
