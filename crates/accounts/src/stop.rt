/// The tests that a pair passes before it settles, in their order.
#[derive(Clone, Copy, Debug, PartialEq, Eq)]
pub enum Test {
    /// In the bought currency, account plus reservations is at most 10^9.
    Ceiling,
    /// In the sold currency, the account is not below minus the short limit.
    ShortLimit,
    /// The short marks of the row are at most the aggregate limit.
    AggregateLimit,
    /// The adjusted value of the row is at least 0.
    AdjustedValue,
}

/// What stops a pair: the test, the member that fails it, and the currency of the first two tests.
#[derive(Clone, Copy, Debug, PartialEq, Eq)]
pub struct Stop {
    pub test: Test,
    pub member: u8,
    /// `None` for the tests on the whole row.
    // Beside the test, as the rules' stop has it: `stop_of` then goes field by field.
    pub currency: Option<u8>,
}
