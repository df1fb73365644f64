ghost use Rattle.std.specs.Prelude.{ℕ};
ghost use Rattle.ledger.specs.Questions.{AccountAsked, DueAsked, PairAsked};
ghost use Rattle.session.specs.Meaning.{OfDay};

use crate::session::Session;
use accounts::Stop;
use nostro::Nostro;
use queue::QueueOrder;
use refusal::Refusal;
use units::{Amount, Units};

impl<N: Nostro, O: QueueOrder> Session<N, O> {
    /// The account of a member in a currency.
    pub fn account(&self, member: u8, currency: u8) -> Result<Units, Refusal>
        ensures { OfDay N.Nostro.cash O.QueueOrder.before self.now (λ s b. AccountAsked s b member currency result) }
    {
        self.ledger.account(member, currency)
    }

    /// The amount due of a member in a currency at the present hour.
    pub fn amount_due(&self, member: u8, currency: u8) -> Result<Amount, Refusal>
        ensures { OfDay N.Nostro.cash O.QueueOrder.before self.now (λ s b. DueAsked s b member currency result) }
    {
        self.ledger.amount_due(member, currency)
    }

    /// What stops the waiting pair of a number: the test, the member and the currency, or `None` if it would pass.
    pub fn stopped_by(&self, number: u32) -> Result<Option<Stop>, Refusal>
        ensures { OfDay N.Nostro.cash O.QueueOrder.before self.now (λ s b. PairAsked s b number result) }
    {
        self.ledger.stopped_by(number)
    }
}
