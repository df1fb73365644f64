ghost use Rattle.std.specs.Prelude.{◌≡◌, ℕ};
ghost use Rattle.rules.specs.Nostro.{cash_shown, receipt_causes, payment_causes};
ghost use Rattle.nostro.specs.Cash.{Tested, Received, Paid};

use crate::refusing::refuse_over;
use refusal::{Cause, Refusal};
use rules::MOST_SUM;
use units::Amount;

/// The bank's accounts at its correspondents: where pay-ins arrive and from where payments leave.
pub trait Nostro {
    /// The cash held, in units, by currency number.
    ghost cash: { Self → ℕ → ℕ };

    /// The cash in a currency, or 2^64 - 1 where it is more; 0 above number 23.
    fn cash_in(&self, currency: u8) -> Amount
        ensures { result.0 ≡ cash_shown (cash self.now) currency };

    /// Takes in an amount of a currency.
    ///
    /// Refused above number 23, and where the cash would pass 10^12.
    fn receive(&mut self, currency: u8, amount: Amount) -> Result<(), Refusal>
        ensures { Received (cash self.old) currency amount.0 (cash self.new) result };

    /// Pays an amount of a currency out.
    ///
    /// Refused above number 23, and where the amount exceeds the cash.
    fn pay(&mut self, currency: u8, amount: Amount) -> Result<(), Refusal>
        ensures { Paid (cash self.old) currency amount.0 (cash self.new) result };

    // The two questions are not `final`: the impls' own methods ask them, and such a call of a final method is not covered.

    /// Whether an amount of a currency may be received, and why not.
    fn may_receive(&self, currency: u8, amount: Amount) -> Result<(), Refusal>
        ensures { Tested (receipt_causes (cash self.now) currency amount.0) result }
    {
        let over = self.cash_in(currency).saturating_add(amount) > Amount(MOST_SUM);
        refuse_over(over, Cause::CashCeiling, currency)
    }

    /// Whether an amount of a currency may be paid, and why not.
    fn may_pay(&self, currency: u8, amount: Amount) -> Result<(), Refusal>
        ensures { Tested (payment_causes (cash self.now) currency amount.0) result }
    {
        let over = amount > self.cash_in(currency);
        refuse_over(over, Cause::Cash, currency)
    }
}
