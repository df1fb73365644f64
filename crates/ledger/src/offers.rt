ghost use Rattle.std.specs.Prelude.{◌≡◌, ℕ, ◌<◌, ◌≤◌, ℤ, pos, ◌-ℤ◌};
ghost use Rattle.rules.specs.Bounds.{most_units};
ghost use Rattle.rules.specs.Sums.{only};
ghost use Rattle.rules.specs.Worth.{adjusted};
ghost use Rattle.rules.specs.Causes.{place_causes};
ghost use Rattle.book.specs.Rows.{position};
ghost use Rattle.accounts.specs.Meaning.{setting_within, account};
ghost use Rattle.ledger.specs.Meaning.{books_within};
ghost use Rattle.ledger.specs.Offers.{On, Told, amount_causes, PayInOffered, ReserveOffered, PaymentOffered};

use crate::ledger::Ledger;
use crate::named::Named;
use crate::positions::{is_over_ceiling, paid_in, paid_out, reserved};
use accounts::Leg;
use book::Position;
use refusal::{Cause, Refusal};
use rules::{MOST_SUM, MOST_UNITS};
use units::{Amount, Thousandths, Units};

impl Ledger {
    /// The position of the member in the currency that a call names, or the refusal of one that is not here.
    pub(crate) fn position_of(&self, call: Named) -> Result<Position, Refusal>
        ensures { Told (place_causes (setting_within self.now.accounts) call.member call.currency) (λ p. On (setting_within self.now.accounts) call.member call.currency × (p ≡ position self.now.accounts.book call.member call.currency)) result }
    {
        call.refuse_if(!self.accounts.has_member(call.member), Cause::Member)?;
        call.refuse_if(call.currency >= self.accounts.sheet.len(), Cause::Currency)?;
        Ok(self.accounts.book.position(call.member, call.currency))
    }

    // The same for a call that names an amount too.
    fn position_for(&self, call: Named, amount: Amount) -> Result<Position, Refusal>
        ensures { Told (amount_causes (setting_within self.now.accounts) call.member call.currency amount.0) (λ p. On (setting_within self.now.accounts) call.member call.currency × (amount.0 ≤ most_units) × (p ≡ position self.now.accounts.book call.member call.currency)) result }
    {
        let p = self.position_of(call)?;
        let is_allowed = Amount(1) <= amount && amount <= Amount(MOST_UNITS);
        call.refuse_if(!is_allowed, Cause::Amount)?;
        Ok(p)
    }

    /// The position that a pay-in would leave, or the session's own refusal of it. Nothing changes.
    pub fn pay_in(&self, member: u8, currency: u8, amount: Amount) -> Result<Position, Refusal>
        ensures { PayInOffered (setting_within self.now.accounts) (books_within self.now) (position self.now.accounts.book member currency) member currency amount.0 result }
    {
        let call = Named { member, currency };
        let p = self.position_for(call, amount)?;
        call.refuse_if(is_over_ceiling(&p, amount), Cause::AccountCeiling)?;
        call.refuse_if(p.paid_in + amount > Amount(MOST_SUM), Cause::DaySum)?;
        Ok(paid_in(p, amount))
    }

    // The adjusted value of the row with the amount taken off.
    fn value_less(&self, call: Named, amount: Amount) -> Thousandths
        requires { amount.0 ≤ most_units }
        ensures { result.0 ≡ adjusted (setting_within self.now.accounts).sheet (λ c. account self.now.accounts call.member c -ℤ pos (only call.member call.currency amount.0 call.member c)) }
    {
        let leg = Leg {
            buys: call.currency,
            bought: Amount(0),
            sells: call.currency,
            sold: amount,
        };
        let after = self.accounts.after(call.member, leg);
        self.accounts.sheet.adjusted_value(&after)
    }

    /// The position that a reserve would leave, or the session's refusal of it but for what looks at cash. Nothing changes.
    pub fn reserve(&self, member: u8, currency: u8, amount: Amount) -> Result<Position, Refusal>
        ensures { ReserveOffered (setting_within self.now.accounts) (books_within self.now) (position self.now.accounts.book member currency) member currency amount.0 result }
    {
        let call = Named { member, currency };
        let p = self.position_for(call, amount)?;
        let pay_outs = p.paid_out + p.reserved + amount;
        call.refuse_if(pay_outs > Amount(MOST_SUM), Cause::DaySum)?;
        call.refuse_if(p.account < Units(0) + amount, Cause::Account)?;
        let value = self.value_less(call, amount);
        call.refuse_if(value < Thousandths(0), Cause::AdjustedValue)?;
        Ok(reserved(p, amount))
    }

    /// The position that the payment of a reservation would leave, or the session's own refusal of it. Nothing changes.
    pub fn pay(&self, member: u8, currency: u8, amount: Amount) -> Result<Position, Refusal>
        ensures { PaymentOffered (setting_within self.now.accounts) (books_within self.now) (position self.now.accounts.book member currency) member currency amount.0 result }
    {
        let call = Named { member, currency };
        let p = self.position_of(call)?;
        call.refuse_if(p.reserved < amount, Cause::Reserved)?;
        Ok(paid_out(p, amount))
    }
}
