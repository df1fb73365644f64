ghost use Rattle.std.specs.Prelude.{◌≡◌, ℕ};
ghost use Rattle.rules.specs.Calls as calls;
ghost use Rattle.session.specs.Meaning.{Makes, plainly, reserving, counting, token};

use crate::reservation::Reservation;
use crate::session::Session;
use ledger::Counts;
use nostro::Nostro;
use queue::QueueOrder;
use refusal::{Cause, Layer, Refusal, refuse_if};
use rules::LAST_HOUR;
use units::Amount;

impl<N: Nostro, O: QueueOrder> Session<N, O> {
    /// Sets the hour.
    ///
    /// Refused where it is below the present one or above 5.
    pub fn clock(&mut self, hour: u8) -> Result<(), Refusal>
        ensures { Makes N.Nostro.cash O.QueueOrder.before self.old (calls.clock hour) self.new (plainly result) }
    {
        refuse_if(
            hour < self.ledger.hour || hour > LAST_HOUR,
            Refusal::by(Layer::Session, Cause::Hour),
        )?;
        self.ledger.hour = hour;
        Ok(())
    }

    /// Raises a member's account, and the nostro's cash, by an amount.
    pub fn pay_in(&mut self, member: u8, currency: u8, amount: Amount) -> Result<(), Refusal>
        ensures { Makes N.Nostro.cash O.QueueOrder.before self.old (calls.pay_in member currency amount.0) self.new (plainly result) }
    {
        let position = self.ledger.pay_in(member, currency, amount)?;
        self.nostro
            .receive(currency, amount)
            .map_err(|refusal| refusal.of(member))?;
        self.ledger.accounts.book.put(member, currency, position);
        Ok(())
    }

    /// Settles waiting pairs, by passes in queue order until one settles nothing.
    pub fn settle(&mut self) -> Counts
        ensures { Makes N.Nostro.cash O.QueueOrder.before self.old calls.settle self.new (counting result) }
    {
        self.ledger.settle()
    }

    /// Sets an amount of a member's account aside to be paid out.
    pub fn reserve(
        &mut self,
        member: u8,
        currency: u8,
        amount: Amount,
    ) -> Result<Reservation, Refusal>
        ensures { Makes N.Nostro.cash O.QueueOrder.before self.old (calls.reserve member currency amount.0) self.new (reserving result) }
    {
        let position = self.ledger.reserve(member, currency, amount)?;
        let cash = self.nostro.cash_in(currency);
        let free = cash.saturating_sub(self.ledger.accounts.reserved_in(currency));
        let refusal = Refusal::by(Layer::Session, Cause::Cash);
        refuse_if(free < amount, refusal.of(member).in_currency(currency))?;
        self.ledger.accounts.book.put(member, currency, position);
        Ok(Reservation {
            member,
            currency,
            amount,
        })
    }

    /// Pays a reservation out. Refused or not, it is used up.
    pub fn pay(&mut self, reservation: Reservation) -> Result<(), Refusal>
        ensures { Makes N.Nostro.cash O.QueueOrder.before self.old (calls.pay (token reservation)) self.new (plainly result) }
    {
        let Reservation {
            member,
            currency,
            amount,
        } = reservation;
        let position = self.ledger.pay(member, currency, amount)?;
        self.nostro
            .pay(currency, amount)
            .map_err(|refusal| refusal.of(member))?;
        self.ledger.accounts.book.put(member, currency, position);
        Ok(())
    }
}
