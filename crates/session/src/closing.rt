ghost use Rattle.std.specs.Prelude.{◌≡◌, ℕ};
ghost use Rattle.rules.specs.Books.{closed};
ghost use Rattle.session.specs.Meaning.{setting_of, books_of};
ghost use Rattle.session.specs.Closing.{setting_after, books_after};

use crate::closed::ClosedDay;
use crate::reservation::Reservation;
use crate::session::Session;
use nostro::Nostro;
use queue::QueueOrder;

impl<N: Nostro, O: QueueOrder> Session<N, O> {
    /// The day that is over: every outstanding reservation is back in its account, and nothing else changes.
    pub fn close(mut self) -> ClosedDay<N, O>
        ensures setting { setting_after N.Nostro.cash O.QueueOrder.before result ≡ setting_of N.Nostro.cash O.QueueOrder.before self }
        ensures books { books_after N.Nostro.cash O.QueueOrder.before result ≡ closed (books_of N.Nostro.cash O.QueueOrder.before self) }
    {
        self.ledger.accounts.book.lapse();
        ClosedDay { day: self }
    }
}

impl<N: Nostro, O: QueueOrder> ClosedDay<N, O> {
    /// Takes a reservation that was not paid: its amount is back in the account already, so nothing changes.
    pub fn lapse(&self, reservation: Reservation) {
        // A reservation is never dropped, so each field is named.
        let Reservation {
            member: _,
            currency: _,
            amount: _,
        } = reservation;
    }
}
