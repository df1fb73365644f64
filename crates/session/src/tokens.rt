ghost use Rattle.std.specs.Prelude.{◌≡◌};
ghost use Rattle.session.specs.Meaning.{token};

use crate::reservation::Reservation;
use units::Amount;

impl Reservation {
    /// The member whose account it was taken from.
    pub fn member(&self) -> u8
        ensures { result ≡ (token self.now).member }
    {
        self.member
    }

    /// The currency that it is in.
    pub fn currency(&self) -> u8
        ensures { result ≡ (token self.now).currency }
    {
        self.currency
    }

    /// How much it is.
    pub fn amount(&self) -> Amount
        ensures { result.0 ≡ (token self.now).amount }
    {
        self.amount
    }
}
