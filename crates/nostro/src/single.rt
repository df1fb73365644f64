ghost use Rattle.std.specs.Prelude.{◌≡◌, ℕ};
ghost use Rattle.nostro.specs.Holdings.{booked};

use crate::correspondent::Nostro;
use refusal::Refusal;
use rules::MOST_CURRENCIES;
use units::Amount;

/// One correspondent for all currencies, with the cash of each.
#[derive(Clone, Copy, Debug, PartialEq, Eq)]
pub struct SingleBook {
    cash: [Amount; MOST_CURRENCIES],
}

impl SingleBook {
    /// A book with no cash.
    pub fn empty() -> SingleBook
        ensures { (c : ℕ) → booked result c ≡ 0 }
    {
        SingleBook {
            cash: [Amount(0); MOST_CURRENCIES],
        }
    }
}

impl Nostro for SingleBook {
    ghost cash = { booked };

    fn cash_in(&self, currency: u8) -> Amount {
        self.cash
            .get(usize::from(currency))
            .copied()
            .unwrap_or(Amount(0))
    }

    fn receive(&mut self, currency: u8, amount: Amount) -> Result<(), Refusal> {
        self.may_receive(currency, amount)?;
        self.cash[usize::from(currency)] += amount;
        Ok(())
    }

    fn pay(&mut self, currency: u8, amount: Amount) -> Result<(), Refusal> {
        self.may_pay(currency, amount)?;
        self.cash[usize::from(currency)] -= amount;
        Ok(())
    }
}
