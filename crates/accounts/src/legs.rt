ghost use Rattle.std.specs.Prelude.{◌≡◌, ℕ, ◌≤◌, ℤ};
ghost use Rattle.accounts.specs.Legs.{at, row_after, mirrored, LegOf};

use crate::after::After;
use crate::leg::Leg;
use intake::Pair;
use sheet::{Balance, Balances};

impl Leg {
    // What the first party of a pair does.
    pub(crate) fn of(p: &Pair) -> Leg
        ensures { LegOf p.now result }
    {
        Leg {
            buys: p.buys,
            bought: p.bought,
            sells: p.sells,
            sold: p.sold,
        }
    }

    // What the other party does.
    pub(crate) fn mirrored(self) -> Leg
        ensures { result ≡ mirrored self }
    {
        Leg {
            buys: self.sells,
            bought: self.sold,
            sells: self.buys,
            sold: self.bought,
        }
    }
}

impl Balances for After<'_> {
    ghost balance = { λ x c. row_after x c };

    fn balance(&self, c: u8) -> Balance {
        let leg = self.leg;
        let account = self.book.position(self.member, c).account;
        Balance {
            units: account + leg.bought.when(leg.buys == c) - leg.sold.when(leg.sells == c),
        }
    }
}
