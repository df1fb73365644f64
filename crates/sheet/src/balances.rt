ghost use Rattle.std.specs.Prelude.{◌≡◌, ℕ, ℤ};
ghost use Rattle.sheet.specs.Balances.{Within, most_balance};

use units::Units;

/// One balance of a row: at most 2·10^9 units either way, so that no sum of worths overflows.
#[derive(Clone, Copy, Debug, PartialEq, Eq)]
pub struct Balance {
    pub units: Units,
    ghost bounded: { Within units.0 most_balance },
}

/// A row of balances, by currency number.
pub trait Balances {
    /// The balance in each currency, in units.
    ghost balance: { Self → ℕ → ℤ };

    /// The balance in a currency.
    fn balance(&self, c: u8) -> Balance
        ensures { result.units.0 ≡ balance self.now c };
}
