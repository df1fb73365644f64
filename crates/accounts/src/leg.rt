ghost use Rattle.std.specs.Prelude.{◌≤◌};
ghost use Rattle.rules.specs.Bounds.{most_units};

use units::Amount;

/// What one party does by a pair: it buys an amount of one currency and sells an amount of another.
#[derive(Clone, Copy, Debug, PartialEq, Eq)]
pub struct Leg {
    pub buys: u8,
    pub bought: Amount,
    pub sells: u8,
    pub sold: Amount,
    ghost small: { (bought.0 ≤ most_units) × (sold.0 ≤ most_units) },
}
