ghost use Rattle.intake.specs.Ranges.{Matched};

use units::{Amount, Marks};

/// Two instructions that matched: `first` buys `bought` of `buys` from `second`, for `sold` of `sells`.
#[derive(Clone, Copy, Debug, PartialEq, Eq)]
pub struct Pair {
    pub number: u32,
    /// The party whose instruction came first.
    pub first: u8,
    pub second: u8,
    pub buys: u8,
    pub bought: Amount,
    pub sells: u8,
    pub sold: Amount,
    pub reference: u32,
    /// What the first party buys, at the rate.
    pub weight: Marks,
    ghost matched: { Matched first second buys bought.0 sells sold.0 },
}
