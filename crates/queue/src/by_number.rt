ghost use Rattle.rules.specs.Orders.{by_number};
ghost use Rattle.std.proofs.Common.{rules};

use crate::order::QueueOrder;
use intake::Pair;

/// The order of the pair numbers.
#[derive(Clone, Copy, Debug, PartialEq, Eq, Default)]
pub struct ByNumber;

impl QueueOrder for ByNumber {
    ghost before = { λ _. by_number };

    ghost lawful = { Prim.search rules };

    fn goes_before(&self, a: &Pair, b: &Pair) -> bool {
        a.number < b.number
    }
}
