ghost use Rattle.rules.specs.Orders.{heaviest_first};
ghost use Rattle.std.proofs.Common.{rules};

use crate::order::QueueOrder;
use intake::Pair;

/// Heaviest weight first, equal ones by number.
#[derive(Clone, Copy, Debug, PartialEq, Eq, Default)]
pub struct HeaviestFirst;

impl QueueOrder for HeaviestFirst {
    ghost before = { λ _. heaviest_first };

    ghost lawful = { Prim.search rules };

    fn goes_before(&self, a: &Pair, b: &Pair) -> bool {
        (b.weight, a.number) < (a.weight, b.number)
    }
}
