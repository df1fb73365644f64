ghost use Rattle.std.specs.Prelude.{◌≡◌, Bool};
ghost use Rattle.rules.specs.Pairs as rules;
ghost use Rattle.rules.specs.Setting.{Orders};
ghost use Rattle.intake.specs.Parties.{pair_of};

use intake::Pair;

/// Which of two pairs goes before the other in the queue.
///
/// No pair is before itself, of two differently numbered pairs exactly one is before the other, and if a is before b
/// and b before c, a is before c.
pub trait QueueOrder {
    /// Whether the first pair goes before the second.
    ghost before: { Self → rules.Pair → rules.Pair → Bool };

    /// Whether `a` goes before `b`.
    fn goes_before(&self, a: &Pair, b: &Pair) -> bool
        ensures { result ≡ before self.now (pair_of a.now) (pair_of b.now) };

    ghost lawful: { (o : Self) → Orders (before o) };
}

/// Every queue order keeps the laws that the rules ask of one.
pub fn order_is_lawful<O: QueueOrder>(order: &O)
    ensures { Orders (O.QueueOrder.before order.now) }
{}
