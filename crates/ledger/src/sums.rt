ghost use Rattle.std.specs.Prelude.{◌≡◌, ◌≤◌, map, length};
ghost use Rattle.rules.specs.Schedule.{required};
ghost use Rattle.rules.specs.Statements.{own_pairs};
ghost use Rattle.intake.specs.Parties.{pair_of};

use crate::ledger::Ledger;
use intake::Pair;
use units::Amount;

/// How many of the pairs are a member's own.
pub fn own_pairs(pairs: &[Pair], m: u8) -> usize
    ensures value { result ≡ own_pairs m (map pair_of pairs.now) }
    ensures bound { result ≤ length pairs.now }
{
    pairs
        .iter()
        .filter(|p| p.first == m || p.second == m)
        .count()
}

impl Ledger {
    /// The required amount of a member in a currency: what it sells less what it buys over all its pairs, or 0.
    pub fn required(&self, m: u8, c: u8) -> Amount
        ensures { result.0 ≡ required (map pair_of self.now.pairs.items) m c }
    {
        let sold: u64 = self.pairs.iter().map(|p| p.sold_by(m, c)).sum();
        let bought: u64 = self.pairs.iter().map(|p| p.bought_by(m, c)).sum();
        Amount(sold).saturating_sub(Amount(bought))
    }
}
