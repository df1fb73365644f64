ghost use Rattle.std.specs.Prelude.{◌≡◌, ℕ, ◌<◌, ◌≤◌, length, vec_len};
ghost use Rattle.ledger.specs.Turns.{passed, Leaves, settled_all, Counted};

use crate::counts::Counts;
use crate::ledger::Ledger;

impl Ledger {
    // One pass over the waiting pairs, each tested once. How many settled.
    fn pass(&mut self) -> usize
        ensures left { Leaves self.old self.new (passed self.old).balances (passed self.old).waiting }
        ensures count { result ≡ length (passed self.old).settled }
    {
        let before = self.waiting.len();
        let mut place = 0;
        // No `retain`: its contract tells which pairs stay, and not what testing them leaves of the accounts.
        for i in 0..before {
            let p = self.waiting[i];
            if self.accounts.try_settle(&p).is_some() {
                self.waiting[place] = p;
                place += 1;
            }
        }
        self.waiting.truncate(place);
        before - place
    }

    /// Makes passes until one settles nothing.
    pub fn settle(&mut self) -> Counts
        ensures left { Leaves self.old self.new (settled_all self.old).balances (settled_all self.old).waiting }
        ensures counts { Counted result (settled_all self.old) }
    {
        let mut settled = 0;
        let mut passes = 1;
        while let more @ 1.. = self.pass() {
            settled += more;
            passes += 1;
        }
        Counts {
            settled,
            passes,
            waiting: self.waiting.len(),
        }
    }
}
