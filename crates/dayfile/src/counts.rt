//! How many records there are.
ghost use Rattle.std.specs.Prelude.{◌≡◌};
ghost use Rattle.dayfile.specs.Counted.{too_many};

use rules::{MOST_CURRENCIES, MOST_INSTRUCTIONS, MOST_MEMBERS, MOST_STEPS};

/// How many records of each kind there are.
#[derive(Clone, Copy, Debug, PartialEq, Eq)]
pub struct Counts {
    pub currencies: usize,
    pub members: usize,
    pub instructions: usize,
    pub steps: usize,
}

impl Counts {
    /// Whether a count is above its most.
    pub fn has_too_many(self) -> bool
        ensures { result ≡ too_many self }
    {
        self.currencies > MOST_CURRENCIES
            || self.members > MOST_MEMBERS
            || self.instructions > MOST_INSTRUCTIONS
            || self.steps > MOST_STEPS
    }
}
