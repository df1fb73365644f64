ghost use Rattle.intake.specs.Ranges.{Limited};

use rules::MOST_CURRENCIES;
use units::{Amount, Marks};

/// How short a member may be: in each currency by its number, and over all of them.
#[derive(Clone, Copy, Debug, PartialEq, Eq)]
pub struct Limits {
    pub short: [Amount; MOST_CURRENCIES],
    pub aggregate: Marks,
    ghost limited: { Limited short },
}
