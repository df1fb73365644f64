ghost use Rattle.std.specs.Prelude.{◌≡◌, true, false, MatchOption};
ghost use Rattle.rules.specs.Roster.{limits_out_of_range};
ghost use Rattle.intake.specs.Ranges.{ByCurrency};

use crate::limits::Limits;
use rules::{MOST_CURRENCIES, MOST_MARKS, MOST_UNITS};
use std::array;
use units::{Amount, Marks};

// The short limits by currency number, with 0 where the list has none.
fn by_currency(shorts: &[u32]) -> [Amount; MOST_CURRENCIES]
    ensures { ByCurrency result shorts.now }
{
    array::from_fn(|c| shorts
        .get(c)
        .map_or(Amount(0), |short| Amount::from(*short)))
}

impl Limits {
    // The limits that these numbers are, or `None` if one is above its range.
    pub(crate) fn read(shorts: &[u32], aggregate: Marks) -> Option<Limits>
        ensures { MatchOption result (limits_out_of_range shorts.now aggregate.0 ≡ true) (λ l. (limits_out_of_range shorts.now aggregate.0 ≡ false) × (ByCurrency l.short shorts.now × (l.aggregate ≡ aggregate))) }
    {
        let is_off = |short: &u32| u64::from(*short) > MOST_UNITS;
        if aggregate > Marks(MOST_MARKS) || shorts.iter().any(is_off) {
            return None;
        }
        Some(Limits {
            short: by_currency(shorts),
            aggregate,
        })
    }
}
