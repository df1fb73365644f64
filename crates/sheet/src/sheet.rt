ghost use Rattle.std.specs.Prelude.{ℕ, ◌≤◌, vec_len, vec_capacity};
ghost use Rattle.rules.specs.Bounds.{most_currencies};

use crate::currency::Currency;

/// The rate sheet of a day. Its currencies are numbered from 0, and its memory is found at the start.
#[derive(Drop)]
pub struct Sheet {
    pub(crate) currencies: Vec<Currency>,
    ghost few: { vec_len currencies ≤ most_currencies },
    ghost room: { most_currencies ≤ vec_capacity currencies },
}
