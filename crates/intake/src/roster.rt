ghost use Rattle.std.specs.Prelude.{ℕ, ◌≤◌, vec_len, vec_capacity};
ghost use Rattle.rules.specs.Bounds.{most_members};

use crate::member::Member;
use sheet::Sheet;

/// The members of a day, numbered from 0, over its finished sheet. Its memory is found at the start.
#[derive(Drop)]
pub struct Roster {
    pub(crate) sheet: Sheet,
    pub(crate) members: Vec<Member>,
    ghost few: { vec_len members ≤ most_members },
    ghost room: { most_members ≤ vec_capacity members },
}
