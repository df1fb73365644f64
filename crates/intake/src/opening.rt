ghost use Rattle.std.specs.Prelude.{ℕ, ◌≤◌, vec_len};
ghost use Rattle.rules.specs.Bounds.{most_instructions, most_members};
ghost use Rattle.sheet.specs.Meaning.{sheet_of};
ghost use Rattle.intake.specs.Room.{EmptyFor};
ghost use Rattle.intake.specs.Parties.{Listed, Counted};

use crate::member::Member;
use crate::pair::Pair;
use book::Row;
use sheet::Sheet;

/// What a session opens with: the sheet, the members, the pairs, and memory for the queue and the rows.
#[derive(Drop)]
pub struct Opening {
    pub sheet: Sheet,
    pub members: Vec<Member>,
    pub pairs: Vec<Pair>,
    pub queue: Vec<Pair>,
    pub rows: Vec<Row>,
    ghost few: { vec_len members ≤ most_members },
    ghost fewer: { vec_len pairs ≤ most_instructions },
    ghost listed: { Listed pairs.items (vec_len members) (sheet_of sheet).currencies },
    ghost counted: { Counted pairs.items },
    ghost unqueued: { EmptyFor most_instructions queue },
    ghost unfilled: { EmptyFor most_members rows },
}
