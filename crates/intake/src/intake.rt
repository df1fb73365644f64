ghost use Rattle.std.specs.Prelude.{ℕ, ◌≤◌, vec_len, vec_capacity};
ghost use Rattle.rules.specs.Bounds.{most_instructions, most_members};
ghost use Rattle.sheet.specs.Meaning.{sheet_of};
ghost use Rattle.intake.specs.Room.{EmptyFor};
ghost use Rattle.intake.specs.Parties.{Listed, Counted};

use crate::instruction::Instruction;
use crate::pair::Pair;
use crate::roster::Roster;
use book::Row;

/// The instructions of a day, as they come in, and the pairs that they make, over the finished roster.
///
/// It also holds the memory that a session needs, which is found at the start and empty until the opening.
#[derive(Drop)]
pub struct Intake {
    pub(crate) roster: Roster,
    pub(crate) kept: Vec<Instruction>,
    pub(crate) pairs: Vec<Pair>,
    pub(crate) queue: Vec<Pair>,
    pub(crate) rows: Vec<Row>,
    ghost few: { vec_len kept ≤ most_instructions },
    ghost fewer: { vec_len pairs ≤ vec_len kept },
    ghost room: { (most_instructions ≤ vec_capacity kept) × (most_instructions ≤ vec_capacity pairs) },
    ghost listed: { Listed pairs.items (vec_len roster.members) (sheet_of roster.sheet).currencies },
    ghost counted: { Counted pairs.items },
    ghost unqueued: { EmptyFor most_instructions queue },
    ghost unfilled: { EmptyFor most_members rows },
}
