ghost use Rattle.std.specs.Prelude.{◌≡◌};
ghost use Rattle.intake.specs.Rosters.{sheet_under, members_on};
ghost use Rattle.intake.specs.Books.{Begun, roster_under, pairs_of, kept_for_queue, kept_for_rows};

use crate::intake::Intake;
use crate::opening::Opening;
use crate::roster::Roster;
use rules::{MOST_INSTRUCTIONS, MOST_MEMBERS};
use std::alloc::{AllocFailed, Global};

impl Intake {
    /// An intake with no instructions yet, over a finished roster, with memory for it and for the session after it.
    pub fn begin(heap: Global, roster: Roster) -> Result<Intake, AllocFailed<Roster>>
        ensures { Begun roster result }
    {
        let (Ok(kept), Ok(pairs), Ok(queue), Ok(rows)) = (
            Vec::with_capacity(heap, MOST_INSTRUCTIONS),
            Vec::with_capacity(heap, MOST_INSTRUCTIONS),
            Vec::with_capacity(heap, MOST_INSTRUCTIONS),
            Vec::with_capacity(heap, MOST_MEMBERS),
        ) else {
            return Err(AllocFailed { value: roster });
        };
        Ok(Intake {
            roster,
            kept,
            pairs,
            queue,
            rows,
        })
    }

    /// The end of intake: what a session opens with. Unmatched instructions lapse.
    pub fn finish(self) -> Opening
        ensures sheet { result.sheet ≡ sheet_under (roster_under self) }
        ensures members { result.members ≡ members_on (roster_under self) }
        ensures pairs { result.pairs ≡ pairs_of self }
        ensures queue { result.queue ≡ kept_for_queue self }
        ensures rows { result.rows ≡ kept_for_rows self }
    {
        Opening {
            sheet: self.roster.sheet,
            members: self.roster.members,
            pairs: self.pairs,
            queue: self.queue,
            rows: self.rows,
        }
    }
}
