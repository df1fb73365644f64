//! The instructions of a day file: each is submitted, and a refused one prints its line.
ghost use Rattle.std.specs.Prelude.{◌≡◌, ◌++◌, OnOk};
ghost use Rattle.rules.specs.FileForm.{instructions_in};
ghost use Rattle.dayfile.specs.Meaning.{file_of, instruction_of as recorded};
ghost use Rattle.intake.specs.Rosters.{terms_of};
ghost use Rattle.intake.specs.Books.{instruction_of, book_of, roster_under};
ghost use Rattle.rules.specs.FileDay.{terms_in, book_after};
ghost use Rattle.rules.specs.Printed.{instruction_lines};

use crate::printing::{Printer, print_refused};
use dayfile::InstructionRecord;
use intake::{Instruction, Intake};
use std::alloc::AllocError;
use units::Amount;

// The instruction that a record holds. No `From`, since neither type is of this crate.
fn instruction_of(x: InstructionRecord) -> Instruction
    ensures { instruction_of result ≡ recorded x }
{
    Instruction {
        submitter: x.submitter,
        counterparty: x.counterparty,
        buys: x.buys,
        bought: Amount::from(x.bought),
        sells: x.sells,
        sold: Amount::from(x.sold),
        reference: x.reference,
    }
}

impl Printer<'_> {
    /// Submits all instructions of the file, in order, and prints the lines of those refused.
    pub(crate) fn submit_all(&mut self, intake: &mut Intake) -> Result<(), AllocError>
        requires terms { terms_of (roster_under intake.old) ≡ terms_in (file_of self.old.day) }
        requires empty { book_of intake.old ≡ book_after (file_of self.old.day) 0 }
        ensures day { self.new.day ≡ self.old.day }
        ensures book { OnOk result (book_of intake.new ≡ book_after (file_of self.old.day) (instructions_in (file_of self.old.day))) }
        ensures roster { roster_under intake.new ≡ roster_under intake.old }
        ensures text { OnOk result (self.new.text.items ≡ self.old.text.items ++ instruction_lines (file_of self.old.day) (instructions_in (file_of self.old.day))) }
    {
        let day = self.day;
        // By number, which is the place that a refusal's line names.
        for k in 0..day.instructions() {
            let record = day.instruction(k).unwrap();
            let answer = intake.submit(instruction_of(record));
            print_refused(&mut self.text, answer, k)?;
        }
        Ok(())
    }
}
