//! The whole day.
ghost use Rattle.std.specs.Prelude.{◌≡◌, IfOk};
ghost use Rattle.rules.specs.Printed.{printed};
ghost use Rattle.runner.specs.Ending.{Ends, PrintsEnding};

use crate::beginning::{roster_from, sheet_from};
use crate::halt::Halt;
use crate::printing::{Printer, print_refusal};
use dayfile::DayFile;
use intake::Intake;
use nostro::SingleBook;
use queue::ByNumber;
use session::Session;
use std::alloc::{AllocError, Global};

// The day of a file, from its form to its statements, over an empty single book and by pair number.
fn day_text(heap: Global, file: &[u8]) -> Result<Vec<u8>, Halt>
    ensures { Ends file.now result }
{
    let day = DayFile::read(file)?;
    let sheet = sheet_from(heap, day)?;
    let roster = roster_from(heap, day, sheet)?;
    let mut intake = Intake::begin(heap, roster)?;
    let mut printer = Printer::new(heap, day);
    printer.submit_all(&mut intake)?;
    let mut session = Session::open(intake, SingleBook::empty(), ByNumber);
    printer.take_steps(&mut session)?;
    printer.print_statements(&session.close())?;
    Ok(printer.text)
}

// What is printed for a day that ends before its session: the line of the refusal alone.
fn ending_text(heap: Global, halt: Halt) -> Result<Vec<u8>, AllocError>
    ensures { PrintsEnding halt result }
{
    match halt {
        Halt::Refused(e) => {
            let mut text = Vec::new(heap);
            print_refusal(&mut text, &e)?;
            Ok(text)
        }
        Halt::NoMemory(e) => Err(e),
    }
}

/// The text that is printed for a day file, whatever its bytes.
pub fn run(heap: Global, file: &[u8]) -> Result<Vec<u8>, AllocError>
    ensures { IfOk result (λ v. v.items ≡ printed file.now) }
{
    day_text(heap, file).or_else(|halt| ending_text(heap, halt))
}
