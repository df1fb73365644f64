//! Writes day files, and carries the theorems on files that are written and read again.
#![tactic(auto)]

ghost use Rattle.rules.specs.FileAgain.{WrittenReadsBack, ReadIsWrittenAgain};

mod faults;
mod fields;
mod putting;
mod records;
mod writing;

pub use records::{DayRecords, Fault, NewMember, Unwritten};

/// What is written of records reads back as these records, in a file of the right form.
pub fn written_files_read_back()
    ensures { WrittenReadsBack }
{}

/// A file of the right form is what is written of its records, but for the fields of steps that are not read.
pub fn read_files_are_written_again()
    ensures { ReadIsWrittenAgain }
{}
