//! The form of a day file, and its records, which borrow codes and names from it.
#![tactic(auto)]

mod bytes;
mod counts;
mod dayfile;
mod fields;
mod form;
mod kind;
mod layout;
mod reading;
mod records;

pub use counts::Counts;
pub use dayfile::DayFile;
pub use kind::{StepKind, UnknownKind};
pub use records::{CurrencyRecord, InstructionRecord, MemberRecord, Record, StepRecord};
