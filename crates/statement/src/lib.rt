//! The text of a member's statement and of a refusal, written into a caller's buffer. Nothing is allocated.
#![tactic(auto)]

mod entry;
mod pieces;
mod refusing;
mod statement;
mod writing;

pub use entry::Entry;
pub use pieces::LONGEST_STATEMENT;
pub use refusing::{LONGEST_LINE, write_refusal};
pub use statement::{NoLineLeft, Statement};
