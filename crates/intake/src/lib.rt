//! From the finished sheet to the opening of a session: the roster, the instructions and how they match.
#![tactic(auto)]

mod adding;
mod instruction;
mod intake;
mod legs;
mod limits;
mod member;
mod mirrors;
mod name;
mod names;
mod opening;
mod pair;
mod roster;
mod shorts;
mod stages;
mod submitting;
mod submitting_all;

pub use instruction::Instruction;
pub use intake::Intake;
pub use limits::Limits;
pub use member::Member;
pub use name::Name;
pub use opening::Opening;
pub use pair::Pair;
pub use roster::Roster;
