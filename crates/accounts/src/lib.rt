//! The members' accounts, the four tests of a pair on them, and how a pair settles.
#![tactic(auto)]

mod accounts;
mod after;
mod leg;
mod legs;
mod limits;
mod moves;
mod stop;
mod tests;

pub use accounts::Accounts;
pub use after::After;
pub use leg::Leg;
pub use stop::{Stop, Test};
