//! What a session keeps: the tests of its calls on the accounts, and how waiting pairs settle.
#![tactic(auto)]

mod counts;
mod ledger;
mod named;
mod offers;
mod positions;
mod questions;
mod settle;
mod sums;

pub use counts::Counts;
pub use ledger::Ledger;
pub use sums::own_pairs;
