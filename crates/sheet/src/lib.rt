//! The rate sheet of a day: its currencies, each with a rate, a haircut and a number of instalments.
#![tactic(auto)]

mod adding;
mod balances;
mod currency;
mod reading;
mod sheet;
mod text;
mod worth;

pub use balances::{Balance, Balances};
pub use currency::Currency;
pub use sheet::Sheet;
pub use text::same;
