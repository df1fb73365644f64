//! From the bytes of a day file to the text that is printed for it.
#![tactic(auto)]

mod beginning;
mod day;
mod halt;
mod instructions;
mod printing;
mod steps;

pub use day::run;
