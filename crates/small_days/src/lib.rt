//! Small days: day files given record by record, each beside the text that is printed for it.
#![tactic(auto)]

mod day;
mod due;
mod form;
mod full;
mod instructions;
mod limits;
mod records;
mod repeated;
mod roster;
mod settling;
mod sheets;
mod steps;
#[cfg(test)]
mod tests;
mod texts;
