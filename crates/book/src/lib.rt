//! The accounts of a day: a row of positions for each member.
#![tactic(auto)]

mod access;
mod lapse;
mod position;
mod row;
mod table;

pub use position::Position;
pub use row::Row;
pub use table::Book;
