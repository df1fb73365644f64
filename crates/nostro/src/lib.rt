//! Nostros: the bank's cash, the single book, and the split over two nostros.
#![tactic(auto)]

mod correspondent;
mod refusing;
mod single;
mod split;

pub use correspondent::Nostro;
pub use single::SingleBook;
pub use split::Split;
