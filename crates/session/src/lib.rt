//! A session: one settlement day from its opening to its close.
#![tactic(auto)]

mod calls;
mod closed;
mod closing;
mod opening;
mod questions;
mod reservation;
mod session;
mod statements;
mod tokens;

pub use closed::ClosedDay;
pub use reservation::Reservation;
pub use session::Session;
