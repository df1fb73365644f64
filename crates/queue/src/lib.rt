//! The queue: in which order pairs are tested, and how a queue is put in that order.
#![tactic(auto)]

mod by_number;
mod heaviest;
mod order;
mod placing;
mod queueing;

pub use by_number::ByNumber;
pub use heaviest::HeaviestFirst;
pub use order::{QueueOrder, order_is_lawful};
pub use placing::{enqueue, place_in};
pub use queueing::queue_up;
