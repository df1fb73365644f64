//! Refusals: why a call is refused, by which layer, and of whom it speaks.
#![tactic(auto)]

mod cause;
mod layer;
mod refused;
mod refusing;

pub use cause::Cause;
pub use layer::Layer;
pub use refused::Refusal;
pub use refusing::refuse_if;
