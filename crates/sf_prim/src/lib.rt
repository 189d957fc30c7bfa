//! The states of primitives.
#![tactic(auto)]

mod accumulator;
mod chain;
mod events;
mod prim_state;
mod time;

pub use accumulator::Accumulator;
pub use chain::Link;
pub use prim_state::PrimState;
