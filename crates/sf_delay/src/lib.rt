//! The states of primitives that need the times of their samples.
#![tactic(auto)]

mod line;
mod queue;
mod sum;
mod ticker;
mod timer;

pub use line::Line;
pub use queue::{Layer, Pending, Shared, Stack};
pub use sum::Sum;
pub use ticker::Ticker;
pub use timer::{Timer, span_of};
