//! Engines: accepted networks that are run sample by sample.
#![tactic(auto)]

mod engine;
mod laws;
mod react;

pub use engine::{Embedded, Engine, EngineError, Mode, Sample};
pub use laws::counted_work;
pub use react::{Actuator, React};
