//! What probes read.
#![tactic(auto)]

mod latest;
mod reading;
mod watch;

pub use latest::Latest;
pub use reading::{Reading, Readings};
pub use watch::Watch;
