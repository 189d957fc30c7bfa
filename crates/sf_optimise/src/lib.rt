//! The plans of a network: the one that is the network itself, and the one that laws of rewriting make of it.
#![tactic(auto)]

mod copying;
mod making;
mod optimising;
mod quietness;
mod sequence;

pub use copying::plain;
pub use optimising::optimise;
pub use quietness::quiet;
