//! Coincidence: what a process gives depends only on the names that its term mentions.
#![tactic(auto)]

mod laws;

pub use laws::{coincidence, equivalence, only_mentioned};
