//! An arena: nodes in the order in which they were added, each with its depth and its place in a text.
#![tactic(auto)]

mod arena;
mod entry;

pub use arena::{Arena, ArenaRefusal};
pub use entry::Entry;
