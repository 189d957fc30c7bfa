//! Places in the text of a network, and what a network can be refused for there.
#![tactic(auto)]

mod refusal;
mod rule;
mod spot;

pub use refusal::{Breach, Refusal};
pub use rule::Rule;
pub use spot::Spot;
