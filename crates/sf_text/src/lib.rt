//! Reads the text of a network.
#![tactic(auto)]

mod header;
mod listed;
mod network;
mod parts;
mod place;
mod template;
mod term;

pub use network::read_network;
pub use sf_grammar::{one_network, one_place_a_token};
pub use sf_refusal::{Refusal, Spot};
