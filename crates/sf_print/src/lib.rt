//! Prints networks: each program has one canonical text.
#![tactic(auto)]

mod draft;
mod expressions;
mod laws;
mod network;
mod terms;
mod types;
mod versions;
mod words;

pub use laws::{canonical_text_is_read, one_canonical_text};
pub use network::write_network;
pub use types::type_text;
pub use versions::type_needs_two;
