//! Templates that call themselves for ever: where the first such call stands.
#![tactic(auto)]

mod endless;
mod graph;
mod laws;
mod leading;
mod settling;

pub use endless::first_endless_call;
pub use laws::{endless_or_not, one_endless_call};
