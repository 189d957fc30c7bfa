//! What networks mean: lives, formulas, outcomes and costs, with their laws.
#![tactic(auto)]

mod laws;

pub use laws::{found_output, one_outcome, prefix_law, restart, some_outcome, typed_process};
