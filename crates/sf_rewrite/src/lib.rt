//! What a plan may do to a network: twelve laws of rewriting, each of which keeps what a term gives on every life and its
//! types, and costs no more.
#![tactic(auto)]

mod laws;

pub use laws::{normal_plan, plan_law, plan_types, quiet_law};
