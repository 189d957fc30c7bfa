//! The states of networks.
#![tactic(auto)]

mod env;
mod feedback;
mod state;

pub use env::{Binding, Call, Collected, Env, Given, Handed, NamesIn, Payload, Running};
pub use feedback::Feedback;
pub use state::{
    Continuation, Editing, Frozen, FrozenNode, Gathered, Gathering, Live, Primitives, Process,
    Releasing, State, Switch, Wrap, hold_back_members, own_states,
};
