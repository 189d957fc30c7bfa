//! Runs that are fed their input piece by piece.
#![tactic(auto)]

mod nothing;
mod phase;
mod room;
mod session;

pub use session::Session;
