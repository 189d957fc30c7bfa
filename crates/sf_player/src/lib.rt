//! Plays the lines of an input through a network.
#![tactic(auto)]

mod counted;
mod end;
mod gather;
mod laws;
mod options;
mod player;
mod save_refusal;
mod session;
mod stop;

pub use counted::Counted;
pub use end::PlayEnd;
pub use laws::{one_script, prefix_law};
pub use options::Options;
pub use player::Player;
pub use session::play;
pub use sf_accept::{check_text, dump_text};
pub use sf_refusal::{Breach, Refusal, Rule, Spot};
pub use stop::Stop;
