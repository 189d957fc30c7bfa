//! Networks from their texts: accepted with stored functions, refused for the first rule that is broken, written again.
#![tactic(auto)]

mod explaining;
mod laws;
mod network;

pub use explaining::{difference_text, explain_text};
pub use laws::dumped_text_is_read;
pub use network::{check_text, dump_text, read_accepted};
pub use sf_refusal::{Breach, Refusal, Rule, Spot};
