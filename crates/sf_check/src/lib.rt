//! Which networks are accepted.
#![tactic(auto)]

mod blaming;
mod body;
mod call_differing;
mod calling;
mod checked;
mod checker;
mod collection_types;
mod context;
mod differing;
mod laws;
mod member_types;
mod names;
mod parameters;
mod process_types;
mod typing;

pub use checked::Checked;
pub use checker::check;
pub use differing::difference;
pub use laws::{accepted_or_refused, judged_output, one_refusal, some_answer};
pub use sf_differ::{Difference, Wanted};
pub use sf_refusal::{Breach, Refusal, Rule, Spot};
