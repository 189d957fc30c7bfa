//! How a part begins, and the members that a collection makes.
#![tactic(auto)]

mod calling;
mod collecting;
mod context;
mod drafting;
mod opening;
mod placing;
mod wrapping;

pub use calling::{called, started};
pub use collecting::collect;
pub use context::{SampleContext, fault_of};
pub use drafting::{Change, Draft, draft_of};
pub use opening::{begin, two_of};
pub use placing::{put, take_out};
