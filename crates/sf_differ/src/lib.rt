//! What was found and what was wanted where the types of an expression do not fit.
#![tactic(auto)]

mod blame;
mod difference;
mod expression;
mod pattern;
mod suiting;
mod wanting;

pub use blame::Blame;
pub use difference::{Difference, Wanted};
pub use expression::{explain_function, typed};
pub use pattern::pattern_blame;
pub use suiting::suited;
