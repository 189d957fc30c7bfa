//! Cuts the bytes of a network's text into tokens with their places.
#![tactic(auto)]

mod byte;
mod laws;
mod lexer;
mod name;
mod piece;
mod place;
mod symbol;
mod text;
mod token;
mod word;

pub use laws::tokens_or_a_breach;
pub use lexer::tokens;
pub use name::Name;
pub use sf_refusal::{Refusal, Spot};
pub use symbol::Symbol;
pub use token::{PlacedToken, Token};
pub use word::{Keyword, is_name};
