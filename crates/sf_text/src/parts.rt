//! What terms are made of besides: types, patterns, expressions and functions are read from tokens.

mod cursor;
mod expressions;
mod mark;
mod patterns;
mod reader;
mod stop;
mod types;

pub use cursor::{Cursor, First, Named};
pub use mark::{Mark, refused};
pub use reader::Reader;
pub use stop::Stop;
