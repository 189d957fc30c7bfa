//! Spellings of values: their reader and their writer.
#![tactic(auto)]

mod laws;
mod read;
mod text;
mod write;

pub use laws::{one_reading, same_value, some_reading};
pub use read::{ReadRefusal, read_value};
pub use write::write_value;
