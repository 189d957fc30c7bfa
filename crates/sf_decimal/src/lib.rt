//! Decimal numbers: the digits in front of some bytes, and the spellings of numbers.
#![tactic(auto)]

mod read;
mod write;

pub use read::{Run, digits_at, signed};
pub use write::{Numeral, write_integer, write_natural};
