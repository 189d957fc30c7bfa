//! The lines of an input and of an output.
//!
//! An input line is empty or a comment behind `#`, `DT VALUE`, a time step in milliseconds and a value, `DT =`, a step
//! with the input unchanged, `save NAME`, which keeps the state under a name, or `back NAME`, which returns to it. An
//! output line is `> T VALUE`, a sample, `? NAME VALUE`, a reading of a sample, `! T FAULT`, the fault of a sample, or
//! `! line N REFUSAL`, the refusal of an input line.
#![tactic(auto)]

mod cutter;
mod laws;
mod reader;
mod refusal;
mod short;
mod word;
mod writer;

pub use cutter::{Cut, Cutter};
pub use laws::{one_answer, some_answer};
pub use reader::{Command, read_line};
pub use refusal::LineRefusal;
pub use short::ShortLine;
pub use writer::{write_fault, write_reading, write_refusal, write_sample};
