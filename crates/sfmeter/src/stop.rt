//! Why a run ends before its input does.
use sf_lines::LineRefusal;
use sf_refusal::Refusal;
use sf_value::Fault;
use std::alloc::AllocError;
use std::io;
use thiserror::Error;

/// Why a run ends before its input does.
#[derive(Debug, Drop, Error)]
pub(crate) enum Stop {
    /// The command line hasn't one word.
    #[error("one word is wanted, the file that has the network's text")]
    Words,
    /// A sample of one of the two plans has this fault.
    #[error("{0}")]
    Sample(#[from] Fault),
    /// A line of the input is refused.
    #[error("{0}")]
    Line(#[from] LineRefusal),
    /// The network is refused.
    #[error("{0}")]
    Network(#[from] Refusal),
    /// Memory ran out, before the input or between its samples.
    #[error("Memory")]
    Memory(#[from(alloc)] AllocError),
    /// The network or the input can't be read, or the counts not be written.
    #[error("{0}")]
    Files(#[from] io::Error),
}

impl Stop {
    /// The exit status of a program that ends so.
    pub(crate) fn status(&self) -> u8 {
        match self {
            Stop::Words => 2,
            Stop::Sample(_) => 3,
            Stop::Line(_) => 4,
            Stop::Network(_) | Stop::Memory(_) => 5,
            Stop::Files(_) => 6,
        }
    }
}
