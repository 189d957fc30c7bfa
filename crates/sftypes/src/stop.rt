//! Why nothing is told.
use sf_refusal::Refusal;
use std::alloc::AllocError;
use std::io;
use thiserror::Error;

/// Why nothing is told.
#[derive(Debug, Drop, Error)]
pub(crate) enum Stop {
    /// The command line hasn't one word.
    #[error("one word is wanted, the file that has the network's text")]
    Words,
    /// The text is no network's.
    #[error("{0}")]
    Network(#[from] Refusal),
    /// Memory ran out.
    #[error("Memory")]
    Memory(#[from(alloc)] AllocError),
    /// The network can't be read, or what is told not be written.
    #[error("{0}")]
    Files(#[from] io::Error),
}

impl Stop {
    /// The exit status of a program that ends so.
    pub(crate) fn status(&self) -> u8 {
        match self {
            Stop::Words => 2,
            Stop::Network(_) | Stop::Memory(_) => 5,
            Stop::Files(_) => 6,
        }
    }
}
