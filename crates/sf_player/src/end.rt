//! How a run ends.
ghost use Rattle.std.specs.Prelude.{◌≡◌};
ghost use Rattle.sf_player.specs.Statuses.{status_of};

use sf_refusal::Refusal;

/// How a run ended.
#[derive(Clone, Copy, Debug, PartialEq, Eq)]
pub enum PlayEnd {
    /// The whole input was played.
    Done,
    /// A sample had a fault, and `! T FAULT` was written.
    Fault,
    /// A line was refused, and `! line N REFUSAL` was written.
    BadLine,
    /// The network was refused, and nothing was read or written.
    Network(Refusal),
    /// The reader failed.
    ReadFault,
    /// The writer failed.
    WriteFault,
}

impl PlayEnd {
    /// The exit status of a program that ends so.
    pub fn status(&self) -> u8
        ensures { result ≡ status_of self.now }
    {
        match self {
            PlayEnd::Done => 0,
            PlayEnd::Fault => 3,
            PlayEnd::BadLine => 4,
            PlayEnd::Network(_) => 5,
            PlayEnd::ReadFault | PlayEnd::WriteFault => 6,
        }
    }
}
