//! Why a run stops.
ghost use Rattle.std.specs.Prelude.{◌≡◌};
ghost use Rattle.sf_player.specs.Stops.{stop_end, stop_line};

use crate::end::PlayEnd;
use sf_lines::{LineRefusal, ShortLine, write_fault, write_refusal};
use sf_value::Fault;

/// Why a run stops before the end of its input.
#[derive(Clone, Copy, Debug, PartialEq, Eq)]
pub enum Stop {
    /// The sample at this time, in milliseconds, has this fault.
    Faulted(u64, Fault),
    /// The line with this number, from 1, is refused for this reason.
    Refused(u64, LineRefusal),
}

impl Stop {
    /// How the run ends.
    pub fn end(self) -> PlayEnd
        ensures { result ≡ stop_end self }
    {
        match self {
            Stop::Faulted(_, _) => PlayEnd::Fault,
            Stop::Refused(_, _) => PlayEnd::BadLine,
        }
    }

    /// The line that says so.
    #[cold]
    #[inline(never)]
    pub fn line(self) -> ShortLine
        ensures { result ≡ stop_line self }
    {
        match self {
            Stop::Faulted(time, fault) => write_fault(time, fault),
            Stop::Refused(number, refusal) => write_refusal(number, refusal),
        }
    }
}
