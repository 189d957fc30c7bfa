//! Why an input line is refused.
ghost use Rattle.std.specs.Prelude.{◌≡◌};
ghost use Rattle.sf_lines.specs.Refusals.{refusal_from};

use sf_spelling::ReadRefusal;
use thiserror::Error;

/// Why an input line is refused.
#[derive(Clone, Copy, Debug, PartialEq, Eq, Error)]
pub enum LineRefusal {
    /// The line has none of the forms of an input line.
    #[error("BadLine")]
    BadLine,
    /// The line has more than 65,536 bytes.
    #[error("LineTooLong")]
    LineTooLong,
    /// A million lines stand before it.
    #[error("TooManyLines")]
    TooManyLines,
    /// A step, a save or a return comes before the first sample.
    #[error("NotStarted")]
    NotStarted,
    /// A first sample comes a second time.
    #[error("Started")]
    Started,
    /// The time step has more than 3,600,000 milliseconds.
    #[error("BadStep")]
    BadStep,
    /// The bytes behind the time step are no value of the input's type.
    #[error("BadValue")]
    BadValue,
    /// A number is outside signed 64 bits.
    #[error("OutOfRange")]
    OutOfRange,
    /// A key stands twice in a table.
    #[error("DuplicateKey")]
    DuplicateKey,
    /// No state was kept under the name. It comes from the engine, and `read_line` never answers it.
    #[error("NoSave")]
    NoSave,
    /// Sixty-four states are kept under other names. It comes from the engine, and `read_line` never answers it.
    #[error("TooManySaves")]
    TooManySaves,
    /// Memory ran out.
    #[error("Memory")]
    Memory,
}

impl From<ReadRefusal> for LineRefusal {
    ghost from_gives = { λ r e. e ≡ refusal_from r };

    fn from(refusal: ReadRefusal) -> LineRefusal {
        match refusal {
            ReadRefusal::BadValue(_) => LineRefusal::BadValue,
            ReadRefusal::OutOfRange(_) => LineRefusal::OutOfRange,
            ReadRefusal::DuplicateKey(_) => LineRefusal::DuplicateKey,
            ReadRefusal::Memory => LineRefusal::Memory,
        }
    }
}
