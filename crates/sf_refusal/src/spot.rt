//! Places in a text.
ghost use Rattle.std.specs.Prelude.{Some};
ghost use Rattle.sf_refusal.specs.Refusals.{spot_text};

use std::fmt::{self, Display, Formatter, Write};

/// A place in a text: its line and its column, both from 1, the column in bytes. Both are 0 where there is no text. It
/// is displayed as `LINE:COLUMN`.
#[derive(Clone, Copy, Debug, PartialEq, Eq)]
pub struct Spot {
    /// The line, from 1.
    pub line: u32,
    /// The column in bytes, from 1.
    pub column: u32,
}

impl Spot {
    /// The place of what stands in no text.
    pub const NONE: Spot = Spot { line: 0, column: 0 };

    /// Where a text begins.
    pub const FIRST: Spot = Spot { line: 1, column: 1 };
}

impl Display for Spot {
    // The line, a colon and the column.
    ghost output = { λ s. Some (spot_text s) };

    fn fmt<W: Write>(&self, f: &mut Formatter<W>) -> fmt::Result {
        let Spot { line, column } = self;
        write!(f, "{line}:{column}")
    }
}
