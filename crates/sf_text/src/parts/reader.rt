//! A text that is read.

use crate::parts::cursor::Cursor;
use sf_term::Program;

/// A text that is read: the tokens that are left of it, and the program that takes what is read.
#[derive(Drop)]
pub struct Reader<'a> {
    pub cursor: Cursor<'a>,
    pub program: Program,
}
