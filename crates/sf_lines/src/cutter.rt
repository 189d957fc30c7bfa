//! The lines of a stream that comes in pieces.
ghost use Rattle.std.specs.Prelude.{◌≡◌, ℕ, ◌+◌, ◌-◌, ◌<◌, ◌≤◌, ◌≢◌, length, IfOk, IfErr, MatchOption, List, [], ◌++◌, take, vec_len, vec_capacity, None};
ghost use Rattle.sf_lines.specs.Lines.{NoFeed, FirstFeed};
ghost use Rattle.sf_lines.specs.declared.cutter.State.TheVariants.{Unfinished};

use crate::refusal::LineRefusal;
use memchr::memchr;
use std::alloc::{AllocError, Global};

/// What came of a piece of the stream.
#[derive(Clone, Copy, Debug, PartialEq, Eq)]
pub enum Cut<'a> {
    /// The piece begins with this line, whose line feed follows. The cutter holds nothing of it.
    Whole(&'a [u8]),
    /// The line that the cutter holds is complete, behind this many bytes of the piece.
    Line(usize),
    /// The piece is used up.
    Part,
}

/// What the bytes that a cutter holds are.
#[derive(Clone, Copy)]
enum State {
    /// The bytes of an unfinished line.
    Unfinished,
    /// A complete line.
    Complete,
    /// Nothing that counts, since a line was refused.
    Refused(LineRefusal),
}

/// Cuts a stream into lines of at most 65,536 bytes, of which there are at most 1,000,000.
#[derive(Drop)]
pub struct Cutter {
    held: Vec<u8>,
    count: u32,
    state: State,
    ghost room: { 65536 ≤ vec_capacity held },
    ghost short: { vec_len held ≤ 65536 },
    ghost few: { count ≤ 1000000 },
    ghost last: { count ≡ 1000000 → state ≡ Unfinished → vec_len held ≡ 0 },
}

impl Cutter {
    ghost use Rattle.sf_lines.specs.Cutting.{line_of, line_cut, stopped_by, IsStoppedBy, IsBegun, CutsPiece, Ends};
    ghost use Rattle.sf_lines.specs.Standing.{CutterStands, TakesPiece, TakesBytes, Finishes, FinishesBytes};

    /// A cutter at the beginning of a stream, with room for a line.
    pub fn new(alloc: Global) -> Result<Cutter, AllocError>
        ensures { IfOk result (λ c. CutterStands c [] [] × (line_of c ≡ [])) }
    {
        let held = Vec::with_capacity(alloc, 65536)?;
        Ok(Cutter {
            held,
            count: 0,
            state: State::Unfinished,
        })
    }

    /// Takes the bytes of a piece up to and with its first line feed, or all where it has none. It takes no memory.
    ///
    /// A line that stands whole in the piece is handed out as it stands there. Of any other line the bytes are held.
    /// `TooManyLines` comes at the first byte of line 1,000,001, and else `LineTooLong` at the 65,537th byte of a
    /// line. After a refusal each later call answers it again.
    pub fn take<'a>(&mut self, piece: &'a [u8]) -> Result<Cut<'a>, LineRefusal>
        // Whatever stream the cutter stands for, the bytes follow it.
        ensures cuts { (stream : List ℕ) (lines : List (List ℕ)) →
            CutterStands self.old stream lines → TakesPiece stream lines piece.now result self.new }
        ensures sizes { TakesBytes self.old piece.now result self.new }
        ensures again { (r : LineRefusal) → IsStoppedBy self.old r → result ≡ Err r }
        ensures refused { IfErr result (IsStoppedBy self.new) }
    {
        if let State::Refused(refusal) = self.state {
            return Err(refusal);
        }
        match self.cut(piece) {
            Ok(cut) => Ok(cut),
            Err(refusal) => {
                self.state = State::Refused(refusal);
                Err(refusal)
            }
        }
    }

    /// Completes an unfinished line at the end of the stream: `Line(0)` where bytes of one are held, else `Part`.
    ///
    /// It takes no memory. A later `take` begins the next line. After a refusal each later call answers it again.
    pub fn finish(&mut self) -> Result<Cut<'static>, LineRefusal>
        ensures ends { (stream : List ℕ) (lines : List (List ℕ)) →
            CutterStands self.old stream lines → Finishes stream lines result self.new }
        ensures sizes { FinishesBytes self.old result self.new }
        ensures again { (r : LineRefusal) → IsStoppedBy self.old r → result ≡ Err r }
        ensures refused { IfErr result (IsStoppedBy self.new) }
    {
        if let State::Refused(refusal) = self.state {
            return Err(refusal);
        }
        Ok(self.end())
    }

    /// The line that a call of `take` or `finish` completed by this answer, without its line feed; nothing where it
    /// completed none.
    pub fn line<'a>(&'a self, cut: Cut<'a>) -> &'a [u8]
        ensures { result.now ≡ line_cut self.now cut.entry }
    {
        match cut {
            Cut::Whole(line) => line,
            Cut::Line(_) => self.held_line(),
            Cut::Part => &[],
        }
    }

    fn held_line(&self) -> &[u8]
        ensures { result.now ≡ line_of self.now }
    {
        match self.state {
            State::Complete => self.held.as_slice(),
            _ => &[],
        }
    }

    fn cut<'a>(&mut self, piece: &'a [u8]) -> Result<Cut<'a>, LineRefusal>
        requires { stopped_by self.old ≡ None }
        ensures { CutsPiece self.old piece.now result self.new }
    {
        self.begin();
        if piece.is_empty() {
            return Ok(Cut::Part);
        }
        if self.count == 1_000_000 {
            return Err(LineRefusal::TooManyLines);
        }
        match feed_in(piece) {
            Some(at) => {
                if self.room() < at {
                    return Err(LineRefusal::LineTooLong);
                }
                if self.held.is_empty() {
                    self.count += 1;
                    return Ok(Cut::Whole(&piece[..at]));
                }
                self.hold(&piece[..at]);
                self.count += 1;
                self.state = State::Complete;
                Ok(Cut::Line(at + 1))
            }
            None => {
                if self.room() < piece.len() {
                    return Err(LineRefusal::LineTooLong);
                }
                self.hold(piece);
                Ok(Cut::Part)
            }
        }
    }

    fn end(&mut self) -> Cut<'static>
        requires { stopped_by self.old ≡ None }
        ensures { Ends self.old result self.new }
    {
        self.begin();
        if self.held.is_empty() {
            return Cut::Part;
        }
        self.count += 1;
        self.state = State::Complete;
        Cut::Line(0)
    }

    // A complete line is let go, and the next one begins.
    fn begin(&mut self)
        requires { stopped_by self.old ≡ None }
        ensures { IsBegun self.old self.new }
    {
        if let State::Complete = self.state {
            self.held.clear();
            self.state = State::Unfinished;
        }
    }

    fn room(&self) -> usize
        ensures { result + length self.now.held.items ≡ 65536 }
    {
        65536 - self.held.len()
    }

    fn hold(&mut self, bytes: &[u8])
        requires room { length self.old.held.items + length bytes.now ≤ 65536 }
        requires more { self.old.count ≢ 1000000 }
        ensures held { self.new.held.items ≡ self.old.held.items ++ bytes.now }
        ensures rest { (self.new.count ≡ self.old.count) × (self.new.state ≡ self.old.state) }
    {
        self.held.extend_from_slice(bytes).unwrap();
    }
}

/// Where the first line feed is.
fn feed_in(piece: &[u8]) -> Option<usize>
    ensures { MatchOption result (NoFeed piece.now) (FirstFeed piece.now) }
{
    memchr(b'\n', piece)
}
