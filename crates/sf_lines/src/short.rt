//! Lines that take no memory.
ghost use Rattle.std.specs.Prelude.{◌≡◌, ◌+◌, ◌<◌, ◌≤◌, length, List, [], ◌∷◌, ◌++◌, drop};
ghost use Rattle.sf_decimal.specs.Decimals.{natural, integer};

use itoa::write_digits;
use std::marker::Model;

/// A line of at most 64 bytes, its line feed among them. It is written from its end to its start.
#[derive(Drop)]
pub struct ShortLine {
    bytes: [u8; 64],
    start: usize,
}

impl Model for ShortLine {
    ghost use Rattle.std.specs.Prelude.{◌≤◌, ℕ, List, drop};

    ghost Value = { List ℕ };

    ghost view = { λ a. drop a.start a.bytes };

    ghost invariant = { λ a. a.start ≤ 64 };
}

impl ShortLine {
    /// The bytes of the line.
    pub fn as_bytes(&self) -> &[u8]
        ensures { result.now ≡ self.now }
    {
        &self.bytes[self.start..]
    }

    pub(crate) fn new() -> ShortLine
        ensures { result ≡ [] }
    {
        ShortLine {
            bytes: [0; 64],
            start: 64,
        }
    }

    /// Puts a text before what is written.
    pub(crate) fn put(&mut self, text: &[u8])
        requires { length self.old + length text.now ≤ 64 }
        ensures text { self.new ≡ text.now ++ self.old }
        ensures size { length self.new ≡ length self.old + length text.now }
    {
        let mut left = text.len();
        while left > 0 {
            left -= 1;
            self.push(text[left]);
        }
    }

    /// Puts the digits of a number before what is written.
    pub(crate) fn put_natural(&mut self, n: u64)
        requires { length self.old + 20 ≤ 64 }
        ensures text { self.new ≡ natural n ++ self.old }
        ensures size { length self.new ≤ length self.old + 20 }
    {
        self.start = write_digits(n, &mut self.bytes, self.start);
    }

    /// Puts the digits of a number, behind a minus where it is negative, before what is written.
    pub(crate) fn put_integer(&mut self, n: i64)
        requires { length self.old + 21 ≤ 64 }
        ensures text { self.new ≡ integer n ++ self.old }
        ensures size { length self.new ≤ length self.old + 21 }
    {
        self.put_natural(n.unsigned_abs());
        if n < 0 {
            self.push(b'-');
        }
    }

    /// Puts a byte before what is written.
    pub(crate) fn push(&mut self, byte: u8)
        requires { length self.old < 64 }
        ensures text { self.new ≡ byte ∷ self.old }
        ensures size { length self.new ≡ length self.old + 1 }
    {
        self.start -= 1;
        self.bytes[self.start] = byte;
    }
}
