//! Spellings of numbers.
ghost use Rattle.std.specs.Prelude.{◌≡◌, ◌++◌, ◌≤◌, length, OnOk, OnErr};
ghost use Rattle.sf_decimal.specs.Decimals.{natural, integer};

use itoa::Buffer;
use std::alloc::AllocError;

/// Room for the spelling of a number, which takes no memory.
#[derive(Clone, Copy)]
pub struct Numeral {
    buffer: Buffer,
}

impl Numeral {
    /// Room without a number.
    pub fn new() -> Numeral {
        Numeral {
            buffer: Buffer::new(),
        }
    }

    /// The decimal digits of a number.
    pub fn natural(&mut self, n: u64) -> &[u8]
        ensures text { result.now ≡ natural n }
        ensures short { length result.now ≤ 20 }
    {
        self.buffer.format(n).as_bytes()
    }

    /// The decimal digits of a number, behind a minus where it is negative.
    pub fn integer(&mut self, n: i64) -> &[u8]
        ensures text { result.now ≡ integer n }
        ensures short { length result.now ≤ 20 }
    {
        self.buffer.format(n).as_bytes()
    }
}

/// Appends the decimal digits of a number. An error leaves what was there.
pub fn write_natural(n: u64, out: &mut Vec<u8>) -> Result<(), AllocError>
    ensures ok { OnOk result (out.new.items ≡ out.old.items ++ natural n) }
    ensures err { OnErr result (out.new.items ≡ out.old.items) }
{
    out.extend_from_slice(Numeral::new().natural(n))
}

/// Appends the decimal digits of a number, behind a minus where it is negative. An error leaves what was there.
pub fn write_integer(n: i64, out: &mut Vec<u8>) -> Result<(), AllocError>
    ensures ok { OnOk result (out.new.items ≡ out.old.items ++ integer n) }
    ensures err { OnErr result (out.new.items ≡ out.old.items) }
{
    out.extend_from_slice(Numeral::new().integer(n))
}
