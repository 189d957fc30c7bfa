//! Texts from their spellings.
ghost use Rattle.std.specs.Prelude.{◌≡◌, IfOk, string_bytes};
ghost use Rattle.std.specs.Str.{IsUtf8};
ghost use Rattle.sf_spelling.specs.Scan.{between, moved, lead, chars_at, scanned_text};
ghost use Rattle.sf_spelling.specs.Gives.{GivesRead};

use crate::read::{Failure, byte_of};
use std::alloc::Global;

/// Where reading of a text stands.
#[derive(Clone, Copy)]
pub(crate) enum Point {
    /// Between two characters.
    Between,
    /// Behind a backslash.
    Behind,
    /// Within a character: its next byte is from the least to the greatest, and so many more stand behind it.
    Within(u8, u8, u8),
}

/// What a byte does.
#[derive(Clone, Copy)]
pub(crate) enum Move {
    /// Nothing goes on with it.
    Stops,
    /// It ends the text.
    Ends,
    /// It stands for nothing yet.
    Skips(Point),
    /// This byte of the text is read.
    Puts(u8, Point),
}

/// What a byte does at a point.
#[tactic(auto, using(crate::proofs::Bodies::more_later))]
fn moved(point: Point, byte: u8) -> Move
    ensures { result ≡ moved point byte }
{
    match point {
        Point::Between => begun(byte),
        Point::Behind => match byte {
            b'"' => Move::Puts(b'"', Point::Between),
            b'\\' => Move::Puts(b'\\', Point::Between),
            b'n' => Move::Puts(b'\n', Point::Between),
            _ => Move::Stops,
        },
        Point::Within(low, high, more) => {
            if byte < low || high < byte {
                Move::Stops
            } else if more == 0 {
                Move::Puts(byte, Point::Between)
            } else {
                Move::Puts(byte, Point::Within(0x80, 0xBF, more - 1))
            }
        }
    }
}

/// What a byte does between two characters.
fn begun(byte: u8) -> Move
    ensures { result ≡ moved between byte }
{
    if byte == b'"' {
        Move::Ends
    } else if byte == b'\\' {
        Move::Skips(Point::Behind)
    } else if byte == b'\n' {
        Move::Stops
    } else if byte < 0x80 {
        Move::Puts(byte, Point::Between)
    } else {
        lead(byte)
    }
}

/// What the first of several bytes of a character does.
fn lead(byte: u8) -> Move
    ensures { result ≡ lead byte }
{
    if byte < 0xC2 {
        return Move::Stops;
    }
    if byte < 0xE0 {
        return Move::Puts(byte, Point::Within(0x80, 0xBF, 0));
    }
    if byte == 0xE0 {
        return Move::Puts(byte, Point::Within(0xA0, 0xBF, 1));
    }
    if byte == 0xED {
        return Move::Puts(byte, Point::Within(0x80, 0x9F, 1));
    }
    if byte < 0xF0 {
        return Move::Puts(byte, Point::Within(0x80, 0xBF, 1));
    }
    if byte == 0xF0 {
        return Move::Puts(byte, Point::Within(0x90, 0xBF, 2));
    }
    if byte < 0xF4 {
        return Move::Puts(byte, Point::Within(0x80, 0xBF, 2));
    }
    if byte == 0xF4 {
        return Move::Puts(byte, Point::Within(0x80, 0x8F, 2));
    }
    Move::Stops
}

/// The bytes of a text up to its closing quote, and what is after it.
#[tactic(auto, using(crate::proofs::Bodies::follows_stop, crate::proofs::Bodies::follows_end, crate::proofs::Bodies::follows_skip, crate::proofs::Bodies::follows_put, crate::proofs::Bodies::follows_none, crate::proofs::Bodies::follows_start, crate::proofs::Bodies::chars_utf8))]
fn body_of(alloc: Global, bytes: &[u8]) -> Result<(Vec<u8>, &[u8]), Failure>
    ensures text { GivesRead (λ x. (x.0.items, x.1.now)) result (chars_at between bytes.now) }
    ensures utf8 { IfOk result (λ x. IsUtf8 x.0.items) }
{
    let mut chars = Vec::new(alloc);
    let mut point = Point::Between;
    let mut left = bytes;
    while let [c, rest @ ..] = left {
        match moved(point, *c) {
            Move::Stops => return Err(Failure::Bad(left.len())),
            Move::Ends => return Ok((chars, rest)),
            Move::Skips(next) => point = next,
            Move::Puts(byte, next) => {
                if chars.push(byte).is_err() {
                    return Err(Failure::Memory);
                }
                point = next;
            }
        }
        left = rest;
    }
    Err(Failure::Bad(0))
}

/// A text at the front, and what is after it.
#[tactic(auto, using(crate::proofs::Failing::fails_then))]
pub(crate) fn text_of(alloc: Global, bytes: &[u8]) -> Result<(String, &[u8]), Failure>
    ensures { GivesRead (λ x. (string_bytes x.0, x.1.now)) result (scanned_text bytes.now) }
{
    let rest = byte_of(b'"', bytes)?;
    let (chars, rest) = body_of(alloc, rest)?;
    Ok((String::from_utf8(chars).unwrap(), rest))
}
