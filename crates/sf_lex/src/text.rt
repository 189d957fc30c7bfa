ghost use Rattle.std.specs.Prelude.{◌≡◌, ◌<◌, length, None, false, IfOk, IfSome};
ghost use Rattle.std.specs.String.{string_bytes};
ghost use Rattle.sf_lex.specs.Scanning.{text_len, bad_escape, unescaped};

use crate::byte::escape_of;
use std::alloc::{AllocError, Global};

/// Where the quote is that closes the text, if it is closed on its line.
#[tactic(auto, unfolding(crate::specs::Scanning::text_len))]
pub(crate) fn text_len(bytes: &[u8]) -> Option<usize>
    ensures len { result ≡ text_len 0 false bytes.now }
    ensures within { IfSome result (λ n. n < length bytes.now) }
{
    let mut is_escaped = false;
    for (i, b) in bytes.iter().enumerate() {
        if *b == b'\n' {
            return None;
        }
        if is_escaped {
            is_escaped = false;
        } else if *b == b'"' {
            return Some(i);
        } else {
            is_escaped = *b == b'\\';
        }
    }
    None
}

/// Where the first character is that may not stand behind a backslash.
#[tactic(auto, unfolding(crate::specs::Scanning::bad_escape))]
pub(crate) fn bad_escape(body: &[u8]) -> Option<usize>
    ensures bad { result ≡ bad_escape 0 false body.now }
    ensures within { IfSome result (λ n. n < length body.now) }
{
    let mut is_escaped = false;
    for (i, b) in body.iter().enumerate() {
        if is_escaped {
            if escape_of(*b).is_none() {
                return Some(i);
            }
            is_escaped = false;
        } else {
            is_escaped = *b == b'\\';
        }
    }
    None
}

/// The characters that the bytes between two quotes stand for.
#[tactic(auto, unfolding(crate::specs::Scanning::unescaped))]
pub(crate) fn unescaped(alloc: Global, body: &[u8]) -> Result<Vec<u8>, AllocError>
    ensures { IfOk result (λ v. v.items ≡ unescaped false body.now) }
{
    let mut chars = Vec::new(alloc);
    let mut is_escaped = false;
    for b in body {
        if is_escaped {
            chars.push(if *b == b'n' { b'\n' } else { *b })?;
            is_escaped = false;
        } else if *b == b'\\' {
            is_escaped = true;
        } else {
            chars.push(*b)?;
        }
    }
    Ok(chars)
}
