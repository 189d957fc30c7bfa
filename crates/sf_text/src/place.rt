//! Places of faults.
ghost use Rattle.std.specs.Prelude.{◌≡◌, ◌≤◌, ◌-◌, length, drop};
ghost use Rattle.std.specs.List.{count_by, suffix_len};
ghost use Rattle.sf_lex.specs.Tokens.{offset_place, is_line_feed, is_in_line};
ghost use Rattle.sf_lex.specs.Cutting.{byte_limit};
ghost use Rattle.sf_text.specs.Progress.{first_place, stop_refusal};

use crate::parts::Stop;
use sf_lex::PlacedToken;
use sf_refusal::{Refusal, Spot};

fn line_feeds(bytes: &[u8]) -> usize
    ensures { result ≡ count_by is_line_feed bytes.now }
{
    bytes.iter().filter(|b| **b == b'\n').count()
}

/// How many bytes stand behind the last line feed, or at all.
fn last_line_len(bytes: &[u8]) -> usize
    ensures value { result ≡ suffix_len is_in_line bytes.now }
    ensures short { result ≤ length bytes.now }
{
    bytes.iter().rev().take_while(|b| **b != b'\n').count()
}

/// The place behind the last byte.
#[tactic(auto, using(crate::proofs::Places::end_at))]
fn end_place(bytes: &[u8]) -> Spot
    requires { length bytes.now ≤ byte_limit }
    ensures { result ≡ offset_place bytes.now (length bytes.now) }
{
    Spot {
        line: line_feeds(bytes) as u32 + 1,
        column: last_line_len(bytes) as u32 + 1,
    }
}

/// The place of the token that stands so many tokens before the end, or of the end.
fn place_before(tokens: &[PlacedToken], left: usize, bytes: &[u8]) -> Spot
    requires { length bytes.now ≤ byte_limit }
    ensures { result ≡ first_place (offset_place bytes.now (length bytes.now)) (drop (length tokens.now - left) tokens.now) }
{
    match &tokens[tokens.len().saturating_sub(left)..] {
        [first, ..] => first.spot,
        [] => end_place(bytes),
    }
}

/// Why a text was refused whose reading stopped.
pub(crate) fn refusal_at(stop: Stop, tokens: &[PlacedToken], bytes: &[u8]) -> Refusal
    requires { length bytes.now ≤ byte_limit }
    ensures { result ≡ stop_refusal bytes.now tokens.now stop }
{
    match stop {
        Stop::At(rule, left) => Refusal::broken(rule, place_before(tokens, left, bytes)),
        Stop::Memory => Refusal::Memory,
    }
}
