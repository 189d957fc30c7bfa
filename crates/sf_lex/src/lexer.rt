ghost use Rattle.std.specs.Prelude.{◌≡◌, ◌≤◌, ◌<◌, ◌↔◌, length, IfOk, IfErr, IsErrOf};
ghost use Rattle.sf_lex.specs.Cutting.{byte_limit, AreTokensOf, BreaksLexis, IsValidLen, IsOfContent};
ghost use Rattle.sf_refusal.specs.Refusals.{broken, first_spot, OrMemory};
ghost use Rattle.sf_refusal.specs.declared.rule.Rule.TheVariants.{TooLong};

use crate::piece::{Scanned, scan};
use crate::place::after;
use crate::token::PlacedToken;
use sf_refusal::{Refusal, Rule, Spot};
use std::alloc::Global;
use std::str;

/// How many bytes a text has at most.
const BYTE_LIMIT: usize = 1_048_576;

/// The tokens of a text, with their places.
///
/// More than 1,048,576 bytes are refused first (`Rule::TooLong`, at 1:1); then the first fault is named. Its place is
/// that of the first byte at fault: of a byte that is no part of UTF-8, begins no token or may not stand behind a
/// backslash (`Rule::BadByte`); of a number outside signed 64 bits (`Rule::NumberTooLarge`); of the quote of a text that
/// is not closed on its line (`Rule::OpenText`).
pub fn tokens<'a>(alloc: Global, bytes: &'a [u8]) -> Result<Vec<PlacedToken<'a>>, Refusal>
    ensures found { IfOk result (λ v. AreTokensOf bytes.now v.items) }
    ensures refused { IfErr result (OrMemory (BreaksLexis bytes.now)) }
    ensures long { IsErrOf result (broken TooLong first_spot) ↔ (byte_limit < length bytes.now) }
{
    if bytes.len() > BYTE_LIMIT {
        return Err(Refusal::broken(Rule::TooLong, Spot::FIRST));
    }
    cut(alloc, bytes, valid_len(bytes))
}

/// How many bytes at the front are UTF-8.
fn valid_len(bytes: &[u8]) -> usize
    ensures { IsValidLen bytes.now result }
{
    match str::from_utf8(bytes) {
        Ok(_) => bytes.len(),
        Err(error) => error.valid_up_to(),
    }
}

/// The tokens of bytes of which that many at the front are UTF-8.
fn cut<'a>(alloc: Global, bytes: &'a [u8], valid: usize) -> Result<Vec<PlacedToken<'a>>, Refusal>
    requires short { length bytes.now ≤ byte_limit }
    requires valid { IsValidLen bytes.now valid }
    ensures found { IfOk result (λ v. AreTokensOf bytes.now v.items) }
    ensures refused { IfErr result (OrMemory (BreaksLexis bytes.now)) }
    ensures content { IfErr result (λ e. IsOfContent e) }
{
    let mut found = Vec::new(alloc);
    let mut at = 0;
    let mut place = Spot::FIRST;
    while at < bytes.len() {
        let rest = &bytes[at..];
        match scan(rest).within(valid - at) {
            Scanned::Gap(n) => {
                place = after(place, &rest[..n]);
                at += n;
            }
            Scanned::Token(lexeme, n) => {
                let token = lexeme.token(alloc)?;
                found.push(PlacedToken { token, spot: place })?;
                place = after(place, &rest[..n]);
                at += n;
            }
            Scanned::Fault(rule, k) => {
                return Err(Refusal::broken(rule, after(place, &rest[..k])));
            }
        }
    }
    Ok(found)
}
