//! The names of saves.
ghost use Rattle.std.specs.Prelude.{◌≡◌, MatchOption};
ghost use Rattle.std.specs.List.{list_all};
ghost use Rattle.sf_lex.specs.Words.{is_letter, is_word, is_word_byte};
ghost use Rattle.sf_lines.specs.Asking.{IsSaveName};

use std::str;

/// The word of the network language that these bytes are; `_` is none.
#[tactic(auto, using(crate::proofs::SaveNames::word_utf8))]
pub(crate) fn word_of(bytes: &[u8]) -> Option<&str>
    ensures { MatchOption result (¬ IsSaveName bytes.now)
        (λ word. IsSaveName bytes.now × (word.now ≡ bytes.now)) }
{
    if is_word(bytes) {
        Some(str::from_utf8(bytes).unwrap())
    } else {
        None
    }
}

fn is_word(bytes: &[u8]) -> bool
    ensures { result ≡ is_word bytes.now }
{
    match bytes {
        [] => false,
        [first, rest @ ..] => is_letter(*first) && all_word_bytes(rest),
    }
}

fn is_letter(byte: u8) -> bool
    ensures { result ≡ is_letter byte }
{
    byte.is_ascii_uppercase() || byte.is_ascii_lowercase()
}

fn all_word_bytes(bytes: &[u8]) -> bool
    ensures { result ≡ list_all is_word_byte bytes.now }
{
    bytes.iter().all(|byte| is_word_byte(*byte))
}

fn is_word_byte(byte: u8) -> bool
    ensures { result ≡ is_word_byte byte }
{
    is_letter(byte) || byte.is_ascii_digit() || byte == b'_'
}
