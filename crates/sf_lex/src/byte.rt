ghost use Rattle.std.specs.Prelude.{◌≡◌, ◌≤◌, length};
ghost use Rattle.std.specs.List.{list_all, prefix_len};
ghost use Rattle.sf_lex.specs.Words.{is_digit, is_letter, is_word_byte};
ghost use Rattle.sf_lex.specs.Cutting.{is_blank, escape_of};
ghost use Rattle.sf_lex.specs.Tokens.{is_in_line};
ghost use Rattle.sf_lex.specs.Scanning.{begins_with_digit};

pub(crate) fn is_blank(b: u8) -> bool
    ensures { result ≡ is_blank b }
{
    b == b' ' || b == b'\t' || b == b'\n' || b == b'\r'
}

pub(crate) fn is_letter(b: u8) -> bool
    ensures { result ≡ is_letter b }
{
    b.is_ascii_uppercase() || b.is_ascii_lowercase()
}

pub(crate) fn is_digit(b: u8) -> bool
    ensures { result ≡ is_digit b }
{
    b.is_ascii_digit()
}

pub(crate) fn is_word_byte(b: u8) -> bool
    ensures { result ≡ is_word_byte b }
{
    is_letter(b) || is_digit(b) || b == b'_'
}

/// The byte that this character behind a backslash stands for.
pub(crate) fn escape_of(b: u8) -> Option<u8>
    ensures { result ≡ escape_of b }
{
    if b == b'"' {
        return Some(b'"');
    }
    if b == b'\\' {
        return Some(b'\\');
    }
    if b == b'n' {
        return Some(b'\n');
    }
    None
}

/// How many bytes at the front belong to a word.
pub(crate) fn word_len(bytes: &[u8]) -> usize
    ensures len { result ≡ prefix_len is_word_byte bytes.now }
    ensures within { result ≤ length bytes.now }
{
    bytes.iter().take_while(|b| is_word_byte(**b)).count()
}

/// How many bytes stand in front of the first line feed, or at all.
pub(crate) fn line_len(bytes: &[u8]) -> usize
    ensures len { result ≡ prefix_len is_in_line bytes.now }
    ensures within { result ≤ length bytes.now }
{
    bytes.iter().take_while(|b| **b != b'\n').count()
}

/// Whether all bytes belong to a word.
pub(crate) fn all_word_bytes(bytes: &[u8]) -> bool
    ensures { result ≡ list_all is_word_byte bytes.now }
{
    bytes.iter().all(|b| is_word_byte(*b))
}

pub(crate) fn begins_with_digit(bytes: &[u8]) -> bool
    ensures { result ≡ begins_with_digit bytes.now }
{
    match bytes {
        [] => false,
        [first, ..] => is_digit(*first),
    }
}
