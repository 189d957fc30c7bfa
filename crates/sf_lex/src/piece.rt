ghost use Rattle.std.specs.Prelude.{◌≡◌, ◌≤◌, length, IfOk};
ghost use Rattle.std.specs.List.{prefix_len};
ghost use Rattle.sf_lex.specs.Words.{is_digit};
ghost use Rattle.sf_lex.specs.Tokens.{token_of};
ghost use Rattle.sf_lex.specs.Cutting.{IsReadable};
ghost use Rattle.sf_lex.specs.Scanning.{lexeme_of, start_of, next_piece, next, in_range, within, word_next, digits_next, minus_next, text_next, symbol_next, symbol_of};

use crate::byte::{begins_with_digit, is_blank, is_digit, is_letter, line_len, word_len};
use crate::name::Name;
use crate::symbol::{Symbol, symbol_of};
use crate::text::{bad_escape, text_len, unescaped};
use crate::token::Token;
use crate::word::{Keyword, keyword_of};
use sf_decimal::{digits_at, signed};
use sf_refusal::Rule;
use std::alloc::{AllocError, Global};

/// What a first byte begins.
#[derive(Clone, Copy)]
pub(crate) enum Start {
    Blank,
    Comment,
    Letter,
    Underscore,
    Digit,
    Quote,
    Other,
}

/// A token that owns no memory: a text is what stands between its quotes.
#[derive(Clone, Copy)]
pub(crate) enum Lexeme<'a> {
    Keyword(Keyword),
    Name(&'a [u8]),
    Number(i64),
    Text(&'a [u8]),
    Symbol(Symbol),
}

impl<'a> Lexeme<'a> {
    /// The token itself, of which a text owns its characters.
    pub(crate) fn token(self, alloc: Global) -> Result<Token<'a>, AllocError>
        requires { IsReadable (lexeme_of self) }
        ensures { IfOk result (λ t. token_of t ≡ lexeme_of self.entry) }
    {
        match self {
            Lexeme::Keyword(keyword) => Ok(Token::Keyword(keyword)),
            Lexeme::Name(name) => Ok(Token::Name(Name::of_bytes(name))),
            Lexeme::Number(number) => Ok(Token::Number(number)),
            Lexeme::Text(body) => {
                let chars = unescaped(alloc, body)?;
                Ok(Token::Text(String::from_utf8(chars).unwrap()))
            }
            Lexeme::Symbol(symbol) => Ok(Token::Symbol(symbol)),
        }
    }
}

/// What bytes begin with: a blank or a comment, a token, each with its length, or a rule that is broken with its offset.
#[derive(Clone, Copy)]
pub(crate) enum Scanned<'a> {
    Gap(usize),
    Token(Lexeme<'a>, usize),
    Fault(Rule, usize),
}

fn start_of(b: u8) -> Start
    ensures { result ≡ start_of b }
{
    if is_blank(b) {
        return Start::Blank;
    }
    if b == b'#' {
        return Start::Comment;
    }
    if is_letter(b) {
        return Start::Letter;
    }
    if b == b'_' {
        return Start::Underscore;
    }
    if is_digit(b) {
        return Start::Digit;
    }
    if b == b'"' {
        Start::Quote
    } else {
        Start::Other
    }
}

/// The first n bytes as a keyword or a name.
fn word(bytes: &[u8], n: usize) -> Scanned<'_>
    requires { n ≤ length bytes.now }
    ensures { next_piece result ≡ word_next n bytes.now }
{
    let word = &bytes[..n];
    match keyword_of(word) {
        Some(keyword) => Scanned::Token(Lexeme::Keyword(keyword), n),
        None => Scanned::Token(Lexeme::Name(word), n),
    }
}

/// The digits at the front as a number.
fn digits(bytes: &[u8]) -> Scanned<'_>
    ensures { next_piece result ≡ in_range (digits_next (prefix_len is_digit bytes.now) bytes.now) }
{
    let run = digits_at(bytes);
    match signed(run.number, false) {
        Some(number) => Scanned::Token(Lexeme::Number(number), run.len),
        None => Scanned::Fault(Rule::NumberTooLarge, 0),
    }
}

/// The digits at the front and the minus before them as a number.
fn negative(bytes: &[u8]) -> Scanned<'_>
    ensures { next_piece result ≡ in_range (minus_next (prefix_len is_digit bytes.now) bytes.now) }
{
    let run = digits_at(bytes);
    match signed(run.number, true) {
        Some(number) => Scanned::Token(Lexeme::Number(number), run.len + 1),
        None => Scanned::Fault(Rule::NumberTooLarge, 0),
    }
}

/// What a text goes on with behind its quote.
fn text(bytes: &[u8]) -> Scanned<'_>
    ensures { next_piece result ≡ in_range (text_next bytes.now) }
{
    let Some(n) = text_len(bytes) else {
        return Scanned::Fault(Rule::OpenText, 0);
    };
    let body = &bytes[..n];
    match bad_escape(body) {
        Some(k) => Scanned::Fault(Rule::BadByte, k + 1),
        None => Scanned::Token(Lexeme::Text(body), n + 2),
    }
}

fn symbol(bytes: &[u8]) -> Scanned<'_>
    ensures { next_piece result ≡ in_range (symbol_next (symbol_of bytes.now)) }
{
    match symbol_of(bytes) {
        Some(symbol) => Scanned::Token(Lexeme::Symbol(symbol), symbol.text().len()),
        None => Scanned::Fault(Rule::BadByte, 0),
    }
}

/// What the bytes begin with.
#[tactic(auto, unfolding(crate::specs::Scanning::next))]
pub(crate) fn scan(bytes: &[u8]) -> Scanned<'_>
    ensures { next_piece result ≡ in_range (next bytes.now) }
{
    let [first, rest @ ..] = bytes else {
        return Scanned::Fault(Rule::BadByte, 0);
    };
    match start_of(*first) {
        Start::Blank => Scanned::Gap(1),
        Start::Comment => Scanned::Gap(1 + line_len(rest)),
        Start::Letter => word(bytes, 1 + word_len(rest)),
        Start::Underscore => Scanned::Token(Lexeme::Keyword(Keyword::Underscore), 1),
        Start::Digit => digits(bytes),
        Start::Quote => text(rest),
        Start::Other if *first == b'-' && begins_with_digit(rest) => negative(rest),
        Start::Other => symbol(bytes),
    }
}

impl<'a> Scanned<'a> {
    /// The same, if it ends within this many bytes; else a wrong byte behind them.
    pub(crate) fn within(self, room: usize) -> Scanned<'a>
        ensures { next_piece result ≡ within room (next_piece self.entry) }
    {
        let extent = match self {
            Scanned::Gap(n) => n,
            Scanned::Token(_, n) => n,
            Scanned::Fault(_, k) => k,
        };
        if extent <= room {
            return self;
        }
        Scanned::Fault(Rule::BadByte, room)
    }
}
