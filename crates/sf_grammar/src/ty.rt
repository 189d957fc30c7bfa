//! Versions of texts, and what tokens stand for within types.
ghost use Rattle.std.specs.Prelude.{◌≡◌};
ghost use Rattle.sf_lex.specs.Tokens.{token_of};
ghost use Rattle.sf_grammar.specs.Reading.{type_head};

use sf_lex::{Keyword, Symbol, Token};

/// The version of a text.
#[derive(Clone, Copy, Debug, PartialEq, Eq)]
pub enum Version {
    /// Tables are written without the type of their keys, which is Int, and `fresh` is a name alone.
    One,
    /// Tables are written with the type of their keys, and `fresh` begins processes anew.
    Two,
}

/// A type that is a word alone.
#[derive(Clone, Copy, Debug, PartialEq, Eq)]
pub enum WordType {
    Unit,
    Bool,
    Int,
    Text,
}

/// What a token begins within types, by its shape.
#[derive(Clone, Copy, Debug, PartialEq, Eq)]
pub enum TypeHead {
    /// A word alone.
    Word(WordType),
    /// A word, and a type behind it.
    Event,
    /// A word, and behind it what the version writes of the keys, and a type.
    Table,
    /// Two types in brackets.
    Pair,
}

/// What a token begins within types.
pub fn type_head(token: &Token) -> Option<TypeHead>
    ensures { result ≡ type_head (token_of token.now) }
{
    match token {
        Token::Keyword(Keyword::Unit) => Some(TypeHead::Word(WordType::Unit)),
        Token::Keyword(Keyword::Bool) => Some(TypeHead::Word(WordType::Bool)),
        Token::Keyword(Keyword::Int) => Some(TypeHead::Word(WordType::Int)),
        Token::Keyword(Keyword::Text) => Some(TypeHead::Word(WordType::Text)),
        Token::Keyword(Keyword::Event) => Some(TypeHead::Event),
        Token::Keyword(Keyword::Table) => Some(TypeHead::Table),
        Token::Symbol(Symbol::Open) => Some(TypeHead::Pair),
        _ => None,
    }
}
