use crate::name::Name;
use crate::symbol::Symbol;
use crate::word::Keyword;
use sf_refusal::Spot;

/// A token. A text holds its characters, without quotes and escapes.
#[derive(Debug, Drop)]
pub enum Token<'a> {
    Keyword(Keyword),
    Name(Name<'a>),
    Number(i64),
    Text(String),
    Symbol(Symbol),
}

/// A token and the place of its first byte.
#[derive(Debug, Drop)]
pub struct PlacedToken<'a> {
    pub token: Token<'a>,
    pub spot: Spot,
}
