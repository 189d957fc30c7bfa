//! Texts to which tokens are appended.
ghost use Rattle.std.specs.Prelude.{◌≡◌, ◌++◌, [], OnOk, string_bytes};
ghost use Rattle.sf_lex.specs.Tokens;
ghost use Rattle.sf_expr.specs.Constants.{text_bytes};
ghost use Rattle.sf_print.specs.Canonical.{has_own_brackets, has_brackets, collection_has_brackets, expression_has_brackets, closes, is_round, ends_line, opens};
ghost use Rattle.sf_print.specs.Drafts.{is_text, append_token, as_last, is_apart, is_spaced, space};
ghost use Rattle.sf_print.specs.Signs.{sign_token};
ghost use Rattle.sf_print.specs.declared.draft.Last.TheVariants as lasts;

use crate::words::Sign;
use sf_decimal::write_integer;
use sf_grammar::{CollectionHead, ExpressionHead, Head, collection_head, expression_head, head_of};
use sf_lex::{Keyword, Symbol, Token};
use sf_spelling::write_value;
use sf_value::{Form, Value};
use std::alloc::{AllocError, Global};
use std::marker::Model;

/// What a token lets stand behind it.
#[derive(Clone, Copy, Debug, PartialEq, Eq)]
pub(crate) enum Last {
    /// It opens a bracket or ends a line: nothing stands behind it.
    Opening,
    /// It begins a form in brackets: nothing stands before the opening one.
    Head,
    /// It is any other.
    Other,
}

/// The front of a text.
#[derive(Drop)]
pub(crate) struct Draft {
    bytes: Vec<u8>,
    last: Last,
}

impl Model for Draft {
    ghost use Rattle.sf_print.specs.Drafts.{Front};

    ghost Value = { Front };

    ghost view = { λ a. record { bytes = a.bytes.items; last = a.last } };
}

impl Draft {
    /// The front without a token.
    pub(crate) fn new(alloc: Global) -> Draft
        ensures { result ≡ record { bytes = []; last = lasts.Opening } }
    {
        Draft {
            bytes: Vec::new(alloc),
            last: Last::Opening,
        }
    }

    /// The bytes so far.
    pub(crate) fn into_bytes(self) -> Vec<u8>
        ensures { result.items ≡ self.bytes }
    {
        let Draft { bytes, last: _ } = self;
        bytes
    }

    /// Appends a space, if it is wanted, and the bytes of a token that lets this stand behind it.
    fn append(&mut self, spaced: bool, token: &[u8], last: Last) -> Result<(), AllocError>
        ensures { OnOk result (self.new ≡ record { bytes = self.old.bytes ++ (space spaced ++ token.now); last = last }) }
    {
        if spaced {
            self.bytes.push(b' ')?;
        }
        self.bytes.extend_from_slice(token)?;
        self.last = last;
        Ok(())
    }

    /// Appends a keyword.
    pub(crate) fn keyword(&mut self, word: Keyword) -> Result<(), AllocError>
        ensures { OnOk result (self.new ≡ append_token self.old (Tokens.keyword word)) }
    {
        let spaced = is_apart(self.last);
        self.append(spaced, word.word().as_bytes(), last_of_keyword(word))
    }

    /// Appends a name.
    pub(crate) fn name(&mut self, name: &str) -> Result<(), AllocError>
        ensures { OnOk result (self.new ≡ append_token self.old (Tokens.name name.now)) }
    {
        let spaced = is_apart(self.last);
        self.append(spaced, name.as_bytes(), Last::Head)
    }

    /// Appends a number.
    pub(crate) fn number(&mut self, number: i64) -> Result<(), AllocError>
        ensures { OnOk result (self.new ≡ append_token self.old (Tokens.number number)) }
    {
        let spaced = is_apart(self.last);
        self.append(spaced, &[], Last::Other)?;
        write_integer(number, &mut self.bytes)
    }

    /// Appends the text that a value is; one without characters for any other value.
    pub(crate) fn text(&mut self, value: &Value) -> Result<(), AllocError>
        ensures { OnOk result (self.new ≡ append_token self.old (Tokens.text (text_bytes value.now))) }
    {
        let spaced = is_apart(self.last);
        self.append(spaced, &[], Last::Other)?;
        if is_text(value) {
            write_value(value, &mut self.bytes)
        } else {
            self.bytes.extend_from_slice(b"\"\"")
        }
    }

    /// Appends a symbol.
    pub(crate) fn symbol(&mut self, symbol: Symbol) -> Result<(), AllocError>
        ensures { OnOk result (self.new ≡ append_token self.old (Tokens.symbol symbol)) }
    {
        let spaced = is_spaced(self.last, symbol);
        self.append(spaced, symbol.text().as_bytes(), last_of_symbol(symbol))?;
        if ends_line(symbol) {
            self.bytes.push(b'\n')?;
        }
        Ok(())
    }

    /// Appends a keyword or a symbol.
    pub(crate) fn sign(&mut self, sign: Sign) -> Result<(), AllocError>
        ensures { OnOk result (self.new ≡ append_token self.old (sign_token sign)) }
    {
        match sign {
            Sign::Word(word) => self.keyword(word),
            Sign::Symbol(symbol) => self.symbol(symbol),
        }
    }
}

/// Whether a value is a text.
fn is_text(value: &Value) -> bool
    ensures { result ≡ is_text value.now }
{
    match value.form() {
        Form::Text(_) => true,
        Form::Unit
        | Form::Bool(_)
        | Form::Int(_)
        | Form::Pair(_)
        | Form::NoEvent
        | Form::UnitEvent
        | Form::Event(_)
        | Form::Table(_) => false,
    }
}

/// Whether a space stands before a token that is no symbol.
fn is_apart(last: Last) -> bool
    ensures { result ≡ is_apart last }
{
    match last {
        Last::Opening => false,
        Last::Head | Last::Other => true,
    }
}

/// Whether a space stands before a symbol.
fn is_spaced(last: Last, symbol: Symbol) -> bool
    ensures { result ≡ is_spaced last (Tokens.symbol symbol) }
{
    match last {
        Last::Opening => false,
        Last::Head => !(closes(symbol) || is_round(symbol)),
        Last::Other => !closes(symbol),
    }
}

/// Whether a symbol is a comma, a semicolon, a colon or a closing bracket.
fn closes(symbol: Symbol) -> bool
    ensures { result ≡ closes (Tokens.symbol symbol) }
{
    match symbol {
        Symbol::Comma | Symbol::Semicolon | Symbol::Colon | Symbol::Close | Symbol::CloseBracket =>
            true,
        _ => false,
    }
}

/// Whether a symbol is the bracket that a form in brackets has.
fn is_round(symbol: Symbol) -> bool
    ensures { result ≡ is_round (Tokens.symbol symbol) }
{
    match symbol {
        Symbol::Open => true,
        _ => false,
    }
}

/// Whether a symbol ends a line.
fn ends_line(symbol: Symbol) -> bool
    ensures { result ≡ ends_line (Tokens.symbol symbol) }
{
    match symbol {
        Symbol::Semicolon => true,
        _ => false,
    }
}

/// Whether the parts of a term stand in brackets directly behind its first token.
fn has_brackets(head: Option<Head>) -> bool
    ensures { result ≡ has_brackets head }
{
    match head {
        Some(
            Head::Accumulated(_)
            | Head::Headed(_)
            | Head::Transformed
            | Head::Switching(_)
            | Head::Continuation(_)
            | Head::Releasing(_)
            | Head::Editing(_)
            | Head::Call,
        ) => true,
        _ => false,
    }
}

/// Whether the parts of a collection stand in brackets directly behind its first token.
fn collection_has_brackets(head: Option<CollectionHead>) -> bool
    ensures { result ≡ collection_has_brackets head }
{
    match head {
        Some(CollectionHead::Added | CollectionHead::Dropped | CollectionHead::Kept) => true,
        _ => false,
    }
}

/// Whether the parts of an expression stand in brackets directly behind its first token.
fn expression_has_brackets(head: Option<ExpressionHead>) -> bool
    ensures { result ≡ expression_has_brackets head }
{
    match head {
        Some(
            ExpressionHead::OneInBrackets(_)
            | ExpressionHead::TwoInBrackets(_)
            | ExpressionHead::OneAndFunction(_)
            | ExpressionHead::TwoAndFunction(_),
        ) => true,
        _ => false,
    }
}

/// What a keyword lets stand behind it.
#[tactic(auto, unfolding(crate::specs::Canonical::has_own_brackets))]
fn last_of_keyword(word: Keyword) -> Last
    ensures { result ≡ as_last (Tokens.keyword word) }
{
    let token = Token::Keyword(word);
    let in_term = has_brackets(head_of(&token));
    let in_collection = collection_has_brackets(collection_head(&token));
    if in_term || in_collection || expression_has_brackets(expression_head(word)) {
        Last::Head
    } else {
        Last::Other
    }
}

/// What a symbol lets stand behind it.
#[tactic(auto, unfolding(crate::specs::Canonical::has_own_brackets))]
fn last_of_symbol(symbol: Symbol) -> Last
    ensures { result ≡ as_last (Tokens.symbol symbol) }
{
    match symbol {
        Symbol::Semicolon | Symbol::Open | Symbol::OpenBracket => Last::Opening,
        Symbol::Initially | Symbol::OnFirstInput | Symbol::MapsFirstInput => Last::Head,
        _ => Last::Other,
    }
}
