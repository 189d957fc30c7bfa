//! The tokens that are left of a text, and single ones of them.
ghost use Rattle.std.specs.Prelude.{◌≡◌, ◌∷◌, [], length, IfOk, IfErr};
ghost use Rattle.sf_lex.specs.Tokens.{token_of};
ghost use Rattle.sf_text.specs.Parsing.Answers.{ahead, ReadsAs, IsBehind, named_bytes};
ghost use Rattle.sf_text.specs.Parsing.Consuming.{spots_ahead, BehindOne, NamePlaced};
ghost use Rattle.sf_grammar.specs.Reading.{parse_symbol, parse_keyword, parse_name, parse_number, behind_close};

use crate::parts::mark::Mark;
use crate::parts::stop::Stop;
use sf_lex::{Keyword, Name, PlacedToken, Symbol, Token};
use sf_refusal::{Rule, Spot};
use std::alloc::Global;

/// The tokens that are left of a text, and the allocator for what is read of them.
#[derive(Clone, Copy)]
pub struct Cursor<'a> {
    pub alloc: Global,
    pub tokens: &'a [PlacedToken<'a>],
}

/// The first token of a form, and where it begins.
#[derive(Clone, Copy)]
pub struct First<'a> {
    pub token: &'a Token<'a>,
    pub start: Mark,
}

/// A name and its place.
#[derive(Clone, Copy, Debug)]
pub struct Named<'a> {
    pub name: Name<'a>,
    pub spot: Spot,
}

impl<'a> Cursor<'a> {
    /// A rule that is broken at the first token, or at the end where there is none.
    pub fn stop(&self, rule: Rule) -> Stop
        ensures { result ≡ Stop.At rule (length self.now.tokens.now) }
    {
        Stop::At(rule, self.tokens.len())
    }

    /// The first token.
    pub fn first(&mut self) -> Result<First<'a>, Stop>
        ensures token { IfOk result (λ f. ahead self.old ≡ token_of f.token.now ∷ ahead self.new) }
        ensures counted { IfOk result (λ f. f.start.ahead ≡ length (ahead self.old)) }
        ensures placed { IfOk result (λ f. spots_ahead self.old ≡ f.start.spot ∷ spots_ahead self.new) }
        ensures none { IfErr result (λ e. (ahead self.old ≡ []) × (e ≡ Stop.At Rule.Unexpected 0)) }
    {
        let [first, rest @ ..] = self.tokens else {
            return Err(self.stop(Rule::Unexpected));
        };
        let start = Mark {
            spot: first.spot,
            ahead: self.tokens.len(),
        };
        self.tokens = rest;
        Ok(First {
            token: &first.token,
            start,
        })
    }

    /// A symbol.
    pub fn symbol(&mut self, wanted: Symbol) -> Result<(), Stop>
        ensures reads { ReadsAs (λ u. u) result self.new (parse_symbol wanted (ahead self.old)) }
        ensures behind { IfOk result (λ u. BehindOne (spots_ahead self.old) (spots_ahead self.new)) }
    {
        if let [first, rest @ ..] = self.tokens {
            if let Token::Symbol(symbol) = &first.token {
                if *symbol == wanted {
                    self.tokens = rest;
                    return Ok(());
                }
            }
        }
        Err(self.stop(Rule::Unexpected))
    }

    /// A word of the language.
    pub fn keyword(&mut self, wanted: Keyword) -> Result<(), Stop>
        ensures reads { ReadsAs (λ u. u) result self.new (parse_keyword wanted (ahead self.old)) }
        ensures behind { IfOk result (λ u. BehindOne (spots_ahead self.old) (spots_ahead self.new)) }
    {
        if let [first, rest @ ..] = self.tokens {
            if let Token::Keyword(keyword) = &first.token {
                if *keyword == wanted {
                    self.tokens = rest;
                    return Ok(());
                }
            }
        }
        Err(self.stop(Rule::Unexpected))
    }

    /// A name.
    pub fn name(&mut self) -> Result<Named<'a>, Stop>
        ensures reads { ReadsAs named_bytes result self.new (parse_name (ahead self.old)) }
        ensures placed { IfOk result (λ n. NamePlaced n.spot (spots_ahead self.old) (spots_ahead self.new)) }
    {
        if let [first, rest @ ..] = self.tokens {
            if let Token::Name(name) = &first.token {
                let spot = first.spot;
                self.tokens = rest;
                return Ok(Named { name: *name, spot });
            }
        }
        Err(self.stop(Rule::Unexpected))
    }

    /// A number.
    pub fn number(&mut self) -> Result<i64, Stop>
        ensures reads { ReadsAs (λ z. z) result self.new (parse_number (ahead self.old)) }
        ensures behind { IfOk result (λ z. BehindOne (spots_ahead self.old) (spots_ahead self.new)) }
    {
        if let [first, rest @ ..] = self.tokens {
            if let Token::Number(number) = &first.token {
                self.tokens = rest;
                return Ok(*number);
            }
        }
        Err(self.stop(Rule::Unexpected))
    }

    /// The tokens behind a closing bracket, if one stands in front.
    pub fn behind_close(&self) -> Option<Cursor<'a>>
        ensures { IsBehind result behind_close self.now }
    {
        if let [first, rest @ ..] = self.tokens {
            if let Token::Symbol(Symbol::Close) = &first.token {
                let alloc = self.alloc;
                return Some(Cursor {
                    alloc,
                    tokens: rest,
                });
            }
        }
        None
    }
}
