//! Types.
ghost use Rattle.std.specs.Prelude.{◌≡◌, ◌<◌, ◌≤◌, ◌↔◌, ◌+◌, Err, IfOk, List, length};
ghost use Rattle.sf_value.specs.Values.{Kind, nodes};
ghost use Rattle.sf_value.specs.KindView.{key_kind_of};
ghost use Rattle.sf_value.specs.declared.ty.TyRefusal.TheVariants.{TypeTooLarge};
ghost use Rattle.sf_lex.specs.Tokens.{Tok};
ghost use Rattle.sf_text.specs.Parsing.Answers.{ahead, StopsReading, ReadsAs, stop_for_type, outer_kind};
ghost use Rattle.sf_text.specs.Parsing.Consuming.{spots_ahead, BehindSome};
ghost use Rattle.sf_grammar.specs.Reading.{begins_type, too_deep, word_kind, parse_keys, parse_inner_type, parse_type_form, parse_headed_type, parse_outer_type, parse_pair_type, parse_type};

use crate::parts::cursor::{Cursor, First};
use crate::parts::stop::Stop;
use sf_grammar::{TypeHead, Version, WordType, type_head};
use sf_lex::{Keyword, Symbol, Token};
use sf_refusal::Rule;
use sf_value::{KeyType, Ty, TyRefusal};
use std::alloc::Global;

/// What a type is that is made of one part.
#[derive(Clone, Copy, Debug, PartialEq, Eq)]
enum Outer {
    Event,
    Table(KeyType),
}

/// Why a type was not made that has so many tokens ahead at its first one.
fn type_refused(refusal: TyRefusal, start: usize) -> Stop
    ensures { result ≡ stop_for_type refusal start }
{
    match refusal {
        TyRefusal::TypeTooLarge => Stop::At(Rule::WrittenTypeTooLarge, start),
        TyRefusal::Memory => Stop::Memory,
    }
}

/// The type that is a word alone.
fn word_type(word: WordType) -> Ty
    ensures { result ≡ word_kind word }
{
    match word {
        WordType::Unit => Ty::unit(),
        WordType::Bool => Ty::bool(),
        WordType::Int => Ty::int(),
        WordType::Text => Ty::text(),
    }
}

/// The type that is made of one part.
fn made(alloc: Global, outer: Outer, part: Ty) -> Result<Ty, TyRefusal>
    ensures ok { IfOk result (λ t. t ≡ outer_kind outer part) }
    ensures large { result ≡ Err TypeTooLarge ↔ (256 < nodes part + 1) }
{
    match outer {
        Outer::Event => Ty::event(alloc, part),
        Outer::Table(keys) => Ty::table(alloc, keys, part),
    }
}

impl<'a> Cursor<'a> {
    /// A type would be 65 deep here.
    fn type_too_deep(&self) -> Stop
        ensures { StopsReading {A = Kind} result (too_deep begins_type (ahead self.now)) }
    {
        match self.tokens {
            [first, ..] if type_head(&first.token).is_some() => self.stop(Rule::TooDeep),
            _ => self.stop(Rule::Unexpected),
        }
    }

    /// The type of a table's keys, of which the version writes what it writes.
    pub fn keys(&mut self, version: Version) -> Result<KeyType, Stop>
        ensures reads { ReadsAs key_kind_of result self.new (parse_keys version (ahead self.old)) }
        ensures behind { IfOk result (λ k. BehindSome (spots_ahead self.old) (spots_ahead self.new)) }
    {
        if version == Version::One {
            return Ok(KeyType::Int);
        }
        let First { token, start } = self.first()?;
        match token {
            Token::Keyword(Keyword::Int) => Ok(KeyType::Int),
            Token::Keyword(Keyword::Text) => Ok(KeyType::Text),
            _ => Err(Stop::At(Rule::Unexpected, start.ahead)),
        }
    }

    /// A type.
    pub fn ty(&mut self, version: Version) -> Result<Ty, Stop>
        ensures reads { ReadsAs (λ k. k) result self.new (parse_type version (ahead self.old)) }
        ensures behind { IfOk result (λ t. BehindSome (spots_ahead self.old) (spots_ahead self.new)) }
    {
        self.type_within(version, 64)
    }

    /// A type of so much depth at most.
    pub fn type_within(&mut self, version: Version, left: u32) -> Result<Ty, Stop>
        ensures reads { ReadsAs (λ k. k) result self.new (parse_inner_type left version (ahead self.old) 0 (ahead self.old)) }
        ensures behind { IfOk result (λ t. BehindSome (spots_ahead self.old) (spots_ahead self.new)) }
    {
        let start = self.tokens.len();
        self.inner_type(version, start, 0, left)
    }

    /// A type of so much depth at most, behind so many others (256 at most) within the one that has so many tokens ahead at
    /// its first one.
    #[cycle(ty)]
    #[tactic(auto, using(crate::proofs::Parsing::Deeper::inner_type_at_more, crate::proofs::Parsing::Deeper::inner_type_at_zero))]
    fn inner_type(
        &mut self,
        version: Version,
        start: usize,
        met: u32,
        left: u32,
    ) -> Result<Ty, Stop>
        requires { met ≤ 256 }
        ensures reads { (whole : List Tok) → length whole ≡ start →
            ReadsAs (λ k. k) result self.new (parse_inner_type left version whole met (ahead self.old)) }
        ensures behind { IfOk result (λ t. BehindSome (spots_ahead self.old) (spots_ahead self.new)) }
    {
        if left == 0 {
            return Err(self.type_too_deep());
        }
        self.type_form(version, start, met, left - 1)
    }

    #[cycle(ty)]
    fn type_form(&mut self, version: Version, start: usize, met: u32, left: u32) -> Result<Ty, Stop>
        requires { met ≤ 256 }
        ensures reads { (whole : List Tok) → length whole ≡ start →
            ReadsAs (λ k. k) result self.new (parse_type_form (parse_inner_type left version whole) version whole met (ahead self.old)) }
        ensures behind { IfOk result (λ t. BehindSome (spots_ahead self.old) (spots_ahead self.new)) }
    {
        let first = self.first()?;
        let Some(head) = type_head(first.token) else {
            return Err(Stop::At(Rule::Unexpected, first.start.ahead));
        };
        if met >= 256 {
            return Err(Stop::At(Rule::WrittenTypeTooLarge, start));
        }
        self.headed_type(version, start, met, left, head)
    }

    /// A type behind its first token.
    #[cycle(ty)]
    fn headed_type(
        &mut self,
        version: Version,
        start: usize,
        met: u32,
        left: u32,
        head: TypeHead,
    ) -> Result<Ty, Stop>
        requires { met < 256 }
        ensures reads { (whole : List Tok) → length whole ≡ start →
            ReadsAs (λ k. k) result self.new (parse_headed_type (parse_inner_type left version whole) version head met (ahead self.old)) }
        ensures behind { IfOk result (λ t. BehindSome (spots_ahead self.old) (spots_ahead self.new)) }
    {
        match head {
            TypeHead::Word(word) => Ok(word_type(word)),
            TypeHead::Event => self.outer_type(version, start, met, left, Outer::Event),
            TypeHead::Table => {
                let keys = self.keys(version)?;
                self.outer_type(version, start, met, left, Outer::Table(keys))
            }
            TypeHead::Pair => self.pair_type(version, start, met, left),
        }
    }

    /// A type that is made of one part, behind its word and keys.
    #[cycle(ty)]
    #[tactic(auto, unfolding(sf_grammar::specs::Reading::parse_outer_type))]
    fn outer_type(
        &mut self,
        version: Version,
        start: usize,
        met: u32,
        left: u32,
        outer: Outer,
    ) -> Result<Ty, Stop>
        requires { met < 256 }
        ensures reads { (whole : List Tok) → length whole ≡ start →
            ReadsAs (λ k. k) result self.new (parse_outer_type (parse_inner_type left version whole) (outer_kind outer) met (ahead self.old)) }
        ensures behind { IfOk result (λ t. BehindSome (spots_ahead self.old) (spots_ahead self.new)) }
    {
        let part = self.inner_type(version, start, met + 1, left)?;
        match made(self.alloc, outer, part) {
            Ok(ty) => Ok(ty),
            Err(refusal) => Err(type_refused(refusal, start)),
        }
    }

    /// The type of pairs behind its opening bracket.
    #[cycle(ty)]
    #[tactic(auto, unfolding(sf_grammar::specs::Reading::parse_pair_type))]
    fn pair_type(&mut self, version: Version, start: usize, met: u32, left: u32) -> Result<Ty, Stop>
        requires { met < 256 }
        ensures reads { (whole : List Tok) → length whole ≡ start →
            ReadsAs (λ k. k) result self.new (parse_pair_type (parse_inner_type left version whole) met (ahead self.old)) }
        ensures behind { IfOk result (λ t. BehindSome (spots_ahead self.old) (spots_ahead self.new)) }
    {
        let first = self.inner_type(version, start, met + 1, left)?;
        self.symbol(Symbol::Comma)?;
        let second = self.inner_type(version, start, met + 1 + first.nodes(), left)?;
        self.symbol(Symbol::Close)?;
        match Ty::pair(self.alloc, first, second) {
            Ok(ty) => Ok(ty),
            Err(refusal) => Err(type_refused(refusal, start)),
        }
    }
}
