//! Patterns.
ghost use Rattle.std.specs.Prelude.{◌≡◌, IfOk};
ghost use Rattle.sf_expr.specs.Expressions.{Pattern};
ghost use Rattle.sf_expr.specs.Patterns.{pattern_of};
ghost use Rattle.sf_term.specs.Names.{HasNames};
ghost use Rattle.sf_lex.specs.Tokens.{token_of};
ghost use Rattle.sf_text.specs.Parsing.Answers.{ahead, StopsReading, ReadsAs};
ghost use Rattle.sf_grammar.specs.Placing.{PatternPlaced};
ghost use Rattle.sf_text.specs.Parsing.Consuming.{spots_ahead, StandsOn, ConsumesBehind};
ghost use Rattle.sf_grammar.specs.Reading.{begins_pattern, too_deep, parse_pattern, parse_pattern_form, parse_pattern_pair};

use crate::parts::cursor::{Cursor, First};
use crate::parts::stop::Stop;
use sf_expr::Pat;
use sf_lex::{Keyword, Symbol, Token};
use sf_refusal::Rule;

fn begins_pattern(token: &Token) -> bool
    ensures { result ≡ begins_pattern (token_of token.now) }
{
    matches!(
        token,
        Token::Keyword(Keyword::Underscore) | Token::Name(_) | Token::Symbol(Symbol::Open)
    )
}

impl<'a> Cursor<'a> {
    /// A pattern would be 65 deep here.
    fn pattern_too_deep(&self) -> Stop
        ensures { StopsReading {A = Pattern} result (too_deep begins_pattern (ahead self.now)) }
    {
        match self.tokens {
            [first, ..] if begins_pattern(&first.token) => self.stop(Rule::TooDeep),
            _ => self.stop(Rule::Unexpected),
        }
    }

    /// A pattern of so much depth at most.
    #[cycle(pattern)]
    #[tactic(auto, using(crate::proofs::Parsing::Deeper::pattern_at_more, crate::proofs::Parsing::Deeper::pattern_at_zero))]
    pub fn pattern(&mut self, left: u32) -> Result<Pat, Stop>
        ensures reads { ReadsAs pattern_of result self.new (parse_pattern left (ahead self.old)) }
        ensures names { IfOk result (λ p. HasNames (pattern_of p)) }
        ensures placed { StandsOn PatternPlaced result self.old self.new }
    {
        if left == 0 {
            return Err(self.pattern_too_deep());
        }
        self.pattern_form(left - 1)
    }

    #[cycle(pattern)]
    fn pattern_form(&mut self, left: u32) -> Result<Pat, Stop>
        ensures reads { ReadsAs pattern_of result self.new (parse_pattern_form (parse_pattern left) (ahead self.old)) }
        ensures names { IfOk result (λ p. HasNames (pattern_of p)) }
        ensures placed { StandsOn PatternPlaced result self.old self.new }
    {
        let First { token, start } = self.first()?;
        match token {
            Token::Keyword(Keyword::Underscore) => Ok(Pat::unnamed()),
            Token::Name(name) => {
                let name = String::from_str(self.alloc, name.as_str())?;
                Ok(Pat::name(name, start.spot))
            }
            Token::Symbol(Symbol::Open) => self.pattern_pair(left),
            _ => Err(Stop::At(Rule::Unexpected, start.ahead)),
        }
    }

    /// The pattern of a pair behind its opening bracket.
    #[cycle(pattern)]
    #[tactic(auto, unfolding(sf_grammar::specs::Reading::parse_pattern_pair))]
    fn pattern_pair(&mut self, left: u32) -> Result<Pat, Stop>
        ensures reads { ReadsAs pattern_of result self.new (parse_pattern_pair (parse_pattern left) (ahead self.old)) }
        ensures names { IfOk result (λ p. HasNames (pattern_of p)) }
        ensures placed { IfOk result (λ p. ConsumesBehind (PatternPlaced p) (spots_ahead self.old) (spots_ahead self.new)) }
    {
        let first = self.pattern(left)?;
        self.symbol(Symbol::Comma)?;
        let second = self.pattern(left)?;
        self.symbol(Symbol::Close)?;
        Ok(Pat::both(self.alloc, first, second)?)
    }
}
