//! What stands between the parts of a list in brackets.
ghost use Rattle.std.specs.Prelude.{IfOk};
ghost use Rattle.sf_text.specs.Parsing.Answers.{ahead, ReadsAs, IsBehind};
ghost use Rattle.sf_text.specs.Parsing.Consuming.{spots_ahead, BehindOne};
ghost use Rattle.sf_grammar.specs.Reading.{behind_leads, behind_list, parse_separator};
ghost use Rattle.sf_text.specs.Answers.{BeginsArgument};

use crate::parts::{Cursor, First, Stop};
use sf_lex::{Keyword, Symbol, Token};
use sf_refusal::Rule;

/// The tokens behind `~>`, if it stands in front.
pub(crate) fn behind_leads<'a>(cursor: &Cursor<'a>) -> Option<Cursor<'a>>
    ensures { IsBehind result behind_leads cursor.now }
{
    if let [first, rest @ ..] = cursor.tokens {
        if let Token::Symbol(Symbol::Leads) = &first.token {
            return Some(Cursor {
                alloc: cursor.alloc,
                tokens: rest,
            });
        }
    }
    None
}

/// The tokens behind the bracket that begins a collection's types, if it stands in front.
pub(crate) fn behind_list<'a>(cursor: &Cursor<'a>) -> Option<Cursor<'a>>
    ensures { IsBehind result behind_list cursor.now }
{
    if let [first, rest @ ..] = cursor.tokens {
        if let Token::Symbol(Symbol::OpenBracket) = &first.token {
            return Some(Cursor {
                alloc: cursor.alloc,
                tokens: rest,
            });
        }
    }
    None
}

/// What an argument of a call begins with.
#[derive(Clone, Copy)]
pub(crate) enum ArgumentFront<'a> {
    /// No word: it is an expression.
    Value,
    /// `sf`, with the tokens behind it: a term follows.
    Process(Cursor<'a>),
    /// `col`, with the tokens behind it: a collection follows.
    Members(Cursor<'a>),
}

/// What an argument of a call begins with here.
pub(crate) fn argument_front<'a>(cursor: &Cursor<'a>) -> ArgumentFront<'a>
    ensures { BeginsArgument result cursor.now }
{
    let [first, rest @ ..] = cursor.tokens else {
        return ArgumentFront::Value;
    };
    let behind = Cursor {
        alloc: cursor.alloc,
        tokens: rest,
    };
    match &first.token {
        Token::Keyword(Keyword::SignalFunction) => ArgumentFront::Process(behind),
        Token::Keyword(Keyword::Collection) => ArgumentFront::Members(behind),
        _ => ArgumentFront::Value,
    }
}

/// Behind a part of a list: whether a comma stands there, and so a further part, or the closing bracket.
pub(crate) fn separator(cursor: &mut Cursor) -> Result<bool, Stop>
    ensures reads { ReadsAs (λ b. b) result cursor.new (parse_separator (ahead cursor.old)) }
    ensures behind { IfOk result (λ b. BehindOne (spots_ahead cursor.old) (spots_ahead cursor.new)) }
{
    let First { token, start } = cursor.first()?;
    match token {
        Token::Symbol(Symbol::Comma) => Ok(true),
        Token::Symbol(Symbol::Close) => Ok(false),
        _ => Err(Stop::At(Rule::Unexpected, start.ahead)),
    }
}
