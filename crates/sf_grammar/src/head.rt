//! What tokens stand for within terms and expressions.
ghost use Rattle.std.specs.Prelude.{◌≡◌};
ghost use Rattle.sf_lex.specs.Tokens.{token_of};
ghost use Rattle.sf_grammar.specs.Reading.{collection_head, expression_head, head_of, join_of, link_of, operator_of};

use sf_expr::{Arithmetic, Comparison, Equality, Folding, Logic, Mapping, Merge, Operator, Unary};
use sf_lex::{Keyword, Symbol, Token};
use sf_term::{
    Accumulation, Bare, Heading, Join, Naming, Observation, Selection, Side, Start, Switching,
    Timing, WithValue,
};

/// A form by its first token, by its shape.
#[derive(Clone, Copy, Debug, PartialEq, Eq)]
pub enum Head {
    /// A word alone.
    Bare(Bare),
    /// A word, and an expression behind it.
    WithValue(WithValue),
    /// A word, and behind it a number and an expression.
    Timed(Timing),
    /// A word, and a number behind it.
    Selected(Selection),
    /// `never`, and a type behind it.
    Never,
    /// A word, and a function behind it.
    Arrow,
    /// A word, and behind it an expression and a function in brackets.
    Accumulated(Accumulation),
    /// An opening bracket, and behind it two terms joined.
    Joined,
    /// A word, and a term behind it.
    Sided(Side),
    /// A word or a symbol, and behind it an expression and a term in brackets.
    Headed(Heading),
    /// `>=-`, and behind it a function and a term in brackets.
    Transformed,
    /// A word, and behind it a term, a pattern and another term in brackets.
    Switching(Switching),
    /// A word, and a name behind it.
    Named(Naming),
    /// A word, and behind it two terms, a name, a pattern and a third term in brackets.
    Continuation(Observation),
    /// The name of a template, and arguments in brackets behind it.
    Call,
    /// `parB`, and a collection behind it.
    Gathered,
    /// A word, and behind it a collection, a term, a name, a pattern and another term in brackets.
    Releasing(Observation),
    /// A word, and behind it a collection, a name, a pattern and another collection in brackets.
    Editing(Observation),
}

/// A collection by its first token, by its shape.
#[derive(Clone, Copy, Debug, PartialEq, Eq)]
pub enum CollectionHead {
    /// `empty`, and a type behind it.
    Empty,
    /// `use`, and a name behind it.
    Used,
    /// `add`, and behind it a collection, an expression and a term in brackets.
    Added,
    /// `drop`, and behind it a collection and an expression in brackets.
    Dropped,
    /// `keep`, and behind it a collection and a function in brackets.
    Kept,
    /// `if`, and behind it an expression and two collections with words between them.
    Chosen,
}

/// An expression that a word begins, by its shape.
#[derive(Clone, Copy, Debug, PartialEq, Eq)]
pub enum ExpressionHead {
    /// A word alone: true or false.
    Truth(bool),
    /// A word, and a type behind it.
    NoEvent,
    /// A word, and an expression behind it.
    Prefixed(Unary),
    /// A word, and an expression in brackets behind it.
    OneInBrackets(Unary),
    /// A word, and two expressions in brackets behind it.
    TwoInBrackets(Operator),
    /// A word, and behind it three expressions with a word between each two.
    Conditional,
    /// A word, and behind it a pattern, the expression that it names, and another.
    Let,
    /// A word, and an expression and a function in brackets behind it.
    OneAndFunction(Mapping),
    /// A word, and two expressions and a function in brackets behind it.
    TwoAndFunction(Folding),
    /// A word, and behind it a name and an expression in brackets.
    Called,
}

/// What makes one expression of two in brackets.
#[derive(Clone, Copy, Debug, PartialEq, Eq)]
pub enum Link {
    /// A comma: they are a pair.
    Pair,
    /// An operator: they are its operands.
    Operation(Operator),
}

/// The form that a token begins.
pub fn head_of(token: &Token) -> Option<Head>
    ensures { result ≡ head_of (token_of token.now) }
{
    match token {
        Token::Keyword(Keyword::Identity) => Some(Head::Bare(Bare::Identity)),
        Token::Keyword(Keyword::LocalTime) => Some(Head::Bare(Bare::LocalTime)),
        Token::Keyword(Keyword::Integral) => Some(Head::Bare(Bare::Integral)),
        Token::Keyword(Keyword::Edge) => Some(Head::Bare(Bare::Edge)),
        Token::Keyword(Keyword::NotYet) => Some(Head::Bare(Bare::NotYet)),
        Token::Keyword(Keyword::Once) => Some(Head::Bare(Bare::Once)),
        Token::Keyword(Keyword::Count) => Some(Head::Bare(Bare::Count)),
        Token::Keyword(Keyword::Pre) => Some(Head::Bare(Bare::Pre)),
        Token::Keyword(Keyword::Constant) => Some(Head::WithValue(WithValue::Constant)),
        Token::Keyword(Keyword::Initially) => Some(Head::WithValue(WithValue::Initially)),
        Token::Keyword(Keyword::IPre) => Some(Head::WithValue(WithValue::InitialPre)),
        Token::Keyword(Keyword::Now) => Some(Head::WithValue(WithValue::Now)),
        Token::Keyword(Keyword::IEdge) => Some(Head::WithValue(WithValue::InitialEdge)),
        Token::Keyword(Keyword::EdgeTag) => Some(Head::WithValue(WithValue::EdgeTag)),
        Token::Keyword(Keyword::Hold) => Some(Head::WithValue(WithValue::Hold)),
        Token::Keyword(Keyword::DHold) => Some(Head::WithValue(WithValue::DelayedHold)),
        Token::Keyword(Keyword::After) => Some(Head::Timed(Timing::After)),
        Token::Keyword(Keyword::Repeatedly) => Some(Head::Timed(Timing::Repeatedly)),
        Token::Keyword(Keyword::Delay) => Some(Head::Timed(Timing::Delay)),
        Token::Keyword(Keyword::TakeEvents) => Some(Head::Selected(Selection::TakeEvents)),
        Token::Keyword(Keyword::DropEvents) => Some(Head::Selected(Selection::DropEvents)),
        Token::Keyword(Keyword::Never) => Some(Head::Never),
        Token::Keyword(Keyword::Arr) => Some(Head::Arrow),
        Token::Keyword(Keyword::EdgeBy) => Some(Head::Accumulated(Accumulation::EdgeBy)),
        Token::Keyword(Keyword::AccumBy) => Some(Head::Accumulated(Accumulation::AccumBy)),
        Token::Keyword(Keyword::AccumHoldBy) => Some(Head::Accumulated(Accumulation::AccumHoldBy)),
        Token::Keyword(Keyword::Sscan) => Some(Head::Accumulated(Accumulation::Scan)),
        Token::Symbol(Symbol::Open) => Some(Head::Joined),
        Token::Keyword(Keyword::First) => Some(Head::Sided(Side::First)),
        Token::Keyword(Keyword::Second) => Some(Head::Sided(Side::Second)),
        Token::Keyword(Keyword::LoopPre) => Some(Head::Headed(Heading::LoopPre)),
        Token::Symbol(Symbol::Initially) => Some(Head::Headed(Heading::Initialized)),
        Token::Symbol(Symbol::OnFirstInput) => Some(Head::Headed(Heading::Replaced)),
        Token::Keyword(Keyword::Fby) => Some(Head::Headed(Heading::Followed)),
        Token::Symbol(Symbol::MapsFirstInput) => Some(Head::Transformed),
        Token::Keyword(Keyword::Switch) => Some(Head::Switching(Switching::Basic(
            Observation::Immediate,
        ))),
        Token::Keyword(Keyword::DSwitch) => Some(Head::Switching(Switching::Basic(
            Observation::Delayed,
        ))),
        Token::Keyword(Keyword::RSwitch) => Some(Head::Switching(Switching::Recurring(
            Observation::Immediate,
        ))),
        Token::Keyword(Keyword::DrSwitch) => Some(Head::Switching(Switching::Recurring(
            Observation::Delayed,
        ))),
        Token::Keyword(Keyword::Run) => Some(Head::Named(Naming::Process(Start::Run))),
        Token::Keyword(Keyword::Probe) => Some(Head::Named(Naming::Probe)),
        Token::Keyword(Keyword::KSwitch) => Some(Head::Continuation(Observation::Immediate)),
        Token::Keyword(Keyword::DkSwitch) => Some(Head::Continuation(Observation::Delayed)),
        Token::Keyword(Keyword::ParB) => Some(Head::Gathered),
        Token::Keyword(Keyword::PSwitchB) => Some(Head::Releasing(Observation::Immediate)),
        Token::Keyword(Keyword::DpSwitchB) => Some(Head::Releasing(Observation::Delayed)),
        Token::Keyword(Keyword::RpSwitchB) => Some(Head::Editing(Observation::Immediate)),
        Token::Keyword(Keyword::DrpSwitchB) => Some(Head::Editing(Observation::Delayed)),
        Token::Name(_) => Some(Head::Call),
        _ => None,
    }
}

/// The form of a collection that a token begins.
pub fn collection_head(token: &Token) -> Option<CollectionHead>
    ensures { result ≡ collection_head (token_of token.now) }
{
    match token {
        Token::Keyword(Keyword::Empty) => Some(CollectionHead::Empty),
        Token::Keyword(Keyword::Use) => Some(CollectionHead::Used),
        Token::Keyword(Keyword::Add) => Some(CollectionHead::Added),
        Token::Keyword(Keyword::Drop) => Some(CollectionHead::Dropped),
        Token::Keyword(Keyword::Keep) => Some(CollectionHead::Kept),
        Token::Keyword(Keyword::If) => Some(CollectionHead::Chosen),
        _ => None,
    }
}

/// How the symbol between two terms joins them.
pub fn join_of(symbol: Symbol) -> Option<Join>
    ensures { result ≡ join_of symbol }
{
    match symbol {
        Symbol::InSequence => Some(Join::InSequence),
        Symbol::InParallel => Some(Join::InParallel),
        Symbol::FannedOut => Some(Join::FannedOut),
        _ => None,
    }
}

/// The expression that a word begins.
pub fn expression_head(word: Keyword) -> Option<ExpressionHead>
    ensures { result ≡ expression_head word }
{
    match word {
        Keyword::True => Some(ExpressionHead::Truth(true)),
        Keyword::False => Some(ExpressionHead::Truth(false)),
        Keyword::NoEvent => Some(ExpressionHead::NoEvent),
        Keyword::Not => Some(ExpressionHead::Prefixed(Unary::Not)),
        Keyword::EventOf => Some(ExpressionHead::Prefixed(Unary::Event)),
        Keyword::Fst => Some(ExpressionHead::OneInBrackets(Unary::First)),
        Keyword::Snd => Some(ExpressionHead::OneInBrackets(Unary::Second)),
        Keyword::IsEvent => Some(ExpressionHead::OneInBrackets(Unary::IsEvent)),
        Keyword::Size => Some(ExpressionHead::OneInBrackets(Unary::Size)),
        Keyword::Tag => Some(ExpressionHead::TwoInBrackets(Operator::Tag)),
        Keyword::Attach => Some(ExpressionHead::TwoInBrackets(Operator::Attach)),
        Keyword::FromEvent => Some(ExpressionHead::TwoInBrackets(Operator::FromEvent)),
        Keyword::Gate => Some(ExpressionHead::TwoInBrackets(Operator::Gate)),
        Keyword::LMerge => Some(ExpressionHead::TwoInBrackets(Operator::Merge(Merge::Left))),
        Keyword::RMerge => Some(ExpressionHead::TwoInBrackets(Operator::Merge(Merge::Right))),
        Keyword::Merge => Some(ExpressionHead::TwoInBrackets(Operator::Merge(Merge::Exclusive))),
        Keyword::Get => Some(ExpressionHead::TwoInBrackets(Operator::Get)),
        Keyword::If => Some(ExpressionHead::Conditional),
        Keyword::Let => Some(ExpressionHead::Let),
        Keyword::FilterE => Some(ExpressionHead::OneAndFunction(Mapping::Filter)),
        Keyword::MapE => Some(ExpressionHead::OneAndFunction(Mapping::Map)),
        Keyword::Match => Some(ExpressionHead::TwoAndFunction(Folding::Match)),
        Keyword::MergeBy => Some(ExpressionHead::TwoAndFunction(Folding::Merge)),
        Keyword::Fold => Some(ExpressionHead::TwoAndFunction(Folding::Fold)),
        Keyword::Call => Some(ExpressionHead::Called),
        _ => None,
    }
}

/// The operator that a token between two operands is.
fn operator_of(token: &Token) -> Option<Operator>
    ensures { result ≡ operator_of (token_of token.now) }
{
    match token {
        Token::Symbol(Symbol::Plus) => Some(Operator::Arithmetic(Arithmetic::Plus)),
        Token::Symbol(Symbol::Minus) => Some(Operator::Arithmetic(Arithmetic::Minus)),
        Token::Symbol(Symbol::Times) => Some(Operator::Arithmetic(Arithmetic::Times)),
        Token::Keyword(Keyword::Div) => Some(Operator::Arithmetic(Arithmetic::Divide)),
        Token::Keyword(Keyword::Mod) => Some(Operator::Arithmetic(Arithmetic::Modulo)),
        Token::Symbol(Symbol::IsEqual) => Some(Operator::Equality(Equality::Equal)),
        Token::Symbol(Symbol::IsDifferent) => Some(Operator::Equality(Equality::Unequal)),
        Token::Symbol(Symbol::Less) => Some(Operator::Comparison(Comparison::Less)),
        Token::Symbol(Symbol::AtMost) => Some(Operator::Comparison(Comparison::AtMost)),
        Token::Symbol(Symbol::Greater) => Some(Operator::Comparison(Comparison::Greater)),
        Token::Symbol(Symbol::AtLeast) => Some(Operator::Comparison(Comparison::AtLeast)),
        Token::Keyword(Keyword::And) => Some(Operator::Logic(Logic::And)),
        Token::Keyword(Keyword::Or) => Some(Operator::Logic(Logic::Or)),
        _ => None,
    }
}

/// What a token between two expressions makes of them.
pub fn link_of(token: &Token) -> Option<Link>
    ensures { result ≡ link_of (token_of token.now) }
{
    match token {
        Token::Symbol(Symbol::Comma) => Some(Link::Pair),
        _ => match operator_of(token) {
            Some(operator) => Some(Link::Operation(operator)),
            None => None,
        },
    }
}
