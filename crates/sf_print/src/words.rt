//! The words and symbols of forms.
ghost use Rattle.std.specs.Prelude.{◌≡◌};
ghost use Rattle.sf_print.specs.Signs.{sign_token};
ghost use Rattle.sf_grammar.specs.Spelling.{bare_word, value_word, stands_initially, timing_word, selection_word, accumulation_word, join_symbol, side_word, heading_token, switching_word, continuing_word, releasing_word, editing_word, unary_word, takes_brackets, operator_token, stands_between, mapping_word, folding_word};

use sf_expr::{Arithmetic, Comparison, Equality, Folding, Logic, Mapping, Merge, Operator, Unary};
use sf_lex::{Keyword, Symbol};
use sf_term::{
    Accumulation, Bare, Heading, Join, Observation, Selection, Side, Switching, Timing, WithValue,
};

/// A token that is the same in each text.
#[derive(Clone, Copy, Debug, PartialEq, Eq)]
pub(crate) enum Sign {
    /// A keyword.
    Word(Keyword),
    /// A symbol.
    Symbol(Symbol),
}

/// The word of a primitive without constants.
pub(crate) fn bare_word(bare: Bare) -> Keyword
    ensures { result ≡ bare_word bare }
{
    match bare {
        Bare::Identity => Keyword::Identity,
        Bare::LocalTime => Keyword::LocalTime,
        Bare::Integral => Keyword::Integral,
        Bare::Edge => Keyword::Edge,
        Bare::NotYet => Keyword::NotYet,
        Bare::Once => Keyword::Once,
        Bare::Count => Keyword::Count,
        Bare::Pre => Keyword::Pre,
    }
}

/// The word of a primitive with a value.
pub(crate) fn value_word(primitive: WithValue) -> Keyword
    ensures { result ≡ value_word primitive }
{
    match primitive {
        WithValue::Constant => Keyword::Constant,
        WithValue::Initially => Keyword::Initially,
        WithValue::InitialPre => Keyword::IPre,
        WithValue::InitializedPre => Keyword::Pre,
        WithValue::Now => Keyword::Now,
        WithValue::InitialEdge => Keyword::IEdge,
        WithValue::EdgeTag => Keyword::EdgeTag,
        WithValue::Hold => Keyword::Hold,
        WithValue::DelayedHold => Keyword::DHold,
    }
}

/// Whether the value of a primitive stands in front of its word, in brackets behind `-->`.
pub(crate) fn stands_initially(primitive: WithValue) -> bool
    ensures { result ≡ stands_initially primitive }
{
    match primitive {
        WithValue::InitializedPre => true,
        WithValue::Constant
        | WithValue::Initially
        | WithValue::InitialPre
        | WithValue::Now
        | WithValue::InitialEdge
        | WithValue::EdgeTag
        | WithValue::Hold
        | WithValue::DelayedHold => false,
    }
}

/// The word of a primitive with a time and a value.
pub(crate) fn timing_word(timing: Timing) -> Keyword
    ensures { result ≡ timing_word timing }
{
    match timing {
        Timing::After => Keyword::After,
        Timing::Repeatedly => Keyword::Repeatedly,
        Timing::Delay => Keyword::Delay,
    }
}

/// The word of a primitive with a number of events.
pub(crate) fn selection_word(selection: Selection) -> Keyword
    ensures { result ≡ selection_word selection }
{
    match selection {
        Selection::TakeEvents => Keyword::TakeEvents,
        Selection::DropEvents => Keyword::DropEvents,
    }
}

/// The word of a primitive with a value and a function.
pub(crate) fn accumulation_word(accumulation: Accumulation) -> Keyword
    ensures { result ≡ accumulation_word accumulation }
{
    match accumulation {
        Accumulation::EdgeBy => Keyword::EdgeBy,
        Accumulation::AccumBy => Keyword::AccumBy,
        Accumulation::AccumHoldBy => Keyword::AccumHoldBy,
        Accumulation::Scan => Keyword::Sscan,
    }
}

/// The symbol between two terms that are joined.
pub(crate) fn join_symbol(join: Join) -> Symbol
    ensures { result ≡ join_symbol join }
{
    match join {
        Join::InSequence => Symbol::InSequence,
        Join::InParallel => Symbol::InParallel,
        Join::FannedOut => Symbol::FannedOut,
    }
}

/// The word of a term on one part of a pair.
pub(crate) fn side_word(side: Side) -> Keyword
    ensures { result ≡ side_word side }
{
    match side {
        Side::First => Keyword::First,
        Side::Second => Keyword::Second,
    }
}

/// The first token of a term with an expression at its head.
pub(crate) fn heading_sign(heading: Heading) -> Sign
    ensures { sign_token result ≡ heading_token heading }
{
    match heading {
        Heading::LoopPre => Sign::Word(Keyword::LoopPre),
        Heading::Initialized => Sign::Symbol(Symbol::Initially),
        Heading::Replaced => Sign::Symbol(Symbol::OnFirstInput),
        Heading::Followed => Sign::Word(Keyword::Fby),
    }
}

/// The word of a term that gives way to another.
pub(crate) fn switching_word(switching: Switching) -> Keyword
    ensures { result ≡ switching_word switching }
{
    match switching {
        Switching::Basic(Observation::Immediate) => Keyword::Switch,
        Switching::Basic(Observation::Delayed) => Keyword::DSwitch,
        Switching::Recurring(Observation::Immediate) => Keyword::RSwitch,
        Switching::Recurring(Observation::Delayed) => Keyword::DrSwitch,
    }
}

/// The word of a term that gives way to another, which knows it by a name.
pub(crate) fn continuing_word(observation: Observation) -> Keyword
    ensures { result ≡ continuing_word observation }
{
    match observation {
        Observation::Immediate => Keyword::KSwitch,
        Observation::Delayed => Keyword::DkSwitch,
    }
}

/// The word of members that give way to a term.
pub(crate) fn releasing_word(observation: Observation) -> Keyword
    ensures { result ≡ releasing_word observation }
{
    match observation {
        Observation::Immediate => Keyword::PSwitchB,
        Observation::Delayed => Keyword::DpSwitchB,
    }
}

/// The word of members that are edited.
pub(crate) fn editing_word(observation: Observation) -> Keyword
    ensures { result ≡ editing_word observation }
{
    match observation {
        Observation::Immediate => Keyword::RpSwitchB,
        Observation::Delayed => Keyword::DrpSwitchB,
    }
}

/// The word of an operator on one value.
pub(crate) fn unary_word(operator: Unary) -> Keyword
    ensures { result ≡ unary_word operator }
{
    match operator {
        Unary::Not => Keyword::Not,
        Unary::Event => Keyword::EventOf,
        Unary::First => Keyword::Fst,
        Unary::Second => Keyword::Snd,
        Unary::IsEvent => Keyword::IsEvent,
        Unary::Size => Keyword::Size,
    }
}

/// Whether the operand of an operator stands in brackets behind its word.
pub(crate) fn takes_brackets(operator: Unary) -> bool
    ensures { result ≡ takes_brackets operator }
{
    match operator {
        Unary::Not | Unary::Event => false,
        Unary::First | Unary::Second | Unary::IsEvent | Unary::Size => true,
    }
}

/// The token of an operator on two values.
pub(crate) fn operator_sign(operator: Operator) -> Sign
    ensures { sign_token result ≡ operator_token operator }
{
    match operator {
        Operator::Arithmetic(Arithmetic::Plus) => Sign::Symbol(Symbol::Plus),
        Operator::Arithmetic(Arithmetic::Minus) => Sign::Symbol(Symbol::Minus),
        Operator::Arithmetic(Arithmetic::Times) => Sign::Symbol(Symbol::Times),
        Operator::Arithmetic(Arithmetic::Divide) => Sign::Word(Keyword::Div),
        Operator::Arithmetic(Arithmetic::Modulo) => Sign::Word(Keyword::Mod),
        Operator::Equality(Equality::Equal) => Sign::Symbol(Symbol::IsEqual),
        Operator::Equality(Equality::Unequal) => Sign::Symbol(Symbol::IsDifferent),
        Operator::Comparison(Comparison::Less) => Sign::Symbol(Symbol::Less),
        Operator::Comparison(Comparison::AtMost) => Sign::Symbol(Symbol::AtMost),
        Operator::Comparison(Comparison::Greater) => Sign::Symbol(Symbol::Greater),
        Operator::Comparison(Comparison::AtLeast) => Sign::Symbol(Symbol::AtLeast),
        Operator::Logic(Logic::And) => Sign::Word(Keyword::And),
        Operator::Logic(Logic::Or) => Sign::Word(Keyword::Or),
        Operator::Tag => Sign::Word(Keyword::Tag),
        Operator::Attach => Sign::Word(Keyword::Attach),
        Operator::FromEvent => Sign::Word(Keyword::FromEvent),
        Operator::Gate => Sign::Word(Keyword::Gate),
        Operator::Merge(Merge::Left) => Sign::Word(Keyword::LMerge),
        Operator::Merge(Merge::Right) => Sign::Word(Keyword::RMerge),
        Operator::Merge(Merge::Exclusive) => Sign::Word(Keyword::Merge),
        Operator::Get => Sign::Word(Keyword::Get),
    }
}

/// Whether that token stands between the operands.
pub(crate) fn stands_between(operator: Operator) -> bool
    ensures { result ≡ stands_between operator }
{
    match operator {
        Operator::Arithmetic(_)
        | Operator::Equality(_)
        | Operator::Comparison(_)
        | Operator::Logic(_) => true,
        Operator::Tag
        | Operator::Attach
        | Operator::FromEvent
        | Operator::Gate
        | Operator::Merge(_)
        | Operator::Get => false,
    }
}

/// The word of a form with a value and a function.
pub(crate) fn mapping_word(mapping: Mapping) -> Keyword
    ensures { result ≡ mapping_word mapping }
{
    match mapping {
        Mapping::Let => Keyword::Let,
        Mapping::Filter => Keyword::FilterE,
        Mapping::Map => Keyword::MapE,
    }
}

/// The word of a form with two values and a function.
pub(crate) fn folding_word(folding: Folding) -> Keyword
    ensures { result ≡ folding_word folding }
{
    match folding {
        Folding::Match => Keyword::Match,
        Folding::Merge => Keyword::MergeBy,
        Folding::Fold => Keyword::Fold,
    }
}
