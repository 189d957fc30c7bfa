//! Nodes of an arena of terms.

use crate::collection::CollectionId;
use crate::form::{
    Accumulation, Bare, Heading, Join, Naming, Observation, Selection, Side, Switching, Timing,
    WithValue,
};
use sf_expr::{ConstantId, ExprId, FunctionId, NameId, PatternId, Spot};

/// A term in its program.
#[derive(Clone, Copy, Debug, PartialEq, Eq)]
pub struct TermId(pub(crate) u32);

impl TermId {
    ghost use Rattle.std.specs.Prelude.{◌≡◌};
    ghost use Rattle.sf_term.specs.Arena.{term_number};

    /// Its number: the terms of a program are numbered from 0, each above its parts.
    pub fn number(self) -> usize
        ensures { result ≡ term_number self }
    {
        self.0 as usize
    }
}

/// The arguments of a call in their program.
#[derive(Clone, Copy, Debug, PartialEq, Eq)]
pub struct ArgumentsId(pub(crate) usize);

/// An argument of a call.
#[derive(Clone, Copy, Debug, PartialEq, Eq)]
pub enum Argument {
    /// An expression, whose value it is.
    Value(ExprId),
    /// `sf t`: a term, which is a process.
    Process(TermId),
    /// `col c`: a collection.
    Collection(CollectionId),
}

/// A primitive, with the ids of its constants.
#[derive(Clone, Copy, Debug, PartialEq, Eq)]
pub enum Primitive {
    /// A primitive without constants.
    Bare(Bare),
    /// `never T`: no event, of payloads of a type, which stands among the constants.
    Never(ConstantId),
    /// A primitive with a value.
    WithValue(WithValue, ExprId),
    /// `arr f`: what a function answers to the input.
    Arrow(FunctionId),
    /// A primitive with a time, in milliseconds, and a value.
    Timed(Timing, i64, ExprId),
    /// A primitive with a number of events.
    Selected(Selection, i64),
    /// A primitive with a value and a function.
    Accumulated(Accumulation, ExprId, FunctionId),
}

/// A term, whose parts are ids of terms before it.
#[derive(Clone, Copy, Debug, PartialEq, Eq)]
pub enum Node {
    /// A primitive.
    Primitive(Primitive),
    /// `run k`, `fresh k` and `probe p`: a form that is a name alone, which stands at a place of its own.
    Named(Naming, NameId, Spot),
    /// `g(..)`: a call of the template of a name, with which the term begins, on arguments.
    Call(NameId, ArgumentsId),
    /// Two terms joined, the first and the second.
    Joined(Join, TermId, TermId),
    /// A term on one part of a pair.
    Sided(Side, TermId),
    /// A term with an expression at its head.
    Headed(Heading, ExprId, TermId),
    /// `>=-(f, t)`: the values of a term, with what a function makes of its first input in the place of that input.
    Transformed(FunctionId, TermId),
    /// `switch(t, p => u)`, delayed `dSwitch`, and `rSwitch` and `drSwitch`.
    Switching(Switch),
    /// `kSwitch(t, q, k, p => u)`, delayed `dkSwitch`.
    Continuation(Continuation),
    /// `parB c`: the members of a collection.
    Gathered(CollectionId),
    /// `pSwitchB(c, q, ks, p => u)`, delayed `dpSwitchB`.
    Releasing(Releasing),
    /// `rpSwitchB(c, ks, p => d)`, delayed `drpSwitchB`.
    Editing(Editing),
}

/// A term that gives way to a body, inside the pattern of an event: once, or at each event beside the input.
#[derive(Clone, Copy, Debug, PartialEq, Eq)]
pub struct Switch {
    /// Which of the four switches it is.
    pub form: Switching,
    /// The term.
    pub source: TermId,
    /// The pattern of the event's payload.
    pub pattern: PatternId,
    /// The body.
    pub body: TermId,
}

/// A term that gives way at the first event that an observer sees in its inputs and values: a body takes over for good, which
/// knows it stood.
#[derive(Clone, Copy, Debug, PartialEq, Eq)]
pub struct Continuation {
    /// Whose value shows at the event.
    pub shown: Observation,
    /// The term.
    pub source: TermId,
    /// What gives the event.
    pub observer: TermId,
    /// The name of the term in the body.
    pub name: NameId,
    /// Where that name stands.
    pub place: Spot,
    /// The pattern of the event's payload.
    pub pattern: PatternId,
    /// The body.
    pub body: TermId,
}

/// Members that give way at the first event that an observer sees in their inputs and values: a body takes over for good, which
/// knows them as they stood.
#[derive(Clone, Copy, Debug, PartialEq, Eq)]
pub struct Releasing {
    /// Whose value shows at the event.
    pub shown: Observation,
    /// The members.
    pub members: CollectionId,
    /// What gives the event.
    pub observer: TermId,
    /// The name of the members in the body.
    pub name: NameId,
    /// Where that name stands.
    pub place: Spot,
    /// The pattern of the event's payload.
    pub pattern: PatternId,
    /// The body.
    pub body: TermId,
}

/// Members that are edited at each event beside the input.
#[derive(Clone, Copy, Debug, PartialEq, Eq)]
pub struct Editing {
    /// Whose values show at an event.
    pub shown: Observation,
    /// The members at the start.
    pub members: CollectionId,
    /// The name of the members in the edit.
    pub name: NameId,
    /// Where that name stands.
    pub place: Spot,
    /// The pattern of the event's payload.
    pub pattern: PatternId,
    /// The members from the event on.
    pub edit: CollectionId,
}
