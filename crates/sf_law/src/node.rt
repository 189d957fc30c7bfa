//! Nodes of an arena of plans.
ghost use Rattle.std.specs.Prelude.{◌≡◌, IfSome, option_map};
ghost use Rattle.sf_law.specs.Arena.{full_id, arrow_code, node_arrow};

use sf_code::OpenCode;
use sf_expr::{ConstantId, ExprId, FunctionId, NameId, PatternId};
use sf_term::{
    Accumulation, Bare, Heading, Join, Observation, Selection, Side, Start, Switching, Timing,
    WithValue,
};
use sf_value::{KeyType, Ty};
use std::rc::Rc;

/// A term in its plan.
#[derive(Clone, Copy, Debug, PartialEq, Eq)]
pub struct PlanId(pub(crate) usize);

/// A term in its plan, in four bytes.
#[derive(Clone, Copy, Debug, PartialEq, Eq)]
pub struct ShortId(u32);

impl PlanId {
    /// The same term in four bytes; none where its number takes more.
    #[inline(always)]
    pub fn short(self) -> Option<ShortId>
        ensures { IfSome result (λ short. full_id short ≡ self) }
    {
        match u32::try_from(self.0) {
            Ok(number) => Some(ShortId(number)),
            Err(_) => None,
        }
    }
}

impl ShortId {
    /// The term.
    #[inline(always)]
    pub fn id(self) -> PlanId
        ensures { result ≡ full_id self }
    {
        PlanId(self.0 as usize)
    }
}

/// A template in its plan.
#[derive(Clone, Copy, Debug, PartialEq, Eq)]
pub struct TemplateId(pub(crate) usize);

/// An argument of a call.
#[derive(Drop)]
pub enum PlanArgument {
    /// An expression, whose value it is, with the code that is run for it.
    Value(ExprId, OpenCode),
    /// The process of a name, with where it begins.
    Started(Start, NameId),
    /// A term, which is closed in the names around the call.
    Closed(PlanId),
    /// A collection, which is made where the call is.
    Collected(Rc<PlanCollection>),
}

/// A collection, with the code that is run for its keys, its conditions and its functions.
#[cycle(collection)]
pub enum PlanCollection {
    /// One without members, with the type of its keys and the type of its members' outputs.
    Empty(KeyType, Ty),
    /// That of a name.
    Used(NameId),
    /// One with a term added under a key.
    Added(Rc<PlanCollection>, ExprId, OpenCode, PlanId),
    /// One without what stands under a key.
    Dropped(Rc<PlanCollection>, ExprId, OpenCode),
    /// One with those whose keys a function keeps.
    Kept(Rc<PlanCollection>, FunctionId, OpenCode),
    /// One of two, by a condition.
    Chosen(ExprId, OpenCode, Rc<PlanCollection>, Rc<PlanCollection>),
}

impl Drop for PlanCollection {
    #[cycle(collection)]
    fn drop(self) {
        match self {
            PlanCollection::Empty(_, output) => drop(output),
            PlanCollection::Used(_) => {}
            PlanCollection::Added(members, _, code, _) => {
                drop(members);
                drop(code);
            }
            PlanCollection::Dropped(members, _, code) => {
                drop(members);
                drop(code);
            }
            PlanCollection::Kept(members, _, code) => {
                drop(members);
                drop(code);
            }
            PlanCollection::Chosen(_, code, first, second) => {
                drop(code);
                drop(first);
                drop(second);
            }
        }
    }
}

/// Functions that are made into one, each with the code that is run for it. Whatever lives by them shares their code.
#[cycle(chain)]
pub enum PlanChain {
    /// A function.
    Lone(FunctionId, Rc<OpenCode>),
    /// One after the other.
    Chained(Rc<PlanChain>, Rc<PlanChain>),
    /// One on a part of a pair.
    OnSide(Side, Rc<PlanChain>),
    /// Each on its part of a pair.
    OnBoth(Rc<PlanChain>, Rc<PlanChain>),
    /// Both on the input.
    Fanned(Rc<PlanChain>, Rc<PlanChain>),
}

impl Drop for PlanChain {
    #[cycle(chain)]
    fn drop(self) {
        match self {
            PlanChain::Lone(_, code) => drop(code),
            PlanChain::Chained(first, second) => {
                drop(first);
                drop(second);
            }
            PlanChain::OnSide(_, part) => drop(part),
            PlanChain::OnBoth(first, second) => {
                drop(first);
                drop(second);
            }
            PlanChain::Fanned(first, second) => {
                drop(first);
                drop(second);
            }
        }
    }
}

/// A primitive of a plan, with the code that is run for its expression or its function.
#[derive(Drop)]
pub enum PlanPrimitive {
    /// One without an expression.
    Bare(Bare),
    /// `never`, with the constant that has its type.
    Never(ConstantId),
    /// One with an expression.
    WithValue(WithValue, ExprId, OpenCode),
    /// One with a time and an expression.
    Timed(Timing, i64, ExprId, OpenCode),
    /// One with a number of events.
    Selected(Selection, i64),
    /// `arr`, with its function. Whatever lives by it shares the code.
    Arrow(FunctionId, Rc<OpenCode>),
    /// `arr`, with functions that are made into one.
    Fused(Rc<PlanChain>),
    /// One with an expression and a function. Whatever lives by it shares the code of the function.
    Accumulated(Accumulation, ExprId, OpenCode, FunctionId, Rc<OpenCode>),
}

impl PlanPrimitive {
    /// The code of the function, where this is `arr`.
    #[inline(always)]
    pub fn arrow(&self) -> Option<&Rc<OpenCode>>
        ensures { option_map (λ code. code.now) result ≡ arrow_code self.now }
    {
        match self {
            PlanPrimitive::Arrow(_, code) => Some(code),
            _ => None,
        }
    }
}

/// A term of a plan, whose parts are ids of terms before it.
#[derive(Drop)]
pub enum PlanNode {
    /// A primitive.
    Primitive(PlanPrimitive),
    /// The process of a name, with where it begins.
    Started(Start, NameId),
    /// A probe. What it records shares its name.
    Probe(Rc<String>),
    /// A call of the first template of a name on arguments.
    Call(NameId, TemplateId, Vec<PlanArgument>),
    /// Two terms joined, the first and the second.
    Joined(Join, PlanId, PlanId),
    /// A term on one part of a pair.
    Sided(Side, PlanId),
    /// A term with an expression at its head, and the code that is run for the expression.
    Headed(Heading, ExprId, OpenCode, PlanId),
    /// A term with a function at its head, and the code that is run for the function.
    Transformed(FunctionId, OpenCode, PlanId),
    /// A term that waits for its event, and the body that takes over.
    Switching(PlanSwitch),
    /// A term and its observer, and the body that takes over.
    Continuation(PlanContinuation),
    /// The members of a collection.
    Gathered(Rc<PlanCollection>),
    /// Members and their observer, and the body that takes over.
    Releasing(PlanReleasing),
    /// Members, and what edits them.
    Editing(PlanEditing),
    /// Two or more stages, each before the others.
    Pipeline(Vec<PlanId>),
}

impl PlanNode {
    /// The code of the function, where this is `arr`.
    #[inline(always)]
    pub fn arrow(&self) -> Option<&Rc<OpenCode>>
        ensures { option_map (λ code. code.now) result ≡ node_arrow self.now }
    {
        match self {
            PlanNode::Primitive(primitive) => primitive.arrow(),
            _ => None,
        }
    }
}

/// A term that waits for its event, and the body that takes over inside a pattern.
#[derive(Clone, Copy, Debug, PartialEq, Eq)]
pub struct PlanSwitch {
    /// Which of the four switches it is.
    pub form: Switching,
    /// The term that waits.
    pub source: PlanId,
    /// The pattern of the event in the body.
    pub pattern: PatternId,
    /// The term that takes over.
    pub body: PlanId,
}

/// A term and its observer, and the body that takes over inside a name and a pattern.
#[derive(Clone, Copy, Debug, PartialEq, Eq)]
pub struct PlanContinuation {
    /// Which output is shown at the event.
    pub shown: Observation,
    /// The term that waits.
    pub source: PlanId,
    /// The term that observes it.
    pub observer: PlanId,
    /// The name of the source in the body.
    pub name: NameId,
    /// The pattern of the event in the body.
    pub pattern: PatternId,
    /// The term that takes over.
    pub body: PlanId,
}

/// Members and their observer, and the body that takes over inside a name and a pattern.
#[derive(Drop)]
pub struct PlanReleasing {
    /// Which output is shown at the event.
    pub shown: Observation,
    /// The collection of the members.
    pub members: Rc<PlanCollection>,
    /// The term that observes them.
    pub observer: PlanId,
    /// The name of the members in the body.
    pub name: NameId,
    /// The pattern of the event in the body.
    pub pattern: PatternId,
    /// The term that takes over.
    pub body: PlanId,
}

/// Members, and the collection that they become at an event, inside a name and a pattern.
#[derive(Drop)]
pub struct PlanEditing {
    /// Which output is shown at the event.
    pub shown: Observation,
    /// The collection of the members.
    pub members: Rc<PlanCollection>,
    /// The name of the members in the edit.
    pub name: NameId,
    /// The pattern of the event in the edit.
    pub pattern: PatternId,
    /// What they become.
    pub edit: Rc<PlanCollection>,
}
