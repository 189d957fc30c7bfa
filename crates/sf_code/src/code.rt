//! Code.
ghost use Rattle.std.specs.Prelude.{◌≡◌, IfOk};
ghost use Rattle.sf_operator.specs.Answers.{Evaluates};
ghost use Rattle.sf_operator.specs.Outcomes.{answer};
ghost use Rattle.sf_value.specs.Values;
ghost use Rattle.sf_code.specs.Events.{event_payload};

use crate::place::Place;
use sf_func::Callee;
use sf_operator::{
    Arithmetic, Comparison, Equality, EvalFault, Folding, Mapping, Operator, Unary, copied,
};
use sf_value::Value;
use std::alloc::{AllocError, Global};

/// An expression of which each name is a place among the values of frames, or a value. The code of a function stands last,
/// and has one frame more: its argument.
#[derive(Drop)]
pub enum Code {
    /// A place in the frames.
    Place(Place),
    /// A value.
    Constant(Value),
    /// A pair of two codes.
    Pair(Box<Code>, Box<Code>),
    /// The event of a value, which is at hand.
    Event(ConstantEvent),
    /// An operator on its operand.
    Applied(Unary, Box<Code>),
    /// An operator between its operands.
    Operation(Box<Code>, Operator, Box<Code>),
    /// Arithmetic between a place and a number.
    WithNumber(Arithmetic, Place, i64),
    /// Arithmetic between a number and a place.
    NumberWith(Arithmetic, i64, Place),
    /// Whether a place and a number stand in order as an operator says.
    Compared(Comparison, Place, i64),
    /// Whether a place and a number are the same, or whether they are not.
    Equated(Equality, Place, i64),
    /// The second where the first is true, the third where it is false.
    Conditional(Box<Code>, Box<Code>, Box<Code>),
    /// A form on a value with a function.
    Mapped(Box<Code>, Mapping, Box<Code>),
    /// A form on two values with a function.
    Folded(Box<Code>, Folding, Box<Code>, Box<Code>),
    /// A call of a stored function on its argument.
    Called(Callee, Box<Code>),
}

/// An event that is made once.
#[derive(Drop)]
pub struct ConstantEvent {
    event: Value,
    // (it occurs)
    ghost occurs: { event ≡ Values.event (event_payload event) },
}

impl ConstantEvent {
    /// The event of a value.
    pub(crate) fn new(alloc: Global, payload: Value) -> Result<ConstantEvent, AllocError>
        ensures { IfOk result (λ own. event_payload own.event ≡ payload) }
    {
        let event = Value::event(alloc, payload)?;
        Ok(ConstantEvent { event })
    }

    /// A copy of the event, which shares its payload. It takes no memory.
    #[inline(always)]
    pub(crate) fn value(&self, alloc: Global) -> Result<Value, EvalFault>
        ensures { Evaluates result (answer (Values.event (event_payload self.now.event))) }
    {
        copied(alloc, &self.event)
    }
}
