//! What code is worth over the pair of two values, which isn't made.
ghost use Rattle.std.specs.Prelude.{◌≡◌, [], ◌∷◌, IfSome};
ghost use Rattle.sf_code.specs.CodeView.{code_of};
ghost use Rattle.sf_code.specs.FrameView.{found_value};
ghost use Rattle.sf_code.specs.Places.{part_at, value_in_frames};
ghost use Rattle.sf_code.specs.PlaceView.{path_of, place_of};
ghost use Rattle.sf_code.specs.Running;
ghost use Rattle.sf_func.specs.Registries.{AnswersByName};
ghost use Rattle.sf_operator.specs.Answers.{Evaluates};
ghost use Rattle.sf_operator.specs.Operations;
ghost use Rattle.sf_operator.specs.Outcomes;
ghost use Rattle.sf_operator.specs.declared.operator.Operator.TheVariants as operators;
ghost use Rattle.sf_value.specs.Values.{pair};
ghost use Rattle.sf_value.specs.Values;

use crate::code::Code;
use crate::frames::{Found, part};
use crate::place::{Half, Path, Place};
use crate::running::{
    compared_with, computed, equated_with, found, in_order, number_with, truth_found, with_number,
};
use sf_operator::{Arithmetic, EvalFault, Operator, calculate, copied, number_in};
use sf_value::Value;
use std::alloc::Global;

/// Two values that stand for their pair.
#[derive(Clone, Copy)]
pub(crate) struct Halves<'a> {
    pub(crate) first: &'a Value,
    pub(crate) second: &'a Value,
}

impl<'a> Halves<'a> {
    /// What stands at a place of the pair; none where that is the pair, or outside of it.
    #[inline(always)]
    fn at(self, place: &Place) -> Option<Found<'a>>
        ensures { IfSome result (λ found. found_value found ≡ value_in_frames (place_of place.now) (pair self.entry.first.now self.entry.second.now ∷ [])) }
    {
        match place {
            Place::Here(path) => self.part(path),
            Place::Out(_) => None,
        }
    }

    // The part of the pair that a path leads to; none where that is the pair.
    #[inline(always)]
    fn part(self, path: &Path) -> Option<Found<'a>>
        ensures { IfSome result (λ found. found_value found ≡ part_at (path_of path.now) (pair self.entry.first.now self.entry.second.now)) }
    {
        match path {
            Path::Half(half, path) => match half {
                Half::First => Some(part(Found::Value(self.first), path)),
                Half::Second => Some(part(Found::Value(self.second), path)),
            },
            Path::Whole => None,
        }
    }
}

/// What code is worth over the pair of two values, or its fault, for code that needs no pair: a constant, a part of one of the
/// values, arithmetic or a comparison of two such numbers, and a choice by such a truth between a constant or a part and another.
/// None of other code, and where an operand isn't of the operator's kind.
#[inline(always)]
pub(crate) fn worth_beside(
    alloc: Global,
    code: &Code,
    halves: Halves,
) -> Option<Result<Value, EvalFault>>
    ensures { IfSome result (λ worth. (f : AnswersByName) → Evaluates worth (Running.run (code_of code.now) (pair halves.entry.first.now halves.entry.second.now ∷ []) f)) }
{
    match code {
        Code::Operation(left, Operator::Arithmetic(operator), right) => {
            let left = number_beside(left, halves)?;
            let right = number_beside(right, halves)?;
            Some(calculated(*operator, left, right))
        }
        Code::WithNumber(operator, place, number) => {
            let found = halves.at(place)?;
            Some(computed(with_number(*operator, found, *number)))
        }
        Code::NumberWith(operator, number, place) => {
            let found = halves.at(place)?;
            Some(computed(number_with(*operator, *number, found)))
        }
        Code::Compared(_, _, _) | Code::Equated(_, _, _) => {
            let truth = truth_beside(code, halves)?;
            Some(Ok(Value::bool(truth)))
        }
        Code::Conditional(condition, first, second) => {
            let chosen = if truth_beside(condition, halves)? {
                first
            } else {
                second
            };
            copied_beside(alloc, chosen, halves)
        }
        _ => copied_beside(alloc, code, halves),
    }
}

// The same of a constant, and of a part of one of the values.
#[inline(always)]
fn copied_beside(alloc: Global, code: &Code, halves: Halves) -> Option<Result<Value, EvalFault>>
    ensures { IfSome result (λ worth. (f : AnswersByName) → Evaluates worth (Running.run (code_of code.now) (pair halves.entry.first.now halves.entry.second.now ∷ []) f)) }
{
    match code {
        Code::Constant(value) => Some(copied(alloc, value)),
        Code::Event(event) => Some(event.value(alloc)),
        Code::Place(place) => {
            let part = halves.at(place)?;
            Some(found(alloc, part))
        }
        _ => None,
    }
}

// The number that arithmetic makes of two numbers, or its fault.
#[inline(always)]
fn calculated(operator: Arithmetic, left: i64, right: i64) -> Result<Value, EvalFault>
    ensures { Evaluates result (Operations.operated (operators.Arithmetic operator) (Values.number left) (Values.number right)) }
{
    Ok(Value::int(calculate(operator, left, right)?))
}

// The number that such code is worth; none where it is another value.
#[inline(always)]
fn number_beside(code: &Code, halves: Halves) -> Option<i64>
    ensures { IfSome result (λ number. (f : AnswersByName) → Running.run (code_of code.now) (pair halves.entry.first.now halves.entry.second.now ∷ []) f ≡ Outcomes.answer (Values.number number)) }
{
    match code {
        Code::Constant(value) => number_in(value),
        Code::Place(place) => {
            let part = halves.at(place)?;
            part.number()
        }
        _ => None,
    }
}

// The truth that such code is worth; none where it is another value.
#[inline(always)]
fn truth_beside(code: &Code, halves: Halves) -> Option<bool>
    ensures { IfSome result (λ truth. (f : AnswersByName) → Running.run (code_of code.now) (pair halves.entry.first.now halves.entry.second.now ∷ []) f ≡ Outcomes.answer (Values.truth truth)) }
{
    match code {
        Code::Place(place) => {
            let part = halves.at(place)?;
            truth_found(part)
        }
        Code::Compared(operator, place, number) => {
            let part = halves.at(place)?;
            compared_with(*operator, part, *number)
        }
        Code::Equated(operator, place, number) => {
            let part = halves.at(place)?;
            Some(equated_with(*operator, part, *number))
        }
        Code::Operation(left, Operator::Comparison(operator), right) => {
            let left = number_beside(left, halves)?;
            let right = number_beside(right, halves)?;
            Some(in_order(*operator, left, right))
        }
        _ => None,
    }
}
