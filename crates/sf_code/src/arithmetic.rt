//! Functions that make numbers of numbers by arithmetic alone.
ghost use Rattle.std.specs.Prelude.{◌≡◌, true, ◌∷◌, IfSome, is_some, option_to_list};
ghost use Rattle.sf_func.specs.Registries.{AnswersByName};
ghost use Rattle.sf_operator.specs.Answers.{Computes};
ghost use Rattle.sf_operator.specs.Outcomes.{answer};
ghost use Rattle.sf_value.specs.Values;
ghost use Rattle.sf_code.specs.Arithmetic.{has_number};
ghost use Rattle.sf_code.specs.Arithmetic as arithmetics;
ghost use Rattle.sf_code.specs.Codes as trees;
ghost use Rattle.sf_code.specs.CodeView.{code_of};
ghost use Rattle.sf_code.specs.PlaceView.{place_of};
ghost use Rattle.sf_code.specs.Places.{value_in_frames};
ghost use Rattle.sf_code.specs.Running.{run};

use crate::code::Code;
use crate::frames::Frames;
use crate::open::Closure;
use crate::place::{Path, Place};
use sf_operator::{Operator, calculate, number_in};
use sf_value::{Value, ValueFault};

/// A function that makes a number of a number by arithmetic alone.
#[derive(Drop)]
pub struct Calculation {
    /// The function.
    pub closure: Closure,
    // (it is arithmetic alone)
    ghost alone: { arithmetics.is_arithmetic (option_to_list closure.around) (code_of closure.function.value.code) ≡ true },
}

impl Calculation {
    /// What it makes of a number, or the first fault. It takes no memory and asks no stored function.
    #[inline(always)]
    pub fn calculate(&self, number: i64) -> Result<i64, ValueFault>
        ensures { (f : AnswersByName) → Computes result (run (code_of self.now.closure.function.value.code) (Values.number number ∷ option_to_list self.now.closure.around) f) }
    {
        calculated(&self.closure.function.code, &self.closure.around, number)
    }
}

/// Whether the code of a function makes a number of a number by arithmetic alone, over the value of the names around it: of
/// its argument, of numbers, and of what arithmetic makes of these.
pub fn is_arithmetic(code: &Code, around: &Option<Value>) -> bool
    ensures { result ≡ arithmetics.is_arithmetic (option_to_list around.now) (code_of code.now) }
{
    match code {
        Code::Constant(value) => number_in(value).is_some(),
        Code::Place(place) => number_at(place, around, 0).is_some(),
        Code::Operation(left, Operator::Arithmetic(_), right) => {
            is_arithmetic(left, around) && is_arithmetic(right, around)
        }
        Code::WithNumber(_, place, _) | Code::NumberWith(_, _, place) => {
            number_at(place, around, 0).is_some()
        }
        _ => false,
    }
}

// The number at a place: the argument itself, or a number among the names around.
#[inline(always)]
fn number_at(place: &Place, around: &Option<Value>, number: i64) -> Option<i64>
    ensures found { is_some result ≡ has_number (option_to_list around.now) (place_of place.now) }
    ensures value { IfSome result (λ z. value_in_frames (place_of place.now) (Values.number number ∷ option_to_list around.now) ≡ Values.number z) }
{
    match place {
        Place::Here(path) => match path {
            Path::Whole => Some(number),
            Path::Half(_, _) => None,
        },
        Place::Out(outer) => Frames::around(around).at(outer).number(),
    }
}

// What arithmetic alone makes of a number by the code of a function, or the first fault.
#[cycle(calculated)]
#[inline(always)]
fn calculated(code: &Code, around: &Option<Value>, number: i64) -> Result<i64, ValueFault>
    requires { arithmetics.is_arithmetic (option_to_list around.now) (code_of code.now) ≡ true }
    ensures { (f : AnswersByName) → Computes result (run (code_of code.now) (Values.number number ∷ option_to_list around.now) f) }
{
    match code {
        Code::Place(place) => match number_at(place, around, number) {
            Some(own) => Ok(own),
            None => unreachable!(),
        },
        Code::Constant(value) => match number_in(value) {
            Some(own) => Ok(own),
            None => unreachable!(),
        },
        Code::Operation(left, operator, right) => at_once(left, *operator, right, around, number),
        Code::WithNumber(operator, place, second) => match number_at(place, around, number) {
            Some(first) => calculate(*operator, first, *second),
            None => unreachable!(),
        },
        Code::NumberWith(operator, first, place) => match number_at(place, around, number) {
            Some(second) => calculate(*operator, *first, second),
            None => unreachable!(),
        },
        _ => unreachable!(),
    }
}

// What an operator makes of what two codes make of a number, or the first fault: without a call where both are at hand.
#[cycle(calculated)]
#[inline(always)]
fn at_once(
    left: &Code,
    operator: Operator,
    right: &Code,
    around: &Option<Value>,
    number: i64,
) -> Result<i64, ValueFault>
    requires { arithmetics.is_arithmetic (option_to_list around.now) (trees.operation (code_of left.now) operator (code_of right.now)) ≡ true }
    ensures { (f : AnswersByName) → Computes result (run (trees.operation (code_of left.now) operator (code_of right.now)) (Values.number number ∷ option_to_list around.now) f) }
{
    let Some(first) = at_hand(left, around, number) else {
        return operation(left, operator, right, around, number);
    };
    let Some(second) = at_hand(right, around, number) else {
        return operation(left, operator, right, around, number);
    };
    let Operator::Arithmetic(operator) = operator else {
        unreachable!();
    };
    calculate(operator, first, second)
}

// The number that code is where it is a place of a number or a number.
#[inline(always)]
fn at_hand(code: &Code, around: &Option<Value>, number: i64) -> Option<i64>
    ensures { IfSome result (λ z. (f : AnswersByName) → run (code_of code.now) (Values.number number ∷ option_to_list around.now) f ≡ answer (Values.number z)) }
{
    match code {
        Code::Place(place) => number_at(place, around, number),
        Code::Constant(value) => number_in(value),
        _ => None,
    }
}

// What an operator makes of what two codes make of a number, or the first fault.
#[cycle(calculated)]
#[inline(never)]
fn operation(
    left: &Code,
    operator: Operator,
    right: &Code,
    around: &Option<Value>,
    number: i64,
) -> Result<i64, ValueFault>
    requires { arithmetics.is_arithmetic (option_to_list around.now) (trees.operation (code_of left.now) operator (code_of right.now)) ≡ true }
    ensures { (f : AnswersByName) → Computes result (run (trees.operation (code_of left.now) operator (code_of right.now)) (Values.number number ∷ option_to_list around.now) f) }
{
    let Operator::Arithmetic(operator) = operator else {
        unreachable!();
    };
    let left = calculated(left, around, number)?;
    let right = calculated(right, around, number)?;
    calculate(operator, left, right)
}
