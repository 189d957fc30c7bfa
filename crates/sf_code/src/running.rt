//! What code is worth.
ghost use Rattle.std.specs.Prelude.{◌≡◌, ◌∷◌, IfOk, Option, cond, map};
ghost use Rattle.sf_code.specs.Codes as trees;
ghost use Rattle.sf_code.specs.Running;
ghost use Rattle.sf_code.specs.CodeView.{code_of};
ghost use Rattle.sf_code.specs.FrameView.{frames_of};
ghost use Rattle.sf_operator.specs.Answers.{Evaluates, EvaluatesAs};
ghost use Rattle.sf_operator.specs.declared.operator.Folding.TheVariants as foldings;
ghost use Rattle.sf_operator.specs.declared.operator.Operator.TheVariants as operators;
ghost use Rattle.sf_value.specs.Values.{Data, no_event};
ghost use Rattle.sf_value.specs.Values;
ghost use Rattle.sf_operator.specs.declared.operator.Unary.TheVariants as unaries;
ghost use Rattle.std.specs.Ordering.{int_cmp};
ghost use Rattle.sf_operator.specs.Operations.{truth_held, same_data, of_comparison, of_equality, unary_value};
ghost use Rattle.sf_operator.specs.Operations;
ghost use Rattle.sf_code.specs.FrameView.{found_value};
ghost use Rattle.sf_expr.specs.Evaluation.{granted};
ghost use Rattle.sf_func.specs.Callees.{callee_name};
ghost use Rattle.sf_func.specs.Meaning.{Applied};
ghost use Rattle.sf_code.specs.Numbers.{AnswersNumber, AnswersTruth};
ghost use Rattle.sf_value.specs.View.{key_of, keyed_rows};
ghost use Rattle.sf_operator.specs.Outcomes.{Evaluated, ◌>>=◌ as followed, known};
ghost use Rattle.sf_operator.specs.Outcomes;
ghost use Rattle.sf_operator.specs.FunctionForms.{mapped_value, folded_value, folded_rows};
ghost use Rattle.sf_operator.specs.declared.operator.Mapping.TheVariants as mappings;

use crate::argument::next_argument;
use crate::code::Code;
use crate::frames::{Found, Frames};
use sf_func::{Callee, FunctionFault, Holds};
use sf_operator::{
    Arithmetic, Comparison, Equality, EvalFault, Folding, Logic, Mapping, Operator, Unary,
    calculate, copied, decide, is_true, number_in, operate, operate_on, payload_in, rows_in,
};
use sf_value::{Rows, Value, ValueFault};
use std::alloc::{AllocError, Global};

/// What code is worth over the values of frames, or the first fault of its operations: operands stand from left to right.
#[cycle(run)]
#[inline(always)]
pub(crate) fn run<F: Holds>(
    alloc: Global,
    code: &Code,
    frames: &Frames,
    functions: &F,
) -> Result<Value, EvalFault>
    ensures { Evaluates result (Running.run (code_of code.now) (frames_of frames.now) (F.answers functions.now)) }
{
    match code {
        Code::Constant(value) => copied(alloc, value),
        Code::Event(event) => event.value(alloc),
        Code::Place(place) => found(alloc, frames.at(place)),
        Code::Pair(first, second) => { pair(alloc, first, second, frames, functions) }
        Code::Applied(operator, part) => applied(alloc, *operator, part, frames, functions),
        Code::Operation(left, Operator::Arithmetic(operator), right) => {
            let number = arithmetic(alloc, left, *operator, right, frames, functions);
            computed(number)
        }
        Code::Operation(left, operator, right) => {
            operation(alloc, left, *operator, right, frames, functions)
        }
        Code::WithNumber(operator, place, number) => {
            computed(with_number(*operator, frames.at(place), *number))
        }
        Code::NumberWith(operator, number, place) => {
            computed(number_with(*operator, *number, frames.at(place)))
        }
        Code::Compared(operator, place, number) => {
            Ok(told(compared_with(*operator, frames.at(place), *number)))
        }
        Code::Equated(operator, place, number) => {
            Ok(Value::bool(equated_with(*operator, frames.at(place), *number)))
        }
        Code::Conditional(condition, first, second) => {
            conditional(alloc, condition, first, second, frames, functions)
        }
        Code::Mapped(part, mapping, body) => {
            mapped(alloc, part, *mapping, body, frames, functions)
        }
        Code::Folded(first, Folding::Match, second, body) => {
            matched(alloc, first, second, body, frames, functions)
        }
        Code::Folded(first, Folding::Merge, second, body) => {
            merged(alloc, first, second, body, frames, functions)
        }
        Code::Folded(first, Folding::Fold, second, body) => {
            fold(alloc, first, second, body, frames, functions)
        }
        Code::Called(callee, part) => { called(alloc, callee, part, frames, functions) }
    }
}

/// What code is worth over the values of frames, or the first fault: at once where it is a value or a place.
#[cycle(run)]
#[inline(always)]
fn worth_of<F: Holds>(
    alloc: Global,
    code: &Code,
    frames: &Frames,
    functions: &F,
) -> Result<Value, EvalFault>
    ensures { Evaluates result (Running.run (code_of code.now) (frames_of frames.now) (F.answers functions.now)) }
{
    match code {
        Code::Constant(value) => copied(alloc, value),
        Code::Event(event) => event.value(alloc),
        Code::Place(place) => found(alloc, frames.at(place)),
        _ => run(alloc, code, frames, functions),
    }
}

/// What was found.
#[inline(always)]
pub(crate) fn found(alloc: Global, found: Found) -> Result<Value, EvalFault>
    ensures { Evaluates result (Outcomes.answer (found_value found.entry)) }
{
    Ok(found.value(alloc)?)
}

/// A number as a value, or the fault in its place.
#[inline(always)]
pub(crate) fn computed(number: Result<i64, EvalFault>) -> Result<Value, EvalFault>
    ensures { (worth : Evaluated Data) → EvaluatesAs (λ n. Values.number n) number worth → Evaluates result worth }
{
    Ok(Value::int(number?))
}

/// What a pair of two codes is worth, or the first fault.
#[cycle(run)]
#[inline(never)]
fn pair<F: Holds>(
    alloc: Global,
    first: &Code,
    second: &Code,
    frames: &Frames,
    functions: &F,
) -> Result<Value, EvalFault>
    ensures { Evaluates result (Running.run (trees.paired (code_of first.now) (code_of second.now)) (frames_of frames.now) (F.answers functions.now)) }
{
    let first = worth_of(alloc, first, frames, functions)?;
    let second = worth_of(alloc, second, frames, functions);
    paired(alloc, first, second)
}

/// The pair of two values, or the fault in place of the second.
#[inline(always)]
fn paired(alloc: Global, first: Value, second: Result<Value, EvalFault>) -> Result<Value, EvalFault>
    ensures { (worth : Evaluated Data) → Evaluates second worth → Evaluates result (followed worth (λ b. Outcomes.answer (Values.pair first b))) }
{
    Ok(Value::pair(alloc, first, second?)?)
}

/// What an operator makes of one code, or the first fault.
#[cycle(run)]
#[inline(never)]
fn applied<F: Holds>(
    alloc: Global,
    operator: Unary,
    part: &Code,
    frames: &Frames,
    functions: &F,
) -> Result<Value, EvalFault>
    ensures { Evaluates result (Running.run (trees.applied operator (code_of part.now)) (frames_of frames.now) (F.answers functions.now)) }
{
    let part = worth_of(alloc, part, frames, functions)?;
    operate_on(alloc, operator, &part)
}

/// What an operator makes of two codes, or the first fault: the second is run where the first decides nothing.
#[cycle(run)]
#[inline(never)]
fn operation<F: Holds>(
    alloc: Global,
    left: &Code,
    operator: Operator,
    right: &Code,
    frames: &Frames,
    functions: &F,
) -> Result<Value, EvalFault>
    ensures { Evaluates result (Running.run (trees.operation (code_of left.now) operator (code_of right.now)) (frames_of frames.now) (F.answers functions.now)) }
{
    let left = worth_of(alloc, left, frames, functions)?;
    match decide(operator, &left) {
        Some(decided) => Ok(decided),
        None => {
            let right = worth_of(alloc, right, frames, functions);
            operated(alloc, operator, left, right)
        }
    }
}

/// What an operator makes of two values, which are let go of, or the fault in place of the second.
#[inline(always)]
fn operated(
    alloc: Global,
    operator: Operator,
    left: Value,
    right: Result<Value, EvalFault>,
) -> Result<Value, EvalFault>
    ensures { (worth : Evaluated Data) → Evaluates right worth → Evaluates result (followed worth (Operations.operated operator left)) }
{
    operate(alloc, operator, &left, &right?)
}

/// The number that arithmetic makes of two codes, or the first fault: the number 0 of what is no number.
#[cycle(run)]
#[inline(never)]
fn arithmetic<F: Holds>(
    alloc: Global,
    left: &Code,
    operator: Arithmetic,
    right: &Code,
    frames: &Frames,
    functions: &F,
) -> Result<i64, EvalFault>
    ensures { EvaluatesAs (λ n. Values.number n) result (Running.run (trees.operation (code_of left.now) (operators.Arithmetic operator) (code_of right.now)) (frames_of frames.now) (F.answers functions.now)) }
{
    let left = number(alloc, left, frames, functions)?;
    let right = number(alloc, right, frames, functions)?;
    match left {
        Some(left) => match right {
            Some(right) => Ok(calculate(operator, left, right)?),
            None => Ok(0),
        },
        None => Ok(0),
    }
}

/// The number that arithmetic makes of what was found and a number, or its fault: the number 0 of what is no number.
#[inline(always)]
pub(crate) fn with_number(operator: Arithmetic, found: Found, number: i64) -> Result<i64, EvalFault>
    ensures { EvaluatesAs (λ n. Values.number n) result (Operations.operated (operators.Arithmetic operator) (found_value found.entry) (Values.number number)) }
{
    match found.number() {
        Some(own) => Ok(calculate(operator, own, number)?),
        None => Ok(0),
    }
}

/// The number that arithmetic makes of a number and what was found, or its fault: the number 0 of what is no number.
#[inline(always)]
pub(crate) fn number_with(operator: Arithmetic, number: i64, found: Found) -> Result<i64, EvalFault>
    ensures { EvaluatesAs (λ n. Values.number n) result (Operations.operated (operators.Arithmetic operator) (Values.number number) (found_value found.entry)) }
{
    match found.number() {
        Some(own) => Ok(calculate(operator, number, own)?),
        None => Ok(0),
    }
}

/// The number that code is worth, none where it is worth another value, or the first fault: at once where it is a constant,
/// a place, or arithmetic between these.
#[cycle(run)]
#[inline(always)]
fn number<F: Holds>(
    alloc: Global,
    code: &Code,
    frames: &Frames,
    functions: &F,
) -> Result<Option<i64>, EvalFault>
    ensures { AnswersNumber result (Running.run (code_of code.now) (frames_of frames.now) (F.answers functions.now)) }
{
    match code {
        Code::Constant(value) => Ok(number_in(value)),
        Code::Place(place) => Ok(frames.at(place).number()),
        Code::WithNumber(operator, place, number) => {
            counted(with_number(*operator, frames.at(place), *number))
        }
        Code::NumberWith(operator, number, place) => {
            counted(number_with(*operator, *number, frames.at(place)))
        }
        _ => number_run(alloc, code, frames, functions),
    }
}

/// The number that code is worth, none where it is worth another value, or the first fault.
#[cycle(run)]
#[inline(never)]
fn number_run<F: Holds>(
    alloc: Global,
    code: &Code,
    frames: &Frames,
    functions: &F,
) -> Result<Option<i64>, EvalFault>
    ensures { AnswersNumber result (Running.run (code_of code.now) (frames_of frames.now) (F.answers functions.now)) }
{
    match code {
        Code::Operation(left, Operator::Arithmetic(operator), right) => {
            let number = arithmetic(alloc, left, *operator, right, frames, functions);
            counted(number)
        }
        _ => numeric(run(alloc, code, frames, functions)),
    }
}

/// The number that a value is, which is let go of, none where it is another value, or the fault in its place.
#[inline(always)]
fn numeric(value: Result<Value, EvalFault>) -> Result<Option<i64>, EvalFault>
    ensures { (worth : Evaluated Data) → Evaluates value worth → AnswersNumber result worth }
{
    Ok(number_in(&value?))
}

/// A number that is always there, or the fault in its place.
#[inline(always)]
fn counted(number: Result<i64, EvalFault>) -> Result<Option<i64>, EvalFault>
    ensures { (worth : Evaluated Data) → EvaluatesAs (λ n. Values.number n) number worth → AnswersNumber result worth }
{
    Ok(Some(number?))
}

/// The truth that code is worth, none where it is worth another value, or the first fault: at once where it is a place, or
/// compares one with a number.
#[cycle(run)]
#[inline(always)]
fn truth<F: Holds>(
    alloc: Global,
    code: &Code,
    frames: &Frames,
    functions: &F,
) -> Result<Option<bool>, EvalFault>
    ensures { AnswersTruth result (Running.run (code_of code.now) (frames_of frames.now) (F.answers functions.now)) }
{
    match code {
        Code::Place(place) => Ok(truth_found(frames.at(place))),
        Code::Compared(operator, place, number) => {
            Ok(compared_with(*operator, frames.at(place), *number))
        }
        Code::Equated(operator, place, number) => {
            Ok(Some(equated_with(*operator, frames.at(place), *number)))
        }
        _ => truth_run(alloc, code, frames, functions),
    }
}

/// The truth that code is worth, none where it is worth another value, or the first fault.
#[cycle(run)]
#[inline(never)]
fn truth_run<F: Holds>(
    alloc: Global,
    code: &Code,
    frames: &Frames,
    functions: &F,
) -> Result<Option<bool>, EvalFault>
    ensures { AnswersTruth result (Running.run (code_of code.now) (frames_of frames.now) (F.answers functions.now)) }
{
    match code {
        Code::Constant(value) => Ok(is_true(value)),
        Code::Applied(Unary::Not, part) => negated(truth(alloc, part, frames, functions)),
        Code::Operation(left, Operator::Comparison(operator), right) => {
            compared(alloc, left, *operator, right, frames, functions)
        }
        Code::Operation(left, Operator::Logic(operator), right) => {
            combined(alloc, left, *operator, right, frames, functions)
        }
        _ => truthful(run(alloc, code, frames, functions)),
    }
}

/// The truth that a value is, which is let go of, none where it is another value, or the fault in its place.
#[inline(always)]
fn truthful(value: Result<Value, EvalFault>) -> Result<Option<bool>, EvalFault>
    ensures { (worth : Evaluated Data) → Evaluates value worth → AnswersTruth result worth }
{
    Ok(is_true(&value?))
}

/// The truth that was found, if it is one.
#[inline(always)]
pub(crate) fn truth_found(found: Found) -> Option<bool>
    ensures { result ≡ truth_held (found_value found.entry) }
{
    match found {
        Found::Nothing => None,
        Found::Value(value) => is_true(value),
    }
}

/// Whether what was found and a number stand in order as an operator says, none where they have no order.
#[inline(always)]
pub(crate) fn compared_with(operator: Comparison, found: Found, number: i64) -> Option<bool>
    ensures { Operations.operated (operators.Comparison operator) (found_value found.entry) (Values.number number) ≡ known result (λ b. Outcomes.answer (Values.truth b)) }
{
    match found.number() {
        Some(own) => Some(in_order(operator, own, number)),
        None => None,
    }
}

/// Whether what was found and a number are the same, or whether they are not.
#[inline(always)]
pub(crate) fn equated_with(operator: Equality, found: Found, number: i64) -> bool
    ensures { result ≡ of_equality operator (same_data (found_value found.entry) (Values.number number)) }
{
    let same = match found.number() {
        Some(own) => own == number,
        None => false,
    };
    match operator {
        Equality::Equal => same,
        Equality::Unequal => !same,
    }
}

/// A truth as a value, the number 0 where there is none.
#[inline(always)]
fn told(truth: Option<bool>) -> Value
    ensures { Outcomes.answer result ≡ known truth (λ b. Outcomes.answer (Values.truth b)) }
{
    match truth {
        Some(truth) => Value::bool(truth),
        None => Value::int(0),
    }
}

/// The other truth than one, none where there is none, or the fault in its place.
#[inline(always)]
fn negated(truth: Result<Option<bool>, EvalFault>) -> Result<Option<bool>, EvalFault>
    ensures { (worth : Evaluated Data) → AnswersTruth truth worth → AnswersTruth result (followed worth (unary_value unaries.Not)) }
{
    match truth? {
        Some(truth) => Ok(Some(!truth)),
        None => Ok(None),
    }
}

/// Whether two codes stand in order as an operator says, none where they have no order, or the first fault.
#[cycle(run)]
fn compared<F: Holds>(
    alloc: Global,
    left: &Code,
    operator: Comparison,
    right: &Code,
    frames: &Frames,
    functions: &F,
) -> Result<Option<bool>, EvalFault>
    ensures { AnswersTruth result (Running.run (trees.operation (code_of left.now) (operators.Comparison operator) (code_of right.now)) (frames_of frames.now) (F.answers functions.now)) }
{
    let left = worth_of(alloc, left, frames, functions)?;
    match number_in(&left) {
        Some(number_left) => {
            let right = number(alloc, right, frames, functions);
            ordered(operator, number_left, right)
        }
        None => {
            let right = worth_of(alloc, right, frames, functions);
            truthful(operated(alloc, Operator::Comparison(operator), left, right))
        }
    }
}

/// Whether two numbers stand in order as an operator says, none where the second is none, or the fault in its place.
#[inline(always)]
fn ordered(
    operator: Comparison,
    left: i64,
    right: Result<Option<i64>, EvalFault>,
) -> Result<Option<bool>, EvalFault>
    ensures { (worth : Evaluated Data) → AnswersNumber right worth → AnswersTruth result (followed worth (Operations.operated (operators.Comparison operator) (Values.number left))) }
{
    match right? {
        Some(right) => Ok(Some(in_order(operator, left, right))),
        None => Ok(None),
    }
}

/// Whether two numbers stand in order as an operator says.
#[inline(always)]
pub(crate) fn in_order(operator: Comparison, left: i64, right: i64) -> bool
    ensures { result ≡ of_comparison operator (int_cmp left right) }
{
    let order = left.cmp(&right);
    match operator {
        Comparison::Less => order.is_lt(),
        Comparison::AtMost => order.is_le(),
        Comparison::Greater => order.is_gt(),
        Comparison::AtLeast => order.is_ge(),
    }
}

/// What `and` or `or` makes of two codes, of which the second is run where the first decides nothing; none where it is no
/// truth, or the first fault.
#[cycle(run)]
fn combined<F: Holds>(
    alloc: Global,
    left: &Code,
    operator: Logic,
    right: &Code,
    frames: &Frames,
    functions: &F,
) -> Result<Option<bool>, EvalFault>
    ensures { AnswersTruth result (Running.run (trees.operation (code_of left.now) (operators.Logic operator) (code_of right.now)) (frames_of frames.now) (F.answers functions.now)) }
{
    let left = truth(alloc, left, frames, functions)?;
    match (operator, left) {
        (Logic::And, Some(false)) => Ok(Some(false)),
        (Logic::Or, Some(true)) => Ok(Some(true)),
        _ => truth(alloc, right, frames, functions),
    }
}

/// What the one of two codes is worth that a condition chooses, or the first fault.
#[cycle(run)]
#[inline(never)]
fn conditional<F: Holds>(
    alloc: Global,
    condition: &Code,
    first: &Code,
    second: &Code,
    frames: &Frames,
    functions: &F,
) -> Result<Value, EvalFault>
    ensures { Evaluates result (Running.run (trees.conditional (code_of condition.now) (code_of first.now) (code_of second.now)) (frames_of frames.now) (F.answers functions.now)) }
{
    let chosen = match truth(alloc, condition, frames, functions)? {
        Some(true) => first,
        Some(false) => second,
        None => return Ok(Value::int(0)),
    };
    worth_of(alloc, chosen, frames, functions)
}

/// What the code of a function is worth over a value, with the frames around it, or the first fault.
#[cycle(run)]
#[inline(never)]
pub(crate) fn answer<F: Holds>(
    alloc: Global,
    body: &Code,
    value: &Value,
    frames: &Frames,
    functions: &F,
) -> Result<Value, EvalFault>
    ensures { Evaluates result (Running.run (code_of body.now) (value.now ∷ frames_of frames.now) (F.answers functions.now)) }
{
    let inner = (&*frames).within(&*value);
    run(alloc, body, &inner, &*functions)
}

/// What a form makes of one code and a function, or the first fault.
#[cycle(run)]
#[inline(never)]
fn mapped<F: Holds>(
    alloc: Global,
    part: &Code,
    mapping: Mapping,
    body: &Code,
    frames: &Frames,
    functions: &F,
) -> Result<Value, EvalFault>
    ensures { Evaluates result (Running.run (trees.mapped (code_of part.now) mapping (code_of body.now)) (frames_of frames.now) (F.answers functions.now)) }
{
    let part = worth_of(alloc, part, frames, functions)?;
    match mapping {
        Mapping::Let => answer(alloc, body, &part, frames, functions),
        Mapping::Filter => filter(alloc, &part, body, frames, functions),
        Mapping::Map => map(alloc, &part, body, frames, functions),
    }
}

/// The event, where a function is true of its payload, or the fault of the function.
#[cycle(run)]
fn filter<F: Holds>(
    alloc: Global,
    event: &Value,
    body: &Code,
    frames: &Frames,
    functions: &F,
) -> Result<Value, EvalFault>
    ensures { Evaluates result (mapped_value mappings.Filter event.now (λ x. Running.run (code_of body.now) (x ∷ frames_of frames.now) (F.answers functions.now))) }
{
    let unit = Value::unit();
    match payload_in(event, &unit) {
        Some(Some(payload)) => {
            let inner = (&*frames).within(payload);
            kept(alloc, &*event, truth(alloc, body, &inner, &*functions))
        }
        Some(None) => Ok(Value::no_event()),
        None => Ok(Value::int(0)),
    }
}

/// An event where it is accepted, or the fault in place of whether it is.
#[inline(always)]
fn kept(
    alloc: Global,
    event: &Value,
    accepted: Result<Option<bool>, EvalFault>,
) -> Result<Value, EvalFault>
    ensures { (worth : Evaluated Data) → AnswersTruth accepted worth → Evaluates result (followed worth (λ b. known (truth_held b) (λ c. Outcomes.answer (cond c event.now no_event)))) }
{
    match accepted? {
        Some(true) => copied(alloc, event),
        Some(false) => Ok(Value::no_event()),
        None => Ok(Value::int(0)),
    }
}

/// The event of what a function makes of an event's payload, or the fault of the function.
#[cycle(run)]
fn map<F: Holds>(
    alloc: Global,
    event: &Value,
    body: &Code,
    frames: &Frames,
    functions: &F,
) -> Result<Value, EvalFault>
    ensures { Evaluates result (mapped_value mappings.Map event.now (λ x. Running.run (code_of body.now) (x ∷ frames_of frames.now) (F.answers functions.now))) }
{
    let unit = Value::unit();
    match payload_in(event, &unit) {
        Some(Some(payload)) => occurring(alloc, answer(alloc, body, payload, frames, functions)),
        Some(None) => Ok(Value::no_event()),
        None => Ok(Value::int(0)),
    }
}

/// The event of a payload, or the fault in its place.
#[inline(always)]
fn occurring(alloc: Global, payload: Result<Value, EvalFault>) -> Result<Value, EvalFault>
    ensures { (worth : Evaluated Data) → Evaluates payload worth → Evaluates result (followed worth (λ x. Outcomes.answer (Values.event x))) }
{
    Ok(Value::event(alloc, payload?)?)
}

/// What a function answers to an event's payload, or, where there is no event, what the second code is worth, or the first
/// fault.
#[cycle(run)]
#[inline(never)]
fn matched<F: Holds>(
    alloc: Global,
    first: &Code,
    second: &Code,
    body: &Code,
    frames: &Frames,
    functions: &F,
) -> Result<Value, EvalFault>
    ensures { Evaluates result (Running.run (trees.folded (code_of first.now) foldings.Match (code_of second.now) (code_of body.now)) (frames_of frames.now) (F.answers functions.now)) }
{
    let unit = Value::unit();
    let first = worth_of(alloc, first, frames, functions)?;
    match payload_in(&first, &unit) {
        Some(Some(payload)) => answer(alloc, body, payload, frames, functions),
        Some(None) => worth_of(alloc, second, frames, functions),
        None => Ok(Value::int(0)),
    }
}

/// Two events made one, where both occur by a function of both payloads, or the first fault.
#[cycle(run)]
#[inline(never)]
fn merged<F: Holds>(
    alloc: Global,
    first: &Code,
    second: &Code,
    body: &Code,
    frames: &Frames,
    functions: &F,
) -> Result<Value, EvalFault>
    ensures { Evaluates result (Running.run (trees.folded (code_of first.now) foldings.Merge (code_of second.now) (code_of body.now)) (frames_of frames.now) (F.answers functions.now)) }
{
    let first = worth_of(alloc, first, frames, functions)?;
    let second = worth_of(alloc, second, frames, functions)?;
    merge(alloc, &first, &second, body, frames, functions)
}

/// The one of two events that occurs, or, where both do, that of what a function makes of both payloads, or its fault.
#[cycle(run)]
fn merge<F: Holds>(
    alloc: Global,
    first: &Value,
    second: &Value,
    body: &Code,
    frames: &Frames,
    functions: &F,
) -> Result<Value, EvalFault>
    ensures { Evaluates result (folded_value foldings.Merge first.now (Outcomes.answer second.now) (λ x. Running.run (code_of body.now) (x ∷ frames_of frames.now) (F.answers functions.now))) }
{
    let unit = Value::unit();
    match payload_in(first, &unit) {
        Some(Some(left)) => match payload_in(second, &unit) {
            Some(Some(right)) => {
                let both = pair_of(alloc, left, right)?;
                let made = answer(alloc, body, &both, frames, functions);
                occurring(alloc, made)
            }
            Some(None) => copied(alloc, first),
            None => Ok(Value::int(0)),
        },
        Some(None) => match payload_in(second, &unit) {
            Some(_) => copied(alloc, second),
            None => Ok(Value::int(0)),
        },
        None => Ok(Value::int(0)),
    }
}

/// The pair of copies of two values, which share what they are made of.
pub(crate) fn pair_of(alloc: Global, first: &Value, second: &Value) -> Result<Value, AllocError>
    ensures { IfOk result (λ both. both ≡ Values.pair first.now second.now) }
{
    let first = first.clone_in(alloc)?;
    let second = second.clone_in(alloc)?;
    Value::pair(alloc, first, second)
}

/// What a function makes of the second value and the rows of a table, one after the other, or the first fault.
#[cycle(run)]
#[inline(never)]
fn fold<F: Holds>(
    alloc: Global,
    first: &Code,
    second: &Code,
    body: &Code,
    frames: &Frames,
    functions: &F,
) -> Result<Value, EvalFault>
    ensures { Evaluates result (Running.run (trees.folded (code_of first.now) foldings.Fold (code_of second.now) (code_of body.now)) (frames_of frames.now) (F.answers functions.now)) }
{
    let table = worth_of(alloc, first, frames, functions)?;
    let start = worth_of(alloc, second, frames, functions)?;
    match rows_in(&table) {
        Some(rows) => fold_rows(alloc, rows, start, body, frames, functions),
        None => Ok(Value::int(0)),
    }
}

/// What a function makes of a value and rows, one after the other, or the first fault.
#[cycle(run)]
fn fold_rows<F: Holds>(
    alloc: Global,
    rows: Rows,
    start: Value,
    body: &Code,
    frames: &Frames,
    functions: &F,
) -> Result<Value, EvalFault>
    ensures { Evaluates result (folded_rows (keyed_rows (map key_of rows.entry.keys.now) rows.entry.values.now) start (λ x. Running.run (code_of body.now) (x ∷ frames_of frames.now) (F.answers functions.now))) }
{
    let mut so_far = start;
    let mut argument = Value::unit();
    let mut rest = rows;
    while let [key, keys @ ..] = rest.keys {
        let [value, values @ ..] = rest.values else {
            break;
        };
        argument = next_argument(alloc, argument, so_far, key, value)?;
        so_far = answer(alloc, body, &argument, frames, functions)?;
        rest = Rows { keys, values };
    }
    Ok(so_far)
}

/// What a stored function answers to what code is worth, or the first fault.
#[cycle(run)]
#[inline(never)]
fn called<F: Holds>(
    alloc: Global,
    callee: &Callee,
    part: &Code,
    frames: &Frames,
    functions: &F,
) -> Result<Value, EvalFault>
    ensures { Evaluates result (Running.run (trees.called (callee_name callee.now) (code_of part.now)) (frames_of frames.now) (F.answers functions.now)) }
{
    let value = worth_of(alloc, part, frames, functions)?;
    answered(functions.call(alloc, callee, &value))
}

/// What a function answered, or its refusal as a fault.
#[inline(always)]
fn answered(answer: Result<Value, FunctionFault>) -> Result<Value, EvalFault>
    ensures { (given : Option Data) → Applied given answer → Evaluates result (granted given) }
{
    match answer {
        Ok(answer) => Ok(answer),
        Err(FunctionFault::Refused) => Err(EvalFault::Value(ValueFault::Function)),
        Err(FunctionFault::Memory) => Err(EvalFault::Memory),
    }
}
