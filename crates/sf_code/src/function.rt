//! The code of expressions and functions.
ghost use Rattle.std.specs.Prelude.{◌≡◌, true, [], ◌∷◌, IfOk, option_to_list};
ghost use Rattle.sf_expr.specs.Arena.{expression, function_at, Holds, HoldsFunction};
ghost use Rattle.sf_expr.specs.Expressions.{Expression, Function};
ghost use Rattle.sf_expr.specs.Patterns.{pattern_of};
ghost use Rattle.sf_expr.specs.Evaluation.{Scope, scope_functions, eval};
ghost use Rattle.sf_expr.specs.Evaluation;
ghost use Rattle.sf_operator.specs.Answers.{Evaluates, EvaluatesAs};
ghost use Rattle.sf_value.specs.Values.{pair};
ghost use Rattle.sf_code.specs.CodeView.{code_of};
ghost use Rattle.sf_code.specs.Compiling.{closed_code, is_closed, is_closed_function};
ghost use Rattle.sf_code.specs.Around.{patterns_around, HoldsFrame};
ghost use Rattle.sf_code.specs.Running;
ghost use Rattle.sf_code.specs.Worth.{IsCodeOf, IsCodeOfFunction, IsCodeOfIn, AnswersAsFunction};

use crate::around::{Around, names_around, pattern_of_around};
use crate::beside::{Halves, worth_beside};
use crate::code::Code;
use crate::compiler::compile;
use crate::frames::{Found, Frames, part};
use crate::open::OpenCode;
use crate::pattern::FramePattern;
use crate::place::{Patterns, Place};
use crate::rearranging::{paired_halves, rearranged};
use crate::running::{answer, pair_of, run};
use sf_expr::{ExprId, Exprs, FunctionId};
use sf_func::Holds;
use sf_operator::EvalFault;
use sf_value::Value;
use std::alloc::{AllocError, Global};
use std::mem;

/// The code of an expression: without a frame for names around it where it has no names.
pub fn expression_code(alloc: Global, exprs: &Exprs, id: ExprId) -> Result<OpenCode, AllocError>
    requires { Holds exprs.now id }
    ensures code { IfOk result (λ code. IsCodeOf exprs.now (expression exprs.now id) code) }
    ensures bare { is_closed [] (expression exprs.now id) ≡ true → IfOk result (λ code. code.around ≡ None) }
{
    let around = names_around(alloc, exprs, id, &Patterns::Empty)?;
    let code = code_over(alloc, exprs, id, &around)?;
    Ok(OpenCode { code, around })
}

/// The code of a function: without a frame for names around it where its own pattern binds each of its names.
pub fn function_code(alloc: Global, exprs: &Exprs, id: FunctionId) -> Result<OpenCode, AllocError>
    requires { HoldsFunction exprs.now id }
    ensures code { IfOk result (λ code. IsCodeOfFunction exprs.now (function_at exprs.now id) code) }
    ensures bare { is_closed_function (function_at exprs.now id) ≡ true → IfOk result (λ code. code.around ≡ None) }
{
    let pattern = exprs.pattern(id);
    let body = exprs.body(id);
    let frame = FramePattern::new(alloc, pattern)?;
    let around = names_around(alloc, exprs, body, &Patterns::Only(&frame))?;
    let code = code_within(alloc, exprs, &frame, body, &around)?;
    Ok(OpenCode { code, around })
}

// The code of an expression over the frame of the names around it, if there is one.
fn code_over(
    alloc: Global,
    exprs: &Exprs,
    id: ExprId,
    around: &Option<Box<Around>>,
) -> Result<Code, AllocError>
    requires there { Holds exprs.now id }
    requires around { HoldsFrame exprs.now around.now }
    ensures { IfOk result (λ code. code_of code ≡ closed_code (patterns_around exprs.now around.now) (expression exprs.now id)) }
{
    let pattern = pattern_of_around(alloc, exprs, around)?;
    let outside = FramePattern::around(alloc, &pattern)?;
    compile(alloc, exprs, id, &Patterns::around(&outside))
}

// The same of a function's expression, whose own frame stands inside that.
fn code_within(
    alloc: Global,
    exprs: &Exprs,
    frame: &FramePattern,
    body: ExprId,
    around: &Option<Box<Around>>,
) -> Result<Code, AllocError>
    requires there { Holds exprs.now body }
    requires around { HoldsFrame exprs.now around.now }
    ensures { IfOk result (λ code. code_of code ≡ closed_code (pattern_of frame.now.pattern.now ∷ patterns_around exprs.now around.now) (expression exprs.now body)) }
{
    let pattern = pattern_of_around(alloc, exprs, around)?;
    let outside = FramePattern::around(alloc, &pattern)?;
    let outside = Patterns::around(&outside);
    compile(alloc, exprs, body, &outside.within(frame))
}

/// What an expression is worth by its code, over the value of the names around it, or the first fault of its operations:
/// operands stand from left to right.
pub fn evaluate<F: Holds>(
    alloc: Global,
    code: &Code,
    around: &Option<Value>,
    functions: &F,
) -> Result<Value, EvalFault>
    ensures { (s : Scope) → scope_functions s ≡ F.answers functions.now → (e : Expression) → IsCodeOfIn s e (option_to_list around.now) code.now → Evaluates result (eval e s) }
{
    run(alloc, code, &Frames::around(around), functions)
}

/// What a function answers to a value by its code, over the value of the names around it, or the first fault.
#[inline(always)]
pub fn apply<F: Holds>(
    alloc: Global,
    code: &Code,
    around: &Option<Value>,
    value: &Value,
    functions: &F,
) -> Result<Value, EvalFault>
    ensures { (s : Scope) → scope_functions s ≡ F.answers functions.now → (g : Function) → AnswersAsFunction s g (option_to_list around.now) code.now → Evaluates result (Evaluation.apply g value.now s) }
{
    run_over(alloc, code, around, value, functions)
}

/// What a function without names around it answers to the pair of two values by its code, or the first fault. The pair is made only
/// where one operation on parts of the two, or a choice between such parts, doesn't say it.
#[inline(never)]
pub fn apply_beside<F: Holds>(
    alloc: Global,
    code: &Code,
    first: &Value,
    second: &Value,
    functions: &F,
) -> Result<Value, EvalFault>
    ensures { (s : Scope) → scope_functions s ≡ F.answers functions.now → (g : Function) → AnswersAsFunction s g [] code.now → Evaluates result (Evaluation.apply g (pair first.now second.now) s) }
{
    let halves = Halves { first, second };
    if let Some(worth) = worth_beside(alloc, code, halves) {
        return worth;
    }
    let both = pair_of(alloc, first, second)?;
    answer(alloc, code, &both, &Frames::Empty, functions)
}

/// Puts what a function's code is worth over a value, and over that of the names around it, in the value's place, or answers the first fault, after which the value may be
/// any. A pair of the value's halves is made in the value's own node, where it has no other owner.
#[inline(always)]
pub fn apply_in_place<F: Holds>(
    alloc: Global,
    code: &Code,
    around: &Option<Value>,
    functions: &F,
    value: &mut Value,
) -> Result<(), EvalFault>
    ensures { EvaluatesAs (λ u. value.new) result (Running.run (code_of code.now) (value.old ∷ option_to_list around.now) (F.answers functions.now)) }
{
    if let Some((first, second)) = paired_halves(code) {
        let input = mem::replace(value, Value::int(0));
        *value = rearranged(alloc, input, first, second)?;
        return Ok(());
    }
    if let Code::Place(Place::Here(path)) = code {
        *value = part(Found::Value(value), path).value(alloc)?;
        return Ok(());
    }
    *value = run_over(alloc, code, around, value, functions)?;
    Ok(())
}

// What a function's code is worth over a value, or the first fault.
#[inline(always)]
fn run_over<F: Holds>(
    alloc: Global,
    code: &Code,
    around: &Option<Value>,
    value: &Value,
    functions: &F,
) -> Result<Value, EvalFault>
    ensures { Evaluates result (Running.run (code_of code.now) (value.now ∷ option_to_list around.now) (F.answers functions.now)) }
{
    let outside = Frames::around(around);
    let frames = outside.within(value);
    run(alloc, code, &frames, functions)
}
