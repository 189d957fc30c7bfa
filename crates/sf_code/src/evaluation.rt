//! Expressions, evaluated where names have values.
ghost use Rattle.std.specs.Prelude.{IfOk};
ghost use Rattle.sf_value.specs.Values.{Kind, HasKind};
ghost use Rattle.sf_expr.specs.Arena.{expression, Holds};
ghost use Rattle.sf_expr.specs.Expressions.{Expression};
ghost use Rattle.sf_expr.specs.Evaluation;
ghost use Rattle.sf_expr.specs.Soundness.{ScopeHas};
ghost use Rattle.sf_expr.specs.Typing.{HasType};
ghost use Rattle.sf_expr.specs.Typing;
ghost use Rattle.sf_operator.specs.Answers.{Evaluates};
ghost use Rattle.sf_code.specs.Names.{scope_with};
ghost use Rattle.sf_code.specs.Worth.{IsCodeOf};

use crate::function::{evaluate, expression_code};
use crate::names::Names;
use crate::open::OpenCode;
use sf_expr::ExprId;
use sf_func::Holds;
use sf_operator::EvalFault;
use sf_value::Value;
use std::alloc::Global;

/// What an expression among those of the names is worth where these have their values and functions answer so, or the first fault of its operations:
/// operands stand from left to right. A name without a value makes no sense there, and the number 0 stands for it. Where the names' values have
/// the types that the expression was typed with, the value has its type.
///
/// Code for it is made at each call: what is evaluated again and again is made once, by `expression_code`.
pub fn eval<N: Names, F: Holds>(
    alloc: Global,
    id: ExprId,
    names: &N,
    functions: &F,
) -> Result<Value, EvalFault>
    requires { Holds (N.expressions names.now) id }
    ensures worth { Evaluates result (Evaluation.eval (expression (N.expressions names.now) id) (scope_with (N.values names.now) (F.answers functions.now))) }
    ensures typed { (R : Typing.Names) (t : Kind) → HasType R (expression (N.expressions names.now) id) t → ScopeHas (scope_with (N.values names.now) (F.answers functions.now)) R →
        IfOk result (λ v. HasKind v t) }
{
    let code = expression_code(alloc, names.expressions(), id)?;
    evaluate_among(alloc, &code, names, functions)
}

/// What an expression is worth by its code, where names have these values, or the first fault of its operations.
pub fn evaluate_among<N: Names, F: Holds>(
    alloc: Global,
    code: &OpenCode,
    names: &N,
    functions: &F,
) -> Result<Value, EvalFault>
    ensures { (e : Expression) → IsCodeOf (N.expressions names.now) e code.now → Evaluates result (Evaluation.eval e (scope_with (N.values names.now) (F.answers functions.now))) }
{
    let around = code.frame(alloc, names)?;
    evaluate(alloc, &code.code, &around, functions)
}
