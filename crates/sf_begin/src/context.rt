//! What the parts of a sample share.
ghost use Rattle.std.specs.Prelude.{◌≡◌};
ghost use Rattle.sf_expr.specs.Expressions.{Expression, Function};
ghost use Rattle.sf_expr.specs.Evaluation.{eval};
ghost use Rattle.sf_expr.specs.Evaluation;
ghost use Rattle.sf_code.specs.Names.{scope_with};
ghost use Rattle.sf_code.specs.Worth.{IsCodeOf, IsCodeOfFunction};
ghost use Rattle.sf_law.specs.Arena.{plan_expressions};
ghost use Rattle.sf_operator.specs.Answers.{Evaluates};
ghost use Rattle.sf_state.specs.Names.{values_around};
ghost use Rattle.sf_begin.specs.Contexts.{sample_fault, plan_in};

use sf_code::{OpenCode, apply, evaluate_among};
use sf_func::Holds;
use sf_law::Plan;
use sf_operator::EvalFault;
use sf_state::{Env, NamesIn};
use sf_value::{Fault, Value};
use std::alloc::Global;

/// What each part of one sample is stepped with.
#[derive(Drop)]
pub struct SampleContext<'a, R> {
    /// What memory is taken from.
    pub alloc: Global,
    /// Where the terms that are stepped stand.
    pub plan: &'a Plan,
    /// The functions that are called.
    pub functions: &'a R,
    /// Milliseconds since the sample before.
    pub dt: u64,
}

/// The value of a constant with these names around it, or the first fault of its operations.
pub(crate) fn constant_in<R: Holds>(
    context: &SampleContext<R>,
    code: &OpenCode,
    names: &Env,
) -> Result<Value, EvalFault>
    ensures { (e : Expression) → IsCodeOf (plan_expressions (plan_in context.now)) e code.now →
        Evaluates result (eval e (scope_with (values_around (plan_in context.now) names.now) (R.answers context.now.functions.now))) }
{
    let plan = context.plan;
    let around = NamesIn { plan, names };
    evaluate_among(context.alloc, code, &around, context.functions)
}

/// What a function makes of a value with these names around it, or the first fault of its operations.
pub(crate) fn made_in<R: Holds>(
    context: &SampleContext<R>,
    code: &OpenCode,
    value: &Value,
    names: &Env,
) -> Result<Value, EvalFault>
    ensures { (f : Function) → IsCodeOfFunction (plan_expressions (plan_in context.now)) f code.now →
        Evaluates result (Evaluation.apply f value.now (scope_with (values_around (plan_in context.now) names.now) (R.answers context.now.functions.now))) }
{
    let plan = context.plan;
    let around = code.frame(context.alloc, &NamesIn { plan, names })?;
    apply(context.alloc, &code.code, &around, value, context.functions)
}

/// The fault of an expression, as that of the sample.
pub fn fault_of(fault: EvalFault) -> Fault
    ensures { result ≡ sample_fault fault }
{
    match fault {
        EvalFault::Value(fault) => Fault::Value(fault),
        EvalFault::Memory => Fault::Memory,
    }
}
