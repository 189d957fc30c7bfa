//! Samples of primitives with a value and a function.
ghost use Rattle.std.specs.Prelude.{◌≡◌, Option, is_some, IfOk, OnOk};
ghost use Rattle.sf_value.specs.Values.{Data};
ghost use Rattle.sf_operator.specs.Answers.{Evaluates};
ghost use Rattle.sf_expr.specs.Expressions.{Function};
ghost use Rattle.sf_expr.specs.Evaluation.{Scope, scope_functions, answer};
ghost use Rattle.sf_code.specs.Worth.{IsClosureOf};
ghost use Rattle.sf_mean.specs.Formulas.{next_value};
ghost use Rattle.sf_delay.specs.Gifts.{gift};
ghost use Rattle.sf_prim.specs.Remembering.{shown_after, carried_after, displayed, retained};
ghost use Rattle.sf_prim.specs.Remembering;

use crate::events::occurs;
use sf_code::{Closure, apply};
use sf_func::Holds;
use sf_operator::EvalFault;
use sf_term::Accumulation;
use sf_value::Value;
use std::alloc::{AllocError, Global};
use std::mem;

/// An accumulation that has lived through some samples.
#[derive(Drop)]
pub struct Accumulator {
    /// What its function takes, what it gives, and what it keeps.
    pub form: Accumulation,
    /// Its function, whose code it shares with its plan.
    pub closure: Closure,
    /// What it keeps for its function: the value so far, or the input before.
    pub value: Value,
}

impl Accumulator {
    /// A copy, which shares the code. The error is a want of memory, or too many owners of the code.
    pub(crate) fn clone_in(&self, alloc: Global) -> Result<Accumulator, AllocError>
        ensures form { IfOk result (λ copy. copy.form ≡ self.now.form) }
        ensures closure { IfOk result (λ copy. (s : Scope) (f : Function) → IsClosureOf s f self.now.closure → IsClosureOf s f copy.closure) }
        ensures value { IfOk result (λ copy. copy.value ≡ self.now.value) }
    {
        let value = self.value.clone_in(alloc)?;
        let closure = self.closure.clone_in(alloc)?;
        Ok(Accumulator {
            form: self.form,
            closure,
            value,
        })
    }
}

/// What the function of an accumulation takes of an input: the payload of an event that occurs, or the input.
fn coming(alloc: Global, form: Accumulation, value: &Value) -> Result<Option<Value>, AllocError>
    ensures { IfOk result (λ o. o ≡ Remembering.coming form value.now) }
{
    let unit = Value::unit();
    match form {
        Accumulation::AccumBy | Accumulation::AccumHoldBy => match occurs(value, &unit) {
            Some(payload) => Ok(Some(payload.clone_in(alloc)?)),
            None => Ok(None),
        },
        Accumulation::EdgeBy | Accumulation::Scan => Ok(Some(value.clone_in(alloc)?)),
    }
}

/// What the function of an accumulation makes of what it has kept and of what comes; the same where nothing comes.
fn make<R: Holds>(
    alloc: Global,
    accumulator: &Accumulator,
    functions: &R,
    came: Option<Value>,
) -> Result<Value, EvalFault>
    ensures { (s : Scope) → scope_functions s ≡ R.answers functions.now → (f : Function) → IsClosureOf s f accumulator.now.closure →
        Evaluates result (next_value f s accumulator.now.value came) }
{
    let kept = accumulator.value.clone_in(alloc)?;
    match came {
        Some(argument) => {
            let both = Value::pair(alloc, kept, argument)?;
            let closure = &accumulator.closure;
            apply(
                alloc,
                &closure.function.code,
                &closure.around,
                &both,
                functions,
            )
        }
        None => Ok(kept),
    }
}

/// What an accumulation gives of what its function made, by whether something came.
fn shown(alloc: Global, form: Accumulation, comes: bool, made: &Value) -> Result<Value, AllocError>
    ensures { (o : Option Data) → is_some o ≡ comes → IfOk result (λ v. v ≡ displayed form o made.now) }
{
    match form {
        Accumulation::AccumBy if comes => Value::event(alloc, made.clone_in(alloc)?),
        Accumulation::AccumBy => Ok(Value::no_event()),
        Accumulation::EdgeBy | Accumulation::AccumHoldBy | Accumulation::Scan => {
            made.clone_in(alloc)
        }
    }
}

/// What an accumulation keeps for the next input: this one, or what its function made.
fn retain(form: Accumulation, input: Value, made: Value) -> Value
    ensures { result ≡ retained form input made }
{
    match form {
        Accumulation::EdgeBy => input,
        Accumulation::AccumBy | Accumulation::AccumHoldBy | Accumulation::Scan => made,
    }
}

/// The next sample of an accumulation: what it gives in place of the input. The error is the fault of its function, or
/// `Memory`.
#[inline(never)]
pub(crate) fn accumulate<R: Holds>(
    alloc: Global,
    accumulator: &mut Accumulator,
    functions: &R,
    value: &mut Value,
) -> Result<(), EvalFault>
    ensures shows { (s : Scope) → scope_functions s ≡ R.answers functions.now → (f : Function) → IsClosureOf s f accumulator.old.closure →
        Evaluates (gift result value.new) (shown_after accumulator.old.form f s accumulator.old.value value.old) }
    ensures carries { (s : Scope) → scope_functions s ≡ R.answers functions.now → (f : Function) → IsClosureOf s f accumulator.old.closure →
        OnOk result (carried_after accumulator.old.form f s accumulator.old.value value.old ≡ answer accumulator.new.value) }
    ensures same { OnOk result ((accumulator.new.form ≡ accumulator.old.form) × (accumulator.new.closure ≡ accumulator.old.closure)) }
{
    let form = accumulator.form;
    let came = coming(alloc, form, value)?;
    let comes = came.is_some();
    let made = make(alloc, accumulator, functions, came)?;
    let shown = shown(alloc, form, comes, &made)?;
    let input = mem::replace(value, shown);
    accumulator.value = retain(form, input, made);
    Ok(())
}
