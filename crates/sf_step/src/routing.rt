//! What values are taken apart into, and what forms with one part and switches put in place.
ghost use Rattle.std.specs.Prelude.{◌≡◌, IfOk, IfErr, OnOk, Ok, Err, None, unwrap_or};
ghost use Rattle.std.specs.Option.{option_map};
ghost use Rattle.sf_value.specs.Values.{pair, first_of, second_of};
ghost use Rattle.sf_mean.specs.Lives.{closure, Environment, Life, Process};
ghost use Rattle.sf_term.specs.Trees.{Term};
ghost use Rattle.sf_mean.specs.Formulas.{occurring};
ghost use Rattle.sf_mean.specs.Meaning.{switched_value};
ghost use Rattle.sf_state.specs.Standing.{IsNames, Settles, Stands};
ghost use Rattle.sf_state.specs.Machine.{Machine};
ghost use Rattle.sf_state.specs.Names.{bound_value};

use sf_state::{Env, Live, Payload, State};
use sf_term::Observation;
use sf_value::{Form, Value, ValueFault};
use std::alloc::{AllocError, Global};
use std::mem;
use std::rc::Rc;

/// The first part of a pair, and the payload of the event beside it, if it occurs; a value that is no pair stands for both
/// parts. It leaves a number in its place.
#[inline(always)]
pub(crate) fn value_and_payload(
    alloc: Global,
    value: &mut Value,
) -> Result<(Value, Option<Payload>), AllocError>
    ensures { IfOk result (λ x. (x.0 ≡ first_of value.old) × (option_map bound_value x.1 ≡ occurring (second_of value.old))) }
{
    let both = mem::replace(value, Value::int(0));
    let (first, event) = both.into_halves(alloc)?;
    Ok((first, payload_of(event)))
}

/// The payload of an event that occurs, which may be shared; none of another value.
#[inline(always)]
pub(crate) fn payload_of(event: Value) -> Option<Payload>
    ensures { option_map bound_value result ≡ occurring event }
{
    match event.into_form() {
        Form::UnitEvent => Some(Payload::Own(Value::unit())),
        Form::Event(payload) => Some(Payload::Shared(payload)),
        _ => None,
    }
}

/// What a switch shows at the step of its event: its body's value in place of that of what ran before, or that still.
#[inline(always)]
pub(crate) fn show(shown: Observation, value: &mut Value, new: Value)
    ensures { value.new ≡ switched_value shown value.old new }
{
    match shown {
        Observation::Immediate => *value = new,
        Observation::Delayed => drop(new),
    }
}

/// Puts the value of a head, which is kept before the first sample alone, in the place of the part's.
pub(crate) fn put_first(first: &mut Option<Value>, value: &mut Value)
    ensures value { value.new ≡ unwrap_or first.old value.old }
    ensures first { first.new ≡ None }
{
    if let Some(initial) = first.take() {
        *value = initial;
    }
}

/// Puts what a part gave at the step before, or at first the constant at its head, in the place of the part's value, which is
/// kept for the next step. The error is the fault of the constant.
pub(crate) fn put_last(
    last: &mut Result<Value, ValueFault>,
    value: &mut Value,
) -> Result<(), ValueFault>
    ensures value { OnOk result (last.old ≡ Ok value.new) }
    ensures last { OnOk result (last.new ≡ Ok value.old) }
    ensures fault { IfErr result (λ fault. last.old ≡ Err fault) }
{
    match last {
        Ok(kept) => {
            mem::swap(kept, value);
            Ok(())
        }
        Err(fault) => Err(*fault),
    }
}

/// What takes over from a state stands in its place, if anything does.
#[inline(always)]
pub(crate) fn take_over(state: &mut State, over: Option<State>)
    ensures { state.new ≡ unwrap_or over state.old }
{
    if let Some(body) = over {
        *state = body;
    }
}

/// Before a sample: what runs goes on in nodes of its own, and what it was takes the place of what it was before.
#[inline(always)]
pub(crate) fn hold_back(
    alloc: Global,
    source: &mut State,
    before: &mut State,
) -> Result<(), AllocError>
    ensures held { OnOk result (before.new ≡ source.old) }
    ensures runs_on { OnOk result ((μ : Machine) (P : Process) (L : Life) → Stands μ source.old P L → Stands μ source.new P L) }
{
    mem::swap(source, before);
    source.renew(alloc, before)
}

/// Copies of an input and of a value beside it, as one pair.
#[inline(always)]
pub(crate) fn beside(alloc: Global, input: &Value, given: &Value) -> Result<Value, AllocError>
    ensures { IfOk result (λ both. both ≡ pair input.now given.now) }
{
    let first = input.clone_in(alloc)?;
    let second = given.clone_in(alloc)?;
    Value::pair(alloc, first, second)
}

/// Puts a part that has lived, in a node of its own and with these names around it, in place of a state. The error is a want of
/// memory, or too many owners of one name.
#[inline(never)]
pub(crate) fn put_live(
    alloc: Global,
    names: &Env,
    live: Live,
    state: &mut State,
) -> Result<(), AllocError>
    ensures { OnOk result ((μ : Machine) (t : Term) (e : Environment) (L : Life) → IsNames μ names.now e → Settles μ live (closure t e) L → Stands μ state.new (closure t e) L) }
{
    let around = names.share()?;
    let node = Rc::new(alloc, live)?;
    state.put(State::Live(around, node));
    Ok(())
}
