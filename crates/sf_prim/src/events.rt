//! Samples of primitives that take or give events.
ghost use Rattle.std.specs.Prelude.{◌≡◌, ◌&&◌, ◌+ℤ◌, pos, true, cond, OnOk};
ghost use Rattle.std.specs.Option.{option_map};
ghost use Rattle.sf_value.specs.Values.{event, no_event};
ghost use Rattle.sf_value.specs.Values;
ghost use Rattle.sf_operator.specs.Outcomes.{answer, tested};
ghost use Rattle.sf_operator.specs.Operations.{payload_or};
ghost use Rattle.sf_operator.specs.Answers.{Computes, Evaluates};
ghost use Rattle.sf_mean.specs.Formulas.{is_high, is_low, event_if, occurring};
ghost use Rattle.sf_delay.specs.Gifts.{gift};
ghost use Rattle.sf_prim.specs.Remembering.{counted_after, count_after, passed_on, left_after};

use sf_operator::{EvalFault, is_true, narrow, payload_in};
use sf_term::Selection;
use sf_value::{Value, ValueFault};
use std::alloc::Global;
use std::mem;

/// Whether a value is the truth false.
pub(crate) fn is_low(value: &Value) -> bool
    ensures { result ≡ is_low value.now }
{
    !is_true(value).unwrap_or(true)
}

/// Whether a value is true and the one before was low; then whether this one is.
fn rises(low: &mut bool, value: &Value) -> bool
    ensures told { result ≡ (is_high value.now && low.old) }
    ensures kept { low.new ≡ is_low value.now }
{
    let rose = is_true(value).unwrap_or(false) && *low;
    *low = is_low(value);
    rose
}

/// An event in place of the input, where it is true and the one before was false. The error is `Memory`.
#[inline(never)]
pub(crate) fn rise(alloc: Global, low: &mut bool, value: &mut Value) -> Result<(), EvalFault>
    ensures told { Evaluates (gift result value.new) (answer (event_if (is_high value.old && low.old))) }
    ensures kept { OnOk result (low.new ≡ is_low value.old) }
{
    *value = if rises(low, value) {
        Value::event(alloc, Value::unit())?
    } else {
        Value::no_event()
    };
    Ok(())
}

/// An event of the tag in place of the input, where it is true and the one before was false. The error is `Memory`.
#[inline(never)]
pub(crate) fn rise_with(
    alloc: Global,
    low: &mut bool,
    tag: &Value,
    value: &mut Value,
) -> Result<(), EvalFault>
    ensures told { Evaluates (gift result value.new) (answer (cond (is_high value.old && low.old) (event tag.now) no_event)) }
    ensures kept { OnOk result (low.new ≡ is_low value.old) }
{
    *value = if rises(low, value) {
        Value::event(alloc, tag.clone_in(alloc)?)?
    } else {
        Value::no_event()
    };
    Ok(())
}

/// No event in place of the input at the first sample; later the input stays.
pub(crate) fn pass_later(begun: &mut bool, value: &mut Value)
    ensures told { value.new ≡ cond begun.old value.old no_event }
    ensures kept { begun.new ≡ true }
{
    if !*begun {
        *value = Value::no_event();
    }
    *begun = true;
}

/// The payload of an event that occurs; none of another value. That of an event of the unit is the unit that is lent.
pub(crate) fn occurs<'a>(value: &'a Value, unit: &'a Value) -> Option<&'a Value>
    requires { unit.now ≡ Values.unit }
    ensures { option_map (λ x. x.now) result ≡ occurring value.now }
{
    match payload_in(value, unit) {
        Some(payload) => payload,
        None => None,
    }
}

/// One more, where it is within signed 64 bits.
fn one_more(count: i64) -> Result<i64, ValueFault>
    ensures { Computes result (tested (pos 1 +ℤ count)) }
{
    narrow(1 + i128::from(count))
}

/// At an event, one of how many there were so far in place of the input. The fault is `Overflow`, and the error `Memory`.
#[inline(never)]
pub(crate) fn count_event(
    alloc: Global,
    count: &mut i64,
    value: &mut Value,
) -> Result<(), EvalFault>
    ensures told { Evaluates (gift result value.new) (counted_after (occurring value.old) count.old) }
    ensures kept { OnOk result (count.new ≡ count_after (occurring value.old) count.old) }
{
    let unit = Value::unit();
    if occurs(value, &unit).is_some() {
        let next = one_more(*count)?;
        *value = Value::event(alloc, Value::int(next))?;
        *count = next;
    } else {
        *value = Value::no_event();
    }
    Ok(())
}

/// The input stays, or there is no event in its place, by whether events of a number are left: of the first ones, which
/// `takeEvents` gives, or of those that `dropEvents` leaves out. Each event is one fewer, and none is left for good.
pub(crate) fn select(form: Selection, left: &mut u64, value: &mut Value)
    ensures told { value.new ≡ passed_on form left.old value.old }
    ensures kept { left.new ≡ left_after (occurring value.old) left.old }
{
    let unit = Value::unit();
    let over = *left == 0;
    if !over && occurs(value, &unit).is_some() {
        *left -= 1;
    }
    let passes = match form {
        Selection::TakeEvents => !over,
        Selection::DropEvents => over,
    };
    if !passes {
        *value = Value::no_event();
    }
}

/// An event of a value in place of the input. The error is `Memory`.
#[cold]
#[inline(never)]
pub(crate) fn announce(alloc: Global, given: Value, value: &mut Value) -> Result<(), EvalFault>
    ensures { Evaluates (gift result value.new) (answer (event given)) }
{
    *value = Value::event(alloc, given)?;
    Ok(())
}

/// The last payload so far in place of the input. The error is `Memory`.
#[inline(never)]
pub(crate) fn hold(alloc: Global, last: &mut Value, value: &mut Value) -> Result<(), EvalFault>
    ensures told { Evaluates (gift result value.new) (answer (payload_or (occurring value.old) last.old)) }
    ensures kept { OnOk result (last.new ≡ payload_or (occurring value.old) last.old) }
{
    let unit = Value::unit();
    if let Some(payload) = occurs(value, &unit) {
        *last = payload.clone_in(alloc)?;
    }
    *value = last.clone_in(alloc)?;
    Ok(())
}

/// The last payload before this sample in place of the input. The error is `Memory`.
#[inline(never)]
pub(crate) fn hold_before(
    alloc: Global,
    last: &mut Value,
    value: &mut Value,
) -> Result<(), EvalFault>
    ensures told { Evaluates (gift result value.new) (answer last.old) }
    ensures kept { OnOk result (last.new ≡ payload_or (occurring value.old) last.old) }
{
    let unit = Value::unit();
    let next = match occurs(value, &unit) {
        Some(payload) => payload.clone_in(alloc)?,
        None => last.clone_in(alloc)?,
    };
    *value = mem::replace(last, next);
    Ok(())
}
