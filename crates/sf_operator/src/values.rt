//! What operators make of values.
ghost use Rattle.std.specs.Prelude.{◌≡◌, Result, pos, map, length};
ghost use Rattle.sf_value.specs.Values.{event};
ghost use Rattle.sf_value.specs.View.{key_of, keyed_rows};
ghost use Rattle.sf_operator.specs.Outcomes.{answer, tested};
ghost use Rattle.sf_operator.specs.Outcomes;
ghost use Rattle.sf_operator.specs.Operations.{unary_value, decided, operated, row_count, same_data, of_equality, of_comparison};
ghost use Rattle.sf_operator.specs.Answers.{Evaluates};
ghost use Rattle.sf_operator.specs.declared.operator.Unary.TheVariants as Unaries;

use crate::arithmetic::{calculate, narrow};
use crate::fault::EvalFault;
use crate::operator::{Arithmetic, Comparison, Equality, Logic, Merge, Operator, Unary};
use crate::parts::{halves_in, is_true, key_in, number_in, order_of, payload_in, rows_in};
use sf_value::{Form, Rows, Value, ValueFault, same};
use std::alloc::Global;
use std::cmp::Ordering;

/// What stands where an operator makes no sense.
fn nonsense() -> Value
    ensures { result ≡ Outcomes.nonsense }
{
    Value::int(0)
}

/// A copy of a value, which shares what it is made of. It takes no memory.
#[inline(always)]
pub fn copied(alloc: Global, value: &Value) -> Result<Value, EvalFault>
    ensures { Evaluates result (answer value.now) }
{
    Ok(value.clone_in(alloc)?)
}

/// The event of a copy of a value.
#[inline]
fn event_of(alloc: Global, value: &Value) -> Result<Value, EvalFault>
    ensures { Evaluates result (answer (event value.now)) }
{
    Ok(Value::event(alloc, value.clone_in(alloc)?)?)
}

/// What an operator makes of a value, or its fault.
pub fn operate_on(alloc: Global, operator: Unary, value: &Value) -> Result<Value, EvalFault>
    ensures { Evaluates result (unary_value operator value.now) }
{
    match operator {
        Unary::Not => match is_true(value) {
            Some(truth) => Ok(Value::bool(!truth)),
            None => Ok(nonsense()),
        },
        Unary::Event => event_of(alloc, value),
        Unary::First => match halves_in(value) {
            Some((first, _)) => copied(alloc, first),
            None => Ok(nonsense()),
        },
        Unary::Second => match halves_in(value) {
            Some((_, second)) => copied(alloc, second),
            None => Ok(nonsense()),
        },
        Unary::IsEvent => is_event(value),
        Unary::Size => match rows_in(value) {
            Some(rows) => size(rows),
            None => Ok(nonsense()),
        },
    }
}

/// Whether an event occurs.
fn is_event(value: &Value) -> Result<Value, EvalFault>
    ensures { Evaluates result (unary_value Unaries.IsEvent value.now) }
{
    let unit = Value::unit();
    match payload_in(value, &unit) {
        Some(payload) => Ok(Value::bool(payload.is_some())),
        None => Ok(nonsense()),
    }
}

/// How many rows there are.
#[tactic(auto, using(crate::proofs::Counting::rows_counted))]
fn size(rows: Rows) -> Result<Value, EvalFault>
    requires { length rows.keys.now ≡ length rows.values.now }
    ensures { Evaluates result (tested (pos (row_count (keyed_rows (map key_of rows.entry.keys.now) rows.entry.values.now)))) }
{
    Ok(Value::int(narrow(rows.values.len() as i128)?))
}

/// What the first operand decides alone: false decides `and`, true `or`.
pub fn decide(operator: Operator, left: &Value) -> Option<Value>
    ensures { result ≡ decided operator left.now }
{
    match (operator, left.form()) {
        (Operator::Logic(Logic::And), Form::Bool(false)) => Some(Value::bool(false)),
        (Operator::Logic(Logic::Or), Form::Bool(true)) => Some(Value::bool(true)),
        _ => None,
    }
}

/// What an operator makes of two values, or its fault. Where the first operand decides alone, it isn't to be asked.
pub fn operate(
    alloc: Global,
    operator: Operator,
    left: &Value,
    right: &Value,
) -> Result<Value, EvalFault>
    ensures { Evaluates result (operated operator left.now right.now) }
{
    match operator {
        Operator::Arithmetic(operator) => compute(operator, left, right),
        Operator::Equality(operator) => Ok(Value::bool(equates(operator, left, right))),
        Operator::Comparison(operator) => match order_of(left, right) {
            Some(order) => Ok(Value::bool(compare(operator, order))),
            None => Ok(nonsense()),
        },
        Operator::Logic(_) => copied(alloc, right),
        Operator::Tag => tag(alloc, left, right),
        Operator::Attach => attach(alloc, left, right),
        Operator::FromEvent => from_event(alloc, left, right),
        Operator::Gate => match is_true(right) {
            Some(true) => copied(alloc, left),
            Some(false) => Ok(Value::no_event()),
            None => Ok(nonsense()),
        },
        Operator::Merge(operator) => merge(alloc, operator, left, right),
        Operator::Get => get(alloc, left, right),
    }
}

/// What an operator makes of two numbers.
fn compute(operator: Arithmetic, left: &Value, right: &Value) -> Result<Value, EvalFault>
    ensures { Evaluates result (operated (Operator.Arithmetic operator) left.now right.now) }
{
    match number_in(left) {
        Some(left) => match number_in(right) {
            Some(right) => Ok(Value::int(calculate(operator, left, right)?)),
            None => Ok(nonsense()),
        },
        None => Ok(nonsense()),
    }
}

/// Whether two values are the same, or whether they are not.
fn equates(operator: Equality, left: &Value, right: &Value) -> bool
    ensures { result ≡ of_equality operator (same_data left.now right.now) }
{
    let same = same(left, right);
    match operator {
        Equality::Equal => same,
        Equality::Unequal => !same,
    }
}

/// Whether two values that stand so in order do as an operator says.
fn compare(operator: Comparison, order: Ordering) -> bool
    ensures { result ≡ of_comparison operator order }
{
    match operator {
        Comparison::Less => order.is_lt(),
        Comparison::AtMost => order.is_le(),
        Comparison::Greater => order.is_gt(),
        Comparison::AtLeast => order.is_ge(),
    }
}

/// An event with another payload.
fn tag(alloc: Global, event: &Value, value: &Value) -> Result<Value, EvalFault>
    ensures { Evaluates result (operated Operator.Tag event.now value.now) }
{
    let unit = Value::unit();
    match payload_in(event, &unit) {
        Some(Some(_)) => event_of(alloc, value),
        Some(None) => Ok(Value::no_event()),
        None => Ok(nonsense()),
    }
}

/// An event with a value beside its payload.
fn attach(alloc: Global, event: &Value, value: &Value) -> Result<Value, EvalFault>
    ensures { Evaluates result (operated Operator.Attach event.now value.now) }
{
    let unit = Value::unit();
    match payload_in(event, &unit) {
        Some(Some(payload)) => {
            let both = Value::pair(alloc, payload.clone_in(alloc)?, value.clone_in(alloc)?)?;
            Ok(Value::event(alloc, both)?)
        }
        Some(None) => Ok(Value::no_event()),
        None => Ok(nonsense()),
    }
}

/// The payload of an event, or a value where there is none.
fn from_event(alloc: Global, event: &Value, default: &Value) -> Result<Value, EvalFault>
    ensures { Evaluates result (operated Operator.FromEvent event.now default.now) }
{
    let unit = Value::unit();
    match payload_in(event, &unit) {
        Some(Some(payload)) => copied(alloc, payload),
        Some(None) => copied(alloc, default),
        None => Ok(nonsense()),
    }
}

/// Two events made one.
fn merge(alloc: Global, operator: Merge, left: &Value, right: &Value) -> Result<Value, EvalFault>
    ensures { Evaluates result (operated (Operator.Merge operator) left.now right.now) }
{
    let unit = Value::unit();
    match payload_in(left, &unit) {
        Some(None) => match payload_in(right, &unit) {
            Some(_) => copied(alloc, right),
            None => Ok(nonsense()),
        },
        Some(Some(_)) => match payload_in(right, &unit) {
            Some(None) => copied(alloc, left),
            Some(Some(_)) => match operator {
                Merge::Left => copied(alloc, left),
                Merge::Right => copied(alloc, right),
                Merge::Exclusive => Err(EvalFault::Value(ValueFault::Clash)),
            },
            None => Ok(nonsense()),
        },
        None => Ok(nonsense()),
    }
}

/// The event of the value under a key of a table.
fn get(alloc: Global, table: &Value, key: &Value) -> Result<Value, EvalFault>
    ensures { Evaluates result (operated Operator.Get table.now key.now) }
{
    match rows_in(table) {
        Some(_) => match key_in(key)? {
            Some(key) => match table.get(&key) {
                Some(found) => event_of(alloc, found),
                None => Ok(Value::no_event()),
            },
            None => Ok(nonsense()),
        },
        None => Ok(nonsense()),
    }
}
