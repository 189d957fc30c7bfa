//! The parts of values of each type.
ghost use Rattle.std.specs.Prelude.{◌≡◌, IfOk, IfSome, map, length};
ghost use Rattle.std.specs.Option.{option_map};
ghost use Rattle.sf_value.specs.Values;
ghost use Rattle.sf_value.specs.View.{key_of, keyed_rows};
ghost use Rattle.sf_operator.specs.Operations.{truth_held, number_held, halves_held, payload_held, rows_held, key_held};
ghost use Rattle.sf_operator.specs.Operations;
ghost use Rattle.sf_operator.specs.FunctionForms;

use sf_value::{Form, Key, Rows, Value};
use std::alloc::AllocError;
use std::cmp::Ordering;

/// The truth that a value is, if it is one.
pub fn is_true(value: &Value) -> Option<bool>
    ensures { result ≡ truth_held value.now }
{
    match value.form() {
        Form::Bool(truth) => Some(*truth),
        _ => None,
    }
}

/// The number that a value is, if it is one.
pub fn number_in(value: &Value) -> Option<i64>
    ensures { result ≡ number_held value.now }
{
    match value.form() {
        Form::Int(number) => Some(*number),
        _ => None,
    }
}

/// The halves of a pair; none of another value.
pub(crate) fn halves_in(value: &Value) -> Option<(&Value, &Value)>
    ensures { option_map (λ h. (h.0.now, h.1.now)) result ≡ halves_held value.now }
{
    match value.form() {
        Form::Pair(halves) => Some((&halves.first, &halves.second)),
        _ => None,
    }
}

/// The payload of an event, if it occurs; none of another value. An event of the unit has no node: its payload is the unit that
/// is lent.
pub fn payload_in<'a>(value: &'a Value, unit: &'a Value) -> Option<Option<&'a Value>>
    requires { unit.now ≡ Values.unit }
    ensures { option_map (λ e. option_map (λ x. x.now) e) result ≡ payload_held value.now }
{
    match value.form() {
        Form::NoEvent => Some(None),
        Form::UnitEvent => Some(Some(unit)),
        Form::Event(payload) => Some(Some(&**payload)),
        _ => None,
    }
}

/// The rows of a table, which has a value for each of its keys; none of another value.
pub fn rows_in(value: &Value) -> Option<Rows<'_>>
    ensures rows { option_map (λ rs. keyed_rows (map key_of rs.keys.now) rs.values.now) result ≡ rows_held value.now }
    ensures as_many { IfSome result (λ rs. length rs.keys.now ≡ length rs.values.now) }
{
    match value.form() {
        Form::Table(_) => Some(value.rows()),
        _ => None,
    }
}

/// The key that a value is, if it is one. A text is shared.
pub(crate) fn key_in(value: &Value) -> Result<Option<Key>, AllocError>
    ensures { IfOk result (λ k. option_map key_of k ≡ key_held value.now) }
{
    match value.form() {
        Form::Int(number) => Ok(Some(Key::Int(*number))),
        Form::Text(text) => Ok(Some(Key::Text(text.clone()?))),
        _ => Ok(None),
    }
}

/// A key, as a value. A text is shared; the error is too many owners of it.
pub fn value_of_key(key: &Key) -> Result<Value, AllocError>
    ensures { IfOk result (λ v. v ≡ FunctionForms.value_of_key (key_of key.now)) }
{
    match key {
        Key::Int(number) => Ok(Value::int(*number)),
        Key::Text(text) => Ok(Value::of_text(text.clone()?)),
    }
}

/// How two numbers or two texts stand in order; none of other values.
pub(crate) fn order_of(left: &Value, right: &Value) -> Option<Ordering>
    ensures { result ≡ Operations.order_of left.now right.now }
{
    match left.form() {
        Form::Int(left) => match right.form() {
            Form::Int(right) => Some(left.cmp(right)),
            _ => None,
        },
        Form::Text(left) => match right.form() {
            Form::Text(right) => Some(left.as_str().cmp(right.as_str())),
            _ => None,
        },
        _ => None,
    }
}
