//! The arguments of a fold's function, one after another in the same nodes.
ghost use Rattle.std.specs.Prelude.{◌≡◌, IfOk};
ghost use Rattle.sf_operator.specs.FunctionForms;
ghost use Rattle.sf_value.specs.Values;
ghost use Rattle.sf_value.specs.View.{key_of};

use sf_operator::value_of_key;
use sf_value::{Form, Key, Value};
use std::alloc::{AllocError, Global};
use std::mem;
use std::rc::Rc;

/// A value with a row of a table, as the argument of a fold's function: in the nodes of the last argument, where nothing else
/// has them.
pub(crate) fn next_argument(
    alloc: Global,
    last: Value,
    so_far: Value,
    key: &Key,
    value: &Value,
) -> Result<Value, AllocError>
    ensures { IfOk result (λ v. v ≡ Values.pair so_far (Values.pair (FunctionForms.value_of_key (key_of key.now)) value.now)) }
{
    if let Form::Pair(mut node) = last.into_form() {
        if let Some(own) = Rc::get_mut(&mut node) {
            let last_row = mem::replace(&mut own.second, Value::unit());
            own.first = so_far;
            own.second = next_row(alloc, last_row, key, value)?;
            return Ok(Value::of_pair(node));
        }
    }
    let row = row(alloc, key, value)?;
    Value::pair(alloc, so_far, row)
}

// A row of a table, as the pair of its key and its value: in the node of the last row, likewise.
#[inline(always)]
fn next_row(alloc: Global, last: Value, key: &Key, value: &Value) -> Result<Value, AllocError>
    ensures { IfOk result (λ v. v ≡ Values.pair (FunctionForms.value_of_key (key_of key.now)) value.now) }
{
    if let Form::Pair(mut node) = last.into_form() {
        if let Some(own) = Rc::get_mut(&mut node) {
            own.first = value_of_key(key)?;
            own.second = value.clone_in(alloc)?;
            return Ok(Value::of_pair(node));
        }
    }
    row(alloc, key, value)
}

// A row of a table, as the pair of its key and its value.
fn row(alloc: Global, key: &Key, value: &Value) -> Result<Value, AllocError>
    ensures { IfOk result (λ v. v ≡ Values.pair (FunctionForms.value_of_key (key_of key.now)) value.now) }
{
    let key = value_of_key(key)?;
    let value = value.clone_in(alloc)?;
    Value::pair(alloc, key, value)
}
