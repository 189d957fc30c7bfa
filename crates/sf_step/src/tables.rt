//! Tables of the values of members.
ghost use Rattle.std.specs.Prelude.{◌≡◌, IfOk};
ghost use Rattle.sf_value.specs.Values.{table};
ghost use Rattle.sf_value.specs.View.{keyed_rows};

use sf_value::{Keys, TableRefusal, Value};
use std::alloc::{AllocError, Global};
use std::rc::Rc;

/// A table of values, each under the key at its place. It shares the keys, where each of them has a value, and takes memory for
/// one node. The error is a want of memory, or too many owners.
pub(crate) fn table_of(
    alloc: Global,
    keys: &Rc<Keys>,
    values: Vec<Value>,
) -> Result<Value, AllocError>
    ensures { IfOk result (λ v. v ≡ table (keyed_rows keys.now.value values.items)) }
{
    if keys.len() == values.len() {
        let shared = keys.clone()?;
        return Value::under(alloc, shared, values);
    }
    table_of_some(alloc, &**keys, values)
}

// The same, as far as there are keys and values, under keys of its own.
#[cold]
#[inline(never)]
fn table_of_some(alloc: Global, keys: &Keys, values: Vec<Value>) -> Result<Value, AllocError>
    ensures { IfOk result (λ v. v ≡ table (keyed_rows keys.now values.items)) }
{
    let mut rows = Vec::with_capacity(alloc, values.len())?;
    for (key, value) in keys.all().iter().zip(values) {
        let own = key.clone_in(alloc)?;
        rows.push((own, value))?;
    }
    match Value::table(alloc, rows) {
        Ok(made) => Ok(made),
        Err(TableRefusal::Memory) => Err(AllocError),
        // (no key stands twice)
        Err(TableRefusal::DuplicateKey(_)) => unreachable!(),
    }
}
