//! Tables: values under different keys, in order.
ghost use Rattle.std.specs.Prelude.{◌≡◌, IfOk, IfErr, length, map};
ghost use Rattle.std.specs.Option.{option_map};
ghost use Rattle.sf_value.specs.Values.{table};
ghost use Rattle.sf_value.specs.View.{key_of, rows_of, keyed_rows};
ghost use Rattle.sf_value.specs.Tables.{RefusesRows};
ghost use Rattle.sf_value.specs.Lookups.{row_value};
ghost use Rattle.sf_value.specs.declared.table.TableRefusal.TheVariants.{Memory};

use crate::keys::Keys;
use crate::value::{Form, Key, Rows, Table, Value};
use std::alloc::{AllocError, AllocFailed, Global};
use std::rc::Rc;
use thiserror::Error;

/// Why rows make no table.
#[derive(Clone, Copy, Debug, PartialEq, Eq, Error)]
pub enum TableRefusal {
    /// The key of the row at this index stands before it.
    #[error("duplicate key in row {0}")]
    DuplicateKey(usize),
    /// Memory ran out.
    #[error("out of memory")]
    Memory,
}

impl From<AllocError> for TableRefusal {
    ghost from_gives = { λ _ e. e ≡ Memory };

    fn from(_: AllocError) -> TableRefusal {
        TableRefusal::Memory
    }
}

impl<T: Drop> From<AllocFailed<T>> for TableRefusal {
    ghost from_gives = { λ _ e. e ≡ Memory };

    fn from(_: AllocFailed<T>) -> TableRefusal {
        TableRefusal::Memory
    }
}

impl Value {
    /// A table of rows, in order.
    ///
    /// `DuplicateKey` has the index of the first row whose key stands before it, else `Memory` only where memory runs out.
    pub fn table(alloc: Global, rows: Vec<(Key, Value)>) -> Result<Value, TableRefusal>
        ensures ok { IfOk result (λ v. v ≡ table (rows_of rows.items)) }
        ensures refused { IfErr result (λ e. RefusesRows rows.items e) }
    {
        let mut keys = Keys::new(alloc);
        let mut values = Vec::with_capacity(alloc, rows.len())?;
        for (key, value) in rows {
            if !keys.push(key)? {
                return Err(TableRefusal::DuplicateKey(keys.len()));
            }
            values.push(value)?;
        }
        Ok(Value::under(alloc, Rc::new(alloc, keys)?, values)?)
    }

    /// A table of as many values as keys, each under the key at its place. It shares the keys, and takes memory for one node.
    pub fn under(alloc: Global, keys: Rc<Keys>, values: Vec<Value>) -> Result<Value, AllocError>
        requires { length keys.value ≡ length values.items }
        ensures { IfOk result (λ v. v ≡ table (keyed_rows keys.value values.items)) }
    {
        let _different = keys.all();
        let table = Rc::new(alloc, Table { keys, values })?;
        Ok(Value {
            form: Form::Table(table),
        })
    }
}

impl Table {
    /// The rows, in order.
    pub(crate) fn rows(&self) -> Rows<'_>
        ensures keys { map key_of result.keys.now ≡ self.now.keys.value }
        ensures values { result.values.now ≡ self.now.values.items }
    {
        Rows {
            keys: self.keys.all(),
            values: &self.values,
        }
    }

    /// The value under a key.
    pub(crate) fn get(&self, key: &Key) -> Option<&Value>
        requires { length self.now.keys.value ≡ length self.now.values.items }
        ensures { option_map (λ v. v.now) result ≡ row_value (key_of key.now) (keyed_rows self.now.keys.value self.now.values.items) }
    {
        let place = self.keys.place(key)?;
        Some(&self.values[place])
    }
}
