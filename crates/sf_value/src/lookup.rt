//! What a table holds.
ghost use Rattle.std.specs.Prelude.{◌≡◌, length, map};
ghost use Rattle.std.specs.Option.{option_map};
ghost use Rattle.sf_value.specs.View.{key_of, keyed_rows};
ghost use Rattle.sf_value.specs.Lookups.{table_rows, row_value};

use crate::value::{Form, Key, Rows, Value};

impl Value {
    /// The rows of a table, in order; none of another value.
    pub fn rows(&self) -> Rows<'_>
        ensures rows { keyed_rows (map key_of result.keys.now) result.values.now ≡ table_rows self.now }
        ensures as_many { length result.keys.now ≡ length result.values.now }
    {
        match &self.form {
            Form::Table(table) => table.rows(),
            _ => Rows {
                keys: &[],
                values: &[],
            },
        }
    }

    /// The value under a key of a table, found in logarithmic time. None where it is absent, and of another value.
    pub fn get(&self, key: &Key) -> Option<&Value>
        ensures { option_map (λ v. v.now) result ≡ row_value (key_of key.now) (table_rows self.now) }
    {
        match &self.form {
            Form::Table(table) => table.get(key),
            _ => None,
        }
    }
}
