//! Names that are listed with their values.
ghost use Rattle.std.specs.Prelude.{◌≡◌, option_map};
ghost use Rattle.sf_code.specs.Names.{value_named};
ghost use Rattle.sf_code.specs.Listed.{listed};

use crate::names::Names;
use sf_expr::{Exprs, NameId};
use sf_value::Value;

/// A name with its value.
#[derive(Drop)]
pub struct NamedValue {
    /// The name.
    pub name: String,
    /// The value.
    pub value: Value,
}

/// Names in a list, each with its value: of the same names the first counts.
#[derive(Clone, Copy)]
pub struct NamedValues<'a> {
    /// The expressions among which ids of names stand.
    pub expressions: &'a Exprs,
    /// The list.
    pub values: &'a [NamedValue],
}

impl<'a> Names for NamedValues<'a> {
    ghost values = { λ n. listed n.values.now };

    ghost expressions = { λ n. n.expressions.now };

    fn expressions(&self) -> &Exprs {
        self.expressions
    }

    fn value<'r>(&'r self, name: NameId) -> Option<&'r Value> {
        let text = if self.expressions.holds_name(name) {
            self.expressions.name_of(name)
        } else {
            ""
        };
        first_named(self.values, text)
    }
}

// The value of the first of these names that is that one.
fn first_named<'r>(values: &'r [NamedValue], name: &str) -> Option<&'r Value>
    ensures { option_map (λ v. v.now) result ≡ value_named (listed values.now) name.now }
{
    for named in values {
        if name == named.name.as_str() {
            return Some(&named.value);
        }
    }
    None
}
