//! Values under names.
ghost use Rattle.std.specs.Prelude.{◌≡◌, option_map};
ghost use Rattle.sf_expr.specs.declared.exprs.Exprs as expression_arenas;
ghost use Rattle.sf_expr.specs.Arena.{name_at};
ghost use Rattle.sf_code.specs.Names.{ValuesByName, value_named};

use sf_expr::{Exprs, NameId};
use sf_value::Value;

/// What keeps values under names.
pub trait Names {
    // the names with their values, the innermost first; none for a name that stands for no value
    ghost values: { Self → ValuesByName };

    // where the ids of names stand
    ghost expressions: { Self → expression_arenas.Exprs };

    /// The expressions among which ids of names stand.
    fn expressions(&self) -> &Exprs
        ensures { result.now ≡ expressions self.now };

    /// The value of a name: of the same names the first counts. None where it is not there or stands for no value.
    fn value<'r>(&'r self, name: NameId) -> Option<&'r Value>
        ensures { option_map (λ v. v.now) result ≡ value_named (values self.now) (name_at (expressions self.now) name) };
}
