//! Whether the functions that are called have the same types elsewhere.
ghost use Rattle.std.specs.Prelude.{◌≡◌, ◌↔◌, IsTrue};
ghost use Rattle.sf_func.specs.Registries.{types_named};
ghost use Rattle.sf_func.specs.Signatures.{signatures_in};
ghost use Rattle.sf_expr.specs.Arena.{node_at};
ghost use Rattle.sf_expr.specs.Arena;
ghost use Rattle.sf_check.specs.Calling.{IsCalledAlike, AreCalledAlike};

use sf_expr::{ExprId, ExprNode, Exprs};
use sf_func::{Holds, Signatures};
use sf_value::same_type;

/// Whether the function of a name has the same types here and there, or is in neither.
fn has_same_types<R: Holds>(name: &str, here: &Signatures, there: &R) -> bool
    ensures { IsTrue result ↔ (types_named name.now (signatures_in here.now) ≡ types_named name.now (R.types there.now)) }
{
    match (here.find(name), there.types_of(name)) {
        (Some(types), Some((from, to))) => {
            same_type(types.from(), from) && same_type(types.to(), to)
        }
        (Some(_), None) => false,
        (None, Some(_)) => false,
        (None, None) => true,
    }
}

/// Whether the function that the expression at an id calls has the same types here and there.
fn is_called_alike<R: Holds>(exprs: &Exprs, id: ExprId, here: &Signatures, there: &R) -> bool
    requires { Arena.Holds exprs.now id }
    ensures { IsTrue result ↔ IsCalledAlike exprs.now (signatures_in here.now) (R.types there.now) (node_at exprs.now id) }
{
    match exprs.node(id) {
        ExprNode::Called(name, _, _) => has_same_types(exprs.name_of(name), here, there),
        _ => true,
    }
}

/// Whether each function that expressions call has the same types here and there, or is in neither.
#[tactic(auto, using(crate::proofs::Alike::one_more_alike, crate::proofs::Alike::all_alike))]
pub(crate) fn are_called_alike<R: Holds>(exprs: &Exprs, here: &Signatures, there: &R) -> bool
    ensures { IsTrue result ↔ AreCalledAlike exprs.now (signatures_in here.now) (R.types there.now) }
{
    for number in 0..exprs.len() {
        if !is_called_alike(exprs, exprs.at(number), here, there) {
            return false;
        }
    }
    true
}
