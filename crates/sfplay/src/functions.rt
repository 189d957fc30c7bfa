//! Functions that networks may call.
ghost use Rattle.std.specs.Prelude.{◌≡◌, ◌≢◌, [], ◌∷◌, ◌++◌, IfOk};
ghost use Rattle.sf_value.specs.Values.{Name, Data, int_kind, pair_kind};
ghost use Rattle.sf_func.specs.Registries.{KeepsTypes, types_shown};

use sf_func::{Function, Holds, Registry};
use sf_value::Ty;
use std::alloc::{AllocError, Global};

/// The type of a pair of numbers.
pub(crate) fn numbers(alloc: Global) -> Result<Ty, AllocError>
    ensures { IfOk result (λ ty. ty ≡ pair_kind int_kind int_kind) }
{
    match Ty::pair(alloc, Ty::int(), Ty::int()) {
        Ok(ty) => Ok(ty),
        Err(_) => Err(AllocError),
    }
}

/// The functions that networks may call with one more, of a name that none of them has.
pub(crate) fn offered(
    alloc: Global,
    functions: Registry,
    name: &str,
    from: Ty,
    to: Ty,
    function: Box<dyn Function>,
) -> Result<Registry, AllocError>
    requires { KeepsTypes from to (answers function) }
    ensures types { IfOk result (λ more. ⟦<Registry as Holds>⟧.types more ≡ ⟦<Registry as Holds>⟧.types functions ++ (name.now, types_shown from to) ∷ []) }
    ensures answers { IfOk result (λ more. (d : Data) → ⟦<Registry as Holds>⟧.answers more name.now d ≡ answers function d) }
    ensures others { IfOk result (λ more. (n : Name) (d : Data) → n ≢ name.now → ⟦<Registry as Holds>⟧.answers more n d ≡ ⟦<Registry as Holds>⟧.answers functions n d) }
{
    let mut functions = functions;
    match functions.add(alloc, name, from, to, function) {
        Ok(()) => Ok(functions),
        Err(_) => Err(AllocError),
    }
}
