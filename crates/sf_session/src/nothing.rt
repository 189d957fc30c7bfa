//! No stored functions.
ghost use Rattle.std.specs.Prelude.{[]};
ghost use Rattle.sf_session.specs.Alone.{no_answers};

use sf_func::{Callee, FunctionFault, Holds};
use sf_value::{Ty, Value};
use std::alloc::Global;

/// No functions.
#[derive(Drop)]
pub(crate) struct NoFunctions;

impl Holds for NoFunctions {
    ghost types = { λ _. [] };

    ghost answers = { λ _. no_answers };

    fn types_of<'r>(&'r self, _name: &str) -> Option<(&'r Ty, &'r Ty)> {
        None
    }

    fn call(
        &self,
        _alloc: Global,
        _callee: &Callee,
        _value: &Value,
    ) -> Result<Value, FunctionFault> {
        Err(FunctionFault::Refused)
    }
}
