//! What a stored function is.
ghost use Rattle.std.specs.Prelude.{Option};
ghost use Rattle.sf_value.specs.Values.{Data};
ghost use Rattle.sf_func.specs.Meaning.{Applied};

use sf_value::Value;
use std::alloc::Global;
use thiserror::Error;

/// Why a function gives no value.
#[derive(Clone, Copy, Debug, PartialEq, Eq, Error)]
pub enum FunctionFault {
    /// It refuses the argument.
    #[error("refused")]
    Refused,
    /// Memory ran out.
    #[error("out of memory")]
    Memory,
}

/// A function that networks call by its name.
pub trait Function: Drop {
    // what it answers to an argument: a value, or none where it refuses it
    ghost answers: { Self → Data → Option Data };

    /// What it answers to an argument. The error is its refusal, or `Memory`.
    fn apply(&self, alloc: Global, value: &Value) -> Result<Value, FunctionFault>
        ensures { Applied (answers self.now value.now) result };
}
