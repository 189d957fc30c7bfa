//! Why an expression has no value.
ghost use Rattle.std.specs.Prelude.{◌≡◌};
ghost use Rattle.sf_operator.specs.declared.fault.EvalFault.TheVariants.{Memory, Value};

use sf_value::ValueFault;
use std::alloc::{AllocError, AllocFailed};
use thiserror::Error;

/// Why an evaluation gave no value.
#[derive(Clone, Copy, Debug, PartialEq, Eq, Error)]
pub enum EvalFault {
    /// The expression has a fault in place of a value.
    #[error(transparent)]
    Value(ValueFault),
    /// Memory was wanting.
    #[error("out of memory")]
    Memory,
}

impl From<ValueFault> for EvalFault {
    ghost from_gives = { λ fault e. e ≡ Value fault };

    fn from(fault: ValueFault) -> EvalFault {
        EvalFault::Value(fault)
    }
}

impl From<AllocError> for EvalFault {
    ghost from_gives = { λ _ e. e ≡ Memory };

    fn from(_error: AllocError) -> EvalFault {
        EvalFault::Memory
    }
}

impl<T: Drop> From<AllocFailed<T>> for EvalFault {
    ghost from_gives = { λ _ e. e ≡ Memory };

    fn from(_error: AllocFailed<T>) -> EvalFault {
        EvalFault::Memory
    }
}
