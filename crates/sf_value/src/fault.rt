//! Why an operation on values has no value, and a sample neither.
ghost use Rattle.std.specs.Prelude.{◌≡◌};
ghost use Rattle.sf_value.specs.declared.fault.Fault.TheVariants.{Value, Memory};

use std::alloc::{AllocError, AllocFailed};
use thiserror::Error;

/// Why an operation on values has no value.
#[derive(Clone, Copy, Debug, PartialEq, Eq, Error)]
pub enum ValueFault {
    /// A number is outside signed 64 bits.
    #[error("overflow")]
    Overflow,
    /// A divisor is zero.
    #[error("division by zero")]
    DivideByZero,
    /// Two events are merged that may not occur together.
    #[error("clash of two events")]
    Clash,
    /// A stored function refuses its argument.
    #[error("refused by a function")]
    Function,
}

/// Why a sample has no value.
#[derive(Clone, Copy, Debug, PartialEq, Eq, Error)]
pub enum Fault {
    /// A fault of its values.
    #[error(transparent)]
    Value(ValueFault),
    /// The sample enters too many nodes.
    #[error("sample too large")]
    Large,
    /// Memory ran out.
    #[error("out of memory")]
    Memory,
}

impl From<ValueFault> for Fault {
    ghost from_gives = { λ f e. e ≡ Value f };

    fn from(fault: ValueFault) -> Fault {
        Fault::Value(fault)
    }
}

impl From<AllocError> for Fault {
    ghost from_gives = { λ _ e. e ≡ Memory };

    fn from(_: AllocError) -> Fault {
        Fault::Memory
    }
}

impl<T: Drop> From<AllocFailed<T>> for Fault {
    ghost from_gives = { λ _ e. e ≡ Memory };

    fn from(_: AllocFailed<T>) -> Fault {
        Fault::Memory
    }
}
