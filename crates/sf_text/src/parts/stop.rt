//! Why reading stopped.
ghost use Rattle.std.specs.Prelude.{◌≡◌};
ghost use Rattle.sf_text.specs.declared.parts.stop.Stop.TheVariants.{Memory};

use sf_refusal::Rule;
use std::alloc::{AllocError, AllocFailed};

/// Why reading stopped: a rule that is broken, and how many tokens there are from the one on that breaks it, or want of
/// memory.
#[derive(Clone, Copy, Debug, PartialEq, Eq)]
pub enum Stop {
    At(Rule, usize),
    Memory,
}

impl From<AllocError> for Stop {
    ghost from_gives = { λ _ e. e ≡ Memory };

    fn from(_error: AllocError) -> Stop {
        Stop::Memory
    }
}

impl<T: Drop> From<AllocFailed<T>> for Stop {
    ghost from_gives = { λ _ e. e ≡ Memory };

    fn from(_error: AllocFailed<T>) -> Stop {
        Stop::Memory
    }
}
