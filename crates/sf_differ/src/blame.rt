//! Why nothing is found, and what differs.
ghost use Rattle.std.specs.Prelude.{◌≡◌};
ghost use Rattle.sf_differ.specs.declared.blame.Blame.TheVariants.{Memory};
ghost use Rattle.sf_differ.specs.Differences.{left_unsaid};

use crate::difference::Difference;
use sf_refusal::Refusal;
use std::alloc::AllocError;

/// What is said of a form that is refused.
#[derive(Drop)]
pub enum Blame {
    /// Types differ.
    Differs(Difference),
    /// Nothing: no types are compared where it is refused.
    Silent,
    /// Memory was wanting.
    Memory,
}

impl From<AllocError> for Blame {
    ghost from_gives = { λ _ e. e ≡ Memory };

    fn from(_error: AllocError) -> Blame {
        Blame::Memory
    }
}

impl From<Refusal> for Blame {
    ghost from_gives = { λ refusal b. b ≡ left_unsaid refusal };

    fn from(refusal: Refusal) -> Blame {
        match refusal {
            Refusal::Broken(_) => Blame::Silent,
            Refusal::Memory => Blame::Memory,
        }
    }
}
