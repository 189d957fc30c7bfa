//! Why programs take no more.
ghost use Rattle.std.specs.Prelude.{◌≡◌, IsTrue};
ghost use Rattle.sf_term.specs.Building.{RefusesDue};
ghost use Rattle.sf_term.specs.declared.refusal.BuildRefusal.TheVariants.{Memory};

use sf_arena::ArenaRefusal;
use std::alloc::{AllocError, AllocFailed};
use thiserror::Error;

/// Why a program took no more.
#[derive(Clone, Copy, Debug, PartialEq, Eq, Error)]
pub enum BuildRefusal {
    /// 100,000 terms are there, or 100,000 expressions.
    #[error("too many terms or expressions")]
    TooMany,
    /// More than 64 terms and expressions would stand one inside another.
    #[error("too many terms one inside another")]
    TooDeep,
    /// A name is not a name of the language.
    #[error("not a name")]
    BadName,
    /// Memory ran out.
    #[error("out of memory")]
    Memory,
}

impl From<ArenaRefusal> for BuildRefusal {
    ghost use Rattle.sf_term.specs.Refusals.{as_build_refusal};

    ghost from_gives = { λ refusal e. e ≡ as_build_refusal refusal };

    fn from(refusal: ArenaRefusal) -> BuildRefusal {
        match refusal {
            ArenaRefusal::TooMany => BuildRefusal::TooMany,
            ArenaRefusal::TooDeep => BuildRefusal::TooDeep,
            ArenaRefusal::Memory => BuildRefusal::Memory,
        }
    }
}

impl From<AllocError> for BuildRefusal {
    ghost from_gives = { λ _ e. e ≡ Memory };

    fn from(_error: AllocError) -> BuildRefusal {
        BuildRefusal::Memory
    }
}

impl<T: Drop> From<AllocFailed<T>> for BuildRefusal {
    ghost from_gives = { λ _ e. e ≡ Memory };

    fn from(_error: AllocFailed<T>) -> BuildRefusal {
        BuildRefusal::Memory
    }
}

/// Whether one more may be added where `count` are there, which is so deep and whose names are names or not.
pub(crate) fn room(count: usize, depth: u32, named: bool) -> Result<(), BuildRefusal>
    ensures { RefusesDue result count depth (IsTrue named) }
{
    if 100_000 <= count {
        return Err(BuildRefusal::TooMany);
    }
    if 64 < depth {
        return Err(BuildRefusal::TooDeep);
    }
    if !named {
        return Err(BuildRefusal::BadName);
    }
    Ok(())
}
