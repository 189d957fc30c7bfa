//! What a network is refused for.
ghost use Rattle.std.specs.Prelude.{◌≡◌, Some};
ghost use Rattle.sf_refusal.specs.Refusals.{breach_text, refusal_text, broken};
ghost use Rattle.sf_refusal.specs.declared.refusal.Refusal.TheVariants.{Memory};

use crate::rule::Rule;
use crate::spot::Spot;
use std::alloc::{AllocError, AllocFailed};
use std::error::Error;
use std::fmt::{self, Display, Formatter, Write};

/// A rule that the text of a network breaks, and where. It is displayed as `NUMBER NAME LINE:COLUMN`, as in
/// `P1 Unexpected 2:24`.
#[derive(Clone, Copy, Debug, PartialEq, Eq)]
pub struct Breach {
    /// The rule.
    pub rule: Rule,
    /// Where it is broken.
    pub spot: Spot,
}

impl Display for Breach {
    // The number, the name and the place, with a space between.
    ghost output = { λ b. Some (breach_text b) };

    fn fmt<W: Write>(&self, f: &mut Formatter<W>) -> fmt::Result {
        let number = self.rule.number();
        let name = self.rule.name();
        let spot = self.spot;
        write!(f, "{number} {name} {spot}")
    }
}

/// Why a network is refused. It is displayed as the rule that is broken and its place, or as `Memory`.
#[derive(Clone, Copy, Debug, PartialEq, Eq)]
pub enum Refusal {
    /// It breaks a rule.
    Broken(Breach),
    /// Memory was wanting.
    Memory,
}

impl Refusal {
    /// A rule is broken at a place.
    pub fn broken(rule: Rule, spot: Spot) -> Refusal
        ensures { result ≡ broken rule spot }
    {
        Refusal::Broken(Breach { rule, spot })
    }
}

impl From<AllocError> for Refusal {
    ghost from_gives = { λ _ e. e ≡ Memory };

    fn from(_error: AllocError) -> Refusal {
        Refusal::Memory
    }
}

impl<T: Drop> From<AllocFailed<T>> for Refusal {
    ghost from_gives = { λ _ e. e ≡ Memory };

    fn from(_error: AllocFailed<T>) -> Refusal {
        Refusal::Memory
    }
}

impl Display for Refusal {
    // The rule that is broken and its place, or `Memory`.
    ghost output = { λ r. Some (refusal_text r) };

    fn fmt<W: Write>(&self, f: &mut Formatter<W>) -> fmt::Result {
        match self {
            Refusal::Broken(breach) => write!(f, "{breach}"),
            Refusal::Memory => write!(f, "Memory"),
        }
    }
}

impl Error for Refusal {}
