//! Patterns that do not fit a type.
ghost use Rattle.std.specs.Prelude.{◌≡◌, IfSome};
ghost use Rattle.sf_expr.specs.Patterns.{pattern_of};
ghost use Rattle.sf_expr.specs.Refusals.{PatternRefused};
ghost use Rattle.sf_refusal.specs.Refusals.{OrMemory};
ghost use Rattle.sf_differ.specs.Differences.{Explains};
ghost use Rattle.sf_differ.specs.Differing.{Unpaired, PatternDiffers};

use crate::blame::Blame;
use crate::difference::{Difference, Wanted};
use sf_expr::{Pat, PatForm};
use sf_refusal::{Refusal, Rule, Spot};
use sf_value::Ty;
use std::alloc::Global;

/// The first part of a type that is none of pairs, where that part of a pattern is a pair; none where the pattern fits.
fn unpaired<'a>(pattern: &Pat, ty: &'a Ty) -> Option<&'a Ty>
    ensures { IfSome result (λ part. Unpaired (pattern_of pattern.now) ty.now part.now) }
{
    match (pattern.form(), ty.parts()) {
        (PatForm::Unnamed, _) => None,
        (PatForm::Name(_, _), _) => None,
        (PatForm::Both(first, second), Some((left, right))) => match unpaired(first, left) {
            Some(part) => Some(part),
            None => unpaired(second, right),
        },
        (PatForm::Both(_, _), None) => Some(ty),
    }
}

/// A type that is none of pairs, where pairs are wanted, at a spot.
fn no_pair(alloc: Global, ty: &Ty, spot: Spot) -> Blame
    ensures { Explains (λ d. (d.spot ≡ spot) × (d.found ≡ ty.now) × (d.wanted ≡ Wanted.Pair)) result }
{
    match ty.clone_in(alloc) {
        Ok(found) => Blame::Differs(Difference {
            spot,
            found,
            wanted: Wanted::Pair,
        }),
        Err(_) => Blame::Memory,
    }
}

/// What differs where a pattern is refused for a type: a part of the type that is none of pairs.
pub fn pattern_blame(alloc: Global, pattern: &Pat, ty: &Ty, refusal: Refusal) -> Blame
    ensures { (at : Spot) → OrMemory (PatternRefused pattern.now ty.now at) refusal → Explains (PatternDiffers pattern.now ty.now at) result }
{
    let Refusal::Broken(breach) = refusal else {
        return Blame::Memory;
    };
    match (breach.rule, unpaired(pattern, ty)) {
        (Rule::Mismatch, Some(part)) => no_pair(alloc, part, breach.spot),
        _ => Blame::Silent,
    }
}
