//! Pairs whose halves change places.
ghost use Rattle.std.specs.Prelude.{◌≡◌, [], ◌∷◌, IfOk, IfSome, OnOk};
ghost use Rattle.sf_value.specs.Values.{Data};
ghost use Rattle.sf_value.specs.Values;
ghost use Rattle.sf_code.specs.Codes.{paired};
ghost use Rattle.sf_code.specs.Codes;
ghost use Rattle.sf_code.specs.CodeView.{code_of};
ghost use Rattle.sf_code.specs.Places.{at_frame, half_of};
ghost use Rattle.sf_code.specs.PlaceView.{path_of, place_of};

use crate::code::Code;
use crate::place::{Half, Path, Place};
use sf_value::{Pair, Value};
use std::alloc::{AllocError, Global};
use std::mem;
use std::rc::Rc;

/// The two halves of the argument of which code makes a pair, if it does that and no more.
#[inline(always)]
pub(crate) fn paired_halves(code: &Code) -> Option<(Half, Half)>
    ensures { IfSome result (λ hs. code_of code.now ≡ paired (Codes.place (at_frame 0 (hs.0 ∷ []))) (Codes.place (at_frame 0 (hs.1 ∷ [])))) }
{
    let Code::Pair(first, second) = code else {
        return None;
    };
    let first = coded_half(first)?;
    let second = coded_half(second)?;
    Some((first, second))
}

// The half of the argument that code is.
#[inline(always)]
fn coded_half(code: &Code) -> Option<Half>
    ensures { IfSome result (λ h. code_of code.now ≡ Codes.place (at_frame 0 (h ∷ []))) }
{
    match code {
        Code::Place(place) => placed_half(place),
        _ => None,
    }
}

// The half of the argument that stands at a place.
#[inline(always)]
fn placed_half(place: &Place) -> Option<Half>
    ensures { IfSome result (λ h. place_of place.now ≡ at_frame 0 (h ∷ [])) }
{
    match place {
        Place::Here(path) => only_half(path),
        Place::Out(_) => None,
    }
}

// The only half of a path.
#[inline(always)]
fn only_half(path: &Path) -> Option<Half>
    ensures { IfSome result (λ h. path_of path.now ≡ h ∷ []) }
{
    match path {
        Path::Half(half, rest) => match &**rest {
            Path::Whole => Some(*half),
            Path::Half(_, _) => None,
        },
        Path::Whole => None,
    }
}

/// The pair of two halves of a value, which it takes: in the value's own node, where it has no other owner.
#[inline(always)]
pub(crate) fn rearranged(
    alloc: Global,
    value: Value,
    first: Half,
    second: Half,
) -> Result<Value, AllocError>
    ensures { IfOk result (λ v. v ≡ Values.pair (half_of first value) (half_of second value)) }
{
    let mut node = value.into_pair(alloc)?;
    if let Some(own) = Rc::get_mut(&mut node) {
        rearrange(alloc, own, first, second)?;
        return Ok(Value::of_pair(node));
    }
    copied(alloc, &*node, first, second)
}

// The pair of copies of two halves.
#[inline(never)]
fn copied(alloc: Global, halves: &Pair, first: Half, second: Half) -> Result<Value, AllocError>
    ensures { IfOk result (λ v. v ≡ Values.pair (half_of first (Values.pair halves.now.first halves.now.second)) (half_of second (Values.pair halves.now.first halves.now.second))) }
{
    let first = copied_half(alloc, halves, first)?;
    let second = copied_half(alloc, halves, second)?;
    Value::pair(alloc, first, second)
}

// Puts two of the halves in the places of both.
#[inline(always)]
fn rearrange(alloc: Global, halves: &mut Pair, first: Half, second: Half) -> Result<(), AllocError>
    ensures first { OnOk result (halves.new.first ≡ half_of first (Values.pair halves.old.first halves.old.second)) }
    ensures second { OnOk result (halves.new.second ≡ half_of second (Values.pair halves.old.first halves.old.second)) }
{
    match (first, second) {
        (Half::First, Half::Second) => {}
        (Half::Second, Half::First) => mem::swap(&mut halves.first, &mut halves.second),
        (Half::First, Half::First) => halves.second = halves.first.clone_in(alloc)?,
        (Half::Second, Half::Second) => halves.first = halves.second.clone_in(alloc)?,
    }
    Ok(())
}

// A copy of a half, which shares what it is made of.
#[inline(always)]
fn copied_half(alloc: Global, halves: &Pair, half: Half) -> Result<Value, AllocError>
    ensures { IfOk result (λ v. v ≡ half_of half (Values.pair halves.now.first halves.now.second)) }
{
    match half {
        Half::First => halves.first.clone_in(alloc),
        Half::Second => halves.second.clone_in(alloc),
    }
}
