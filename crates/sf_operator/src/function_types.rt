//! The types of forms with a function.
ghost use Rattle.std.specs.Prelude.{Some};
ghost use Rattle.sf_operator.specs.declared.operator.Folding.TheVariants.{Fold, Merge};
ghost use Rattle.sf_operator.specs.Kinds.{only, payload_of, mapped_argument, mapped_kind, called_kind, folded_argument, folded_kind};
ghost use Rattle.sf_operator.specs.Breaches.{AnswersKind};

use crate::kinds::{columns, event_type, pair_type, payload, same, type_of_keys};
use crate::operator::{Folding, Mapping};
use sf_refusal::{Refusal, Spot};
use sf_value::Ty;
use std::alloc::Global;

/// The type of the payloads of a type of events. Refused at `at` with `Mismatch` where it is none, and with `Memory`.
fn payload_type(alloc: Global, events: &Ty, at: Spot) -> Result<Ty, Refusal>
    ensures { AnswersKind (payload_of events.now) at result }
{
    Ok(payload(events, at)?.clone_in(alloc)?)
}

/// A type, where two types are the same. Refused at `at` with `Mismatch` where they are not, and with `Memory`.
fn if_same(alloc: Global, left: &Ty, right: &Ty, each: &Ty, at: Spot) -> Result<Ty, Refusal>
    ensures { AnswersKind (only left.now right.now (Some each.now)) at result }
{
    same(left, right, at)?;
    Ok(each.clone_in(alloc)?)
}

/// The type of what the function of a form on a value of a type takes. Refused at `at` with `Mismatch` where the form
/// is none on such values, and with `Memory`.
pub fn mapped_argument_type(
    alloc: Global,
    mapping: Mapping,
    part: &Ty,
    at: Spot,
) -> Result<Ty, Refusal>
    ensures { AnswersKind (mapped_argument mapping part.now) at result }
{
    match mapping {
        Mapping::Let => Ok(part.clone_in(alloc)?),
        Mapping::Filter | Mapping::Map => payload_type(alloc, part, at),
    }
}

/// The type of what a form on a value of a type makes, where its function makes values of a type. Refused at `at` with
/// `Mismatch` where the function is none for the form, then with `TypeTooLarge` where the type would be made of more
/// than 256 types, and with `Memory`.
pub fn mapped_type(
    alloc: Global,
    mapping: Mapping,
    part: &Ty,
    made: &Ty,
    at: Spot,
) -> Result<Ty, Refusal>
    ensures { AnswersKind (mapped_kind mapping part.now made.now) at result }
{
    match mapping {
        Mapping::Let => Ok(made.clone_in(alloc)?),
        Mapping::Filter => {
            same(made, &Ty::bool(), at)?;
            Ok(part.clone_in(alloc)?)
        }
        Mapping::Map => event_type(alloc, made, at),
    }
}

/// The type of what a function from one type to another makes of a value of a type. Refused at `at` with `Mismatch` where
/// the function is none on such values, and with `Memory`.
pub fn called_type(alloc: Global, from: &Ty, to: &Ty, part: &Ty, at: Spot) -> Result<Ty, Refusal>
    ensures { AnswersKind (called_kind from.now to.now part.now) at result }
{
    if_same(alloc, part, from, to, at)
}

/// The type of a value beside a key and a value of a table. Refused at `at` with `Mismatch` where the first type is none
/// of tables, then with `TypeTooLarge` where the type would be made of more than 256 types, and with `Memory`.
fn row_type(alloc: Global, table: &Ty, beside: &Ty, at: Spot) -> Result<Ty, Refusal>
    ensures { AnswersKind (folded_argument Fold table.now beside.now) at result }
{
    let (keys, values) = columns(table, at)?;
    let row = pair_type(alloc, &type_of_keys(keys), values, at)?;
    pair_type(alloc, beside, &row, at)
}

/// The type of what the function of a form on values of two types takes. Refused at `at` with `Mismatch` where the form
/// is none on such a first value, then with `TypeTooLarge` where the type would be made of more than 256 types, and with
/// `Memory`.
pub fn folded_argument_type(
    alloc: Global,
    folding: Folding,
    first: &Ty,
    second: &Ty,
    at: Spot,
) -> Result<Ty, Refusal>
    ensures { AnswersKind (folded_argument folding first.now second.now) at result }
{
    match folding {
        Folding::Match => payload_type(alloc, first, at),
        Folding::Merge => {
            let payload = payload(first, at)?;
            pair_type(alloc, payload, payload, at)
        }
        Folding::Fold => row_type(alloc, first, second, at),
    }
}

/// The type of two events made one by a function. Refused at `at` with `Mismatch` where they are none, where they are
/// not of one type or where the function makes no payloads, and with `Memory`.
fn merged_type(alloc: Global, first: &Ty, second: &Ty, made: &Ty, at: Spot) -> Result<Ty, Refusal>
    ensures { AnswersKind (folded_kind Merge first.now second.now made.now) at result }
{
    let payload = payload(first, at)?;
    same(first, second, at)?;
    same(payload, made, at)?;
    Ok(first.clone_in(alloc)?)
}

/// The type of what a form on values of two types makes, where its function makes values of a type. Refused at `at` with
/// `Mismatch` where the second value or the function is none for the form, and with `Memory`.
pub fn folded_type(
    alloc: Global,
    folding: Folding,
    first: &Ty,
    second: &Ty,
    made: &Ty,
    at: Spot,
) -> Result<Ty, Refusal>
    ensures { AnswersKind (folded_kind folding first.now second.now made.now) at result }
{
    match folding {
        Folding::Match => if_same(alloc, second, made, made, at),
        Folding::Merge => merged_type(alloc, first, second, made, at),
        Folding::Fold => if_same(alloc, second, made, second, at),
    }
}
