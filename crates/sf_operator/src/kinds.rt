//! The types that operators make.
ghost use Rattle.std.specs.Prelude.{◌≡◌, cond, true, false, Some, None, OnOk, IfOk, IfErr};
ghost use Rattle.sf_value.specs.Values.{bool_kind, event_kind, pair_kind};
ghost use Rattle.sf_value.specs.KindView.{key_kind_of};
ghost use Rattle.sf_refusal.specs.Refusals.{broken};
ghost use Rattle.sf_value.specs.declared.ty.TyRefusal.TheVariants.{TypeTooLarge, Memory};
ghost use Rattle.sf_refusal.specs.declared.rule.Rule.TheVariants.{Mismatch, TypeTooLarge as LargeRule};
ghost use Rattle.sf_refusal.specs.declared.refusal.Refusal.TheVariants.{Memory as NoMemory};
ghost use Rattle.sf_operator.specs.Kinds.{same_kind, only, parts_of, payload_of, columns_of, kind_of_keys, is_ordered, unary_kind, binary_kind, conditional_kind};
ghost use Rattle.sf_operator.specs.declared.operator.Operator.TheVariants as operators;
ghost use Rattle.sf_operator.specs.Breaches.{AnswersKind};

use crate::operator::{Merge, Operator, Unary};
use sf_refusal::{Refusal, Rule, Spot};
use sf_value::{KeyType, Ty, TyForm, TyRefusal, same_type};
use std::alloc::Global;

/// Nothing where two types are the same; else refused with `Mismatch` at `at`.
pub fn same(left: &Ty, right: &Ty, at: Spot) -> Result<(), Refusal>
    ensures ok { OnOk result (same_kind left.now right.now ≡ true) }
    ensures err { IfErr result (λ r. (same_kind left.now right.now ≡ false) × (r ≡ broken Mismatch at)) }
{
    if same_type(left, right) {
        Ok(())
    } else {
        Err(Refusal::broken(Rule::Mismatch, at))
    }
}

/// The types of the two parts of a type of pairs; another type is refused with `Mismatch` at `at`.
fn parts(ty: &Ty, at: Spot) -> Result<(&Ty, &Ty), Refusal>
    ensures ok { IfOk result (λ parts. parts_of ty.now ≡ Some (parts.0.now, parts.1.now)) }
    ensures err { IfErr result (λ r. (parts_of ty.now ≡ None) × (r ≡ broken Mismatch at)) }
{
    match ty.form() {
        TyForm::Pair(first, second) => Ok((first, second)),
        _ => Err(Refusal::broken(Rule::Mismatch, at)),
    }
}

/// The type of the payloads of a type of events; another type is refused with `Mismatch` at `at`.
pub fn payload(ty: &Ty, at: Spot) -> Result<&Ty, Refusal>
    ensures ok { IfOk result (λ payload. payload_of ty.now ≡ Some payload.now) }
    ensures err { IfErr result (λ r. (payload_of ty.now ≡ None) × (r ≡ broken Mismatch at)) }
{
    match ty.form() {
        TyForm::Event(payload) => Ok(payload),
        _ => Err(Refusal::broken(Rule::Mismatch, at)),
    }
}

/// The types of the keys and the values of a type of tables; another type is refused with `Mismatch` at `at`.
pub(crate) fn columns(ty: &Ty, at: Spot) -> Result<(KeyType, &Ty), Refusal>
    ensures ok { IfOk result (λ columns. columns_of ty.now ≡ Some (key_kind_of columns.0, columns.1.now)) }
    ensures err { IfErr result (λ r. (columns_of ty.now ≡ None) × (r ≡ broken Mismatch at)) }
{
    match ty.form() {
        TyForm::Table(keys, values) => Ok((*keys, values)),
        _ => Err(Refusal::broken(Rule::Mismatch, at)),
    }
}

/// The type of keys, as a type of values.
pub(crate) fn type_of_keys(keys: KeyType) -> Ty
    ensures { result ≡ kind_of_keys (key_kind_of keys) }
{
    match keys {
        KeyType::Int => Ty::int(),
        KeyType::Text => Ty::text(),
    }
}

/// The refusal for a type that is not made: `TypeTooLarge` at `at`, or `Memory`.
fn not_made(why: TyRefusal, at: Spot) -> Refusal
    ensures large { why ≡ TypeTooLarge → result ≡ broken LargeRule at }
    ensures memory { why ≡ Memory → result ≡ NoMemory }
{
    match why {
        TyRefusal::TypeTooLarge => Refusal::broken(Rule::TypeTooLarge, at),
        TyRefusal::Memory => Refusal::Memory,
    }
}

/// The type of events of a type; refused with `TypeTooLarge` at `at` where it would be made of more than 256 types.
pub fn event_type(alloc: Global, payload: &Ty, at: Spot) -> Result<Ty, Refusal>
    ensures { AnswersKind (Some (event_kind payload.now)) at result }
{
    match Ty::event(alloc, payload.clone_in(alloc)?) {
        Ok(event) => Ok(event),
        Err(why) => Err(not_made(why, at)),
    }
}

/// The type of pairs of two types; refused with `TypeTooLarge` at `at` where it would be made of more than 256 types.
pub fn pair_type(alloc: Global, first: &Ty, second: &Ty, at: Spot) -> Result<Ty, Refusal>
    ensures { AnswersKind (Some (pair_kind first.now second.now)) at result }
{
    match Ty::pair(alloc, first.clone_in(alloc)?, second.clone_in(alloc)?) {
        Ok(pair) => Ok(pair),
        Err(why) => Err(not_made(why, at)),
    }
}

/// The type of what an operator makes of a value of a type. Refused at `at` with `Mismatch` where the operator is none
/// on such values, then with `TypeTooLarge` where the type would be made of more than 256 types, and with `Memory`.
pub fn unary_type(alloc: Global, operator: Unary, part: &Ty, at: Spot) -> Result<Ty, Refusal>
    ensures { AnswersKind (unary_kind operator part.now) at result }
{
    match operator {
        Unary::Not => {
            same(part, &Ty::bool(), at)?;
            Ok(Ty::bool())
        }
        Unary::Event => event_type(alloc, part, at),
        Unary::First => Ok(parts(part, at)?.0.clone_in(alloc)?),
        Unary::Second => Ok(parts(part, at)?.1.clone_in(alloc)?),
        Unary::IsEvent => {
            payload(part, at)?;
            Ok(Ty::bool())
        }
        Unary::Size => {
            columns(part, at)?;
            Ok(Ty::int())
        }
    }
}

/// A type, where two types are both it; else refused with `Mismatch` at `at`.
fn both(alloc: Global, left: &Ty, right: &Ty, each: &Ty, at: Spot) -> Result<Ty, Refusal>
    ensures { AnswersKind (only left.now each.now (only right.now each.now (Some each.now))) at result }
{
    same(left, each, at)?;
    same(right, each, at)?;
    Ok(left.clone_in(alloc)?)
}

/// The type of a comparison; refused with `Mismatch` at `at` where the operands are neither two numbers nor two texts.
fn comparison_type(left: &Ty, right: &Ty, at: Spot) -> Result<Ty, Refusal>
    ensures { AnswersKind (only left.now right.now (cond (is_ordered left.now) (Some bool_kind) None)) at result }
{
    same(left, right, at)?;
    match left.form() {
        TyForm::Int | TyForm::Text => Ok(Ty::bool()),
        _ => Err(Refusal::broken(Rule::Mismatch, at)),
    }
}

/// The type of events whose payloads have a value beside them. Refused at `at` with `Mismatch` where the first type is
/// none of events, then with `TypeTooLarge` where the type would be made of more than 256 types.
fn attach_type(alloc: Global, left: &Ty, right: &Ty, at: Spot) -> Result<Ty, Refusal>
    ensures { AnswersKind (binary_kind operators.Attach left.now right.now) at result }
{
    let pair = pair_type(alloc, payload(left, at)?, right, at)?;
    event_type(alloc, &pair, at)
}

/// The type of events of the values of a type of tables. Refused at `at` with `Mismatch` where the first type is none of
/// tables or the second is not that of its keys, then with `TypeTooLarge` where the type would be made of more than 256
/// types.
fn get_type(alloc: Global, left: &Ty, right: &Ty, at: Spot) -> Result<Ty, Refusal>
    ensures { AnswersKind (binary_kind operators.Get left.now right.now) at result }
{
    let (keys, values) = columns(left, at)?;
    same(right, &type_of_keys(keys), at)?;
    event_type(alloc, values, at)
}

/// The type of a payload or the value in its place. Refused at `at` with `Mismatch` where the first type is none of events or
/// the second is not that of its payloads.
fn from_event_type(alloc: Global, left: &Ty, right: &Ty, at: Spot) -> Result<Ty, Refusal>
    ensures { AnswersKind (binary_kind operators.FromEvent left.now right.now) at result }
{
    let payload = payload(left, at)?;
    same(payload, right, at)?;
    Ok(payload.clone_in(alloc)?)
}

/// The type of events where a truth holds. Refused at `at` with `Mismatch` where the first type is none of events or the
/// second is not that of truths.
fn gate_type(alloc: Global, left: &Ty, right: &Ty, at: Spot) -> Result<Ty, Refusal>
    ensures { AnswersKind (binary_kind operators.Gate left.now right.now) at result }
{
    payload(left, at)?;
    same(right, &Ty::bool(), at)?;
    Ok(left.clone_in(alloc)?)
}

/// The type of two events made one. Refused at `at` with `Mismatch` where the types are not the same of events.
fn merge_type(alloc: Global, side: Merge, left: &Ty, right: &Ty, at: Spot) -> Result<Ty, Refusal>
    ensures { AnswersKind (binary_kind (operators.Merge side) left.now right.now) at result }
{
    payload(left, at)?;
    same(left, right, at)?;
    Ok(left.clone_in(alloc)?)
}

/// The type of what an operator makes of values of two types. Refused at `at` with `Mismatch` where the operator is none
/// on such values, then with `TypeTooLarge` where the type would be made of more than 256 types, and with `Memory`.
pub fn binary_type(
    alloc: Global,
    operator: Operator,
    left: &Ty,
    right: &Ty,
    at: Spot,
) -> Result<Ty, Refusal>
    ensures { AnswersKind (binary_kind operator left.now right.now) at result }
{
    match operator {
        Operator::Arithmetic(_) => both(alloc, left, right, &Ty::int(), at),
        Operator::Equality(_) => {
            same(left, right, at)?;
            Ok(Ty::bool())
        }
        Operator::Comparison(_) => comparison_type(left, right, at),
        Operator::Logic(_) => both(alloc, left, right, &Ty::bool(), at),
        Operator::Tag => {
            payload(left, at)?;
            event_type(alloc, right, at)
        }
        Operator::Attach => attach_type(alloc, left, right, at),
        Operator::FromEvent => from_event_type(alloc, left, right, at),
        Operator::Gate => gate_type(alloc, left, right, at),
        Operator::Merge(side) => merge_type(alloc, side, left, right, at),
        Operator::Get => get_type(alloc, left, right, at),
    }
}

/// The type of one of two values by a truth. Refused at `at` with `Mismatch` where the first type is not that of truths
/// or the others are not the same, and with `Memory`.
pub fn conditional_type(
    alloc: Global,
    condition: &Ty,
    first: &Ty,
    second: &Ty,
    at: Spot,
) -> Result<Ty, Refusal>
    ensures { AnswersKind (conditional_kind condition.now first.now second.now) at result }
{
    same(condition, &Ty::bool(), at)?;
    same(first, second, at)?;
    Ok(first.clone_in(alloc)?)
}
