//! Which types the places of operators want.
ghost use Rattle.std.specs.Prelude.{◌≡◌, IfOk, Some, option_map};
ghost use Rattle.sf_value.specs.KindView.{key_kind_of};
ghost use Rattle.sf_operator.specs.Kinds.{payload_of, columns_of, kind_of_keys};
ghost use Rattle.sf_differ.specs.Wanting.{operand_wants, left_wants, right_wants, mapping_wants, mapped_wants, folding_wants, second_wants, folded_wants};

use crate::difference::Wanted;
use sf_expr::{Folding, Mapping, Operator, Unary};
use sf_value::{KeyType, Ty, TyForm};
use std::alloc::{AllocError, Global};

/// Which operands an operator wants; none where any will do.
pub(crate) fn operand_wanted(operator: Unary) -> Option<Wanted>
    ensures { result ≡ operand_wants operator }
{
    match operator {
        Unary::Not => Some(Wanted::Exactly(Ty::bool())),
        Unary::Event => None,
        Unary::First => Some(Wanted::Pair),
        Unary::Second => Some(Wanted::Pair),
        Unary::IsEvent => Some(Wanted::Event),
        Unary::Size => Some(Wanted::Table),
    }
}

/// Which left operands an operator wants; none where any will do.
pub(crate) fn left_wanted(operator: Operator) -> Option<Wanted>
    ensures { result ≡ left_wants operator }
{
    match operator {
        Operator::Arithmetic(_) => Some(Wanted::Exactly(Ty::int())),
        Operator::Equality(_) => None,
        Operator::Comparison(_) => Some(Wanted::Ordered),
        Operator::Logic(_) => Some(Wanted::Exactly(Ty::bool())),
        Operator::Tag => Some(Wanted::Event),
        Operator::Attach => Some(Wanted::Event),
        Operator::FromEvent => Some(Wanted::Event),
        Operator::Gate => Some(Wanted::Event),
        Operator::Merge(_) => Some(Wanted::Event),
        Operator::Get => Some(Wanted::Table),
    }
}

/// This type alone.
fn exactly(alloc: Global, ty: &Ty) -> Result<Option<Wanted>, AllocError>
    ensures { IfOk result (λ w. w ≡ Some (Wanted.Exactly ty.now)) }
{
    Ok(Some(Wanted::Exactly(ty.clone_in(alloc)?)))
}

/// The payloads of a type of events; none where it is none.
fn payloads(alloc: Global, ty: &Ty) -> Result<Option<Wanted>, AllocError>
    ensures { IfOk result (λ w. w ≡ option_map (λ a. Wanted.Exactly a) (payload_of ty.now)) }
{
    match ty.form() {
        TyForm::Event(payload) => exactly(alloc, payload),
        TyForm::Unit => Ok(None),
        TyForm::Bool => Ok(None),
        TyForm::Int => Ok(None),
        TyForm::Text => Ok(None),
        TyForm::Pair(_, _) => Ok(None),
        TyForm::Table(_, _) => Ok(None),
    }
}

/// The type of keys, as a type of values.
fn key_type(keys: KeyType) -> Ty
    ensures { result ≡ kind_of_keys (key_kind_of keys) }
{
    match keys {
        KeyType::Int => Ty::int(),
        KeyType::Text => Ty::text(),
    }
}

/// The keys of a type of tables; none where it is none.
fn keys(ty: &Ty) -> Option<Wanted>
    ensures { result ≡ option_map (λ c. Wanted.Exactly (kind_of_keys c.0)) (columns_of ty.now) }
{
    match ty.form() {
        TyForm::Table(keys, _) => Some(Wanted::Exactly(key_type(*keys))),
        TyForm::Unit => None,
        TyForm::Bool => None,
        TyForm::Int => None,
        TyForm::Text => None,
        TyForm::Pair(_, _) => None,
        TyForm::Event(_) => None,
    }
}

/// Which right operands an operator wants beside a left one of a type; none where any will do.
pub(crate) fn right_wanted(
    alloc: Global,
    operator: Operator,
    left: &Ty,
) -> Result<Option<Wanted>, AllocError>
    ensures { IfOk result (λ w. w ≡ right_wants operator left.now) }
{
    match operator {
        Operator::Arithmetic(_) => Ok(Some(Wanted::Exactly(Ty::int()))),
        Operator::Equality(_) => exactly(alloc, left),
        Operator::Comparison(_) => exactly(alloc, left),
        Operator::Logic(_) => Ok(Some(Wanted::Exactly(Ty::bool()))),
        Operator::Tag => Ok(None),
        Operator::Attach => Ok(None),
        Operator::FromEvent => payloads(alloc, left),
        Operator::Gate => Ok(Some(Wanted::Exactly(Ty::bool()))),
        Operator::Merge(_) => exactly(alloc, left),
        Operator::Get => Ok(keys(left)),
    }
}

/// Which values a form with a function wants; none where any will do.
pub(crate) fn mapping_wanted(mapping: Mapping) -> Option<Wanted>
    ensures { result ≡ mapping_wants mapping }
{
    match mapping {
        Mapping::Let => None,
        Mapping::Filter => Some(Wanted::Event),
        Mapping::Map => Some(Wanted::Event),
    }
}

/// Which values a form wants its function to make; none where any will do.
pub(crate) fn mapped_wanted(mapping: Mapping) -> Option<Wanted>
    ensures { result ≡ mapped_wants mapping }
{
    match mapping {
        Mapping::Let => None,
        Mapping::Filter => Some(Wanted::Exactly(Ty::bool())),
        Mapping::Map => None,
    }
}

/// Which first values a form of two with a function wants.
pub(crate) fn folding_wanted(folding: Folding) -> Option<Wanted>
    ensures { result ≡ folding_wants folding }
{
    match folding {
        Folding::Match => Some(Wanted::Event),
        Folding::Merge => Some(Wanted::Event),
        Folding::Fold => Some(Wanted::Table),
    }
}

/// Which second values it wants beside a first one of a type; none where any will do.
pub(crate) fn second_wanted(
    alloc: Global,
    folding: Folding,
    first: &Ty,
) -> Result<Option<Wanted>, AllocError>
    ensures { IfOk result (λ w. w ≡ second_wants folding first.now) }
{
    match folding {
        Folding::Match => Ok(None),
        Folding::Merge => exactly(alloc, first),
        Folding::Fold => Ok(None),
    }
}

/// Which values it wants its function to make, of a first and a second one of types.
pub(crate) fn folded_wanted(
    alloc: Global,
    folding: Folding,
    first: &Ty,
    second: &Ty,
) -> Result<Option<Wanted>, AllocError>
    ensures { IfOk result (λ w. w ≡ folded_wants folding first.now second.now) }
{
    match folding {
        Folding::Match => exactly(alloc, second),
        Folding::Merge => payloads(alloc, first),
        Folding::Fold => exactly(alloc, second),
    }
}
