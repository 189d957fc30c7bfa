//! Whether types are those that are wanted.
ghost use Rattle.std.specs.Prelude.{◌≡◌, ◌↔◌, IsTrue, OnOk, IfErr};
ghost use Rattle.sf_value.specs.Values.{KeyKind, Kind, event_kind, table_kind};
ghost use Rattle.sf_operator.specs.Kinds.{is_ordered};
ghost use Rattle.sf_differ.specs.Differences.{Suits, SuitsAny, IsOther, Explains};

use crate::blame::Blame;
use crate::difference::{Difference, Wanted};
use sf_refusal::Spot;
use sf_value::{Ty, TyForm, same_type};
use std::alloc::Global;

/// Whether a type is one of events.
fn is_event(ty: &Ty) -> bool
    ensures { IsTrue result ↔ ((a : Kind) × (ty.now ≡ event_kind a)) }
{
    match ty.form() {
        TyForm::Event(_) => true,
        TyForm::Unit => false,
        TyForm::Bool => false,
        TyForm::Int => false,
        TyForm::Text => false,
        TyForm::Pair(_, _) => false,
        TyForm::Table(_, _) => false,
    }
}

/// Whether a type is one of tables.
fn is_table(ty: &Ty) -> bool
    ensures { IsTrue result ↔ ((k : KeyKind) × (a : Kind) × (ty.now ≡ table_kind k a)) }
{
    match ty.form() {
        TyForm::Table(_, _) => true,
        TyForm::Unit => false,
        TyForm::Bool => false,
        TyForm::Int => false,
        TyForm::Text => false,
        TyForm::Pair(_, _) => false,
        TyForm::Event(_) => false,
    }
}

/// Whether values of a type have an order.
fn has_order(ty: &Ty) -> bool
    ensures { result ≡ is_ordered ty.now }
{
    match ty.form() {
        TyForm::Int => true,
        TyForm::Text => true,
        TyForm::Unit => false,
        TyForm::Bool => false,
        TyForm::Pair(_, _) => false,
        TyForm::Event(_) => false,
        TyForm::Table(_, _) => false,
    }
}

/// Whether a type is one of those that are wanted.
fn suits(found: &Ty, wanted: &Wanted) -> bool
    ensures { IsTrue result ↔ Suits wanted.now found.now }
{
    match (wanted, found.parts()) {
        (Wanted::Exactly(ty), _) => same_type(found, ty),
        (Wanted::Pair, Some(_)) => true,
        (Wanted::PairWith(ty), Some((_, second))) => same_type(second, ty),
        (Wanted::EventBeside, Some((_, second))) => is_event(second),
        (Wanted::Pair, None) => false,
        (Wanted::PairWith(_), None) => false,
        (Wanted::EventBeside, None) => false,
        (Wanted::Event, _) => is_event(found),
        (Wanted::Table, _) => is_table(found),
        (Wanted::Ordered, _) => has_order(found),
    }
}

/// Nothing where a type is one of those that are wanted, or any will do; else what differs, at the spot.
pub fn suited(alloc: Global, found: &Ty, wanted: Option<Wanted>, spot: Spot) -> Result<(), Blame>
    ensures ok { OnOk result (SuitsAny wanted found.now) }
    ensures err { IfErr result (λ b. Explains (IsOther wanted spot found.now) b) }
{
    let Some(wanted) = wanted else {
        return Ok(());
    };
    if suits(found, &wanted) {
        return Ok(());
    }
    Err(Blame::Differs(Difference {
        spot,
        found: found.clone_in(alloc)?,
        wanted,
    }))
}
