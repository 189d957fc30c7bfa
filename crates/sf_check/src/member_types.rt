//! The types of the members of collections.
ghost use Rattle.std.specs.Prelude.{◌≡◌, ◌↔◌, IsTrue, IfOk, Some};
ghost use Rattle.sf_value.specs.Values.{table_kind};
ghost use Rattle.sf_value.specs.KindView.{key_kind_of};
ghost use Rattle.sf_value.specs.declared.ty.TyRefusal.TheVariants.{TypeTooLarge, Memory};
ghost use Rattle.sf_refusal.specs.Refusals.{broken};
ghost use Rattle.sf_refusal.specs.declared.rule.Rule.TheVariants.{TypeTooLarge as LargeRule};
ghost use Rattle.sf_refusal.specs.declared.refusal.Refusal.TheVariants.{Memory as NoMemory};
ghost use Rattle.sf_operator.specs.Kinds.{kind_of_keys};
ghost use Rattle.sf_operator.specs.Breaches.{AnswersKind};

use sf_refusal::{Refusal, Rule, Spot};
use sf_value::{KeyType, Ty, TyRefusal, same_type};
use std::alloc::{AllocError, Global};

/// The types of a collection: that of its keys, and that of the outputs of its members.
#[derive(Drop)]
pub(crate) struct MemberTypes {
    pub(crate) keys: KeyType,
    pub(crate) output: Ty,
}

impl MemberTypes {
    /// These types, that of the outputs copied.
    pub(crate) fn new(alloc: Global, keys: KeyType, output: &Ty) -> Result<MemberTypes, AllocError>
        ensures keys { IfOk result (λ types. types.keys ≡ keys) }
        ensures output { IfOk result (λ types. types.output ≡ output.now) }
    {
        let output = output.clone_in(alloc)?;
        Ok(MemberTypes { keys, output })
    }
}

/// The type of keys, as a type of values.
pub(crate) fn type_of_keys(keys: KeyType) -> Ty
    ensures { result ≡ kind_of_keys (key_kind_of keys) }
{
    match keys {
        KeyType::Int => Ty::int(),
        KeyType::Text => Ty::text(),
    }
}

/// Whether keys are of one type.
pub(crate) fn same_keys(left: KeyType, right: KeyType) -> bool
    ensures { IsTrue result ↔ (key_kind_of left ≡ key_kind_of right) }
{
    match (left, right) {
        (KeyType::Int, KeyType::Int) => true,
        (KeyType::Text, KeyType::Text) => true,
        (KeyType::Int, KeyType::Text) => false,
        (KeyType::Text, KeyType::Int) => false,
    }
}

/// Whether members have keys of this type, and outputs of that type.
pub(crate) fn are_members(types: &MemberTypes, keys: KeyType, output: &Ty) -> bool
    ensures { IsTrue result ↔ (table_kind (key_kind_of types.now.keys) types.now.output ≡ table_kind (key_kind_of keys) output.now) }
{
    same_keys(types.keys, keys) && same_type(&types.output, output)
}

/// The refusal for a type that is not made: `TypeTooLarge` at the spot, or `Memory`.
fn not_made(why: TyRefusal, at: Spot) -> Refusal
    ensures large { why ≡ TypeTooLarge → result ≡ broken LargeRule at }
    ensures memory { why ≡ Memory → result ≡ NoMemory }
{
    match why {
        TyRefusal::TypeTooLarge => Refusal::broken(Rule::TypeTooLarge, at),
        TyRefusal::Memory => Refusal::Memory,
    }
}

/// The type of the tables of members with these types. Refused at the spot with `TypeTooLarge`, and with `Memory`.
pub(crate) fn table_type(alloc: Global, types: &MemberTypes, at: Spot) -> Result<Ty, Refusal>
    ensures { AnswersKind (Some (table_kind (key_kind_of types.now.keys) types.now.output)) at result }
{
    match Ty::table(alloc, types.keys, types.output.clone_in(alloc)?) {
        Ok(table) => Ok(table),
        Err(why) => Err(not_made(why, at)),
    }
}
