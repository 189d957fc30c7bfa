//! What is said of types beside those that are wanted.
ghost use Rattle.std.specs.Prelude.{◌≡◌, ◌⊎◌, Ok, Some, OnOk, IfOk, IfErr};
ghost use Rattle.sf_value.specs.Values.{table_kind};
ghost use Rattle.sf_value.specs.KindView.{key_kind_of};
ghost use Rattle.sf_operator.specs.Kinds.{kind_of_keys};
ghost use Rattle.sf_differ.specs.declared.blame.Blame.TheVariants.{Silent, Memory};
ghost use Rattle.sf_differ.specs.Differences.{IsOther, Explains};

use crate::member_types::{MemberTypes, are_members, table_type, type_of_keys};
use sf_differ::{Blame, Wanted, suited};
use sf_refusal::{Refusal, Spot};
use sf_value::{KeyType, Ty};
use std::alloc::Global;

/// What was answered. Nothing is said of what is refused.
pub(crate) fn answered<T: Drop>(answer: Result<T, Refusal>) -> Result<T, Blame>
    ensures ok { IfOk result (λ t. answer ≡ Ok t) }
    ensures err { IfErr result (λ b. (b ≡ Silent) ⊎ (b ≡ Memory)) }
{
    match answer {
        Ok(value) => Ok(value),
        Err(Refusal::Memory) => Err(Blame::Memory),
        Err(Refusal::Broken(_)) => Err(Blame::Silent),
    }
}

/// Nothing where a type is the one that is wanted; else what differs, at the spot.
pub(crate) fn suits_type(alloc: Global, found: &Ty, wanted: &Ty, spot: Spot) -> Result<(), Blame>
    ensures ok { OnOk result (found.now ≡ wanted.now) }
    ensures err { IfErr result (λ b. Explains (IsOther (Some (Wanted.Exactly wanted.now)) spot found.now) b) }
{
    let exactly = Wanted::Exactly(wanted.clone_in(alloc)?);
    suited(alloc, found, Some(exactly), spot)
}

/// Nothing where a type is that of the keys of members; else what differs, at the spot.
pub(crate) fn suits_keys(
    alloc: Global,
    found: &Ty,
    members: &MemberTypes,
    spot: Spot,
) -> Result<(), Blame>
    ensures ok { OnOk result (found.now ≡ kind_of_keys (key_kind_of members.now.keys)) }
    ensures err { IfErr result (λ b. Explains (IsOther (Some (Wanted.Exactly (kind_of_keys (key_kind_of members.now.keys)))) spot found.now) b) }
{
    suits_type(alloc, found, &type_of_keys(members.keys), spot)
}

/// Nothing where members have keys of this type and outputs of that; else how their tables differ, at the spot.
pub(crate) fn suits_members(
    alloc: Global,
    found: &MemberTypes,
    keys: KeyType,
    output: &Ty,
    spot: Spot,
) -> Result<(), Blame>
    ensures ok { OnOk result (table_kind (key_kind_of found.now.keys) found.now.output ≡ table_kind (key_kind_of keys) output.now) }
    ensures err { IfErr result (λ b. Explains (IsOther (Some (Wanted.Exactly (table_kind (key_kind_of keys) output.now))) spot (table_kind (key_kind_of found.now.keys) found.now.output)) b) }
{
    if are_members(found, keys, output) {
        return Ok(());
    }
    let wanted = MemberTypes::new(alloc, keys, output)?;
    let table = answered(table_type(alloc, found, spot))?;
    let other = answered(table_type(alloc, &wanted, spot))?;
    suits_type(alloc, &table, &other, spot)
}
