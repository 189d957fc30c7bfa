//! What is told of types that do not fit.
ghost use Rattle.std.specs.Prelude.{◌≡◌, ◌++◌, IfOk, IfErr, IfSome, OnOk};
ghost use Rattle.sf_refusal.specs.Refusals.{OrMemory};
ghost use Rattle.sf_grammar.specs.Spelling.{spell_type};
ghost use Rattle.sf_print.specs.Canonical.{text_of};
ghost use Rattle.sf_accept.specs.Explaining.{wanted_needs_two, version_of_difference, wanted_text, difference_text, IsExplained};
ghost use Rattle.sf_accept.specs.Refusals.{IsNoNetwork};

use sf_check::{Difference, Wanted, difference};
use sf_func::{Holds, Registry};
use sf_grammar::Version;
use sf_print::{type_needs_two, type_text};
use sf_refusal::Refusal;
use sf_text::read_network;
use sf_value::Ty;
use std::alloc::{AllocError, Global};

/// Whether a type that is wanted has tables with Text keys.
fn wanted_needs_two(wanted: &Wanted) -> bool
    ensures { result ≡ wanted_needs_two wanted.now }
{
    match wanted {
        Wanted::Exactly(ty) | Wanted::PairWith(ty) => type_needs_two(ty),
        Wanted::Pair | Wanted::Event | Wanted::EventBeside | Wanted::Table | Wanted::Ordered => {
            false
        }
    }
}

/// The first version that has the types of a difference.
fn version_of(difference: &Difference) -> Version
    ensures { result ≡ version_of_difference difference.now }
{
    if type_needs_two(&difference.found) || wanted_needs_two(&difference.wanted) {
        Version::Two
    } else {
        Version::One
    }
}

/// Appends the text of a type in a version.
fn write_type(
    alloc: Global,
    version: Version,
    ty: &Ty,
    text: &mut Vec<u8>,
) -> Result<(), AllocError>
    ensures { OnOk result (text.new.items ≡ text.old.items ++ text_of (spell_type version ty.now)) }
{
    let spelled = type_text(alloc, ty, version)?;
    text.extend_from_slice(spelled.as_slice())
}

/// Appends which types are wanted, in words.
fn write_wanted(
    alloc: Global,
    version: Version,
    wanted: &Wanted,
    text: &mut Vec<u8>,
) -> Result<(), AllocError>
    ensures { OnOk result (text.new.items ≡ text.old.items ++ wanted_text version wanted.now) }
{
    match wanted {
        Wanted::Exactly(ty) => write_type(alloc, version, ty, text),
        Wanted::Pair => text.extend_from_slice(b"a pair"),
        Wanted::PairWith(second) => {
            text.extend_from_slice(b"a pair whose second part is ")?;
            write_type(alloc, version, second, text)?;
            Ok(())
        }
        Wanted::Event => text.extend_from_slice(b"an event"),
        Wanted::EventBeside => text.extend_from_slice(b"a pair of a value and an event"),
        Wanted::Table => text.extend_from_slice(b"a table"),
        Wanted::Ordered => text.extend_from_slice(b"a number or a text"),
    }
}

/// A difference of types as `LINE:COLUMN found TYPE, wanted WHICH`.
pub fn difference_text(alloc: Global, difference: &Difference) -> Result<Vec<u8>, AllocError>
    ensures { IfOk result (λ text. text.items ≡ difference_text difference.now) }
{
    let version = version_of(difference);
    let place = format!(in alloc; "{}", difference.spot)?;
    let mut text = Vec::new(alloc);
    text.extend_from_slice(place.as_bytes())?;
    text.extend_from_slice(b" found ")?;
    write_type(alloc, version, &difference.found, &mut text)?;
    text.extend_from_slice(b", wanted ")?;
    write_wanted(alloc, version, &difference.wanted, &mut text)?;
    Ok(text)
}

/// Where a text is a network that these functions' types and its own do not fit: the type that was found at the place for
/// which `check_text` refuses it, and which are wanted there. `None` is no claim: types may not fit where `difference` is
/// silent. Refused is only what is no text of a network, as `dump_text` refuses it. `Memory` says nothing of the text.
pub fn explain_text(
    alloc: Global,
    net: &[u8],
    functions: &Registry,
) -> Result<Option<Vec<u8>>, Refusal>
    ensures told { IfOk result (λ told. IfSome told (λ text. IsExplained (⟦<Registry as Holds>⟧.types functions.now) net.now text.items)) }
    ensures refused { IfErr result (OrMemory (IsNoNetwork net.now)) }
{
    let program = read_network(alloc, net)?;
    match difference(alloc, &program, functions)? {
        Some(difference) => Ok(Some(difference_text(alloc, &difference)?)),
        None => Ok(None),
    }
}
