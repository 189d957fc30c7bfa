//! Types as they are written.
ghost use Rattle.std.specs.Prelude.{◌≡◌, OnOk, IfOk};
ghost use Rattle.sf_value.specs.KindView.{key_kind_of};
ghost use Rattle.sf_grammar.specs.Spelling.{spell_type, spell_keys, spell_key_kind};
ghost use Rattle.sf_print.specs.Canonical.{text_of};
ghost use Rattle.sf_print.specs.Drafts.{append_tokens};

use crate::draft::Draft;
use sf_grammar::Version;
use sf_lex::{Keyword, Symbol};
use sf_value::{KeyType, Ty, TyForm};
use std::alloc::{AllocError, Global};

/// Appends a type.
#[tactic(auto, using(crate::proofs::Putting::tokens_apart))]
pub(crate) fn write_type(ty: &Ty, version: Version, draft: &mut Draft) -> Result<(), AllocError>
    ensures { OnOk result (draft.new ≡ append_tokens draft.old (spell_type version ty.now)) }
{
    match ty.form() {
        TyForm::Unit => draft.keyword(Keyword::Unit),
        TyForm::Bool => draft.keyword(Keyword::Bool),
        TyForm::Int => draft.keyword(Keyword::Int),
        TyForm::Text => draft.keyword(Keyword::Text),
        TyForm::Pair(first, second) => {
            draft.symbol(Symbol::Open)?;
            write_type(first, version, draft)?;
            draft.symbol(Symbol::Comma)?;
            write_type(second, version, draft)?;
            draft.symbol(Symbol::Close)
        }
        TyForm::Event(payload) => {
            draft.keyword(Keyword::Event)?;
            write_type(payload, version, draft)
        }
        TyForm::Table(keys, values) => {
            draft.keyword(Keyword::Table)?;
            write_keys(*keys, version, draft)?;
            write_type(values, version, draft)
        }
    }
}

/// Appends what the version writes of the type of keys.
pub(crate) fn write_keys(
    keys: KeyType,
    version: Version,
    draft: &mut Draft,
) -> Result<(), AllocError>
    ensures { OnOk result (draft.new ≡ append_tokens draft.old (spell_keys version (key_kind_of keys))) }
{
    match (version, keys) {
        (Version::One, _) => Ok(()),
        (Version::Two, KeyType::Int) => draft.keyword(Keyword::Int),
        (Version::Two, KeyType::Text) => draft.keyword(Keyword::Text),
    }
}

/// Appends what the version writes of the type of a collection's keys.
pub(crate) fn write_key_kind(
    keys: KeyType,
    version: Version,
    draft: &mut Draft,
) -> Result<(), AllocError>
    ensures { OnOk result (draft.new ≡ append_tokens draft.old (spell_key_kind version (key_kind_of keys))) }
{
    match (version, keys) {
        (Version::One, _) => Ok(()),
        (Version::Two, KeyType::Int) => {
            draft.keyword(Keyword::Int)?;
            draft.symbol(Symbol::Colon)
        }
        (Version::Two, KeyType::Text) => {
            draft.keyword(Keyword::Text)?;
            draft.symbol(Symbol::Colon)
        }
    }
}

/// The text of a type, as a text of a version has it.
pub fn type_text(alloc: Global, ty: &Ty, version: Version) -> Result<Vec<u8>, AllocError>
    ensures { IfOk result (λ text. text.items ≡ text_of (spell_type version ty.now)) }
{
    let mut draft = Draft::new(alloc);
    write_type(ty, version, &mut draft)?;
    Ok(draft.into_bytes())
}
