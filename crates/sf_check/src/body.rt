//! What a body or an edit is typed by, which a form puts inside a pattern for the payload of an event.

use crate::member_types::MemberTypes;
use sf_expr::PatternId;
use sf_refusal::Spot;
use sf_term::{Editing, TermId};
use sf_value::Ty;

/// A term inside a pattern, with the type of the payloads that the pattern is for, the type of the term's inputs, the type that is
/// wanted of its outputs, and the place of the form that has it.
#[derive(Clone, Copy)]
pub(crate) struct Body<'a> {
    pub(crate) pattern: PatternId,
    pub(crate) payload: &'a Ty,
    pub(crate) term: TermId,
    pub(crate) input: &'a Ty,
    pub(crate) wanted: &'a Ty,
    pub(crate) spot: Spot,
}

/// The edit of a form inside its pattern, with the type of the payloads that the pattern is for, the type of the members' inputs,
/// the types that are wanted of the edit, and the place of the form.
#[derive(Clone, Copy)]
pub(crate) struct Edit<'a> {
    pub(crate) form: Editing,
    pub(crate) payload: &'a Ty,
    pub(crate) input: &'a Ty,
    pub(crate) wanted: &'a MemberTypes,
    pub(crate) spot: Spot,
}
