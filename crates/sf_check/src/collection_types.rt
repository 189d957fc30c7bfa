//! The types of collections that names stand for.

use sf_value::{KeyType, Ty};

/// The types of a collection: that of its keys, and those of the inputs and of the outputs of its members.
#[derive(Clone, Copy)]
pub(crate) struct CollectionTypes<'a> {
    pub(crate) keys: KeyType,
    pub(crate) from: &'a Ty,
    pub(crate) to: &'a Ty,
}
