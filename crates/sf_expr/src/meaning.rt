//! What names stand for.
use sf_value::{KeyType, Ty};

/// What a name stands for.
#[derive(Clone, Copy)]
pub enum Meaning<'a> {
    /// A value of a type.
    Value(&'a Ty),
    /// A process, by the type of its inputs and that of its outputs.
    Process(&'a Ty, &'a Ty),
    /// A collection, by the type of its keys, and that of the inputs and that of the outputs of its members.
    Collection(KeyType, &'a Ty, &'a Ty),
}

/// A name with what it stands for.
#[derive(Clone, Copy)]
pub(crate) struct Named<'a> {
    pub(crate) name: &'a str,
    pub(crate) meaning: Meaning<'a>,
}
