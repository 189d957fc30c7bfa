//! The types of processes.

use sf_value::Ty;

/// The types of a process: that of its inputs and that of its outputs.
#[derive(Clone, Copy)]
pub(crate) struct ProcessTypes<'a> {
    pub(crate) from: &'a Ty,
    pub(crate) to: &'a Ty,
}
