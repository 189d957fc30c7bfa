//! Arguments of calls.
ghost use Rattle.std.specs.Prelude.{◌≡◌, IfOk};

use crate::node::Argument;
use std::alloc::{AllocError, Global};
use std::marker::Model;

/// The arguments of one call, in order.
#[derive(Drop)]
pub(crate) struct StoredArguments {
    items: Vec<Argument>,
}

impl Model for StoredArguments {
    ghost use Rattle.std.specs.Prelude.{List};
    ghost use Rattle.sf_term.specs.declared.node.Argument.{Argument};

    ghost Value = { List Argument };

    ghost view = { λ a. a.items.items };
}

impl StoredArguments {
    /// These arguments.
    pub(crate) fn new(items: Vec<Argument>) -> StoredArguments
        ensures { result ≡ items.items }
    {
        StoredArguments { items }
    }

    /// The arguments.
    pub(crate) fn items(&self) -> &[Argument]
        ensures { result.now ≡ self.now }
    {
        &self.items
    }

    fn clone_in(&self, alloc: Global) -> Result<StoredArguments, AllocError>
        ensures { IfOk result (λ copy. copy ≡ self.now) }
    {
        let mut items = Vec::new(alloc);
        items.extend_from_slice(&self.items)?;
        Ok(StoredArguments::new(items))
    }
}

/// Copies of arguments, call by call.
pub(crate) fn clone_lists(
    alloc: Global,
    lists: &[StoredArguments],
) -> Result<Vec<StoredArguments>, AllocError>
    ensures { IfOk result (λ copies. copies.items ≡ lists.now) }
{
    let mut copies = Vec::new(alloc);
    for list in lists {
        copies.push(list.clone_in(alloc)?)?;
    }
    Ok(copies)
}
