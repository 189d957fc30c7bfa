//! Collections.
ghost use Rattle.std.specs.Prelude.{◌≡◌, IfOk};
ghost use Rattle.sf_term.specs.Entries.{collections_in};

use crate::node::TermId;
use sf_expr::{ExprId, FunctionId, NameId, Spot};
use sf_value::{KeyType, Ty};
use std::alloc::{AllocError, Global};
use std::rc::Rc;

/// A collection in its program.
#[derive(Clone, Copy, Debug, PartialEq, Eq)]
pub struct CollectionId(pub(crate) usize);

/// A collection, which stands at a place of the text; its parts are collections, and ids of its program.
#[cycle(collection)]
pub enum CollExpr {
    /// `empty b`: no members, with the type of keys and the type of the values that members would give.
    Empty(KeyType, Ty, Spot),
    /// `use ks`: the members of a name, which stands at a place of its own.
    Used(NameId, Spot, Spot),
    /// `add(c, e, t)`: a collection with a term under a key.
    Added(Rc<CollExpr>, ExprId, TermId, Spot),
    /// `drop(c, e)`: a collection without what stands under a key.
    Dropped(Rc<CollExpr>, ExprId, Spot),
    /// `keep(c, f)`: the members of a collection whose keys a function keeps.
    Kept(Rc<CollExpr>, FunctionId, Spot),
    /// `if e then c else d`: one of two collections.
    Chosen(ExprId, Rc<CollExpr>, Rc<CollExpr>, Spot),
}

impl Drop for CollExpr {
    #[cycle(collection)]
    fn drop(self) {
        match self {
            CollExpr::Empty(_, values, _) => drop(values),
            CollExpr::Used(_, _, _) => {}
            CollExpr::Added(members, _, _, _) => drop(members),
            CollExpr::Dropped(members, _, _) => drop(members),
            CollExpr::Kept(members, _, _) => drop(members),
            CollExpr::Chosen(_, first, second, _) => {
                drop(first);
                drop(second);
            }
        }
    }
}

impl CollExpr {
    ghost use Rattle.std.specs.Prelude.{◌≡◌};
    ghost use Rattle.sf_term.specs.Entries.{collection_spot};

    /// Where it stands in the text.
    pub fn spot(&self) -> Spot
        ensures { result ≡ collection_spot self.now }
    {
        match self {
            CollExpr::Empty(_, _, spot) => *spot,
            CollExpr::Used(_, _, spot) => *spot,
            CollExpr::Added(_, _, _, spot) => *spot,
            CollExpr::Dropped(_, _, spot) => *spot,
            CollExpr::Kept(_, _, spot) => *spot,
            CollExpr::Chosen(_, _, _, spot) => *spot,
        }
    }
}

/// Collections that share what they are made of, one by one. The error is a want of memory, or too many owners.
pub(crate) fn clone_collections(
    alloc: Global,
    collections: &[Rc<CollExpr>],
) -> Result<Vec<Rc<CollExpr>>, AllocError>
    ensures { IfOk result (λ copies. collections_in copies.items ≡ collections_in collections.now) }
{
    let mut copies = Vec::new(alloc);
    for collection in collections {
        copies.push(collection.clone()?)?;
    }
    Ok(copies)
}
