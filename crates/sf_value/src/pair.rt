//! The halves of pairs.
ghost use Rattle.std.specs.Prelude.{◌≡◌, IfOk};
ghost use Rattle.sf_value.specs.Values.{pair, first_of, second_of};

use crate::value::{Form, Pair, Value};
use std::alloc::{AllocError, Global};
use std::rc::Rc;

// A copy of both halves, which shares what they are made of. It takes no memory.
impl Clone for Pair {
    ghost is_clone = { λ pair copy. copy ≡ pair };

    #[cold]
    #[inline(never)]
    fn clone(&self) -> Result<Pair, AllocError> {
        let first = self.first.shared()?;
        let second = self.second.shared()?;
        Ok(Pair { first, second })
    }
}

impl Value {
    /// Both halves of a pair: moved out of its node, or copies where the node has another owner; a value that is no pair
    /// stands for both. It takes no memory.
    #[inline(always)]
    pub fn into_halves(self, alloc: Global) -> Result<(Value, Value), AllocError>
        ensures first { IfOk result (λ halves. halves.0 ≡ first_of self) }
        ensures second { IfOk result (λ halves. halves.1 ≡ second_of self) }
    {
        let Pair { first, second } = match self.into_form() {
            Form::Pair(node) => match Rc::try_unwrap(node) {
                Ok(halves) => halves,
                Err(shared) => (*shared).clone()?,
            },
            form => doubled(alloc, Value { form })?,
        };
        Ok((first, second))
    }

    /// The node of a pair, which may be shared; a value that is no pair stands for both halves, in a new node.
    #[inline(always)]
    pub fn into_pair(self, alloc: Global) -> Result<Rc<Pair>, AllocError>
        ensures first { IfOk result (λ node. node.value.first ≡ first_of self) }
        ensures second { IfOk result (λ node. node.value.second ≡ second_of self) }
    {
        match self.into_form() {
            Form::Pair(node) => Ok(node),
            form => in_new_node(alloc, Value { form }),
        }
    }
}

// A value in place of both halves.
#[cold]
#[inline(never)]
fn doubled(alloc: Global, value: Value) -> Result<Pair, AllocError>
    ensures first { IfOk result (λ halves. halves.first ≡ value) }
    ensures second { IfOk result (λ halves. halves.second ≡ value) }
{
    let first = value.clone_in(alloc)?;
    Ok(Pair {
        first,
        second: value,
    })
}

// A value in place of both halves, in a new node.
#[cold]
#[inline(never)]
fn in_new_node(alloc: Global, value: Value) -> Result<Rc<Pair>, AllocError>
    ensures first { IfOk result (λ node. node.value.first ≡ value) }
    ensures second { IfOk result (λ node. node.value.second ≡ value) }
{
    Ok(Rc::new(alloc, doubled(alloc, value)?)?)
}
