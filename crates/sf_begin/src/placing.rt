//! Where members stand among others.
ghost use Rattle.std.specs.Prelude.{◌≡◌, ◌<◌, [], length, set, Some, IfOk};
ghost use Rattle.std.specs.List.{remove};
ghost use Rattle.sf_value.specs.Values.{KeyData};
ghost use Rattle.sf_value.specs.Keys.{key_of, key_index};
ghost use Rattle.sf_mean.specs.Lives.{Members, Process};
ghost use Rattle.sf_mean.specs.Collections.{add, drop};
ghost use Rattle.sf_state.specs.Standing.{Stands};
ghost use Rattle.sf_state.specs.Machine.{Machine};
ghost use Rattle.sf_begin.specs.Collecting.{HasMembers};

use sf_state::{Gathered, State, own_states};
use sf_value::{Key, Keys};
use std::alloc::{AllocError, Global};
use std::rc::Rc;

/// Members before their first sample with one more: at the end, or in the place of the one under its key.
pub(crate) fn with_member(
    alloc: Global,
    members: Gathered,
    key: Key,
    state: State,
) -> Result<Gathered, AllocError>
    ensures { IfOk result (λ more. (μ : Machine) (ms : Members) (P : Process) → HasMembers μ members ms → Stands μ state P [] → HasMembers μ more (add (key_of key) P ms)) }
{
    let Gathered { keys, states, wait } = members;
    let mut own = own_states(alloc, states)?;
    match keys.place(&key) {
        Some(at) => {
            put(&mut own, at, state);
            let states = Rc::new(alloc, own)?;
            Ok(Gathered { keys, states, wait })
        }
        None => {
            let mut more = own_keys(alloc, keys)?;
            more.push(key)?;
            own.push(state)?;
            let keys = Rc::new(alloc, more)?;
            let states = Rc::new(alloc, own)?;
            Ok(Gathered { keys, states, wait })
        }
    }
}

/// Members before their first sample without the one under a key, if there is one.
pub(crate) fn without_member(
    alloc: Global,
    members: Gathered,
    key: &Key,
) -> Result<Gathered, AllocError>
    ensures { IfOk result (λ left. (μ : Machine) (ms : Members) → HasMembers μ members ms → HasMembers μ left (drop (key_of key.now) ms)) }
{
    match members.keys.place(key) {
        Some(at) => without_place(alloc, members, at),
        None => Ok(members),
    }
}

// Members without the one at a place.
fn without_place(alloc: Global, members: Gathered, at: usize) -> Result<Gathered, AllocError>
    ensures { IfOk result (λ left. (μ : Machine) (k : KeyData) (ms : Members) → key_index k members.keys.value ≡ Some at → HasMembers μ members ms → HasMembers μ left (drop k ms)) }
{
    let Gathered { keys, states, wait } = members;
    let mut less = own_keys(alloc, keys)?;
    let mut own = own_states(alloc, states)?;
    less.remove(at);
    take_out(&mut own, at);
    let keys = Rc::new(alloc, less)?;
    let states = Rc::new(alloc, own)?;
    Ok(Gathered { keys, states, wait })
}

/// Puts an item in the place of another, if one is there.
pub fn put<T: Drop>(items: &mut Vec<T>, at: usize, item: T)
    ensures { items.new.items ≡ set items.old.items at item }
{
    if at < items.len() {
        items[at] = item;
    }
}

/// Takes the item at a place out, if one is there.
pub fn take_out<T: Drop>(items: &mut Vec<T>, at: usize)
    ensures { items.new.items ≡ remove items.old.items at }
{
    if at < items.len() {
        items.remove(at);
    }
}

// Keys as their owner's alone: where they were shared, a copy.
fn own_keys(alloc: Global, keys: Rc<Keys>) -> Result<Keys, AllocError>
    ensures { IfOk result (λ own. own ≡ keys.value) }
{
    match Rc::try_unwrap(keys) {
        Ok(own) => Ok(own),
        Err(shared) => shared.clone_in(alloc),
    }
}
