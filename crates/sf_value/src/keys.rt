//! The keys of tables.
ghost use Rattle.std.specs.Prelude.{◌≡◌, [], ◌∷◌, ◌++◌, map, length, not, IfOk, IfErr, IfSome, MatchOption, None, Some, if◌then◌else◌};
ghost use Rattle.std.specs.List.{list_any, remove};
ghost use Rattle.sf_value.specs.Keys.{key_of, equal_keys, key_index, AreDifferentKeys};

use crate::equal::same_key;
use crate::index::Index;
use crate::value::Key;
use std::alloc::{AllocError, Global};
use std::marker::Model;

/// Up to so many keys are looked through one after another. More have an index.
const FEW: usize = 64;

/// Different keys in an order. Where there are many, a key is found in logarithmic time, whatever the keys are.
#[derive(Drop)]
pub struct Keys {
    list: Vec<Key>,
    // the same keys, where there are many
    index: Option<Index>,
}

impl Model for Keys {
    ghost use Rattle.std.specs.Prelude.{◌≡◌, List, map, IfSome};
    ghost use Rattle.sf_value.specs.Values.{KeyData};
    ghost use Rattle.sf_value.specs.Keys.{key_of, AreDifferentKeys};

    ghost Value = { List KeyData };

    ghost view = { λ a. map key_of a.list.items };

    ghost invariant = { λ a. AreDifferentKeys (map key_of a.list.items) × IfSome a.index (λ ks. ks ≡ map key_of a.list.items) };
}

impl Keys {
    /// No keys. It takes no memory.
    pub fn new(alloc: Global) -> Keys
        ensures { result ≡ [] }
    {
        Keys {
            list: Vec::new(alloc),
            index: None,
        }
    }

    /// How many keys there are.
    pub fn len(&self) -> usize
        ensures { result ≡ length self.now }
    {
        self.list.len()
    }

    /// The keys, in order.
    pub fn all(&self) -> &[Key]
        ensures keys { map key_of result.now ≡ self.now }
        ensures different { AreDifferentKeys self.now }
    {
        &self.list
    }

    /// The place of a key, from 0, found in logarithmic time where there are many.
    pub fn place(&self, key: &Key) -> Option<usize>
        ensures { result ≡ key_index (key_of key.now) self.now }
    {
        match &self.index {
            Some(index) => index.place(key),
            None => place_among(&self.list, key),
        }
    }

    /// Puts a key behind the others, where it is none of them, and says whether it is.
    ///
    /// The error is a want of memory, or too many owners of a text; the keys are as they were.
    pub fn push(&mut self, key: Key) -> Result<bool, AllocError>
        ensures added { IfOk result (λ added. added ≡ not (list_any (equal_keys (key_of key)) self.old)) }
        ensures keys { IfOk result (λ added. self.new ≡ (if added then self.old ++ key_of key ∷ [] else self.old)) }
        ensures kept { IfErr result (λ _. self.new ≡ self.old) }
    {
        self.list.reserve(1)?;
        let alloc = *self.list.allocator();
        if !note_new(alloc, &mut self.index, &self.list, &key)? {
            return Ok(false);
        }
        self.list.push_reserved(key);
        Ok(true)
    }

    /// Takes the key at a place out, where there is one. Those behind it move up.
    pub fn remove(&mut self, place: usize)
        ensures { self.new ≡ remove self.old place }
    {
        if place >= self.list.len() {
            return;
        }
        self.list.remove(place);
        remove_from(&mut self.index, place);
    }

    /// The same keys. The error is a want of memory, or too many owners of a text.
    pub fn clone_in(&self, alloc: Global) -> Result<Keys, AllocError>
        ensures { IfOk result (λ same. same ≡ self.now) }
    {
        let list = copied(alloc, &self.list)?;
        let index = match &self.index {
            Some(index) => Some(index.clone_in(alloc)?),
            None => None,
        };
        Ok(Keys { list, index })
    }
}

// The same keys.
fn copied(alloc: Global, keys: &[Key]) -> Result<Vec<Key>, AllocError>
    ensures { IfOk result (λ ks. map key_of ks.items ≡ map key_of keys.now) }
{
    let mut all = Vec::with_capacity(alloc, keys.len())?;
    for key in keys {
        let own = key.clone_in(alloc)?;
        all.push(own)?;
    }
    Ok(all)
}

// The first place of a key.
fn place_among(keys: &[Key], key: &Key) -> Option<usize>
    ensures { result ≡ key_index (key_of key.now) (map key_of keys.now) }
{
    for at in 0..keys.len() {
        if same_key(&keys[at], key) {
            return Some(at);
        }
    }
    None
}

// The index of different keys.
#[cold]
#[inline(never)]
fn indexed(alloc: Global, keys: &[Key]) -> Result<Index, AllocError>
    requires { AreDifferentKeys (map key_of keys.now) }
    ensures { IfOk result (λ index. index ≡ map key_of keys.now) }
{
    let mut index = Index::new(alloc);
    for key in keys {
        index.insert(key)?;
    }
    Ok(index)
}

// Whether a key is none of these. Their index, which many have, then has it too.
fn note_new(
    alloc: Global,
    index: &mut Option<Index>,
    keys: &[Key],
    key: &Key,
) -> Result<bool, AllocError>
    requires different { AreDifferentKeys (map key_of keys.now) }
    requires same { IfSome index.old (λ ks. ks ≡ map key_of keys.now) }
    ensures added { IfOk result (λ added. added ≡ not (list_any (equal_keys (key_of key.now)) (map key_of keys.now))) }
    ensures same { IfOk result (λ added. IfSome index.new (λ ks. ks ≡ (if added then map key_of keys.now ++ key_of key.now ∷ [] else map key_of keys.now))) }
    ensures kept { IfErr result (λ _. index.new ≡ index.old) }
{
    match index {
        Some(index) => index.insert(key),
        None if keys.len() < FEW => Ok(place_among(keys, key).is_none()),
        None => {
            let mut made = indexed(alloc, keys)?;
            let added = made.insert(key)?;
            *index = Some(made);
            Ok(added)
        }
    }
}

// Takes the key at a place out of the index, where there is one.
fn remove_from(index: &mut Option<Index>, place: usize)
    ensures { MatchOption index.old (index.new ≡ None) (λ ks. index.new ≡ Some (remove ks place)) }
{
    if let Some(index) = index {
        index.remove(place);
    }
}
