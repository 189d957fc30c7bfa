//! The index of keys.
ghost use Rattle.std.specs.Prelude.{◌≡◌, [], ◌∷◌, ◌++◌, length, not, is_some, IfOk, IfErr, nat_eq, if◌then◌else◌};
ghost use Rattle.std.specs.List.{list_any, remove};
ghost use Rattle.std.specs.Option.{unwrap_or};
ghost use Rattle.std.specs.BTreeMap.{get, insert_entry};
ghost use Rattle.sf_value.specs.Keys.{key_of, equal_keys, key_index, AreDifferentKeys};
ghost use Rattle.sf_value.specs.Indexes.{moved_up, without_place};

use crate::value::Key;
use std::alloc::{AllocError, Global};
use std::collections::BTreeMap;
use std::collections::btree_map::Entry;
use std::marker::Model;
use std::rc::Rc;

/// The places of different keys in an order. A key is found in logarithmic time, whatever the keys are.
#[derive(Drop)]
pub(crate) struct Index {
    // the place of each key in the order, from 0
    numbers: BTreeMap<i64, usize>,
    texts: BTreeMap<Rc<String>, usize>,
}

impl Model for Index {
    ghost use Rattle.std.specs.Prelude.{List};
    ghost use Rattle.sf_value.specs.Values.{KeyData};

    ghost Value = { List KeyData };

    ghost use Rattle.sf_value.specs.Indexes.{placed, keys_by_place, IsIndex};

    ghost view = { λ a. keys_by_place (placed a.numbers.entries a.texts.entries) };

    ghost invariant = { λ a. IsIndex (placed a.numbers.entries a.texts.entries) };
}

impl Index {
    /// No keys.
    pub(crate) fn new(alloc: Global) -> Index
        ensures { result ≡ [] }
    {
        Index {
            numbers: BTreeMap::new(alloc),
            texts: BTreeMap::new(alloc),
        }
    }

    /// How many keys there are.
    pub(crate) fn len(&self) -> usize
        ensures len { result ≡ length self.now }
        ensures different { AreDifferentKeys self.now }
    {
        self.numbers.len() + self.texts.len()
    }

    /// Puts a key behind the others, where it is none of them, and says whether it is.
    pub(crate) fn insert(&mut self, key: &Key) -> Result<bool, AllocError>
        ensures added { IfOk result (λ added. added ≡ not (list_any (equal_keys (key_of key.now)) self.old)) }
        ensures keys { IfOk result (λ added. self.new ≡ (if added then self.old ++ key_of key.now ∷ [] else self.old)) }
        ensures kept { IfErr result (λ _. self.new ≡ self.old) }
    {
        let place = self.len();
        match key {
            Key::Int(n) => Ok(place_of(&mut self.numbers, *n, place)? == place),
            Key::Text(s) => Ok(place_of(&mut self.texts, s.clone()?, place)? == place),
        }
    }

    /// The same keys. The error is a want of memory, or too many owners of a text.
    pub(crate) fn clone_in(&self, _alloc: Global) -> Result<Index, AllocError>
        ensures { IfOk result (λ same. same ≡ self.now) }
    {
        let numbers = self.numbers.clone()?;
        let texts = self.texts.clone()?;
        Ok(Index { numbers, texts })
    }

    /// Takes the key at a place out, where there is one. Those behind it move up.
    pub(crate) fn remove(&mut self, place: usize)
        ensures { self.new ≡ remove self.old place }
    {
        take_out(&mut self.numbers, place);
        take_out(&mut self.texts, place);
    }

    /// The place of a key, from 0.
    pub(crate) fn place(&self, key: &Key) -> Option<usize>
        ensures { result ≡ key_index (key_of key.now) self.now }
    {
        match key {
            Key::Int(n) => self.numbers.get(n).copied(),
            Key::Text(s) => self.texts.get(s).copied(),
        }
    }
}

/// The place of a key, which is this one where the key is new. Then it is put there.
#[inline]
fn place_of<K: Ord + Drop>(
    places: &mut BTreeMap<K, usize>,
    key: K,
    place: usize,
) -> Result<usize, AllocError>
    ensures place { IfOk result (λ p. p ≡ unwrap_or (get K.cmp places.old key) place) }
    ensures places { IfOk result (λ _. places.new.entries ≡ (if is_some (get K.cmp places.old key) then places.old.entries else insert_entry K.cmp places.old.entries key place)) }
    ensures kept { IfErr result (λ _. places.new.entries ≡ places.old.entries) }
{
    Ok(*places.entry(key)?.or_insert(place))
}

/// Takes the key at a place out. The places behind it are one less.
fn take_out<K: Ord + Drop>(places: &mut BTreeMap<K, usize>, place: usize)
    ensures { places.new.entries ≡ without_place place places.old.entries }
{
    places.retain(|_, at| is_left(at, place));
}

/// Whether a place isn't the one that is taken out. One behind it is one less.
fn is_left(at: &mut usize, place: usize) -> bool
    ensures left { result ≡ not (nat_eq at.old place) }
    ensures moved { at.new ≡ moved_up place at.old }
{
    if *at > place {
        *at -= 1;
        return true;
    }
    *at != place
}
