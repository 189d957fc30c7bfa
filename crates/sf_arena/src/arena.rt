//! The arena.
ghost use Rattle.std.specs.Prelude.{◌≡◌, ◌<◌, ◌≤◌, ◌↔◌, [], IfOk, OnErr, IfSome, IfNone, length, slice_index_or};
ghost use Rattle.sf_arena.specs.Items.{Added};
ghost use Rattle.sf_arena.specs.Shallow.{AreShallow};
ghost use Rattle.sf_arena.specs.declared.arena.ArenaRefusal.TheVariants.{Memory};

use crate::entry::Entry;
use sf_refusal::Spot;
use std::alloc::{AllocError, AllocFailed, Global};
use thiserror::Error;

/// Why an arena took no node.
#[derive(Clone, Copy, Debug, PartialEq, Eq, Error)]
pub enum ArenaRefusal {
    /// 100,000 nodes are there.
    #[error("too many nodes")]
    TooMany,
    /// More than 64 nodes would stand one inside another.
    #[error("too many nodes one inside another")]
    TooDeep,
    /// Memory was wanting.
    #[error("out of memory")]
    Memory,
}

impl<T: Drop> From<AllocFailed<T>> for ArenaRefusal {
    ghost from_gives = { λ _ e. e ≡ Memory };

    fn from(_error: AllocFailed<T>) -> ArenaRefusal {
        ArenaRefusal::Memory
    }
}

/// At most 100,000 nodes, numbered from 0 in the order in which they were added, each with its depth, at most 64, and
/// its place in a text.
#[derive(Drop)]
pub struct Arena<N> {
    entries: Vec<Entry<N>>,
    ghost few: { length entries.items ≤ 100000 },
    ghost shallow: { AreShallow entries.items },
}

impl<N> Arena<N> {
    ghost use Rattle.sf_arena.specs.Arenas.{entries_of};

    /// No node.
    #[tactic(auto, unfolding(crate::specs::Arenas::entries_of))]
    pub fn new(alloc: Global) -> Arena<N>
        ensures { entries_of result ≡ [] }
    {
        Arena {
            entries: Vec::new(alloc),
        }
    }

    /// How many nodes there are.
    #[tactic(auto, unfolding(crate::specs::Arenas::entries_of))]
    pub fn len(&self) -> usize
        ensures { result ≡ length (entries_of self.now) }
    {
        self.entries.len()
    }

    /// The node with this number, with its depth and its place; none where the arena does not hold it.
    #[tactic(auto, unfolding(crate::specs::Arenas::entries_of))]
    pub fn get(&self, number: usize) -> Option<&Entry<N>>
        ensures found { IfSome result (λ entry. (none : _) → slice_index_or (entries_of self.now) number none ≡ entry.now) }
        ensures within { IfSome result (λ _. number < length (entries_of self.now)) }
        ensures shallow { IfSome result (λ entry. entry.now.depth ≤ 64) }
        ensures absent { IfNone result (length (entries_of self.now) ≤ number) }
    {
        self.entries.get(number)
    }
}

impl<N: Drop> Arena<N> {
    ghost use Rattle.sf_arena.specs.Arenas.{entries_of};

    /// Adds a node with its depth and its place, and answers its number.
    ///
    /// Refused with `TooMany` where 100,000 nodes are there, then with `TooDeep` where its depth is above 64, and with
    /// `Memory`. A refused call changes nothing.
    #[tactic(auto, unfolding(crate::specs::Arenas::entries_of))]
    pub fn add(&mut self, node: N, depth: u32, spot: Spot) -> Result<usize, ArenaRefusal>
        ensures ok { IfOk result (Added (entries_of self.old) (entries_of self.new) (record { node = node; depth = depth; spot = spot })) }
        ensures many { result ≡ Err ArenaRefusal.TooMany ↔ 100000 ≤ length (entries_of self.old) }
        ensures deep { result ≡ Err ArenaRefusal.TooDeep ↔ (length (entries_of self.old) < 100000) × (64 < depth) }
        ensures err { OnErr result (entries_of self.new ≡ entries_of self.old) }
    {
        let number = self.entries.len();
        if 100_000 <= number {
            return Err(ArenaRefusal::TooMany);
        }
        if 64 < depth {
            return Err(ArenaRefusal::TooDeep);
        }
        self.entries.push(Entry { node, depth, spot })?;
        Ok(number)
    }
}

impl<N: Copy> Arena<N> {
    ghost use Rattle.sf_arena.specs.Arenas.{entries_of};

    /// A copy, with the same nodes under the same numbers.
    #[tactic(auto, unfolding(crate::specs::Arenas::entries_of))]
    pub fn clone_in(&self, alloc: Global) -> Result<Arena<N>, AllocError>
        ensures { IfOk result (λ copy. entries_of copy ≡ entries_of self.now) }
    {
        let mut entries = Vec::new(alloc);
        entries.extend_from_slice(&self.entries)?;
        Ok(Arena { entries })
    }
}
