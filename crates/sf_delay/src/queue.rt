//! Inputs that wait for their turn, and how copies share them.
ghost use Rattle.std.specs.Prelude.{◌≡◌, ◌+◌, ◌-◌, ◌≤◌, [], ◌∷◌, ◌++◌, reverse, IfOk, OnOk};
ghost use Rattle.sf_delay.specs.Queues.{stacked};

use sf_value::Value;
use std::alloc::{AllocError, Global};
use std::collections::VecDeque;
use std::mem;
use std::rc::Rc;

/// An input that isn't old enough yet.
#[derive(Drop)]
pub struct Pending {
    /// The input.
    pub value: Value,
    /// The milliseconds after which it takes the place of the value before it.
    pub after: u64,
}

impl Pending {
    // The milliseconds that are left to its turn, so many after the turn before it.
    pub(crate) fn left(&self, passed: u64) -> u64
        ensures left { result ≡ self.now.after - passed }
        ensures fits { passed + result ≤ u64.MAX }
    {
        self.after.saturating_sub(passed)
    }

    // A copy; the error is a want of memory.
    fn clone_in(&self, alloc: Global) -> Result<Pending, AllocError>
        ensures { IfOk result (λ copy. copy ≡ self.now) }
    {
        let value = self.value.clone_in(alloc)?;
        Ok(Pending {
            value,
            after: self.after,
        })
    }
}

/// Inputs one upon another, which copies share.
#[cycle(stack)]
pub enum Stack {
    /// None.
    Empty,
    /// One on top of others. Its node may be shared.
    Top(Rc<Layer>),
}

/// An input on top of others.
#[derive(Drop)]
#[cycle(stack)]
pub struct Layer {
    /// The input.
    pub pending: Pending,
    /// Those below it.
    pub below: Stack,
}

// A stack may be high: it is let go of in a loop, down to what something else has.
impl Drop for Stack {
    fn drop(mut self) {
        loop {
            match self {
                Stack::Empty => return,
                Stack::Top(layer) => match Rc::into_inner(layer) {
                    Some(own) => {
                        let Layer { pending, below } = own;
                        drop(pending);
                        self = below;
                    }
                    None => return,
                },
            }
        }
    }
}

impl Stack {
    // The same inputs, shared. The error is too many owners of one node.
    fn share(&self) -> Result<Stack, AllocError>
        ensures { IfOk result (λ same. stacked same ≡ stacked self.now) }
    {
        match self {
            Stack::Empty => Ok(Stack::Empty),
            Stack::Top(layer) => {
                let same = layer.clone()?;
                Ok(Stack::Top(same))
            }
        }
    }

    // One more on top.
    fn with(self, alloc: Global, pending: Pending) -> Result<Stack, AllocError>
        ensures { IfOk result (λ more. stacked more ≡ pending ∷ stacked self) }
    {
        let layer = Layer {
            pending,
            below: self,
        };
        Ok(Stack::Top(Rc::new(alloc, layer)?))
    }

    // The same inputs, from the bottom to the top.
    fn turned_over(&self, alloc: Global) -> Result<Stack, AllocError>
        ensures { IfOk result (λ turned. stacked turned ≡ reverse (stacked self.now)) }
    {
        let mut turned = Stack::Empty;
        let mut rest = self;
        while let Stack::Top(layer) = rest {
            let pending = layer.pending.clone_in(alloc)?;
            turned = turned.with(alloc, pending)?;
            rest = &layer.below;
        }
        Ok(turned)
    }
}

/// Inputs that copies share.
#[derive(Drop)]
pub struct Shared {
    /// The older ones, the oldest on top.
    pub older: Stack,
    /// The newer ones, the newest on top.
    pub newer: Stack,
}

/// What the first of some inputs does when some time passes.
#[derive(Drop)]
pub enum Turn {
    /// It has its turn, and isn't among them any more.
    Now(Pending),
    /// Its turn is still to come.
    Later,
    /// There is none.
    NoneLeft,
}

impl Shared {
    ghost use Rattle.sf_delay.specs.Queues.{shared_ones, kept_shared, TakesDue};

    /// A copy of inputs: it shares those that are shared already, and those after them from here on. The error is a want of
    /// memory, or too many owners of one node.
    pub(crate) fn of(
        alloc: Global,
        shared: &Option<Shared>,
        young: &VecDeque<Pending>,
    ) -> Result<Shared, AllocError>
        ensures { IfOk result (λ copy. shared_ones copy ≡ kept_shared shared.now ++ young.now.items) }
    {
        let mut copy = Shared::same(shared)?;
        for sample in young.iter() {
            let pending = sample.clone_in(alloc)?;
            copy.push(alloc, pending)?;
        }
        Ok(copy)
    }

    // Those that are shared already.
    fn same(shared: &Option<Shared>) -> Result<Shared, AllocError>
        ensures { IfOk result (λ same. shared_ones same ≡ kept_shared shared.now) }
    {
        match shared {
            None => Ok(Shared {
                older: Stack::Empty,
                newer: Stack::Empty,
            }),
            Some(shared) => {
                let older = shared.older.share()?;
                let newer = shared.newer.share()?;
                Ok(Shared { older, newer })
            }
        }
    }

    // One more behind the others.
    fn push(&mut self, alloc: Global, pending: Pending) -> Result<(), AllocError>
        ensures { OnOk result (shared_ones self.new ≡ shared_ones self.old ++ pending ∷ []) }
    {
        let newer = mem::replace(&mut self.newer, Stack::Empty);
        self.newer = newer.with(alloc, pending)?;
        Ok(())
    }

    // Turns the newer ones over, where no older one is left.
    fn turn_over(&mut self, alloc: Global) -> Result<(), AllocError>
        ensures turned { OnOk result (stacked self.old.older ≡ [] → stacked self.new.older ≡ shared_ones self.old) }
        ensures none_left { stacked self.new.newer ≡ [] }
    {
        let newer = mem::replace(&mut self.newer, Stack::Empty);
        self.older = newer.turned_over(alloc)?;
        Ok(())
    }

    /// Takes the first of them where its turn is within so many milliseconds, `passed` after the turn before it. Amortised
    /// over those that were put in, it takes constant time, also where each state is a copy of the one before it. The error
    /// is a want of memory, or too many owners of one node.
    pub(crate) fn take_due(
        &mut self,
        alloc: Global,
        passed: u64,
        time: u64,
    ) -> Result<Turn, AllocError>
        ensures { IfOk result (λ turn. TakesDue (shared_ones self.old) passed time turn (shared_ones self.new)) }
    {
        if let Stack::Empty = &self.older {
            self.turn_over(alloc)?;
        }
        self.take_older(alloc, passed, time)
    }

    // The same, where an older one is left or none is.
    fn take_older(&mut self, alloc: Global, passed: u64, time: u64) -> Result<Turn, AllocError>
        ensures { (stacked self.old.older ≡ [] → stacked self.old.newer ≡ []) →
            IfOk result (λ turn. TakesDue (shared_ones self.old) passed time turn (shared_ones self.new)) }
    {
        let Stack::Top(layer) = &self.older else {
            return Ok(Turn::NoneLeft);
        };
        if time < layer.pending.left(passed) {
            return Ok(Turn::Later);
        }
        let first = layer.pending.clone_in(alloc)?;
        let rest = layer.below.share()?;
        self.older = rest;
        Ok(Turn::Now(first))
    }
}
