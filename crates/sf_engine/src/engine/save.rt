//! What engines keep under names.
ghost use Rattle.std.specs.Prelude.{◌≡◌, ◌≢◌, ◌≤◌, ◌↔◌, None, IfOk, OnOk, OnErr, IsTrue};
ghost use Rattle.sf_state.specs.Machine.{Machine};

use super::{Engine, EngineError};
use sf_func::Holds;
use sf_state::State;
use sf_value::Value;
use std::alloc::{AllocError, Global};

const MOST_SAVES: usize = 64;

/// What an engine had come to.
#[derive(Drop)]
pub(super) struct Save {
    /// The state of its network.
    state: State,
    /// Milliseconds since the start.
    time: u64,
    /// The last input.
    last: Value,
    ghost within: { time ≤ 4000000000000000 },
}

impl Save {
    ghost use Rattle.sf_term.specs.Trees.{Template};
    ghost use Rattle.sf_mean.specs.Lives.{Life};
    ghost use Rattle.sf_engine.specs.Running.{IsSaveOf};

    /// The same, over the same nodes of the state. The error is a want of memory, or too many owners of one node.
    fn share(&self, alloc: Global) -> Result<Save, AllocError>
        ensures { IfOk result (λ same. (μ : Machine) (m : Template) (L : Life) → IsSaveOf μ m self.now L → IsSaveOf μ m same L) }
    {
        Ok(Save {
            last: self.last.clone_in(alloc)?,
            time: self.time,
            state: self.state.share(alloc)?,
        })
    }
}

impl<F: Holds> Engine<F> {
    ghost use Rattle.sf_value.specs.declared.fault.Fault.{Fault};
    ghost use Rattle.sf_term.specs.Trees.{Template};
    ghost use Rattle.sf_mean.specs.Lives.{Life};
    ghost use Rattle.sf_mean.specs.Meaning.{Network};
    ghost use Rattle.sf_engine.specs.Histories.{Saves, MaySave, save_kept};
    ghost use Rattle.sf_engine.specs.Running.{Runs, IsStopped, EngineStops, last_of};
    ghost use Rattle.sf_engine.specs.Saving.{Saved, Returned};

    /// Keeps the state, the time and the last input under a name, in place of what was kept under it.
    ///
    /// Refusals, in this order: `Stopped`, `NotStarted`, `TooManySaves`, `Memory`.
    pub fn save(&mut self, name: &str) -> Result<(), EngineError>
        ensures running { (n : Network) (m : Template) (L : Life) (S : Saves) → Runs self.old n m L S →
            Saved n m L S name.now result self.new }
        ensures stopped { (f : Fault) → IsStopped self.old f → EngineStops f result self.new }
    {
        if let Some(fault) = self.stopped {
            return Err(EngineError::Stopped(fault));
        }
        if !self.is_started() {
            return Err(EngineError::NotStarted);
        }
        if !self.has_place(name) {
            return Err(EngineError::TooManySaves);
        }
        match self.keep(name) {
            Ok(()) => Ok(()),
            Err(_) => Err(EngineError::Memory),
        }
    }

    /// Returns to the state, the time and the last input that are kept under a name. They are still kept.
    ///
    /// Refusals, in this order: `Stopped`, `NotStarted`, `NoSave`, `Memory`.
    pub fn back(&mut self, name: &str) -> Result<(), EngineError>
        ensures running { (n : Network) (m : Template) (L : Life) (S : Saves) → Runs self.old n m L S →
            Returned n m L S name.now result self.new }
        ensures stopped { (f : Fault) → IsStopped self.old f → EngineStops f result self.new }
    {
        if let Some(fault) = self.stopped {
            return Err(EngineError::Stopped(fault));
        }
        if !self.is_started() {
            return Err(EngineError::NotStarted);
        }
        let Some(save) = self.saves.get(name) else {
            return Err(EngineError::NoSave);
        };
        let Ok(copy) = save.share(self.alloc) else {
            return Err(EngineError::Memory);
        };
        self.state = copy.state;
        self.time = copy.time;
        self.last = Some(copy.last);
        Ok(())
    }

    /// Whether there is a place for a save of that name.
    fn has_place(&self, name: &str) -> bool
        ensures { (n : Network) (m : Template) (L : Life) (S : Saves) → Runs self.now n m L S → (IsTrue result ↔ MaySave name.now S) }
    {
        self.saves.contains_key(name) || self.saves.len() < MOST_SAVES
    }

    /// Keeps what the engine has come to under a name. For want of memory it is left as it was.
    fn keep(&mut self, name: &str) -> Result<(), AllocError>
        requires { last_of self.old ≢ None }
        ensures kept { OnOk result ((n : Network) (m : Template) (L : Life) (S : Saves) → Runs self.old n m L S → Runs self.new n m L (save_kept name.now L S)) }
        ensures unchanged { OnErr result ((n : Network) (m : Template) (L : Life) (S : Saves) → Runs self.old n m L S → Runs self.new n m L S) }
    {
        let key = String::from_str(self.alloc, name)?;
        let save = Save {
            last: self.repeated()?,
            time: self.time,
            state: self.state.share(self.alloc)?,
        };
        self.saves.insert(key, save)?;
        Ok(())
    }
}
