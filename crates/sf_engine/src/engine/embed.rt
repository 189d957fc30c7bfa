//! Engines that run a list of steps.
ghost use Rattle.std.specs.Prelude.{◌≡◌, ◌+◌, ◌≤◌, ◌++◌, List, length, vec_len, vec_capacity};

use super::{Engine, EngineError, Sample};
use sf_func::Holds;
use sf_value::Value;

/// What a list of steps gives.
#[derive(Drop)]
pub struct Embedded {
    /// The samples, in order.
    pub samples: Vec<Sample>,
    /// The error that ended them, if any.
    pub ended: Option<EngineError>,
}

impl<F: Holds> Engine<F> {
    ghost use Rattle.sf_value.specs.declared.fault.Fault.{Fault};
    ghost use Rattle.sf_term.specs.Trees.{Template};
    ghost use Rattle.sf_mean.specs.Lives.{Life};
    ghost use Rattle.sf_mean.specs.Meaning.{Network};
    ghost use Rattle.sf_engine.specs.declared.engine.Sample.{Sample};
    ghost use Rattle.sf_engine.specs.Histories.{Saves};
    ghost use Rattle.sf_engine.specs.Running.{Runs, IsStopped, EngineStops};
    ghost use Rattle.sf_engine.specs.Embedding.{Embeds, Follows};

    /// The samples of a start and of each step after it, up to the first error. An error of a step ends them; one of the
    /// start is this call's.
    ///
    /// Refusals, in this order: `Stopped`, `Started`, `WrongType`, `Memory`. This `Memory` comes before the start.
    pub fn embed(
        &mut self,
        value: Value,
        steps: Vec<(u64, Option<Value>)>,
    ) -> Result<Embedded, EngineError>
        ensures running { (n : Network) (m : Template) (L : Life) (S : Saves) → Runs self.old n m L S →
            Embeds n m L S value steps.items result self.new }
        ensures stopped { (f : Fault) → IsStopped self.old f → EngineStops f result self.new }
    {
        self.look_at_start(&value)?;
        let Ok(mut samples) = Vec::with_capacity(self.alloc, steps.len() + 1) else {
            return Err(EngineError::Memory);
        };
        match self.first_sample(value) {
            Ok(first) => samples.push_reserved(first),
            Err(fault) => return Err(EngineError::Fault(fault)),
        }
        let ended = self.follow(steps, &mut samples);
        Ok(Embedded { samples, ended })
    }

    /// Takes each step in turn, and appends its sample, up to the first error, which it answers.
    fn follow(
        &mut self,
        steps: Vec<(u64, Option<Value>)>,
        samples: &mut Vec<Sample>,
    ) -> Option<EngineError>
        requires { vec_len samples.old + length steps.items ≤ vec_capacity samples.old }
        ensures { (n : Network) (m : Template) (L : Life) (S : Saves) → Runs self.old n m L S →
            (given : List Sample) × (samples.new.items ≡ samples.old.items ++ given) × Follows n m S L steps.items given result self.new }
    {
        for (dt, value) in steps {
            match self.step(dt, value) {
                Ok(sample) => samples.push_reserved(sample),
                Err(error) => return Some(error),
            }
        }
        None
    }
}
