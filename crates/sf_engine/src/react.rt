//! Engines with an actuator.
ghost use Rattle.std.specs.Prelude.{◌≡◌, Bool, Result};

use crate::engine::{Engine, EngineError, Sample};
use sf_func::Holds;
use sf_value::Value;

/// What is done with each sample.
pub trait Actuator: Drop {
    ghost use Rattle.sf_engine.specs.declared.engine.Sample.{Sample};

    // what it may answer to a sample, and what it is then
    ghost acts: { Self → Sample → Bool → Self → Type 0 };

    /// Does it. The answer true is the end.
    fn act(&mut self, sample: &Sample) -> bool
        ensures { acts self.old sample.now result self.new };
}

impl Actuator for Box<dyn Actuator> {
    ghost use Rattle.sf_engine.specs.Acting.{ActsInside};

    ghost acts = { λ b s answer c. ActsInside b (Actuator-box b).acts s answer c };

    fn act(&mut self, sample: &Sample) -> bool {
        self.as_mut().act(sample)
    }
}

/// An engine with an actuator, which acts on each of its samples.
#[derive(Drop)]
pub struct React<F: Holds, A: Actuator> {
    engine: Engine<F>,
    actuator: A,
}

impl<F: Holds, A: Actuator> React<F, A> {
    ghost use Rattle.sf_value.specs.declared.fault.Fault.{Fault};
    ghost use Rattle.sf_term.specs.Trees.{Template};
    ghost use Rattle.sf_mean.specs.Lives.{Life};
    ghost use Rattle.sf_mean.specs.Meaning.{Network};
    ghost use Rattle.sf_engine.specs.declared.engine.Sample.{Sample};
    ghost use Rattle.sf_engine.specs.declared.engine.EngineError.{EngineError};
    ghost use Rattle.sf_engine.specs.Histories.{Saves};
    ghost use Rattle.sf_engine.specs.Running.{Runs, IsStopped, EngineStops};
    ghost use Rattle.sf_engine.specs.Sampling.{Starts, Advances};
    ghost use Rattle.sf_engine.specs.Acting.{Reacts};
    ghost use Rattle.sf_engine.specs.Reacting.{engine_of, actuator_of};

    /// An engine with an actuator.
    pub fn new(engine: Engine<F>, actuator: A) -> React<F, A>
        ensures engine { engine_of result ≡ engine }
        ensures actuator { actuator_of result ≡ actuator }
    {
        React { engine, actuator }
    }

    /// The start. The answer is what the actuator answers to its sample: true is the end, after which the engine can still
    /// be stepped.
    ///
    /// The errors are those of the engine's `start`. The actuator does nothing then.
    pub fn react_init(&mut self, value: Value) -> Result<bool, EngineError>
        ensures running { (n : Network) (m : Template) (L : Life) (S : Saves) → Runs (engine_of self.old) n m L S →
            (r : Result Sample EngineError) × Starts n m L S value r (engine_of self.new) × Reacts A.acts (actuator_of self.old) r result (actuator_of self.new) }
        ensures stopped { (f : Fault) → IsStopped (engine_of self.old) f →
            EngineStops f result (engine_of self.new) × (actuator_of self.new ≡ actuator_of self.old) }
    {
        let sample = self.engine.start(value)?;
        Ok(self.actuator.act(&sample))
    }

    /// The next step. The answer is what the actuator answers to its sample: true is the end, after which the engine can
    /// still be stepped.
    ///
    /// The errors are those of the engine's `step`. The actuator does nothing then.
    pub fn react(&mut self, dt: u64, value: Option<Value>) -> Result<bool, EngineError>
        ensures running { (n : Network) (m : Template) (L : Life) (S : Saves) → Runs (engine_of self.old) n m L S →
            (r : Result Sample EngineError) × Advances n m L S dt value r (engine_of self.new) × Reacts A.acts (actuator_of self.old) r result (actuator_of self.new) }
        ensures stopped { (f : Fault) → IsStopped (engine_of self.old) f →
            EngineStops f result (engine_of self.new) × (actuator_of self.new ≡ actuator_of self.old) }
    {
        let sample = self.engine.step(dt, value)?;
        Ok(self.actuator.act(&sample))
    }
}
