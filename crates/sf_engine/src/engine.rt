//! Engines.
ghost use Rattle.std.specs.Prelude.{◌≡◌, ◌≤◌, IfOk, None, Some};
ghost use Rattle.sf_func.specs.Registries.{AnswersByName};
ghost use Rattle.sf_mean.specs.Networks.{network_of};
ghost use Rattle.sf_check.specs.Accepting.{accepted_program, checked_main};
ghost use Rattle.sf_engine.specs.Planned.{IsRunFor};
ghost use Rattle.sf_state.specs.Machine.{machine};

mod embed;
mod save;

pub use embed::Embedded;
use indexmap::IndexMap;
use save::Save;
use sf_check::Checked;
use sf_func::Holds;
use sf_law::Plan;
use sf_optimise::{optimise, plain};
use sf_probe::Readings;
use sf_state::State;
use sf_step::{Meter, step};
use sf_value::{Fault, Ty, Value, has_type};
use std::alloc::{AllocError, Global};
use thiserror::Error;

/// How a network is run.
#[derive(Clone, Copy, Debug, PartialEq, Eq)]
pub enum Mode {
    /// As it was written.
    Plain,
    /// Rewritten by laws that keep what it gives, to do less work.
    Optimised,
}

/// What a network gives at one time.
#[derive(Drop)]
pub struct Sample {
    /// Milliseconds since the start.
    pub time: u64,
    /// The output.
    pub value: Value,
    /// What its probes read, in order.
    pub readings: Readings,
}

/// Why a call doesn't do what it is for. All but `Fault` leave the engine as it was.
#[derive(Clone, Copy, Debug, PartialEq, Eq, Error)]
pub enum EngineError {
    /// An earlier sample had this fault.
    #[error("stopped: {0}")]
    Stopped(Fault),
    /// There was no start.
    #[error("not started")]
    NotStarted,
    /// There was a start.
    #[error("already started")]
    Started,
    /// A step isn't 1 to 3,600,000 milliseconds long, or goes past 4,000,000,000,000,000.
    #[error("bad step")]
    BadStep,
    /// The value hasn't the type of the network's input.
    #[error("wrong type")]
    WrongType,
    /// Nothing is kept under the name.
    #[error("no save")]
    NoSave,
    /// Under 64 names something is kept, and not under this one.
    #[error("too many saves")]
    TooManySaves,
    /// Memory ran out, before anything was changed: something was to be kept or returned to, or room was to be made.
    #[error("out of memory")]
    Memory,
    /// The sample has this fault. The engine is stopped.
    #[error(transparent)]
    Fault(Fault),
}

/// A network that is run sample by sample, up to the first fault, with the stored functions that it calls. What it has
/// come to can be kept under names, and returned to.
///
/// It keeps the allocator that it was made with.
pub struct Engine<F: Holds> {
    alloc: Global,
    plan: Plan,
    functions: F,
    input: Ty,
    state: State,
    time: u64,
    last: Option<Value>,
    stopped: Option<Fault>,
    saves: IndexMap<String, Save>,
    ghost within: { time ≤ 4000000000000000 },
}

impl<F: Holds + Drop> Drop for Engine<F> {
    fn drop(self) {
        let Engine {
            alloc: _,
            plan,
            functions,
            input,
            state,
            time: _,
            last,
            stopped: _,
            saves,
        } = self;
        drop(plan);
        drop(functions);
        drop(input);
        drop(state);
        drop(last);
        drop(saves);
    }
}

const LONGEST_STEP: u64 = 3_600_000;

const LAST_TIME: u64 = 4_000_000_000_000_000;

impl<F: Holds> Engine<F> {
    ghost use Rattle.std.specs.Prelude.{◌≡◌, ◌≢◌, ◌+◌, ◌≤◌, ◌↔◌, ℕ, [], ◌∷◌, Some, None, Result, Err, IfOk, IfErr, IfSome, OnOk, IsTrue};
    ghost use Rattle.sf_value.specs.Values.{HasKind};
    ghost use Rattle.sf_value.specs.declared.fault.Fault.{Fault};
    ghost use Rattle.sf_term.specs.Trees.{Template};
    ghost use Rattle.sf_mean.specs.Lives.{Life, step, time};
    ghost use Rattle.sf_mean.specs.Meaning.{Network};
    ghost use Rattle.sf_mean.specs.Networks.{network_of};
    ghost use Rattle.sf_check.specs.Accepting.{accepted_program, checked_main};
    ghost use Rattle.sf_engine.specs.declared.engine.EngineError.TheVariants.{Stopped};
    ghost use Rattle.sf_engine.specs.Histories.{IsHistory, CanWait, Saves, after_start, after_step};
    ghost use Rattle.sf_engine.specs.Running.{Runs, IsStopped, EngineStops, engine_time, input_kind, last_of, MayStart, MayStep};
    ghost use Rattle.sf_engine.specs.Sampling.{Sampled, Starts, Advances};

    /// An engine before its start. Its network may have been accepted with other functions: each sample is what its meaning
    /// with these gives. For want of memory it hands both back.
    pub fn new(
        alloc: Global,
        checked: Checked,
        functions: F,
        mode: Mode,
    ) -> Result<Engine<F>, (Checked, F)>
        ensures runs { IfOk result (λ e. Runs e (network_of (F.answers functions) (accepted_program checked)) (checked_main checked) [] []) }
        ensures handed_back { IfErr result (λ back. (back.0 ≡ checked) × (back.1 ≡ functions)) }
    {
        let Ok(input) = checked.input().clone_in(alloc) else {
            return Err((checked, functions));
        };
        let Ok(plan) = planned(alloc, &checked, mode) else {
            return Err((checked, functions));
        };
        let state = State::unborn(plan.main());
        Ok(Engine {
            alloc,
            plan,
            functions,
            input,
            state,
            time: 0,
            last: None,
            stopped: None,
            saves: IndexMap::new(alloc),
        })
    }

    /// The first sample, at time 0.
    ///
    /// Refusals, in this order: `Stopped`, `Started`, `WrongType`.
    pub fn start(&mut self, value: Value) -> Result<Sample, EngineError>
        ensures running { (n : Network) (m : Template) (L : Life) (S : Saves) → Runs self.old n m L S →
            Starts n m L S value result self.new }
        ensures stopped { (f : Fault) → IsStopped self.old f → EngineStops f result self.new }
    {
        self.look_at_start(&value)?;
        self.first_sample(value).map_err(EngineError::Fault)
    }

    /// The next sample, `dt` milliseconds after the one before. Without a value the input is unchanged.
    ///
    /// Refusals, in this order: `Stopped`, `NotStarted`, `BadStep`, `WrongType`.
    pub fn step(&mut self, dt: u64, value: Option<Value>) -> Result<Sample, EngineError>
        ensures running { (n : Network) (m : Template) (L : Life) (S : Saves) → Runs self.old n m L S →
            Advances n m L S dt value result self.new }
        ensures stopped { (f : Fault) → IsStopped self.old f → EngineStops f result self.new }
    {
        if let Some(fault) = self.stopped {
            return Err(EngineError::Stopped(fault));
        }
        if !self.is_started() {
            return Err(EngineError::NotStarted);
        }
        if !self.can_wait(dt) {
            return Err(EngineError::BadStep);
        }
        if !self.takes(&value) {
            return Err(EngineError::WrongType);
        }
        self.next_sample(dt, value).map_err(EngineError::Fault)
    }

    /// What `start` does where it refuses nothing, for a caller that has seen to that.
    pub fn first_sample(&mut self, value: Value) -> Result<Sample, Fault>
        requires { MayStart self.old value }
        ensures { (n : Network) (m : Template) (S : Saves) → Runs self.old n m [] S → Sampled n m (after_start value) S result self.new }
    {
        self.sample(0, value)
    }

    /// What `step` does where it refuses nothing, for a caller that has seen to that.
    #[inline(always)]
    pub fn next_sample(&mut self, dt: u64, value: Option<Value>) -> Result<Sample, Fault>
        requires { MayStep self.old dt value }
        ensures { (n : Network) (m : Template) (L : Life) (S : Saves) → Runs self.old n m L S → Sampled n m (after_step L dt value) S result self.new }
    {
        let input = match value {
            Some(given) => given,
            None => match self.repeated() {
                Ok(last) => last,
                Err(_) => return Err(stop(&mut self.stopped, Fault::Memory)),
            },
        };
        self.sample(dt, input)
    }

    /// Whether there was a start.
    pub fn is_started(&self) -> bool
        ensures history { (n : Network) (m : Template) (L : Life) (S : Saves) → Runs self.now n m L S → (IsTrue result ↔ (L ≢ [])) }
        ensures input { IsTrue result ↔ (last_of self.now ≢ None) }
    {
        self.last.is_some()
    }

    /// Milliseconds since the start; 0 before it.
    pub fn time(&self) -> u64
        ensures { (n : Network) (m : Template) (L : Life) (S : Saves) → Runs self.now n m L S → result ≡ time L }
    {
        self.time
    }

    /// The type of the network's inputs.
    pub fn input(&self) -> &Ty
        ensures { (n : Network) (m : Template) (L : Life) (S : Saves) → Runs self.now n m L S → result.now ≡ m.input }
    {
        &self.input
    }

    /// Why a start with a value is refused, if it is.
    fn look_at_start(&self, value: &Value) -> Result<(), EngineError>
        ensures may { OnOk result (MayStart self.now value.now) }
        ensures running { IfErr result (λ e. (n : Network) (m : Template) (L : Life) (S : Saves) → Runs self.now n m L S → Starts n m L S value.now (Err e) self.now) }
        ensures stopped { (f : Fault) → IsStopped self.now f → result ≡ Err (Stopped f) }
    {
        if let Some(fault) = self.stopped {
            return Err(EngineError::Stopped(fault));
        }
        if self.is_started() {
            return Err(EngineError::Started);
        }
        if !has_type(value, &self.input) {
            return Err(EngineError::WrongType);
        }
        Ok(())
    }

    /// Whether a step may be so long.
    fn can_wait(&self, dt: u64) -> bool
        ensures { IsTrue result ↔ CanWait (engine_time self.now) dt }
    {
        1 <= dt && dt <= LONGEST_STEP && self.time + dt <= LAST_TIME
    }

    /// Whether a value, if there is one, has the type of the inputs.
    fn takes(&self, value: &Option<Value>) -> bool
        ensures { IsTrue result ↔ IfSome value.now (λ v. HasKind v (input_kind self.now)) }
    {
        match value {
            Some(given) => has_type(given, &self.input),
            None => true,
        }
    }

    /// A copy of the last input.
    fn repeated(&self) -> Result<Value, AllocError>
        requires { last_of self.now ≢ None }
        ensures { IfOk result (λ x. last_of self.now ≡ Some x) }
    {
        match &self.last {
            Some(last) => last.clone_in(self.alloc),
            None => unreachable!(),
        }
    }

    /// The sample at the next step of the history.
    fn sample(&mut self, dt: u64, input: Value) -> Result<Sample, Fault>
        requires { engine_time self.old + dt ≤ 4000000000000000 }
        ensures { (n : Network) (m : Template) (L : Life) (S : Saves) → Runs self.old n m L S → IsHistory m.input (step dt input ∷ L) →
            Sampled n m (step dt input ∷ L) S result self.new }
    {
        let Ok(kept) = input.clone_in(self.alloc) else {
            return Err(stop(&mut self.stopped, Fault::Memory));
        };
        let mut meter = Meter::new(self.alloc);
        match step(
            self.alloc,
            &mut self.state,
            &self.plan,
            &self.functions,
            dt,
            input,
            &mut meter,
        ) {
            Ok((value, readings)) => {
                self.time += dt;
                self.last = Some(kept);
                Ok(Sample {
                    time: self.time,
                    value,
                    readings,
                })
            }
            Err(fault) => Err(stop(&mut self.stopped, fault)),
        }
    }
}

/// Keeps the fault that stops an engine.
fn stop(stopped: &mut Option<Fault>, fault: Fault) -> Fault
    ensures error { result ≡ fault }
    ensures stopped { stopped.new ≡ Some fault }
{
    *stopped = Some(fault);
    fault
}

/// The plan of a network in a mode.
fn planned(alloc: Global, checked: &Checked, mode: Mode) -> Result<Plan, AllocError>
    ensures { IfOk result (λ p. (φ : AnswersByName) → IsRunFor (machine φ p) (network_of φ (accepted_program checked.now)) (checked_main checked.now)) }
{
    match mode {
        Mode::Plain => plain(alloc, checked),
        Mode::Optimised => optimise(alloc, checked),
    }
}
