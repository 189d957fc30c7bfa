//! Samples of `after`.
ghost use Rattle.std.specs.Prelude.{◌≡◌, ◌-◌, [], ◌∷◌, true, cond, ℤ, None, IfOk, OnOk};
ghost use Rattle.sf_value.specs.Values.{Data, no_event};
ghost use Rattle.sf_operator.specs.Outcomes.{answer};
ghost use Rattle.sf_operator.specs.Operations.{event_of};
ghost use Rattle.sf_operator.specs.Answers.{Evaluates};
ghost use Rattle.sf_term.specs.declared.form.Timing.TheVariants.{After};
ghost use Rattle.sf_mean.specs.Lives.{Life, step};
ghost use Rattle.sf_mean.specs.Formulas.{timed_formula, span};
ghost use Rattle.sf_delay.specs.Gifts.{gift};
ghost use Rattle.sf_delay.specs.Lately;

use sf_operator::EvalFault;
use sf_value::Value;
use std::alloc::{AllocError, Global};

/// `after q e` that has lived through some samples.
#[derive(Drop)]
pub struct Timer {
    /// The value that an event is still to have; none once one had it.
    pub due: Option<Value>,
    /// Whether there was a sample before.
    pub begun: bool,
    /// The milliseconds that were left at the sample before; all of them where there was none.
    pub left: u64,
}

/// How many milliseconds, or events, a number says. One below 0 says none.
pub fn span_of(number: i64) -> u64
    ensures { result ≡ span number }
{
    if number < 0 { 0 } else { number.unsigned_abs() }
}

/// The milliseconds since the sample before; none where there was none.
pub(crate) fn waited(begun: bool, dt: u64) -> u64
    ensures { result ≡ Lately.waited begun dt }
{
    if begun { dt } else { 0 }
}

/// An event of the value in place of the input where there is one, which is gone then; none without one. The error is
/// `Memory`.
#[inline(never)]
fn occur(alloc: Global, due: &mut Option<Value>, value: &mut Value) -> Result<(), EvalFault>
    ensures told { Evaluates (gift result value.new) (answer (event_of due.old)) }
    ensures kept { OnOk result (due.new ≡ None) }
{
    *value = match due.take() {
        Some(given) => Value::event(alloc, given)?,
        None => Value::no_event(),
    };
    Ok(())
}

impl Timer {
    ghost use Rattle.sf_delay.specs.Waits.{is_up, RunsDown};

    /// A timer before its first sample. A time below 0 is as one of 0.
    pub fn born(time: i64, value: Value) -> Timer
        ensures { RunsDown result time value [] }
    {
        Timer {
            due: Some(value),
            begun: false,
            left: span_of(time),
        }
    }

    /// A copy; the error is a want of memory.
    pub fn clone_in(&self, alloc: Global) -> Result<Timer, AllocError>
        ensures { IfOk result (λ copy. (q : ℤ) (v : Data) (L : Life) → RunsDown self.now q v L → RunsDown copy q v L) }
    {
        let due = match &self.due {
            Some(value) => Some(value.clone_in(alloc)?),
            None => None,
        };
        Ok(Timer {
            due,
            begun: self.begun,
            left: self.left,
        })
    }

    /// At the sample at which no time is left, an event of the value in place of the input, and none at any other; `dt`
    /// milliseconds have passed since the sample before, and none where there was none. The error is `Memory`.
    #[inline(never)]
    pub fn step(&mut self, alloc: Global, dt: u64, value: &mut Value) -> Result<(), EvalFault>
        ensures told { (q : ℤ) (v : Data) (L : Life) → RunsDown self.old q v L →
            Evaluates (gift result value.new) (answer (timed_formula After q v (step dt value.old) L)) }
        ensures kept { (q : ℤ) (v : Data) (L : Life) → RunsDown self.old q v L →
            OnOk result (RunsDown self.new q v (step dt value.old ∷ L)) }
    {
        self.run_down(alloc, dt, value)
    }

    // The same, by what the timer holds.
    #[inline(always)]
    fn run_down(&mut self, alloc: Global, dt: u64, value: &mut Value) -> Result<(), EvalFault>
        ensures told { Evaluates (gift result value.new) (answer (cond (is_up self.old dt) (event_of self.old.due) no_event)) }
        ensures due { OnOk result (self.new.due ≡ cond (is_up self.old dt) None self.old.due) }
        ensures begun { OnOk result (self.new.begun ≡ true) }
        ensures left { OnOk result (self.new.left ≡ self.old.left - Lately.waited self.old.begun dt) }
    {
        let waited = waited(self.begun, dt);
        let up = self.left <= waited;
        self.left = self.left.saturating_sub(waited);
        self.begun = true;
        if up {
            return occur(alloc, &mut self.due, value);
        }
        *value = Value::no_event();
        Ok(())
    }
}
