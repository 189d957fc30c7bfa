//! Samples of `repeatedly`.
ghost use Rattle.std.specs.Prelude.{◌≡◌, [], ◌∷◌, ℤ, IfOk, OnOk};
ghost use Rattle.sf_value.specs.Values.{Data};
ghost use Rattle.sf_operator.specs.Outcomes.{answer};
ghost use Rattle.sf_operator.specs.Answers.{Evaluates};
ghost use Rattle.sf_mean.specs.Lives.{Life, step};
ghost use Rattle.sf_mean.specs.Formulas.{repeated_formula};
ghost use Rattle.sf_delay.specs.Gifts.{gift};

use crate::timer::{span_of, waited};
use sf_operator::EvalFault;
use sf_value::Value;
use std::alloc::{AllocError, Global};

/// `repeatedly q e` that has lived through some samples.
#[derive(Drop)]
pub struct Ticker {
    /// The event that it gives, which all of them share.
    pub event: Value,
    /// Whether there was a sample before.
    pub begun: bool,
    /// The milliseconds from one multiple of the time to the next; at 0 there is no event.
    pub period: u64,
    /// The milliseconds that were left to the next multiple at the sample before; all of them where there was none.
    pub left: u64,
}

impl Ticker {
    ghost use Rattle.sf_delay.specs.Waits.{TicksOn};

    /// A ticker before its first sample. A time below 0 is as one of 0, and has no event. The error is a want of memory.
    pub fn born(alloc: Global, time: i64, value: Value) -> Result<Ticker, AllocError>
        ensures { IfOk result (λ ticker. TicksOn ticker time value []) }
    {
        let period = span_of(time);
        let event = Value::event(alloc, value)?;
        Ok(Ticker {
            event,
            begun: false,
            period,
            left: period,
        })
    }

    /// A copy; the error is a want of memory.
    pub fn clone_in(&self, alloc: Global) -> Result<Ticker, AllocError>
        ensures { IfOk result (λ copy. (q : ℤ) (v : Data) (L : Life) → TicksOn self.now q v L → TicksOn copy q v L) }
    {
        Ok(Ticker {
            event: self.event.clone_in(alloc)?,
            begun: self.begun,
            period: self.period,
            left: self.left,
        })
    }

    /// At a sample in whose time a multiple lies, an event of the value in place of the input, however many lie there, and
    /// none at any other; `dt` milliseconds have passed since the sample before, and none where there was none. The error
    /// is `Memory`.
    #[inline(never)]
    pub fn step(&mut self, alloc: Global, dt: u64, value: &mut Value) -> Result<(), EvalFault>
        ensures told { (q : ℤ) (v : Data) (L : Life) → TicksOn self.old q v L →
            Evaluates (gift result value.new) (answer (repeated_formula q v (step dt value.old) L)) }
        ensures kept { (q : ℤ) (v : Data) (L : Life) → TicksOn self.old q v L →
            OnOk result (TicksOn self.new q v (step dt value.old ∷ L)) }
    {
        let waited = waited(self.begun, dt);
        self.begun = true;
        if self.period == 0 || waited < self.left {
            self.left = self.left.saturating_sub(waited);
            *value = Value::no_event();
            return Ok(());
        }
        self.left = self.period - (waited - self.left) % self.period;
        *value = self.event.clone_in(alloc)?;
        Ok(())
    }
}
