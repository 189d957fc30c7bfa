//! Samples of `delay`.
ghost use Rattle.std.specs.Prelude.{◌≡◌, ◌+◌, ◌≤◌, [], ◌∷◌, ℤ, IfSome, IfOk, OnOk};
ghost use Rattle.sf_value.specs.Values.{Data};
ghost use Rattle.sf_operator.specs.Outcomes.{answer};
ghost use Rattle.sf_operator.specs.Answers.{Evaluates};
ghost use Rattle.sf_mean.specs.Lives.{Life, step};
ghost use Rattle.sf_mean.specs.Formulas.{delayed_formula};
ghost use Rattle.sf_delay.specs.Gifts.{gift};

use crate::queue::{Pending, Shared, Turn};
use crate::timer::{span_of, waited};
use sf_operator::EvalFault;
use sf_value::Value;
use std::alloc::{AllocError, Global};
use std::collections::VecDeque;
use std::mem;

/// `delay q e` that has lived through some samples.
#[derive(Drop)]
pub struct Line {
    /// The milliseconds that an input is to be old.
    pub delay: u64,
    /// Whether there was a sample before.
    pub begun: bool,
    /// The newest input that was old enough at the sample before, or the value of `e` where none was.
    pub held: Value,
    /// The milliseconds between the time at which that value took its place and the sample before.
    pub passed: u64,
    /// The first inputs after it, which copies share, if there are any.
    pub shared: Option<Shared>,
    /// The inputs after those, the oldest first.
    pub young: VecDeque<Pending>,
}

impl Line {
    ghost use Rattle.std.specs.Prelude.{List, Option, None};
    ghost use Rattle.sf_delay.specs.Queues.{kept_shared, TakesDue};
    ghost use Rattle.sf_delay.specs.Delays.{Delays, waiting, IsToCome, next_wait, TakesTurn, PassesOn};
    ghost use Rattle.sf_delay.specs.declared.queue.Pending.{Pending};

    /// A line before its first sample. A time below 0 is as one of 0.
    pub fn born(alloc: Global, time: i64, value: Value) -> Line
        ensures { Delays result time value [] }
    {
        Line {
            delay: span_of(time),
            begun: false,
            held: value,
            passed: 0,
            shared: None,
            young: VecDeque::new(alloc),
        }
    }

    /// A copy, which shares the inputs that it keeps. It takes the time of those that came since the line was made or copied.
    /// The error is a want of memory, or too many owners of one node.
    pub fn clone_in(&self, alloc: Global) -> Result<Line, AllocError>
        ensures { IfOk result (λ copy. (q : ℤ) (v : Data) (L : Life) → Delays self.now q v L → Delays copy q v L) }
    {
        let held = self.held.clone_in(alloc)?;
        let shared = Shared::of(alloc, &self.shared, &self.young)?;
        Ok(Line {
            delay: self.delay,
            begun: self.begun,
            held,
            passed: self.passed,
            shared: Some(shared),
            young: VecDeque::new(alloc),
        })
    }

    /// The newest input that is old enough in place of this one; `dt` milliseconds have passed since the sample before, and
    /// none where there was none. The error is `Memory`.
    #[inline(never)]
    pub fn step(&mut self, alloc: Global, dt: u64, value: &mut Value) -> Result<(), EvalFault>
        ensures told { (q : ℤ) (v : Data) (L : Life) → Delays self.old q v L →
            Evaluates (gift result value.new) (answer (delayed_formula q v (step dt value.old) L)) }
        ensures kept { (q : ℤ) (v : Data) (L : Life) → Delays self.old q v L →
            OnOk result (Delays self.new q v (step dt value.old ∷ L)) }
    {
        let input = mem::replace(value, Value::int(0));
        let after = if self.begun { dt } else { self.delay };
        let newest = Pending {
            value: input,
            after,
        };
        self.young.push_back(newest)?;
        let waited = waited(self.begun, dt);
        self.begun = true;
        self.pass(alloc, waited)?;
        *value = self.held.clone_in(alloc)?;
        Ok(())
    }

    // Lets so many milliseconds pass, and lets go of the values whose time is over. The error is a want of memory.
    #[inline(always)]
    fn pass(&mut self, alloc: Global, time: u64) -> Result<(), AllocError>
        ensures passes { OnOk result (PassesOn self.old time self.new 0) }
        ensures to_come { OnOk result (IsToCome self.new.passed (waiting self.new)) }
    {
        if let None = &self.shared {
            self.pass_own(time);
            return Ok(());
        }
        self.pass_shared(alloc, time)
    }

    // The same, where there are inputs that copies share.
    #[cold]
    #[inline(never)]
    fn pass_shared(&mut self, alloc: Global, time: u64) -> Result<(), AllocError>
        ensures passes { OnOk result (PassesOn self.old time self.new 0) }
        ensures to_come { OnOk result (IsToCome self.new.passed (waiting self.new)) }
    {
        let mut left = time;
        loop {
            match self.take_shared(alloc, left)? {
                Turn::Now(first) => {
                    left -= first.left(self.passed);
                    self.hold(first);
                }
                Turn::Later => {
                    self.passed += left;
                    return Ok(());
                }
                Turn::NoneLeft => {
                    self.shared = None;
                    self.pass_own(left);
                    return Ok(());
                }
            }
        }
    }

    // Takes the first of the inputs that copies share, where its turn is within so many milliseconds.
    fn take_shared(&mut self, alloc: Global, time: u64) -> Result<Turn, AllocError>
        ensures taken { IfOk result (λ turn. TakesDue (kept_shared self.old.shared) self.old.passed time turn (kept_shared self.new.shared)) }
        ensures rest { self.new ≡ record self.old { shared = self.new.shared } }
    {
        match &mut self.shared {
            Some(shared) => shared.take_due(alloc, self.passed, time),
            None => Ok(Turn::NoneLeft),
        }
    }

    // The same as `pass`, where no inputs are shared.
    #[inline(always)]
    fn pass_own(&mut self, time: u64)
        ensures passes { self.old.shared ≡ None → PassesOn self.old time self.new 0 }
        ensures to_come { self.old.shared ≡ None → IsToCome self.new.passed (waiting self.new) }
    {
        let mut left = time;
        while let Some(wait) = self.wait() {
            if left < wait {
                self.passed += left;
                return;
            }
            left -= wait;
            self.take_turn();
        }
    }

    // The milliseconds until the first of the own inputs takes the value's place, if there is one and no other is before it.
    fn wait(&self) -> Option<u64>
        ensures next { result ≡ next_wait self.now.passed self.now.young.items }
        ensures fits { IfSome result (λ wait. self.now.passed + wait ≤ u64.MAX) }
    {
        Some(self.young.front()?.left(self.passed))
    }

    // Puts the first of the own inputs in the value's place, at its time.
    fn take_turn(&mut self)
        ensures turn { (r : Pending) (rs : List Pending) → self.old.young.items ≡ r ∷ rs → TakesTurn self.old r rs self.new }
        ensures shared { self.new.shared ≡ self.old.shared }
    {
        if let Some(first) = self.young.pop_front() {
            self.hold(first);
        }
    }

    // Puts an input in the value's place, at its time.
    fn hold(&mut self, first: Pending)
        ensures { TakesTurn self.old first self.old.young.items self.new }
    {
        self.passed = self.passed.saturating_sub(first.after);
        self.held = first.value;
    }
}
