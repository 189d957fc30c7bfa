//! The states of primitives.
ghost use Rattle.std.specs.Prelude.{◌≡◌, [], OnOk, IfOk, IfErr};
ghost use Rattle.sf_func.specs.Registries.{AnswersByName};
ghost use Rattle.sf_expr.specs.Expressions.{Expression, Function};
ghost use Rattle.sf_expr.specs.Evaluation.{Scope, scope_functions, apply};
ghost use Rattle.sf_code.specs.Names.{scope_with};
ghost use Rattle.sf_code.specs.Worth.{IsCodeOf, IsCodeOfFunction, AnswersAsFunction};
ghost use Rattle.sf_operator.specs.Answers.{Evaluates};
ghost use Rattle.sf_operator.specs.declared.fault.EvalFault.TheVariants.{Memory};
ghost use Rattle.sf_delay.specs.Gifts.{gift};
ghost use Rattle.sf_value.specs.Values.{pair};

use crate::accumulator::{Accumulator, accumulate};
use crate::chain::{Link, apply_closure, links_of, run_links};
use crate::events::{
    announce, count_event, hold, hold_before, is_low, pass_later, rise, rise_with, select,
};
use crate::time::tell_time;
use sf_code::{Closure, Names, OpenCode, apply_beside, apply_in_place, evaluate_among};
use sf_delay::{Line, Sum, Ticker, Timer, span_of};
use sf_func::Holds;
use sf_law::{PlanChain, PlanPrimitive};
use sf_operator::EvalFault;
use sf_term::{Accumulation, Bare, Selection, Timing, WithValue};
use sf_value::Value;
use std::alloc::{AllocError, Global};
use std::mem;
use std::rc::Rc;

/// A primitive that has lived through some samples.
pub enum PrimState {
    /// `identity`, or `initially e` after its first sample.
    Identity,
    /// `never`, or `now e` after its first sample.
    Never,
    /// `constant e`, with the value of `e`.
    Constant(Value),
    /// `iPre e`, `-->(e, pre)` or `pre`, with its next value.
    Previous(Value),
    /// `arr f`, with the code of `f`, which it shares with its plan.
    Arrow(Rc<OpenCode>),
    /// `arr f` where `f` has names from around it, with their values, which copies share.
    Closed(Rc<Closure>),
    /// `arr` of functions that are made into one, which copies share.
    Fused(Rc<Vec<Link>>),
    /// A primitive with a value and a function.
    Accumulated(Box<Accumulator>),
    /// `localTime`, with the milliseconds at the sample before, if there was one.
    Clock(Option<i64>),
    /// `integral`, with what is under its input so far.
    Area(Sum),
    /// `after q e`.
    Timed(Box<Timer>),
    /// `repeatedly q e`.
    Ticked(Box<Ticker>),
    /// `delay q e`.
    Delayed(Box<Line>),
    /// `takeEvents n` or `dropEvents n`, with how many of the first n events are left; `once` is `takeEvents 1`.
    Selected(Selection, u64),
    /// `edge` or `iEdge e`; whether the input before was false.
    Edge(bool),
    /// `edgeTag e`; whether the input before was false, with the value of `e`.
    Tagged(bool, Value),
    /// `notYet`; whether there was a sample before.
    NotYet(bool),
    /// `count`, with how many events there were.
    Count(i64),
    /// `now e` before its first sample, with the value of `e`.
    Now(Value),
    /// `initially e` before its first sample, with the value of `e`.
    Initially(Value),
    /// `hold e`, with the last payload, or the value of `e` where there was none.
    Hold(Value),
    /// `dHold e`, with the same.
    DelayedHold(Value),
}

impl Drop for PrimState {
    #[inline(always)]
    fn drop(self) {
        match self {
            PrimState::Identity => {}
            PrimState::Never => {}
            PrimState::Constant(value) => drop(value),
            PrimState::Previous(value) => drop(value),
            PrimState::Arrow(code) => drop(code),
            PrimState::Closed(closure) => drop(closure),
            PrimState::Fused(links) => drop(links),
            PrimState::Accumulated(accumulator) => drop(accumulator),
            PrimState::Clock(_) => {}
            PrimState::Area(_) => {}
            PrimState::Timed(timer) => drop(timer),
            PrimState::Ticked(ticker) => drop(ticker),
            PrimState::Delayed(line) => drop(line),
            PrimState::Selected(_, _) => {}
            PrimState::Edge(_) => {}
            PrimState::Tagged(_, tag) => drop(tag),
            PrimState::NotYet(_) => {}
            PrimState::Count(_) => {}
            PrimState::Now(value) => drop(value),
            PrimState::Initially(value) => drop(value),
            PrimState::Hold(value) => drop(value),
            PrimState::DelayedHold(value) => drop(value),
        }
    }
}

impl PrimState {
    ghost use Rattle.std.specs.Prelude.{◌∷◌, ℕ};
    ghost use Rattle.std.specs.declared.rc.Rc.{Rc};
    ghost use Rattle.std.specs.declared.alloc.Global.{Global};
    ghost use Rattle.sf_code.specs.declared.open.OpenCode.{OpenCode};
    ghost use Rattle.sf_expr.specs.Evaluation.{answer, eval};
    ghost use Rattle.sf_term.specs.Trees.{Primitive};
    ghost use Rattle.sf_term.specs.Trees;
    ghost use Rattle.sf_law.specs.Entries.{primitive_over, chain_over, IsCodedPrimitive, IsCodedChain};
    ghost use Rattle.sf_mean.specs.Lives.{step, Life};
    ghost use Rattle.sf_prim.specs.Remembering.{Remembers, Begins, GoesOn};

    /// Puts a primitive before its first sample, with these names around it, in place of this one. Its constant is evaluated
    /// here; the error is the first fault of that, or `Memory`.
    #[inline(always)]
    pub fn begin<R: Holds, N: Names>(
        &mut self,
        alloc: Global,
        primitive: &PlanPrimitive,
        functions: &R,
        names: &N,
    ) -> Result<(), EvalFault>
        ensures { let x = N.expressions names.now in IsCodedPrimitive x primitive.now →
            Begins (scope_with (N.values names.now) (R.answers functions.now)) (primitive_over x primitive.now) (gift result self.new) }
    {
        match primitive {
            // the commonest begin here, and the other forms by a call
            PlanPrimitive::Bare(form) => {
                self.begin_bare(*form);
                Ok(())
            }
            PlanPrimitive::WithValue(form, _, code) => {
                self.begin_with_value(alloc, *form, code, functions, names)
            }
            PlanPrimitive::Arrow(_, code) => Ok(self.begin_arrow(alloc, code, names)?),
            _ => self.begin_form(alloc, primitive, functions, names),
        }
    }

    // The same of any form.
    #[inline(never)]
    fn begin_form<R: Holds, N: Names>(
        &mut self,
        alloc: Global,
        primitive: &PlanPrimitive,
        functions: &R,
        names: &N,
    ) -> Result<(), EvalFault>
        ensures { let x = N.expressions names.now in IsCodedPrimitive x primitive.now →
            Begins (scope_with (N.values names.now) (R.answers functions.now)) (primitive_over x primitive.now) (gift result self.new) }
    {
        match primitive {
            PlanPrimitive::Bare(form) => {
                self.begin_bare(*form);
                Ok(())
            }
            PlanPrimitive::Never(_) => {
                *self = PrimState::Never;
                Ok(())
            }
            PlanPrimitive::WithValue(form, _, code) => {
                self.begin_with_value(alloc, *form, code, functions, names)
            }
            PlanPrimitive::Timed(form, time, _, code) => {
                *self = PrimState::waiting(alloc, *form, *time, code, functions, names)?;
                Ok(())
            }
            PlanPrimitive::Selected(form, count) => {
                *self = PrimState::Selected(*form, span_of(*count));
                Ok(())
            }
            PlanPrimitive::Arrow(_, code) => Ok(self.begin_arrow(alloc, code, names)?),
            PlanPrimitive::Fused(chain) => {
                *self = PrimState::linked(alloc, chain, names)?;
                Ok(())
            }
            PlanPrimitive::Accumulated(form, _, start, _, code) => {
                *self = PrimState::accumulated(alloc, *form, start, code, functions, names)?;
                Ok(())
            }
        }
    }

    // The same of a primitive with a value, which is evaluated here. Each group of forms begins in a function of its own, which
    // makes room for its own values alone; so below.
    #[inline(never)]
    fn begin_with_value<R: Holds, N: Names>(
        &mut self,
        alloc: Global,
        form: WithValue,
        code: &OpenCode,
        functions: &R,
        names: &N,
    ) -> Result<(), EvalFault>
        ensures { (e : Expression) → IsCodeOf (N.expressions names.now) e code.now →
            Begins (scope_with (N.values names.now) (R.answers functions.now)) (Trees.with_value form e) (gift result self.new) }
    {
        let value = evaluate_among(alloc, code, names, functions)?;
        self.put_value(form, value);
        Ok(())
    }

    // A primitive with a time, which is evaluated here.
    #[inline(never)]
    fn waiting<R: Holds, N: Names>(
        alloc: Global,
        form: Timing,
        time: i64,
        code: &OpenCode,
        functions: &R,
        names: &N,
    ) -> Result<PrimState, EvalFault>
        ensures { (e : Expression) → IsCodeOf (N.expressions names.now) e code.now →
            Begins (scope_with (N.values names.now) (R.answers functions.now)) (Trees.timed form time e) result }
    {
        let value = evaluate_among(alloc, code, names, functions)?;
        Ok(PrimState::timed(alloc, form, time, value)?)
    }

    // The same of one with a function.
    #[inline(never)]
    fn accumulated<R: Holds, N: Names>(
        alloc: Global,
        form: Accumulation,
        start: &OpenCode,
        code: &Rc<OpenCode>,
        functions: &R,
        names: &N,
    ) -> Result<PrimState, EvalFault>
        ensures { (e : Expression) (f : Function) → IsCodeOf (N.expressions names.now) e start.now → IsCodeOfFunction (N.expressions names.now) f code.now.value →
            Begins (scope_with (N.values names.now) (R.answers functions.now)) (Trees.accumulated form e f) result }
    {
        let value = evaluate_among(alloc, start, names, functions)?;
        let closure = Closure::new(alloc, code, names)?;
        let accumulator = Accumulator {
            form,
            closure,
            value,
        };
        Ok(PrimState::Accumulated(Box::new(alloc, accumulator)?))
    }

    // Functions that are made into one, with these names around them.
    #[inline(never)]
    fn linked<N: Names>(
        alloc: Global,
        chain: &PlanChain,
        names: &N,
    ) -> Result<PrimState, AllocError>
        ensures { let x = N.expressions names.now in IsCodedChain x chain.now → IfOk result (λ prim. (φ : AnswersByName) →
            Remembers prim (Trees.fused (chain_over x chain.now)) (scope_with (N.values names.now) φ) []) }
    {
        let links = links_of(alloc, chain, names)?;
        Ok(PrimState::Fused(Rc::new(alloc, links)?))
    }

    // Puts `arr f` in place of this one: the code alone, where it has no name around it.
    #[inline(always)]
    fn begin_arrow<N: Names>(
        &mut self,
        alloc: Global,
        code: &Rc<OpenCode>,
        names: &N,
    ) -> Result<(), AllocError>
        ensures kept { OnOk result ((φ : AnswersByName) (f : Function) → IsCodeOfFunction (N.expressions names.now) f code.now.value → Remembers self.new (Trees.arrow f) (scope_with (N.values names.now) φ) []) }
        ensures bare { code.now.value.around ≡ None → OnOk result ((own : Rc OpenCode Global) × (self.new ≡ PrimState.Arrow own)) }
    {
        match &code.around {
            None => {
                let own = code.clone()?;
                *self = PrimState::Arrow(own);
            }
            Some(_) => *self = PrimState::closed(alloc, code, names)?,
        }
        Ok(())
    }

    // `arr f` with the values of the names around it.
    #[inline(never)]
    fn closed<N: Names>(
        alloc: Global,
        code: &Rc<OpenCode>,
        names: &N,
    ) -> Result<PrimState, AllocError>
        ensures { IfOk result (λ prim. (φ : AnswersByName) (f : Function) → IsCodeOfFunction (N.expressions names.now) f code.now.value → Remembers prim (Trees.arrow f) (scope_with (N.values names.now) φ) []) }
    {
        let closure = Closure::new(alloc, code, names)?;
        Ok(PrimState::Closed(Rc::new(alloc, closure)?))
    }

    // Puts a primitive without constants, before its first sample, in place of this one.
    #[inline(always)]
    fn begin_bare(&mut self, form: Bare)
        ensures { (s : Scope) → Remembers self.new (Trees.bare form) s [] }
    {
        match form {
            Bare::Identity => *self = PrimState::Identity,
            Bare::LocalTime => *self = PrimState::Clock(None),
            Bare::Integral => *self = PrimState::Area(Sum::born()),
            Bare::Edge => *self = PrimState::Edge(false),
            Bare::NotYet => *self = PrimState::NotYet(false),
            Bare::Once => *self = PrimState::Selected(Selection::TakeEvents, 1),
            Bare::Count => *self = PrimState::Count(0),
            // it makes no sense at the first sample
            Bare::Pre => *self = PrimState::Previous(Value::int(0)),
        }
    }

    // Puts a primitive with its value, before its first sample, in place of this one.
    #[inline(always)]
    fn put_value(&mut self, form: WithValue, value: Value)
        ensures { (s : Scope) (e : Expression) → eval e s ≡ answer value → Remembers self.new (Trees.with_value form e) s [] }
    {
        match form {
            WithValue::Constant => *self = PrimState::Constant(value),
            WithValue::Initially => *self = PrimState::Initially(value),
            WithValue::InitialPre => *self = PrimState::Previous(value),
            WithValue::InitializedPre => *self = PrimState::Previous(value),
            WithValue::Now => *self = PrimState::Now(value),
            WithValue::InitialEdge => *self = PrimState::Edge(is_low(&value)),
            WithValue::EdgeTag => *self = PrimState::Tagged(false, value),
            WithValue::Hold => *self = PrimState::Hold(value),
            WithValue::DelayedHold => *self = PrimState::DelayedHold(value),
        }
    }

    // A primitive with a time and its value, before its first sample.
    fn timed(alloc: Global, form: Timing, time: i64, value: Value) -> Result<PrimState, AllocError>
        ensures { IfOk result (λ prim. (s : Scope) (e : Expression) → eval e s ≡ answer value → Remembers prim (Trees.timed form time e) s []) }
    {
        match form {
            Timing::After => {
                let timer = Box::new(alloc, Timer::born(time, value))?;
                Ok(PrimState::Timed(timer))
            }
            Timing::Repeatedly => {
                let ticker = Ticker::born(alloc, time, value)?;
                let ticking = Box::new(alloc, ticker)?;
                Ok(PrimState::Ticked(ticking))
            }
            Timing::Delay => {
                let line = Box::new(alloc, Line::born(alloc, time, value))?;
                Ok(PrimState::Delayed(line))
            }
        }
    }

    /// Puts the value at the next sample, `dt` milliseconds after the one before, in place of the input. The error is the
    /// fault of the primitive's formula, or `Memory`; after it the state stands for nothing, and the value may be any.
    #[inline(always)]
    pub fn step<R: Holds>(
        &mut self,
        alloc: Global,
        functions: &R,
        dt: u64,
        value: &mut Value,
    ) -> Result<(), EvalFault>
        ensures { (q : Primitive) (scope : Scope) (L : Life) → scope_functions scope ≡ R.answers functions.now →
            Remembers self.old q scope L → GoesOn q scope (step dt value.old) L self.new (gift result value.new) }
    {
        match self {
            PrimState::Identity => Ok(()),
            PrimState::Never => {
                *value = Value::no_event();
                Ok(())
            }
            PrimState::Constant(constant) => copy(alloc, constant, value),
            PrimState::Previous(next) => {
                mem::swap(next, value);
                Ok(())
            }
            PrimState::Arrow(code) => replace(alloc, code, functions, value),
            PrimState::Closed(closure) => apply_closure(alloc, closure, functions, value),
            PrimState::Fused(links) => run_links(alloc, links, functions, value),
            PrimState::Accumulated(accumulator) => accumulate(alloc, accumulator, functions, value),
            PrimState::Clock(clock) => tell_time(clock, dt, value),
            PrimState::Area(sum) => sum.step(dt, value),
            PrimState::Timed(timer) => timer.step(alloc, dt, value),
            PrimState::Ticked(ticker) => ticker.step(alloc, dt, value),
            PrimState::Delayed(line) => line.step(alloc, dt, value),
            PrimState::Selected(form, left) => {
                select(*form, left, value);
                Ok(())
            }
            PrimState::Edge(low) => rise(alloc, low, value),
            PrimState::Tagged(low, tag) => rise_with(alloc, low, tag, value),
            PrimState::NotYet(begun) => {
                pass_later(begun, value);
                Ok(())
            }
            PrimState::Count(count) => count_event(alloc, count, value),
            PrimState::Now(first) => {
                let given = mem::replace(first, Value::int(0));
                *self = PrimState::Never;
                announce(alloc, given, value)
            }
            PrimState::Initially(first) => {
                *value = mem::replace(first, Value::int(0));
                *self = PrimState::Identity;
                Ok(())
            }
            PrimState::Hold(last) => hold(alloc, last, value),
            PrimState::DelayedHold(last) => hold_before(alloc, last, value),
        }
    }

    /// Puts the value at the next sample of `arr` of a function, of which the state is this code, in place of the input. The error is
    /// the first fault of the function, or `Memory`; after it the value may be any.
    #[inline(always)]
    pub fn step_arrow<R: Holds>(
        alloc: Global,
        code: &Rc<OpenCode>,
        functions: &R,
        value: &mut Value,
    ) -> Result<(), EvalFault>
        ensures { (dt : ℕ) (q : Primitive) (scope : Scope) (L : Life) → scope_functions scope ≡ R.answers functions.now →
            Remembers (PrimState.Arrow code.now) q scope L → GoesOn q scope (step dt value.old) L (PrimState.Arrow code.now) (gift result value.new) }
    {
        replace(alloc, code, functions, value)
    }

    /// The value at the next sample of `arr` of a function, of which the state is this code, on the pair of two values. The error is the first fault of the function, or `Memory`.
    #[inline(always)]
    pub fn step_arrow_beside<R: Holds>(
        alloc: Global,
        code: &Rc<OpenCode>,
        functions: &R,
        first: &Value,
        second: &Value,
    ) -> Result<Value, EvalFault>
        ensures { (dt : ℕ) (q : Primitive) (scope : Scope) (L : Life) → scope_functions scope ≡ R.answers functions.now →
            Remembers (PrimState.Arrow code.now) q scope L → GoesOn q scope (step dt (pair first.now second.now)) L (PrimState.Arrow code.now) result }
    {
        apply_beside(alloc, &code.code, first, second, functions)
    }

    /// A copy, which keeps the same of a life. It shares the code of a function; the error is a want of memory, or too
    /// many owners of the code.
    #[inline(always)]
    pub fn clone_in(&self, alloc: Global) -> Result<PrimState, AllocError>
        ensures { IfOk result (λ copy. (q : Primitive) (scope : Scope) (L : Life) →
            Remembers self.now q scope L → Remembers copy q scope L) }
    {
        match self {
            // the commonest are copied here, and the other forms by a call
            PrimState::Previous(value) => Ok(PrimState::Previous(value.clone_in(alloc)?)),
            PrimState::Arrow(code) => {
                let shared = code.clone()?;
                Ok(PrimState::Arrow(shared))
            }
            PrimState::Clock(clock) => Ok(PrimState::Clock(*clock)),
            PrimState::Area(sum) => Ok(PrimState::Area(*sum)),
            PrimState::NotYet(begun) => Ok(PrimState::NotYet(*begun)),
            _ => self.clone_form(alloc),
        }
    }

    // The same of any form.
    #[inline(never)]
    fn clone_form(&self, alloc: Global) -> Result<PrimState, AllocError>
        ensures { IfOk result (λ copy. (q : Primitive) (scope : Scope) (L : Life) →
            Remembers self.now q scope L → Remembers copy q scope L) }
    {
        match self {
            PrimState::Identity => Ok(PrimState::Identity),
            PrimState::Never => Ok(PrimState::Never),
            PrimState::Constant(value) => Ok(PrimState::Constant(value.clone_in(alloc)?)),
            PrimState::Previous(value) => Ok(PrimState::Previous(value.clone_in(alloc)?)),
            PrimState::Arrow(code) => {
                let shared = code.clone()?;
                Ok(PrimState::Arrow(shared))
            }
            PrimState::Closed(closure) => {
                let same = closure.clone()?;
                Ok(PrimState::Closed(same))
            }
            PrimState::Fused(links) => {
                let same = links.clone()?;
                Ok(PrimState::Fused(same))
            }
            PrimState::Accumulated(accumulator) => {
                let kept = accumulator.clone_in(alloc)?;
                let copy = Box::new(alloc, kept)?;
                Ok(PrimState::Accumulated(copy))
            }
            PrimState::Clock(clock) => Ok(PrimState::Clock(*clock)),
            PrimState::Area(sum) => Ok(PrimState::Area(*sum)),
            PrimState::Timed(timer) => {
                let kept = timer.clone_in(alloc)?;
                let copy = Box::new(alloc, kept)?;
                Ok(PrimState::Timed(copy))
            }
            PrimState::Ticked(ticker) => {
                let kept = ticker.clone_in(alloc)?;
                let copy = Box::new(alloc, kept)?;
                Ok(PrimState::Ticked(copy))
            }
            PrimState::Delayed(line) => {
                let kept = line.clone_in(alloc)?;
                let copy = Box::new(alloc, kept)?;
                Ok(PrimState::Delayed(copy))
            }
            PrimState::Selected(form, left) => Ok(PrimState::Selected(*form, *left)),
            PrimState::Edge(low) => Ok(PrimState::Edge(*low)),
            PrimState::Tagged(low, tag) => Ok(PrimState::Tagged(*low, tag.clone_in(alloc)?)),
            PrimState::NotYet(begun) => Ok(PrimState::NotYet(*begun)),
            PrimState::Count(count) => Ok(PrimState::Count(*count)),
            PrimState::Now(value) => Ok(PrimState::Now(value.clone_in(alloc)?)),
            PrimState::Initially(value) => Ok(PrimState::Initially(value.clone_in(alloc)?)),
            PrimState::Hold(value) => Ok(PrimState::Hold(value.clone_in(alloc)?)),
            PrimState::DelayedHold(value) => Ok(PrimState::DelayedHold(value.clone_in(alloc)?)),
        }
    }
}

// A copy of a constant, in place of the input.
#[inline(never)]
fn copy(alloc: Global, constant: &Value, value: &mut Value) -> Result<(), EvalFault>
    ensures ok { OnOk result (value.new ≡ constant.now) }
    ensures err { IfErr result (λ e. e ≡ Memory) }
{
    *value = constant.clone_in(alloc)?;
    Ok(())
}

// What a function without names around it makes of the input, in its place.
#[inline(never)]
fn replace<R: Holds>(
    alloc: Global,
    code: &OpenCode,
    functions: &R,
    value: &mut Value,
) -> Result<(), EvalFault>
    ensures { (s : Scope) → scope_functions s ≡ R.answers functions.now → (f : Function) → AnswersAsFunction s f [] code.now.code →
        Evaluates (gift result value.new) (apply f value.old s) }
{
    apply_in_place(alloc, &code.code, &None, functions, value)
}
