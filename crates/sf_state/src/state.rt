//! The states of networks.
ghost use Rattle.std.specs.Prelude.{◌≡◌, [], ◌∷◌, length, false, IfOk, OnOk, IsTrue, IsFalse};
ghost use Rattle.sf_value.specs.Values.{Data};
ghost use Rattle.sf_func.specs.Registries.{AnswersByName};
ghost use Rattle.sf_law.specs.declared.plan.Plan.{Plan};
ghost use Rattle.sf_expr.specs.Arena.{stored_pattern, name_at};
ghost use Rattle.sf_expr.specs.Patterns.{pattern_of};
ghost use Rattle.sf_law.specs.Arena.{plan_expressions, plan_tree, plan_asks};
ghost use Rattle.sf_mean.specs.Lives.{base, bind, closure, resumed, empty, running, collected, each_frozen, Environment, Step, Life};
ghost use Rattle.sf_mean.specs.Lives;
ghost use Rattle.sf_mean.specs.Meaning.{body_of};
ghost use Rattle.sf_state.specs.declared.env.Env as environments;
ghost use Rattle.sf_state.specs.declared.state.State.TheVariants as StateOf;
ghost use Rattle.sf_state.specs.Held.{gathered_holding};
ghost use Rattle.sf_state.specs.Standing.{IsNames, Stands, Ready, Waits, WaitsContinuation, WaitsGathered, Gathers, IsProcess, AllFollow, frozen_state, is_copied, is_frozen};
ghost use Rattle.sf_state.specs.Machine.{Machine, machine};
ghost use Rattle.sf_state.specs.Names.{bound_value};

use crate::env::{Env, Handed, Payload};
use crate::feedback::Feedback;
use sf_expr::{NameId, PatternId};
use sf_law::{Plan, PlanCollection, PlanId, ShortId};
use sf_prim::PrimState;
use sf_term::{Join, Observation, Switching};
use sf_value::{Keys, Value, ValueFault};
use std::alloc::{AllocError, Global};
use std::mem;
use std::rc::Rc;

/// A part of a network, before its first sample or after it. It is whole in itself.
#[cycle(state)]
pub enum State {
    /// It hasn't been stepped.
    Unborn(Process),
    /// A primitive that has lived through some samples. It is small, and stands here itself.
    Primitive(PrimState),
    /// A primitive that has lived through some samples on the values of an `arr` of its plan, which keeps nothing. It is small, and
    /// stands here itself.
    Mapped(ShortId, PrimState),
    /// Two primitives in sequence that have lived through some samples. Their node may be shared.
    Primitives(Rc<Primitives>),
    /// It has lived through some samples, with these names around it. Its node may be shared.
    Live(Env, Rc<Live>),
    /// A switch that waits for an event, with these names around it. Its node may be shared.
    Switch(Env, Rc<Switch>),
    /// A switch that keeps its source and waits for an event, with these names around it. Its node may be shared.
    Continuation(Env, Rc<Continuation>),
    /// Members that wait for an event, with these names around them. Their node may be shared.
    Gathering(Env, Rc<Gathering>),
    /// It was frozen after some samples, and hasn't been stepped since. Its node may be shared.
    Frozen(Rc<Frozen>),
}

impl Drop for State {
    #[cycle(state)]
    #[inline]
    fn drop(self) {
        match self {
            State::Unborn(process) => drop(process),
            State::Primitive(prim) => drop(prim),
            State::Mapped(_, mapped) => drop(mapped),
            State::Primitives(node) => drop(node),
            State::Live(names, node) => {
                drop(names);
                drop(node);
            }
            State::Switch(names, node) => {
                drop(names);
                drop(node);
            }
            State::Continuation(names, node) => {
                drop(names);
                drop(node);
            }
            State::Gathering(names, node) => {
                drop(names);
                drop(node);
            }
            State::Frozen(node) => drop(node),
        }
    }
}

impl State {
    ghost use Rattle.std.specs.Prelude.{◌≤◌};
    ghost use Rattle.sf_state.specs.declared.env.Env.{size-Env};
    ghost use Rattle.sf_state.specs.declared.state.State.{size-State};

    // The names around the part, once the rest is let go.
    #[cycle(state)]
    pub(crate) fn left(self) -> Env
        ensures { size-Env result ≤ size-State self }
    {
        match self {
            State::Unborn(process) => process.left(),
            State::Primitive(prim) => {
                drop(prim);
                Env::Empty
            }
            State::Mapped(_, mapped) => {
                drop(mapped);
                Env::Empty
            }
            State::Primitives(node) => {
                drop(node);
                Env::Empty
            }
            State::Live(names, node) => {
                drop(node);
                names
            }
            State::Switch(names, node) => {
                drop(node);
                names
            }
            State::Continuation(names, node) => {
                drop(node);
                names
            }
            State::Gathering(names, node) => {
                drop(node);
                names
            }
            State::Frozen(node) => match Rc::into_inner(node) {
                Some(frozen) => {
                    let Frozen {
                        wait: _,
                        names,
                        node,
                    } = frozen;
                    drop(node);
                    names
                }
                None => Env::Empty,
            },
        }
    }
}

/// A switch that waits for an event: what runs until then, and the body that runs from then on inside a pattern.
#[cycle(state)]
pub struct Switch {
    /// Where its events stand, and whose value shows at one.
    pub form: Switching,
    /// What runs: its first term, or in a recurring switch after an event its body.
    pub running: State,
    /// The pattern that is bound to the event's payload.
    pub pattern: PatternId,
    /// The body.
    pub body: PlanId,
}

impl Drop for Switch {
    #[cycle(state)]
    fn drop(self) {
        let Switch {
            form: _,
            running,
            pattern: _,
            body: _,
        } = self;
        drop(running);
    }
}

/// A switch that waits for an event, and then hands its body what ran until then, frozen.
#[cycle(state)]
pub struct Continuation {
    /// Whose value shows at the event.
    pub shown: Observation,
    /// Its first term.
    pub first: PlanId,
    /// What runs: the first term.
    pub source: State,
    /// What ran, as it was before the last sample, in nodes that the next sample uses again.
    pub before: State,
    /// What gives the event, on the inputs beside the values of what runs.
    pub observer: State,
    /// The name of what ran, frozen, in the body.
    pub name: NameId,
    /// The pattern that is bound to the event's payload.
    pub pattern: PatternId,
    /// The body.
    pub body: PlanId,
}

impl Drop for Continuation {
    #[cycle(state)]
    fn drop(self) {
        let Continuation {
            shown: _,
            first: _,
            source,
            before,
            observer,
            name: _,
            pattern: _,
            body: _,
        } = self;
        drop(source);
        drop(before);
        drop(observer);
    }
}

/// Members that wait for an event.
#[derive(Drop)]
#[cycle(state)]
pub enum Gathering {
    /// Members under an observer, which give way to a body.
    Releasing(Releasing),
    /// Members that are edited at each event beside an input.
    Editing(Editing),
}

/// Members under an observer, which give way at an event to a body that knows them, frozen.
#[derive(Drop)]
#[cycle(state)]
pub struct Releasing {
    /// Whose value shows at the event.
    pub shown: Observation,
    /// The members that run.
    pub members: Gathered,
    /// The members as they were before the last sample, in nodes that the next sample uses again.
    pub before: Gathered,
    /// What gives the event, on the inputs beside the tables of the members' values.
    pub observer: State,
    /// The name of the members, frozen, in the body.
    pub name: NameId,
    /// The pattern that is bound to the event's payload.
    pub pattern: PatternId,
    /// The body.
    pub body: PlanId,
}

/// Members that are edited at each event beside the input.
#[derive(Drop)]
#[cycle(state)]
pub struct Editing {
    /// Whose value shows at an event.
    pub shown: Observation,
    /// The members that run.
    pub members: Gathered,
    /// The name of the members, frozen, in the edit.
    pub name: NameId,
    /// The pattern that is bound to an event's payload.
    pub pattern: PatternId,
    /// The collection that they become.
    pub edit: Rc<PlanCollection>,
}

/// A part that was frozen after some samples.
#[derive(Drop)]
#[cycle(state)]
pub struct Frozen {
    /// The milliseconds from its last sample to the one at which it goes on.
    pub wait: u64,
    /// The names around it.
    pub names: Env,
    /// Its node.
    pub node: FrozenNode,
}

/// The node of a part that was frozen, which may be shared.
#[derive(Drop)]
#[cycle(state)]
pub enum FrozenNode {
    /// Of a primitive, which is its own.
    Primitive(PrimState),
    /// Of a primitive on the values of an `arr` of its plan.
    Mapped(ShortId, PrimState),
    /// Of two primitives in sequence.
    Primitives(Rc<Primitives>),
    /// Of a part that goes on as it is.
    Live(Rc<Live>),
    /// Of a switch that waits for an event.
    Switch(Rc<Switch>),
    /// Of a switch that keeps its source and waits for an event.
    Continuation(Rc<Continuation>),
    /// Of members that wait for an event.
    Gathering(Rc<Gathering>),
}

/// Two primitives, the second on the values of the first. They have what they need of the names around them.
#[derive(Drop)]
pub struct Primitives {
    /// The one that is given the input.
    pub first: PrimState,
    /// The one whose value shows.
    pub second: PrimState,
}

/// A part that has lived and is no primitive, by its form.
#[cycle(state)]
pub enum Live {
    /// A probe, with its name, which what it records shares.
    Probe(Rc<String>),
    /// Two parts joined, the left one first.
    Join(Join, State, State),
    /// Stages, each on the values of the one before it.
    Pipeline(Vec<State>),
    /// A form with one part.
    Wrap(Wrap, State),
    /// The members of a collection.
    Gathered(Gathered),
}

impl Drop for Live {
    #[cycle(state)]
    fn drop(self) {
        match self {
            Live::Probe(name) => drop(name),
            Live::Join(_, left, right) => {
                drop(left);
                drop(right);
            }
            Live::Pipeline(stages) => drop(stages),
            Live::Wrap(wrap, part) => {
                drop(wrap);
                drop(part);
            }
            Live::Gathered(members) => drop(members),
        }
    }
}

/// The members of a collection, in order: their keys, and what stands under each.
#[derive(Drop)]
#[cycle(state)]
pub struct Gathered {
    /// The keys. They may be shared.
    pub keys: Rc<Keys>,
    /// The states, each under the key at its place. Their list may be shared, and so may their nodes.
    pub states: Rc<Vec<State>>,
    /// Where the members were frozen and none has been stepped since: the milliseconds from the last sample of each that had
    /// lived to the one at which it goes on.
    pub wait: Option<u64>,
}

/// A form with one part, with what it keeps.
pub enum Wrap {
    /// `first`.
    First,
    /// `second`.
    Second,
    /// `loopPre`, with what it feeds its part with next.
    Loop(Feedback),
    /// `-->`, with the value of its head before the first sample.
    Initialized(Option<Value>),
    /// `>--`, with the value of its head before the first sample; `>=-`, with what its function made of the first input.
    Replaced(Option<Value>),
    /// `fby`, with what its part gave at the sample before; before the first sample with the value of its head, or its fault.
    Followed(Result<Value, ValueFault>),
}

impl Drop for Wrap {
    fn drop(self) {
        match self {
            Wrap::First => {}
            Wrap::Second => {}
            Wrap::Loop(feedback) => drop(feedback),
            Wrap::Initialized(first) => drop(first),
            Wrap::Replaced(first) => drop(first),
            Wrap::Followed(last) => drop(last),
        }
    }
}

/// What can be run: a term with the names around it.
#[cycle(state)]
pub struct Process {
    /// The term.
    pub term: PlanId,
    /// What the names around it stand for.
    pub names: Env,
}

impl Drop for Process {
    #[cycle(state)]
    #[inline]
    fn drop(self) {
        let Process { term: _, names } = self;
        drop(names);
    }
}

impl State {
    /// Puts another state in the place of this one.
    #[inline(always)]
    pub fn put(&mut self, next: State)
        ensures { self.new ≡ next }
    {
        mem::replace(self, next).let_go();
    }

    // What hasn't begun and has no names around it is let go of without a call.
    #[inline(always)]
    fn let_go(self) {
        match self {
            State::Unborn(process) => drop(process),
            other => drop(other),
        }
    }

    /// A term without names, before its first sample.
    pub fn unborn(term: PlanId) -> State
        ensures { (μ : Machine) → Stands μ result (closure (plan_tree μ.plan term) empty) [] }
    {
        State::Unborn(Process {
            term,
            names: Env::Empty,
        })
    }

    /// The same state, over the same node: it copies primitives without a node alone, and no step of one of the two changes the other.
    /// The error is a want of memory, or too many owners of one node.
    #[inline(always)]
    pub fn share(&self, alloc: Global) -> Result<State, AllocError>
        ensures { IfOk result (λ shared. (μ : Machine) (P : Lives.Process) (L : Life) → Stands μ self.now P L → Stands μ shared P L) }
    {
        match self {
            State::Primitive(primitive) => {
                let copy = primitive.clone_in(alloc)?;
                Ok(State::Primitive(copy))
            }
            State::Mapped(arrow, mapped) => {
                let next = mapped.clone_in(alloc)?;
                Ok(State::Mapped(*arrow, next))
            }
            _ => self.share_node(),
        }
    }

    // The same of a state that is not copied.
    #[inline(never)]
    fn share_node(&self) -> Result<State, AllocError>
        requires { IsFalse (is_copied self.now) }
        ensures { IfOk result (λ shared. (μ : Machine) (P : Lives.Process) (L : Life) → Stands μ self.now P L → Stands μ shared P L) }
    {
        match self {
            State::Unborn(process) => {
                let same = process.share()?;
                Ok(State::Unborn(same))
            }
            State::Primitives(node) => {
                let both = node.clone()?;
                Ok(State::Primitives(both))
            }
            State::Live(names, node) => {
                let around = names.share()?;
                let shared = node.clone()?;
                Ok(State::Live(around, shared))
            }
            State::Switch(names, node) => {
                let kept = names.share()?;
                let watching = node.clone()?;
                Ok(State::Switch(kept, watching))
            }
            State::Continuation(names, node) => {
                let outer = names.share()?;
                let continuing = node.clone()?;
                Ok(State::Continuation(outer, continuing))
            }
            State::Gathering(names, node) => {
                let beside = names.share()?;
                let gathering = node.clone()?;
                Ok(State::Gathering(beside, gathering))
            }
            State::Frozen(frozen) => {
                let rest = frozen.clone()?;
                Ok(State::Frozen(rest))
            }
            State::Primitive(_) | State::Mapped(_, _) => unreachable!(),
        }
    }

    /// What the part is from here on, to go on in another place `wait` milliseconds after its last sample: it shares its
    /// nodes, so it takes memory for one node, whatever the size of the part, and no step of one of the two changes the
    /// other. A part that hasn't been stepped is as it was. The error is a want of memory, or too many owners of one node.
    pub fn freeze(&self, alloc: Global, wait: u64) -> Result<State, AllocError>
        ensures { IfOk result (λ frozen. (μ : Machine) (P : Lives.Process) (L : Life) → Stands μ self.now P L →
            Stands μ frozen (Lives.frozen P L wait) []) }
    {
        match self {
            State::Unborn(_) | State::Frozen(_) => self.share(alloc),
            State::Live(names, node) => {
                let live = node.clone()?;
                freeze_node(alloc, wait, names, FrozenNode::Live(live))
            }
            State::Switch(names, node) => {
                let switch = node.clone()?;
                freeze_node(alloc, wait, names, FrozenNode::Switch(switch))
            }
            State::Continuation(names, node) => {
                let continuing = node.clone()?;
                freeze_node(alloc, wait, names, FrozenNode::Continuation(continuing))
            }
            State::Gathering(names, node) => {
                let gathering = node.clone()?;
                freeze_node(alloc, wait, names, FrozenNode::Gathering(gathering))
            }
            State::Primitive(primitive) => {
                let copy = primitive.clone_in(alloc)?;
                let nothing = Env::Empty;
                freeze_node(alloc, wait, &nothing, FrozenNode::Primitive(copy))
            }
            State::Mapped(arrow, mapped) => {
                let next = mapped.clone_in(alloc)?;
                let without = Env::Empty;
                freeze_node(alloc, wait, &without, FrozenNode::Mapped(*arrow, next))
            }
            State::Primitives(node) => {
                let both = node.clone()?;
                let none = Env::Empty;
                freeze_node(alloc, wait, &none, FrozenNode::Primitives(both))
            }
        }
    }

    /// Makes this state stand for all that another one stands for: joins and forms with one part are copied into this one's
    /// own nodes, where it has the same form there and has the node alone, and that takes no memory; the rest is shared. No
    /// step of one of the two changes the other. After an error, which is a want of memory or too many owners of one node,
    /// it stands for nothing.
    #[cycle(renew)]
    pub fn renew(&mut self, alloc: Global, other: &State) -> Result<(), AllocError>
        ensures { OnOk result ((μ : Machine) (P : Lives.Process) (L : Life) → Stands μ other.now P L → Stands μ self.new P L) }
    {
        match other {
            State::Live(names, node) => {
                if let State::Live(around, own) = self {
                    if let Some(live) = Rc::get_mut(own) {
                        let shared = names.share()?;
                        *around = shared;
                        return live.renew(alloc, node);
                    }
                }
            }
            State::Primitives(node) => {
                if let State::Primitives(own) = self {
                    if let Some(both) = Rc::get_mut(own) {
                        return both.renew(alloc, node);
                    }
                }
            }
            _ => {}
        }
        let shared = other.share(alloc)?;
        *self = shared;
        Ok(())
    }
}

// A node with these names around it, frozen.
#[inline(always)]
fn freeze_node(alloc: Global, wait: u64, names: &Env, node: FrozenNode) -> Result<State, AllocError>
    ensures { IfOk result (λ frozen. (μ : Machine) (P : Lives.Process) (s : Step) (h : Life) → Stands μ (frozen_state names.now node) P (s ∷ h) →
        Stands μ frozen (resumed P (s ∷ h) wait) []) }
{
    let around = names.share()?;
    let frozen = Frozen {
        wait,
        names: around,
        node,
    };
    Ok(State::Frozen(Rc::new(alloc, frozen)?))
}

impl Primitives {
    ghost use Rattle.sf_state.specs.Standing.{in_sequence};

    /// A copy of both. The error is a want of memory, or too many owners of a function's code.
    #[inline(always)]
    pub fn clone_in(&self, alloc: Global) -> Result<Primitives, AllocError>
        ensures { IfOk result (λ copy. (μ : Machine) (P : Lives.Process) (x : Data) (L : Life) → Ready μ (in_sequence self.now) P x L → Ready μ (in_sequence copy) P x L) }
    {
        let first = self.first.clone_in(alloc)?;
        let second = self.second.clone_in(alloc)?;
        Ok(Primitives { first, second })
    }

    // Makes these stand for all that others stand for, as `State::renew` does. It is a call, since a state is seldom renewed so.
    #[inline(never)]
    fn renew(&mut self, alloc: Global, other: &Primitives) -> Result<(), AllocError>
        ensures { OnOk result ((μ : Machine) (P : Lives.Process) (x : Data) (L : Life) → Ready μ (in_sequence other.now) P x L → Ready μ (in_sequence self.new) P x L) }
    {
        let copy = other.clone_in(alloc)?;
        *self = copy;
        Ok(())
    }
}

impl Live {
    /// A copy of the node over the same parts, which are shared.
    pub fn clone_in(&self, alloc: Global) -> Result<Live, AllocError>
        ensures { IfOk result (λ copy. (μ : Machine) (P : Lives.Process) (x : Data) (L : Life) → Ready μ self.now P x L → Ready μ copy P x L) }
    {
        match self {
            Live::Join(join, left, right) => {
                let first = left.share(alloc)?;
                let second = right.share(alloc)?;
                Ok(Live::Join(*join, first, second))
            }
            Live::Probe(name) => {
                let same = name.clone()?;
                Ok(Live::Probe(same))
            }
            Live::Pipeline(stages) => {
                let shared = share_all(alloc, stages)?;
                Ok(Live::Pipeline(shared))
            }
            Live::Wrap(wrap, part) => {
                let kept = wrap.clone_in(alloc)?;
                let inner = part.share(alloc)?;
                Ok(Live::Wrap(kept, inner))
            }
            Live::Gathered(members) => {
                let all = members.share()?;
                Ok(Live::Gathered(all))
            }
        }
    }

    // Makes the node stand for all that another one stands for, as `State::renew` does.
    #[cycle(renew)]
    fn renew(&mut self, alloc: Global, other: &Live) -> Result<(), AllocError>
        ensures { OnOk result ((μ : Machine) (P : Lives.Process) (x : Data) (L : Life) → Ready μ other.now P x L → Ready μ self.new P x L) }
    {
        match other {
            Live::Join(join, left, right) => {
                if let Live::Join(own, first, second) = self {
                    *own = *join;
                    first.renew(alloc, left)?;
                    return second.renew(alloc, right);
                }
            }
            Live::Wrap(wrap, part) => {
                if let Live::Wrap(kept, inner) = self {
                    let copy = wrap.clone_in(alloc)?;
                    *kept = copy;
                    return inner.renew(alloc, part);
                }
            }
            _ => {}
        }
        let copy = other.clone_in(alloc)?;
        *self = copy;
        Ok(())
    }
}

impl Gathered {
    ghost use Rattle.std.specs.Prelude.{◌≤◌};
    ghost use Rattle.sf_mean.specs.Lives.{no_members};
    ghost use Rattle.sf_state.specs.declared.env.Env.{size-Env};
    ghost use Rattle.sf_state.specs.declared.state.Gathered.{size-Gathered};

    // Some of the names around members, once the rest is let go: those that nothing else has, where there are any.
    #[cycle(state)]
    pub(crate) fn left(self) -> Env
        ensures { size-Env result ≤ size-Gathered self }
    {
        let Gathered {
            keys,
            states,
            wait: _,
        } = self;
        drop(keys);
        match Rc::into_inner(states) {
            Some(own) => {
                let mut states = own;
                while let Some(state) = states.pop() {
                    let names = state.left();
                    if names.is_last() {
                        return names;
                    }
                    drop(names);
                }
                Env::Empty
            }
            None => Env::Empty,
        }
    }

    /// No members.
    pub fn none(alloc: Global) -> Result<Gathered, AllocError>
        ensures { IfOk result (λ none. (μ : Machine) (L : Life) → Gathers μ (gathered_holding none) no_members L) }
    {
        let keys = Rc::new(alloc, Keys::new(alloc))?;
        let states = Rc::new(alloc, Vec::new(alloc))?;
        Ok(Gathered {
            keys,
            states,
            wait: None,
        })
    }

    /// The same members: they share all, so it takes no memory. The error is too many owners.
    pub fn share(&self) -> Result<Gathered, AllocError>
        ensures { IfOk result (λ same. gathered_holding same ≡ gathered_holding self.now) }
    {
        let keys = self.keys.clone()?;
        let states = self.states.clone()?;
        Ok(Gathered {
            keys,
            states,
            wait: self.wait,
        })
    }

    /// The members from here on, each to go on in another place `wait` milliseconds after its last sample. They share all, so
    /// it takes no memory, and no step of one of the two changes the other. The error is too many owners.
    pub fn freeze(&self, wait: u64) -> Result<Gathered, AllocError>
        ensures { IfOk result (λ frozen. (μ : Machine) (ms : Lives.Members) (L : Life) → Gathers μ (gathered_holding self.now) ms L →
            Gathers μ (gathered_holding frozen) (each_frozen ms L wait) []) }
    {
        let under = self.keys.clone()?;
        let all = self.states.clone()?;
        Ok(Gathered {
            keys: under,
            states: all,
            wait: Some(self.wait.unwrap_or(wait)),
        })
    }

    /// Makes these the members that others are, as `State::renew` does: each is copied into the nodes of the one at its place,
    /// where there are as many and nothing else has their list. Else the list is shared. After an error they stand for nothing.
    pub fn renew(&mut self, alloc: Global, other: &Gathered) -> Result<(), AllocError>
        ensures { OnOk result ((μ : Machine) (ms : Lives.Members) (L : Life) → Gathers μ (gathered_holding other.now) ms L → Gathers μ (gathered_holding self.new) ms L) }
    {
        let keys = other.keys.clone()?;
        renew_list(alloc, &mut self.states, &other.states)?;
        self.keys = keys;
        self.wait = other.wait;
        Ok(())
    }
}

impl Switch {
    /// A copy of the node over the same state, which is shared.
    pub fn clone_in(&self, alloc: Global) -> Result<Switch, AllocError>
        ensures { IfOk result (λ copy. (μ : Machine) (P : Lives.Process) (L : Life) → Waits μ self.now P L → Waits μ copy P L) }
    {
        let running = self.running.share(alloc)?;
        Ok(Switch {
            form: self.form,
            running,
            pattern: self.pattern,
            body: self.body,
        })
    }

    /// Its body before the first sample, inside its pattern for the payload of an event, where these names are around the
    /// switch. The error is a want of memory, or too many owners.
    pub fn begin(
        &self,
        alloc: Global,
        plan: &Plan,
        names: &Env,
        payload: Payload,
    ) -> Result<Process, AllocError>
        ensures { let p = plan.now in
            IfOk result (λ begun. (φ : AnswersByName) (e : Environment) → IsNames (machine φ p) names.now e →
            Stands (machine φ p) (StateOf.Unborn begun) (body_of (pattern_of (stored_pattern (plan_expressions p) self.now.pattern)) (plan_tree p self.now.body) e (bound_value payload)) []) }
    {
        let around = names.inside(alloc, plan, self.pattern, payload)?;
        Ok(Process {
            term: self.body,
            names: around,
        })
    }
}

impl Continuation {
    /// A copy of the node over the same states, which are shared. What ran before the last sample is left out.
    pub fn clone_in(&self, alloc: Global) -> Result<Continuation, AllocError>
        ensures { IfOk result (λ copy. (μ : Machine) (P : Lives.Process) (L : Life) → WaitsContinuation μ self.now P L → WaitsContinuation μ copy P L) }
    {
        let source = self.source.share(alloc)?;
        let observer = self.observer.share(alloc)?;
        Ok(Continuation {
            shown: self.shown,
            first: self.first,
            source,
            before: State::unborn(self.first),
            observer,
            name: self.name,
            pattern: self.pattern,
            body: self.body,
        })
    }

    /// Its body before the first sample, inside its pattern for the payload of an event, and around that the name of what
    /// ran before the event, frozen to go on `wait` milliseconds later, which began as its first term, where these names are
    /// around the switch; that it did is kept where the plan asks for it under that name. The error is a want of memory, or too
    /// many owners.
    pub fn begin(
        &self,
        alloc: Global,
        plan: &Plan,
        names: &Env,
        wait: u64,
        payload: Payload,
    ) -> Result<Process, AllocError>
        ensures { let p = plan.now in
            IfOk result (λ begun. (φ : AnswersByName) (e : Environment) (P : Lives.Process) (L : Life) → IsNames (machine φ p) names.now e → Stands (machine φ p) self.now.before P L →
            base P ≡ closure (plan_tree p self.now.first) e → Stands (machine φ p) (StateOf.Unborn begun) (closure (plan_tree p self.now.body)
            (bind (pattern_of (stored_pattern (plan_expressions p) self.now.pattern)) (bound_value payload) (running (name_at (plan_expressions p) self.now.name) (Lives.frozen P L wait) e))) []) }
    {
        let frozen = self.before.freeze(alloc, wait)?;
        let base = Process::where_asked(alloc, plan, self.name, self.first, names)?;
        let handed = Handed {
            process: frozen,
            base,
        };
        let known = names.with_process(alloc, self.name, handed)?;
        let around = known.inside(alloc, plan, self.pattern, payload)?;
        Ok(Process {
            term: self.body,
            names: around,
        })
    }
}

impl Gathering {
    /// A copy of the node over the same states, which are shared. What ran before the last sample is left out.
    pub fn clone_in(&self, alloc: Global) -> Result<Gathering, AllocError>
        ensures { IfOk result (λ copy. (μ : Machine) (P : Lives.Process) (L : Life) → WaitsGathered μ self.now P L → WaitsGathered μ copy P L) }
    {
        match self {
            Gathering::Releasing(releasing) => {
                let members = releasing.members.share()?;
                let before = releasing.members.share()?;
                let observer = releasing.observer.share(alloc)?;
                Ok(Gathering::Releasing(Releasing {
                    shown: releasing.shown,
                    members,
                    before,
                    observer,
                    name: releasing.name,
                    pattern: releasing.pattern,
                    body: releasing.body,
                }))
            }
            Gathering::Editing(editing) => {
                let running = editing.members.share()?;
                let edit = editing.edit.clone()?;
                Ok(Gathering::Editing(Editing {
                    shown: editing.shown,
                    members: running,
                    name: editing.name,
                    pattern: editing.pattern,
                    edit,
                }))
            }
        }
    }
}

impl Releasing {
    /// Its body before the first sample, inside its pattern for the payload of an event, and around that the name of the members
    /// as they were before the event, each frozen to go on `wait` milliseconds later, where these names are around the members. The
    /// error is a want of memory, or too many owners.
    pub fn begin(
        &self,
        alloc: Global,
        plan: &Plan,
        names: &Env,
        wait: u64,
        payload: Payload,
    ) -> Result<Process, AllocError>
        ensures { let p = plan.now in
            IfOk result (λ begun. (φ : AnswersByName) (e : Environment) (ms : Lives.Members) (L : Life) → IsNames (machine φ p) names.now e → Gathers (machine φ p) (gathered_holding self.now.before) ms L →
            Stands (machine φ p) (StateOf.Unborn begun) (closure (plan_tree p self.now.body)
            (bind (pattern_of (stored_pattern (plan_expressions p) self.now.pattern)) (bound_value payload) (collected (name_at (plan_expressions p) self.now.name) (each_frozen ms L wait) e))) []) }
    {
        let known = names.with_frozen(alloc, self.name, &self.before, wait)?;
        let around = known.inside(alloc, plan, self.pattern, payload)?;
        Ok(Process {
            term: self.body,
            names: around,
        })
    }
}

impl Editing {
    /// The names in which its edit is made: inside its pattern for the payload of an event, and around that the name of the
    /// members that run, each frozen to go on `wait` milliseconds later, where these names are around them. The error is a want of
    /// memory, or too many owners.
    pub fn inside(
        &self,
        alloc: Global,
        plan: &Plan,
        names: &Env,
        wait: u64,
        payload: Payload,
    ) -> Result<Env, AllocError>
        ensures { let p = plan.now in
            IfOk result (λ inside. (φ : AnswersByName) (e : Environment) (ms : Lives.Members) (L : Life) → IsNames (machine φ p) names.now e → Gathers (machine φ p) (gathered_holding self.now.members) ms L →
            IsNames (machine φ p) inside (bind (pattern_of (stored_pattern (plan_expressions p) self.now.pattern)) (bound_value payload) (collected (name_at (plan_expressions p) self.now.name) (each_frozen ms L wait) e))) }
    {
        let known = names.with_frozen(alloc, self.name, &self.members, wait)?;
        let around = known.inside(alloc, plan, self.pattern, payload)?;
        Ok(around)
    }
}

impl FrozenNode {
    /// The same node, shared, or a copy of a primitive. The error is a want of memory, or too many owners.
    pub fn share(&self, alloc: Global) -> Result<FrozenNode, AllocError>
        ensures { IfOk result (λ same. (μ : Machine) (names : environments.Env) (P : Lives.Process) (L : Life) →
            Stands μ (frozen_state names self.now) P L → Stands μ (frozen_state names same) P L) }
    {
        match self {
            FrozenNode::Primitive(primitive) => {
                let copy = primitive.clone_in(alloc)?;
                Ok(FrozenNode::Primitive(copy))
            }
            FrozenNode::Mapped(arrow, mapped) => {
                let next = mapped.clone_in(alloc)?;
                Ok(FrozenNode::Mapped(*arrow, next))
            }
            FrozenNode::Primitives(node) => {
                let both = node.clone()?;
                Ok(FrozenNode::Primitives(both))
            }
            FrozenNode::Live(node) => {
                let live = node.clone()?;
                Ok(FrozenNode::Live(live))
            }
            FrozenNode::Switch(node) => {
                let switch = node.clone()?;
                Ok(FrozenNode::Switch(switch))
            }
            FrozenNode::Continuation(node) => {
                let continuing = node.clone()?;
                Ok(FrozenNode::Continuation(continuing))
            }
            FrozenNode::Gathering(node) => {
                let gathering = node.clone()?;
                Ok(FrozenNode::Gathering(gathering))
            }
        }
    }
}

impl Frozen {
    /// The part as it was when it was frozen, which shares its nodes. The error is a want of memory, or too many owners.
    pub fn wake(&self, alloc: Global) -> Result<State, AllocError>
        ensures stands { IfOk result (λ state. (μ : Machine) (P : Lives.Process) (L : Life) →
            Stands μ (frozen_state self.now.names self.now.node) P L → Stands μ state P L) }
        ensures awake { IfOk result (λ state. is_frozen state ≡ false) }
    {
        let around = self.names.share()?;
        match self.node.share(alloc)? {
            FrozenNode::Live(node) => Ok(State::Live(around, node)),
            FrozenNode::Switch(node) => Ok(State::Switch(around, node)),
            FrozenNode::Continuation(node) => Ok(State::Continuation(around, node)),
            FrozenNode::Gathering(node) => Ok(State::Gathering(around, node)),
            FrozenNode::Primitive(primitive) => Ok(State::Primitive(primitive)),
            FrozenNode::Mapped(arrow, mapped) => Ok(State::Mapped(arrow, mapped)),
            FrozenNode::Primitives(node) => Ok(State::Primitives(node)),
        }
    }
}

// The same states, each over its node. The error is a want of memory, or too many owners.
fn share_all(alloc: Global, states: &[State]) -> Result<Vec<State>, AllocError>
    ensures { IfOk result (λ shared. (μ : Machine) → AllFollow μ states.now shared.items) }
{
    let mut shared = Vec::with_capacity(alloc, states.len())?;
    for state in states {
        shared.push_reserved(state.share(alloc)?);
    }
    Ok(shared)
}

// Makes each of these states stand for all that the one at its place stands for.
fn renew_all(alloc: Global, own: &mut Vec<State>, states: &[State]) -> Result<(), AllocError>
    requires { length own.old.items ≡ length states.now }
    ensures { OnOk result ((μ : Machine) → AllFollow μ states.now own.new.items) }
{
    for place in 0..states.len() {
        own[place].renew(alloc, &states[place])?;
    }
    Ok(())
}

// The same of lists: where a list is shared, or has not as many, it becomes the other one, shared.
fn renew_list(
    alloc: Global,
    own: &mut Rc<Vec<State>>,
    states: &Rc<Vec<State>>,
) -> Result<(), AllocError>
    ensures { OnOk result ((μ : Machine) → AllFollow μ states.now.value.items own.new.value.items) }
{
    if let Some(list) = Rc::get_mut(own) {
        if list.len() == states.len() {
            return renew_all(alloc, list, &***states);
        }
    }
    let shared = states.clone()?;
    *own = shared;
    Ok(())
}

/// Before a sample: the members that run go on in nodes of their own, and what they were takes the place of what they were
/// before. After an error they stand for nothing.
pub fn hold_back_members(
    alloc: Global,
    members: &mut Gathered,
    before: &mut Gathered,
) -> Result<(), AllocError>
    ensures held { OnOk result (before.new ≡ members.old) }
    ensures runs_on { OnOk result ((μ : Machine) (ms : Lives.Members) (L : Life) → Gathers μ (gathered_holding members.old) ms L → Gathers μ (gathered_holding members.new) ms L) }
{
    before.renew(alloc, members)?;
    mem::swap(members, before);
    Ok(())
}

/// The states of members as a list of their own: where it was shared, each is over its node. The error is a want of memory, or
/// too many owners.
pub fn own_states(alloc: Global, states: Rc<Vec<State>>) -> Result<Vec<State>, AllocError>
    ensures { IfOk result (λ own. (μ : Machine) → AllFollow μ states.value.items own.items) }
{
    match Rc::try_unwrap(states) {
        Ok(own) => Ok(own),
        Err(shared) => share_all(alloc, &**shared),
    }
}

impl Wrap {
    ghost use Rattle.sf_term.specs.Trees.{Term};
    ghost use Rattle.sf_mean.specs.Meaning.{Network, Made};
    ghost use Rattle.sf_state.specs.Standing.{Wraps};

    // A copy, which keeps the same.
    fn clone_in(&self, alloc: Global) -> Result<Wrap, AllocError>
        ensures { IfOk result (λ copy. (n : Network) (t : Term) (e : Environment) (m : Made) (L : Life) (u : Term) (K : Life) →
            Wraps n self.now t e m L u K → Wraps n copy t e m L u K) }
    {
        match self {
            Wrap::First => Ok(Wrap::First),
            Wrap::Second => Ok(Wrap::Second),
            Wrap::Loop(feedback) => Ok(Wrap::Loop(feedback.clone_in(alloc)?)),
            Wrap::Initialized(None) => Ok(Wrap::Initialized(None)),
            Wrap::Initialized(Some(value)) => Ok(Wrap::Initialized(Some(value.clone_in(alloc)?))),
            Wrap::Replaced(None) => Ok(Wrap::Replaced(None)),
            Wrap::Replaced(Some(value)) => Ok(Wrap::Replaced(Some(value.clone_in(alloc)?))),
            Wrap::Followed(Ok(value)) => Ok(Wrap::Followed(Ok(value.clone_in(alloc)?))),
            Wrap::Followed(Err(fault)) => Ok(Wrap::Followed(Err(*fault))),
        }
    }
}

impl Process {
    ghost use Rattle.std.specs.Prelude.{◌<◌};
    ghost use Rattle.sf_state.specs.declared.env.Env.{size-Env};
    ghost use Rattle.sf_state.specs.declared.state.Process.{size-Process};

    // The names around it.
    pub(crate) fn left(self) -> Env
        ensures { size-Env result < size-Process self }
    {
        let Process { term: _, names } = self;
        names
    }

    /// A term in the names around it, of which it has those that it mentions. The error is a want of memory, or too many owners of
    /// one name.
    #[inline(always)]
    pub fn within(
        alloc: Global,
        plan: &Plan,
        term: PlanId,
        names: &Env,
    ) -> Result<Process, AllocError>
        ensures { IfOk result (λ process. (φ : AnswersByName) (e : Environment) → IsNames (machine φ plan.now) names.now e → IsProcess (machine φ plan.now) process (closure (plan_tree plan.now term) e)) }
    {
        let names = names.mentioned_in(alloc, plan, term)?;
        Ok(Process { term, names })
    }

    // The same where the plan asks what a process of this name began as; else the term without names.
    #[inline(always)]
    fn where_asked(
        alloc: Global,
        plan: &Plan,
        name: NameId,
        term: PlanId,
        names: &Env,
    ) -> Result<Process, AllocError>
        ensures { IfOk result (λ process. IsTrue (plan_asks plan.now (name_at (plan_expressions plan.now) name)) → (φ : AnswersByName) (e : Environment) → IsNames (machine φ plan.now) names.now e → IsProcess (machine φ plan.now) process (closure (plan_tree plan.now term) e)) }
    {
        if plan.asks(name) {
            return Process::within(alloc, plan, term, names);
        }
        Ok(Process {
            term,
            names: Env::Empty,
        })
    }

    /// The same process, which shares its names. The error is too many owners of one name.
    pub fn share(&self) -> Result<Process, AllocError>
        ensures { IfOk result (λ same. (μ : Machine) (P : Lives.Process) → IsProcess μ self.now P → IsProcess μ same P) }
    {
        let names = self.names.share()?;
        Ok(Process {
            term: self.term,
            names,
        })
    }
}
