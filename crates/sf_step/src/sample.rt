//! One sample.
ghost use Rattle.std.specs.Prelude.{◌≡◌, ◌≢◌, ◌≤◌, ◌∷◌, List, None, Some, Ok, length, false, All, Vec, IsTrue, IsFalse};
ghost use Rattle.sf_begin.specs.Beginning.{OpensItself, is_awake};
ghost use Rattle.sf_mean.specs.Lives.{step, Life};
ghost use Rattle.sf_mean.specs.Lives;
ghost use Rattle.sf_state.specs.declared.state.State as state_forms;
ghost use Rattle.sf_state.specs.declared.state.State.TheVariants as StateOf;
ghost use Rattle.sf_state.specs.Held.{gathered_holding, held_as};
ghost use Rattle.sf_state.specs.Standing.{Stands, AllFollow, AreJoined, closed_over, is_frozen};
ghost use Rattle.sf_term.specs.Trees.{Term};
ghost use Rattle.sf_expr.specs.Arena.{name_at};
ghost use Rattle.sf_expr.specs.declared.exprs.NameId as name_ids;
ghost use Rattle.sf_law.specs.Arena.{plan_tree, plan_node_at, plan_expressions, plan_asks, header_at, BuildsPlan};
ghost use Rattle.sf_law.specs.Asking.{start_asked, arguments_asked};
ghost use Rattle.sf_law.specs.Entries.{IsCodedArgument};
ghost use Rattle.sf_law.specs.declared.node.PlanArgument as plan_argument_nodes;
ghost use Rattle.sf_law.specs.declared.node.PlanPrimitive as primitive_nodes;
ghost use Rattle.sf_law.specs.declared.node.PlanNode.TheVariants as NodeOf;
ghost use Rattle.sf_state.specs.Machine.{machine};
ghost use Rattle.sf_meter.specs.Meters.{left_or, entered_of, meter_height, meter_fault};
ghost use Rattle.sf_step.specs.Answering.{LiveSteps, TermSteps, left_apart, left_split, left_valued, whole_of};
ghost use Rattle.sf_value.specs.Values.{pair};
ghost use Rattle.sf_step.specs.Around.{machine_around, plan_around, dt_around};
ghost use Rattle.sf_begin.specs.Contexts.{context_machine, dt_in};
ghost use Rattle.sf_step.specs.Sampling.{GivesApart, TakenApart, StateSteps, SwitchSteps, ContinuationSteps, GatheringSteps, MembersSteps, EachSteps, MemberSteps, CountedSteps, left_beside, left_with};
ghost use Rattle.sf_step.specs.Edits.{HaveStepped, HaveTurned, EditSteps, DraftSteps, held_as_made, left_noted};
ghost use Rattle.sf_step.specs.Stepping.{Steps};
ghost use Rattle.sf_step.specs.Routing.{observation_of};

use crate::leaves::{
    Beside, arrow_of, bare_arrow, count_and_map_beside, first_arrow, first_behind, first_primitive,
    first_two, primitive_behind, step_mapped, step_mapped_beside, step_prim, step_prim_inline,
    step_primitives, step_probe,
};
use crate::routing::{
    beside, hold_back, payload_of, put_first, put_last, put_live, show, take_over,
    value_and_payload,
};
use crate::tables::table_of;
use crate::turning::{Noted, Turn, change_all, table_after, table_before};
use sf_begin::{Draft, SampleContext, begin, called, collect, draft_of, started, two_of};
use sf_expr::NameId;
use sf_func::Holds;
use sf_law::{Plan, PlanArgument, PlanContinuation, PlanId, PlanNode, PlanSwitch, TemplateId};
use sf_meter::{Meter, Stop};
use sf_probe::Readings;
use sf_state::{
    Continuation, Editing, Env, Feedback, Gathered, Gathering, Live, Payload, Process, Releasing,
    State, Switch, Wrap, hold_back_members, own_states,
};
use sf_term::{Join, Observation, Start, Switching};
use sf_value::{Fault, Keys, Value, ValueFault};
use std::alloc::Global;
use std::mem;
use std::rc::Rc;

// so many members an edit adds without more room
const ADDED: usize = 4;

/// An edit of members that stand inside so many nodes, of which some stay: which of the two tables shows, how long those that
/// ran wait, and what changes.
#[derive(Drop)]
struct Edit {
    shown: Observation,
    inside: u64,
    wait: Option<u64>,
    draft: Draft,
}

/// An edit of members that stand inside so many nodes, of which none stay: which of the two tables shows, and what it made.
#[derive(Drop)]
struct Exchange {
    shown: Observation,
    inside: u64,
    made: Result<Gathered, Fault>,
}

/// How the members of an edit, which stand inside so many nodes, take their turns: those that had lived go on after so long.
#[derive(Clone, Copy)]
struct Turns<'a> {
    inside: u64,
    wait: u64,
    each: &'a [Turn],
}

/// The value at the next sample of a network, `dt` milliseconds after the one before, with what its probes recorded, in order;
/// at the first sample `dt` isn't looked at. The input may be any value: what takes a pair apart takes a value that is none
/// for both its parts. The meter counts the nodes that this sample enters, and nothing of the samples before. The error is the
/// first fault of the network's values, `Large` at the 1,000,001st node or at more than 1,600 one inside another, or `Memory`;
/// the meter then counts no more nodes than the sample would have entered. After an error the state stands for nothing. No
/// state that was frozen from it changes.
pub fn step<R: Holds>(
    alloc: Global,
    state: &mut State,
    plan: &Plan,
    functions: &R,
    dt: u64,
    input: Value,
    meter: &mut Meter,
) -> Result<(Value, Readings), Fault>
    // a state of (P, L) steps to the outcome of P on the longer life
    ensures answers { (P : Lives.Process) (L : Life) → Stands (machine (R.answers functions.now) plan.now) state.old P L →
        Steps (machine (R.answers functions.now) plan.now) P (step dt input ∷ L) result state.new meter.new }
    ensures bounded { (entered_of meter.new ≤ 1000000) × (meter_height meter.new ≤ 1600) }
{
    meter.reset(alloc);
    let context = SampleContext {
        alloc,
        plan,
        functions,
        dt,
    };
    let mut value = input;
    match step_state(&context, state, 0, &mut value, meter) {
        Ok(()) => Ok((value, meter.take_readings(alloc))),
        Err(Stop) => Err(meter.fault()),
    }
}

// Puts the value at the next sample of a part that stands inside `depth` nodes in place of the input. After an error the
// state stands for nothing, and the value may be any; so below.
#[cycle(step)]
#[inline(always)]
fn step_state<R: Holds>(
    context: &SampleContext<R>,
    state: &mut State,
    depth: u64,
    value: &mut Value,
    meter: &mut Meter,
) -> Result<(), Stop>
    ensures { StateSteps (context_machine R.answers context.now) state.old (step (dt_in context.now) value.old)
        (left_or result (state.new, value.new) (meter_fault meter.new)) meter.old meter.new depth }
{
    match state {
        State::Primitive(prim) => {
            meter.tick(depth)?;
            step_prim(context, prim, value, meter)
        }
        State::Mapped(arrow, prim) => {
            let inside = meter.tick(depth)?;
            step_mapped(context, *arrow, prim, inside, value, meter)
        }
        State::Primitives(node) => {
            let inside = meter.tick(depth)?;
            step_primitives(context, node, inside, value, meter)
        }
        State::Live(_, node) => {
            let inside = meter.tick(depth)?;
            step_node(context, node, inside, value, meter)
        }
        _ => step_other(context, state, depth, value, meter),
    }
}

// The same of a part that is neither a primitive nor live: one that begins or wakes, or a switch that waits.
#[cycle(step)]
#[inline(never)]
fn step_other<R: Holds>(
    context: &SampleContext<R>,
    state: &mut State,
    depth: u64,
    value: &mut Value,
    meter: &mut Meter,
) -> Result<(), Stop>
    ensures { StateSteps (context_machine R.answers context.now) state.old (step (dt_in context.now) value.old)
        (left_or result (state.new, value.new) (meter_fault meter.new)) meter.old meter.new depth }
{
    if has_lived(state) {
        let inside = meter.tick(depth)?;
        return step_counted(context, state, inside, value, meter);
    }
    match state {
        State::Unborn(_) => step_unborn(context, state, depth, value, meter),
        State::Frozen(_) => step_frozen(context, state, depth, value, meter),
        // what has lived is counted above
        _ => unreachable!(),
    }
}

// The first sample of a part: it is stepped as it begins, or as what it refers to.
#[cycle(step)]
#[inline(never)]
fn step_unborn<R: Holds>(
    context: &SampleContext<R>,
    state: &mut State,
    depth: u64,
    value: &mut Value,
    meter: &mut Meter,
) -> Result<(), Stop>
    requires unborn { IsFalse (is_awake state.old) }
    requires thawed { IsFalse (is_frozen state.old) }
    ensures { StateSteps (context_machine R.answers context.now) state.old (step (dt_in context.now) value.old)
        (left_or result (state.new, value.new) (meter_fault meter.new)) meter.old meter.new depth }
{
    let State::Unborn(process) = state else {
        unreachable!();
    };
    let term = process.term;
    let names = mem::replace(&mut process.names, Env::Empty);
    let around = Around {
        context: &*context,
        names: &names,
        inside: depth,
    };
    first_step(&around, state, term, value, meter)
}

// What is around a term at its first sample: the names, and the nodes inside which it stands.
#[derive(Drop)]
pub(crate) struct Around<'a, R> {
    pub(crate) context: &'a SampleContext<'a, R>,
    pub(crate) names: &'a Env,
    pub(crate) inside: u64,
}

// The first sample of a term. What it is from then on takes the place of a state, whatever that was.
#[cycle(step)]
#[inline(always)]
fn first_step<R: Holds>(
    around: &Around<R>,
    state: &mut State,
    term: PlanId,
    value: &mut Value,
    meter: &mut Meter,
) -> Result<(), Stop>
    ensures { StateSteps (machine_around R.answers around.now) (StateOf.Unborn (closed_over term around.now.names.now)) (step (dt_around around.now) value.old)
        (left_or result (state.new, value.new) (meter_fault meter.new)) meter.old meter.new around.now.inside }
{
    let context = around.context;
    let inside = meter.tick(around.inside)?;
    match context.plan.node(term) {
        PlanNode::Primitive(primitive) => {
            first_primitive(context, state, primitive, around.names, value, meter)
        }
        _ => {
            let within = Around {
                context: &*context,
                names: &*around.names,
                inside,
            };
            first_node(&within, state, term, value, meter)
        }
    }
}

// The same of a term that is no primitive, has been counted, and whose own parts stand inside these nodes; so below.
#[cycle(step)]
#[inline(never)]
fn first_node<R: Holds>(
    around: &Around<R>,
    state: &mut State,
    term: PlanId,
    value: &mut Value,
    meter: &mut Meter,
) -> Result<(), Stop>
    requires { (q : primitive_nodes.PlanPrimitive) → plan_node_at (plan_around around.now) term ≢ NodeOf.Primitive q }
    ensures { TermSteps (machine_around R.answers around.now) (plan_tree (plan_around around.now) term) around.now.names.now (step (dt_around around.now) value.old)
        (left_or result (state.new, value.new) (meter_fault meter.new)) meter.old meter.new around.now.inside }
{
    let node = around.context.plan.node(term);
    match node {
        PlanNode::Joined(join, left, right) => match join {
            Join::InSequence => first_sequence(around, state, *left, *right, value, meter),
            Join::InParallel => first_other(around, state, node, value, meter),
            Join::FannedOut => first_fan(around, state, *left, *right, value, meter),
        },
        PlanNode::Pipeline(stages) => match two_of(stages) {
            Some((left, right)) => first_sequence(around, state, left, right, value, meter),
            None => first_other(around, state, node, value, meter),
        },
        PlanNode::Call(_, template, arguments) => {
            first_of_call(around, state, *template, arguments, value, meter)
        }
        PlanNode::Started(start, name) => {
            first_of_process(around, state, *start, *name, value, meter)
        }
        PlanNode::Switching(form) => match form.form {
            Switching::Basic(_) => first_basic(around, state, form, value, meter),
            Switching::Recurring(_) => first_recurring(around, state, form, value, meter),
        },
        PlanNode::Continuation(form) => first_continuing(around, state, form, value, meter),
        _ => first_other(around, state, node, value, meter),
    }
}

// The same of the term of a node that has no first sample of its own: it begins, and is stepped then.
#[cycle(step)]
#[inline(never)]
fn first_other<R: Holds>(
    around: &Around<R>,
    state: &mut State,
    node: &PlanNode,
    value: &mut Value,
    meter: &mut Meter,
) -> Result<(), Stop>
    requires { OpensItself node.now }
    ensures { (t : Term) → BuildsPlan (plan_around around.now) node.now t →
        TermSteps (machine_around R.answers around.now) t around.now.names.now (step (dt_around around.now) value.old)
        (left_or result (state.new, value.new) (meter_fault meter.new)) meter.old meter.new around.now.inside }
{
    let context = around.context;
    let names = granted!(meter, around.names.share());
    match begin(context, state, node, names, value) {
        Ok(()) => step_counted(context, state, around.inside, value, meter),
        Err(fault) => Err(meter.stop(fault)),
    }
}

// The same of a call: its template is stepped, among its own names.
#[cycle(step)]
#[inline(never)]
fn first_of_call<R: Holds>(
    around: &Around<R>,
    state: &mut State,
    id: TemplateId,
    arguments: &[PlanArgument],
    value: &mut Value,
    meter: &mut Meter,
) -> Result<(), Stop>
    requires coded { All (IsCodedArgument (plan_expressions (plan_around around.now))) arguments.now }
    requires asked { IsTrue (arguments_asked (plan_expressions (plan_around around.now)) (plan_asks (plan_around around.now)) (header_at (plan_around around.now) id).parameters arguments.now) }
    ensures { (k : name_ids.NameId) (v : Vec plan_argument_nodes.PlanArgument Global) (t : Term) → v.items ≡ arguments.now → BuildsPlan (plan_around around.now) (NodeOf.Call k id v) t →
        TermSteps (machine_around R.answers around.now) t around.now.names.now (step (dt_around around.now) value.old)
        (left_or result (state.new, value.new) (meter_fault meter.new)) meter.old meter.new around.now.inside }
{
    let context = around.context;
    match called(context, id, arguments, around.names) {
        Ok(names) => {
            let within = Around {
                context: &*context,
                names: &names,
                inside: around.inside,
            };
            let body = context.plan.template(id).body();
            first_step(&within, state, body, value, meter)
        }
        Err(fault) => Err(meter.stop(fault)),
    }
}

// The same of the process of a name, which is stepped where it stood.
#[cycle(step)]
#[inline(never)]
fn first_of_process<R: Holds>(
    around: &Around<R>,
    state: &mut State,
    start: Start,
    name: NameId,
    value: &mut Value,
    meter: &mut Meter,
) -> Result<(), Stop>
    requires { IsTrue (start_asked false (plan_asks (plan_around around.now) (name_at (plan_expressions (plan_around around.now)) name)) start) }
    ensures { (t : Term) → BuildsPlan (plan_around around.now) (NodeOf.Started start name) t →
        TermSteps (machine_around R.answers around.now) t around.now.names.now (step (dt_around around.now) value.old)
        (left_or result (state.new, value.new) (meter_fault meter.new)) meter.old meter.new around.now.inside }
{
    let context = around.context;
    let process = granted!(
        meter,
        started(context.alloc, context.plan, around.names, start, name)
    );
    state.put(process);
    step_state(context, state, around.inside, value, meter)
}

// The same of a basic switch. Its node is made where its event isn't there.
#[cycle(step)]
#[inline(never)]
fn first_basic<R: Holds>(
    around: &Around<R>,
    state: &mut State,
    form: &PlanSwitch,
    value: &mut Value,
    meter: &mut Meter,
) -> Result<(), Stop>
    requires { form.now.form ≡ Switching.Basic (observation_of form.now.form) }
    ensures { (t : Term) → BuildsPlan (plan_around around.now) (NodeOf.Switching form.now) t →
        TermSteps (machine_around R.answers around.now) t around.now.names.now (step (dt_around around.now) value.old)
        (left_or result (state.new, value.new) (meter_fault meter.new)) meter.old meter.new around.now.inside }
{
    let context = around.context;
    let output = granted!(meter, value.clone_in(context.alloc));
    let mut running = State::unborn(form.source);
    let (old, occurring) = first_apart(around, &mut running, form.source, value, meter)?;
    *value = old;
    match occurring {
        None => {
            let switch = Switch {
                form: form.form,
                running,
                pattern: form.pattern,
                body: form.body,
            };
            let names = granted!(meter, around.names.share());
            let node = granted!(meter, Rc::new(context.alloc, switch));
            state.put(State::Switch(names, node));
            Ok(())
        }
        Some(payload) => {
            let names = granted!(
                meter,
                around
                    .names
                    .inside(context.alloc, context.plan, form.pattern, payload)
            );
            let within = Around {
                context: &*context,
                names: &names,
                inside: around.inside,
            };
            let mut shown = output;
            first_step(&within, state, form.body, &mut shown, meter)?;
            show(shown_by(&form.form), value, shown);
            Ok(())
        }
    }
}

// The same of a recurring switch, which is stepped in its node.
#[cycle(step)]
#[inline(never)]
fn first_recurring<R: Holds>(
    around: &Around<R>,
    state: &mut State,
    form: &PlanSwitch,
    value: &mut Value,
    meter: &mut Meter,
) -> Result<(), Stop>
    requires { form.now.form ≡ Switching.Recurring (observation_of form.now.form) }
    ensures { (t : Term) → BuildsPlan (plan_around around.now) (NodeOf.Switching form.now) t →
        TermSteps (machine_around R.answers around.now) t around.now.names.now (step (dt_around around.now) value.old)
        (left_or result (state.new, value.new) (meter_fault meter.new)) meter.old meter.new around.now.inside }
{
    let context = around.context;
    let inner = granted!(meter, around.names.share());
    let mut switch = Switch {
        form: form.form,
        running: State::Unborn(Process {
            term: form.source,
            names: inner,
        }),
        pattern: form.pattern,
        body: form.body,
    };
    step_recurring(
        context,
        &mut switch,
        around.names,
        around.inside,
        value,
        meter,
    )?;
    let names = granted!(meter, around.names.share());
    let node = granted!(meter, Rc::new(context.alloc, switch));
    state.put(State::Switch(names, node));
    Ok(())
}

// The same of a switch that keeps its source. What it keeps has the names that its term mentions alone.
#[cycle(step)]
#[inline(never)]
fn first_continuing<R: Holds>(
    around: &Around<R>,
    state: &mut State,
    form: &PlanContinuation,
    value: &mut Value,
    meter: &mut Meter,
) -> Result<(), Stop>
    ensures { (t : Term) → BuildsPlan (plan_around around.now) (NodeOf.Continuation form.now) t →
        TermSteps (machine_around R.answers around.now) t around.now.names.now (step (dt_around around.now) value.old)
        (left_or result (state.new, value.new) (meter_fault meter.new)) meter.old meter.new around.now.inside }
{
    let context = around.context;
    let alloc = context.alloc;
    let plan = context.plan;
    let before = granted!(
        meter,
        Process::within(alloc, plan, form.source, around.names)
    );
    let input = granted!(meter, value.clone_in(alloc));
    let mut source = State::unborn(form.source);
    let among = Around {
        context: &*context,
        names: &before.names,
        inside: around.inside,
    };
    first_step(&among, &mut source, before.term, value, meter)?;
    let mut observer = State::unborn(form.observer);
    let seen = first_beside(around, &mut observer, form.observer, &input, &*value, meter)?;
    let continuing = Continuation {
        shown: form.shown,
        first: form.source,
        source,
        before: State::Unborn(before),
        observer,
        name: form.name,
        pattern: form.pattern,
        body: form.body,
    };
    match payload_of(seen) {
        None => {
            let names = granted!(meter, around.names.share());
            let node = granted!(meter, Rc::new(alloc, continuing));
            state.put(State::Continuation(names, node));
            Ok(())
        }
        Some(payload) => {
            let body = granted!(
                meter,
                continuing.begin(alloc, plan, around.names, context.dt, payload)
            );
            let within = Around {
                context: &*context,
                names: &body.names,
                inside: around.inside,
            };
            let mut shown = input;
            first_step(&within, state, body.term, &mut shown, meter)?;
            show(form.shown, value, shown);
            Ok(())
        }
    }
}

// The same of two parts, the right one on the value of the left one.
#[cycle(step)]
#[inline(never)]
fn first_sequence<R: Holds>(
    around: &Around<R>,
    state: &mut State,
    left: PlanId,
    right: PlanId,
    value: &mut Value,
    meter: &mut Meter,
) -> Result<(), Stop>
    ensures { let p = plan_around around.now in (t : Term) → AreJoined Join.InSequence (plan_tree p left) (plan_tree p right) t →
        TermSteps (machine_around R.answers around.now) t around.now.names.now (step (dt_around around.now) value.old)
        (left_or result (state.new, value.new) (meter_fault meter.new)) meter.old meter.new around.now.inside }
{
    let plan = around.context.plan;
    if let PlanNode::Primitive(before) = plan.node(left) {
        if let PlanNode::Primitive(after) = plan.node(right) {
            return first_two(around, state, left, before, after, value, meter);
        }
    }
    let mut live = Live::Join(Join::InSequence, State::unborn(left), State::unborn(right));
    let Live::Join(_, first, second) = &mut live else {
        unreachable!();
    };
    let splits = bare_arrow(plan, right).is_some();
    let apart = first_split(around, first, left, splits, value, meter)?;
    first_on_split(around, second, right, apart, value, meter)?;
    granted!(
        meter,
        put_live(around.context.alloc, around.names, live, state)
    );
    Ok(())
}

// The first sample of a term, whose value may stay apart: of two parts that share their input, the value of the left one is answered,
// and that of the right one takes the place of the input. The value of another term takes that place whole.
#[cycle(step)]
#[inline(always)]
fn first_split<R: Holds>(
    around: &Around<R>,
    state: &mut State,
    term: PlanId,
    splits: bool,
    value: &mut Value,
    meter: &mut Meter,
) -> Result<Option<Value>, Stop>
    ensures { StateSteps (machine_around R.answers around.now) (StateOf.Unborn (closed_over term around.now.names.now)) (step (dt_around around.now) value.old)
        (left_split result state.new value.new (meter_fault meter.new)) meter.old meter.new around.now.inside }
{
    let context = around.context;
    if splits {
        if let PlanNode::Joined(join, left, right) = context.plan.node(term) {
            if let Join::FannedOut = join {
                let inside = meter.tick(around.inside)?;
                let within = Around {
                    context: &*context,
                    names: &*around.names,
                    inside,
                };
                let first = first_halves(&within, state, *left, *right, value, meter)?;
                return Ok(Some(first));
            }
        }
    }
    first_step(around, state, term, value, meter)?;
    Ok(None)
}

// The first sample of a term on a value that may stand apart.
#[cycle(step)]
#[inline(always)]
fn first_on_split<R: Holds>(
    around: &Around<R>,
    state: &mut State,
    term: PlanId,
    apart: Option<Value>,
    value: &mut Value,
    meter: &mut Meter,
) -> Result<(), Stop>
    ensures { StateSteps (machine_around R.answers around.now) (StateOf.Unborn (closed_over term around.now.names.now)) (step (dt_around around.now) (whole_of apart value.old))
        (left_or result (state.new, value.new) (meter_fault meter.new)) meter.old meter.new around.now.inside }
{
    match apart {
        None => first_step(around, state, term, value, meter),
        Some(first) => {
            let given = first_beside(around, state, term, &first, &*value, meter)?;
            *value = given;
            Ok(())
        }
    }
}

// The same of two parts that share their input.
#[cycle(step)]
#[inline(never)]
fn first_fan<R: Holds>(
    around: &Around<R>,
    state: &mut State,
    left: PlanId,
    right: PlanId,
    value: &mut Value,
    meter: &mut Meter,
) -> Result<(), Stop>
    ensures { let p = plan_around around.now in (t : Term) → AreJoined Join.FannedOut (plan_tree p left) (plan_tree p right) t →
        TermSteps (machine_around R.answers around.now) t around.now.names.now (step (dt_around around.now) value.old)
        (left_or result (state.new, value.new) (meter_fault meter.new)) meter.old meter.new around.now.inside }
{
    let first = first_halves(around, state, left, right, value, meter)?;
    let second = mem::replace(value, Value::int(0));
    let both = granted!(meter, Value::pair(around.context.alloc, first, second));
    *value = both;
    Ok(())
}

// The same without a pair: the value of the left part. That of the right one takes the place of the input.
#[cycle(step)]
#[inline(never)]
fn first_halves<R: Holds>(
    around: &Around<R>,
    state: &mut State,
    left: PlanId,
    right: PlanId,
    value: &mut Value,
    meter: &mut Meter,
) -> Result<Value, Stop>
    ensures { let p = plan_around around.now in (t : Term) → AreJoined Join.FannedOut (plan_tree p left) (plan_tree p right) t →
        TermSteps (machine_around R.answers around.now) t around.now.names.now (step (dt_around around.now) value.old)
        (left_apart result state.new value.new (meter_fault meter.new)) meter.old meter.new around.now.inside }
{
    let alloc = around.context.alloc;
    let mut output = granted!(meter, value.clone_in(alloc));
    let mut live = Live::Join(Join::FannedOut, State::unborn(left), State::unborn(right));
    let Live::Join(_, first, second) = &mut live else {
        unreachable!();
    };
    first_step(around, first, left, &mut output, meter)?;
    first_step(around, second, right, value, meter)?;
    granted!(meter, put_live(alloc, around.names, live, state));
    Ok(output)
}

// The first sample of a part whose value is taken apart, as below.
#[cycle(step)]
#[inline(never)]
fn step_unborn_apart<R: Holds>(
    context: &SampleContext<R>,
    state: &mut State,
    depth: u64,
    value: &mut Value,
    meter: &mut Meter,
) -> Result<(Value, Option<Payload>), Stop>
    requires unborn { IsFalse (is_awake state.old) }
    requires thawed { IsFalse (is_frozen state.old) }
    ensures { GivesApart (λ gives. StateSteps (context_machine R.answers context.now) state.old (step (dt_in context.now) value.old) gives meter.old meter.new depth)
        state.new (meter_fault meter.new) result }
{
    let State::Unborn(process) = state else {
        unreachable!();
    };
    let term = process.term;
    let names = mem::replace(&mut process.names, Env::Empty);
    let around = Around {
        context: &*context,
        names: &names,
        inside: depth,
    };
    first_apart(&around, state, term, value, meter)
}

// The first sample of a term whose value is taken apart. Two parts on one input give both without a pair.
#[cycle(step)]
#[inline(always)]
fn first_apart<R: Holds>(
    around: &Around<R>,
    state: &mut State,
    term: PlanId,
    value: &mut Value,
    meter: &mut Meter,
) -> Result<(Value, Option<Payload>), Stop>
    ensures { GivesApart (λ gives. StateSteps (machine_around R.answers around.now) (StateOf.Unborn (closed_over term around.now.names.now)) (step (dt_around around.now) value.old) gives meter.old meter.new around.now.inside)
        state.new (meter_fault meter.new) result }
{
    let context = around.context;
    if let PlanNode::Joined(join, left, right) = context.plan.node(term) {
        if let Join::FannedOut = join {
            let inside = meter.tick(around.inside)?;
            let within = Around {
                context: &*context,
                names: &*around.names,
                inside,
            };
            let first = first_halves(&within, state, *left, *right, value, meter)?;
            let second = mem::replace(value, Value::int(0));
            return Ok((first, payload_of(second)));
        }
    }
    first_step(around, state, term, value, meter)?;
    taken_apart(context.alloc, value, meter)
}

// The next sample of a part that was frozen, which goes on by the time that it has.
#[cycle(step)]
#[inline(never)]
fn step_frozen<R: Holds>(
    context: &SampleContext<R>,
    state: &mut State,
    depth: u64,
    value: &mut Value,
    meter: &mut Meter,
) -> Result<(), Stop>
    requires { IsTrue (is_frozen state.old) }
    ensures { StateSteps (context_machine R.answers context.now) state.old (step (dt_in context.now) value.old)
        (left_or result (state.new, value.new) (meter_fault meter.new)) meter.old meter.new depth }
{
    let State::Frozen(frozen) = state else {
        unreachable!();
    };
    let later = SampleContext {
        alloc: context.alloc,
        plan: context.plan,
        functions: context.functions,
        dt: frozen.wait,
    };
    let awake = granted!(meter, frozen.wake(context.alloc));
    *state = awake;
    step_state(&later, state, depth, value, meter)
}

// The next sample of a part that has been counted and is prepared for it, and whose own parts stand inside `inside` nodes.
#[cycle(step)]
#[inline(never)]
fn step_counted<R: Holds>(
    context: &SampleContext<R>,
    state: &mut State,
    inside: u64,
    value: &mut Value,
    meter: &mut Meter,
) -> Result<(), Stop>
    requires { IsTrue (is_awake state.old) }
    ensures { CountedSteps (context_machine R.answers context.now) state.old (step (dt_in context.now) value.old)
        (left_or result (state.new, value.new) (meter_fault meter.new)) meter.old meter.new inside }
{
    match state {
        State::Primitive(prim) => step_prim(context, prim, value, meter),
        State::Mapped(arrow, prim) => step_mapped(context, *arrow, prim, inside, value, meter),
        State::Primitives(node) => step_primitives(context, node, inside, value, meter),
        State::Live(_, node) => step_node(context, node, inside, value, meter),
        State::Switch(names, node) => {
            let over = step_watching(context, node, names, inside, value, meter)?;
            take_over(state, over);
            Ok(())
        }
        State::Continuation(names, node) => {
            let kept = step_observing(context, node, names, inside, value, meter)?;
            take_over(state, kept);
            Ok(())
        }
        State::Gathering(names, node) => {
            let released = step_gathering(context, node, names, inside, value, meter)?;
            take_over(state, released);
            Ok(())
        }
        State::Unborn(_) | State::Frozen(_) => unreachable!(),
    }
}

// The next sample of a switch that waits at a node, which other states may share, and that has been counted.
#[cycle(step)]
#[inline(always)]
fn step_watching<R: Holds>(
    context: &SampleContext<R>,
    node: &mut Rc<Switch>,
    names: &Env,
    inside: u64,
    value: &mut Value,
    meter: &mut Meter,
) -> Result<Option<State>, Stop>
    ensures { SwitchSteps (context_machine R.answers context.now) names.now node.old.value (step (dt_in context.now) value.old)
        (left_beside result node.new.value value.new (meter_fault meter.new)) meter.old meter.new inside }
{
    match Rc::get_mut(node) {
        Some(switch) => step_switch(context, switch, names, inside, value, meter),
        None => step_watching_copy(context, node, names, inside, value, meter),
    }
}

// The same where other states share the node: a copy takes its place.
#[cycle(step)]
#[cold]
#[inline(never)]
fn step_watching_copy<R: Holds>(
    context: &SampleContext<R>,
    node: &mut Rc<Switch>,
    names: &Env,
    inside: u64,
    value: &mut Value,
    meter: &mut Meter,
) -> Result<Option<State>, Stop>
    ensures { SwitchSteps (context_machine R.answers context.now) names.now node.old.value (step (dt_in context.now) value.old)
        (left_beside result node.new.value value.new (meter_fault meter.new)) meter.old meter.new inside }
{
    let mut own = granted!(meter, node.clone_in(context.alloc));
    let over = step_switch(context, &mut own, names, inside, value, meter)?;
    let copy = granted!(meter, Rc::new(context.alloc, own));
    *node = copy;
    Ok(over)
}

// The same of a switch that keeps its source.
#[cycle(step)]
#[inline(always)]
fn step_observing<R: Holds>(
    context: &SampleContext<R>,
    node: &mut Rc<Continuation>,
    names: &Env,
    inside: u64,
    value: &mut Value,
    meter: &mut Meter,
) -> Result<Option<State>, Stop>
    ensures { ContinuationSteps (context_machine R.answers context.now) names.now node.old.value (step (dt_in context.now) value.old)
        (left_beside result node.new.value value.new (meter_fault meter.new)) meter.old meter.new inside }
{
    match Rc::get_mut(node) {
        Some(continuing) => step_continuing(context, continuing, names, inside, value, meter),
        None => step_observing_copy(context, node, names, inside, value, meter),
    }
}

// The same where other states share the node: a copy takes its place.
#[cycle(step)]
#[cold]
#[inline(never)]
fn step_observing_copy<R: Holds>(
    context: &SampleContext<R>,
    node: &mut Rc<Continuation>,
    names: &Env,
    inside: u64,
    value: &mut Value,
    meter: &mut Meter,
) -> Result<Option<State>, Stop>
    ensures { ContinuationSteps (context_machine R.answers context.now) names.now node.old.value (step (dt_in context.now) value.old)
        (left_beside result node.new.value value.new (meter_fault meter.new)) meter.old meter.new inside }
{
    let mut own = granted!(meter, node.clone_in(context.alloc));
    let over = step_continuing(context, &mut own, names, inside, value, meter)?;
    let copy = granted!(meter, Rc::new(context.alloc, own));
    *node = copy;
    Ok(over)
}

// The same of members that wait.
#[cycle(step)]
#[inline(always)]
fn step_gathering<R: Holds>(
    context: &SampleContext<R>,
    node: &mut Rc<Gathering>,
    names: &Env,
    inside: u64,
    value: &mut Value,
    meter: &mut Meter,
) -> Result<Option<State>, Stop>
    ensures { GatheringSteps (context_machine R.answers context.now) names.now node.old.value (step (dt_in context.now) value.old)
        (left_beside result node.new.value value.new (meter_fault meter.new)) meter.old meter.new inside }
{
    match Rc::get_mut(node) {
        Some(gathering) => step_members_waiting(context, gathering, names, inside, value, meter),
        None => step_gathering_copy(context, node, names, inside, value, meter),
    }
}

// The same where other states share the node: a copy takes its place.
#[cycle(step)]
#[cold]
#[inline(never)]
fn step_gathering_copy<R: Holds>(
    context: &SampleContext<R>,
    node: &mut Rc<Gathering>,
    names: &Env,
    inside: u64,
    value: &mut Value,
    meter: &mut Meter,
) -> Result<Option<State>, Stop>
    ensures { GatheringSteps (context_machine R.answers context.now) names.now node.old.value (step (dt_in context.now) value.old)
        (left_beside result node.new.value value.new (meter_fault meter.new)) meter.old meter.new inside }
{
    let mut own = granted!(meter, node.clone_in(context.alloc));
    let over = step_members_waiting(context, &mut own, names, inside, value, meter)?;
    let copy = granted!(meter, Rc::new(context.alloc, own));
    *node = copy;
    Ok(over)
}

// The same of the node's content.
#[cycle(step)]
#[inline]
fn step_members_waiting<R: Holds>(
    context: &SampleContext<R>,
    gathering: &mut Gathering,
    names: &Env,
    inside: u64,
    value: &mut Value,
    meter: &mut Meter,
) -> Result<Option<State>, Stop>
    ensures { GatheringSteps (context_machine R.answers context.now) names.now gathering.old (step (dt_in context.now) value.old)
        (left_beside result gathering.new value.new (meter_fault meter.new)) meter.old meter.new inside }
{
    match gathering {
        Gathering::Releasing(releasing) => {
            step_releasing(context, releasing, names, inside, value, meter)
        }
        Gathering::Editing(editing) => {
            step_edited(context, editing, names, inside, value, meter)
        }
    }
}

// The next sample of members under an observer: the event is what it gives on the input beside their table, and the body is
// handed the members as they were before this sample.
#[cycle(step)]
#[inline(never)]
fn step_releasing<R: Holds>(
    context: &SampleContext<R>,
    releasing: &mut Releasing,
    names: &Env,
    inside: u64,
    value: &mut Value,
    meter: &mut Meter,
) -> Result<Option<State>, Stop>
    ensures { GatheringSteps (context_machine R.answers context.now) names.now (Gathering.Releasing releasing.old) (step (dt_in context.now) value.old)
        (left_beside result (Gathering.Releasing releasing.new) value.new (meter_fault meter.new)) meter.old meter.new inside }
{
    let alloc = context.alloc;
    granted!(
        meter,
        hold_back_members(alloc, &mut releasing.members, &mut releasing.before)
    );
    let input = granted!(meter, value.clone_in(alloc));
    step_members(context, &mut releasing.members, inside, value, meter)?;
    let observer = &mut releasing.observer;
    let seen = step_beside(context, observer, inside, &input, &*value, meter)?;
    match payload_of(seen) {
        None => Ok(None),
        Some(payload) => {
            let plan = context.plan;
            let body = granted!(
                meter,
                releasing.begin(alloc, plan, names, context.dt, payload)
            );
            let around = Around {
                context: &*context,
                names: &body.names,
                inside,
            };
            let mut over = State::unborn(body.term);
            let mut shown = input;
            first_step(&around, &mut over, body.term, &mut shown, meter)?;
            show(releasing.shown, value, shown);
            Ok(Some(over))
        }
    }
}

// The same of members that are edited, from which nothing takes over.
#[cycle(step)]
#[inline(always)]
fn step_edited<R: Holds>(
    context: &SampleContext<R>,
    editing: &mut Editing,
    names: &Env,
    inside: u64,
    value: &mut Value,
    meter: &mut Meter,
) -> Result<Option<State>, Stop>
    ensures { GatheringSteps (context_machine R.answers context.now) names.now (Gathering.Editing editing.old) (step (dt_in context.now) value.old)
        (left_beside result (Gathering.Editing editing.new) value.new (meter_fault meter.new)) meter.old meter.new inside }
{
    step_editing(context, editing, names, inside, value, meter)?;
    Ok(None)
}

// The next sample of members that are edited. At an event the edit is made first, of those that run as they are, so that nothing
// else has their list when they are stepped; its members begin after them, on this sample. Its fault comes after theirs.
#[cycle(step)]
#[inline(never)]
fn step_editing<R: Holds>(
    context: &SampleContext<R>,
    editing: &mut Editing,
    names: &Env,
    inside: u64,
    value: &mut Value,
    meter: &mut Meter,
) -> Result<(), Stop>
    ensures { GatheringSteps (context_machine R.answers context.now) names.now (Gathering.Editing editing.old) (step (dt_in context.now) value.old)
        (left_or result ((None, Gathering.Editing editing.new), value.new) (meter_fault meter.new)) meter.old meter.new inside }
{
    let alloc = context.alloc;
    let (input, occurring) = granted!(meter, value_and_payload(alloc, value));
    *value = input;
    match occurring {
        None => step_members(context, &mut editing.members, inside, value, meter),
        Some(payload) => {
            let around = granted!(
                meter,
                editing.inside(alloc, context.plan, names, context.dt, payload)
            );
            let shown = editing.shown;
            match draft_of(context, &*editing, &*editing.edit, &around) {
                Ok(Some(draft)) => {
                    drop(around);
                    let members = &mut editing.members;
                    let wait = members.wait;
                    let edit = Edit {
                        shown,
                        inside,
                        wait,
                        draft,
                    };
                    return step_draft(context, edit, members, value, meter);
                }
                Err(Fault::Memory) => return Err(meter.stop(Fault::Memory)),
                // (what other members it makes, or its fault, is found once more)
                _ => {}
            }
            let made = collect(context, &*editing.edit, &around);
            drop(around);
            let exchange = Exchange {
                shown,
                inside,
                made,
            };
            step_exchange(context, exchange, &mut editing.members, value, meter)
        }
    }
}

// The sample at which members give way to those of an edit that are others, or to its fault: both are stepped.
#[cycle(step)]
#[inline(never)]
fn step_exchange<R: Holds>(
    context: &SampleContext<R>,
    exchange: Exchange,
    members: &mut Gathered,
    value: &mut Value,
    meter: &mut Meter,
) -> Result<(), Stop>
    ensures { EditSteps (context_machine R.answers context.now) (gathered_holding members.old) (held_as_made exchange.made) exchange.shown (step (dt_in context.now) value.old)
        (left_or result (gathered_holding members.new, value.new) (meter_fault meter.new)) meter.old meter.new exchange.inside }
{
    let Exchange {
        shown,
        inside,
        made,
    } = exchange;
    let mut begun = granted!(meter, value.clone_in(context.alloc));
    step_members(context, members, inside, value, meter)?;
    match made {
        Err(fault) => Err(meter.stop(fault)),
        Ok(mut fresh) => {
            step_members(context, &mut fresh, inside, &mut begun, meter)?;
            *members = fresh;
            show(shown, value, begun);
            Ok(())
        }
    }
}

// The sample at which members give way to those of an edit, of which some stay.
#[cycle(step)]
#[inline(never)]
fn step_draft<R: Holds>(
    context: &SampleContext<R>,
    edit: Edit,
    members: &mut Gathered,
    value: &mut Value,
    meter: &mut Meter,
) -> Result<(), Stop>
    ensures { DraftSteps (context_machine R.answers context.now) edit (dt_in context.now) members.old.keys members.old.states.value.items value.old
        (left_or result (gathered_holding members.new, value.new) (meter_fault meter.new)) meter.old meter.new }
{
    members.wait = None;
    let keys = &mut members.keys;
    let list = &mut members.states;
    match Rc::get_mut(list) {
        Some(states) => step_turns(context, edit, keys, states, value, meter),
        None => step_turns_copy(context, edit, keys, list, value, meter),
    }
}

// The same of the keys of members, and of their states in a list that others share: one over the same nodes takes its place.
#[cycle(step)]
#[cold]
#[inline(never)]
fn step_turns_copy<R: Holds>(
    context: &SampleContext<R>,
    edit: Edit,
    keys: &mut Rc<Keys>,
    list: &mut Rc<Vec<State>>,
    value: &mut Value,
    meter: &mut Meter,
) -> Result<(), Stop>
    ensures { DraftSteps (context_machine R.answers context.now) edit (dt_in context.now) keys.old list.old.value.items value.old
        (left_or result (held_as keys.new list.new.value.items None, value.new) (meter_fault meter.new)) meter.old meter.new }
{
    let shared = granted!(meter, list.clone());
    let mut own = granted!(meter, own_states(context.alloc, shared));
    step_turns(context, edit, keys, &mut own, value, meter)?;
    let copy = granted!(meter, Rc::new(context.alloc, own));
    *list = copy;
    Ok(())
}

// The same of a list that is their own, or stands for theirs: each that ran is stepped once, where it stands. What it gave is
// given again by one that stays, and counts again.
#[cycle(step)]
#[inline(never)]
fn step_turns<R: Holds>(
    context: &SampleContext<R>,
    edit: Edit,
    keys: &mut Rc<Keys>,
    states: &mut Vec<State>,
    value: &mut Value,
    meter: &mut Meter,
) -> Result<(), Stop>
    ensures { (bs : List state_forms.State) → AllFollow (context_machine R.answers context.now) bs states.old.items → DraftSteps (context_machine R.answers context.now) edit (dt_in context.now) keys.old bs value.old
        (left_or result (held_as keys.new states.new.items None, value.new) (meter_fault meter.new)) meter.old meter.new }
{
    let alloc = context.alloc;
    let Edit {
        shown,
        inside,
        wait,
        draft,
    } = edit;
    let noted = step_noted(context, wait, states, inside, &*value, meter)?;
    let Noted { outputs, mut turns } = noted;
    let (before, mut outputs) = granted!(meter, table_before(alloc, shown, &*keys, outputs));
    let Draft { keys: all, changes } = draft;
    let all = granted!(meter, Rc::new(alloc, all));
    granted!(
        meter,
        change_all(alloc, &*value, changes, states, &mut outputs, &mut turns)
    );
    let turns = Turns {
        inside,
        wait: wait.unwrap_or(context.dt),
        each: &turns,
    };
    step_again(context, turns, states, &mut outputs, meter)?;
    *keys = all;
    *value = granted!(meter, table_after(alloc, before, &*keys, outputs));
    Ok(())
}

// The next sample of members that run, or wait so long: what each gave, and what the meter counted of it.
#[cycle(step)]
#[inline(never)]
fn step_noted<R: Holds>(
    context: &SampleContext<R>,
    wait: Option<u64>,
    states: &mut Vec<State>,
    inside: u64,
    value: &Value,
    meter: &mut Meter,
) -> Result<Noted, Stop>
    ensures { HaveStepped (context_machine R.answers context.now) wait (step (dt_in context.now) value.now) inside meter.old states.old.items
        (left_noted result states.new.items (meter_fault meter.new)) meter.new }
{
    let alloc = context.alloc;
    let room = room_for(states.len());
    let mut outputs = granted!(meter, Vec::with_capacity(alloc, room));
    let mut turns = granted!(meter, Vec::with_capacity(alloc, room));
    for ran in states.iter_mut() {
        let mut output = granted!(meter, value.clone_in(alloc));
        let mark = meter.mark();
        step_member(context, wait, ran, inside, &mut output, meter)?;
        outputs.push_reserved(output);
        turns.push_reserved(Turn::Stays(meter.since(mark)));
    }
    Ok(Noted { outputs, turns })
}

// The first sample of the members of an edit: one that stays has been stepped; one that begins stands before its input.
#[cycle(step)]
#[inline(never)]
fn step_again<R: Holds>(
    context: &SampleContext<R>,
    turns: Turns<'_>,
    states: &mut Vec<State>,
    outputs: &mut Vec<Value>,
    meter: &mut Meter,
) -> Result<(), Stop>
    requires states { length states.old.items ≡ length turns.each.now }
    requires outputs { length outputs.old.items ≡ length turns.each.now }
    ensures { HaveTurned (context_machine R.answers context.now) turns.entry.wait (dt_in context.now) turns.entry.inside meter.old states.old.items outputs.old.items turns.entry.each.now
        (left_or result (states.new.items, outputs.new.items) (meter_fault meter.new)) meter.new }
{
    let Turns { inside, wait, each } = turns;
    for at in 0..each.len() {
        match &each[at] {
            Turn::Stays(spent) => meter.repeat(context.alloc, spent)?,
            Turn::Begins => {
                let output = &mut outputs[at];
                step_waiting(context, wait, &mut states[at], inside, output, meter)?;
            }
        }
    }
    Ok(())
}

// The next sample of members, each on the same input, in order: the table of their values takes its place. From then on they
// run, also where they were frozen.
#[cycle(step)]
#[inline(never)]
fn step_members<R: Holds>(
    context: &SampleContext<R>,
    members: &mut Gathered,
    inside: u64,
    value: &mut Value,
    meter: &mut Meter,
) -> Result<(), Stop>
    ensures { MembersSteps (context_machine R.answers context.now) members.old (step (dt_in context.now) value.old)
        (left_or result (members.new, value.new) (meter_fault meter.new)) meter.old meter.new inside }
{
    let wait = members.wait;
    let outputs = step_list(context, wait, &mut members.states, inside, &*value, meter)?;
    members.wait = None;
    *value = granted!(meter, table_of(context.alloc, &members.keys, outputs));
    Ok(())
}

// The same of their states, in a list that others may share: their values in order.
#[cycle(step)]
#[inline(always)]
fn step_list<R: Holds>(
    context: &SampleContext<R>,
    wait: Option<u64>,
    list: &mut Rc<Vec<State>>,
    inside: u64,
    value: &Value,
    meter: &mut Meter,
) -> Result<Vec<Value>, Stop>
    ensures { EachSteps (context_machine R.answers context.now) wait list.old.value.items (step (dt_in context.now) value.now)
        (left_with result list.new.value.items (meter_fault meter.new)) meter.old meter.new inside }
{
    match Rc::get_mut(list) {
        Some(states) => step_each(context, wait, states, inside, value, meter),
        None => step_list_copy(context, wait, list, inside, value, meter),
    }
}

// The same where others share the list: one over the same nodes takes its place.
#[cycle(step)]
#[cold]
#[inline(never)]
fn step_list_copy<R: Holds>(
    context: &SampleContext<R>,
    wait: Option<u64>,
    list: &mut Rc<Vec<State>>,
    inside: u64,
    value: &Value,
    meter: &mut Meter,
) -> Result<Vec<Value>, Stop>
    ensures { EachSteps (context_machine R.answers context.now) wait list.old.value.items (step (dt_in context.now) value.now)
        (left_with result list.new.value.items (meter_fault meter.new)) meter.old meter.new inside }
{
    let shared = granted!(meter, list.clone());
    let mut own = granted!(meter, own_states(context.alloc, shared));
    let values = step_each(context, wait, &mut own, inside, value, meter)?;
    let copy = granted!(meter, Rc::new(context.alloc, own));
    *list = copy;
    Ok(values)
}

// The same of a list that is their own.
#[cycle(step)]
#[inline(never)]
fn step_each<R: Holds>(
    context: &SampleContext<R>,
    wait: Option<u64>,
    states: &mut Vec<State>,
    inside: u64,
    value: &Value,
    meter: &mut Meter,
) -> Result<Vec<Value>, Stop>
    ensures { EachSteps (context_machine R.answers context.now) wait states.old.items (step (dt_in context.now) value.now)
        (left_with result states.new.items (meter_fault meter.new)) meter.old meter.new inside }
{
    let mut outputs = granted!(meter, Vec::with_capacity(context.alloc, states.len()));
    for state in states.iter_mut() {
        let mut output = granted!(meter, value.clone_in(context.alloc));
        step_member(context, wait, state, inside, &mut output, meter)?;
        outputs.push_reserved(output);
    }
    Ok(outputs)
}

// The next sample of a member: where members wait since they were frozen, its first from then on.
#[cycle(step)]
#[inline(always)]
fn step_member<R: Holds>(
    context: &SampleContext<R>,
    wait: Option<u64>,
    state: &mut State,
    inside: u64,
    value: &mut Value,
    meter: &mut Meter,
) -> Result<(), Stop>
    ensures { MemberSteps (context_machine R.answers context.now) wait state.old (step (dt_in context.now) value.old)
        (left_or result (state.new, value.new) (meter_fault meter.new)) meter.old meter.new inside }
{
    match wait {
        None => step_state(context, state, inside, value, meter),
        Some(time) => step_waiting(context, time, state, inside, value, meter),
    }
}

// The first sample of a member that waited: where it had lived, it goes on in its own time.
#[cycle(step)]
#[inline(never)]
fn step_waiting<R: Holds>(
    context: &SampleContext<R>,
    wait: u64,
    state: &mut State,
    inside: u64,
    value: &mut Value,
    meter: &mut Meter,
) -> Result<(), Stop>
    ensures { MemberSteps (context_machine R.answers context.now) (Some wait) state.old (step (dt_in context.now) value.old)
        (left_or result (state.new, value.new) (meter_fault meter.new)) meter.old meter.new inside }
{
    if has_lived(state) {
        let later = SampleContext {
            alloc: context.alloc,
            plan: context.plan,
            functions: context.functions,
            dt: wait,
        };
        step_state(&later, state, inside, value, meter)
    } else {
        step_state(context, state, inside, value, meter)
    }
}

// Which of the two values a switch shows at its event.
fn shown_by(form: &Switching) -> Observation
    ensures { result ≡ observation_of form.now }
{
    match form {
        Switching::Basic(shown) | Switching::Recurring(shown) => *shown,
    }
}

// Room for so many members, and for some that an edit adds.
fn room_for(count: usize) -> usize
    ensures { count ≤ result }
{
    count.saturating_add(ADDED)
}

// Whether a state has lived a step, and not been frozen since.
#[inline(always)]
fn has_lived(state: &State) -> bool
    ensures { result ≡ is_awake state.now }
{
    match state {
        State::Unborn(_) | State::Frozen(_) => false,
        _ => true,
    }
}

// The next sample of `parB`, which has been counted.
#[cycle(step)]
#[inline(never)]
fn step_gathered<R: Holds>(
    context: &SampleContext<R>,
    members: &mut Gathered,
    inside: u64,
    value: &mut Value,
    meter: &mut Meter,
) -> Result<(), Stop>
    ensures { LiveSteps (context_machine R.answers context.now) (Live.Gathered members.old) (step (dt_in context.now) value.old)
        (left_or result (Live.Gathered members.new, value.new) (meter_fault meter.new)) meter.old meter.new inside }
{
    step_members(context, members, inside, value, meter)
}

// The next sample of a switch that waits, which has been counted and whose parts stand inside `inside` nodes: what takes over
// from it, if its event is there.
#[cycle(step)]
#[inline]
fn step_switch<R: Holds>(
    context: &SampleContext<R>,
    switch: &mut Switch,
    names: &Env,
    inside: u64,
    value: &mut Value,
    meter: &mut Meter,
) -> Result<Option<State>, Stop>
    ensures { SwitchSteps (context_machine R.answers context.now) names.now switch.old (step (dt_in context.now) value.old)
        (left_beside result switch.new value.new (meter_fault meter.new)) meter.old meter.new inside }
{
    match switch.form {
        Switching::Basic(_) => step_basic(context, switch, names, inside, value, meter),
        Switching::Recurring(_) => {
            step_recurring(context, switch, names, inside, value, meter)?;
            Ok(None)
        }
    }
}

// The same of a basic switch: its event stands beside the value of its first term, and its body takes over.
#[cycle(step)]
#[inline(never)]
fn step_basic<R: Holds>(
    context: &SampleContext<R>,
    switch: &mut Switch,
    names: &Env,
    inside: u64,
    value: &mut Value,
    meter: &mut Meter,
) -> Result<Option<State>, Stop>
    requires form { switch.old.form ≡ Switching.Basic (observation_of switch.old.form) }
    ensures { SwitchSteps (context_machine R.answers context.now) names.now switch.old (step (dt_in context.now) value.old)
        (left_beside result switch.new value.new (meter_fault meter.new)) meter.old meter.new inside }
{
    let output = granted!(meter, value.clone_in(context.alloc));
    let (old, occurring) = step_apart(context, &mut switch.running, inside, value, meter)?;
    *value = old;
    match occurring {
        None => Ok(None),
        Some(payload) => {
            let body = granted!(
                meter,
                switch.begin(context.alloc, context.plan, names, payload)
            );
            let around = Around {
                context: &*context,
                names: &body.names,
                inside,
            };
            let mut over = State::unborn(body.term);
            let mut shown = output;
            first_step(&around, &mut over, body.term, &mut shown, meter)?;
            show(shown_by(&switch.form), value, shown);
            Ok(Some(over))
        }
    }
}

// The next sample of a part whose value is taken apart: the first part of that, and the payload of the event beside it, if it
// occurs. It leaves a number in the value's place. Two parts on one input give both without a pair.
#[cycle(step)]
#[inline(always)]
fn step_apart<R: Holds>(
    context: &SampleContext<R>,
    state: &mut State,
    depth: u64,
    value: &mut Value,
    meter: &mut Meter,
) -> Result<(Value, Option<Payload>), Stop>
    ensures { GivesApart (λ gives. StateSteps (context_machine R.answers context.now) state.old (step (dt_in context.now) value.old) gives meter.old meter.new depth)
        state.new (meter_fault meter.new) result }
{
    match state {
        State::Live(_, node) => {
            let inside = meter.tick(depth)?;
            step_node_apart(context, node, inside, value, meter)
        }
        State::Unborn(_) => step_unborn_apart(context, state, depth, value, meter),
        _ => {
            step_state(context, state, depth, value, meter)?;
            taken_apart(context.alloc, value, meter)
        }
    }
}

// The same of a node, which has been counted.
#[cycle(step)]
#[inline(always)]
fn step_node_apart<R: Holds>(
    context: &SampleContext<R>,
    node: &mut Rc<Live>,
    inside: u64,
    value: &mut Value,
    meter: &mut Meter,
) -> Result<(Value, Option<Payload>), Stop>
    ensures { GivesApart (λ gives. LiveSteps (context_machine R.answers context.now) node.old.value (step (dt_in context.now) value.old) gives meter.old meter.new inside)
        node.new.value (meter_fault meter.new) result }
{
    match Rc::get_mut(node) {
        Some(live) => step_live_apart(context, live, inside, value, meter),
        None => {
            step_node_copy(context, node, inside, value, meter)?;
            taken_apart(context.alloc, value, meter)
        }
    }
}

// The same of the node's content, which is its own.
#[cycle(step)]
#[inline(always)]
fn step_live_apart<R: Holds>(
    context: &SampleContext<R>,
    live: &mut Live,
    inside: u64,
    value: &mut Value,
    meter: &mut Meter,
) -> Result<(Value, Option<Payload>), Stop>
    ensures { GivesApart (λ gives. LiveSteps (context_machine R.answers context.now) live.old (step (dt_in context.now) value.old) gives meter.old meter.new inside)
        live.new (meter_fault meter.new) result }
{
    match live {
        Live::Join(join, left, right) => match join {
            Join::InSequence => step_sequence_apart(context, left, right, inside, value, meter),
            Join::InParallel => step_parallel_apart(context, left, right, inside, value, meter),
            Join::FannedOut => step_fan_apart(context, left, right, inside, value, meter),
        },
        _ => step_whole(context, live, inside, value, meter),
    }
}

// The same of two parts, the right one on the value of the left one.
#[cycle(step)]
#[inline(never)]
fn step_sequence_apart<R: Holds>(
    context: &SampleContext<R>,
    left: &mut State,
    right: &mut State,
    inside: u64,
    value: &mut Value,
    meter: &mut Meter,
) -> Result<(Value, Option<Payload>), Stop>
    ensures { GivesApart (λ gives. LiveSteps (context_machine R.answers context.now) (Live.Join Join.InSequence left.old right.old) (step (dt_in context.now) value.old) gives meter.old meter.new inside)
        (Live.Join Join.InSequence left.new right.new) (meter_fault meter.new) result }
{
    step_state(context, left, inside, value, meter)?;
    step_apart(context, right, inside, value, meter)
}

// The same of two parts side by side.
#[cycle(step)]
#[inline(never)]
fn step_parallel_apart<R: Holds>(
    context: &SampleContext<R>,
    left: &mut State,
    right: &mut State,
    inside: u64,
    value: &mut Value,
    meter: &mut Meter,
) -> Result<(Value, Option<Payload>), Stop>
    ensures { GivesApart (λ gives. LiveSteps (context_machine R.answers context.now) (Live.Join Join.InParallel left.old right.old) (step (dt_in context.now) value.old) gives meter.old meter.new inside)
        (Live.Join Join.InParallel left.new right.new) (meter_fault meter.new) result }
{
    step_parallel(context, left, right, inside, value, meter)?;
    taken_apart(context.alloc, value, meter)
}

// The same of what gives its value whole.
#[cycle(step)]
#[inline(never)]
fn step_whole<R: Holds>(
    context: &SampleContext<R>,
    live: &mut Live,
    inside: u64,
    value: &mut Value,
    meter: &mut Meter,
) -> Result<(Value, Option<Payload>), Stop>
    ensures { GivesApart (λ gives. LiveSteps (context_machine R.answers context.now) live.old (step (dt_in context.now) value.old) gives meter.old meter.new inside)
        live.new (meter_fault meter.new) result }
{
    step_live(context, live, inside, value, meter)?;
    taken_apart(context.alloc, value, meter)
}

// The same of two parts on one input.
#[cycle(step)]
#[inline(never)]
fn step_fan_apart<R: Holds>(
    context: &SampleContext<R>,
    left: &mut State,
    right: &mut State,
    inside: u64,
    value: &mut Value,
    meter: &mut Meter,
) -> Result<(Value, Option<Payload>), Stop>
    ensures { GivesApart (λ gives. LiveSteps (context_machine R.answers context.now) (Live.Join Join.FannedOut left.old right.old) (step (dt_in context.now) value.old) gives meter.old meter.new inside)
        (Live.Join Join.FannedOut left.new right.new) (meter_fault meter.new) result }
{
    let first = step_halves(context, left, right, inside, value, meter)?;
    let second = mem::replace(value, Value::int(0));
    Ok((first, payload_of(second)))
}

// What a part gave, taken apart.
#[inline(always)]
fn taken_apart(
    alloc: Global,
    value: &mut Value,
    meter: &mut Meter,
) -> Result<(Value, Option<Payload>), Stop>
    ensures { TakenApart value.old meter.old meter.new result }
{
    let halves = granted!(meter, value_and_payload(alloc, value));
    Ok(halves)
}

// The same of a recurring switch: its event stands beside its input, which goes without it to what runs. That is stepped at
// an event too, before the body takes its place.
#[cycle(step)]
#[inline(never)]
fn step_recurring<R: Holds>(
    context: &SampleContext<R>,
    switch: &mut Switch,
    names: &Env,
    inside: u64,
    value: &mut Value,
    meter: &mut Meter,
) -> Result<(), Stop>
    requires form { switch.old.form ≡ Switching.Recurring (observation_of switch.old.form) }
    ensures { SwitchSteps (context_machine R.answers context.now) names.now switch.old (step (dt_in context.now) value.old)
        (left_or result ((None, switch.new), value.new) (meter_fault meter.new)) meter.old meter.new inside }
{
    let (input, occurring) = granted!(meter, value_and_payload(context.alloc, value));
    *value = input;
    match occurring {
        None => step_state(context, &mut switch.running, inside, value, meter),
        Some(payload) => {
            let mut shown = granted!(meter, value.clone_in(context.alloc));
            let ran = &mut switch.running;
            step_state(context, ran, inside, value, meter)?;
            let body = granted!(
                meter,
                switch.begin(context.alloc, context.plan, names, payload)
            );
            let around = Around {
                context: &*context,
                names: &body.names,
                inside,
            };
            first_step(&around, &mut switch.running, body.term, &mut shown, meter)?;
            show(shown_by(&switch.form), value, shown);
            Ok(())
        }
    }
}

// The same of a switch that keeps its source: its event is what the observer gives on the
// input beside the source's value, and its body is handed the source as it was before this sample.
#[cycle(step)]
#[inline(never)]
fn step_continuing<R: Holds>(
    context: &SampleContext<R>,
    continuing: &mut Continuation,
    names: &Env,
    inside: u64,
    value: &mut Value,
    meter: &mut Meter,
) -> Result<Option<State>, Stop>
    ensures { ContinuationSteps (context_machine R.answers context.now) names.now continuing.old (step (dt_in context.now) value.old)
        (left_beside result continuing.new value.new (meter_fault meter.new)) meter.old meter.new inside }
{
    granted!(
        meter,
        hold_back(
            context.alloc,
            &mut continuing.source,
            &mut continuing.before,
        )
    );
    let input = granted!(meter, value.clone_in(context.alloc));
    step_state(context, &mut continuing.source, inside, value, meter)?;
    let observer = &mut continuing.observer;
    let seen = step_beside(context, observer, inside, &input, &*value, meter)?;
    match payload_of(seen) {
        None => Ok(None),
        Some(payload) => {
            let plan = context.plan;
            let body = granted!(
                meter,
                continuing.begin(context.alloc, plan, names, context.dt, payload)
            );
            let around = Around {
                context: &*context,
                names: &body.names,
                inside,
            };
            let mut over = State::unborn(body.term);
            let mut shown = input;
            first_step(&around, &mut over, body.term, &mut shown, meter)?;
            show(continuing.shown, value, shown);
            Ok(Some(over))
        }
    }
}

// The value at the next sample of a part on the pair of two values, which are made one unless the part is an `arr`, or a primitive
// behind one.
#[cycle(step)]
#[inline(always)]
fn step_beside<R: Holds>(
    context: &SampleContext<R>,
    state: &mut State,
    inside: u64,
    input: &Value,
    given: &Value,
    meter: &mut Meter,
) -> Result<Value, Stop>
    ensures { StateSteps (context_machine R.answers context.now) state.old (step (dt_in context.now) (pair input.now given.now))
        (left_valued result state.new (meter_fault meter.new)) meter.old meter.new inside }
{
    if let State::Mapped(arrow, prim) = state {
        let within = meter.tick(inside)?;
        let both = Beside { input, given };
        return step_mapped_beside(context, *arrow, prim, within, both, meter);
    }
    if let Some(code) = arrow_of(&*state) {
        let both = Beside { input, given };
        return count_and_map_beside(context, code, inside, both, meter);
    }
    let mut seen = granted!(meter, beside(context.alloc, input, given));
    step_state(context, state, inside, &mut seen, meter)?;
    Ok(seen)
}

// The same at its first sample.
#[cycle(step)]
#[inline(always)]
fn first_beside<R: Holds>(
    around: &Around<R>,
    state: &mut State,
    term: PlanId,
    input: &Value,
    given: &Value,
    meter: &mut Meter,
) -> Result<Value, Stop>
    ensures { StateSteps (machine_around R.answers around.now) (StateOf.Unborn (closed_over term around.now.names.now)) (step (dt_around around.now) (pair input.now given.now))
        (left_valued result state.new (meter_fault meter.new)) meter.old meter.new around.now.inside }
{
    let context = around.context;
    if let Some(code) = bare_arrow(context.plan, term) {
        let both = Beside { input, given };
        return first_arrow(around, state, code, both, meter);
    }
    if let Some(behind) = primitive_behind(context.plan, term) {
        let inside = meter.tick(around.inside)?;
        let within = Around {
            context: &*context,
            names: &*around.names,
            inside,
        };
        let both = Beside { input, given };
        return first_behind(&within, state, behind, both, meter);
    }
    let mut seen = granted!(meter, beside(context.alloc, input, given));
    first_step(around, state, term, &mut seen, meter)?;
    Ok(seen)
}

// The next sample of a node, which has been counted and whose parts stand inside `inside` nodes. Only here is a node
// reached, which other states may share.
#[cycle(step)]
#[inline(always)]
fn step_node<R: Holds>(
    context: &SampleContext<R>,
    node: &mut Rc<Live>,
    inside: u64,
    value: &mut Value,
    meter: &mut Meter,
) -> Result<(), Stop>
    ensures { LiveSteps (context_machine R.answers context.now) node.old.value (step (dt_in context.now) value.old)
        (left_or result (node.new.value, value.new) (meter_fault meter.new)) meter.old meter.new inside }
{
    match Rc::get_mut(node) {
        Some(live) => step_live(context, live, inside, value, meter),
        None => step_node_copy(context, node, inside, value, meter),
    }
}

// The same where other states share the node: a copy takes its place.
#[cycle(step)]
#[cold]
#[inline(never)]
fn step_node_copy<R: Holds>(
    context: &SampleContext<R>,
    node: &mut Rc<Live>,
    inside: u64,
    value: &mut Value,
    meter: &mut Meter,
) -> Result<(), Stop>
    ensures { LiveSteps (context_machine R.answers context.now) node.old.value (step (dt_in context.now) value.old)
        (left_or result (node.new.value, value.new) (meter_fault meter.new)) meter.old meter.new inside }
{
    let mut own = granted!(meter, node.clone_in(context.alloc));
    step_live(context, &mut own, inside, value, meter)?;
    let copy = granted!(meter, Rc::new(context.alloc, own));
    *node = copy;
    Ok(())
}

// The same of the node's content, which is its own.
#[cycle(step)]
#[inline(always)]
fn step_live<R: Holds>(
    context: &SampleContext<R>,
    live: &mut Live,
    inside: u64,
    value: &mut Value,
    meter: &mut Meter,
) -> Result<(), Stop>
    ensures { LiveSteps (context_machine R.answers context.now) live.old (step (dt_in context.now) value.old)
        (left_or result (live.new, value.new) (meter_fault meter.new)) meter.old meter.new inside }
{
    match live {
        Live::Probe(name) => step_probe(context, name, value, meter),
        Live::Join(join, left, right) => match join {
            Join::InSequence => step_sequence(context, left, right, inside, value, meter),
            Join::InParallel => step_parallel(context, left, right, inside, value, meter),
            Join::FannedOut => step_fan(context, left, right, inside, value, meter),
        },
        Live::Pipeline(stages) => step_pipeline(context, stages, inside, value, meter),
        Live::Gathered(members) => step_gathered(context, members, inside, value, meter),
        Live::Wrap(wrap, part) => match wrap {
            Wrap::First => step_first(context, part, inside, value, meter),
            Wrap::Second => step_second(context, part, inside, value, meter),
            Wrap::Loop(feedback) => step_loop(context, feedback, part, inside, value, meter),
            Wrap::Initialized(first) => step_initialized(
                context, first, part, inside, value, meter,
            ),
            Wrap::Replaced(first) => step_replaced(context, first, part, inside, value, meter),
            Wrap::Followed(last) => step_followed(context, last, part, inside, value, meter),
        },
    }
}

// The next sample of two parts, the right one on the value of the left one, likewise.
#[cycle(step)]
#[inline(never)]
fn step_sequence<R: Holds>(
    context: &SampleContext<R>,
    left: &mut State,
    right: &mut State,
    inside: u64,
    value: &mut Value,
    meter: &mut Meter,
) -> Result<(), Stop>
    ensures { LiveSteps (context_machine R.answers context.now) (Live.Join Join.InSequence left.old right.old) (step (dt_in context.now) value.old)
        (left_or result (Live.Join Join.InSequence left.new right.new, value.new) (meter_fault meter.new)) meter.old meter.new inside }
{
    let splits = takes_halves(&*right);
    let apart = step_split(context, left, splits, inside, value, meter)?;
    step_on_split(context, right, apart, inside, value, meter)
}

// Whether a part runs its code on two halves of its input without their pair.
#[inline(always)]
fn takes_halves(state: &State) -> bool {
    match state {
        State::Mapped(_, _) => true,
        _ => arrow_of(state).is_some(),
    }
}

// The next sample of a part, whose value may stay apart: of two parts that share their input, the value of the left one is answered,
// and that of the right one takes the place of the input. The value of another part, and of a shared node, takes that place whole.
#[cycle(step)]
#[inline(always)]
fn step_split<R: Holds>(
    context: &SampleContext<R>,
    state: &mut State,
    splits: bool,
    depth: u64,
    value: &mut Value,
    meter: &mut Meter,
) -> Result<Option<Value>, Stop>
    ensures { StateSteps (context_machine R.answers context.now) state.old (step (dt_in context.now) value.old)
        (left_split result state.new value.new (meter_fault meter.new)) meter.old meter.new depth }
{
    if splits {
        if let State::Live(_, node) = state {
            let inside = meter.tick(depth)?;
            return step_node_split(context, node, inside, value, meter);
        }
    }
    step_state(context, state, depth, value, meter)?;
    Ok(None)
}

// The same of a node, which has been counted.
#[cycle(step)]
#[inline(always)]
fn step_node_split<R: Holds>(
    context: &SampleContext<R>,
    node: &mut Rc<Live>,
    inside: u64,
    value: &mut Value,
    meter: &mut Meter,
) -> Result<Option<Value>, Stop>
    ensures { LiveSteps (context_machine R.answers context.now) node.old.value (step (dt_in context.now) value.old)
        (left_split result node.new.value value.new (meter_fault meter.new)) meter.old meter.new inside }
{
    match Rc::get_mut(node) {
        Some(live) => step_live_split(context, live, inside, value, meter),
        None => {
            step_node_copy(context, node, inside, value, meter)?;
            Ok(None)
        }
    }
}

// The same of the node's content, which is its own.
#[cycle(step)]
#[inline(always)]
fn step_live_split<R: Holds>(
    context: &SampleContext<R>,
    live: &mut Live,
    inside: u64,
    value: &mut Value,
    meter: &mut Meter,
) -> Result<Option<Value>, Stop>
    ensures { LiveSteps (context_machine R.answers context.now) live.old (step (dt_in context.now) value.old)
        (left_split result live.new value.new (meter_fault meter.new)) meter.old meter.new inside }
{
    match live {
        Live::Join(join, left, right) => match join {
            Join::InSequence => {
                step_sequence(context, left, right, inside, value, meter)?;
                Ok(None)
            }
            Join::InParallel => {
                step_parallel(context, left, right, inside, value, meter)?;
                Ok(None)
            }
            Join::FannedOut => {
                let first = step_halves(context, left, right, inside, value, meter)?;
                Ok(Some(first))
            }
        },
        _ => {
            step_live(context, live, inside, value, meter)?;
            Ok(None)
        }
    }
}

// The next sample of a part on a value that may stand apart.
#[cycle(step)]
#[inline(always)]
fn step_on_split<R: Holds>(
    context: &SampleContext<R>,
    state: &mut State,
    apart: Option<Value>,
    depth: u64,
    value: &mut Value,
    meter: &mut Meter,
) -> Result<(), Stop>
    ensures { StateSteps (context_machine R.answers context.now) state.old (step (dt_in context.now) (whole_of apart value.old))
        (left_or result (state.new, value.new) (meter_fault meter.new)) meter.old meter.new depth }
{
    match apart {
        None => step_state(context, state, depth, value, meter),
        Some(first) => {
            let given = step_beside(context, state, depth, &first, &*value, meter)?;
            *value = given;
            Ok(())
        }
    }
}

// The next sample of two parts side by side, likewise.
#[cycle(step)]
#[inline(never)]
fn step_parallel<R: Holds>(
    context: &SampleContext<R>,
    left: &mut State,
    right: &mut State,
    inside: u64,
    value: &mut Value,
    meter: &mut Meter,
) -> Result<(), Stop>
    ensures { LiveSteps (context_machine R.answers context.now) (Live.Join Join.InParallel left.old right.old) (step (dt_in context.now) value.old)
        (left_or result (Live.Join Join.InParallel left.new right.new, value.new) (meter_fault meter.new)) meter.old meter.new inside }
{
    let input = mem::replace(value, Value::int(0));
    let mut node = granted!(meter, input.into_pair(context.alloc));
    let halves = granted!(meter, Rc::make_mut(&mut node));
    step_state(context, left, inside, &mut halves.first, meter)?;
    step_state(context, right, inside, &mut halves.second, meter)?;
    *value = Value::of_pair(node);
    Ok(())
}

// The next sample of two parts that share their input, likewise.
#[cycle(step)]
#[inline(never)]
fn step_fan<R: Holds>(
    context: &SampleContext<R>,
    left: &mut State,
    right: &mut State,
    inside: u64,
    value: &mut Value,
    meter: &mut Meter,
) -> Result<(), Stop>
    ensures { LiveSteps (context_machine R.answers context.now) (Live.Join Join.FannedOut left.old right.old) (step (dt_in context.now) value.old)
        (left_or result (Live.Join Join.FannedOut left.new right.new, value.new) (meter_fault meter.new)) meter.old meter.new inside }
{
    let first = step_halves(context, left, right, inside, value, meter)?;
    let second = mem::replace(value, Value::int(0));
    let both = granted!(meter, Value::pair(context.alloc, first, second));
    *value = both;
    Ok(())
}

// The same without a pair: the value of the left part. That of the right one takes the place of the input.
#[cycle(step)]
#[inline(always)]
fn step_halves<R: Holds>(
    context: &SampleContext<R>,
    left: &mut State,
    right: &mut State,
    inside: u64,
    value: &mut Value,
    meter: &mut Meter,
) -> Result<Value, Stop>
    ensures { LiveSteps (context_machine R.answers context.now) (Live.Join Join.FannedOut left.old right.old) (step (dt_in context.now) value.old)
        (left_apart result (Live.Join Join.FannedOut left.new right.new) value.new (meter_fault meter.new)) meter.old meter.new inside }
{
    let mut first = granted!(meter, value.clone_in(context.alloc));
    step_state(context, left, inside, &mut first, meter)?;
    step_state(context, right, inside, value, meter)?;
    Ok(first)
}

// The next sample of stages, each on the value of the one before it, likewise.
#[cycle(step)]
#[inline(never)]
fn step_pipeline<R: Holds>(
    context: &SampleContext<R>,
    stages: &mut Vec<State>,
    inside: u64,
    value: &mut Value,
    meter: &mut Meter,
) -> Result<(), Stop>
    ensures { LiveSteps (context_machine R.answers context.now) (Live.Pipeline stages.old) (step (dt_in context.now) value.old)
        (left_or result (Live.Pipeline stages.new, value.new) (meter_fault meter.new)) meter.old meter.new inside }
{
    for stage in stages.iter_mut() {
        step_stage(context, stage, inside, value, meter)?;
    }
    Ok(())
}

// The next sample of a part, where the steps of primitives stand in the loop and are no calls.
#[cycle(step)]
#[inline(always)]
fn step_stage<R: Holds>(
    context: &SampleContext<R>,
    stage: &mut State,
    depth: u64,
    value: &mut Value,
    meter: &mut Meter,
) -> Result<(), Stop>
    ensures { StateSteps (context_machine R.answers context.now) stage.old (step (dt_in context.now) value.old)
        (left_or result (stage.new, value.new) (meter_fault meter.new)) meter.old meter.new depth }
{
    match stage {
        State::Primitive(prim) => {
            meter.tick(depth)?;
            step_prim_inline(context, prim, value, meter)
        }
        _ => step_state(context, stage, depth, value, meter),
    }
}

// The next sample of a part on the first halves of pairs, likewise.
#[cycle(step)]
#[inline(never)]
fn step_first<R: Holds>(
    context: &SampleContext<R>,
    part: &mut State,
    inside: u64,
    value: &mut Value,
    meter: &mut Meter,
) -> Result<(), Stop>
    ensures { LiveSteps (context_machine R.answers context.now) (Live.Wrap Wrap.First part.old) (step (dt_in context.now) value.old)
        (left_or result (Live.Wrap Wrap.First part.new, value.new) (meter_fault meter.new)) meter.old meter.new inside }
{
    let input = mem::replace(value, Value::int(0));
    let mut node = granted!(meter, input.into_pair(context.alloc));
    let halves = granted!(meter, Rc::make_mut(&mut node));
    step_state(context, part, inside, &mut halves.first, meter)?;
    *value = Value::of_pair(node);
    Ok(())
}

// The next sample of a part on the second halves, likewise.
#[cycle(step)]
#[inline(never)]
fn step_second<R: Holds>(
    context: &SampleContext<R>,
    part: &mut State,
    inside: u64,
    value: &mut Value,
    meter: &mut Meter,
) -> Result<(), Stop>
    ensures { LiveSteps (context_machine R.answers context.now) (Live.Wrap Wrap.Second part.old) (step (dt_in context.now) value.old)
        (left_or result (Live.Wrap Wrap.Second part.new, value.new) (meter_fault meter.new)) meter.old meter.new inside }
{
    let input = mem::replace(value, Value::int(0));
    let mut node = granted!(meter, input.into_pair(context.alloc));
    let halves = granted!(meter, Rc::make_mut(&mut node));
    step_state(context, part, inside, &mut halves.second, meter)?;
    *value = Value::of_pair(node);
    Ok(())
}

// The next sample of a part that is fed back the second half of its value, likewise.
#[cycle(step)]
#[inline(never)]
fn step_loop<R: Holds>(
    context: &SampleContext<R>,
    feedback: &mut Feedback,
    part: &mut State,
    inside: u64,
    value: &mut Value,
    meter: &mut Meter,
) -> Result<(), Stop>
    ensures { LiveSteps (context_machine R.answers context.now) (Live.Wrap (Wrap.Loop feedback.old) part.old) (step (dt_in context.now) value.old)
        (left_or result (Live.Wrap (Wrap.Loop feedback.new) part.new, value.new) (meter_fault meter.new)) meter.old meter.new inside }
{
    let mut both = granted!(meter, feedback.beside(context.alloc, value));
    step_state(context, part, inside, &mut both, meter)?;
    granted!(meter, feedback.keep(context.alloc, both, value));
    Ok(())
}

// The next sample of a part with a value at its head, likewise.
#[cycle(step)]
#[inline(never)]
fn step_initialized<R: Holds>(
    context: &SampleContext<R>,
    first: &mut Option<Value>,
    part: &mut State,
    inside: u64,
    value: &mut Value,
    meter: &mut Meter,
) -> Result<(), Stop>
    ensures { LiveSteps (context_machine R.answers context.now) (Live.Wrap (Wrap.Initialized first.old) part.old) (step (dt_in context.now) value.old)
        (left_or result (Live.Wrap (Wrap.Initialized first.new) part.new, value.new) (meter_fault meter.new)) meter.old meter.new inside }
{
    step_state(context, part, inside, value, meter)?;
    put_first(first, value);
    Ok(())
}

// The next sample of a part whose first input is replaced by a value, likewise.
#[cycle(step)]
#[inline(never)]
fn step_replaced<R: Holds>(
    context: &SampleContext<R>,
    initial: &mut Option<Value>,
    part: &mut State,
    inside: u64,
    value: &mut Value,
    meter: &mut Meter,
) -> Result<(), Stop>
    ensures { LiveSteps (context_machine R.answers context.now) (Live.Wrap (Wrap.Replaced initial.old) part.old) (step (dt_in context.now) value.old)
        (left_or result (Live.Wrap (Wrap.Replaced initial.new) part.new, value.new) (meter_fault meter.new)) meter.old meter.new inside }
{
    put_first(initial, value);
    step_state(context, part, inside, value, meter)
}

// The next sample of a part whose values show a sample late, and at first a constant, which comes after the part; likewise.
#[cycle(step)]
#[inline(never)]
fn step_followed<R: Holds>(
    context: &SampleContext<R>,
    last: &mut Result<Value, ValueFault>,
    part: &mut State,
    inside: u64,
    value: &mut Value,
    meter: &mut Meter,
) -> Result<(), Stop>
    ensures { LiveSteps (context_machine R.answers context.now) (Live.Wrap (Wrap.Followed last.old) part.old) (step (dt_in context.now) value.old)
        (left_or result (Live.Wrap (Wrap.Followed last.new) part.new, value.new) (meter_fault meter.new)) meter.old meter.new inside }
{
    step_state(context, part, inside, value, meter)?;
    match put_last(last, value) {
        Ok(()) => Ok(()),
        Err(fault) => Err(meter.stop(Fault::Value(fault))),
    }
}
