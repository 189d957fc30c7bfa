//! The parts that step no others: primitives and probes.
ghost use Rattle.std.specs.Prelude.{◌≡◌, ℕ, Some, None, IfSome};
ghost use Rattle.std.specs.declared.rc.Rc.{Rc};
ghost use Rattle.std.specs.declared.alloc.Global.{Global};
ghost use Rattle.sf_code.specs.declared.open.OpenCode.{OpenCode};
ghost use Rattle.sf_law.specs.declared.node.PlanPrimitive as plan_primitives;
ghost use Rattle.sf_prim.specs.declared.prim_state.PrimState.TheVariants as PrimOf;
ghost use Rattle.sf_mean.specs.Lives.{step};
ghost use Rattle.sf_term.specs.Trees.{Term};
ghost use Rattle.sf_law.specs.Arena.{BuildsPlan, plan_tree, plan_node_at, full_id, arrow_code, node_arrow};
ghost use Rattle.sf_law.specs.declared.node.PlanNode.TheVariants as NodeOf;
ghost use Rattle.sf_meter.specs.Meters.{left_or, entered_of, meter_fault};
ghost use Rattle.sf_step.specs.Answering.{PrimSteps, LiveSteps, FirstSteps, TermSteps, left_valued};
ghost use Rattle.sf_step.specs.Behind.{IsBareArrow, IsBehindArrow};
ghost use Rattle.sf_value.specs.Values.{pair};
ghost use Rattle.sf_state.specs.declared.state.State.TheVariants as StateOf;
ghost use Rattle.sf_state.specs.Standing.{in_sequence, behind_arrow, closed_over, AreJoined};
ghost use Rattle.sf_term.specs.declared.form.Join.TheVariants as Join;
ghost use Rattle.sf_law.specs.declared.node.PlanId as plan_ids;
ghost use Rattle.sf_step.specs.Around.{machine_around, plan_around, dt_around};
ghost use Rattle.sf_step.specs.Sampling.{StateSteps};
ghost use Rattle.sf_begin.specs.Contexts.{context_machine, plan_in, dt_in};

use crate::sample::Around;
use sf_begin::{SampleContext, fault_of, two_of};
use sf_code::OpenCode;
use sf_func::Holds;
use sf_law::{Plan, PlanId, PlanNode, PlanPrimitive, ShortId};
use sf_meter::{Meter, Stop};
use sf_prim::PrimState;
use sf_state::{Env, Live, NamesIn, Primitives, State};
use sf_term::Join;
use sf_value::{Fault, Value};
use std::rc::Rc;

/// An input, and beside it a value: a pair that may not be made.
#[derive(Clone, Copy)]
pub(crate) struct Beside<'a> {
    pub(crate) input: &'a Value,
    pub(crate) given: &'a Value,
}

/// Puts the value at the next sample of a primitive, which has been counted, in place of the input. After an error the
/// primitive keeps nothing that is promised, and the value may be any; the meter has the fault, of its operations or of memory.
/// For the loop over stages, where a call for each costs more than the code of the forms in one more place.
#[inline(always)]
pub(crate) fn step_prim_inline<R: Holds>(
    context: &SampleContext<R>,
    prim: &mut PrimState,
    value: &mut Value,
    meter: &mut Meter,
) -> Result<(), Stop>
    ensures entered { entered_of meter.new ≡ entered_of meter.old }
    ensures answers { PrimSteps (context_machine R.answers context.now) prim.old (step (dt_in context.now) value.old)
        (left_or result (prim.new, value.new) (meter_fault meter.new)) meter.old meter.new }
{
    match prim.step(context.alloc, context.functions, context.dt, value) {
        Ok(()) => Ok(()),
        Err(fault) => Err(meter.stop(fault_of(fault))),
    }
}

/// The same as a call.
#[inline(never)]
pub(crate) fn step_prim<R: Holds>(
    context: &SampleContext<R>,
    prim: &mut PrimState,
    value: &mut Value,
    meter: &mut Meter,
) -> Result<(), Stop>
    ensures entered { entered_of meter.new ≡ entered_of meter.old }
    ensures answers { PrimSteps (context_machine R.answers context.now) prim.old (step (dt_in context.now) value.old)
        (left_or result (prim.new, value.new) (meter_fault meter.new)) meter.old meter.new }
{
    step_prim_inline(context, prim, value, meter)
}

/// Puts the value at the next sample of two primitives in sequence, whose node has been counted and which stand inside `inside`
/// nodes, in place of the input. Where the node is shared, a copy is stepped, and takes its place. After an error they keep nothing
/// that is promised, and the value may be any.
#[inline(never)]
pub(crate) fn step_primitives<R: Holds>(
    context: &SampleContext<R>,
    node: &mut Rc<Primitives>,
    inside: u64,
    value: &mut Value,
    meter: &mut Meter,
) -> Result<(), Stop>
    ensures { LiveSteps (context_machine R.answers context.now) (in_sequence node.old.value) (step (dt_in context.now) value.old)
        (left_or result (in_sequence node.new.value, value.new) (meter_fault meter.new)) meter.old meter.new inside }
{
    match Rc::get_mut(node) {
        Some(both) => step_both(context, both, inside, value, meter),
        None => step_primitives_copy(context, node, inside, value, meter),
    }
}

// The same where other states share the node: a copy takes its place.
#[cold]
#[inline(never)]
fn step_primitives_copy<R: Holds>(
    context: &SampleContext<R>,
    node: &mut Rc<Primitives>,
    inside: u64,
    value: &mut Value,
    meter: &mut Meter,
) -> Result<(), Stop>
    ensures { LiveSteps (context_machine R.answers context.now) (in_sequence node.old.value) (step (dt_in context.now) value.old)
        (left_or result (in_sequence node.new.value, value.new) (meter_fault meter.new)) meter.old meter.new inside }
{
    let mut own = granted!(meter, node.clone_in(context.alloc));
    step_both(context, &mut own, inside, value, meter)?;
    let copy = granted!(meter, Rc::new(context.alloc, own));
    *node = copy;
    Ok(())
}

// The same of what stands in the node.
#[inline(always)]
fn step_both<R: Holds>(
    context: &SampleContext<R>,
    both: &mut Primitives,
    inside: u64,
    value: &mut Value,
    meter: &mut Meter,
) -> Result<(), Stop>
    ensures { LiveSteps (context_machine R.answers context.now) (in_sequence both.old) (step (dt_in context.now) value.old)
        (left_or result (in_sequence both.new, value.new) (meter_fault meter.new)) meter.old meter.new inside }
{
    count_and_step(context, &mut both.first, inside, value, meter)?;
    count_and_step(context, &mut both.second, inside, value, meter)
}

// The next sample of one of them, which is counted here.
#[inline(always)]
fn count_and_step<R: Holds>(
    context: &SampleContext<R>,
    prim: &mut PrimState,
    inside: u64,
    value: &mut Value,
    meter: &mut Meter,
) -> Result<(), Stop>
    ensures { StateSteps (context_machine R.answers context.now) (StateOf.Primitive prim.old) (step (dt_in context.now) value.old)
        (left_or result (StateOf.Primitive prim.new, value.new) (meter_fault meter.new)) meter.old meter.new inside }
{
    meter.tick(inside)?;
    step_prim(context, prim, value, meter)
}

/// The same of a primitive on the values of an `arr` of the plan.
#[inline(never)]
pub(crate) fn step_mapped<R: Holds>(
    context: &SampleContext<R>,
    arrow: ShortId,
    prim: &mut PrimState,
    inside: u64,
    value: &mut Value,
    meter: &mut Meter,
) -> Result<(), Stop>
    ensures { (c : Rc OpenCode Global) → node_arrow (plan_node_at (plan_in context.now) (full_id arrow)) ≡ Some c →
        LiveSteps (context_machine R.answers context.now) (behind_arrow c prim.old) (step (dt_in context.now) value.old)
        (left_or result (behind_arrow c prim.new, value.new) (meter_fault meter.new)) meter.old meter.new inside }
{
    let Some(code) = context.plan.node(arrow.id()).arrow() else {
        // such a state stands for nothing
        return Ok(());
    };
    count_and_map(context, code, inside, value, meter)?;
    count_and_step(context, prim, inside, value, meter)
}

/// The value at the same on the pair of two values.
#[inline(never)]
pub(crate) fn step_mapped_beside<R: Holds>(
    context: &SampleContext<R>,
    arrow: ShortId,
    prim: &mut PrimState,
    inside: u64,
    both: Beside,
    meter: &mut Meter,
) -> Result<Value, Stop>
    ensures { (c : Rc OpenCode Global) → node_arrow (plan_node_at (plan_in context.now) (full_id arrow)) ≡ Some c →
        LiveSteps (context_machine R.answers context.now) (behind_arrow c prim.old) (step (dt_in context.now) (pair both.entry.input.now both.entry.given.now))
        (left_valued result (behind_arrow c prim.new) (meter_fault meter.new)) meter.old meter.new inside }
{
    let Some(code) = context.plan.node(arrow.id()).arrow() else {
        // such a state stands for nothing
        return Ok(Value::int(0));
    };
    let mut value = count_and_map_beside(context, code, inside, both, meter)?;
    count_and_step(context, prim, inside, &mut value, meter)?;
    Ok(value)
}

/// The value at the next sample of `arr` of a function, of which the state is this code, on the pair of two values. It is counted here.
#[inline(always)]
pub(crate) fn count_and_map_beside<R: Holds>(
    context: &SampleContext<R>,
    code: &Rc<OpenCode>,
    inside: u64,
    both: Beside,
    meter: &mut Meter,
) -> Result<Value, Stop>
    ensures { StateSteps (context_machine R.answers context.now) (StateOf.Primitive (PrimOf.Arrow code.now)) (step (dt_in context.now) (pair both.entry.input.now both.entry.given.now))
        (left_valued result (StateOf.Primitive (PrimOf.Arrow code.now)) (meter_fault meter.new)) meter.old meter.new inside }
{
    meter.tick(inside)?;
    step_arrow_beside(context, code, both, meter)
}

// The same once it has been counted.
#[inline(always)]
fn step_arrow_beside<R: Holds>(
    context: &SampleContext<R>,
    code: &Rc<OpenCode>,
    both: Beside,
    meter: &mut Meter,
) -> Result<Value, Stop>
    ensures entered { entered_of meter.new ≡ entered_of meter.old }
    ensures answers { PrimSteps (context_machine R.answers context.now) (PrimOf.Arrow code.now) (step (dt_in context.now) (pair both.entry.input.now both.entry.given.now))
        (left_valued result (PrimOf.Arrow code.now) (meter_fault meter.new)) meter.old meter.new }
{
    let Beside { input, given } = both;
    match PrimState::step_arrow_beside(context.alloc, code, context.functions, input, given) {
        Ok(value) => Ok(value),
        Err(fault) => Err(meter.stop(fault_of(fault))),
    }
}

// The next sample of `arr` of a function, of which the state is this code, which is counted here.
#[inline(always)]
fn count_and_map<R: Holds>(
    context: &SampleContext<R>,
    code: &Rc<OpenCode>,
    inside: u64,
    value: &mut Value,
    meter: &mut Meter,
) -> Result<(), Stop>
    ensures { StateSteps (context_machine R.answers context.now) (StateOf.Primitive (PrimOf.Arrow code.now)) (step (dt_in context.now) value.old)
        (left_or result (StateOf.Primitive (PrimOf.Arrow code.now), value.new) (meter_fault meter.new)) meter.old meter.new inside }
{
    meter.tick(inside)?;
    step_arrow(context, code, value, meter)
}

// The same once it has been counted.
#[inline(always)]
fn step_arrow<R: Holds>(
    context: &SampleContext<R>,
    code: &Rc<OpenCode>,
    value: &mut Value,
    meter: &mut Meter,
) -> Result<(), Stop>
    ensures entered { entered_of meter.new ≡ entered_of meter.old }
    ensures answers { PrimSteps (context_machine R.answers context.now) (PrimOf.Arrow code.now) (step (dt_in context.now) value.old)
        (left_or result (PrimOf.Arrow code.now, value.new) (meter_fault meter.new)) meter.old meter.new }
{
    match PrimState::step_arrow(context.alloc, code, context.functions, value) {
        Ok(()) => Ok(()),
        Err(fault) => Err(meter.stop(fault_of(fault))),
    }
}

/// Puts a primitive after its first sample, with these names around it, in place of a state, and its value in place of the input.
/// It has been counted. After an error the state stands for nothing, and the value may be any.
#[inline(never)]
pub(crate) fn first_primitive<R: Holds>(
    context: &SampleContext<R>,
    state: &mut State,
    primitive: &PlanPrimitive,
    names: &Env,
    value: &mut Value,
    meter: &mut Meter,
) -> Result<(), Stop>
    ensures { (t : Term) → BuildsPlan (plan_in context.now) (NodeOf.Primitive primitive.now) t → FirstSteps (context_machine R.answers context.now) t names.now (step (dt_in context.now) value.old)
        (left_or result (state.new, value.new) (meter_fault meter.new)) meter.old meter.new }
{
    state.put(State::Primitive(PrimState::Identity));
    let State::Primitive(prim) = state else {
        unreachable!();
    };
    begin_and_step(context, prim, primitive, names, value, meter)
}

// The same in place of a primitive.
#[inline(always)]
fn begin_and_step<R: Holds>(
    context: &SampleContext<R>,
    prim: &mut PrimState,
    primitive: &PlanPrimitive,
    names: &Env,
    value: &mut Value,
    meter: &mut Meter,
) -> Result<(), Stop>
    ensures { (t : Term) → BuildsPlan (plan_in context.now) (NodeOf.Primitive primitive.now) t → FirstSteps (context_machine R.answers context.now) t names.now (step (dt_in context.now) value.old)
        (left_or result (StateOf.Primitive prim.new, value.new) (meter_fault meter.new)) meter.old meter.new }
{
    let plan = context.plan;
    let around = NamesIn { plan, names };
    match prim.begin(context.alloc, primitive, context.functions, &around) {
        Ok(()) => step_prim(context, prim, value, meter),
        Err(fault) => Err(meter.stop(fault_of(fault))),
    }
}

/// Puts two primitives in sequence after their first sample in place of a state, and their value in place of the input. Their node
/// has been counted. The first one is the term of an id. After an error the state stands for nothing, and the value may be any.
#[inline(always)]
pub(crate) fn first_two<R: Holds>(
    around: &Around<R>,
    state: &mut State,
    left: PlanId,
    before: &PlanPrimitive,
    after: &PlanPrimitive,
    value: &mut Value,
    meter: &mut Meter,
) -> Result<(), Stop>
    requires { plan_node_at (plan_around around.now) left ≡ NodeOf.Primitive before.now }
    ensures { let p = plan_around around.now in (right : plan_ids.PlanId) (t : Term) → BuildsPlan p (NodeOf.Primitive before.now) (plan_tree p left) → BuildsPlan p (NodeOf.Primitive after.now) (plan_tree p right) →
        AreJoined Join.InSequence (plan_tree p left) (plan_tree p right) t → TermSteps (machine_around R.answers around.now) t around.now.names.now (step (dt_around around.now) value.old)
        (left_or result (state.new, value.new) (meter_fault meter.new)) meter.old meter.new around.now.inside }
{
    if let Some(code) = bare_code(before) {
        if let Some(arrow) = left.short() {
            return first_mapped(around, state, arrow, code, after, value, meter);
        }
    }
    first_primitives(around, state, before, after, value, meter)
}

// The code of `arr` of a function without names around it; none of another primitive.
#[inline(always)]
fn bare_code(primitive: &PlanPrimitive) -> Option<&Rc<OpenCode>>
    ensures { IfSome result (λ code. (arrow_code primitive.now ≡ Some code.now) × (code.now.value.around ≡ None)) }
{
    let code = primitive.arrow()?;
    match &code.around {
        None => Some(code),
        Some(_) => None,
    }
}

// The same where the first one is `arr` of a function without names around it, of this code: in the state itself.
#[inline(never)]
fn first_mapped<R: Holds>(
    around: &Around<R>,
    state: &mut State,
    arrow: ShortId,
    code: &Rc<OpenCode>,
    after: &PlanPrimitive,
    value: &mut Value,
    meter: &mut Meter,
) -> Result<(), Stop>
    requires bare { code.now.value.around ≡ None }
    requires stands { node_arrow (plan_node_at (plan_around around.now) (full_id arrow)) ≡ Some code.now }
    ensures { let p = plan_around around.now in (q : plan_primitives.PlanPrimitive) (right : plan_ids.PlanId) (t : Term) → arrow_code q ≡ Some code.now →
        BuildsPlan p (NodeOf.Primitive q) (plan_tree p (full_id arrow)) → BuildsPlan p (NodeOf.Primitive after.now) (plan_tree p right) →
        AreJoined Join.InSequence (plan_tree p (full_id arrow)) (plan_tree p right) t → TermSteps (machine_around R.answers around.now) t around.now.names.now (step (dt_around around.now) value.old)
        (left_or result (state.new, value.new) (meter_fault meter.new)) meter.old meter.new around.now.inside }
{
    let mut prim = PrimState::Identity;
    first_map(around, code, value, meter)?;
    first_of_both(around, &mut prim, after, value, meter)?;
    state.put(State::Mapped(arrow, prim));
    Ok(())
}

/// A primitive behind `arr` of a function without names around it: the short id and the code of that `arr`, and the primitive.
#[derive(Clone, Copy)]
pub(crate) struct BehindArrow<'a> {
    pub(crate) arrow: ShortId,
    pub(crate) code: &'a Rc<OpenCode>,
    pub(crate) primitive: &'a PlanPrimitive,
}

/// The term of an id as such a primitive, if it is one.
#[inline(never)]
pub(crate) fn primitive_behind(plan: &Plan, term: PlanId) -> Option<BehindArrow>
    ensures { IfSome result (λ behind. IsBehindArrow plan.now (plan_tree plan.now term) behind) }
{
    let (left, right) = sequence_of(plan, term)?;
    let PlanNode::Primitive(before) = plan.node(left) else {
        return None;
    };
    let PlanNode::Primitive(primitive) = plan.node(right) else {
        return None;
    };
    let code = bare_code(before)?;
    let arrow = left.short()?;
    Some(BehindArrow {
        arrow,
        code,
        primitive,
    })
}

// The two parts of a term in sequence, if it has them.
#[inline(always)]
fn sequence_of(plan: &Plan, term: PlanId) -> Option<(PlanId, PlanId)>
    ensures { IfSome result (λ parts. AreJoined Join.InSequence (plan_tree plan.now parts.0) (plan_tree plan.now parts.1) (plan_tree plan.now term)) }
{
    match plan.node(term) {
        PlanNode::Joined(join, left, right) => match join {
            Join::InSequence => Some((*left, *right)),
            _ => None,
        },
        PlanNode::Pipeline(stages) => two_of(stages),
        _ => None,
    }
}

/// The value at the first sample of such a primitive on the pair of two values; what it is from then on takes the
/// place of a state. Its node has been counted. After an error the state stands for nothing.
#[inline(never)]
pub(crate) fn first_behind<R: Holds>(
    around: &Around<R>,
    state: &mut State,
    behind: BehindArrow,
    both: Beside,
    meter: &mut Meter,
) -> Result<Value, Stop>
    requires bare { behind.code.now.value.around ≡ None }
    ensures { (t : Term) → IsBehindArrow (plan_around around.now) t behind.entry →
        TermSteps (machine_around R.answers around.now) t around.now.names.now (step (dt_around around.now) (pair both.entry.input.now both.entry.given.now))
        (left_valued result state.new (meter_fault meter.new)) meter.old meter.new around.now.inside }
{
    let mut prim = PrimState::Identity;
    let mut value = first_map_beside(around, behind.code, both, meter)?;
    first_of_both(around, &mut prim, behind.primitive, &mut value, meter)?;
    state.put(State::Mapped(behind.arrow, prim));
    Ok(value)
}

/// The code of a part, if it is `arr` of a function without names around it.
#[inline(always)]
pub(crate) fn arrow_of(state: &State) -> Option<&Rc<OpenCode>>
    ensures { IfSome result (λ code. state.now ≡ StateOf.Primitive (PrimOf.Arrow code.now)) }
{
    match state {
        State::Primitive(prim) => match prim {
            PrimState::Arrow(code) => Some(code),
            _ => None,
        },
        _ => None,
    }
}

/// The code of the term of an id, if it is `arr` of a function without names around it.
#[inline(always)]
pub(crate) fn bare_arrow(plan: &Plan, term: PlanId) -> Option<&Rc<OpenCode>>
    ensures { IfSome result (λ code. IsBareArrow plan.now (plan_tree plan.now term) code.now) }
{
    let PlanNode::Primitive(primitive) = plan.node(term) else {
        return None;
    };
    let code = bare_code(primitive)?;
    Some(code)
}

/// The value at the first sample of such an `arr` on the pair of two values; what it is from then on takes the place of a state.
/// It is counted here. After an error the state stands for nothing.
#[inline(never)]
pub(crate) fn first_arrow<R: Holds>(
    around: &Around<R>,
    state: &mut State,
    code: &Rc<OpenCode>,
    both: Beside,
    meter: &mut Meter,
) -> Result<Value, Stop>
    requires bare { code.now.value.around ≡ None }
    ensures { let p = plan_around around.now in (term : plan_ids.PlanId) → IsBareArrow p (plan_tree p term) code.now →
        StateSteps (machine_around R.answers around.now) (StateOf.Unborn (closed_over term around.now.names.now)) (step (dt_around around.now) (pair both.entry.input.now both.entry.given.now))
        (left_valued result state.new (meter_fault meter.new)) meter.old meter.new around.now.inside }
{
    let shared = granted!(meter, code.clone());
    let value = first_map_beside(around, code, both, meter)?;
    state.put(State::Primitive(PrimState::Arrow(shared)));
    Ok(value)
}

// The value at the first sample of such an `arr` on the pair of two values, which is counted here.
#[inline(always)]
fn first_map_beside<R: Holds>(
    around: &Around<R>,
    code: &Rc<OpenCode>,
    both: Beside,
    meter: &mut Meter,
) -> Result<Value, Stop>
    requires bare { code.now.value.around ≡ None }
    ensures { let p = plan_around around.now in (q : plan_primitives.PlanPrimitive) (term : plan_ids.PlanId) → arrow_code q ≡ Some code.now → BuildsPlan p (NodeOf.Primitive q) (plan_tree p term) →
        StateSteps (machine_around R.answers around.now) (StateOf.Unborn (closed_over term around.now.names.now)) (step (dt_around around.now) (pair both.entry.input.now both.entry.given.now))
        (left_valued result (StateOf.Primitive (PrimOf.Arrow code.now)) (meter_fault meter.new)) meter.old meter.new around.now.inside }
{
    meter.tick(around.inside)?;
    step_arrow_beside(around.context, code, both, meter)
}

// The first sample of such an `arr`, which is counted here.
#[inline(always)]
fn first_map<R: Holds>(
    around: &Around<R>,
    code: &Rc<OpenCode>,
    value: &mut Value,
    meter: &mut Meter,
) -> Result<(), Stop>
    requires bare { code.now.value.around ≡ None }
    ensures { let p = plan_around around.now in (q : plan_primitives.PlanPrimitive) (term : plan_ids.PlanId) → arrow_code q ≡ Some code.now → BuildsPlan p (NodeOf.Primitive q) (plan_tree p term) →
        StateSteps (machine_around R.answers around.now) (StateOf.Unborn (closed_over term around.now.names.now)) (step (dt_around around.now) value.old)
        (left_or result (StateOf.Primitive (PrimOf.Arrow code.now), value.new) (meter_fault meter.new)) meter.old meter.new around.now.inside }
{
    meter.tick(around.inside)?;
    step_arrow(around.context, code, value, meter)
}

// The same in one node.
#[inline(never)]
fn first_primitives<R: Holds>(
    around: &Around<R>,
    state: &mut State,
    before: &PlanPrimitive,
    after: &PlanPrimitive,
    value: &mut Value,
    meter: &mut Meter,
) -> Result<(), Stop>
    ensures { let p = plan_around around.now in (left right : plan_ids.PlanId) (t : Term) → BuildsPlan p (NodeOf.Primitive before.now) (plan_tree p left) → BuildsPlan p (NodeOf.Primitive after.now) (plan_tree p right) →
        AreJoined Join.InSequence (plan_tree p left) (plan_tree p right) t → TermSteps (machine_around R.answers around.now) t around.now.names.now (step (dt_around around.now) value.old)
        (left_or result (state.new, value.new) (meter_fault meter.new)) meter.old meter.new around.now.inside }
{
    let mut both = Primitives {
        first: PrimState::Identity,
        second: PrimState::Identity,
    };
    first_of_both(around, &mut both.first, before, value, meter)?;
    first_of_both(around, &mut both.second, after, value, meter)?;
    let node = granted!(meter, Rc::new(around.context.alloc, both));
    state.put(State::Primitives(node));
    Ok(())
}

// The first sample of one of them, which is counted here.
#[inline(never)]
fn first_of_both<R: Holds>(
    around: &Around<R>,
    prim: &mut PrimState,
    primitive: &PlanPrimitive,
    value: &mut Value,
    meter: &mut Meter,
) -> Result<(), Stop>
    ensures { let p = plan_around around.now in (term : plan_ids.PlanId) → BuildsPlan p (NodeOf.Primitive primitive.now) (plan_tree p term) →
        StateSteps (machine_around R.answers around.now) (StateOf.Unborn (closed_over term around.now.names.now)) (step (dt_around around.now) value.old)
        (left_or result (StateOf.Primitive prim.new, value.new) (meter_fault meter.new)) meter.old meter.new around.now.inside }
{
    meter.tick(around.inside)?;
    begin_and_step(around.context, prim, primitive, around.names, value, meter)
}

/// The next sample of a probe, which has been counted: its input stays, and is recorded under its name. It stops for want of
/// memory alone.
#[inline(never)]
pub(crate) fn step_probe<R: Holds>(
    context: &SampleContext<R>,
    name: &Rc<String>,
    value: &Value,
    meter: &mut Meter,
) -> Result<(), Stop>
    ensures entered { entered_of meter.new ≡ entered_of meter.old }
    ensures answers { (inside : ℕ) → LiveSteps (context_machine R.answers context.now) (Live.Probe name.now) (step (dt_in context.now) value.now)
        (left_or result (Live.Probe name.now, value.now) (meter_fault meter.new)) meter.old meter.new inside }
{
    let shared = granted!(meter, name.clone());
    let copy = granted!(meter, value.clone_in(context.alloc));
    granted!(meter, meter.record(shared, copy));
    Ok(())
}
