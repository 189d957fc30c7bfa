//! How a part begins: what its term is before its first sample.
ghost use Rattle.std.specs.Prelude.{◌≡◌, ◌≢◌, [], ◌∷◌, length, IfOk, IfSome, IfNone, OnOk, Ok, IsTrue};
ghost use Rattle.std.specs.Prelude;
ghost use Rattle.sf_value.specs.Values.{Data};
ghost use Rattle.sf_func.specs.Registries.{AnswersByName};
ghost use Rattle.sf_expr.specs.declared.exprs.ExprId.{ExprId};
ghost use Rattle.sf_expr.specs.declared.exprs.FunctionId.{FunctionId};
ghost use Rattle.sf_expr.specs.Arena.{stored_pattern, name_at, function_at};
ghost use Rattle.sf_expr.specs.Patterns.{pattern_of};
ghost use Rattle.sf_term.specs.Trees.{Term};
ghost use Rattle.sf_term.specs.Trees;
ghost use Rattle.sf_law.specs.Arena.{plan_tree, plan_collection, plan_expressions, plan_expression_at, BuildsPlan};
ghost use Rattle.sf_code.specs.Worth.{IsCodeOfFunction};
ghost use Rattle.sf_law.specs.Entries.{IsCodedExpression, IsCodedCollection};
ghost use Rattle.sf_law.specs.declared.node.PlanId as plan_ids;
ghost use Rattle.sf_law.specs.declared.node.PlanNode.TheVariants as NodeOf;
ghost use Rattle.sf_mean.specs.Lives.{Environment, closure};
ghost use Rattle.sf_state.specs.Standing.{AreJoined, IsNames};
ghost use Rattle.sf_state.specs.Machine.{Machine, machine, machine_network};
ghost use Rattle.sf_begin.specs.Beginning.{OpensItself, Prepared, Opens, WrapsAtFirst, BeginsAs, AllBegin, is_awake};
ghost use Rattle.sf_begin.specs.Contexts.{context_machine, plan_in};

use crate::collecting::collect;
use crate::context::{SampleContext, constant_in, fault_of, made_in};
use crate::wrapping::{on_side, with_head};
use sf_code::OpenCode;
use sf_func::Holds;
use sf_law::{PlanCollection, PlanEditing, PlanId, PlanNode, PlanReleasing};
use sf_state::{Editing, Env, Gathering, Live, Process, Releasing, State, Wrap};
use sf_term::{Heading, Join};
use sf_value::{Fault, Value};
use std::alloc::{AllocError, Global};
use std::rc::Rc;

/// Puts the term of a node before its first sample, on this input, with the names around it, in place of a state. The error is
/// the first fault of its constants, or want of memory.
#[cold]
#[inline(never)]
pub fn begin<R: Holds>(
    context: &SampleContext<R>,
    state: &mut State,
    node: &PlanNode,
    names: Env,
    input: &Value,
) -> Result<(), Fault>
    requires { OpensItself node.now }
    ensures begins { (t : Term) (e : Environment) → BuildsPlan (plan_in context.now) node.now t → IsNames (context_machine R.answers context.now) names e →
        BeginsAs (context_machine R.answers context.now) t e input.now state.new result }
    ensures awake { OnOk result (IsTrue (is_awake state.new)) }
{
    match open(context, node, &names, input) {
        Ok(opened) => {
            state.put(prepared(opened, names));
            Ok(())
        }
        Err(fault) => Err(fault),
    }
}

// A part that is opened, as a state that is prepared for its first sample, with the names around it.
fn prepared(opened: Opened, names: Env) -> State
    ensures begins { (μ : Machine) (t : Term) (e : Environment) (x : Data) → IsNames μ names e → Opens μ t e x (Ok opened) → Prepared μ result (closure t e) x [] }
    ensures awake { IsTrue (is_awake result) }
{
    match opened {
        Opened::Live(node) => State::Live(names, node),
        Opened::Gathering(members) => State::Gathering(names, members),
    }
}

/// A part before its first sample.
#[derive(Drop)]
pub(crate) enum Opened {
    /// One that goes on as it is.
    Live(Rc<Live>),
    /// Members that wait for an event.
    Gathering(Rc<Gathering>),
}

// The term of a node before its first sample, on this input, with the names around it. Each group of forms opens in a function
// of its own, which makes room for its own values alone.
fn open<R: Holds>(
    context: &SampleContext<R>,
    node: &PlanNode,
    names: &Env,
    input: &Value,
) -> Result<Opened, Fault>
    requires { OpensItself node.now }
    ensures { (t : Term) → BuildsPlan (plan_in context.now) node.now t → (e : Environment) → IsNames (context_machine R.answers context.now) names.now e →
        Opens (context_machine R.answers context.now) t e input.now result }
{
    match node {
        PlanNode::Joined(Join::InParallel, left, right) => {
            in_parallel(context.alloc, *left, *right, names)
        }
        PlanNode::Sided(side, part) => wrapped(context.alloc, on_side(*side), *part, names),
        PlanNode::Headed(heading, _, code, part) => {
            headed(context, *heading, code, *part, names)
        }
        PlanNode::Transformed(_, code, part) => transformed(context, code, *part, names, input),
        PlanNode::Pipeline(stages) => pipeline(context.alloc, stages, names),
        PlanNode::Gathered(members) => gathered(context, members, names),
        PlanNode::Releasing(releasing) => members_under(context, releasing, names),
        PlanNode::Editing(editing) => members_edited(context, editing, names),
        PlanNode::Probe(name) => probe(context.alloc, name),
        // these have a first sample of their own
        PlanNode::Primitive(_)
        | PlanNode::Joined(..)
        | PlanNode::Call(..)
        | PlanNode::Started(..)
        | PlanNode::Switching(_)
        | PlanNode::Continuation(_) => unreachable!(),
    }
}

// A probe, which is the same before its first sample.
#[inline(never)]
fn probe(alloc: Global, name: &Rc<String>) -> Result<Opened, Fault>
    ensures { (μ : Machine) (t : Term) → BuildsPlan μ.plan (NodeOf.Probe name.now) t → (x : Data) (e : Environment) → Opens μ t e x result }
{
    let same = name.clone()?;
    let node = Rc::new(alloc, Live::Probe(same))?;
    Ok(Opened::Live(node))
}

// Stages before their first sample, with the names around them.
#[inline(never)]
fn pipeline(alloc: Global, stages: &[PlanId], names: &Env) -> Result<Opened, Fault>
    ensures { (μ : Machine) (v : Prelude.Vec plan_ids.PlanId Global) (t : Term) → v.items ≡ stages.now → BuildsPlan μ.plan (NodeOf.Pipeline v) t → (x : Data) (e : Environment) → IsNames μ names.now e → Opens μ t e x result }
{
    let begun = begin_all(alloc, stages, names)?;
    let node = Rc::new(alloc, Live::Pipeline(begun))?;
    Ok(Opened::Live(node))
}

/// The stages, where they are two.
pub fn two_of(stages: &[PlanId]) -> Option<(PlanId, PlanId)>
    ensures present { IfSome result (λ s. stages.now ≡ s.0 ∷ s.1 ∷ []) }
    ensures absent { IfNone result (length stages.now ≢ 2) }
{
    match stages {
        [first, second] => Some((*first, *second)),
        _ => None,
    }
}

// Two parts side by side, before their first sample, with the names around them.
#[inline(never)]
fn in_parallel(alloc: Global, left: PlanId, right: PlanId, names: &Env) -> Result<Opened, Fault>
    ensures { (μ : Machine) (t : Term) → AreJoined Join.InParallel (plan_tree μ.plan left) (plan_tree μ.plan right) t → (x : Data) (e : Environment) →
        IsNames μ names.now e → Opens μ t e x result }
{
    let one = names.share()?;
    let two = names.share()?;
    let first = State::Unborn(Process {
        term: left,
        names: one,
    });
    let second = State::Unborn(Process {
        term: right,
        names: two,
    });
    let node = Rc::new(alloc, Live::Join(Join::InParallel, first, second))?;
    Ok(Opened::Live(node))
}

// A part with an expression at its head, before its first sample, with the names around it.
#[inline(never)]
fn headed<R: Holds>(
    context: &SampleContext<R>,
    heading: Heading,
    code: &OpenCode,
    part: PlanId,
    names: &Env,
) -> Result<Opened, Fault>
    ensures { let p = plan_in context.now in (head : ExprId) (x : Data) (e : Environment) → IsCodedExpression (plan_expressions p) head code.now →
        IsNames (context_machine R.answers context.now) names.now e →
        Opens (context_machine R.answers context.now) (Trees.headed heading (plan_expression_at p head) (plan_tree p part)) e x result }
{
    let worth = constant_in(context, code, names);
    match with_head(heading, worth) {
        Ok(wrap) => wrapped(context.alloc, wrap, part, names),
        Err(fault) => Err(fault),
    }
}

// A part whose first input is what a function makes of this one, before its first sample, with the names around it.
#[inline(never)]
fn transformed<R: Holds>(
    context: &SampleContext<R>,
    code: &OpenCode,
    part: PlanId,
    names: &Env,
    input: &Value,
) -> Result<Opened, Fault>
    ensures { let p = plan_in context.now in (function : FunctionId) (e : Environment) → IsCodeOfFunction (plan_expressions p) (function_at (plan_expressions p) function) code.now →
        IsNames (context_machine R.answers context.now) names.now e →
        Opens (context_machine R.answers context.now) (Trees.transformed (function_at (plan_expressions p) function) (plan_tree p part)) e input.now result }
{
    match made_in(context, code, input, names) {
        Ok(first) => wrapped(context.alloc, Wrap::Replaced(Some(first)), part, names),
        Err(fault) => Err(fault_of(fault)),
    }
}

// The members of a collection before their first sample, with the names around it.
#[inline(never)]
fn gathered<R: Holds>(
    context: &SampleContext<R>,
    members: &PlanCollection,
    names: &Env,
) -> Result<Opened, Fault>
    ensures { let p = plan_in context.now in (x : Data) (e : Environment) → IsCodedCollection (plan_expressions p) members.now →
        IsNames (context_machine R.answers context.now) names.now e → Opens (context_machine R.answers context.now) (Trees.gathered (plan_collection p members.now)) e x result }
{
    let all = collect(context, members, names)?;
    let node = Rc::new(context.alloc, Live::Gathered(all))?;
    Ok(Opened::Live(node))
}

// Members under an observer, before their first sample, with the names around them.
#[inline(never)]
fn members_under<R: Holds>(
    context: &SampleContext<R>,
    form: &PlanReleasing,
    names: &Env,
) -> Result<Opened, Fault>
    ensures { (t : Term) → BuildsPlan (plan_in context.now) (NodeOf.Releasing form.now) t → (x : Data) (e : Environment) →
        IsNames (context_machine R.answers context.now) names.now e → Opens (context_machine R.answers context.now) t e x result }
{
    let members = collect(context, &form.members, names)?;
    let before = members.share()?;
    let around = names.share()?;
    let releasing = Releasing {
        shown: form.shown,
        members,
        before,
        observer: State::Unborn(Process {
            term: form.observer,
            names: around,
        }),
        name: form.name,
        pattern: form.pattern,
        body: form.body,
    };
    let node = Rc::new(context.alloc, Gathering::Releasing(releasing))?;
    Ok(Opened::Gathering(node))
}

// Members that are edited, likewise.
#[inline(never)]
fn members_edited<R: Holds>(
    context: &SampleContext<R>,
    form: &PlanEditing,
    names: &Env,
) -> Result<Opened, Fault>
    ensures { (t : Term) → BuildsPlan (plan_in context.now) (NodeOf.Editing form.now) t → (x : Data) (e : Environment) →
        IsNames (context_machine R.answers context.now) names.now e → Opens (context_machine R.answers context.now) t e x result }
{
    let members = collect(context, &form.members, names)?;
    let edit = form.edit.clone()?;
    let editing = Editing {
        shown: form.shown,
        members,
        name: form.name,
        pattern: form.pattern,
        edit,
    };
    let node = Rc::new(context.alloc, Gathering::Editing(editing))?;
    Ok(Opened::Gathering(node))
}

// Stages before their first sample, with the names around them.
fn begin_all(alloc: Global, stages: &[PlanId], names: &Env) -> Result<Vec<State>, AllocError>
    ensures { IfOk result (λ begun. (μ : Machine) (e : Environment) → IsNames μ names.now e → AllBegin μ e stages.now begun.items) }
{
    let mut begun = Vec::with_capacity(alloc, stages.len())?;
    for stage in stages {
        let around = names.share()?;
        begun.push(State::Unborn(Process {
            term: *stage,
            names: around,
        }))?;
    }
    Ok(begun)
}

// A form with one part, before its first sample.
#[inline(never)]
fn wrapped(alloc: Global, wrap: Wrap, part: PlanId, names: &Env) -> Result<Opened, Fault>
    ensures { (μ : Machine) (t : Term) (x : Data) (e : Environment) → IsNames μ names.now e →
        WrapsAtFirst (machine_network μ) t e x (plan_tree μ.plan part) (Ok wrap) → Opens μ t e x result }
{
    let inner = names.share()?;
    let part = State::Unborn(Process {
        term: part,
        names: inner,
    });
    let node = Rc::new(alloc, Live::Wrap(wrap, part))?;
    Ok(Opened::Live(node))
}
