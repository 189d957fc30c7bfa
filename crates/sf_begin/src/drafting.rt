//! The members that an edit makes of those that run: what changes in their list.
ghost use Rattle.std.specs.Prelude.{◌≡◌, [], ◌∷◌, ◌++◌, ℕ, List, Option, false, IsTrue, IfOk, IfSome, OnOk};
ghost use Rattle.std.specs.List.{remove};
ghost use Rattle.sf_value.specs.Values.{Data};
ghost use Rattle.sf_value.specs.View.{key_of};
ghost use Rattle.sf_expr.specs.Arena.{stored_pattern, name_at};
ghost use Rattle.sf_expr.specs.Evaluation.{apply};
ghost use Rattle.sf_expr.specs.Expressions.{Expression, Function};
ghost use Rattle.sf_expr.specs.Patterns.{pattern_of};
ghost use Rattle.sf_code.specs.Worth.{IsCodeOf, IsCodeOfFunction};
ghost use Rattle.sf_mean.specs.Lives.{Environment, Members, bind, members_of, scope_around};
ghost use Rattle.sf_mean.specs.Lives;
ghost use Rattle.sf_mean.specs.Collections.{add, keep, drop, collect};
ghost use Rattle.sf_law.specs.declared.plan.Plan as plans;
ghost use Rattle.sf_law.specs.Arena.{plan_collection, plan_expressions, plan_tree};
ghost use Rattle.sf_law.specs.Entries.{IsCodedCollection};
ghost use Rattle.sf_state.specs.declared.state.State as state_forms;
ghost use Rattle.sf_state.specs.Standing.{IsNames, Stands, Gathers};
ghost use Rattle.sf_state.specs.Machine.{Machine, machine};
ghost use Rattle.sf_begin.specs.Contexts.{plan_in, dt_in};
ghost use Rattle.sf_begin.specs.Collecting.{added_under, dropped_under};
ghost use Rattle.sf_begin.specs.Drafting.{laid_over, drafted, frozen_over, around_edit, Lays};

use crate::collecting::{as_key, is_kept, is_met};
use crate::context::{SampleContext, constant_in, fault_of};
use sf_code::OpenCode;
use sf_expr::{NameId, PatternId};
use sf_func::Holds;
use sf_law::{Plan, PlanCollection, PlanId};
use sf_state::{Editing, Env, Gathered, NamesIn, Process, State};
use sf_value::{Fault, Key, Keys};
use std::alloc::{AllocError, Global};

// so many changes of a list are made one by one
const MOST_CHANGES: usize = 64;

/// A change in the list of members.
#[derive(Drop)]
pub enum Change {
    /// One that begins takes the place of the one here.
    Put(usize, State),
    /// One that begins stands behind the others.
    Add(State),
    /// The one here goes.
    Take(usize),
}

/// The members of an edit.
#[derive(Drop)]
pub struct Draft {
    /// Their keys.
    pub keys: Keys,
    /// What makes their list of that of the members that run, in order.
    pub changes: Vec<Change>,
}

/// The members that an edit makes of those that run, with these names around it. It answers none where the edit takes other members,
/// or leaves out many by their keys, and an error where it has a fault, or for want of memory. Of these nothing is promised: but for
/// want of memory, its caller has the members made anew then.
#[cold]
#[inline(never)]
pub fn draft_of<R: Holds>(
    context: &SampleContext<R>,
    editing: &Editing,
    collection: &PlanCollection,
    names: &Env,
) -> Result<Option<Draft>, Fault>
    ensures { let φ = R.answers context.now.functions.now in let p = plan_in context.now in
        IfOk result (λ o. IfSome o (λ draft. (fs : Members) (v : Data) (e : Environment) → IsNames (machine φ p) names.now (around_edit p editing.now v fs e) → IsCodedCollection (plan_expressions p) collection.now →
        Gathers (machine φ p) (frozen_over editing.now.members (dt_in context.now)) fs [] →
        Lays (machine φ p) (collect φ (plan_collection p collection.now) (around_edit p editing.now v fs e)) (drafted editing.now.members (dt_in context.now) draft))) }
{
    match collection {
        PlanCollection::Used(name) => {
            if is_own(context.plan, editing.name, editing.pattern, *name) {
                return Ok(Some(unchanged(context.alloc, &editing.members)?));
            }
            Ok(None)
        }
        PlanCollection::Added(others, _, code, term) => {
            match draft_of(context, editing, others, names)? {
                Some(made) => Ok(Some(with_added(context, made, code, *term, names)?)),
                None => Ok(None),
            }
        }
        PlanCollection::Dropped(all, _, code) => match draft_of(context, editing, all, names)? {
            Some(made) => Ok(Some(without_dropped(context, made, code, names)?)),
            None => Ok(None),
        },
        PlanCollection::Chosen(_, code, first, second) => {
            let met = is_met(context, code, names)?;
            if met {
                draft_of(context, editing, first, names)
            } else {
                draft_of(context, editing, second, names)
            }
        }
        PlanCollection::Kept(all, _, code) => match draft_of(context, editing, all, names)? {
            Some(made) => without_unkept(context, made, code, names),
            None => Ok(None),
        },
        PlanCollection::Empty(_, _) => Ok(None),
    }
}

// Whether a name is that of the members that are edited, inside the pattern of the edit.
fn is_own(plan: &Plan, own: NameId, pattern: PatternId, name: NameId) -> bool
    ensures { let x = plan_expressions plan.now in
        IsTrue result → (v : Data) (ms : Members) (e : Environment) → members_of (name_at x name) (bind (pattern_of (stored_pattern x pattern)) v (Lives.collected (name_at x own) ms e)) ≡ ms }
{
    !plan.binds(pattern, name) && plan.same_name(name, own)
}

// All members that run.
fn unchanged(alloc: Global, members: &Gathered) -> Result<Draft, AllocError>
    ensures keys { IfOk result (λ all. all.keys ≡ members.now.keys.value) }
    ensures changes { IfOk result (λ all. all.changes.items ≡ []) }
{
    let keys = members.keys.clone_in(alloc)?;
    Ok(Draft {
        keys,
        changes: Vec::new(alloc),
    })
}

// Members with a term added under a key, of which it has the names that it mentions.
fn with_added<R: Holds>(
    context: &SampleContext<R>,
    made: Draft,
    code: &OpenCode,
    term: PlanId,
    names: &Env,
) -> Result<Draft, Fault>
    ensures { let φ = R.answers context.now.functions.now in let p = plan_in context.now in
        IfOk result (λ more. (j : Expression) (e : Environment) (bs : List state_forms.State) (w : Option ℕ) (ms : Members) → IsCodeOf (plan_expressions p) j code.now → IsNames (machine φ p) names.now e → Gathers (machine φ p) (laid_over bs w made) ms [] →
        Lays (machine φ p) (added_under φ j (plan_tree p term) e ms) (laid_over bs w more)) }
{
    match constant_in(context, code, names) {
        Ok(value) => {
            let process = Process::within(context.alloc, context.plan, term, names)?;
            let state = State::Unborn(process);
            let more = with_change(context.alloc, made, as_key(value), state)?;
            Ok(more)
        }
        Err(fault) => Err(fault_of(fault)),
    }
}

// Members without the one under a key.
fn without_dropped<R: Holds>(
    context: &SampleContext<R>,
    made: Draft,
    code: &OpenCode,
    names: &Env,
) -> Result<Draft, Fault>
    ensures { let φ = R.answers context.now.functions.now in let p = plan_in context.now in
        IfOk result (λ left. (j : Expression) (e : Environment) (bs : List state_forms.State) (w : Option ℕ) (ms : Members) → IsCodeOf (plan_expressions p) j code.now → IsNames (machine φ p) names.now e → Gathers (machine φ p) (laid_over bs w made) ms [] →
        Lays (machine φ p) (dropped_under φ j e ms) (laid_over bs w left)) }
{
    match constant_in(context, code, names) {
        Ok(value) => {
            let left = without_key(made, &as_key(value))?;
            Ok(left)
        }
        Err(fault) => Err(fault_of(fault)),
    }
}

// Members without those whose keys a function doesn't keep, which it is asked in order. None where they get many changes, since
// each of these moves all that stand behind it.
fn without_unkept<R: Holds>(
    context: &SampleContext<R>,
    made: Draft,
    code: &OpenCode,
    names: &Env,
) -> Result<Option<Draft>, Fault>
    ensures { let φ = R.answers context.now.functions.now in let p = plan_in context.now in
        IfOk result (λ o. IfSome o (λ left. (f : Function) (e : Environment) (bs : List state_forms.State) (w : Option ℕ) (ms : Members) → IsCodeOfFunction (plan_expressions p) f code.now → IsNames (machine φ p) names.now e → Gathers (machine φ p) (laid_over bs w made) ms [] →
        Lays (machine φ p) (keep (λ x. apply f x (scope_around φ e)) ms) (laid_over bs w left))) }
{
    let plan = context.plan;
    let around = code.frame(context.alloc, &NamesIn { plan, names })?;
    let frame = &around;
    let mut left = made;
    let mut at = 0;
    while at < left.keys.len() {
        let key = &left.keys.all()[at];
        let stays = is_kept(context, key, &code.code, frame)?;
        if stays {
            at += 1;
        } else if left.changes.len() < MOST_CHANGES {
            take(&mut left, at)?;
        } else {
            return Ok(None);
        }
    }
    Ok(Some(left))
}

// Takes the member at a place out.
fn take(left: &mut Draft, at: usize) -> Result<(), AllocError>
    ensures keys { OnOk result (left.new.keys ≡ remove left.old.keys at) }
    ensures changes { OnOk result (left.new.changes.items ≡ left.old.changes.items ++ Change.Take at ∷ []) }
{
    left.keys.remove(at);
    left.changes.push(Change::Take(at))?;
    Ok(())
}

// Members with one that begins: at the end, or in the place of the one under its key.
fn with_change(alloc: Global, made: Draft, key: Key, state: State) -> Result<Draft, AllocError>
    ensures { IfOk result (λ more. (μ : Machine) (bs : List state_forms.State) (w : Option ℕ) (ms : Members) (P : Lives.Process) → Gathers μ (laid_over bs w made) ms [] → Stands μ state P [] →
        Gathers μ (laid_over bs w more) (add (key_of key) P ms) []) }
{
    let Draft {
        mut keys,
        mut changes,
    } = made;
    let same = key.clone_in(alloc)?;
    let added = keys.push(same)?;
    if added {
        changes.push(Change::Add(state))?;
        return Ok(Draft { keys, changes });
    }
    match keys.place(&key) {
        Some(at) => {
            changes.push(Change::Put(at, state))?;
            Ok(Draft { keys, changes })
        }
        // (the key is one of them)
        None => unreachable!(),
    }
}

// Members without the one under a key, if there is one.
fn without_key(made: Draft, key: &Key) -> Result<Draft, AllocError>
    ensures { IfOk result (λ left. (μ : Machine) (bs : List state_forms.State) (w : Option ℕ) (ms : Members) → Gathers μ (laid_over bs w made) ms [] →
        Gathers μ (laid_over bs w left) (drop (key_of key.now) ms) []) }
{
    let Draft {
        mut keys,
        mut changes,
    } = made;
    if let Some(at) = keys.place(key) {
        keys.remove(at);
        changes.push(Change::Take(at))?;
        return Ok(Draft { keys, changes });
    }
    Ok(Draft { keys, changes })
}
