//! The members that a collection makes.
ghost use Rattle.std.specs.Prelude.{◌≡◌, IfOk};
ghost use Rattle.std.specs.Option.{option_to_list};
ghost use Rattle.sf_value.specs.View.{key_of};
ghost use Rattle.sf_func.specs.Registries.{AnswersByName};
ghost use Rattle.sf_expr.specs.Arena.{name_at};
ghost use Rattle.sf_expr.specs.Expressions.{Expression, Function};
ghost use Rattle.sf_expr.specs.Evaluation.{Scope, scope_functions, eval};
ghost use Rattle.sf_expr.specs.Evaluation;
ghost use Rattle.sf_operator.specs.FunctionForms;
ghost use Rattle.sf_code.specs.Worth.{IsCodeOf, IsCodeOfFunction, AnswersAsFunction};
ghost use Rattle.sf_mean.specs.Lives.{Environment, Members, members_of, scope_around};
ghost use Rattle.sf_mean.specs.Formulas;
ghost use Rattle.sf_mean.specs.Collections.{keep};
ghost use Rattle.sf_mean.specs.Collections;
ghost use Rattle.sf_law.specs.Arena.{plan_collection, plan_expressions, plan_tree};
ghost use Rattle.sf_law.specs.Entries.{IsCodedCollection};
ghost use Rattle.sf_state.specs.Standing.{IsNames};
ghost use Rattle.sf_state.specs.Machine.{machine};
ghost use Rattle.sf_begin.specs.Beginning.{Makes};
ghost use Rattle.sf_begin.specs.Collecting.{HasMembers, MakesMembers, added_under, dropped_under};
ghost use Rattle.sf_begin.specs.Contexts.{context_machine, plan_in};

use crate::context::{SampleContext, constant_in, fault_of};
use crate::placing::{with_member, without_member};
use sf_code::{Code, OpenCode, apply};
use sf_expr::NameId;
use sf_func::Holds;
use sf_law::{Plan, PlanCollection, PlanId};
use sf_operator::{is_true, value_of_key};
use sf_state::{Env, Gathered, NamesIn, Process, State, own_states};
use sf_value::{Fault, Form, Key, Keys, Value};
use std::alloc::{AllocError, Global};
use std::rc::Rc;

/// The members of a collection before their first sample, with these names around it. The error is the first fault of its
/// keys, its conditions and its functions, from left to right, or want of memory.
#[cold]
#[inline(never)]
pub fn collect<R: Holds>(
    context: &SampleContext<R>,
    collection: &PlanCollection,
    names: &Env,
) -> Result<Gathered, Fault>
    ensures { (e : Environment) → IsNames (context_machine R.answers context.now) names.now e → IsCodedCollection (plan_expressions (plan_in context.now)) collection.now →
        MakesMembers (context_machine R.answers context.now)
        (Collections.collect (R.answers context.now.functions.now) (plan_collection (plan_in context.now) collection.now) e) result }
{
    match collection {
        PlanCollection::Empty(_, _) => Ok(Gathered::none(context.alloc)?),
        PlanCollection::Used(name) => Ok(of_name(context.alloc, context.plan, *name, names)?),
        PlanCollection::Added(others, _, code, term) => {
            let members = collect(context, others, names)?;
            with_added(context, members, code, *term, names)
        }
        PlanCollection::Dropped(all, _, code) => {
            let members = collect(context, all, names)?;
            without_dropped(context, members, code, names)
        }
        PlanCollection::Kept(all, _, code) => {
            let members = collect(context, all, names)?;
            keep_members(context, members, code, names)
        }
        PlanCollection::Chosen(_, code, first, second) => {
            let met = is_met(context, code, names)?;
            if met {
                collect(context, first, names)
            } else {
                collect(context, second, names)
            }
        }
    }
}

// The members of a name, shared; none where the name stands for no collection.
fn of_name(alloc: Global, plan: &Plan, name: NameId, names: &Env) -> Result<Gathered, AllocError>
    ensures { IfOk result (λ members. (φ : AnswersByName) (e : Environment) → IsNames (machine φ plan.now) names.now e →
        HasMembers (machine φ plan.now) members (members_of (name_at (plan_expressions plan.now) name) e)) }
{
    match names.members(plan, name) {
        Some(members) => members.share(),
        None => Gathered::none(alloc),
    }
}

// Members with a term added under a key, of which it has the names that it mentions.
fn with_added<R: Holds>(
    context: &SampleContext<R>,
    members: Gathered,
    code: &OpenCode,
    term: PlanId,
    names: &Env,
) -> Result<Gathered, Fault>
    ensures { let φ = R.answers context.now.functions.now in (j : Expression) (e : Environment) (ms : Members) → IsCodeOf (plan_expressions (plan_in context.now)) j code.now → IsNames (machine φ (plan_in context.now)) names.now e → HasMembers (machine φ (plan_in context.now)) members ms →
        MakesMembers (machine φ (plan_in context.now)) (added_under φ j (plan_tree (plan_in context.now) term) e ms) result }
{
    match constant_in(context, code, names) {
        Ok(value) => {
            let process = Process::within(context.alloc, context.plan, term, names)?;
            let state = State::Unborn(process);
            let all = with_member(context.alloc, members, as_key(value), state)?;
            Ok(all)
        }
        Err(fault) => Err(fault_of(fault)),
    }
}

// Members without the one under a key.
fn without_dropped<R: Holds>(
    context: &SampleContext<R>,
    members: Gathered,
    code: &OpenCode,
    names: &Env,
) -> Result<Gathered, Fault>
    ensures { let φ = R.answers context.now.functions.now in (j : Expression) (e : Environment) (ms : Members) → IsCodeOf (plan_expressions (plan_in context.now)) j code.now → IsNames (machine φ (plan_in context.now)) names.now e → HasMembers (machine φ (plan_in context.now)) members ms →
        MakesMembers (machine φ (plan_in context.now)) (dropped_under φ j e ms) result }
{
    match constant_in(context, code, names) {
        Ok(value) => {
            let left = without_member(context.alloc, members, &as_key(value))?;
            Ok(left)
        }
        Err(fault) => Err(fault_of(fault)),
    }
}

// The members whose keys a function keeps, which it is asked in order.
fn keep_members<R: Holds>(
    context: &SampleContext<R>,
    members: Gathered,
    code: &OpenCode,
    names: &Env,
) -> Result<Gathered, Fault>
    ensures { let φ = R.answers context.now.functions.now in (f : Function) (e : Environment) (ms : Members) → IsCodeOfFunction (plan_expressions (plan_in context.now)) f code.now → IsNames (machine φ (plan_in context.now)) names.now e →
        HasMembers (machine φ (plan_in context.now)) members ms →
        MakesMembers (machine φ (plan_in context.now)) (keep (λ x. Evaluation.apply f x (scope_around φ e)) ms) result }
{
    let alloc = context.alloc;
    let plan = context.plan;
    let around = code.frame(alloc, &NamesIn { plan, names })?;
    let frame = &around;
    let Gathered { keys, states, wait } = members;
    let own = own_states(alloc, states)?;
    let mut under = Keys::new(alloc);
    let mut kept = Vec::new(alloc);
    for (key, state) in keys.all().iter().zip(own) {
        let stays = is_kept(context, key, &code.code, frame)?;
        if stays {
            let same = key.clone_in(alloc)?;
            under.push(same)?;
            kept.push(state)?;
        }
    }
    let keys = Rc::new(alloc, under)?;
    let states = Rc::new(alloc, kept)?;
    Ok(Gathered { keys, states, wait })
}

/// Whether a function keeps a key, over the value of the names around it.
pub(crate) fn is_kept<R: Holds>(
    context: &SampleContext<R>,
    key: &Key,
    code: &Code,
    around: &Option<Value>,
) -> Result<bool, Fault>
    ensures { (f : Function) (s : Scope) → scope_functions s ≡ R.answers context.now.functions.now → AnswersAsFunction s f (option_to_list around.now) code.now →
        Makes (λ b v. b ≡ Formulas.is_high v) (Evaluation.apply f (FunctionForms.value_of_key (key_of key.now)) s) result }
{
    let value = value_of_key(key)?;
    match apply(context.alloc, code, around, &value, context.functions) {
        Ok(answer) => Ok(is_high(&answer)),
        Err(fault) => Err(fault_of(fault)),
    }
}

/// Whether a condition is met.
pub(crate) fn is_met<R: Holds>(
    context: &SampleContext<R>,
    code: &OpenCode,
    names: &Env,
) -> Result<bool, Fault>
    ensures { let φ = R.answers context.now.functions.now in (j : Expression) (e : Environment) → IsCodeOf (plan_expressions (plan_in context.now)) j code.now → IsNames (machine φ (plan_in context.now)) names.now e →
        Makes (λ b v. b ≡ Formulas.is_high v) (eval j (scope_around φ e)) result }
{
    match constant_in(context, code, names) {
        Ok(value) => Ok(is_high(&value)),
        Err(fault) => Err(fault_of(fault)),
    }
}

// Whether a value is true.
fn is_high(value: &Value) -> bool
    ensures { result ≡ Formulas.is_high value.now }
{
    is_true(value).unwrap_or(false)
}

/// The key that a value is; what is none is the key 0.
pub(crate) fn as_key(value: Value) -> Key
    ensures { key_of result ≡ Collections.as_key value }
{
    match value.into_form() {
        Form::Int(number) => Key::Int(number),
        Form::Text(text) => Key::Text(text),
        _ => Key::Int(0),
    }
}
