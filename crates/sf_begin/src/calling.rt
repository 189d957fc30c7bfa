//! What stands in the place of a reference: the process of a name, or a template under the arguments of a call.
ghost use Rattle.std.specs.Prelude.{◌≡◌, false, [], ◌∷◌, map, length, All, IsTrue, IfOk};
ghost use Rattle.sf_func.specs.Registries.{AnswersByName};
ghost use Rattle.sf_expr.specs.Arena.{name_at};
ghost use Rattle.sf_law.specs.Arena.{plan_tree, plan_expressions, plan_asks, plan_binding, plan_arguments, header_at};
ghost use Rattle.sf_law.specs.Entries.{BindsName, BindsNames, IsCodedArgument};
ghost use Rattle.sf_law.specs.Asking.{start_asked, argument_asked, arguments_asked};
ghost use Rattle.sf_mean.specs.Lives.{Environment, closure, empty, base, process_of, process_started};
ghost use Rattle.sf_mean.specs.Lives;
ghost use Rattle.sf_mean.specs.Meaning.{argued};
ghost use Rattle.sf_state.specs.Standing.{IsNames, AreGiven, IsHanded, IsProcess, Stands};
ghost use Rattle.sf_state.specs.Machine.{machine};
ghost use Rattle.sf_begin.specs.Beginning.{Makes, GivesOne};
ghost use Rattle.sf_begin.specs.Contexts.{context_machine, plan_in};

use crate::collecting::collect;
use crate::context::{SampleContext, constant_in, fault_of};
use sf_expr::NameId;
use sf_func::Holds;
use sf_law::{Plan, PlanArgument, PlanId, PlanParameter, PlanTemplate, TemplateId};
use sf_state::{Env, Given, Handed, Payload, Process, State};
use sf_term::Start;
use sf_value::Fault;
use std::alloc::{AllocError, Global};
use std::rc::Rc;

/// The process of a name, shared, where it stood or where it began; what passes its inputs on where the name stands for
/// none.
#[inline(always)]
pub fn started(
    alloc: Global,
    plan: &Plan,
    names: &Env,
    start: Start,
    name: NameId,
) -> Result<State, AllocError>
    requires { IsTrue (start_asked false (plan_asks plan.now (name_at (plan_expressions plan.now) name)) start) }
    ensures { IfOk result (λ process. (φ : AnswersByName) (e : Environment) → IsNames (machine φ plan.now) names.now e →
        Stands (machine φ plan.now) process (process_started start (name_at (plan_expressions plan.now) name) e) []) }
{
    match start {
        Start::Fresh => Ok(State::Unborn(began(plan, names, name, name)?)),
        Start::Run => {
            match names.running(plan, name) {
                Some(handed) => handed.process.share(alloc),
                None => Ok(State::unborn(plan.passing())),
            }
        }
    }
}

// What the process of a name began as, shared, where the plan asks for it under that name and under another; what passes its
// inputs on where the name stands for none.
#[inline(always)]
fn began(plan: &Plan, names: &Env, name: NameId, under: NameId) -> Result<Process, AllocError>
    ensures { let x = plan_expressions plan.now in
        IfOk result (λ process. (φ : AnswersByName) (e : Environment) → IsNames (machine φ plan.now) names.now e → IsTrue (plan_asks plan.now (name_at x under)) → IsTrue (plan_asks plan.now (name_at x name)) →
        IsProcess (machine φ plan.now) process (base (process_of (name_at x name) e))) }
{
    if !plan.asks(under) {
        // nobody asks for it: it isn't looked for
        return Ok(Process {
            term: plan.passing(),
            names: Env::Empty,
        });
    }
    match names.running(plan, name) {
        Some(handed) => handed.base.share(),
        None => Ok(Process {
            term: plan.passing(),
            names: Env::Empty,
        }),
    }
}

// The same process, shared, where the plan asks what a process of this name began as; else anything.
fn kept(plan: &Plan, name: NameId, process: &Process) -> Result<Process, AllocError>
    ensures { IfOk result (λ same. (φ : AnswersByName) (P : Lives.Process) → IsTrue (plan_asks plan.now (name_at (plan_expressions plan.now) name)) → IsProcess (machine φ plan.now) process.now P → IsProcess (machine φ plan.now) same P) }
{
    if plan.asks(name) {
        process.share()
    } else {
        Ok(Process {
            term: plan.passing(),
            names: Env::Empty,
        })
    }
}

/// The names of a template's parameters, each bound to its argument, the first one first, where these names are around the call.
/// The error is the first fault of the arguments.
#[inline(never)]
pub fn called<R: Holds>(
    context: &SampleContext<R>,
    id: TemplateId,
    arguments: &[PlanArgument],
    names: &Env,
) -> Result<Env, Fault>
    requires coded { All (IsCodedArgument (plan_expressions (plan_in context.now))) arguments.now }
    requires asked { IsTrue (arguments_asked (plan_expressions (plan_in context.now)) (plan_asks (plan_in context.now)) (header_at (plan_in context.now) id).parameters arguments.now) }
    ensures { (e : Environment) → IsNames (context_machine R.answers context.now) names.now e →
        Makes (IsNames (context_machine R.answers context.now))
        (argued (R.answers context.now.functions.now) (map (plan_binding (plan_in context.now)) (header_at (plan_in context.now) id).parameters) (plan_arguments (plan_in context.now) arguments.now) e empty) result }
{
    let template = context.plan.template(id);
    bound_names(context, id, template, arguments, names)
}

// Up to so many parameters are bound one inside another, and gone through where a name is looked for; more stand side by
// side, where each has its place.
const FEW: usize = 16;

// The parameters of a template, each bound to its argument.
#[inline(always)]
fn bound_names<R: Holds>(
    context: &SampleContext<R>,
    id: TemplateId,
    template: &PlanTemplate,
    arguments: &[PlanArgument],
    names: &Env,
) -> Result<Env, Fault>
    requires same { template.now ≡ header_at (plan_in context.now) id }
    requires bound { BindsNames (plan_expressions (plan_in context.now)) template.now }
    requires coded { All (IsCodedArgument (plan_expressions (plan_in context.now))) arguments.now }
    requires asked { IsTrue (arguments_asked (plan_expressions (plan_in context.now)) (plan_asks (plan_in context.now)) template.now.parameters arguments.now) }
    ensures { (e : Environment) → IsNames (context_machine R.answers context.now) names.now e →
        Makes (IsNames (context_machine R.answers context.now))
        (argued (R.answers context.now.functions.now) (map (plan_binding (plan_in context.now)) template.now.parameters) (plan_arguments (plan_in context.now) arguments.now) e empty) result }
{
    let parameters = template.parameters();
    if arguments.len() > FEW && arguments.len() == parameters.len() {
        side_by_side(context, id, parameters, arguments, names)
    } else {
        one_inside_another(context, parameters, arguments, names)
    }
}

// Parameters, each bound to its argument inside those before it.
#[inline(always)]
fn one_inside_another<R: Holds>(
    context: &SampleContext<R>,
    parameters: &[PlanParameter],
    arguments: &[PlanArgument],
    names: &Env,
) -> Result<Env, Fault>
    requires bound { All (BindsName (plan_expressions (plan_in context.now))) parameters.now }
    requires coded { All (IsCodedArgument (plan_expressions (plan_in context.now))) arguments.now }
    requires asked { IsTrue (arguments_asked (plan_expressions (plan_in context.now)) (plan_asks (plan_in context.now)) parameters.now arguments.now) }
    ensures { (e : Environment) → IsNames (context_machine R.answers context.now) names.now e →
        Makes (IsNames (context_machine R.answers context.now))
        (argued (R.answers context.now.functions.now) (map (plan_binding (plan_in context.now)) parameters.now) (plan_arguments (plan_in context.now) arguments.now) e empty) result }
{
    let mut bound = Env::Empty;
    for (parameter, argument) in parameters.iter().zip(arguments) {
        let given = given_by(context, parameter, argument, names)?;
        bound = bind(context, parameter, given, &bound)?;
    }
    Ok(bound)
}

// The parameters of a template, with what their arguments are, side by side.
fn side_by_side<R: Holds>(
    context: &SampleContext<R>,
    id: TemplateId,
    parameters: &[PlanParameter],
    arguments: &[PlanArgument],
    names: &Env,
) -> Result<Env, Fault>
    requires same { parameters.now ≡ (header_at (plan_in context.now) id).parameters }
    requires long { length arguments.now ≡ length parameters.now }
    requires coded { All (IsCodedArgument (plan_expressions (plan_in context.now))) arguments.now }
    requires asked { IsTrue (arguments_asked (plan_expressions (plan_in context.now)) (plan_asks (plan_in context.now)) parameters.now arguments.now) }
    ensures { (e : Environment) → IsNames (context_machine R.answers context.now) names.now e →
        Makes (IsNames (context_machine R.answers context.now))
        (argued (R.answers context.now.functions.now) (map (plan_binding (plan_in context.now)) parameters.now) (plan_arguments (plan_in context.now) arguments.now) e empty) result }
{
    let mut given = Vec::with_capacity(context.alloc, arguments.len())?;
    for (parameter, argument) in parameters.iter().zip(arguments) {
        given.push(given_by(context, parameter, argument, names)?)?;
    }
    Ok(Env::of_call(context.alloc, id, given)?)
}

// Names, and inside them that of a parameter, which stands for what is given.
#[inline(always)]
fn bind<R: Holds>(
    context: &SampleContext<R>,
    parameter: &PlanParameter,
    given: Given,
    bound: &Env,
) -> Result<Env, AllocError>
    requires { BindsName (plan_expressions (plan_in context.now)) parameter.now }
    ensures { IfOk result (λ inner. (φ : AnswersByName) (d e : Environment) → IsNames (machine φ (plan_in context.now)) bound.now d →
        AreGiven (machine φ (plan_in context.now)) (name_at (plan_expressions (plan_in context.now)) parameter.now.name ∷ []) (given ∷ []) d e → IsNames (machine φ (plan_in context.now)) inner e) }
{
    match given {
        Given::Value(value) => {
            let own = Payload::Own(value);
            bound.inside(context.alloc, context.plan, parameter.pattern(), own)
        }
        Given::Process(handed) => bound.with_process(context.alloc, parameter.name(), handed),
        Given::Members(members) => bound.with_members(context.alloc, parameter.name(), members),
    }
}

// What an argument gives to a parameter, with the names around the call.
#[inline(always)]
fn given_by<R: Holds>(
    context: &SampleContext<R>,
    parameter: &PlanParameter,
    argument: &PlanArgument,
    names: &Env,
) -> Result<Given, Fault>
    requires coded { IsCodedArgument (plan_expressions (plan_in context.now)) argument.now }
    requires asked { let x = plan_expressions (plan_in context.now) in IsTrue (argument_asked x (plan_asks (plan_in context.now)) (name_at x parameter.now.name) argument.now) }
    ensures { GivesOne (context_machine R.answers context.now) parameter.now argument.now names.now result }
{
    match argument {
        PlanArgument::Value(_, code) => match constant_in(context, code, names) {
            Ok(value) => Ok(Given::Value(value)),
            Err(fault) => Err(fault_of(fault)),
        },
        PlanArgument::Started(start, name) => {
            let handed = handed_on(context, parameter, *start, *name, names)?;
            Ok(Given::Process(handed))
        }
        PlanArgument::Closed(term) => {
            let handed = closed(context.alloc, context.plan, parameter, *term, names)?;
            Ok(Given::Process(handed))
        }
        PlanArgument::Collected(members) => {
            let all = collect(context, members, names)?;
            Ok(Given::Members(all))
        }
    }
}

// The process of a name for a parameter, beside what it began as.
#[inline(always)]
fn handed_on<R: Holds>(
    context: &SampleContext<R>,
    parameter: &PlanParameter,
    start: Start,
    name: NameId,
    names: &Env,
) -> Result<Handed, AllocError>
    requires { let p = plan_in context.now in
        IsTrue (start_asked (plan_asks p (name_at (plan_expressions p) parameter.now.name)) (plan_asks p (name_at (plan_expressions p) name)) start) }
    ensures { IfOk result (λ handed. (φ : AnswersByName) (e : Environment) → IsNames (machine φ (plan_in context.now)) names.now e →
        IsHanded (machine φ (plan_in context.now)) (name_at (plan_expressions (plan_in context.now)) parameter.now.name) handed (process_started start (name_at (plan_expressions (plan_in context.now)) name) e)) }
{
    let under = parameter.name();
    let base = began(context.plan, names, name, under)?;
    let process = started(context.alloc, context.plan, names, start, name)?;
    Ok(Handed { process, base })
}

// The process of a term for a parameter, in the names around it that it mentions, which began as itself.
fn closed(
    alloc: Global,
    plan: &Plan,
    parameter: &PlanParameter,
    term: PlanId,
    names: &Env,
) -> Result<Handed, AllocError>
    ensures { IfOk result (λ handed. (φ : AnswersByName) (e : Environment) → IsNames (machine φ plan.now) names.now e → IsHanded (machine φ plan.now) (name_at (plan_expressions plan.now) parameter.now.name) handed (closure (plan_tree plan.now term) e)) }
{
    let process = Process::within(alloc, plan, term, names)?;
    let under = parameter.name();
    let base = kept(plan, under, &process)?;
    let process = State::Unborn(process);
    Ok(Handed { process, base })
}
