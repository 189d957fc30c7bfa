//! The plan that is a program itself.
ghost use Rattle.std.specs.Prelude.{◌≡◌, List, map, All, IsTrue, IfOk, OnOk};
ghost use Rattle.std.specs.List.{AllZip};
ghost use Rattle.sf_expr.specs.Arena.{function_at, stored_pattern, HoldsFunction, HoldsName, HoldsPattern, Extends};
ghost use Rattle.sf_expr.specs.Patterns.{placed_name};
ghost use Rattle.sf_term.specs.Arena.{program_expressions, headers_of, HoldsArgument, HoldsTermParts};
ghost use Rattle.sf_term.specs.declared.node.TermId as term_ids;
ghost use Rattle.sf_term.specs.declared.node.Node.TheVariants.{Call as call_node, Named as named_node};
ghost use Rattle.sf_code.specs.Worth.{IsCodeOfFunction};
ghost use Rattle.sf_refusal.specs.declared.spot.Spot.{Spot};
ghost use Rattle.sf_law.specs.declared.node.PlanId as plan_ids;
ghost use Rattle.sf_law.specs.Headers.{PlanHeader};
ghost use Rattle.sf_law.specs.Held.{HoldsPrimitive, HoldsPlanned, HoldsBeside};
ghost use Rattle.sf_law.specs.Entries.{IsCodedPrimitive, IsCodedArgument, IsCoded, calls_first};
ghost use Rattle.sf_law.specs.Arena.{plan_expressions, plan_asked, node_count, plan_headers};
ghost use Rattle.sf_law.specs.Copies.{stands_under, named_process, copied_switch, copied_continuing, CopiesArgument, CopiesPrimitive, CopiesNode, CopiesParameter, CopiesTemplate, ShowsTerms};
ghost use Rattle.sf_law.specs.Copies;
ghost use Rattle.sf_law.specs.Plans.{IsProgramPlan};
ghost use Rattle.sf_law.specs.declared.mentioned.Mentioned.TheVariants.{Any as any_name};

use crate::members::{TermPlans, plan_editing, plan_gathered, plan_members, plan_releasing};
use crate::node::{PlanArgument, PlanContinuation, PlanId, PlanNode, PlanPrimitive, PlanSwitch};
use crate::plan::Plan;
use crate::template::{PlanParameter, PlanTemplate};
use sf_code::{OpenCode, expression_code, function_code};
use sf_expr::{Exprs, FunctionId, NameId, Pat, PatternId};
use sf_term::{
    Argument, ArgumentsId, Continuation, Naming, Node, Parameter, Primitive, Program, Start,
    Switch, Template, TermId,
};
use std::alloc::{AllocError, Global};
use std::rc::Rc;

/// The plan that is a program itself, of which this term is run.
pub fn plain_plan(alloc: Global, program: &Program, main: TermId) -> Result<Plan, AllocError>
    ensures { IfOk result (λ plan. IsProgramPlan program.now main plan) }
{
    let empty = empty_plan(alloc, program)?;
    let plan = with_terms(alloc, empty, program)?;
    let listed = plan.with_main(plan_id(main)).with_mentions(alloc)?;
    Ok(listed)
}

/// A plan with the expressions and the templates of a program, and no term yet.
pub fn empty_plan(alloc: Global, program: &Program) -> Result<Plan, AllocError>
    ensures empty { IfOk result (λ plan. node_count plan ≡ 0) }
    ensures asked { IfOk result (λ plan. plan_asked plan ≡ any_name) }
    ensures kept { IfOk result (λ plan. Extends (program_expressions program.now) (plan_expressions plan)) }
    ensures copied { IfOk result (λ plan. AllZip (CopiesTemplate (plan_expressions plan)) (headers_of program.now) (plan_headers plan)) }
{
    let mut expressions = program.expressions().clone_in(alloc)?;
    let templates = plan_templates(alloc, &mut expressions, program.templates())?;
    Plan::new(alloc, expressions, templates)
}

// The templates of a program, in order, with names and patterns of their parameters among expressions.
fn plan_templates(
    alloc: Global,
    expressions: &mut Exprs,
    templates: &[Template],
) -> Result<Vec<PlanTemplate>, AllocError>
    ensures kept { OnOk result (Extends expressions.old expressions.new) }
    ensures copied { IfOk result (λ copies. AllZip (CopiesTemplate expressions.new) templates.now copies.items) }
{
    let mut copies = Vec::new(alloc);
    for template in templates {
        copies.push(plan_template(alloc, expressions, template)?)?;
    }
    Ok(copies)
}

// A template, with names and patterns of its parameters among expressions.
fn plan_template(
    alloc: Global,
    expressions: &mut Exprs,
    template: &Template,
) -> Result<PlanTemplate, AllocError>
    ensures kept { OnOk result (Extends expressions.old expressions.new) }
    ensures copied { IfOk result (λ copy. CopiesTemplate expressions.new template.now copy) }
{
    let mut parameters = Vec::new(alloc);
    for parameter in template.parameters() {
        parameters.push(plan_parameter(alloc, expressions, parameter)?)?;
    }
    let name = String::from_str(alloc, template.name())?;
    let input = template.input().clone_in(alloc)?;
    let output = template.output().clone_in(alloc)?;
    let body = plan_id(template.body());
    Ok(PlanTemplate::new(name, parameters, input, output, body))
}

// A parameter, with its name and the pattern that binds it among expressions.
fn plan_parameter(
    alloc: Global,
    expressions: &mut Exprs,
    parameter: &Parameter,
) -> Result<PlanParameter, AllocError>
    ensures kept { OnOk result (Extends expressions.old expressions.new) }
    ensures copied { IfOk result (λ copy. CopiesParameter expressions.new parameter.now copy) }
{
    let name = expressions.name(String::from_str(alloc, parameter.name())?)?;
    let pattern = parameter_pattern(alloc, expressions, parameter)?;
    let form = parameter.form().clone_in(alloc)?;
    Ok(PlanParameter::new(name, pattern, form))
}

// The pattern that binds the name of a parameter, among expressions.
fn parameter_pattern(
    alloc: Global,
    expressions: &mut Exprs,
    parameter: &Parameter,
) -> Result<PatternId, AllocError>
    ensures kept { OnOk result (Extends expressions.old expressions.new) }
    ensures held { IfOk result (λ pattern. HoldsPattern expressions.new pattern) }
    ensures bound { IfOk result (λ pattern. stored_pattern expressions.new pattern ≡ placed_name parameter.now.name parameter.now.spot) }
{
    let pattern = Pat::name(String::from_str(alloc, parameter.name())?, parameter.spot());
    match expressions.pattern_in(pattern) {
        Ok(pattern) => Ok(pattern),
        Err(_) => Err(AllocError),
    }
}

// A plan with the terms of a program, where it has none yet.
fn with_terms(alloc: Global, empty: Plan, program: &Program) -> Result<Plan, AllocError>
    requires empty { node_count empty ≡ 0 }
    requires kept { Extends (program_expressions program.now) (plan_expressions empty) }
    ensures terms { IfOk result (λ plan. ShowsTerms program.now plan) }
    ensures templates { IfOk result (λ plan. plan_headers plan ≡ plan_headers empty) }
    ensures expressions { IfOk result (λ plan. plan_expressions plan ≡ plan_expressions empty) }
{
    let mut plan = empty;
    copy_terms(alloc, &mut plan, program).map(|()| plan)
}

// The terms of a program, under ids of the same numbers, each with its code.
fn copy_terms(alloc: Global, plan: &mut Plan, program: &Program) -> Result<(), AllocError>
    requires empty { node_count plan.old ≡ 0 }
    requires kept { Extends (program_expressions program.now) (plan_expressions plan.old) }
    ensures terms { OnOk result (ShowsTerms program.now plan.new) }
    ensures templates { plan_headers plan.new ≡ plan_headers plan.old }
    ensures expressions { plan_expressions plan.new ≡ plan_expressions plan.old }
{
    for number in 0..program.len() {
        let node = program.node(program.term(number));
        let copy = plan_node(alloc, plan, program, TermPlans::AsNumbered, node)?;
        plan.add(copy)?;
    }
    Ok(())
}

/// A node with the ids under which its parts stand in a plan, and with its code. A call is of the first template of its name.
#[tactic(auto, using(crate::proofs::Held::primitive_held))]
pub fn plan_node(
    alloc: Global,
    plan: &Plan,
    program: &Program,
    terms: TermPlans,
    node: Node,
) -> Result<PlanNode, AllocError>
    requires kept { Extends (program_expressions program.now) (plan_expressions plan.now) }
    requires held { HoldsTermParts program.now node }
    ensures same { IfOk result (λ copy. CopiesNode program.now (stands_under terms.entry) node copy) }
    ensures coded { IfOk result (λ copy. IsCoded (plan_expressions plan.now) copy) }
    ensures called { IfOk result (λ copy. IsTrue (calls_first (plan_expressions plan.now) (plan_headers plan.now) copy)) }
    ensures beside { IfOk result (λ copy. HoldsBeside (plan_expressions plan.now) copy) }
{
    let exprs = plan.expressions();
    match node {
        Node::Primitive(primitive) => {
            let primitive = plan_primitive(alloc, exprs, primitive)?;
            Ok(PlanNode::Primitive(primitive))
        }
        Node::Named(form, name, _) => {
            let named = plan_named(alloc, program, form, name)?;
            Ok(named)
        }
        Node::Call(name, arguments) => plan_call(alloc, plan, program, terms, name, arguments),
        Node::Joined(join, first, second) => {
            Ok(PlanNode::Joined(join, terms.id(first), terms.id(second)))
        }
        Node::Sided(side, part) => Ok(PlanNode::Sided(side, terms.id(part))),
        Node::Headed(heading, value, part) => {
            let code = expression_code(alloc, exprs, value)?;
            Ok(PlanNode::Headed(heading, value, code, terms.id(part)))
        }
        Node::Transformed(function, part) => {
            let head = function_code(alloc, exprs, function)?;
            Ok(PlanNode::Transformed(function, head, terms.id(part)))
        }
        Node::Switching(node) => Ok(PlanNode::Switching(plan_switch(terms, node))),
        Node::Continuation(node) => Ok(PlanNode::Continuation(plan_continuing(terms, node))),
        Node::Gathered(members) => plan_gathered(alloc, exprs, program, terms, members),
        Node::Releasing(node) => plan_releasing(alloc, exprs, program, terms, node),
        Node::Editing(node) => plan_editing(alloc, exprs, program, terms, node),
    }
}

// A switch.
fn plan_switch(terms: TermPlans, node: Switch) -> PlanSwitch
    ensures { result ≡ copied_switch (stands_under terms.entry) node }
{
    let source = terms.id(node.source);
    let body = terms.id(node.body);
    PlanSwitch {
        form: node.form,
        source,
        pattern: node.pattern,
        body,
    }
}

// A switch that knows its source.
fn plan_continuing(terms: TermPlans, node: Continuation) -> PlanContinuation
    ensures { result ≡ copied_continuing (stands_under terms.entry) node }
{
    let source = terms.id(node.source);
    let observer = terms.id(node.observer);
    let body = terms.id(node.body);
    PlanContinuation {
        shown: node.shown,
        source,
        observer,
        name: node.name,
        pattern: node.pattern,
        body,
    }
}

// A form that is a name alone.
fn plan_named(
    alloc: Global,
    program: &Program,
    form: Naming,
    name: NameId,
) -> Result<PlanNode, AllocError>
    requires { HoldsName (program_expressions program.now) name }
    ensures same { IfOk result (λ copy. (m : term_ids.TermId → plan_ids.PlanId) (place : Spot) → CopiesNode program.now m (named_node form name place) copy) }
    ensures coded { IfOk result (λ copy. (x : Exprs) → IsCoded x copy) }
    ensures called { IfOk result (λ copy. (x : Exprs) (headers : List PlanHeader) → IsTrue (calls_first x headers copy)) }
    ensures beside { IfOk result (λ copy. (x : Exprs) → HoldsBeside x copy) }
{
    match form {
        Naming::Process(start) => Ok(PlanNode::Started(start, name)),
        Naming::Probe => {
            let text = String::from_str(alloc, program.expressions().name_of(name))?;
            let shared = Rc::new(alloc, text)?;
            Ok(PlanNode::Probe(shared))
        }
    }
}

// A call of the first template of a name.
fn plan_call(
    alloc: Global,
    plan: &Plan,
    program: &Program,
    terms: TermPlans,
    name: NameId,
    arguments: ArgumentsId,
) -> Result<PlanNode, AllocError>
    requires kept { Extends (program_expressions program.now) (plan_expressions plan.now) }
    requires held { HoldsTermParts program.now (call_node name arguments) }
    ensures same { IfOk result (λ copy. CopiesNode program.now (stands_under terms.entry) (call_node name arguments) copy) }
    ensures coded { IfOk result (λ copy. IsCoded (plan_expressions plan.now) copy) }
    ensures called { IfOk result (λ copy. IsTrue (calls_first (plan_expressions plan.now) (plan_headers plan.now) copy)) }
    ensures beside { IfOk result (λ copy. HoldsBeside (plan_expressions plan.now) copy) }
{
    let exprs = plan.expressions();
    let template = plan.template_named(exprs.name_of(name));
    let arguments = plan_arguments(alloc, exprs, program, terms, program.arguments(arguments))?;
    Ok(PlanNode::Call(name, template, arguments))
}

// The arguments of a call, in order, with their code.
fn plan_arguments(
    alloc: Global,
    exprs: &Exprs,
    program: &Program,
    terms: TermPlans,
    arguments: &[Argument],
) -> Result<Vec<PlanArgument>, AllocError>
    requires kept { Extends (program_expressions program.now) exprs.now }
    requires held { All (HoldsArgument program.now) arguments.now }
    ensures same { IfOk result (λ copies. AllZip (CopiesArgument program.now (stands_under terms.entry)) arguments.now copies.items) }
    ensures coded { IfOk result (λ copies. All (IsCodedArgument exprs.now) copies.items) }
{
    let mut copies = Vec::new(alloc);
    for argument in arguments {
        copies.push(plan_argument(alloc, exprs, program, terms, argument)?)?;
    }
    Ok(copies)
}

// An argument, with its code. A named process is told apart here.
fn plan_argument(
    alloc: Global,
    exprs: &Exprs,
    program: &Program,
    terms: TermPlans,
    argument: &Argument,
) -> Result<PlanArgument, AllocError>
    requires kept { Extends (program_expressions program.now) exprs.now }
    requires held { HoldsArgument program.now argument.now }
    ensures same { IfOk result (λ copy. CopiesArgument program.now (stands_under terms.entry) argument.now copy) }
    ensures coded { IfOk result (λ copy. IsCodedArgument exprs.now copy) }
{
    match *argument {
        Argument::Value(value) => {
            let code = expression_code(alloc, exprs, value)?;
            Ok(PlanArgument::Value(value, code))
        }
        Argument::Process(term) => match started(program.node(term)) {
            Some((start, name)) => Ok(PlanArgument::Started(start, name)),
            None => Ok(PlanArgument::Closed(terms.id(term))),
        },
        Argument::Collection(id) => {
            let members = plan_members(alloc, exprs, program, terms, id)?;
            Ok(PlanArgument::Collected(members))
        }
    }
}

// Where the process begins that a node is, and its name, where it is a named one.
fn started(node: Node) -> Option<(Start, NameId)>
    ensures { result ≡ named_process node }
{
    match node {
        Node::Named(Naming::Process(start), name, _) => Some((start, name)),
        _ => None,
    }
}

// A primitive with its code.
fn plan_primitive(
    alloc: Global,
    exprs: &Exprs,
    primitive: Primitive,
) -> Result<PlanPrimitive, AllocError>
    requires { HoldsPrimitive exprs.now primitive }
    ensures same { IfOk result (λ copy. CopiesPrimitive primitive copy) }
    ensures coded { IfOk result (λ copy. IsCodedPrimitive exprs.now copy) }
    ensures beside { IfOk result (λ copy. HoldsPlanned exprs.now copy) }
{
    match primitive {
        Primitive::Bare(form) => Ok(PlanPrimitive::Bare(form)),
        Primitive::Never(constant) => Ok(PlanPrimitive::Never(constant)),
        Primitive::WithValue(form, value) => {
            let code = expression_code(alloc, exprs, value)?;
            Ok(PlanPrimitive::WithValue(form, value, code))
        }
        Primitive::Timed(form, time, value) => {
            let code = expression_code(alloc, exprs, value)?;
            Ok(PlanPrimitive::Timed(form, time, value, code))
        }
        Primitive::Selected(form, count) => Ok(PlanPrimitive::Selected(form, count)),
        Primitive::Arrow(function) => {
            let code = shared_code(alloc, exprs, function)?;
            Ok(PlanPrimitive::Arrow(function, code))
        }
        Primitive::Accumulated(form, value, function) => {
            let start = expression_code(alloc, exprs, value)?;
            let code = shared_code(alloc, exprs, function)?;
            Ok(PlanPrimitive::Accumulated(form, value, start, function, code))
        }
    }
}

// The code of a function, to be shared.
fn shared_code(
    alloc: Global,
    exprs: &Exprs,
    function: FunctionId,
) -> Result<Rc<OpenCode>, AllocError>
    requires { HoldsFunction exprs.now function }
    ensures { IfOk result (λ code. IsCodeOfFunction exprs.now (function_at exprs.now function) code.value) }
{
    let code = function_code(alloc, exprs, function)?;
    Ok(Rc::new(alloc, code)?)
}

// The id of the same number.
fn plan_id(term: TermId) -> PlanId
    ensures { result ≡ Copies.plan_id term }
{
    PlanId(term.number())
}
