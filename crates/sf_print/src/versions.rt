//! Which version of a text a network takes.
ghost use Rattle.std.specs.Prelude.{◌≡◌, All};
ghost use Rattle.sf_expr.specs.Arena.{expression, Holds, HoldsFunction};
ghost use Rattle.sf_term.specs.declared.node.Node.TheVariants as nodes;
ghost use Rattle.sf_term.specs.ParameterView.{kind_of_form};
ghost use Rattle.sf_term.specs.Arena.{tree, term_of, program_expressions, program_expression, program_function, templates_of, term_template, arguments_of, collection_node, collection_of, collection_tree, HoldsTerm, HoldsTermParts, HoldsArgument, HoldsMembers, HoldsWhole};
ghost use Rattle.sf_value.specs.KindView.{key_kind_of};
ghost use Rattle.sf_print.specs.Versions.{are_texts, type_needs_two, literal_needs_two, expression_needs_two, function_needs_two, term_needs_two, collection_needs_two, arguments_need_two, name_kind_needs_two, template_needs_two, network_needs_two, parameters_need_two};
ghost use Rattle.sf_print.specs.Arguments.{argument_needs_two, IsWithin, ArgumentWithin, PartsWithin};

use sf_expr::{Constant, ConstantForm, ExprId, ExprNode, Exprs, FunctionId};
use sf_term::{
    Argument, CollExpr, CollectionId, Naming, Node, Parameter, ParameterForm, Primitive, Program,
    Releasing, Start, Template, TermId,
};
use sf_value::{KeyType, Ty, TyForm};

/// Whether a table in a type has Text keys, which texts of version 2 alone write.
pub fn type_needs_two(ty: &Ty) -> bool
    ensures { result ≡ type_needs_two ty.now }
{
    match ty.form() {
        TyForm::Unit | TyForm::Bool | TyForm::Int | TyForm::Text => false,
        TyForm::Pair(first, second) => type_needs_two(first) || type_needs_two(second),
        TyForm::Event(payload) => type_needs_two(payload),
        TyForm::Table(KeyType::Text, _) => true,
        TyForm::Table(KeyType::Int, values) => type_needs_two(values),
    }
}

/// Whether keys are texts.
fn are_texts(keys: KeyType) -> bool
    ensures { result ≡ are_texts (key_kind_of keys) }
{
    match keys {
        KeyType::Int => false,
        KeyType::Text => true,
    }
}

/// The same of the type of no event.
fn constant_needs_two(constant: &Constant) -> bool
    ensures { result ≡ literal_needs_two constant.now }
{
    match constant.form() {
        ConstantForm::Text(_) => false,
        ConstantForm::NoEvent(payload) => type_needs_two(payload),
    }
}

/// The same of the types in the expression at an id.
fn expression_needs_two(exprs: &Exprs, id: ExprId) -> bool
    requires { Holds exprs.now id }
    ensures { result ≡ expression_needs_two (expression exprs.now id) }
{
    match exprs.node(id) {
        ExprNode::Unit => false,
        ExprNode::Truth(_) => false,
        ExprNode::Int(_) => false,
        ExprNode::Name(_) => false,
        ExprNode::Constant(constant) => constant_needs_two(exprs.constant_at(constant)),
        ExprNode::Pair(first, second) => {
            expression_needs_two(exprs, first) || expression_needs_two(exprs, second)
        }
        ExprNode::Applied(_, part) => expression_needs_two(exprs, part),
        ExprNode::Operation(left, _, right) => {
            expression_needs_two(exprs, left) || expression_needs_two(exprs, right)
        }
        ExprNode::Conditional(condition, first, second) => {
            expression_needs_two(exprs, condition)
                || expression_needs_two(exprs, first)
                || expression_needs_two(exprs, second)
        }
        ExprNode::Mapped(node) => {
            expression_needs_two(exprs, node.part) || expression_needs_two(exprs, node.body)
        }
        ExprNode::Folded(node) => {
            expression_needs_two(exprs, node.first)
                || expression_needs_two(exprs, node.second)
                || expression_needs_two(exprs, node.body)
        }
        ExprNode::Called(_, _, part) => expression_needs_two(exprs, part),
    }
}

/// The same of an expression of a program.
#[tactic(auto, unfolding(sf_term::specs::Arena::program_expression, sf_term::specs::Arena::program_expressions))]
fn value_needs_two(program: &Program, value: ExprId) -> bool
    requires { Holds (program_expressions program.now) value }
    ensures { result ≡ expression_needs_two (program_expression program.now value) }
{
    expression_needs_two(program.expressions(), value)
}

/// The same of a function of a program.
#[tactic(auto, unfolding(sf_term::specs::Arena::program_expression, sf_term::specs::Arena::program_expressions, sf_term::specs::Arena::function_pattern_at, sf_term::specs::Arena::function_body_at))]
fn function_needs_two(program: &Program, function: FunctionId) -> bool
    requires { HoldsFunction (program_expressions program.now) function }
    ensures { result ≡ function_needs_two (program_function program.now function) }
{
    let exprs = program.expressions();
    expression_needs_two(exprs, exprs.body(function))
}

/// The same of a primitive.
fn primitive_needs_two(program: &Program, primitive: Primitive) -> bool
    requires { HoldsTermParts program.now (nodes.Primitive primitive) }
    ensures { result ≡ term_needs_two (term_of program.now (nodes.Primitive primitive)) }
{
    match primitive {
        Primitive::Bare(_) => false,
        Primitive::Never(payload) => constant_needs_two(program.expressions().constant_at(payload)),
        Primitive::WithValue(_, value) => value_needs_two(program, value),
        Primitive::Timed(_, _, value) => value_needs_two(program, value),
        Primitive::Selected(_, _) => false,
        Primitive::Arrow(function) => function_needs_two(program, function),
        Primitive::Accumulated(_, value, function) => {
            value_needs_two(program, value) || function_needs_two(program, function)
        }
    }
}

/// Whether a Text key or `fresh` stands in the term at an id.
#[cycle(needs)]
fn term_needs_two(program: &Program, id: TermId) -> bool
    requires { HoldsTerm program.now id }
    ensures { result ≡ term_needs_two (tree program.now id) }
{
    match program.node(id) {
        Node::Primitive(primitive) => primitive_needs_two(program, primitive),
        Node::Named(Naming::Process(Start::Fresh), _, _) => true,
        Node::Named(Naming::Process(Start::Run), _, _) => false,
        Node::Named(Naming::Probe, _, _) => false,
        Node::Call(_, arguments) => arguments_need_two(program, id, program.arguments(arguments)),
        Node::Joined(_, first, second) => {
            term_needs_two(program, first) || term_needs_two(program, second)
        }
        Node::Sided(_, part) => term_needs_two(program, part),
        Node::Headed(_, value, part) => {
            value_needs_two(program, value) || term_needs_two(program, part)
        }
        Node::Transformed(function, part) => {
            function_needs_two(program, function) || term_needs_two(program, part)
        }
        Node::Switching(form) => {
            term_needs_two(program, form.source) || term_needs_two(program, form.body)
        }
        Node::Continuation(form) => {
            term_needs_two(program, form.source)
                || term_needs_two(program, form.observer)
                || term_needs_two(program, form.body)
        }
        Node::Gathered(members) => members_need_two(program, id, members),
        Node::Releasing(form) => releasing_needs_two(program, id, form),
        Node::Editing(form) => {
            members_need_two(program, id, form.members) || members_need_two(program, id, form.edit)
        }
    }
}

/// The same of members that give way to a term.
#[cycle(needs)]
fn releasing_needs_two(program: &Program, id: TermId, form: Releasing) -> bool
    requires within { PartsWithin program.now id (nodes.Releasing form) }
    requires form_held { HoldsTermParts program.now (nodes.Releasing form) }
    ensures { result ≡ term_needs_two (term_of program.now (nodes.Releasing form)) }
{
    members_need_two(program, id, form.members)
        || term_needs_two(program, form.observer)
        || term_needs_two(program, form.body)
}

/// The same of the collection at an id, which stands in a form.
#[cycle(needs)]
fn members_need_two(program: &Program, form: TermId, members: CollectionId) -> bool
    requires within { IsWithin program.now form (collection_node program.now members) }
    requires members_held { HoldsWhole program.now members }
    ensures { result ≡ collection_needs_two (collection_tree program.now members) }
{
    collection_needs_two(program, form, program.collection(members))
}

/// The same of a collection that stands in a form.
#[cycle(needs)]
fn collection_needs_two(program: &Program, form: TermId, collection: &CollExpr) -> bool
    requires within { IsWithin program.now form collection.now }
    requires collection_held { HoldsMembers program.now collection.now }
    ensures { result ≡ collection_needs_two (collection_of program.now collection.now) }
{
    match collection {
        CollExpr::Empty(keys, values, _) => are_texts(*keys) || type_needs_two(values),
        CollExpr::Used(_, _, _) => false,
        CollExpr::Added(members, key, term, _) => {
            collection_needs_two(program, form, members)
                || value_needs_two(program, *key)
                || term_needs_two(program, *term)
        }
        CollExpr::Dropped(members, key, _) => {
            collection_needs_two(program, form, members) || value_needs_two(program, *key)
        }
        CollExpr::Kept(members, function, _) => {
            collection_needs_two(program, form, members) || function_needs_two(program, *function)
        }
        CollExpr::Chosen(condition, first, second, _) => {
            value_needs_two(program, *condition)
                || collection_needs_two(program, form, first)
                || collection_needs_two(program, form, second)
        }
    }
}

/// The same of the arguments of a call.
#[cycle(needs)]
fn arguments_need_two(program: &Program, call: TermId, arguments: &[Argument]) -> bool
    requires within { All (ArgumentWithin program.now call) arguments.now }
    requires arguments_held { All (HoldsArgument program.now) arguments.now }
    ensures { result ≡ arguments_need_two (arguments_of program.now arguments.now) }
{
    for argument in arguments {
        if argument_needs_two(program, call, *argument) {
            return true;
        }
    }
    false
}

/// The same of an argument of a call.
#[cycle(needs)]
fn argument_needs_two(program: &Program, call: TermId, argument: Argument) -> bool
    requires within { ArgumentWithin program.now call argument }
    requires argument_held { HoldsArgument program.now argument }
    ensures { result ≡ argument_needs_two program.now argument }
{
    match argument {
        Argument::Value(value) => value_needs_two(program, value),
        Argument::Process(term) => term_needs_two(program, term),
        Argument::Collection(members) => members_need_two(program, call, members),
    }
}

/// The same of what a parameter stands for.
fn form_needs_two(form: &ParameterForm) -> bool
    ensures { result ≡ name_kind_needs_two (kind_of_form form.now) }
{
    match form {
        ParameterForm::Value(ty) => type_needs_two(ty),
        ParameterForm::Process(from, to) => type_needs_two(from) || type_needs_two(to),
        ParameterForm::Collection(keys, from, to) => {
            are_texts(*keys) || type_needs_two(from) || type_needs_two(to)
        }
    }
}

/// The same of the parameters of a template.
fn parameters_need_two(parameters: &[Parameter]) -> bool
    ensures { result ≡ parameters_need_two parameters.now }
{
    for parameter in parameters {
        if form_needs_two(parameter.form()) {
            return true;
        }
    }
    false
}

/// The same of a template.
#[tactic(auto, using(crate::proofs::Needing::parameters_need))]
fn template_needs_two(program: &Program, template: &Template) -> bool
    requires { HoldsTerm program.now template.now.body }
    ensures { result ≡ template_needs_two (term_template program.now template.now) }
{
    parameters_need_two(template.parameters())
        || type_needs_two(template.input())
        || type_needs_two(template.output())
        || term_needs_two(program, template.body())
}

/// Whether a Text key or `fresh` stands in a network.
pub(crate) fn network_needs_two(program: &Program) -> bool
    ensures { result ≡ network_needs_two (templates_of program.now) }
{
    for template in program.templates() {
        if template_needs_two(program, template) {
            return true;
        }
    }
    false
}
