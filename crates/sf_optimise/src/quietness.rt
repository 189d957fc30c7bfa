//! Quiet terms: by their text they give a value without readings at each step, whatever their input.
ghost use Rattle.std.specs.Prelude.{◌≡◌, map};
ghost use Rattle.sf_expr.specs.Arena.{expression, function_at, Holds, HoldsFunction};
ghost use Rattle.sf_term.specs.Arena.{tree, term_of, HoldsTerm, HoldsTermParts};
ghost use Rattle.sf_term.specs.declared.node.Node.TheVariants.{Primitive as primitive_node};
ghost use Rattle.sf_law.specs.Arena.{plan_tree, plan_expressions, plan_trees};
ghost use Rattle.sf_law.specs.Entries.{chain_over, primitive_over};
ghost use Rattle.sf_law.specs.Held.{HoldsChain, HoldsPlanned};
ghost use Rattle.sf_rewrite.specs.Quiet as quiet_terms;
ghost use Rattle.sf_optimise.specs.Lists.{all_quiet};

use sf_expr::{ExprId, ExprNode, Exprs, FunctionId};
use sf_law::{Plan, PlanChain, PlanId, PlanNode, PlanPrimitive};
use sf_operator::{Merge, Operator, Unary};
use sf_term::{Bare, Naming, Node, Primitive, Program, TermId};

/// Whether a term of a network is quiet. It takes no memory, and goes no deeper than the term.
#[tactic(auto, using(sf_term::proofs::Extended::expression_in, sf_term::proofs::Extended::function_at_in))]
pub fn quiet(program: &Program, id: TermId) -> bool
    requires { HoldsTerm program.now id }
    ensures { result ≡ quiet_terms.is_quiet (tree program.now id) }
{
    match program.node(id) {
        Node::Primitive(primitive) => is_quiet_form(program, primitive),
        Node::Joined(_, first, second) => quiet(program, first) && quiet(program, second),
        Node::Sided(_, part) => quiet(program, part),
        Node::Headed(_, value, part) => {
            is_quiet_expression(program.expressions(), value) && quiet(program, part)
        }
        Node::Transformed(function, part) => {
            is_quiet_function(program.expressions(), function) && quiet(program, part)
        }
        Node::Named(Naming::Probe, _, _) | Node::Named(Naming::Process(_), _, _) => false,
        Node::Call(_, _) | Node::Switching(_) | Node::Continuation(_) => false,
        Node::Gathered(_) | Node::Releasing(_) | Node::Editing(_) => false,
    }
}

// Whether a primitive of a network is quiet.
#[tactic(auto, using(sf_term::proofs::Extended::expression_in, sf_term::proofs::Extended::function_at_in))]
fn is_quiet_form(program: &Program, primitive: Primitive) -> bool
    requires { HoldsTermParts program.now (primitive_node primitive) }
    ensures { result ≡ quiet_terms.is_quiet (term_of program.now (primitive_node primitive)) }
{
    let exprs = program.expressions();
    match primitive {
        Primitive::Bare(form) => is_quiet_bare(form),
        Primitive::Never(_) | Primitive::Selected(_, _) => true,
        Primitive::WithValue(_, value) | Primitive::Timed(_, _, value) => {
            is_quiet_expression(exprs, value)
        }
        Primitive::Arrow(function) => is_quiet_function(exprs, function),
        Primitive::Accumulated(_, value, function) => {
            is_quiet_expression(exprs, value) && is_quiet_function(exprs, function)
        }
    }
}

/// Whether a term of a plan is quiet.
#[cycle(part)]
pub(crate) fn is_quiet(plan: &Plan, id: PlanId) -> bool
    ensures { result ≡ quiet_terms.is_quiet (plan_tree plan.now id) }
{
    match plan.node(id) {
        PlanNode::Primitive(primitive) => is_quiet_primitive(plan.expressions(), primitive),
        PlanNode::Joined(_, first, second) => is_quiet(plan, *first) && is_quiet(plan, *second),
        PlanNode::Sided(_, part) => is_quiet(plan, *part),
        PlanNode::Headed(_, value, _, part) => {
            is_quiet_expression(plan.expressions(), *value) && is_quiet(plan, *part)
        }
        PlanNode::Transformed(function, _, part) => {
            is_quiet_function(plan.expressions(), *function) && is_quiet(plan, *part)
        }
        PlanNode::Pipeline(stages) => are_quiet(plan, stages),
        PlanNode::Started(_, _) | PlanNode::Probe(_) | PlanNode::Call(_, _, _) => false,
        PlanNode::Switching(_) | PlanNode::Continuation(_) => false,
        PlanNode::Gathered(_) | PlanNode::Releasing(_) | PlanNode::Editing(_) => false,
    }
}

// Whether all of these terms are.
#[cycle(part)]
fn are_quiet(plan: &Plan, stages: &[PlanId]) -> bool
    ensures { result ≡ all_quiet (plan_trees plan.now stages.now) }
{
    for stage in stages {
        if !is_quiet(plan, *stage) {
            return false;
        }
    }
    true
}

// Whether a primitive of a plan is.
fn is_quiet_primitive(exprs: &Exprs, primitive: &PlanPrimitive) -> bool
    requires { HoldsPlanned exprs.now primitive.now }
    ensures { result ≡ quiet_terms.is_quiet_primitive (primitive_over exprs.now primitive.now) }
{
    match primitive {
        PlanPrimitive::Bare(form) => is_quiet_bare(*form),
        PlanPrimitive::Never(_) | PlanPrimitive::Selected(_, _) => true,
        PlanPrimitive::WithValue(_, value, _) | PlanPrimitive::Timed(_, _, value, _) => {
            is_quiet_expression(exprs, *value)
        }
        PlanPrimitive::Arrow(function, _) => is_quiet_function(exprs, *function),
        PlanPrimitive::Fused(chain) => is_quiet_chain(exprs, chain),
        PlanPrimitive::Accumulated(_, value, _, function, _) => {
            is_quiet_expression(exprs, *value) && is_quiet_function(exprs, *function)
        }
    }
}

// Whether functions that are made into one are.
fn is_quiet_chain(exprs: &Exprs, chain: &PlanChain) -> bool
    requires { HoldsChain exprs.now chain.now }
    ensures { result ≡ quiet_terms.is_quiet_chain (chain_over exprs.now chain.now) }
{
    match chain {
        PlanChain::Lone(function, _) => is_quiet_function(exprs, *function),
        PlanChain::OnSide(_, part) => is_quiet_chain(exprs, part),
        PlanChain::Chained(first, second)
        | PlanChain::OnBoth(first, second)
        | PlanChain::Fanned(first, second) => {
            is_quiet_chain(exprs, first) && is_quiet_chain(exprs, second)
        }
    }
}

// Whether a primitive without constants is.
fn is_quiet_bare(form: Bare) -> bool
    ensures { result ≡ quiet_terms.is_quiet_bare form }
{
    match form {
        Bare::Identity | Bare::Edge | Bare::NotYet | Bare::Once | Bare::Pre => true,
        Bare::LocalTime | Bare::Integral | Bare::Count => false,
    }
}

// Whether a function is.
fn is_quiet_function(exprs: &Exprs, function: FunctionId) -> bool
    requires { HoldsFunction exprs.now function }
    ensures { result ≡ quiet_terms.is_quiet_function (function_at exprs.now function) }
{
    is_quiet_expression(exprs, exprs.body(function))
}

/// Whether an expression is quiet.
pub(crate) fn is_quiet_expression(exprs: &Exprs, id: ExprId) -> bool
    requires { Holds exprs.now id }
    ensures { result ≡ quiet_terms.is_quiet_expression (expression exprs.now id) }
{
    match exprs.node(id) {
        ExprNode::Unit | ExprNode::Truth(_) | ExprNode::Int(_) => true,
        ExprNode::Constant(_) | ExprNode::Name(_) => true,
        ExprNode::Pair(first, second) => {
            is_quiet_expression(exprs, first) && is_quiet_expression(exprs, second)
        }
        ExprNode::Applied(operator, part) => {
            is_quiet_unary(operator) && is_quiet_expression(exprs, part)
        }
        ExprNode::Operation(left, operator, right) => {
            is_quiet_operator(operator)
                && (is_quiet_expression(exprs, left) && is_quiet_expression(exprs, right))
        }
        ExprNode::Conditional(condition, first, second) => {
            is_quiet_expression(exprs, condition)
                && (is_quiet_expression(exprs, first) && is_quiet_expression(exprs, second))
        }
        ExprNode::Mapped(node) => {
            is_quiet_expression(exprs, node.part) && is_quiet_expression(exprs, node.body)
        }
        ExprNode::Folded(node) => {
            is_quiet_expression(exprs, node.first)
                && (is_quiet_expression(exprs, node.second)
                    && is_quiet_expression(exprs, node.body))
        }
        ExprNode::Called(_, _, _) => false,
    }
}

// Whether an operator on a value is.
fn is_quiet_unary(operator: Unary) -> bool
    ensures { result ≡ quiet_terms.is_quiet_unary operator }
{
    match operator {
        Unary::Size => false,
        Unary::Not | Unary::Event | Unary::First | Unary::Second | Unary::IsEvent => true,
    }
}

// Whether an operator on two values is.
fn is_quiet_operator(operator: Operator) -> bool
    ensures { result ≡ quiet_terms.is_quiet_operator operator }
{
    match operator {
        Operator::Arithmetic(_) | Operator::Merge(Merge::Exclusive) => false,
        Operator::Merge(Merge::Left) | Operator::Merge(Merge::Right) => true,
        Operator::Equality(_) | Operator::Comparison(_) | Operator::Logic(_) => true,
        Operator::Tag | Operator::Attach | Operator::FromEvent => true,
        Operator::Gate | Operator::Get => true,
    }
}
