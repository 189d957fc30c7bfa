//! The optimised plan of a network: each term is made anew, from the innermost outwards, of the plans of its parts.
ghost use Rattle.std.specs.Prelude.{◌≡◌, ◌<◌, ◌≤◌, true, IfOk, length};
ghost use Rattle.sf_rewrite.specs.Laws.{identity};
ghost use Rattle.sf_expr.specs.Arena.{Extends, Holds};
ghost use Rattle.sf_term.specs.Trees;
ghost use Rattle.sf_term.specs.Arena.{term_count, term_number, program_expressions, term_of, tree, TermPartsBelow, HoldsTermParts};
ghost use Rattle.sf_law.specs.Arena.{plan_tree, plan_expressions, plan_expression_at};
ghost use Rattle.sf_optimise.specs.Making.{GrowsPlan, IsNormal, MakesPlan};
ghost use Rattle.sf_optimise.specs.Optimised.{keeps_form, HoldsPlan, HoldsPlans, IsOptimisedPlan, id_of_term};

use crate::making::{fanned_out, headed, in_parallel, on_a_side};
use crate::sequence::{in_loop, in_sequence};
use sf_check::Checked;
use sf_expr::ExprId;
use sf_law::{Plan, PlanId, TermPlans, empty_plan, plan_node};
use sf_term::{Heading, Join, Node, Program, TermId};
use std::alloc::{AllocError, Global};

/// The plan of an accepted network that laws make of it: it means what the network means, and costs no more.
pub fn optimise(alloc: Global, checked: &Checked) -> Result<Plan, AllocError>
    ensures { IfOk result (λ plan. IsOptimisedPlan checked.now plan) }
{
    let program = checked.program();
    let mut plan = empty_plan(alloc, program)?;
    let plans = rewritten_terms(alloc, &mut plan, program)?;
    let main = plan_or_passing(&plan, &plans, checked.main());
    let whole = plan.with_bodies(&plans).with_main(main);
    let listed = whole.with_mentions(alloc)?;
    Ok(listed)
}

// The plan of a term; where there is none, one that passes its inputs on.
fn plan_or_passing(plan: &Plan, plans: &[PlanId], term: TermId) -> PlanId
    ensures found { term_number term < length plans.now → result ≡ id_of_term plans.now term }
    ensures none { length plans.now ≤ term_number term → plan_tree plan.now result ≡ identity }
{
    match plans.get(term.number()) {
        Some(id) => *id,
        None => plan.passing(),
    }
}

// The plans of the terms of a program, in their order.
fn rewritten_terms(
    alloc: Global,
    plan: &mut Plan,
    program: &Program,
) -> Result<Vec<PlanId>, AllocError>
    requires { Extends (program_expressions program.now) (plan_expressions plan.old) }
    ensures plans { IfOk result (λ ids. HoldsPlans program.now plan.new ids.items) }
    ensures all { IfOk result (λ ids. length ids.items ≡ term_count program.now) }
    ensures grows { GrowsPlan plan.old plan.new }
{
    let mut plans = Vec::new(alloc);
    for number in 0..program.len() {
        let node = program.node(program.term(number));
        let id = rewritten(alloc, plan, &plans, program, node)?;
        plans.push(id)?;
    }
    Ok(plans)
}

// The plan of a node, of the plans of the terms before it.
fn rewritten(
    alloc: Global,
    plan: &mut Plan,
    plans: &[PlanId],
    program: &Program,
    node: Node,
) -> Result<PlanId, AllocError>
    requires kept { Extends (program_expressions program.now) (plan_expressions plan.old) }
    requires held { HoldsTermParts program.now node }
    requires below { TermPartsBelow program.now node (length plans.now) }
    requires plans { HoldsPlans program.now plan.old plans.now }
    ensures ok { IfOk result (λ a. HoldsPlan (term_of program.now node) plan.new a) }
    ensures grows { GrowsPlan plan.old plan.new }
{
    match node {
        Node::Joined(join, first, second) => {
            joined(
                alloc,
                plan,
                join,
                plan_of(plans, first),
                plan_of(plans, second),
            )
        }
        Node::Sided(side, part) => on_a_side(alloc, plan, side, plan_of(plans, part)),
        Node::Headed(heading, value, part) => {
            with_head(alloc, plan, heading, value, plan_of(plans, part))
        }
        Node::Primitive(_) | Node::Named(_, _, _) | Node::Call(_, _) => {
            of_its_form(alloc, plan, plans, program, node)
        }
        Node::Transformed(_, _) | Node::Switching(_) | Node::Continuation(_) => {
            of_its_form(alloc, plan, plans, program, node)
        }
        Node::Gathered(_) | Node::Releasing(_) | Node::Editing(_) => {
            of_its_form(alloc, plan, plans, program, node)
        }
    }
}

// The plan of a node that keeps its form: the same node, of the plans of its parts.
fn of_its_form(
    alloc: Global,
    plan: &mut Plan,
    plans: &[PlanId],
    program: &Program,
    node: Node,
) -> Result<PlanId, AllocError>
    requires keeps { keeps_form node ≡ true }
    requires kept { Extends (program_expressions program.now) (plan_expressions plan.old) }
    requires held { HoldsTermParts program.now node }
    requires below { TermPartsBelow program.now node (length plans.now) }
    requires plans { HoldsPlans program.now plan.old plans.now }
    ensures ok { IfOk result (λ a. HoldsPlan (term_of program.now node) plan.new a) }
    ensures grows { GrowsPlan plan.old plan.new }
{
    let terms = TermPlans::Listed(plans);
    let copy = plan_node(alloc, plan, program, terms, node)?;
    plan.add(copy)
}

// The plan of a term.
fn plan_of(plans: &[PlanId], term: TermId) -> PlanId
    requires { term_number term < length plans.now }
    ensures { result ≡ id_of_term plans.now term }
{
    plans[term.number()]
}

// Two terms joined.
fn joined(
    alloc: Global,
    plan: &mut Plan,
    join: Join,
    first: PlanId,
    second: PlanId,
) -> Result<PlanId, AllocError>
    requires first { IsNormal plan.old first }
    requires second { IsNormal plan.old second }
    ensures ok { IfOk result (λ a. MakesPlan (Trees.joined join (plan_tree plan.old first) (plan_tree plan.old second)) plan.new a) }
    ensures grows { GrowsPlan plan.old plan.new }
{
    match join {
        Join::InSequence => in_sequence(alloc, plan, first, second),
        Join::InParallel => in_parallel(alloc, plan, first, second),
        Join::FannedOut => fanned_out(alloc, plan, first, second),
    }
}

// A term with an expression at its head.
fn with_head(
    alloc: Global,
    plan: &mut Plan,
    heading: Heading,
    value: ExprId,
    part: PlanId,
) -> Result<PlanId, AllocError>
    requires part { IsNormal plan.old part }
    requires value { Holds (plan_expressions plan.old) value }
    ensures ok { IfOk result (λ a. MakesPlan (Trees.headed heading (plan_expression_at plan.old value) (plan_tree plan.old part)) plan.new a) }
    ensures grows { GrowsPlan plan.old plan.new }
{
    match heading {
        Heading::LoopPre => in_loop(alloc, plan, value, part),
        Heading::Initialized | Heading::Replaced | Heading::Followed => {
            headed(alloc, plan, heading, value, part)
        }
    }
}
