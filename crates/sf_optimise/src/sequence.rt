//! Terms of plans one after another, and fed back.
ghost use Rattle.std.specs.Prelude.{◌≡◌, ◌<◌, ◌≤◌, IfOk, IsTrue};
ghost use Rattle.sf_term.specs.Trees.{staged, whole};
ghost use Rattle.sf_rewrite.specs.Laws.{loop_pre, identity};
ghost use Rattle.sf_rewrite.specs.Normal.{is_stage};
ghost use Rattle.sf_expr.specs.Arena.{Holds};
ghost use Rattle.sf_law.specs.Arena.{plan_number, node_count, plan_tree, plan_expressions, plan_expression_at, plan_trees};
ghost use Rattle.sf_law.specs.Entries.{ids_end};
ghost use Rattle.sf_optimise.specs.Making.{GrowsPlan, IsNormal, MakesPlan, Merges, Meets, MeetsAs, MovesOut};
ghost use Rattle.sf_optimise.specs.Lists.{AreStages};

use crate::making::{
    chains_in, fused, headed, in_a_row, in_parallel, is_constant, is_identity, on_a_side, on_first,
    parallel_in, side_in, stages_in, two_stages,
};
use crate::quietness::{is_quiet, is_quiet_expression};
use sf_expr::ExprId;
use sf_law::{Plan, PlanChain, PlanId};
use sf_term::{Heading, Side};
use std::alloc::{AllocError, Global};

/// What two terms make, one after the other, by their forms.
#[derive(Clone, Copy, Debug, PartialEq, Eq)]
pub(crate) enum Meeting {
    /// Both on the same side of a pair: these on that side.
    Sides(Side, PlanId, PlanId),
    /// Both side by side: the first before the third, beside the second before the fourth.
    Exchange(PlanId, PlanId, PlanId, PlanId),
    /// A pipeline.
    Neighbours,
}

/// A term behind another.
pub(crate) fn in_sequence(
    alloc: Global,
    plan: &mut Plan,
    first: PlanId,
    second: PlanId,
) -> Result<PlanId, AllocError>
    requires first { IsNormal plan.old first }
    requires second { IsNormal plan.old second }
    ensures ok { IfOk result (λ a. MakesPlan (staged whole (plan_tree plan.old first) (plan_tree plan.old second)) plan.new a) }
    ensures grows { GrowsPlan plan.old plan.new }
{
    match how_they_meet(plan, first, second) {
        Meeting::Sides(side, f, g) => {
            let part = in_sequence(alloc, plan, f, g)?;
            on_a_side(alloc, plan, side, part)
        }
        Meeting::Exchange(f, g, h, k) => {
            let left = in_sequence(alloc, plan, f, h)?;
            let right = in_sequence(alloc, plan, g, k)?;
            in_parallel(alloc, plan, left, right)
        }
        Meeting::Neighbours => one_after_another(alloc, plan, first, second),
    }
}

// What two terms make.
#[tactic(auto, using(crate::specs::Making::as_neighbours, crate::proofs::Forms::on_same_side, crate::proofs::Forms::first_quiet, crate::proofs::Forms::second_quiet))]
fn how_they_meet(plan: &Plan, first: PlanId, second: PlanId) -> Meeting
    ensures { MeetsAs plan.now first second result }
{
    if let Some((side, f)) = side_in(plan, first) {
        if let Some((other, g)) = side_in(plan, second) {
            if side == other {
                return Meeting::Sides(side, f, g);
            }
        }
    }
    if let Some((f, g)) = parallel_in(plan, first) {
        if let Some((h, k)) = parallel_in(plan, second) {
            if is_quiet(plan, g) {
                return Meeting::Exchange(f, g, h, k);
            }
            if is_quiet(plan, h) {
                return Meeting::Exchange(f, g, h, k);
            }
        }
    }
    Meeting::Neighbours
}

// A term behind another, as a pipeline of the stages of both.
fn one_after_another(
    alloc: Global,
    plan: &mut Plan,
    first: PlanId,
    second: PlanId,
) -> Result<PlanId, AllocError>
    requires first { IsNormal plan.old first }
    requires second { IsNormal plan.old second }
    ensures ok { IfOk result (λ a. MakesPlan (staged whole (plan_tree plan.old first) (plan_tree plan.old second)) plan.new a) }
    ensures grows { GrowsPlan plan.old plan.new }
{
    if is_identity(plan, first) {
        return Ok(second);
    }
    if is_identity(plan, second) {
        return Ok(first);
    }
    let mut stages = stages_in(alloc, plan, first)?;
    let behind = stages_in(alloc, plan, second)?;
    let head = met(alloc, plan, &mut stages, behind[0])?;
    stages.push(head)?;
    stages.extend_from_slice(&behind[1..])?;
    in_a_row(plan, stages)
}

// A stage behind others, of which those that become one with it are taken away.
fn met(
    alloc: Global,
    plan: &mut Plan,
    stages: &mut Vec<PlanId>,
    stage: PlanId,
) -> Result<PlanId, AllocError>
    requires stages { AreStages (plan_trees plan.old stages.old.items) }
    requires held { ids_end stages.old.items ≤ node_count plan.old }
    requires stage { IsNormal plan.old stage }
    requires is_stage { IsTrue (is_stage (plan_tree plan.old stage)) }
    ensures ok { IfOk result (λ a. Meets (plan_trees plan.old stages.old.items) (plan_tree plan.old stage) (plan_trees plan.new stages.new.items) (plan_tree plan.new a)) }
    ensures held { IfOk result (λ a. (plan_number a < node_count plan.new) × (ids_end stages.new.items ≤ node_count plan.new)) }
    ensures grows { GrowsPlan plan.old plan.new }
{
    let mut head = stage;
    while let Some(last) = stages.pop() {
        match merged(alloc, plan, last, head)? {
            Some(both) => head = both,
            None => {
                stages.push(last)?;
                return Ok(head);
            }
        }
    }
    Ok(head)
}

// What two neighbours become, if they become one.
fn merged(
    alloc: Global,
    plan: &mut Plan,
    first: PlanId,
    second: PlanId,
) -> Result<Option<PlanId>, AllocError>
    requires { IsNormal plan.old second }
    ensures ok { IfOk result (λ o. Merges (plan_tree plan.old first) (plan_tree plan.old second) plan.new o) }
    ensures grows { GrowsPlan plan.old plan.new }
{
    if is_constant(plan, second) && is_quiet(plan, first) {
        return Ok(Some(second));
    }
    match chains_in(alloc, plan, first, second)? {
        Some((f, g)) => Ok(Some(fused(alloc, plan, PlanChain::Chained(f, g))?)),
        None => Ok(None),
    }
}

/// `loopPre` of a term.
pub(crate) fn in_loop(
    alloc: Global,
    plan: &mut Plan,
    value: ExprId,
    part: PlanId,
) -> Result<PlanId, AllocError>
    requires part { IsNormal plan.old part }
    requires value { Holds (plan_expressions plan.old) value }
    ensures ok { IfOk result (λ a. MakesPlan (loop_pre (plan_expression_at plan.old value) (plan_tree plan.old part)) plan.new a) }
    ensures grows { GrowsPlan plan.old plan.new }
{
    if let Some((before, behind)) = two_stages(plan, part) {
        if let Some(out) = on_first(plan, behind) {
            let inner = headed(alloc, plan, Heading::LoopPre, value, before)?;
            return in_sequence(alloc, plan, inner, out);
        }
        if let Some(out) = on_first(plan, before) {
            if moves_out(plan, value, out) {
                let inner = headed(alloc, plan, Heading::LoopPre, value, behind)?;
                return in_sequence(alloc, plan, out, inner);
            }
        }
    }
    headed(alloc, plan, Heading::LoopPre, value, part)
}

// Whether a part comes before a constant as well as behind it: one of the two is quiet.
#[tactic(auto, using(crate::proofs::Looped::value_moves, crate::proofs::Looped::part_moves))]
fn moves_out(plan: &Plan, value: ExprId, part: PlanId) -> bool
    requires { Holds (plan_expressions plan.now) value }
    ensures { IsTrue result → MovesOut (plan_expression_at plan.now value) (plan_tree plan.now part) }
{
    if is_quiet_expression(plan.expressions(), value) {
        return true;
    }
    is_quiet(plan, part)
}
