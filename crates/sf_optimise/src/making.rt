//! Terms of plans that are made of others: `arr` of `arr` is made into one.
ghost use Rattle.std.specs.Prelude.{◌≡◌, ◌<◌, ◌≤◌, false, IfOk, IfSome, IsTrue, vec_len};
ghost use Rattle.sf_rewrite.specs.Normal.{IsPlan};
ghost use Rattle.sf_term.specs.declared.form.Join.TheVariants.{InParallel, FannedOut};
ghost use Rattle.sf_term.specs.declared.form.Side.TheVariants.{First};
ghost use Rattle.sf_term.specs.Trees.{joined, sided, staged, whole};
ghost use Rattle.sf_term.specs.Trees;
ghost use Rattle.sf_rewrite.specs.Laws.{arr};
ghost use Rattle.sf_expr.specs.Arena.{Holds};
ghost use Rattle.sf_law.specs.Held.{HoldsChain, HoldsPlanned};
ghost use Rattle.sf_law.specs.Arena.{plan_number, node_count, plan_tree, plan_expressions, plan_expression_at, plan_trees};
ghost use Rattle.sf_law.specs.Entries.{chain_over, pipeline, primitive_over, IsCodedPrimitive, IsCodedChain, ids_end};
ghost use Rattle.sf_optimise.specs.Lists.{is_identity_term, AreStages};
ghost use Rattle.sf_optimise.specs.Making.{GrowsPlan, HoldsTree, IsNormal, MakesPlan, TermChain, ChainsIn, IsConstant};

use sf_code::expression_code;
use sf_expr::{ExprId, Exprs};
use sf_law::{Plan, PlanChain, PlanId, PlanNode, PlanPrimitive};
use sf_term::{Bare, Heading, Join, Side, WithValue};
use std::alloc::{AllocError, Global};
use std::rc::Rc;

/// A term on one part of a pair.
pub(crate) fn on_a_side(
    alloc: Global,
    plan: &mut Plan,
    side: Side,
    part: PlanId,
) -> Result<PlanId, AllocError>
    requires { IsNormal plan.old part }
    ensures ok { IfOk result (λ a. MakesPlan (sided side (plan_tree plan.old part)) plan.new a) }
    ensures grows { GrowsPlan plan.old plan.new }
{
    match chain_in(alloc, plan, part)? {
        Some(chain) => fused(alloc, plan, PlanChain::OnSide(side, chain)),
        None => plan.add(PlanNode::Sided(side, part)),
    }
}

/// Two terms, each on its part of a pair.
pub(crate) fn in_parallel(
    alloc: Global,
    plan: &mut Plan,
    first: PlanId,
    second: PlanId,
) -> Result<PlanId, AllocError>
    requires first { IsNormal plan.old first }
    requires second { IsNormal plan.old second }
    ensures ok { IfOk result (λ a. MakesPlan (joined InParallel (plan_tree plan.old first) (plan_tree plan.old second)) plan.new a) }
    ensures grows { GrowsPlan plan.old plan.new }
{
    match chains_in(alloc, plan, first, second)? {
        Some((f, g)) => fused(alloc, plan, PlanChain::OnBoth(f, g)),
        None => plan.add(PlanNode::Joined(Join::InParallel, first, second)),
    }
}

/// Two terms, both on the input.
pub(crate) fn fanned_out(
    alloc: Global,
    plan: &mut Plan,
    first: PlanId,
    second: PlanId,
) -> Result<PlanId, AllocError>
    requires first { IsNormal plan.old first }
    requires second { IsNormal plan.old second }
    ensures ok { IfOk result (λ a. MakesPlan (joined FannedOut (plan_tree plan.old first) (plan_tree plan.old second)) plan.new a) }
    ensures grows { GrowsPlan plan.old plan.new }
{
    match chains_in(alloc, plan, first, second)? {
        Some((f, g)) => fused(alloc, plan, PlanChain::Fanned(f, g)),
        None => plan.add(PlanNode::Joined(Join::FannedOut, first, second)),
    }
}

/// A term with an expression at its head.
pub(crate) fn headed(
    alloc: Global,
    plan: &mut Plan,
    heading: Heading,
    value: ExprId,
    part: PlanId,
) -> Result<PlanId, AllocError>
    requires part { plan_number part < node_count plan.old }
    requires value { Holds (plan_expressions plan.old) value }
    ensures ok { IfOk result (λ a. HoldsTree (Trees.headed heading (plan_expression_at plan.old value) (plan_tree plan.old part)) plan.new a) }
    ensures grows { GrowsPlan plan.old plan.new }
{
    let code = expression_code(alloc, plan.expressions(), value)?;
    plan.add(PlanNode::Headed(heading, value, code, part))
}

/// The functions of a term, where it is `arr`.
#[tactic(auto, using(crate::specs::Making::no_chain))]
fn chain_in(alloc: Global, plan: &Plan, id: PlanId) -> Result<Option<Rc<PlanChain>>, AllocError>
    ensures { IfOk result (λ o. TermChain (plan_expressions plan.now) (plan_tree plan.now id) o) }
{
    match plan.node(id) {
        PlanNode::Primitive(primitive) => chain_of(alloc, primitive),
        PlanNode::Started(_, _) | PlanNode::Probe(_) | PlanNode::Call(_, _, _) => Ok(None),
        PlanNode::Joined(_, _, _) | PlanNode::Sided(_, _) => Ok(None),
        PlanNode::Headed(_, _, _, _) | PlanNode::Transformed(_, _, _) => Ok(None),
        PlanNode::Pipeline(_) => Ok(None),
        PlanNode::Switching(_) | PlanNode::Continuation(_) => Ok(None),
        PlanNode::Gathered(_) | PlanNode::Releasing(_) | PlanNode::Editing(_) => Ok(None),
    }
}

// The functions of a primitive.
#[tactic(auto, using(crate::specs::Making::no_chain))]
fn chain_of(alloc: Global, primitive: &PlanPrimitive) -> Result<Option<Rc<PlanChain>>, AllocError>
    ensures { (x : Exprs) → IsCodedPrimitive x primitive.now → HoldsPlanned x primitive.now → IfOk result (λ o. TermChain x (Trees.primitive (primitive_over x primitive.now)) o) }
{
    match primitive {
        PlanPrimitive::Arrow(function, code) => {
            let same = code.clone()?;
            let chain = PlanChain::Lone(*function, same);
            Ok(Some(Rc::new(alloc, chain)?))
        }
        PlanPrimitive::Fused(chain) => Ok(Some(chain.clone()?)),
        PlanPrimitive::Bare(_) | PlanPrimitive::Never(_) => Ok(None),
        PlanPrimitive::Selected(_, _) => Ok(None),
        PlanPrimitive::WithValue(_, _, _) | PlanPrimitive::Timed(_, _, _, _) => Ok(None),
        PlanPrimitive::Accumulated(_, _, _, _, _) => Ok(None),
    }
}

/// The functions of two neighbours, where both are `arr`.
#[tactic(auto, using(crate::proofs::Chains::both_arr, crate::proofs::Chains::first_no_arr, crate::proofs::Chains::second_no_arr))]
pub(crate) fn chains_in(
    alloc: Global,
    plan: &Plan,
    first: PlanId,
    second: PlanId,
) -> Result<Option<(Rc<PlanChain>, Rc<PlanChain>)>, AllocError>
    ensures { IfOk result (λ o. ChainsIn (plan_expressions plan.now) (plan_tree plan.now first) (plan_tree plan.now second) o) }
{
    let Some(f) = chain_in(alloc, plan, first)? else {
        return Ok(None);
    };
    match chain_in(alloc, plan, second)? {
        Some(g) => Ok(Some((f, g))),
        None => Ok(None),
    }
}

/// `arr` of functions that are made into one.
pub(crate) fn fused(alloc: Global, plan: &mut Plan, chain: PlanChain) -> Result<PlanId, AllocError>
    requires coded { IsCodedChain (plan_expressions plan.old) chain }
    requires held { HoldsChain (plan_expressions plan.old) chain }
    ensures ok { IfOk result (λ a. HoldsTree (arr (chain_over (plan_expressions plan.old) chain)) plan.new a) }
    ensures grows { GrowsPlan plan.old plan.new }
{
    let shared = Rc::new(alloc, chain)?;
    plan.add(PlanNode::Primitive(PlanPrimitive::Fused(shared)))
}

/// Stages as one term: the only one, or a pipeline.
pub(crate) fn in_a_row(plan: &mut Plan, stages: Vec<PlanId>) -> Result<PlanId, AllocError>
    requires some { 0 < vec_len stages }
    requires held { ids_end stages.items ≤ node_count plan.old }
    ensures ok { IfOk result (λ a. HoldsTree (pipeline (plan_trees plan.old stages.items)) plan.new a) }
    ensures grows { GrowsPlan plan.old plan.new }
{
    if stages.len() == 1 {
        return Ok(stages[0]);
    }
    plan.add(PlanNode::Pipeline(stages))
}

/// The stages of a term that is not the identity: those of a pipeline, or itself.
pub(crate) fn stages_in(alloc: Global, plan: &Plan, id: PlanId) -> Result<Vec<PlanId>, AllocError>
    requires { is_identity_term (plan_tree plan.now id) ≡ false }
    ensures is { IfOk result (λ v. pipeline (plan_trees plan.now v.items) ≡ plan_tree plan.now id) }
    ensures held { plan_number id < node_count plan.now → IfOk result (λ v. ids_end v.items ≤ node_count plan.now) }
    ensures some { IfOk result (λ v. 0 < vec_len v) }
    ensures stages { IsPlan (plan_tree plan.now id) → IfOk result (λ v. AreStages (plan_trees plan.now v.items)) }
{
    let mut stages = Vec::new(alloc);
    if let PlanNode::Pipeline(others) = plan.node(id) {
        stages.extend_from_slice(others)?;
        return Ok(stages);
    }
    stages.push(id)?;
    Ok(stages)
}

/// Whether a term is the identity.
pub(crate) fn is_identity(plan: &Plan, id: PlanId) -> bool
    ensures { result ≡ is_identity_term (plan_tree plan.now id) }
{
    match plan.node(id) {
        PlanNode::Primitive(PlanPrimitive::Bare(form)) => matches!(*form, Bare::Identity),
        PlanNode::Primitive(_) | PlanNode::Probe(_) => false,
        PlanNode::Started(_, _) | PlanNode::Call(_, _, _) => false,
        PlanNode::Joined(_, _, _) | PlanNode::Sided(_, _) => false,
        PlanNode::Headed(_, _, _, _) | PlanNode::Transformed(_, _, _) => false,
        PlanNode::Pipeline(_) => false,
        PlanNode::Switching(_) | PlanNode::Continuation(_) => false,
        PlanNode::Gathered(_) | PlanNode::Releasing(_) | PlanNode::Editing(_) => false,
    }
}

/// Whether a term is `constant` of an expression.
pub(crate) fn is_constant(plan: &Plan, id: PlanId) -> bool
    ensures { IsTrue result → IsConstant (plan_tree plan.now id) }
{
    match plan.node(id) {
        PlanNode::Primitive(PlanPrimitive::WithValue(WithValue::Constant, _, _)) => true,
        _ => false,
    }
}

/// The two stages of a pipeline that has no more.
pub(crate) fn two_stages(plan: &Plan, id: PlanId) -> Option<(PlanId, PlanId)>
    ensures { IfSome result (λ s. (plan_tree plan.now id ≡ staged whole (plan_tree plan.now s.0) (plan_tree plan.now s.1)) × (plan_number s.0 < plan_number id) × (plan_number s.1 < plan_number id)) }
{
    match plan.node(id) {
        PlanNode::Pipeline(stages) if stages.len() == 2 => Some((stages[0], stages[1])),
        _ => None,
    }
}

/// The part of `first`.
pub(crate) fn on_first(plan: &Plan, id: PlanId) -> Option<PlanId>
    ensures { IfSome result (λ a. (plan_tree plan.now id ≡ sided First (plan_tree plan.now a)) × (plan_number a < plan_number id)) }
{
    match plan.node(id) {
        PlanNode::Sided(Side::First, part) => Some(*part),
        _ => None,
    }
}

/// The side of a form on one part of a pair, and its part.
pub(crate) fn side_in(plan: &Plan, id: PlanId) -> Option<(Side, PlanId)>
    ensures { IfSome result (λ s. (plan_tree plan.now id ≡ sided s.0 (plan_tree plan.now s.1)) × (plan_number s.1 < plan_number id)) }
{
    match plan.node(id) {
        PlanNode::Sided(side, part) => Some((*side, *part)),
        _ => None,
    }
}

/// The two parts of `***`.
pub(crate) fn parallel_in(plan: &Plan, id: PlanId) -> Option<(PlanId, PlanId)>
    ensures { IfSome result (λ s. (plan_tree plan.now id ≡ joined InParallel (plan_tree plan.now s.0) (plan_tree plan.now s.1)) × (plan_number s.0 < plan_number id) × (plan_number s.1 < plan_number id)) }
{
    match plan.node(id) {
        PlanNode::Joined(join, first, second) if *join == Join::InParallel => {
            Some((*first, *second))
        }
        _ => None,
    }
}
