//! Collections of a program, as those of its plans.
ghost use Rattle.std.specs.Prelude.{◌≡◌, IfOk, IsTrue, List};
ghost use Rattle.sf_term.specs.declared.node.Node.TheVariants.{Gathered as gathered_node, Releasing as releasing_node, Editing as editing_node};
ghost use Rattle.sf_expr.specs.Arena.{Extends};
ghost use Rattle.sf_term.specs.Arena.{collection_node, program_expressions, HoldsTermParts, HoldsWhole};
ghost use Rattle.sf_law.specs.Headers.{PlanHeader};
ghost use Rattle.sf_law.specs.Held.{HoldsCoded, HoldsBeside};
ghost use Rattle.sf_law.specs.Entries.{IsCoded, IsCodedCollection, calls_first};
ghost use Rattle.sf_law.specs.Copies.{stands_under, CopiesCollection, CopiesNode};

use crate::node::{PlanCollection, PlanEditing, PlanId, PlanNode, PlanReleasing};
use sf_code::{expression_code, function_code};
use sf_expr::Exprs;
use sf_term::{CollExpr, CollectionId, Editing, Program, Releasing, TermId};
use std::alloc::{AllocError, Global};
use std::rc::Rc;

/// Where the terms of a program stand in a plan.
#[derive(Clone, Copy)]
pub enum TermPlans<'a> {
    /// Each under the id of its own number.
    AsNumbered,
    /// Each under the id at its number.
    Listed(&'a [PlanId]),
}

impl<'a> TermPlans<'a> {
    /// The id under which a term stands; the first one where none is listed for it.
    pub fn id(self, term: TermId) -> PlanId
        ensures { result ≡ stands_under self.entry term }
    {
        match self {
            TermPlans::AsNumbered => PlanId(term.number()),
            TermPlans::Listed(plans) => match plans.get(term.number()) {
                Some(id) => *id,
                None => PlanId(0),
            },
        }
    }
}

/// The members of a collection, where its terms stand in a plan, with their code.
pub(crate) fn plan_gathered(
    alloc: Global,
    exprs: &Exprs,
    program: &Program,
    terms: TermPlans,
    members: CollectionId,
) -> Result<PlanNode, AllocError>
    requires kept { Extends (program_expressions program.now) exprs.now }
    requires held { HoldsTermParts program.now (gathered_node members) }
    ensures same { IfOk result (λ copy. CopiesNode program.now (stands_under terms.entry) (gathered_node members) copy) }
    ensures coded { IfOk result (λ copy. IsCoded exprs.now copy) }
    ensures called { IfOk result (λ copy. (x : Exprs) (headers : List PlanHeader) → IsTrue (calls_first x headers copy)) }
    ensures beside { IfOk result (λ copy. (x : Exprs) → HoldsBeside x copy) }
{
    let members = plan_members(alloc, exprs, program, terms, members)?;
    Ok(PlanNode::Gathered(members))
}

/// Members with their observer and the body that takes over, likewise.
pub(crate) fn plan_releasing(
    alloc: Global,
    exprs: &Exprs,
    program: &Program,
    terms: TermPlans,
    node: Releasing,
) -> Result<PlanNode, AllocError>
    requires kept { Extends (program_expressions program.now) exprs.now }
    requires held { HoldsTermParts program.now (releasing_node node) }
    ensures same { IfOk result (λ copy. CopiesNode program.now (stands_under terms.entry) (releasing_node node) copy) }
    ensures coded { IfOk result (λ copy. IsCoded exprs.now copy) }
    ensures called { IfOk result (λ copy. (x : Exprs) (headers : List PlanHeader) → IsTrue (calls_first x headers copy)) }
    ensures beside { IfOk result (λ copy. (x : Exprs) → HoldsBeside x copy) }
{
    let members = plan_members(alloc, exprs, program, terms, node.members)?;
    let observer = terms.id(node.observer);
    let body = terms.id(node.body);
    Ok(PlanNode::Releasing(PlanReleasing {
        shown: node.shown,
        members,
        observer,
        name: node.name,
        pattern: node.pattern,
        body,
    }))
}

/// Members and what edits them, likewise.
pub(crate) fn plan_editing(
    alloc: Global,
    exprs: &Exprs,
    program: &Program,
    terms: TermPlans,
    node: Editing,
) -> Result<PlanNode, AllocError>
    requires kept { Extends (program_expressions program.now) exprs.now }
    requires held { HoldsTermParts program.now (editing_node node) }
    ensures same { IfOk result (λ copy. CopiesNode program.now (stands_under terms.entry) (editing_node node) copy) }
    ensures coded { IfOk result (λ copy. IsCoded exprs.now copy) }
    ensures called { IfOk result (λ copy. (x : Exprs) (headers : List PlanHeader) → IsTrue (calls_first x headers copy)) }
    ensures beside { IfOk result (λ copy. (x : Exprs) → HoldsBeside x copy) }
{
    let members = plan_members(alloc, exprs, program, terms, node.members)?;
    let edit = plan_members(alloc, exprs, program, terms, node.edit)?;
    Ok(PlanNode::Editing(PlanEditing {
        shown: node.shown,
        members,
        name: node.name,
        pattern: node.pattern,
        edit,
    }))
}

/// The collection at an id, with the ids under which its terms stand in a plan, and with its code.
#[tactic(auto, using(crate::proofs::Held::collection_coded))]
pub(crate) fn plan_members(
    alloc: Global,
    exprs: &Exprs,
    program: &Program,
    terms: TermPlans,
    members: CollectionId,
) -> Result<Rc<PlanCollection>, AllocError>
    requires kept { Extends (program_expressions program.now) exprs.now }
    requires held { HoldsWhole program.now members }
    ensures same { IfOk result (λ copy. CopiesCollection (stands_under terms.entry) (collection_node program.now members) copy.value) }
    ensures coded { IfOk result (λ copy. IsCodedCollection exprs.now copy.value) }
{
    plan_collection(alloc, exprs, terms, program.collection(members))
}

// A collection with those ids, and with its code.
fn plan_collection(
    alloc: Global,
    exprs: &Exprs,
    terms: TermPlans,
    collection: &CollExpr,
) -> Result<Rc<PlanCollection>, AllocError>
    requires { HoldsCoded exprs.now collection.now }
    ensures same { IfOk result (λ copy. CopiesCollection (stands_under terms.entry) collection.now copy.value) }
    ensures coded { IfOk result (λ copy. IsCodedCollection exprs.now copy.value) }
{
    match collection {
        CollExpr::Empty(keys, output, _) => {
            let output = output.clone_in(alloc)?;
            shared(alloc, PlanCollection::Empty(*keys, output))
        }
        CollExpr::Used(name, _, _) => shared(alloc, PlanCollection::Used(*name)),
        CollExpr::Added(members, key, term, _) => {
            let others = plan_collection(alloc, exprs, terms, members)?;
            let code = expression_code(alloc, exprs, *key)?;
            let term = terms.id(*term);
            shared(alloc, PlanCollection::Added(others, *key, code, term))
        }
        CollExpr::Dropped(members, key, _) => {
            let all = plan_collection(alloc, exprs, terms, members)?;
            let code = expression_code(alloc, exprs, *key)?;
            shared(alloc, PlanCollection::Dropped(all, *key, code))
        }
        CollExpr::Kept(members, function, _) => {
            let all = plan_collection(alloc, exprs, terms, members)?;
            let code = function_code(alloc, exprs, *function)?;
            shared(alloc, PlanCollection::Kept(all, *function, code))
        }
        CollExpr::Chosen(condition, first, second, _) => {
            let code = expression_code(alloc, exprs, *condition)?;
            let first = plan_collection(alloc, exprs, terms, first)?;
            let second = plan_collection(alloc, exprs, terms, second)?;
            shared(
                alloc,
                PlanCollection::Chosen(*condition, code, first, second),
            )
        }
    }
}

// A collection, to be shared.
fn shared(alloc: Global, collection: PlanCollection) -> Result<Rc<PlanCollection>, AllocError>
    ensures { IfOk result (λ rc. rc.value ≡ collection) }
{
    Ok(Rc::new(alloc, collection)?)
}
