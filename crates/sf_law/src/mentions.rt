//! What each term of a plan mentions.
ghost use Rattle.std.specs.Prelude.{◌≤◌, length, All, IfOk, OnOk, IsTrue};
ghost use Rattle.sf_value.specs.Values.{Name};
ghost use Rattle.sf_term.specs.Trees.{Term};
ghost use Rattle.sf_coincidence.specs.Mentions.{BindsOthers, PrimitiveMentions, ChainMentions, ArgumentsMention, CollectionMentions};
ghost use Rattle.sf_law.specs.declared.node.PlanId as plan_ids;
ghost use Rattle.sf_law.specs.declared.node.PlanNode.TheVariants.{Releasing as releasing_node, Editing as editing_node};
ghost use Rattle.sf_law.specs.Arena.{plan_tree, plan_expressions, plan_arguments, plan_collection, plan_trees, node_count, BuildsPlan};
ghost use Rattle.sf_law.specs.Entries.{IsCodedChain, IsCodedPrimitive, IsCodedArgument, IsCodedCollection, chain_over, primitive_over, pipeline};
ghost use Rattle.sf_law.specs.Mentioning.{ArgumentMentions};
ghost use Rattle.sf_law.specs.Mentioned.{is_mentioned, bound_pattern, mentioned_at, HasAll, Covers};

use crate::mentioned::{Binder, Mentioned};
use crate::node::{
    PlanArgument, PlanChain, PlanCollection, PlanEditing, PlanId, PlanNode, PlanPrimitive,
    PlanReleasing,
};
use crate::plan::Plan;
use std::alloc::{AllocError, Global};

/// The names that each term of a plan mentions, by its number.
pub(crate) fn mentions_of(alloc: Global, plan: &Plan) -> Result<Vec<Mentioned>, AllocError>
    ensures count { IfOk result (λ lists. length lists.items ≤ node_count plan.now) }
    ensures covered { IfOk result (λ lists. (a : plan_ids.PlanId) → Covers (plan_expressions plan.now) (mentioned_at lists.items a.0) (plan_tree plan.now a)) }
{
    let mut lists = Vec::with_capacity(alloc, plan.count())?;
    for number in 0..plan.count() {
        let mut mentioned = Mentioned::nothing(alloc);
        mentioned.add_node(alloc, plan, &lists, plan.node(PlanId(number)))?;
        lists.push(mentioned)?;
    }
    Ok(lists)
}

impl Mentioned {
    // Adds what a node mentions, where the lists are those of terms.
    fn add_node(
        &mut self,
        alloc: Global,
        plan: &Plan,
        lists: &[Mentioned],
        node: &PlanNode,
    ) -> Result<(), AllocError>
        requires { (a : plan_ids.PlanId) → Covers (plan_expressions plan.now) (mentioned_at lists.now a.0) (plan_tree plan.now a) }
        ensures { (t : Term) → BuildsPlan plan.now node.now t → OnOk result (Covers (plan_expressions plan.now) self.new t) }
    {
        match node {
            PlanNode::Primitive(primitive) => self.add_primitive(plan, primitive),
            PlanNode::Started(_, name) => self.add(plan, *name),
            PlanNode::Probe(_) => Ok(()),
            PlanNode::Call(_, _, arguments) => self.add_arguments(plan, lists, arguments),
            PlanNode::Joined(_, first, second) => {
                self.add_part(plan, lists, *first)?;
                self.add_part(plan, lists, *second)
            }
            PlanNode::Sided(_, part) => self.add_part(plan, lists, *part),
            PlanNode::Headed(_, _, code, part) => {
                self.add_code(plan, code)?;
                self.add_part(plan, lists, *part)
            }
            PlanNode::Transformed(_, code, part) => {
                self.add_code(plan, code)?;
                self.add_part(plan, lists, *part)
            }
            PlanNode::Switching(form) => {
                self.add_part(plan, lists, form.source)?;
                let binder = Binder::Pattern(form.pattern);
                self.add_body(alloc, plan, lists, form.body, binder)
            }
            PlanNode::Continuation(form) => {
                self.add_part(plan, lists, form.source)?;
                self.add_part(plan, lists, form.observer)?;
                let binder = Binder::Both(form.name, form.pattern);
                self.add_body(alloc, plan, lists, form.body, binder)
            }
            PlanNode::Gathered(members) => self.add_collection(plan, lists, members),
            PlanNode::Releasing(releasing) => self.add_releasing(alloc, plan, lists, releasing),
            PlanNode::Editing(editing) => self.add_editing(alloc, plan, lists, editing),
            PlanNode::Pipeline(stages) => self.add_parts(plan, lists, stages),
        }
    }

    // Adds what members, their observer and the body that takes over mention.
    fn add_releasing(
        &mut self,
        alloc: Global,
        plan: &Plan,
        lists: &[Mentioned],
        releasing: &PlanReleasing,
    ) -> Result<(), AllocError>
        requires { (a : plan_ids.PlanId) → Covers (plan_expressions plan.now) (mentioned_at lists.now a.0) (plan_tree plan.now a) }
        ensures { (t : Term) → BuildsPlan plan.now (releasing_node releasing.now) t → OnOk result (Covers (plan_expressions plan.now) self.new t) }
    {
        let binder = Binder::Both(releasing.name, releasing.pattern);
        self.add_collection(plan, lists, &releasing.members)?;
        self.add_part(plan, lists, releasing.observer)?;
        self.add_body(alloc, plan, lists, releasing.body, binder)
    }

    // Adds what members and what they become mention.
    fn add_editing(
        &mut self,
        alloc: Global,
        plan: &Plan,
        lists: &[Mentioned],
        editing: &PlanEditing,
    ) -> Result<(), AllocError>
        requires { (a : plan_ids.PlanId) → Covers (plan_expressions plan.now) (mentioned_at lists.now a.0) (plan_tree plan.now a) }
        ensures { (t : Term) → BuildsPlan plan.now (editing_node editing.now) t → OnOk result (Covers (plan_expressions plan.now) self.new t) }
    {
        let binder = Binder::Both(editing.name, editing.pattern);
        self.add_collection(plan, lists, &editing.members)?;
        let mut within = Mentioned::nothing(alloc);
        within.add_collection(plan, lists, &editing.edit)?;
        let left = within.outside(alloc, plan, binder)?;
        self.add_all(plan, &left)
    }

    // Adds what a collection mentions.
    fn add_collection(
        &mut self,
        plan: &Plan,
        lists: &[Mentioned],
        collection: &PlanCollection,
    ) -> Result<(), AllocError>
        requires { (a : plan_ids.PlanId) → Covers (plan_expressions plan.now) (mentioned_at lists.now a.0) (plan_tree plan.now a) }
        ensures kept { OnOk result (HasAll (plan_expressions plan.now) self.old self.new) }
        ensures added { IsCodedCollection (plan_expressions plan.now) collection.now → OnOk result ((x : Name) → CollectionMentions (plan_collection plan.now collection.now) x → IsTrue (is_mentioned (plan_expressions plan.now) self.new x)) }
    {
        match collection {
            PlanCollection::Empty(_, _) => Ok(()),
            PlanCollection::Used(name) => self.add(plan, *name),
            PlanCollection::Added(members, _, code, term) => {
                self.add_collection(plan, lists, members)?;
                self.add_code(plan, code)?;
                self.add_part(plan, lists, *term)
            }
            PlanCollection::Dropped(members, _, code) => {
                self.add_collection(plan, lists, members)?;
                self.add_code(plan, code)
            }
            PlanCollection::Kept(members, _, code) => {
                self.add_collection(plan, lists, members)?;
                self.add_code(plan, code)
            }
            PlanCollection::Chosen(_, code, first, second) => {
                self.add_code(plan, code)?;
                self.add_collection(plan, lists, first)?;
                self.add_collection(plan, lists, second)
            }
        }
    }

    // Adds what a body mentions that isn't bound there.
    fn add_body(
        &mut self,
        alloc: Global,
        plan: &Plan,
        lists: &[Mentioned],
        body: PlanId,
        binder: Binder,
    ) -> Result<(), AllocError>
        ensures kept { OnOk result (HasAll (plan_expressions plan.now) self.old self.new) }
        ensures added { OnOk result ((x : Name) → IsTrue (is_mentioned (plan_expressions plan.now) (mentioned_at lists.now body.0) x) → BindsOthers (bound_pattern (plan_expressions plan.now) binder) x → IsTrue (is_mentioned (plan_expressions plan.now) self.new x)) }
    {
        match lists.get(body.0) {
            Some(mentioned) => {
                let left = mentioned.outside(alloc, plan, binder)?;
                self.add_all(plan, &left)
            }
            None => {
                *self = Mentioned::Any;
                Ok(())
            }
        }
    }

    // Adds what a term mentions.
    fn add_part(&mut self, plan: &Plan, lists: &[Mentioned], part: PlanId) -> Result<(), AllocError>
        ensures kept { OnOk result (HasAll (plan_expressions plan.now) self.old self.new) }
        ensures added { OnOk result (HasAll (plan_expressions plan.now) (mentioned_at lists.now part.0) self.new) }
    {
        match lists.get(part.0) {
            Some(mentioned) => self.add_all(plan, mentioned),
            None => {
                *self = Mentioned::Any;
                Ok(())
            }
        }
    }

    // Adds what stages mention.
    fn add_parts(
        &mut self,
        plan: &Plan,
        lists: &[Mentioned],
        stages: &[PlanId],
    ) -> Result<(), AllocError>
        requires { (a : plan_ids.PlanId) → Covers (plan_expressions plan.now) (mentioned_at lists.now a.0) (plan_tree plan.now a) }
        ensures { OnOk result (Covers (plan_expressions plan.now) self.new (pipeline (plan_trees plan.now stages.now))) }
    {
        let mut rest = stages;
        while let [first, behind @ ..] = rest {
            self.add_part(plan, lists, *first)?;
            rest = behind;
        }
        Ok(())
    }

    // Adds what arguments mention.
    fn add_arguments(
        &mut self,
        plan: &Plan,
        lists: &[Mentioned],
        arguments: &[PlanArgument],
    ) -> Result<(), AllocError>
        requires { (a : plan_ids.PlanId) → Covers (plan_expressions plan.now) (mentioned_at lists.now a.0) (plan_tree plan.now a) }
        ensures { All (IsCodedArgument (plan_expressions plan.now)) arguments.now → OnOk result ((x : Name) → ArgumentsMention (plan_arguments plan.now arguments.now) x → IsTrue (is_mentioned (plan_expressions plan.now) self.new x)) }
    {
        let mut rest = arguments;
        while let [first, behind @ ..] = rest {
            self.add_argument(plan, lists, first)?;
            rest = behind;
        }
        Ok(())
    }

    // Adds what an argument mentions.
    fn add_argument(
        &mut self,
        plan: &Plan,
        lists: &[Mentioned],
        argument: &PlanArgument,
    ) -> Result<(), AllocError>
        requires { (a : plan_ids.PlanId) → Covers (plan_expressions plan.now) (mentioned_at lists.now a.0) (plan_tree plan.now a) }
        ensures kept { OnOk result (HasAll (plan_expressions plan.now) self.old self.new) }
        ensures added { IsCodedArgument (plan_expressions plan.now) argument.now → OnOk result ((x : Name) → ArgumentMentions plan.now argument.now x → IsTrue (is_mentioned (plan_expressions plan.now) self.new x)) }
    {
        match argument {
            PlanArgument::Value(_, code) => self.add_code(plan, code),
            PlanArgument::Started(_, name) => { self.add(plan, *name) }
            PlanArgument::Closed(term) => self.add_part(plan, lists, *term),
            PlanArgument::Collected(members) => self.add_collection(plan, lists, members),
        }
    }

    // Adds what a primitive mentions.
    fn add_primitive(&mut self, plan: &Plan, primitive: &PlanPrimitive) -> Result<(), AllocError>
        ensures { IsCodedPrimitive (plan_expressions plan.now) primitive.now → OnOk result ((y : Name) → PrimitiveMentions (primitive_over (plan_expressions plan.now) primitive.now) y → IsTrue (is_mentioned (plan_expressions plan.now) self.new y)) }
    {
        match primitive {
            PlanPrimitive::Bare(_) | PlanPrimitive::Never(_) => Ok(()),
            PlanPrimitive::Selected(_, _) => Ok(()),
            PlanPrimitive::WithValue(_, _, code) | PlanPrimitive::Timed(_, _, _, code) => {
                self.add_code(plan, code)
            }
            PlanPrimitive::Arrow(_, code) => self.add_code(plan, code),
            PlanPrimitive::Fused(chain) => self.add_chain(plan, chain),
            PlanPrimitive::Accumulated(_, _, start, _, code) => {
                self.add_code(plan, start)?;
                self.add_code(plan, code)
            }
        }
    }

    // Adds what functions that are made into one mention.
    fn add_chain(&mut self, plan: &Plan, chain: &PlanChain) -> Result<(), AllocError>
        ensures kept { OnOk result (HasAll (plan_expressions plan.now) self.old self.new) }
        ensures added { IsCodedChain (plan_expressions plan.now) chain.now → OnOk result ((y : Name) → ChainMentions (chain_over (plan_expressions plan.now) chain.now) y → IsTrue (is_mentioned (plan_expressions plan.now) self.new y)) }
    {
        match chain {
            PlanChain::Lone(_, code) => self.add_code(plan, code),
            PlanChain::OnSide(_, part) => self.add_chain(plan, part),
            PlanChain::Chained(first, second)
            | PlanChain::OnBoth(first, second)
            | PlanChain::Fanned(first, second) => {
                self.add_chain(plan, first)?;
                self.add_chain(plan, second)
            }
        }
    }
}
