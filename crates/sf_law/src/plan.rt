//! Plans.
ghost use Rattle.std.specs.Prelude.{◌≡◌, ◌≤◌, All, IsTrue, IfOk, OnOk, OnErr};
ghost use Rattle.sf_term.specs.declared.form.Bare.TheVariants.{Identity as identity_form};
ghost use Rattle.sf_law.specs.declared.node.PlanPrimitive.TheVariants.{Bare as bare_node};
ghost use Rattle.sf_law.specs.declared.node.PlanNode.TheVariants.{Primitive as primitive_node};
ghost use Rattle.sf_term.specs.Trees.{primitive, bare};
ghost use Rattle.std.specs.Prelude.{map, length, option_map};
ghost use Rattle.sf_law.specs.Headers.{place_named, rebodied, NumbersFirst, no_header};
ghost use Rattle.sf_law.specs.Places.{last_parameter, names_of_parameters, ArePlaces};
ghost use Rattle.sf_law.specs.Mentioned.{AreCovered, MayCover, binds_name};
ghost use Rattle.sf_law.specs.Entries.{ArePlanNodes, BindsNames, IsCoded, is_whole, calls_first, parts_end};
ghost use Rattle.sf_law.specs.Held.{HoldsBeside};
ghost use Rattle.sf_law.specs.Asking.{AreAsked, is_asked};
ghost use Rattle.sf_law.specs.declared.mentioned.Mentioned.TheVariants.{Any as any_name};
ghost use Rattle.std.specs.Prelude.{bytes_eq};
ghost use Rattle.sf_expr.specs.Arena.{name_at, stored_pattern};
ghost use Rattle.sf_expr.specs.Patterns.{pattern_of};
ghost use Rattle.sf_expr.specs.Numbered.{number_at, numbered_pattern, AreNumbers, TellsName};
ghost use Rattle.sf_law.specs.Unique.{IsCoded-prop, HoldsBeside-prop, BindsNames-prop, ArePlaces-prop, TellsName-prop};
ghost use Rattle.std.proofs.Props.{props};

use crate::asked::asked_names;
use crate::mentioned::{Mentioned, binds};
use crate::mentions::mentions_of;
use crate::node::{PlanId, PlanNode, PlanPrimitive, TemplateId};
use crate::places::{all_places, place_in};
use crate::template::{PlanTemplate, first_templates, put_bodies};
use indexmap::IndexMap;
use sf_expr::{Exprs, NameId, NumberedPattern, Numbers, PatternId};
use sf_term::Bare;
use sf_value::Ty;
use std::alloc::{AllocError, Global};
use std::collections::BTreeMap;

/// The network that is run: its terms with their expressions and functions, its templates, and the term that is run.
pub struct Plan {
    expressions: Exprs,
    // the numbers of its names: no text is compared while it runs
    numbering: Numbers,
    nodes: Vec<PlanNode>,
    templates: Vec<PlanTemplate>,
    numbers: IndexMap<String, usize>,
    places: Vec<BTreeMap<usize, usize>>,
    main: PlanId,
    asked: Mentioned,
    mentions: Vec<Mentioned>,
    identity: PlanNode,
    absent: PlanTemplate,
    ghost told: { AreNumbers expressions numbering } by { Prim.hlevel (props, TellsName-prop) },
    ghost arena: { ArePlanNodes expressions templates.items nodes.items } by { Prim.hlevel (props, IsCoded-prop, HoldsBeside-prop) },
    ghost enough: { AreAsked expressions templates.items asked nodes.items },
    ghost few: { length mentions.items ≤ length nodes.items },
    ghost covered: { AreCovered expressions nodes.items mentions.items },
    ghost bound: { All (BindsNames expressions) templates.items } by { Prim.hlevel (props, BindsNames-prop) },
    ghost numbered: { NumbersFirst numbers templates.items },
    ghost placed: { ArePlaces expressions numbering templates.items places.items } by { Prim.hlevel (props, ArePlaces-prop) },
    ghost same: { identity ≡ primitive_node (bare_node identity_form) },
    ghost nothing: { absent ≡ no_header },
}

impl Drop for Plan {
    fn drop(self) {
        let Plan {
            expressions,
            numbering,
            nodes,
            templates,
            numbers,
            places,
            main: _,
            asked,
            mentions,
            identity,
            absent,
        } = self;
        drop(expressions);
        drop(numbering);
        drop(nodes);
        drop(templates);
        drop(numbers);
        drop(places);
        drop(asked);
        drop(mentions);
        drop(identity);
        drop(absent);
    }
}

impl Plan {
    ghost use Rattle.sf_law.specs.declared.node.PlanId as plan_ids;
    ghost use Rattle.sf_expr.specs.declared.exprs.NameId as name_ids;
    ghost use Rattle.sf_law.specs.Arena.{plan_expressions, plan_numbers, plan_asked, plan_asks, node_count, plan_node_at, plan_tree, plan_headers, plan_main};
    ghost use Rattle.sf_law.specs.Arena.{plan_number, template_number, header_at, AsksOnly, BuildsPlan, ExtendsPlan, AddsNode};

    /// A plan over these expressions, with these templates and no term yet. It asks for any name.
    pub(crate) fn new(
        alloc: Global,
        expressions: Exprs,
        templates: Vec<PlanTemplate>,
    ) -> Result<Plan, AllocError>
        requires { All (BindsNames expressions) templates.items }
        ensures expressions { IfOk result (λ plan. plan_expressions plan ≡ expressions) }
        ensures nodes { IfOk result (λ plan. node_count plan ≡ 0) }
        ensures templates { IfOk result (λ plan. plan_headers plan ≡ templates.items) }
        ensures asked { IfOk result (λ plan. plan_asked plan ≡ any_name) }
    {
        let numbering = Numbers::of(alloc, &expressions)?;
        let numbers = first_templates(alloc, &templates)?;
        let places = all_places(alloc, &numbering, &templates)?;
        Ok(Plan {
            expressions,
            numbering,
            nodes: Vec::new(alloc),
            templates,
            numbers,
            places,
            main: PlanId(0),
            asked: Mentioned::Any,
            mentions: Vec::new(alloc),
            identity: PlanNode::Primitive(PlanPrimitive::Bare(Bare::Identity)),
            absent: PlanTemplate::absent(alloc),
        })
    }

    /// Puts a term behind the others, and asks for any name. A refused call changes nothing.
    pub fn add(&mut self, node: PlanNode) -> Result<PlanId, AllocError>
        requires held { parts_end node ≤ node_count self.old }
        requires whole { IsTrue (is_whole node) }
        requires coded { IsCoded (plan_expressions self.old) node }
        requires called { IsTrue (calls_first (plan_expressions self.old) (plan_headers self.old) node) }
        requires beside { HoldsBeside (plan_expressions self.old) node }
        ensures ok { IfOk result (λ id. AddsNode self.old self.new id node) }
        ensures err { OnErr result ((node_count self.new ≡ node_count self.old) × (plan_asked self.new ≡ plan_asked self.old)) }
        ensures kept { ExtendsPlan self.old self.new }
        ensures templates { plan_headers self.new ≡ plan_headers self.old }
        ensures main { plan_main self.new ≡ plan_main self.old }
        ensures asked { OnOk result (plan_asked self.new ≡ any_name) }
    {
        let id = PlanId(self.nodes.len());
        self.nodes.push(node)?;
        self.asked = Mentioned::Any;
        Ok(id)
    }

    /// The first template of a name; an id that the plan does not hold where none has it.
    pub fn template_named(&self, name: &str) -> TemplateId
        ensures { template_number result ≡ place_named name.now (plan_headers self.now) }
    {
        match self.numbers.get(name) {
            Some(number) => TemplateId(*number),
            None => TemplateId(self.templates.len()),
        }
    }

    /// The plan with another term that is run.
    #[tactic(auto, unfolding(crate::specs::Arena::plan_tree))]
    pub fn with_main(self, main: PlanId) -> Plan
        ensures main { plan_main result ≡ main }
        ensures asked { plan_asked result ≡ plan_asked self }
        ensures trees { (a : plan_ids.PlanId) → plan_tree result a ≡ plan_tree self a }
        ensures templates { plan_headers result ≡ plan_headers self }
        ensures expressions { plan_expressions result ≡ plan_expressions self }
    {
        let mut plan = self;
        plan.main = main;
        plan
    }

    /// The plan with other bodies of its templates: in place of each id the one that stands at its number; where none stands
    /// there, one that passes its inputs on.
    #[tactic(auto, unfolding(crate::specs::Arena::plan_tree))]
    pub fn with_bodies(self, bodies: &[PlanId]) -> Plan
        ensures templates { plan_headers result ≡ map (rebodied bodies.now (node_count self)) (plan_headers self) }
        ensures trees { (a : plan_ids.PlanId) → plan_tree result a ≡ plan_tree self a }
        ensures nodes { node_count result ≡ node_count self }
        ensures asked { plan_asked result ≡ plan_asked self }
        ensures main { plan_main result ≡ plan_main self }
        ensures expressions { plan_expressions result ≡ plan_expressions self }
    {
        let passing = PlanId(self.nodes.len());
        let mut plan = self;
        put_bodies(&mut plan.templates, bodies, passing);
        plan
    }

    /// The plan with lists of what its terms mention, and of the names for which it asks what their processes began as. The error
    /// is a want of memory.
    #[tactic(auto, unfolding(crate::specs::Arena::plan_tree))]
    pub fn with_mentions(self, alloc: Global) -> Result<Plan, AllocError>
        ensures main { IfOk result (λ plan. plan_main plan ≡ plan_main self) }
        ensures asked { IfOk result (λ plan. AsksOnly plan (plan_asked plan)) }
        ensures trees { IfOk result (λ plan. (a : plan_ids.PlanId) → plan_tree plan a ≡ plan_tree self a) }
        ensures templates { IfOk result (λ plan. plan_headers plan ≡ plan_headers self) }
        ensures expressions { IfOk result (λ plan. plan_expressions plan ≡ plan_expressions self) }
    {
        let mentions = mentions_of(alloc, &self)?;
        let asked = asked_names(alloc, &self)?;
        let mut plan = self;
        plan.mentions = mentions;
        plan.asked = asked;
        Ok(plan)
    }

    /// Names that a term mentions, with each that it does, where the plan lists them.
    pub fn mentioned(&self, term: PlanId) -> Option<&Mentioned>
        ensures { MayCover (plan_expressions self.now) (option_map (λ m. m.now) result) (plan_tree self.now term) }
    {
        match self.mentions.get(term.0) {
            Some(mentioned) => Some(mentioned),
            None => None,
        }
    }

    /// How many terms it holds.
    pub(crate) fn count(&self) -> usize
        ensures { result ≡ node_count self.now }
    {
        self.nodes.len()
    }

    /// The node at an id, with the ids of its parts; the identity at an id that the plan does not hold.
    #[tactic(auto, using(crate::proofs::Extended::builds, crate::proofs::Extended::parts_below, crate::proofs::Extended::parts_held, crate::proofs::Extended::asked_held, crate::proofs::Extended::beside_held), unfolding(crate::specs::Arena::plan_node_at))]
    pub fn node(&self, id: PlanId) -> &PlanNode
        ensures value { result.now ≡ plan_node_at self.now id }
        ensures builds { BuildsPlan self.now result.now (plan_tree self.now id) }
        ensures below { parts_end result.now ≤ plan_number id }
        ensures held { parts_end result.now ≤ node_count self.now }
        ensures asked { IsTrue (is_asked (plan_expressions self.now) (plan_headers self.now) (plan_asks self.now) result.now) }
        ensures beside { HoldsBeside (plan_expressions self.now) result.now }
    {
        match self.nodes.get(id.0) {
            Some(node) => node,
            None => &self.identity,
        }
    }

    /// The template at an id; one without parameters that passes its inputs on at an id that the plan does not hold.
    pub fn template(&self, id: TemplateId) -> &PlanTemplate
        ensures value { result.now ≡ header_at self.now id }
        ensures bound { BindsNames (plan_expressions self.now) result.now }
    {
        match self.templates.get(id.0) {
            Some(template) => template,
            None => &self.absent,
        }
    }

    /// The place of the last parameter of a name in a template, from 0; none where it has none of that name.
    pub fn place(&self, id: TemplateId, name: NameId) -> Option<usize>
        ensures { result ≡ last_parameter (name_at (plan_expressions self.now) name) (names_of_parameters (plan_expressions self.now) (header_at self.now id).parameters) }
    {
        match self.places.get(id.0) {
            Some(places) => place_in(places, self.number(name)),
            None => None,
        }
    }

    /// An id that the plan does not hold, at which the identity stands.
    pub fn passing(&self) -> PlanId
        ensures { plan_tree self.now result ≡ primitive (bare identity_form) }
    {
        PlanId(self.nodes.len())
    }

    /// The expressions.
    pub fn expressions(&self) -> &Exprs
        ensures { result.now ≡ plan_expressions self.now }
    {
        &self.expressions
    }

    /// The number of a name: names have the same where their texts are the same.
    pub fn number(&self, name: NameId) -> usize
        ensures { result ≡ number_at (plan_numbers self.now) name }
    {
        self.numbering.number(name)
    }

    /// A pattern, of which each name is its number.
    pub fn numbered(&self, pattern: PatternId) -> &NumberedPattern
        ensures { let e = plan_expressions self.now in
            (k : name_ids.NameId) → TellsName (number_at (plan_numbers self.now) k) (name_at e k) result.now (pattern_of (stored_pattern e pattern)) }
    {
        self.numbering.pattern(pattern)
    }

    /// Whether the texts of two names are the same. None is compared.
    pub fn same_name(&self, first: NameId, second: NameId) -> bool
        ensures { let e = plan_expressions self.now in result ≡ bytes_eq (name_at e first) (name_at e second) }
    {
        self.number(first) == self.number(second)
    }

    /// Whether a pattern binds a name. No text is compared.
    pub fn binds(&self, pattern: PatternId, name: NameId) -> bool
        ensures { let e = plan_expressions self.now in result ≡ binds_name (pattern_of (stored_pattern e pattern)) (name_at e name) }
    {
        binds(self.numbered(pattern), self.number(name))
    }

    /// Whether it may ask what a process of this name began as: where it doesn't, that need not be kept.
    pub fn asks(&self, name: NameId) -> bool
        ensures { result ≡ plan_asks self.now (name_at (plan_expressions self.now) name) }
    {
        self.asked.has(self, name)
    }

    /// The term that is run.
    pub fn main(&self) -> PlanId
        ensures { result ≡ plan_main self.now }
    {
        self.main
    }
}
