//! The calls in templates.
ghost use Rattle.std.specs.Prelude.{◌≡◌, ◌≤◌, IfOk, OnOk, All};
ghost use Rattle.sf_term.specs.Trees.{collection_depth, arguments_depth};
ghost use Rattle.sf_term.specs.Arena.{ArgumentBelow, CollectionBelow, arguments_of, collection_of, collection_node, term_number, HoldsTerm, HoldsWhole, HoldsMembers, HoldsArgument};
ghost use Rattle.sf_reach.specs.Names.{names_of_set, program_names};
ghost use Rattle.sf_reach.specs.Graphs.{AddsCalls, AddsMemberCalls, AddsArgumentCalls, IsGraphOf, StaysWithin};

use indexmap::IndexSet;
use sf_refusal::Spot;
use sf_term::{Argument, CollExpr, CollectionId, Node, Program, TermId};
use std::alloc::{AllocError, Global};
use std::marker::Model;

/// A call of the template at a place among the templates, whose name stands at a spot.
#[derive(Clone, Copy)]
pub(crate) struct Call {
    pub(crate) callee: usize,
    pub(crate) spot: Spot,
}

/// The calls in one template, in the order of the text.
#[derive(Drop)]
pub(crate) struct TemplateCalls {
    items: Vec<Call>,
}

impl Model for TemplateCalls {
    ghost use Rattle.std.specs.Prelude.{List};
    ghost use Rattle.sf_reach.specs.declared.graph.Call.{Call};

    ghost Value = { List Call };

    ghost view = { λ a. a.items.items };
}

impl TemplateCalls {
    /// The calls.
    pub(crate) fn items(&self) -> &[Call]
        ensures { result.now ≡ self.now }
    {
        &self.items
    }
}

/// Puts the calls in a term behind others.
#[cycle(gathering)]
fn gather(
    program: &Program,
    names: &IndexSet<String>,
    term: TermId,
    calls: &mut Vec<Call>,
) -> Result<(), AllocError>
    requires names { names_of_set names.now ≡ program_names program.now }
    requires held { HoldsTerm program.now term }
    ensures { OnOk result (AddsCalls program.now term calls.old.items calls.new.items) }
{
    match program.node(term) {
        Node::Primitive(_) | Node::Named(_, _, _) => Ok(()),
        Node::Call(name, arguments) => {
            let name = program.expressions().name_of(name);
            if let Some(callee) = names.get_index_of(name) {
                let spot = program.spot(term);
                calls.push(Call { callee, spot })?;
            }
            gather_arguments(program, names, term, program.arguments(arguments), calls)
        }
        Node::Sided(_, part) | Node::Headed(_, _, part) | Node::Transformed(_, part) => {
            gather(program, names, part, calls)
        }
        Node::Joined(_, first, second) => {
            gather(program, names, first, calls)?;
            gather(program, names, second, calls)
        }
        Node::Switching(form) => gather(program, names, form.source, calls),
        Node::Continuation(form) => {
            gather(program, names, form.source, calls)?;
            gather(program, names, form.observer, calls)
        }
        Node::Gathered(members) => gather_at(program, names, term, members, calls),
        Node::Editing(form) => gather_at(program, names, term, form.members, calls),
        Node::Releasing(form) => {
            gather_at(program, names, term, form.members, calls)?;
            gather(program, names, form.observer, calls)
        }
    }
}

/// Puts the calls in the collection at an id, which a form has, behind others.
#[cycle(gathering)]
fn gather_at(
    program: &Program,
    names: &IndexSet<String>,
    form: TermId,
    members: CollectionId,
    calls: &mut Vec<Call>,
) -> Result<(), AllocError>
    requires names { names_of_set names.now ≡ program_names program.now }
    requires below { CollectionBelow (term_number form) (collection_node program.now members) }
    requires shallow { collection_depth (collection_of program.now (collection_node program.now members)) ≤ 64 }
    requires held { HoldsWhole program.now members }
    ensures { OnOk result (AddsMemberCalls program.now (collection_node program.now members) calls.old.items calls.new.items) }
{
    gather_members(program, names, form, program.collection(members), calls)
}

/// Puts the calls in a collection, which a form has, behind others.
#[cycle(gathering)]
fn gather_members(
    program: &Program,
    names: &IndexSet<String>,
    form: TermId,
    collection: &CollExpr,
    calls: &mut Vec<Call>,
) -> Result<(), AllocError>
    requires names { names_of_set names.now ≡ program_names program.now }
    requires below { CollectionBelow (term_number form) collection.now }
    requires shallow { collection_depth (collection_of program.now collection.now) ≤ 64 }
    requires held { HoldsMembers program.now collection.now }
    ensures { OnOk result (AddsMemberCalls program.now collection.now calls.old.items calls.new.items) }
{
    match collection {
        CollExpr::Empty(_, _, _) => Ok(()),
        CollExpr::Used(_, _, _) => Ok(()),
        CollExpr::Added(members, _, term, _) => {
            gather_members(program, names, form, members, calls)?;
            gather(program, names, *term, calls)
        }
        CollExpr::Dropped(members, _, _) => gather_members(program, names, form, members, calls),
        CollExpr::Kept(members, _, _) => gather_members(program, names, form, members, calls),
        CollExpr::Chosen(_, first, second, _) => {
            gather_members(program, names, form, first, calls)?;
            gather_members(program, names, form, second, calls)
        }
    }
}

/// Puts the calls in the arguments of a call behind others.
#[cycle(gathering)]
fn gather_arguments(
    program: &Program,
    names: &IndexSet<String>,
    call: TermId,
    arguments: &[Argument],
    calls: &mut Vec<Call>,
) -> Result<(), AllocError>
    requires names { names_of_set names.now ≡ program_names program.now }
    requires below { All (ArgumentBelow program.now (term_number call)) arguments.now }
    requires shallow { arguments_depth (arguments_of program.now arguments.now) ≤ 64 }
    requires held { All (HoldsArgument program.now) arguments.now }
    ensures { OnOk result (AddsArgumentCalls program.now arguments.now calls.old.items calls.new.items) }
{
    for argument in arguments {
        match argument {
            Argument::Value(_) => {}
            Argument::Process(term) => gather(program, names, *term, calls)?,
            Argument::Collection(members) => gather_at(program, names, call, *members, calls)?,
        }
    }
    Ok(())
}

/// The calls in each template of a program, where its templates have these names.
pub(crate) fn graph_of(
    alloc: Global,
    program: &Program,
    names: &IndexSet<String>,
) -> Result<Vec<TemplateCalls>, AllocError>
    requires { names_of_set names.now ≡ program_names program.now }
    ensures graph { IfOk result (λ graph. IsGraphOf program.now graph.items) }
    ensures within { IfOk result (λ graph. StaysWithin graph.items) }
{
    let mut graph = Vec::new(alloc);
    for template in program.templates() {
        let mut items = Vec::new(alloc);
        gather(program, names, template.body(), &mut items)?;
        graph.push(TemplateCalls { items })?;
    }
    Ok(graph)
}
