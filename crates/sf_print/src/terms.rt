//! Terms as they are written.
ghost use Rattle.std.specs.Prelude.{◌≡◌, ◌<◌, OnOk, All};
ghost use Rattle.sf_expr.specs.Arena.{name_at, literal_at, Holds, HoldsFunction, HoldsName, HoldsPattern};
ghost use Rattle.sf_expr.specs.Patterns.{pattern_of};
ghost use Rattle.sf_term.specs.declared.node.Node.TheVariants as nodes;
ghost use Rattle.sf_term.specs.Entries.{absent_payload};
ghost use Rattle.sf_term.specs.Trees.{named_term, without_members, sided, headed, transformed, reference, dropped, kept};
ghost use Rattle.sf_term.specs.Trees;
ghost use Rattle.sf_value.specs.KindView.{key_kind_of};
ghost use Rattle.sf_term.specs.Arena.{tree, term_of, term_number, program_expressions, program_expression, program_function, placed_pattern, arguments_of, collection_node, collection_of, collection_tree, HoldsTerm, HoldsTermParts, HoldsArgument, HoldsMembers, HoldsWhole};
ghost use Rattle.sf_grammar.specs.Spelling.{spell_term, spell_mapping, spell_pattern, spell_value, spell_expression, spell_function, spell_listed, spell_further, spell_arguments, spell_collection, stands_initially, value_word, naming_token};
ghost use Rattle.sf_print.specs.Drafts.{append_token, append_tokens};
ghost use Rattle.sf_print.specs.Arguments.{spell_argument, IsWithin, ArgumentWithin, PartsWithin};

use crate::draft::Draft;
use crate::expressions::{write_expression, write_function, write_pattern};
use crate::types::{write_keys, write_type};
use crate::words::{
    accumulation_word, bare_word, continuing_word, editing_word, heading_sign, join_symbol,
    releasing_word, selection_word, side_word, stands_initially, switching_word, timing_word,
    value_word,
};
use sf_expr::{Constant, ConstantForm, ExprId, FunctionId, NameId, PatternId};
use sf_grammar::Version;
use sf_lex::{Keyword, Symbol};
use sf_term::{
    Argument, CollExpr, CollectionId, Continuation, Editing, Heading, Join, Naming, Node,
    Primitive, Program, Releasing, Start, Switch, TermId, WithValue,
};
use sf_value::{KeyType, Ty};
use std::alloc::AllocError;

/// Appends the expression at an id.
#[tactic(auto, unfolding(sf_term::specs::Arena::program_expression, sf_term::specs::Arena::program_expressions))]
fn write_value(
    program: &Program,
    version: Version,
    value: ExprId,
    draft: &mut Draft,
) -> Result<(), AllocError>
    requires { Holds (program_expressions program.now) value }
    ensures { OnOk result (draft.new ≡ append_tokens draft.old (spell_expression version (program_expression program.now value))) }
{
    write_expression(program.expressions(), version, value, draft)
}

/// Appends the function at an id.
#[tactic(auto, unfolding(sf_term::specs::Arena::program_expression, sf_term::specs::Arena::program_expressions, sf_term::specs::Arena::function_pattern_at, sf_term::specs::Arena::function_body_at))]
fn write_mapped(
    program: &Program,
    version: Version,
    function: FunctionId,
    draft: &mut Draft,
) -> Result<(), AllocError>
    requires { HoldsFunction (program_expressions program.now) function }
    ensures { OnOk result (draft.new ≡ append_tokens draft.old (spell_function version (program_function program.now function))) }
{
    write_function(program.expressions(), version, function, draft)
}

/// Appends a primitive with a value.
#[tactic(auto, using(crate::proofs::Putting::tokens_apart))]
fn write_with_value(
    program: &Program,
    version: Version,
    primitive: WithValue,
    value: ExprId,
    draft: &mut Draft,
) -> Result<(), AllocError>
    requires { Holds (program_expressions program.now) value }
    ensures { OnOk result (draft.new ≡ append_tokens draft.old (spell_value (stands_initially primitive) (value_word primitive) (spell_expression version (program_expression program.now value)))) }
{
    let word = value_word(primitive);
    if stands_initially(primitive) {
        draft.symbol(Symbol::Initially)?;
        draft.symbol(Symbol::Open)?;
        write_value(program, version, value, draft)?;
        draft.symbol(Symbol::Comma)?;
        draft.keyword(word)?;
        draft.symbol(Symbol::Close)
    } else {
        draft.keyword(word)?;
        write_value(program, version, value, draft)
    }
}

/// Appends `never` and the type of its payloads.
#[tactic(auto, using(crate::proofs::Putting::tokens_apart))]
fn write_never(constant: &Constant, version: Version, draft: &mut Draft) -> Result<(), AllocError>
    ensures { OnOk result (draft.new ≡ append_tokens draft.old (spell_term version (Trees.primitive (Trees.never (absent_payload constant.now))))) }
{
    draft.keyword(Keyword::Never)?;
    match constant.form() {
        ConstantForm::NoEvent(payload) => write_type(payload, version, draft),
        ConstantForm::Text(_) => draft.keyword(Keyword::Unit),
    }
}

/// Appends a primitive.
#[tactic(auto, using(crate::proofs::Putting::tokens_apart))]
fn write_primitive(
    program: &Program,
    version: Version,
    primitive: Primitive,
    draft: &mut Draft,
) -> Result<(), AllocError>
    requires { HoldsTermParts program.now (nodes.Primitive primitive) }
    ensures { OnOk result (draft.new ≡ append_tokens draft.old (spell_term version (term_of program.now (nodes.Primitive primitive)))) }
{
    match primitive {
        Primitive::Bare(bare) => draft.keyword(bare_word(bare)),
        Primitive::Never(payload) => {
            write_never(program.expressions().constant_at(payload), version, draft)
        }
        Primitive::WithValue(kind, value) => {
            write_with_value(program, version, kind, value, draft)
        }
        Primitive::Timed(timing, time, value) => {
            draft.keyword(timing_word(timing))?;
            draft.number(time)?;
            write_value(program, version, value, draft)
        }
        Primitive::Selected(selection, count) => {
            draft.keyword(selection_word(selection))?;
            draft.number(count)
        }
        Primitive::Arrow(function) => {
            draft.keyword(Keyword::Arr)?;
            write_mapped(program, version, function, draft)
        }
        Primitive::Accumulated(accumulation, value, function) => {
            draft.keyword(accumulation_word(accumulation))?;
            draft.symbol(Symbol::Open)?;
            write_value(program, version, value, draft)?;
            draft.symbol(Symbol::Comma)?;
            write_mapped(program, version, function, draft)?;
            draft.symbol(Symbol::Close)
        }
    }
}

/// Appends the first token of a form that is a name alone.
fn write_naming(naming: Naming, draft: &mut Draft) -> Result<(), AllocError>
    ensures { OnOk result (draft.new ≡ append_token draft.old (naming_token naming)) }
{
    match naming {
        Naming::Process(Start::Run) => draft.keyword(Keyword::Run),
        Naming::Process(Start::Fresh) => draft.name("fresh"),
        Naming::Probe => draft.keyword(Keyword::Probe),
    }
}

/// Appends a form that is a name alone.
fn write_named(
    program: &Program,
    version: Version,
    naming: Naming,
    name: NameId,
    draft: &mut Draft,
) -> Result<(), AllocError>
    requires { HoldsName (program_expressions program.now) name }
    ensures { OnOk result (draft.new ≡ append_tokens draft.old (spell_term version (named_term naming (name_at (program_expressions program.now) name)))) }
{
    write_naming(naming, draft)?;
    draft.name(program.expressions().name_of(name))
}

/// Appends the term at an id.
#[cycle(term)]
#[tactic(auto, using(crate::proofs::Putting::tokens_apart))]
pub(crate) fn write_term(
    program: &Program,
    version: Version,
    id: TermId,
    draft: &mut Draft,
) -> Result<(), AllocError>
    requires { HoldsTerm program.now id }
    ensures { OnOk result (draft.new ≡ append_tokens draft.old (spell_term version (tree program.now id))) }
{
    match program.node(id) {
        Node::Primitive(primitive) => write_primitive(program, version, primitive, draft),
        Node::Named(naming, name, _) => write_named(program, version, naming, name, draft),
        Node::Call(name, arguments) => {
            let arguments = program.arguments(arguments);
            write_call(program, version, id, name, arguments, draft)
        }
        Node::Gathered(members) => write_gathered(program, version, id, members, draft),
        Node::Releasing(form) => write_releasing(program, version, id, form, draft),
        Node::Editing(form) => write_editing(program, version, id, form, draft),
        Node::Joined(join, first, second) => {
            write_joined(program, version, join, first, second, draft)
        }
        Node::Sided(side, part) => {
            draft.keyword(side_word(side))?;
            write_term(program, version, part, draft)
        }
        Node::Headed(heading, value, part) => {
            write_headed(program, version, heading, value, part, draft)
        }
        Node::Transformed(function, part) => {
            write_transformed(program, version, function, part, draft)
        }
        Node::Switching(switch) => write_switching(program, version, switch, draft),
        Node::Continuation(form) => write_continuing(program, version, form, draft),
    }
}

/// Appends two terms joined.
#[cycle(term)]
#[tactic(auto, using(crate::proofs::Putting::tokens_apart))]
fn write_joined(
    program: &Program,
    version: Version,
    join: Join,
    first: TermId,
    second: TermId,
    draft: &mut Draft,
) -> Result<(), AllocError>
    requires first_held { HoldsTerm program.now first }
    requires second_held { HoldsTerm program.now second }
    ensures { OnOk result (draft.new ≡ append_tokens draft.old (spell_term version (Trees.joined join (tree program.now first) (tree program.now second)))) }
{
    draft.symbol(Symbol::Open)?;
    write_term(program, version, first, draft)?;
    draft.symbol(join_symbol(join))?;
    write_term(program, version, second, draft)?;
    draft.symbol(Symbol::Close)
}

/// Appends a term with an expression at its head.
#[cycle(term)]
#[tactic(auto, using(crate::proofs::Putting::tokens_apart))]
fn write_headed(
    program: &Program,
    version: Version,
    heading: Heading,
    value: ExprId,
    part: TermId,
    draft: &mut Draft,
) -> Result<(), AllocError>
    requires value_held { Holds (program_expressions program.now) value }
    requires part_held { HoldsTerm program.now part }
    ensures { OnOk result (draft.new ≡ append_tokens draft.old (spell_term version (headed heading (program_expression program.now value) (tree program.now part)))) }
{
    draft.sign(heading_sign(heading))?;
    draft.symbol(Symbol::Open)?;
    write_value(program, version, value, draft)?;
    draft.symbol(Symbol::Comma)?;
    write_term(program, version, part, draft)?;
    draft.symbol(Symbol::Close)
}

/// Appends a term with a function at its head.
#[cycle(term)]
#[tactic(auto, using(crate::proofs::Putting::tokens_apart))]
fn write_transformed(
    program: &Program,
    version: Version,
    function: FunctionId,
    part: TermId,
    draft: &mut Draft,
) -> Result<(), AllocError>
    requires function_held { HoldsFunction (program_expressions program.now) function }
    requires part_held { HoldsTerm program.now part }
    ensures { OnOk result (draft.new ≡ append_tokens draft.old (spell_term version (transformed (program_function program.now function) (tree program.now part)))) }
{
    draft.symbol(Symbol::MapsFirstInput)?;
    draft.symbol(Symbol::Open)?;
    write_mapped(program, version, function, draft)?;
    draft.symbol(Symbol::Comma)?;
    write_term(program, version, part, draft)?;
    draft.symbol(Symbol::Close)
}

/// Appends a pattern and the term that it binds names for.
#[cycle(term)]
#[tactic(auto, using(crate::proofs::Putting::tokens_apart), unfolding(sf_term::specs::Arena::placed_pattern, sf_term::specs::Arena::program_expressions))]
fn write_body(
    program: &Program,
    version: Version,
    pattern: PatternId,
    body: TermId,
    draft: &mut Draft,
) -> Result<(), AllocError>
    requires pattern_held { HoldsPattern (program_expressions program.now) pattern }
    requires body_held { HoldsTerm program.now body }
    ensures { OnOk result (draft.new ≡ append_tokens draft.old (spell_mapping (spell_pattern (pattern_of (placed_pattern program.now pattern))) (spell_term version (tree program.now body)))) }
{
    write_pattern(program.expressions().placed(pattern), draft)?;
    draft.symbol(Symbol::MapsTo)?;
    write_term(program, version, body, draft)
}

/// Appends a term that gives way to another.
#[cycle(term)]
#[tactic(auto, using(crate::proofs::Putting::tokens_apart))]
fn write_switching(
    program: &Program,
    version: Version,
    switch: Switch,
    draft: &mut Draft,
) -> Result<(), AllocError>
    requires { HoldsTermParts program.now (nodes.Switching switch) }
    ensures { OnOk result (draft.new ≡ append_tokens draft.old (spell_term version (term_of program.now (nodes.Switching switch)))) }
{
    draft.keyword(switching_word(switch.form))?;
    draft.symbol(Symbol::Open)?;
    write_term(program, version, switch.source, draft)?;
    draft.symbol(Symbol::Comma)?;
    write_body(program, version, switch.pattern, switch.body, draft)?;
    draft.symbol(Symbol::Close)
}

/// Appends a term that gives way to another, which knows it by a name.
#[cycle(term)]
#[tactic(auto, using(crate::proofs::Putting::tokens_apart))]
fn write_continuing(
    program: &Program,
    version: Version,
    form: Continuation,
    draft: &mut Draft,
) -> Result<(), AllocError>
    requires { HoldsTermParts program.now (nodes.Continuation form) }
    ensures { OnOk result (draft.new ≡ append_tokens draft.old (spell_term version (term_of program.now (nodes.Continuation form)))) }
{
    draft.keyword(continuing_word(form.shown))?;
    draft.symbol(Symbol::Open)?;
    write_term(program, version, form.source, draft)?;
    draft.symbol(Symbol::Comma)?;
    write_term(program, version, form.observer, draft)?;
    draft.symbol(Symbol::Comma)?;
    draft.name(program.expressions().name_of(form.name))?;
    draft.symbol(Symbol::Comma)?;
    write_body(program, version, form.pattern, form.body, draft)?;
    draft.symbol(Symbol::Close)
}

/// Appends `empty` and its types.
#[tactic(auto, using(crate::proofs::Putting::tokens_apart))]
fn write_empty(
    keys: KeyType,
    values: &Ty,
    version: Version,
    draft: &mut Draft,
) -> Result<(), AllocError>
    ensures { OnOk result (draft.new ≡ append_tokens draft.old (spell_collection version (without_members (key_kind_of keys) values.now))) }
{
    draft.keyword(Keyword::Empty)?;
    write_keys(keys, version, draft)?;
    write_type(values, version, draft)
}

/// Appends the members of a collection.
#[cycle(term)]
#[tactic(auto, using(crate::proofs::Putting::tokens_apart))]
fn write_gathered(
    program: &Program,
    version: Version,
    id: TermId,
    members: CollectionId,
    draft: &mut Draft,
) -> Result<(), AllocError>
    requires within { PartsWithin program.now id (nodes.Gathered members) }
    requires members_held { HoldsWhole program.now members }
    ensures { OnOk result (draft.new ≡ append_tokens draft.old (spell_term version (term_of program.now (nodes.Gathered members)))) }
{
    draft.keyword(Keyword::ParB)?;
    write_members(program, version, id, members, draft)
}

/// Appends members that give way to a term.
#[cycle(term)]
#[tactic(auto, using(crate::proofs::Putting::tokens_apart))]
fn write_releasing(
    program: &Program,
    version: Version,
    id: TermId,
    form: Releasing,
    draft: &mut Draft,
) -> Result<(), AllocError>
    requires within { PartsWithin program.now id (nodes.Releasing form) }
    requires form_held { HoldsTermParts program.now (nodes.Releasing form) }
    ensures { OnOk result (draft.new ≡ append_tokens draft.old (spell_term version (term_of program.now (nodes.Releasing form)))) }
{
    draft.keyword(releasing_word(form.shown))?;
    draft.symbol(Symbol::Open)?;
    write_members(program, version, id, form.members, draft)?;
    draft.symbol(Symbol::Comma)?;
    write_term(program, version, form.observer, draft)?;
    draft.symbol(Symbol::Comma)?;
    draft.name(program.expressions().name_of(form.name))?;
    draft.symbol(Symbol::Comma)?;
    write_body(program, version, form.pattern, form.body, draft)?;
    draft.symbol(Symbol::Close)
}

/// Appends members that are edited.
#[cycle(term)]
#[tactic(auto, using(crate::proofs::Putting::tokens_apart))]
fn write_editing(
    program: &Program,
    version: Version,
    id: TermId,
    form: Editing,
    draft: &mut Draft,
) -> Result<(), AllocError>
    requires within { PartsWithin program.now id (nodes.Editing form) }
    requires form_held { HoldsTermParts program.now (nodes.Editing form) }
    ensures { OnOk result (draft.new ≡ append_tokens draft.old (spell_term version (term_of program.now (nodes.Editing form)))) }
{
    draft.keyword(editing_word(form.shown))?;
    draft.symbol(Symbol::Open)?;
    write_members(program, version, id, form.members, draft)?;
    draft.symbol(Symbol::Comma)?;
    draft.name(program.expressions().name_of(form.name))?;
    draft.symbol(Symbol::Comma)?;
    write_edit(program, version, id, form.pattern, form.edit, draft)?;
    draft.symbol(Symbol::Close)
}

/// Appends a pattern and the collection that it binds names for.
#[cycle(term)]
#[tactic(auto, using(crate::proofs::Putting::tokens_apart), unfolding(sf_term::specs::Arena::placed_pattern, sf_term::specs::Arena::program_expressions))]
fn write_edit(
    program: &Program,
    version: Version,
    form: TermId,
    pattern: PatternId,
    edit: CollectionId,
    draft: &mut Draft,
) -> Result<(), AllocError>
    requires within { IsWithin program.now form (collection_node program.now edit) }
    requires pattern_held { HoldsPattern (program_expressions program.now) pattern }
    requires edit_held { HoldsWhole program.now edit }
    ensures { OnOk result (draft.new ≡ append_tokens draft.old (spell_mapping (spell_pattern (pattern_of (placed_pattern program.now pattern))) (spell_collection version (collection_tree program.now edit)))) }
{
    write_pattern(program.expressions().placed(pattern), draft)?;
    draft.symbol(Symbol::MapsTo)?;
    write_members(program, version, form, edit, draft)
}

/// Appends the collection at an id, which stands in a form.
#[cycle(term)]
fn write_members(
    program: &Program,
    version: Version,
    form: TermId,
    members: CollectionId,
    draft: &mut Draft,
) -> Result<(), AllocError>
    requires within { IsWithin program.now form (collection_node program.now members) }
    requires members_held { HoldsWhole program.now members }
    ensures { OnOk result (draft.new ≡ append_tokens draft.old (spell_collection version (collection_tree program.now members))) }
{
    write_collection(program, version, form, program.collection(members), draft)
}

/// Appends a collection that stands in a form.
#[cycle(term)]
#[tactic(auto, using(crate::proofs::Putting::tokens_apart))]
fn write_collection(
    program: &Program,
    version: Version,
    form: TermId,
    collection: &CollExpr,
    draft: &mut Draft,
) -> Result<(), AllocError>
    requires within { IsWithin program.now form collection.now }
    requires collection_held { HoldsMembers program.now collection.now }
    ensures { OnOk result (draft.new ≡ append_tokens draft.old (spell_collection version (collection_of program.now collection.now))) }
{
    match collection {
        CollExpr::Empty(keys, values, _) => write_empty(*keys, values, version, draft),
        CollExpr::Used(name, _, _) => {
            draft.keyword(Keyword::Use)?;
            draft.name(program.expressions().name_of(*name))
        }
        CollExpr::Added(members, key, term, _) => {
            let added = Added {
                members,
                key: *key,
                term: *term,
            };
            write_added(program, version, form, &added, draft)
        }
        CollExpr::Dropped(members, key, _) => {
            write_dropped(program, version, form, members, *key, draft)
        }
        CollExpr::Kept(members, function, _) => {
            write_kept(program, version, form, members, *function, draft)
        }
        CollExpr::Chosen(condition, first, second, _) => {
            let chosen = Chosen {
                condition: *condition,
                first,
                second,
            };
            write_chosen(program, version, form, &chosen, draft)
        }
    }
}

/// A collection with a term under a key.
#[derive(Clone, Copy)]
struct Added<'a> {
    members: &'a CollExpr,
    key: ExprId,
    term: TermId,
}

/// Appends a collection with a term under a key.
#[cycle(term)]
#[tactic(auto, using(crate::proofs::Putting::tokens_apart))]
fn write_added(
    program: &Program,
    version: Version,
    form: TermId,
    added: &Added,
    draft: &mut Draft,
) -> Result<(), AllocError>
    requires members_within { IsWithin program.now form added.now.members.now }
    requires term_before { term_number added.now.term < term_number form }
    requires members_held { HoldsMembers program.now added.now.members.now }
    requires key_held { Holds (program_expressions program.now) added.now.key }
    requires term_held { HoldsTerm program.now added.now.term }
    ensures { OnOk result (draft.new ≡ append_tokens draft.old (spell_collection version (Trees.added (collection_of program.now added.now.members.now) (program_expression program.now added.now.key) (tree program.now added.now.term)))) }
{
    draft.keyword(Keyword::Add)?;
    draft.symbol(Symbol::Open)?;
    write_collection(program, version, form, added.members, draft)?;
    draft.symbol(Symbol::Comma)?;
    write_value(program, version, added.key, draft)?;
    draft.symbol(Symbol::Comma)?;
    write_term(program, version, added.term, draft)?;
    draft.symbol(Symbol::Close)
}

/// Appends a collection without what stands under a key.
#[cycle(term)]
#[tactic(auto, using(crate::proofs::Putting::tokens_apart))]
fn write_dropped(
    program: &Program,
    version: Version,
    form: TermId,
    members: &CollExpr,
    key: ExprId,
    draft: &mut Draft,
) -> Result<(), AllocError>
    requires within { IsWithin program.now form members.now }
    requires members_held { HoldsMembers program.now members.now }
    requires key_held { Holds (program_expressions program.now) key }
    ensures { OnOk result (draft.new ≡ append_tokens draft.old (spell_collection version (dropped (collection_of program.now members.now) (program_expression program.now key)))) }
{
    draft.keyword(Keyword::Drop)?;
    draft.symbol(Symbol::Open)?;
    write_collection(program, version, form, members, draft)?;
    draft.symbol(Symbol::Comma)?;
    write_value(program, version, key, draft)?;
    draft.symbol(Symbol::Close)
}

/// Appends the members of a collection whose keys a function keeps.
#[cycle(term)]
#[tactic(auto, using(crate::proofs::Putting::tokens_apart))]
fn write_kept(
    program: &Program,
    version: Version,
    form: TermId,
    members: &CollExpr,
    function: FunctionId,
    draft: &mut Draft,
) -> Result<(), AllocError>
    requires within { IsWithin program.now form members.now }
    requires members_held { HoldsMembers program.now members.now }
    requires function_held { HoldsFunction (program_expressions program.now) function }
    ensures { OnOk result (draft.new ≡ append_tokens draft.old (spell_collection version (kept (collection_of program.now members.now) (program_function program.now function)))) }
{
    draft.keyword(Keyword::Keep)?;
    draft.symbol(Symbol::Open)?;
    write_collection(program, version, form, members, draft)?;
    draft.symbol(Symbol::Comma)?;
    write_mapped(program, version, function, draft)?;
    draft.symbol(Symbol::Close)
}

/// Two collections of which a condition chooses one.
#[derive(Clone, Copy)]
struct Chosen<'a> {
    condition: ExprId,
    first: &'a CollExpr,
    second: &'a CollExpr,
}

/// Appends two collections of which a condition chooses one.
#[cycle(term)]
#[tactic(auto, using(crate::proofs::Putting::tokens_apart))]
fn write_chosen(
    program: &Program,
    version: Version,
    form: TermId,
    chosen: &Chosen,
    draft: &mut Draft,
) -> Result<(), AllocError>
    requires first_within { IsWithin program.now form chosen.now.first.now }
    requires second_within { IsWithin program.now form chosen.now.second.now }
    requires condition_held { Holds (program_expressions program.now) chosen.now.condition }
    requires first_held { HoldsMembers program.now chosen.now.first.now }
    requires second_held { HoldsMembers program.now chosen.now.second.now }
    ensures { OnOk result (draft.new ≡ append_tokens draft.old (spell_collection version (Trees.chosen (program_expression program.now chosen.now.condition) (collection_of program.now chosen.now.first.now) (collection_of program.now chosen.now.second.now)))) }
{
    draft.keyword(Keyword::If)?;
    write_value(program, version, chosen.condition, draft)?;
    draft.keyword(Keyword::Then)?;
    write_collection(program, version, form, chosen.first, draft)?;
    draft.keyword(Keyword::Else)?;
    write_collection(program, version, form, chosen.second, draft)
}

/// Appends a call of a template.
#[cycle(term)]
#[tactic(auto, using(crate::proofs::Putting::tokens_apart))]
fn write_call(
    program: &Program,
    version: Version,
    call: TermId,
    name: NameId,
    arguments: &[Argument],
    draft: &mut Draft,
) -> Result<(), AllocError>
    requires within { All (ArgumentWithin program.now call) arguments.now }
    requires name_held { HoldsName (program_expressions program.now) name }
    requires arguments_held { All (HoldsArgument program.now) arguments.now }
    ensures { OnOk result (draft.new ≡ append_tokens draft.old (spell_term version (reference (Trees.call (name_at (program_expressions program.now) name) (arguments_of program.now arguments.now))))) }
{
    draft.name(program.expressions().name_of(name))?;
    draft.symbol(Symbol::Open)?;
    match arguments {
        [] => draft.symbol(Symbol::Close),
        [first, rest @ ..] => {
            write_argument(program, version, call, *first, draft)?;
            write_further(program, version, call, rest, draft)
        }
    }
}

/// Appends further arguments of a call, each behind a comma, and the closing bracket.
#[cycle(term)]
#[tactic(auto, using(crate::proofs::Putting::tokens_apart))]
fn write_further(
    program: &Program,
    version: Version,
    call: TermId,
    arguments: &[Argument],
    draft: &mut Draft,
) -> Result<(), AllocError>
    requires within { All (ArgumentWithin program.now call) arguments.now }
    requires arguments_held { All (HoldsArgument program.now) arguments.now }
    ensures { OnOk result (draft.new ≡ append_tokens draft.old (spell_further (spell_arguments version (arguments_of program.now arguments.now)))) }
{
    for argument in arguments {
        draft.symbol(Symbol::Comma)?;
        write_argument(program, version, call, *argument, draft)?;
    }
    draft.symbol(Symbol::Close)
}

/// Appends an argument of a call.
#[cycle(term)]
#[tactic(auto, using(crate::proofs::Putting::tokens_apart))]
fn write_argument(
    program: &Program,
    version: Version,
    call: TermId,
    argument: Argument,
    draft: &mut Draft,
) -> Result<(), AllocError>
    requires within { ArgumentWithin program.now call argument }
    requires argument_held { HoldsArgument program.now argument }
    ensures { OnOk result (draft.new ≡ append_tokens draft.old (spell_argument version program.now argument)) }
{
    match argument {
        Argument::Value(value) => write_value(program, version, value, draft),
        Argument::Process(term) => {
            draft.keyword(Keyword::SignalFunction)?;
            write_term(program, version, term, draft)
        }
        Argument::Collection(members) => {
            draft.keyword(Keyword::Collection)?;
            write_members(program, version, call, members, draft)
        }
    }
}
