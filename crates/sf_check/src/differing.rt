//! What differs in a term that is refused.
ghost use Rattle.std.specs.Prelude.{◌≡◌, ◌<◌, ◌≤◌, All, IfOk, IfErr, OnOk, IfSome};
ghost use Rattle.sf_value.specs.KindView.{key_kind_of};
ghost use Rattle.sf_differ.specs.Differences.{Explains};
ghost use Rattle.sf_refusal.specs.declared.rule.Rule.TheVariants.{Mismatch};
ghost use Rattle.sf_refusal.specs.Refusals.{breach_of};
ghost use Rattle.sf_func.specs.Signatures.{signatures_in};
ghost use Rattle.sf_expr.specs.Scopes.{frame_entries};
ghost use Rattle.sf_differ.specs.Differing.{PatternDiffers, ExpressionDiffers, FunctionDiffers};
ghost use Rattle.sf_expr.specs.Arena.{expression, function_at, stored_pattern, Holds, HoldsFunction, HoldsName, HoldsPattern};
ghost use Rattle.sf_expr.specs.Typing.{Fits, HasType, FunctionTakes};
ghost use Rattle.sf_term.specs.declared.collection.CollectionId as collection_ids;
ghost use Rattle.sf_term.specs.declared.collection.CollExpr.TheVariants.{Used};
ghost use Rattle.sf_term.specs.ParameterView.{kind_of_form};
ghost use Rattle.sf_term.specs.Trees.{collection_depth};
ghost use Rattle.sf_term.specs.Arena.{term_number, term_node_at, program_expressions, tree, templates_of, argument_nodes, collection_node, collection_of, collection_tree, ArgumentBelow, CollectionBelow, HoldsTerm, HoldsTermParts, HoldsArgument, HoldsArguments, HoldsMembers, HoldsWhole};
ghost use Rattle.sf_term.specs.declared.form.Start.{Start};
ghost use Rattle.sf_mean.specs.Contexts.{names_of_values, outer_context, inside_pattern};
ghost use Rattle.sf_mean.specs.Typing.{Takes, Collects};
ghost use Rattle.sf_check.specs.Contexts.{program_in, context_in};
ghost use Rattle.sf_check.specs.Standing.{bindings_from, inside_names};
ghost use Rattle.sf_check.specs.Names.{names_of_set, program_names, NamesDiffer};
ghost use Rattle.sf_check.specs.Refusing.{RefusesNetwork};
ghost use Rattle.sf_check.specs.Breaking.{program_pattern, continuing_inside, members_inside, BindsInside, ArgumentKeeps};
ghost use Rattle.sf_check.specs.Differing.{bare_wants, value_wants, input_wants, timed_wants, start_wants, accumulated_wants, made_wants, PrimitiveDiffers, StopsBody, StopsEdit, TermDiffers, CollectionDiffers, ArgumentDiffersWithin, TemplateDiffers, NetworkDiffers};

use crate::blaming::{suits_keys, suits_members, suits_type};
use crate::body::{Body, Edit};
use crate::call_differing::explain_fit;
use crate::context::TypingContext;
use crate::member_types::{MemberTypes, table_type, type_of_keys};
use crate::names::template_names;
use crate::parameters::parameter_names;
use crate::typing::{
    accumulated_argument_type, check_template, output_of, parts, value_and_payload,
};
use indexmap::IndexSet;
use sf_differ::{Blame, Difference, Wanted, explain_function, pattern_blame, suited, typed};
use sf_expr::{ExprId, Frame, FunctionId, NameId, PatternId};
use sf_func::{Holds, Registry, Signatures};
use sf_operator::{event_type, pair_type as pair_of, payload};
use sf_refusal::{Refusal, Spot};
use sf_term::{
    Accumulation, Argument, ArgumentsId, Bare, CollExpr, CollectionId, Continuation, Editing,
    Heading, Join, Naming, Node, Observation, ParameterForm, Primitive, Program, Releasing, Side,
    Switch, Switching, Template, TermId, Timing, WithValue,
};
use sf_value::Ty;
use std::alloc::{AllocError, Global};

/// The type of a constant, or what differs in it.
fn constant(context: &TypingContext, value: ExprId) -> Result<Ty, Blame>
    requires { Holds (program_expressions (program_in context.now)) value }
    ensures ok { IfOk result (λ t. HasType (names_of_values (context_in context.now)) (expression (program_expressions (program_in context.now)) value) t) }
    ensures err { IfErr result (λ b. Explains (ExpressionDiffers (program_expressions (program_in context.now)) (names_of_values (context_in context.now)) value) b) }
{
    typed(
        context.alloc,
        context.program.expressions(),
        value,
        &context.names,
        context.functions,
    )
}

/// The type of what a function answers to values of a type, or what differs in it.
fn answer(
    context: &TypingContext,
    function: FunctionId,
    argument: &Ty,
    spot: Spot,
) -> Result<Ty, Blame>
    requires { HoldsFunction (program_expressions (program_in context.now)) function }
    ensures ok { IfOk result (λ t. FunctionTakes (names_of_values (context_in context.now)) (function_at (program_expressions (program_in context.now)) function) argument.now t) }
    ensures err { IfErr result (λ b. Explains (FunctionDiffers (program_expressions (program_in context.now)) (names_of_values (context_in context.now)) function argument.now spot) b) }
{
    let expressions = context.expressions();
    explain_function(&expressions, function, argument, spot)
}

/// Which inputs a primitive without constants wants; none where any will do.
fn bare_wanted(kind: Bare) -> Option<Wanted>
    ensures { result ≡ bare_wants kind }
{
    match kind {
        Bare::Identity => None,
        Bare::LocalTime => None,
        Bare::Integral => Some(Wanted::Exactly(Ty::int())),
        Bare::Edge => Some(Wanted::Exactly(Ty::bool())),
        Bare::NotYet => Some(Wanted::Event),
        Bare::Once => Some(Wanted::Event),
        Bare::Count => Some(Wanted::Event),
        Bare::Pre => None,
    }
}

/// Which values a primitive with a value wants; none where any will do.
fn value_wanted(kind: WithValue) -> Option<Wanted>
    ensures { result ≡ value_wants kind }
{
    match kind {
        WithValue::Constant => None,
        WithValue::Initially => None,
        WithValue::InitialPre => None,
        WithValue::InitializedPre => None,
        WithValue::Now => None,
        WithValue::InitialEdge => Some(Wanted::Exactly(Ty::bool())),
        WithValue::EdgeTag => None,
        WithValue::Hold => None,
        WithValue::DelayedHold => None,
    }
}

/// Which inputs it wants beside a value of a type; none where any will do. Refused at the spot where a type would be made of
/// more than 256 types.
fn input_wanted(
    alloc: Global,
    kind: WithValue,
    given: &Ty,
    spot: Spot,
) -> Result<Option<Wanted>, Refusal>
    ensures { IfOk result (λ w. w ≡ input_wants kind given.now) }
{
    match kind {
        WithValue::Constant => Ok(None),
        WithValue::Initially => Ok(Some(Wanted::Exactly(given.clone_in(alloc)?))),
        WithValue::InitialPre => Ok(Some(Wanted::Exactly(given.clone_in(alloc)?))),
        WithValue::InitializedPre => Ok(Some(Wanted::Exactly(given.clone_in(alloc)?))),
        WithValue::Now => Ok(None),
        WithValue::InitialEdge => Ok(Some(Wanted::Exactly(Ty::bool()))),
        WithValue::EdgeTag => Ok(Some(Wanted::Exactly(Ty::bool()))),
        WithValue::Hold => Ok(Some(Wanted::Exactly(event_type(alloc, given, spot)?))),
        WithValue::DelayedHold => Ok(Some(Wanted::Exactly(event_type(alloc, given, spot)?))),
    }
}

/// Which inputs a form with a time wants beside a value of a type; none where any will do.
fn timed_wanted(alloc: Global, kind: Timing, given: &Ty) -> Result<Option<Wanted>, AllocError>
    ensures { IfOk result (λ w. w ≡ timed_wants kind given.now) }
{
    match kind {
        Timing::After => Ok(None),
        Timing::Repeatedly => Ok(None),
        Timing::Delay => Ok(Some(Wanted::Exactly(given.clone_in(alloc)?))),
    }
}

/// Which values an accumulation wants to begin with, on inputs of a type; none where any will do.
fn start_wanted(alloc: Global, kind: Accumulation, input: &Ty) -> Result<Option<Wanted>, AllocError>
    ensures { IfOk result (λ w. w ≡ start_wants kind input.now) }
{
    match kind {
        Accumulation::EdgeBy => Ok(Some(Wanted::Exactly(input.clone_in(alloc)?))),
        Accumulation::AccumBy => Ok(None),
        Accumulation::AccumHoldBy => Ok(None),
        Accumulation::Scan => Ok(None),
    }
}

/// Which inputs it wants; none where any will do.
fn accumulated_wanted(kind: Accumulation) -> Option<Wanted>
    ensures { result ≡ accumulated_wants kind }
{
    match kind {
        Accumulation::EdgeBy => None,
        Accumulation::AccumBy => Some(Wanted::Event),
        Accumulation::AccumHoldBy => Some(Wanted::Event),
        Accumulation::Scan => None,
    }
}

/// Which values it wants its function to make, with a value of a type.
fn made_wanted(alloc: Global, kind: Accumulation, given: &Ty) -> Result<Option<Wanted>, AllocError>
    ensures { IfOk result (λ w. w ≡ made_wants kind given.now) }
{
    match kind {
        Accumulation::EdgeBy => Ok(Some(Wanted::Event)),
        Accumulation::AccumBy => Ok(Some(Wanted::Exactly(given.clone_in(alloc)?))),
        Accumulation::AccumHoldBy => Ok(Some(Wanted::Exactly(given.clone_in(alloc)?))),
        Accumulation::Scan => Ok(Some(Wanted::Exactly(given.clone_in(alloc)?))),
    }
}

/// What differs in a primitive with a value, on inputs of a type.
fn explain_value(
    context: &TypingContext,
    kind: WithValue,
    value: ExprId,
    input: &Ty,
    spot: Spot,
) -> Result<(), Blame>
    requires { Holds (program_expressions (program_in context.now)) value }
    ensures { IfErr result (λ b. Explains (PrimitiveDiffers (program_expressions (program_in context.now)) (context_in context.now) spot (Primitive.WithValue kind value) input.now) b) }
{
    let given = constant(context, value)?;
    suited(context.alloc, &given, value_wanted(kind), spot)?;
    let wanted = input_wanted(context.alloc, kind, &given, spot)?;
    suited(context.alloc, input, wanted, spot)
}

/// What differs in a form with a time, on inputs of a type.
fn explain_timed(
    context: &TypingContext,
    kind: Timing,
    time: i64,
    value: ExprId,
    input: &Ty,
    spot: Spot,
) -> Result<(), Blame>
    requires { Holds (program_expressions (program_in context.now)) value }
    ensures { IfErr result (λ b. Explains (PrimitiveDiffers (program_expressions (program_in context.now)) (context_in context.now) spot (Primitive.Timed kind time value) input.now) b) }
{
    let given = constant(context, value)?;
    let wanted = timed_wanted(context.alloc, kind, &given)?;
    suited(context.alloc, input, wanted, spot)
}

/// What differs in an accumulation, on inputs of a type.
fn explain_accumulated(
    context: &TypingContext,
    kind: Accumulation,
    value: ExprId,
    function: FunctionId,
    input: &Ty,
    spot: Spot,
) -> Result<(), Blame>
    requires value_held { Holds (program_expressions (program_in context.now)) value }
    requires function_held { HoldsFunction (program_expressions (program_in context.now)) function }
    ensures { IfErr result (λ b. Explains (PrimitiveDiffers (program_expressions (program_in context.now)) (context_in context.now) spot (Primitive.Accumulated kind value function) input.now) b) }
{
    let given = constant(context, value)?;
    suited(context.alloc, input, accumulated_wanted(kind), spot)?;
    let argument = accumulated_argument_type(context.alloc, kind, &given, input, spot)?;
    let made = answer(context, function, &argument, spot)?;
    let wanted = start_wanted(context.alloc, kind, input)?;
    suited(context.alloc, &given, wanted, spot)?;
    let wanted = made_wanted(context.alloc, kind, &given)?;
    suited(context.alloc, &made, wanted, spot)
}

/// What differs in the function of an `arr`, on inputs of a type.
fn explain_arrow(
    context: &TypingContext,
    function: FunctionId,
    input: &Ty,
    spot: Spot,
) -> Result<(), Blame>
    requires { HoldsFunction (program_expressions (program_in context.now)) function }
    ensures { IfErr result (λ b. Explains (PrimitiveDiffers (program_expressions (program_in context.now)) (context_in context.now) spot (Primitive.Arrow function) input.now) b) }
{
    answer(context, function, input, spot)?;
    Ok(())
}

/// What differs in a primitive, on inputs of a type.
fn explain_primitive(
    context: &TypingContext,
    primitive: Primitive,
    input: &Ty,
    spot: Spot,
) -> Result<(), Blame>
    requires { HoldsTermParts (program_in context.now) (Node.Primitive primitive) }
    ensures { IfErr result (λ b. Explains (PrimitiveDiffers (program_expressions (program_in context.now)) (context_in context.now) spot primitive input.now) b) }
{
    match primitive {
        Primitive::Bare(kind) => suited(context.alloc, input, bare_wanted(kind), spot),
        Primitive::Never(_) => Ok(()),
        Primitive::WithValue(kind, value) => { explain_value(context, kind, value, input, spot) }
        Primitive::Timed(kind, time, value) => {
            explain_timed(context, kind, time, value, input, spot)
        }
        Primitive::Selected(_, _) => suited(context.alloc, input, Some(Wanted::Event), spot),
        Primitive::Arrow(function) => explain_arrow(context, function, input, spot),
        Primitive::Accumulated(kind, value, function) => {
            explain_accumulated(context, kind, value, function, input, spot)
        }
    }
}

/// The type of the outputs of a term on inputs of a type, or what differs in it.
#[cycle(explain)]
fn part(context: &TypingContext, term: TermId, input: &Ty) -> Result<Ty, Blame>
    requires fits { Fits input.now }
    requires term_held { HoldsTerm (program_in context.now) term }
    ensures ok { IfOk result (λ t. Takes (context_in context.now) (tree (program_in context.now) term) input.now t) }
    ensures err { IfErr result (λ b. Explains (TermDiffers (program_in context.now) (context_in context.now) term input.now) b) }
{
    match output_of(context, term, input) {
        Ok(output) => Ok(output),
        Err(Refusal::Memory) => Err(Blame::Memory),
        Err(Refusal::Broken(_)) => {
            explain(context, term, input)?;
            Err(Blame::Silent)
        }
    }
}

/// What differs in two parts in sequence, on inputs of a type.
#[cycle(explain)]
fn explain_sequence(
    context: &TypingContext,
    term: TermId,
    left: TermId,
    right: TermId,
    input: &Ty,
) -> Result<(), Blame>
    requires fits { Fits input.now }
    requires there { term_node_at (program_in context.now) term ≡ Node.Joined Join.InSequence left right }
    requires below { (term_number left < term_number term) × (term_number right < term_number term) }
    requires left_held { HoldsTerm (program_in context.now) left }
    requires right_held { HoldsTerm (program_in context.now) right }
    ensures { IfErr result (λ b. Explains (TermDiffers (program_in context.now) (context_in context.now) term input.now) b) }
{
    let middle = part(context, left, input)?;
    part(context, right, &middle)?;
    Ok(())
}

/// What differs in two parts side by side, on inputs of a type.
#[cycle(explain)]
fn explain_parallel(
    context: &TypingContext,
    term: TermId,
    left: TermId,
    right: TermId,
    input: &Ty,
) -> Result<(), Blame>
    requires fits { Fits input.now }
    requires there { term_node_at (program_in context.now) term ≡ Node.Joined Join.InParallel left right }
    requires below { (term_number left < term_number term) × (term_number right < term_number term) }
    requires term_held { HoldsTerm (program_in context.now) term }
    requires left_held { HoldsTerm (program_in context.now) left }
    requires right_held { HoldsTerm (program_in context.now) right }
    ensures { IfErr result (λ b. Explains (TermDiffers (program_in context.now) (context_in context.now) term input.now) b) }
{
    let spot = context.program.spot(term);
    suited(context.alloc, input, Some(Wanted::Pair), spot)?;
    let (a, b) = parts(input, spot)?;
    part(context, left, a)?;
    part(context, right, b)?;
    Ok(())
}

/// What differs in two parts that both stand on the input, on inputs of a type.
#[cycle(explain)]
fn explain_fan(
    context: &TypingContext,
    term: TermId,
    left: TermId,
    right: TermId,
    input: &Ty,
) -> Result<(), Blame>
    requires fits { Fits input.now }
    requires there { term_node_at (program_in context.now) term ≡ Node.Joined Join.FannedOut left right }
    requires below { (term_number left < term_number term) × (term_number right < term_number term) }
    requires left_held { HoldsTerm (program_in context.now) left }
    requires right_held { HoldsTerm (program_in context.now) right }
    ensures { IfErr result (λ b. Explains (TermDiffers (program_in context.now) (context_in context.now) term input.now) b) }
{
    part(context, left, input)?;
    part(context, right, input)?;
    Ok(())
}

/// What differs in a part on one side of a pair, on inputs of a type.
#[cycle(explain)]
fn explain_sided(
    context: &TypingContext,
    term: TermId,
    side: Side,
    inner: TermId,
    input: &Ty,
) -> Result<(), Blame>
    requires fits { Fits input.now }
    requires there { term_node_at (program_in context.now) term ≡ Node.Sided side inner }
    requires below { term_number inner < term_number term }
    requires term_held { HoldsTerm (program_in context.now) term }
    requires inner_held { HoldsTerm (program_in context.now) inner }
    ensures { IfErr result (λ b. Explains (TermDiffers (program_in context.now) (context_in context.now) term input.now) b) }
{
    let spot = context.program.spot(term);
    suited(context.alloc, input, Some(Wanted::Pair), spot)?;
    let (a, b) = parts(input, spot)?;
    match side {
        Side::First => {
            part(context, inner, a)?;
            Ok(())
        }
        Side::Second => {
            part(context, inner, b)?;
            Ok(())
        }
    }
}

/// What differs in a part with a value at its head, on inputs of a type.
#[cycle(explain)]
fn explain_headed(
    context: &TypingContext,
    term: TermId,
    heading: Heading,
    value: ExprId,
    inner: TermId,
    input: &Ty,
) -> Result<(), Blame>
    requires fits { Fits input.now }
    requires there { term_node_at (program_in context.now) term ≡ Node.Headed heading value inner }
    requires below { term_number inner < term_number term }
    requires term_held { HoldsTerm (program_in context.now) term }
    requires value_held { Holds (program_expressions (program_in context.now)) value }
    requires inner_held { HoldsTerm (program_in context.now) inner }
    ensures { IfErr result (λ b. Explains (TermDiffers (program_in context.now) (context_in context.now) term input.now) b) }
{
    let spot = context.program.spot(term);
    let given = constant(context, value)?;
    match heading {
        Heading::LoopPre => {
            let fed = pair_of(context.alloc, input, &given, spot)?;
            let output = part(context, inner, &fed)?;
            suited(context.alloc, &output, Some(Wanted::PairWith(given)), spot)
        }
        Heading::Replaced => {
            part(context, inner, input)?;
            let wanted = Some(Wanted::Exactly(input.clone_in(context.alloc)?));
            suited(context.alloc, &given, wanted, spot)
        }
        Heading::Initialized | Heading::Followed => {
            let output = part(context, inner, input)?;
            suited(context.alloc, &output, Some(Wanted::Exactly(given)), spot)
        }
    }
}

/// What differs in a part whose first input is what a function makes of it, on inputs of a type.
#[cycle(explain)]
fn explain_transformed(
    context: &TypingContext,
    term: TermId,
    function: FunctionId,
    inner: TermId,
    input: &Ty,
) -> Result<(), Blame>
    requires fits { Fits input.now }
    requires there { term_node_at (program_in context.now) term ≡ Node.Transformed function inner }
    requires below { term_number inner < term_number term }
    requires term_held { HoldsTerm (program_in context.now) term }
    requires function_held { HoldsFunction (program_expressions (program_in context.now)) function }
    requires inner_held { HoldsTerm (program_in context.now) inner }
    ensures { IfErr result (λ b. Explains (TermDiffers (program_in context.now) (context_in context.now) term input.now) b) }
{
    let spot = context.program.spot(term);
    let made = answer(context, function, input, spot)?;
    part(context, inner, input)?;
    let wanted = Some(Wanted::Exactly(input.clone_in(context.alloc)?));
    suited(context.alloc, &made, wanted, spot)
}

/// What differs in a term that gives way at an event of its own, on inputs of a type.
#[cycle(explain)]
fn explain_basic(
    context: &TypingContext,
    term: TermId,
    shown: Observation,
    form: Switch,
    input: &Ty,
) -> Result<(), Blame>
    requires fits { Fits input.now }
    requires there { term_node_at (program_in context.now) term ≡ Node.Switching (record form { form = Switching.Basic shown }) }
    requires below { (term_number form.source < term_number term) × (term_number form.body < term_number term) }
    requires term_held { HoldsTerm (program_in context.now) term }
    requires form_held { HoldsTermParts (program_in context.now) (Node.Switching form) }
    ensures { IfErr result (λ b. Explains (TermDiffers (program_in context.now) (context_in context.now) term input.now) b) }
{
    let spot = context.program.spot(term);
    let output = part(context, form.source, input)?;
    suited(context.alloc, &output, Some(Wanted::EventBeside), spot)?;
    let (value, payload) = value_and_payload(&output, spot)?;
    let body = Body {
        pattern: form.pattern,
        payload,
        term: form.body,
        input,
        wanted: value,
        spot,
    };
    explain_body(context, &body)
}

/// What differs in a term that gives way at an event beside its input, on inputs of a type.
#[cycle(explain)]
fn explain_recurring(
    context: &TypingContext,
    term: TermId,
    shown: Observation,
    form: Switch,
    input: &Ty,
) -> Result<(), Blame>
    requires fits { Fits input.now }
    requires there { term_node_at (program_in context.now) term ≡ Node.Switching (record form { form = Switching.Recurring shown }) }
    requires below { (term_number form.source < term_number term) × (term_number form.body < term_number term) }
    requires term_held { HoldsTerm (program_in context.now) term }
    requires form_held { HoldsTermParts (program_in context.now) (Node.Switching form) }
    ensures { IfErr result (λ b. Explains (TermDiffers (program_in context.now) (context_in context.now) term input.now) b) }
{
    let spot = context.program.spot(term);
    suited(context.alloc, input, Some(Wanted::EventBeside), spot)?;
    let (value, payload) = value_and_payload(input, spot)?;
    let output = part(context, form.source, value)?;
    let body = Body {
        pattern: form.pattern,
        payload,
        term: form.body,
        input: value,
        wanted: &output,
        spot,
    };
    explain_body(context, &body)
}

/// What differs in a term that gives way at the event that an observer sees, and is then known by a name, on inputs of a type.
#[cycle(explain)]
fn explain_continuing(
    context: &TypingContext,
    term: TermId,
    form: Continuation,
    input: &Ty,
) -> Result<(), Blame>
    requires fits { Fits input.now }
    requires there { term_node_at (program_in context.now) term ≡ Node.Continuation form }
    requires below { (term_number form.source < term_number term) × (term_number form.observer < term_number term) × (term_number form.body < term_number term) }
    requires term_held { HoldsTerm (program_in context.now) term }
    requires form_held { HoldsTermParts (program_in context.now) (Node.Continuation form) }
    ensures { IfErr result (λ b. Explains (TermDiffers (program_in context.now) (context_in context.now) term input.now) b) }
{
    let spot = context.program.spot(term);
    let value = part(context, form.source, input)?;
    let watched = pair_of(context.alloc, input, &value, spot)?;
    let seen = part(context, form.observer, &watched)?;
    suited(context.alloc, &seen, Some(Wanted::Event), spot)?;
    let event = payload(&seen, spot)?;
    let body = Body {
        pattern: form.pattern,
        payload: event,
        term: form.body,
        input,
        wanted: &value,
        spot,
    };
    explain_kept(context, form.name, &body)
}

/// What differs in a body inside the name of a process from the one type to the other and a pattern for payloads of a type.
#[cycle(explain)]
fn explain_kept(context: &TypingContext, name: NameId, body: &Body) -> Result<(), Blame>
    requires fits { Fits body.now.input.now }
    requires name_held { HoldsName (program_expressions (program_in context.now)) name }
    requires body_held { HoldsPattern (program_expressions (program_in context.now)) body.now.pattern × HoldsTerm (program_in context.now) body.now.term }
    ensures { IfErr result (λ b. Explains (StopsBody (program_in context.now) (continuing_inside (program_in context.now) name body.now.input.now body.now.wanted.now (context_in context.now)) body.now) b) }
{
    let names = (&*context).process_name(name, &*body.input, &*body.wanted)?;
    explain_inside(context, &names, body)
}

/// What differs in members that give way at the event that an observer sees, and are then known by a name, on inputs of a type.
#[cycle(explain)]
fn explain_releasing(
    context: &TypingContext,
    term: TermId,
    form: Releasing,
    input: &Ty,
) -> Result<(), Blame>
    requires fits { Fits input.now }
    requires there { term_node_at (program_in context.now) term ≡ Node.Releasing form }
    requires below { CollectionBelow (term_number term) (collection_node (program_in context.now) form.members) × (term_number form.observer < term_number term) × (term_number form.body < term_number term) }
    requires term_held { HoldsTerm (program_in context.now) term }
    requires form_held { HoldsTermParts (program_in context.now) (Node.Releasing form) }
    ensures { IfErr result (λ b. Explains (TermDiffers (program_in context.now) (context_in context.now) term input.now) b) }
{
    let spot = context.program.spot(term);
    let types = members_at_part(context, term, form.members, input)?;
    let table = table_type(context.alloc, &types, spot)?;
    let watched = pair_of(context.alloc, input, &table, spot)?;
    let seen = part(context, form.observer, &watched)?;
    suited(context.alloc, &seen, Some(Wanted::Event), spot)?;
    let event = payload(&seen, spot)?;
    let body = Body {
        pattern: form.pattern,
        payload: event,
        term: form.body,
        input,
        wanted: &table,
        spot,
    };
    explain_released(context, form.name, &types, &body)
}

/// What differs in the body of members that give way to it, inside their name and a pattern for payloads of a type.
#[cycle(explain)]
fn explain_released(
    context: &TypingContext,
    name: NameId,
    types: &MemberTypes,
    body: &Body,
) -> Result<(), Blame>
    requires fits { Fits body.now.input.now }
    requires name_held { HoldsName (program_expressions (program_in context.now)) name }
    requires body_held { HoldsPattern (program_expressions (program_in context.now)) body.now.pattern × HoldsTerm (program_in context.now) body.now.term }
    ensures { IfErr result (λ b. Explains (StopsBody (program_in context.now) (members_inside (program_in context.now) name (key_kind_of types.now.keys) body.now.input.now types.now.output (context_in context.now)) body.now) b) }
{
    let names = (&*context).members_name(name, types.keys, &*body.input, &types.output)?;
    explain_inside(context, &names, body)
}

/// What differs in members that are edited at each event beside their inputs, on inputs of a type.
#[cycle(explain)]
fn explain_editing(
    context: &TypingContext,
    term: TermId,
    form: Editing,
    input: &Ty,
) -> Result<(), Blame>
    requires fits { Fits input.now }
    requires there { term_node_at (program_in context.now) term ≡ Node.Editing form }
    requires below { CollectionBelow (term_number term) (collection_node (program_in context.now) form.members) × CollectionBelow (term_number term) (collection_node (program_in context.now) form.edit) }
    requires term_held { HoldsTerm (program_in context.now) term }
    requires form_held { HoldsTermParts (program_in context.now) (Node.Editing form) }
    ensures { IfErr result (λ b. Explains (TermDiffers (program_in context.now) (context_in context.now) term input.now) b) }
{
    let spot = context.program.spot(term);
    suited(context.alloc, input, Some(Wanted::EventBeside), spot)?;
    let (value, payload) = value_and_payload(input, spot)?;
    let types = members_at_part(context, term, form.members, value)?;
    let edit = Edit {
        form,
        payload,
        input: value,
        wanted: &types,
        spot,
    };
    explain_edited(context, term, &edit)
}

/// What differs in an edit, which is to have the types of members, inside their name and a pattern for payloads of a type.
#[cycle(explain)]
fn explain_edited(context: &TypingContext, term: TermId, edit: &Edit) -> Result<(), Blame>
    requires fits { Fits edit.now.input.now }
    requires below { CollectionBelow (term_number term) (collection_node (program_in context.now) edit.now.form.edit) }
    requires shallow { collection_depth (collection_of (program_in context.now) (collection_node (program_in context.now) edit.now.form.edit)) ≤ 64 }
    requires edit_held { HoldsTermParts (program_in context.now) (Node.Editing edit.now.form) }
    ensures { IfErr result (λ b. Explains (StopsEdit (program_in context.now) (members_inside (program_in context.now) edit.now.form.name (key_kind_of edit.now.wanted.now.keys) edit.now.input.now edit.now.wanted.now.output (context_in context.now)) edit.now) b) }
{
    let wanted = edit.wanted;
    let names = (&*context).members_name(
        edit.form.name,
        wanted.keys,
        &*edit.input,
        &wanted.output,
    )?;
    explain_edit_inside(context, &names, term, edit)
}

/// What differs in an edit, which is to have the types of members, inside names and a pattern for payloads of a type.
#[cycle(explain)]
fn explain_edit_inside(
    context: &TypingContext,
    names: &Frame,
    term: TermId,
    edit: &Edit,
) -> Result<(), Blame>
    requires fits { Fits edit.now.input.now }
    requires below { CollectionBelow (term_number term) (collection_node (program_in context.now) edit.now.form.edit) }
    requires shallow { collection_depth (collection_of (program_in context.now) (collection_node (program_in context.now) edit.now.form.edit)) ≤ 64 }
    requires edit_held { HoldsTermParts (program_in context.now) (Node.Editing edit.now.form) }
    ensures { IfErr result (λ b. Explains (StopsEdit (program_in context.now) (inside_names names.now (context_in context.now)) edit.now) b) }
{
    let inner = (&*context).within(&*names)?;
    explain_edit(&inner, term, edit)
}

/// What differs in an edit, which is to have the types of members, inside a pattern for payloads of a type.
#[cycle(explain)]
fn explain_edit(context: &TypingContext, term: TermId, edit: &Edit) -> Result<(), Blame>
    requires fits { Fits edit.now.input.now }
    requires below { CollectionBelow (term_number term) (collection_node (program_in context.now) edit.now.form.edit) }
    requires shallow { collection_depth (collection_of (program_in context.now) (collection_node (program_in context.now) edit.now.form.edit)) ≤ 64 }
    requires edit_held { HoldsTermParts (program_in context.now) (Node.Editing edit.now.form) }
    ensures { IfErr result (λ b. Explains (StopsEdit (program_in context.now) (context_in context.now) edit.now) b) }
{
    let names = bound(&*context, edit.form.pattern, &*edit.payload, edit.spot)?;
    let given = members_part_within(context, &names, term, edit.form.edit, edit.input)?;
    let wanted = edit.wanted;
    suits_members(
        context.alloc,
        &given,
        wanted.keys,
        &wanted.output,
        edit.spot,
    )
}

/// The types of the collection at an id, which a form has, inside names, on inputs of a type, or what differs in it.
#[cycle(explain)]
fn members_part_within(
    context: &TypingContext,
    names: &Frame,
    form: TermId,
    members: CollectionId,
    input: &Ty,
) -> Result<MemberTypes, Blame>
    requires fits { Fits input.now }
    requires below { CollectionBelow (term_number form) (collection_node (program_in context.now) members) }
    requires shallow { collection_depth (collection_of (program_in context.now) (collection_node (program_in context.now) members)) ≤ 64 }
    requires members_held { HoldsWhole (program_in context.now) members }
    ensures ok { IfOk result (λ m. Collects (inside_names names.now (context_in context.now)) (collection_tree (program_in context.now) members) (key_kind_of m.keys) input.now m.output) }
    ensures err { IfErr result (λ b. Explains (CollectionDiffers (program_in context.now) (inside_names names.now (context_in context.now)) (collection_node (program_in context.now) members) input.now) b) }
{
    let inner = (&*context).within(&*names)?;
    members_at_part(&inner, form, members, input)
}

/// What differs in the collection whose members' tables a term gives, on inputs of a type.
#[cycle(explain)]
fn explain_gathered(
    context: &TypingContext,
    term: TermId,
    members: CollectionId,
    input: &Ty,
) -> Result<(), Blame>
    requires fits { Fits input.now }
    requires there { term_node_at (program_in context.now) term ≡ Node.Gathered members }
    requires below { CollectionBelow (term_number term) (collection_node (program_in context.now) members) }
    requires members_held { HoldsWhole (program_in context.now) members }
    ensures { IfErr result (λ b. Explains (TermDiffers (program_in context.now) (context_in context.now) term input.now) b) }
{
    members_at_part(context, term, members, input)?;
    Ok(())
}

/// The types of the collection at an id, which a form has, on inputs of a type, or what differs in it.
#[cycle(explain)]
fn members_at_part(
    context: &TypingContext,
    form: TermId,
    members: CollectionId,
    input: &Ty,
) -> Result<MemberTypes, Blame>
    requires fits { Fits input.now }
    requires below { CollectionBelow (term_number form) (collection_node (program_in context.now) members) }
    requires shallow { collection_depth (collection_of (program_in context.now) (collection_node (program_in context.now) members)) ≤ 64 }
    requires members_held { HoldsWhole (program_in context.now) members }
    ensures ok { IfOk result (λ m. Collects (context_in context.now) (collection_tree (program_in context.now) members) (key_kind_of m.keys) input.now m.output) }
    ensures err { IfErr result (λ b. Explains (CollectionDiffers (program_in context.now) (context_in context.now) (collection_node (program_in context.now) members) input.now) b) }
{
    members_part(context, form, context.program.collection(members), input)
}

/// The types of a collection, which a form has, on inputs of a type, or what differs in it.
#[cycle(explain)]
fn members_part(
    context: &TypingContext,
    form: TermId,
    collection: &CollExpr,
    input: &Ty,
) -> Result<MemberTypes, Blame>
    requires fits { Fits input.now }
    requires below { CollectionBelow (term_number form) collection.now }
    requires shallow { collection_depth (collection_of (program_in context.now) collection.now) ≤ 64 }
    requires collection_held { HoldsMembers (program_in context.now) collection.now }
    ensures ok { IfOk result (λ m. Collects (context_in context.now) (collection_of (program_in context.now) collection.now) (key_kind_of m.keys) input.now m.output) }
    ensures err { IfErr result (λ b. Explains (CollectionDiffers (program_in context.now) (context_in context.now) collection.now input.now) b) }
{
    match collection {
        CollExpr::Empty(keys, output, _) => Ok(MemberTypes::new(context.alloc, *keys, output)?),
        CollExpr::Used(name, place, spot) => { used_part(context, *name, *place, *spot, input) }
        CollExpr::Added(members, key, term, spot) => {
            let types = members_part(context, form, members, input)?;
            let given = constant(context, *key)?;
            let output = part(context, *term, input)?;
            suits_keys(context.alloc, &given, &types, *spot)?;
            suits_type(context.alloc, &output, &types.output, *spot)?;
            Ok(types)
        }
        CollExpr::Dropped(members, key, spot) => {
            let types = members_part(context, form, members, input)?;
            let given = constant(context, *key)?;
            suits_keys(context.alloc, &given, &types, *spot)?;
            Ok(types)
        }
        CollExpr::Kept(members, function, spot) => {
            let types = members_part(context, form, members, input)?;
            let keys = type_of_keys(types.keys);
            let kept = answer(context, *function, &keys, *spot)?;
            suits_type(context.alloc, &kept, &Ty::bool(), *spot)?;
            Ok(types)
        }
        CollExpr::Chosen(condition, one, other, spot) => {
            let given = constant(context, *condition)?;
            let types = members_part(context, form, one, input)?;
            let others = members_part(context, form, other, input)?;
            suits_type(context.alloc, &given, &Ty::bool(), *spot)?;
            suits_members(context.alloc, &others, types.keys, &types.output, *spot)?;
            Ok(types)
        }
    }
}

/// The types of the collection of a name, whose members are given inputs of a type, or what differs in these.
fn used_part(
    context: &TypingContext,
    name: NameId,
    place: Spot,
    spot: Spot,
    input: &Ty,
) -> Result<MemberTypes, Blame>
    requires { HoldsName (program_expressions (program_in context.now)) name }
    ensures ok { IfOk result (λ m. Collects (context_in context.now) (collection_of (program_in context.now) (Used name place spot)) (key_kind_of m.keys) input.now m.output) }
    ensures err { IfErr result (λ b. Explains (CollectionDiffers (program_in context.now) (context_in context.now) (Used name place spot) input.now) b) }
{
    let types = context.collection(name, place)?;
    suits_type(context.alloc, input, types.from, spot)?;
    Ok(MemberTypes::new(context.alloc, types.keys, types.to)?)
}

/// What differs in a body inside names and a pattern for payloads of a type.
#[cycle(explain)]
fn explain_inside(context: &TypingContext, names: &Frame, body: &Body) -> Result<(), Blame>
    requires fits { Fits body.now.input.now }
    requires body_held { HoldsPattern (program_expressions (program_in context.now)) body.now.pattern × HoldsTerm (program_in context.now) body.now.term }
    ensures { IfErr result (λ b. Explains (StopsBody (program_in context.now) (inside_names names.now (context_in context.now)) body.now) b) }
{
    let inner = (&*context).within(&*names)?;
    explain_body(&inner, body)
}

/// What differs in a body, which is to take inputs of a type to what is wanted of it, inside a pattern for payloads of a type.
#[cycle(explain)]
fn explain_body(context: &TypingContext, body: &Body) -> Result<(), Blame>
    requires fits { Fits body.now.input.now }
    requires body_held { HoldsPattern (program_expressions (program_in context.now)) body.now.pattern × HoldsTerm (program_in context.now) body.now.term }
    ensures { IfErr result (λ b. Explains (StopsBody (program_in context.now) (context_in context.now) body.now) b) }
{
    let names = bound(&*context, body.pattern, &*body.payload, body.spot)?;
    let given = part_within(context, &names, body.term, body.input)?;
    let wanted = Some(Wanted::Exactly(body.wanted.clone_in(context.alloc)?));
    suited(context.alloc, &given, wanted, body.spot)
}

/// The names of a pattern for a type, or what differs.
fn bound<'b>(
    context: &'b TypingContext,
    pattern: PatternId,
    ty: &'b Ty,
    spot: Spot,
) -> Result<Frame<'b>, Blame>
    requires { HoldsPattern (program_expressions (program_in context.now)) pattern }
    ensures inside { IfOk result (λ names. inside_names names (context_in context.now) ≡ inside_pattern (program_pattern (program_in context.now) pattern) ty.now (context_in context.now)) }
    ensures bound { OnOk result (BindsInside (program_pattern (program_in context.now) pattern) ty.now (context_in context.now)) }
    ensures err { IfErr result (λ b. Explains (PatternDiffers (stored_pattern (program_expressions (program_in context.now)) pattern) ty.now spot) b) }
{
    match context.pattern_names(pattern, ty, spot) {
        Ok(names) => Ok(names),
        Err(refusal) => {
            let placed = context.program.expressions().placed(pattern);
            Err(pattern_blame(context.alloc, placed, ty, refusal))
        }
    }
}

/// The type of the outputs of a body inside names, on inputs of a type, or what differs in it.
#[cycle(explain)]
fn part_within(
    context: &TypingContext,
    names: &Frame,
    body: TermId,
    input: &Ty,
) -> Result<Ty, Blame>
    requires fits { Fits input.now }
    requires body_held { HoldsTerm (program_in context.now) body }
    ensures ok { IfOk result (λ t. Takes (inside_names names.now (context_in context.now)) (tree (program_in context.now) body) input.now t) }
    ensures err { IfErr result (λ b. Explains (TermDiffers (program_in context.now) (inside_names names.now (context_in context.now)) body input.now) b) }
{
    let inner = (&*context).within(&*names)?;
    part(&inner, body, input)
}

/// What differs in the process of a name, on inputs of a type.
fn explain_process(
    context: &TypingContext,
    term: TermId,
    name: NameId,
    place: Spot,
    input: &Ty,
) -> Result<(), Blame>
    requires there { (start : Start) × (term_node_at (program_in context.now) term ≡ Node.Named (Naming.Process start) name place) }
    requires term_held { HoldsTerm (program_in context.now) term }
    requires name_held { HoldsName (program_expressions (program_in context.now)) name }
    ensures { IfErr result (λ b. Explains (TermDiffers (program_in context.now) (context_in context.now) term input.now) b) }
{
    let process = context.process(name, place)?;
    let wanted = Some(Wanted::Exactly(process.from.clone_in(context.alloc)?));
    suited(context.alloc, input, wanted, context.program.spot(term))
}

/// Nothing where an argument of a call is typed; else what differs within it. Nothing is said where a term or a collection
/// stands for another one or for a value.
#[cycle(explain)]
fn explain_argument(
    context: &TypingContext,
    term: TermId,
    argument: Argument,
    parameter: &ParameterForm,
) -> Result<(), Blame>
    requires below { ArgumentBelow (program_in context.now) (term_number term) argument }
    requires shallow { (i : collection_ids.CollectionId) → argument ≡ Argument.Collection i → collection_depth (collection_of (program_in context.now) (collection_node (program_in context.now) i)) ≤ 64 }
    requires argument_held { HoldsArgument (program_in context.now) argument }
    ensures ok { OnOk result (ArgumentKeeps (program_in context.now) (context_in context.now) argument (kind_of_form parameter.now)) }
    ensures err { IfErr result (λ b. Explains (ArgumentDiffersWithin (program_in context.now) (context_in context.now) argument (kind_of_form parameter.now)) b) }
{
    match (argument, parameter) {
        (Argument::Value(value), _) => {
            constant(context, value)?;
            Ok(())
        }
        (Argument::Process(inner), ParameterForm::Process(from, _)) => {
            prove!(from.nodes() <= 256);
            part(context, inner, from)?;
            Ok(())
        }
        (Argument::Collection(members), ParameterForm::Collection(_, from, _)) => {
            prove!(from.nodes() <= 256);
            members_at_part(context, term, members, from)?;
            Ok(())
        }
        (Argument::Process(_), ParameterForm::Value(_)) => Err(Blame::Silent),
        (Argument::Process(_), ParameterForm::Collection(_, _, _)) => Err(Blame::Silent),
        (Argument::Collection(_), ParameterForm::Value(_)) => Err(Blame::Silent),
        (Argument::Collection(_), ParameterForm::Process(_, _)) => Err(Blame::Silent),
    }
}

/// What differs in a call of a template, on inputs of a type. Nothing is said where there is no template of its name, or where it
/// has another number of parameters.
#[cycle(explain)]
fn explain_call(
    context: &TypingContext,
    term: TermId,
    name: NameId,
    arguments: ArgumentsId,
    input: &Ty,
) -> Result<(), Blame>
    requires there { term_node_at (program_in context.now) term ≡ Node.Call name arguments }
    requires below { All (ArgumentBelow (program_in context.now) (term_number term)) (argument_nodes (program_in context.now) arguments) }
    requires term_held { HoldsTerm (program_in context.now) term }
    requires name_held { HoldsName (program_expressions (program_in context.now)) name }
    requires arguments_held { HoldsArguments (program_in context.now) arguments × All (HoldsArgument (program_in context.now)) (argument_nodes (program_in context.now) arguments) }
    ensures { IfErr result (λ b. Explains (TermDiffers (program_in context.now) (context_in context.now) term input.now) b) }
{
    let Some(template) = context.template(name) else {
        return Ok(());
    };
    let arguments = context.program.arguments(arguments);
    let parameters = template.parameters();
    if arguments.len() != parameters.len() {
        return Ok(());
    }
    for (argument, parameter) in arguments.iter().zip(parameters) {
        explain_argument(context, term, *argument, parameter.form())?;
    }
    explain_fit(context, term, arguments, template, input)
}

/// What differs in a term that is refused on inputs of a type.
#[cycle(explain)]
fn explain(context: &TypingContext, term: TermId, input: &Ty) -> Result<(), Blame>
    requires fits { Fits input.now }
    requires term_held { HoldsTerm (program_in context.now) term }
    ensures { IfErr result (λ b. Explains (TermDiffers (program_in context.now) (context_in context.now) term input.now) b) }
{
    match context.program.node(term) {
        Node::Primitive(primitive) => { explain_primitive_at(context, term, primitive, input) }
        Node::Named(Naming::Process(_), name, place) => {
            explain_process(context, term, name, place, input)
        }
        Node::Named(Naming::Probe, _, _) => Ok(()),
        Node::Call(name, arguments) => explain_call(context, term, name, arguments, input),
        Node::Joined(Join::InSequence, left, right) => {
            explain_sequence(context, term, left, right, input)
        }
        Node::Joined(Join::InParallel, left, right) => {
            explain_parallel(context, term, left, right, input)
        }
        Node::Joined(Join::FannedOut, left, right) => {
            explain_fan(context, term, left, right, input)
        }
        Node::Sided(side, inner) => explain_sided(context, term, side, inner, input),
        Node::Headed(heading, value, inner) => {
            explain_headed(context, term, heading, value, inner, input)
        }
        Node::Transformed(function, inner) => {
            explain_transformed(context, term, function, inner, input)
        }
        Node::Switching(form) => match form.form {
            Switching::Basic(shown) => explain_basic(context, term, shown, form, input),
            Switching::Recurring(shown) => { explain_recurring(context, term, shown, form, input) }
        },
        Node::Continuation(form) => explain_continuing(context, term, form, input),
        Node::Gathered(members) => explain_gathered(context, term, members, input),
        Node::Releasing(form) => explain_releasing(context, term, form, input),
        Node::Editing(form) => explain_editing(context, term, form, input),
    }
}

/// What differs in the primitive at an id, on inputs of a type.
fn explain_primitive_at(
    context: &TypingContext,
    term: TermId,
    primitive: Primitive,
    input: &Ty,
) -> Result<(), Blame>
    requires there { term_node_at (program_in context.now) term ≡ Node.Primitive primitive }
    requires term_held { HoldsTerm (program_in context.now) term }
    requires primitive_held { HoldsTermParts (program_in context.now) (Node.Primitive primitive) }
    ensures { IfErr result (λ b. Explains (TermDiffers (program_in context.now) (context_in context.now) term input.now) b) }
{
    explain_primitive(context, primitive, input, context.program.spot(term))
}

/// The type of the outputs of the body of a template inside the names of its parameters, on its inputs, or what differs in it. The
/// names of templates are those of all, in order.
fn template_part(
    alloc: Global,
    program: &Program,
    templates: &IndexSet<String>,
    functions: &Signatures,
    names: &Frame,
    template: &Template,
) -> Result<Ty, Blame>
    requires names { names_of_set templates.now ≡ program_names program.now }
    requires body_held { HoldsTerm program.now template.now.body }
    ensures ok { IfOk result (λ t. Takes (outer_context (signatures_in functions.now) (bindings_from (frame_entries names.now)) (templates_of program.now)) (tree program.now template.now.body) template.now.input t) }
    ensures err { IfErr result (λ b. Explains (TermDiffers program.now (outer_context (signatures_in functions.now) (bindings_from (frame_entries names.now)) (templates_of program.now)) template.now.body template.now.input) b) }
{
    let context = TypingContext::of_body(alloc, program, templates, functions, &*names)?;
    let input = template.input();
    prove!(input.nodes() <= 256);
    part(&context, template.body(), input)
}

/// What differs in a template. The names are those of all templates, in order.
fn explain_template(
    alloc: Global,
    program: &Program,
    names: &IndexSet<String>,
    functions: &Signatures,
    template: &Template,
) -> Result<(), Blame>
    requires names { names_of_set names.now ≡ program_names program.now }
    requires body_held { HoldsTerm program.now template.now.body }
    ensures { IfErr result (λ b. Explains (TemplateDiffers (signatures_in functions.now) program.now template.now) b) }
{
    let parameters = parameter_names(alloc, template.parameters())?;
    let body = template.body();
    let output = template_part(alloc, program, names, functions, &parameters, template)?;
    let wanted = Some(Wanted::Exactly(template.output().clone_in(alloc)?));
    suited(alloc, &output, wanted, program.spot(body))
}

/// What differs in the first template that is refused. The names are those of all templates, in order.
fn explain_templates(
    alloc: Global,
    program: &Program,
    names: &IndexSet<String>,
    functions: &Signatures,
) -> Result<(), Blame>
    requires listed { names_of_set names.now ≡ program_names program.now }
    requires different { NamesDiffer program.now }
    ensures { IfErr result (λ b. Explains (NetworkDiffers (signatures_in functions.now) program.now) b) }
{
    for template in program.templates() {
        match check_template(alloc, program, names, functions, template) {
            Ok(()) => {}
            Err(Refusal::Memory) => return Err(Blame::Memory),
            Err(Refusal::Broken(_)) => {
                return explain_template(alloc, program, names, functions, template);
            }
        }
    }
    Ok(())
}

/// What differs in a network, with stored functions of these types.
fn explain_network(alloc: Global, program: &Program, functions: &Signatures) -> Result<(), Blame>
    ensures { IfErr result (λ b. Explains (NetworkDiffers (signatures_in functions.now) program.now) b) }
{
    let names = template_names(alloc, program)?;
    explain_templates(alloc, program, &names, functions)
}

/// What was found and what is wanted where `check` refuses a network for `Mismatch`: the place is that of the refusal.
///
/// `None` where it is refused for another rule or not at all. So it is where what is blamed is a name that stands for no value,
/// for no process or for no collection, or an argument of another sort than its parameter, as a process for a value. And so it is
/// where a type that would be named is made of more than 256 types.
pub fn difference(
    alloc: Global,
    program: &Program,
    functions: &Registry,
) -> Result<Option<Difference>, AllocError>
    // In the form that is blamed stands a type that was found, and in its place others are wanted.
    ensures differs { IfOk result (λ found. IfSome found (λ d. NetworkDiffers (⟦<Registry as Holds>⟧.types functions.now) program.now d)) }
    // `check` refuses the network there.
    ensures refused { IfOk result (λ found. IfSome found (λ d. RefusesNetwork (⟦<Registry as Holds>⟧.types functions.now) program.now (breach_of Mismatch d.spot))) }
{
    let signatures = functions.signatures(alloc)?;
    match explain_network(alloc, program, &signatures) {
        Ok(()) => Ok(None),
        Err(Blame::Silent) => Ok(None),
        Err(Blame::Memory) => Err(AllocError),
        Err(Blame::Differs(difference)) => Ok(Some(difference)),
    }
}
