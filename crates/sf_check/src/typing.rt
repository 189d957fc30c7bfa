//! The types of terms, under contexts.
ghost use Rattle.std.specs.Prelude.{◌≡◌, ◌<◌, ◌≤◌, All, Some, IfOk, IfErr, OnOk};
ghost use Rattle.sf_value.specs.Values.{pair_kind, event_kind, table_kind, IsNoPair};
ghost use Rattle.sf_value.specs.KindView.{key_kind_of};
ghost use Rattle.sf_refusal.specs.Refusals.{broken, OrMemory};
ghost use Rattle.sf_refusal.specs.declared.rule.Rule.TheVariants.{Mismatch};
ghost use Rattle.sf_func.specs.Signatures.{signatures_in};
ghost use Rattle.sf_expr.specs.Arena.{Holds, HoldsFunction, HoldsName, HoldsConstant, HoldsPattern};
ghost use Rattle.sf_expr.specs.Refusals.{Judges};
ghost use Rattle.sf_expr.specs.Judging.{matching_at, judged_fitting, judged, function_judged, Stops, GivesFound};
ghost use Rattle.sf_expr.specs.Typing.{Fits};
ghost use Rattle.sf_term.specs.Trees.{collection_depth};
ghost use Rattle.sf_term.specs.Arena.{term_number, term_node_at, term_spot_at, program_expressions, argument_nodes, collection_node, collection_of, ArgumentBelow, CollectionBelow, TermPartsBelow, HoldsTerm, HoldsTermParts, HoldsArgument, HoldsArguments, HoldsMembers, HoldsWhole, term_template, templates_of};
ghost use Rattle.sf_term.specs.declared.collection.CollExpr.TheVariants.{Used};
ghost use Rattle.sf_term.specs.declared.collection.CollectionId as collection_ids;
ghost use Rattle.sf_term.specs.ParameterView.{kind_of_form};
ghost use Rattle.sf_expr.specs.declared.exprs.Exprs.{Exprs};
ghost use Rattle.sf_term.specs.declared.form.Start.{Start};
ghost use Rattle.sf_term.specs.declared.form.Selection.{Selection};
ghost use Rattle.sf_expr.specs.Scopes.{frame_entries};
ghost use Rattle.sf_mean.specs.Contexts.{Context, names_of_values, outer_context};
ghost use Rattle.sf_mean.specs.Inference.{value_is_argument};
ghost use Rattle.sf_check.specs.Standing.{bindings_from, inside_names, continuing_inside, members_inside};
ghost use Rattle.sf_operator.specs.Breaches.{AnswersKind};
ghost use Rattle.sf_operator.specs.Kinds.{same_kind, parts_of, payload_of};
ghost use Rattle.sf_mean.specs.Typing.{value_kind, timed_kind, selected_kind, accumulated_argument, accumulated_kind, IsTyped};
ghost use Rattle.sf_mean.specs.Typing;
ghost use Rattle.sf_check.specs.Contexts.{program_in, context_in};
ghost use Rattle.sf_check.specs.Judging.{asked, judged_beside, wanted_at, judged_fed, primitive_judged, argument_judged, members_judged, judged_as, term_judged, judged_body, judged_edit, GivesMembers};
ghost use Rattle.sf_check.specs.Answering.{AnswersBare, AnswersTerm, AnswersMembers};
ghost use Rattle.sf_check.specs.Names.{names_of_set, program_names};
ghost use Rattle.sf_check.specs.Breaking.{IsNoEventBeside, TemplateBreaks, AreTyped, IsFirstBreak};

use crate::body::{Body, Edit};
use crate::context::TypingContext;
use crate::member_types::{MemberTypes, are_members, table_type, type_of_keys};
use crate::parameters::parameter_names;
use indexmap::IndexSet;
use sf_expr::{
    ConstantForm, ConstantId, ExprId, Frame, FunctionId, NameId, function_type, type_of,
};
use sf_func::Signatures;
use sf_operator::{event_type, pair_type as pair_of, payload, same};
use sf_refusal::{Refusal, Rule, Spot};
use sf_term::{
    Accumulation, Argument, ArgumentsId, Bare, CollExpr, CollectionId, Continuation, Editing,
    Heading, Join, Naming, Node, Observation, ParameterForm, Primitive, Program, Releasing, Side,
    Switch, Switching, Template, TermId, Timing, WithValue,
};
use sf_value::{Ty, same_type};
use std::alloc::Global;

/// The two parts of a type of pairs; another type is refused with `Mismatch` at the spot.
pub(crate) fn parts(ty: &Ty, spot: Spot) -> Result<(&Ty, &Ty), Refusal>
    ensures ok { IfOk result (λ parts. ty.now ≡ pair_kind parts.0.now parts.1.now) }
    ensures fits { IfOk result (λ parts. Fits parts.0.now × Fits parts.1.now) }
    ensures found { IfOk result (λ parts. matching_at spot (parts_of ty.now) ≡ Ok (parts.0.now, parts.1.now)) }
    ensures err { IfErr result (λ r. (r ≡ broken Mismatch spot) × IsNoPair ty.now) }
    ensures stops { IfErr result (λ r. Stops r (matching_at spot (parts_of ty.now))) }
{
    match ty.parts() {
        Some(parts) => Ok(parts),
        None => Err(Refusal::broken(Rule::Mismatch, spot)),
    }
}

/// The type of a value and that of the payload of the event beside it, of a type of pairs of both; another type is refused
/// with `Mismatch` at the spot.
pub(crate) fn value_and_payload(ty: &Ty, spot: Spot) -> Result<(&Ty, &Ty), Refusal>
    ensures ok { IfOk result (λ types. ty.now ≡ pair_kind types.0.now (event_kind types.1.now)) }
    ensures fits { IfOk result (λ types. Fits types.0.now) }
    ensures found { IfOk result (λ types. judged_beside spot ty.now ≡ Ok (types.0.now, types.1.now)) }
    ensures err { IfErr result (λ r. (r ≡ broken Mismatch spot) × IsNoEventBeside ty.now) }
    ensures stops { IfErr result (λ r. Stops r (judged_beside spot ty.now)) }
{
    let (value, event) = parts(ty, spot)?;
    Ok((value, payload(event, spot)?))
}

/// Whether two types are the same.
fn is_same(left: &Ty, right: &Ty) -> bool
    ensures { result ≡ same_kind left.now right.now }
{
    same_type(left, right)
}

/// Nothing where two types are the same; else refused with `Mismatch` at the spot.
fn agree(left: &Ty, right: &Ty, spot: Spot) -> Result<(), Refusal>
    ensures { GivesFound result (asked Mismatch spot (same_kind left.now right.now)) }
{
    if is_same(left, right) {
        Ok(())
    } else {
        Err(Refusal::broken(Rule::Mismatch, spot))
    }
}

/// The type of the payloads of a type of events; another type is refused with `Mismatch` at the spot.
fn payload_at(ty: &Ty, spot: Spot) -> Result<&Ty, Refusal>
    ensures found { IfOk result (λ t. matching_at spot (payload_of ty.now) ≡ Ok t.now) }
    ensures stops { IfErr result (λ r. Stops r (matching_at spot (payload_of ty.now))) }
{
    payload(ty, spot)
}

/// The type of pairs of two types. Refused at the spot with `TypeTooLarge`, and with `Memory`.
#[tactic(auto, using(sf_expr::proofs::Judged::kind_answers))]
fn both_at(alloc: Global, first: &Ty, second: &Ty, spot: Spot) -> Result<Ty, Refusal>
    ensures { GivesFound result (judged_fitting spot (Some (pair_kind first.now second.now))) }
{
    pair_of(alloc, first, second, spot)
}

/// The type of the tables of members with these types. Refused at the spot with `TypeTooLarge`, and with `Memory`.
#[tactic(auto, using(sf_expr::proofs::Judged::kind_answers))]
fn table_at(alloc: Global, types: &MemberTypes, spot: Spot) -> Result<Ty, Refusal>
    ensures { GivesFound result (judged_fitting spot (Some (table_kind (key_kind_of types.now.keys) types.now.output))) }
{
    table_type(alloc, types, spot)
}

/// The type of a value.
fn value_type(context: &TypingContext, value: ExprId) -> Result<Ty, Refusal>
    requires { Holds (program_expressions (program_in context.now)) value }
    ensures { GivesFound result (judged (program_expressions (program_in context.now)) value (names_of_values (context_in context.now))) }
{
    type_of(
        context.alloc,
        context.program.expressions(),
        value,
        &context.names,
        context.functions,
    )
}

/// The type of a constant.
pub(crate) fn constant_type(context: &TypingContext, value: ExprId) -> Result<Ty, Refusal>
    requires { Holds (program_expressions (program_in context.now)) value }
    ensures { Judges (program_expressions (program_in context.now)) (names_of_values (context_in context.now)) value result }
{
    value_type(context, value)
}

/// The type of the outputs of a primitive without constants on inputs of a type. Refused at the spot with `BarePre` where it
/// is `pre`, which stands behind `-->` alone, with `Mismatch` where it is none on such inputs, then with `TypeTooLarge`, and
/// with `Memory`.
fn bare_output(alloc: Global, kind: Bare, input: &Ty, spot: Spot) -> Result<Ty, Refusal>
    ensures { AnswersBare kind input.now spot result }
{
    match kind {
        Bare::Identity => Ok(input.clone_in(alloc)?),
        Bare::LocalTime => Ok(Ty::int()),
        Bare::Integral => {
            same(input, &Ty::int(), spot)?;
            Ok(Ty::int())
        }
        Bare::Edge => {
            same(input, &Ty::bool(), spot)?;
            event_type(alloc, &Ty::unit(), spot)
        }
        Bare::NotYet => {
            payload(input, spot)?;
            Ok(input.clone_in(alloc)?)
        }
        Bare::Once => {
            payload(input, spot)?;
            Ok(input.clone_in(alloc)?)
        }
        Bare::Count => {
            payload(input, spot)?;
            event_type(alloc, &Ty::int(), spot)
        }
        Bare::Pre => Err(Refusal::broken(Rule::BarePre, spot)),
    }
}

/// The type of no event, of payloads of the type of a constant. Refused at the spot with `TypeTooLarge`, and with `Memory`.
fn never_output(
    context: &TypingContext,
    constant: ConstantId,
    input: &Ty,
    spot: Spot,
) -> Result<Ty, Refusal>
    requires { HoldsConstant (program_expressions (program_in context.now)) constant }
    ensures { GivesFound result (primitive_judged (program_expressions (program_in context.now)) spot (Primitive.Never constant) (context_in context.now) input.now) }
{
    let constant = context.program.expressions().constant_at(constant);
    match constant.form() {
        ConstantForm::NoEvent(payload) => event_type(context.alloc, payload, spot),
        ConstantForm::Text(_) => event_type(context.alloc, &Ty::unit(), spot),
    }
}

/// The type of the outputs of a primitive with a value of a type on inputs of a type. Refused at the spot with `Mismatch`
/// where it is none on such inputs, then with `TypeTooLarge`, and with `Memory`.
fn given_output(
    alloc: Global,
    kind: WithValue,
    given: Ty,
    input: &Ty,
    spot: Spot,
) -> Result<Ty, Refusal>
    ensures { AnswersKind (value_kind kind given input.now) spot result }
{
    match kind {
        WithValue::Constant => Ok(given),
        WithValue::Initially => {
            same(input, &given, spot)?;
            Ok(given)
        }
        WithValue::InitialPre => {
            same(input, &given, spot)?;
            Ok(given)
        }
        WithValue::InitializedPre => {
            same(input, &given, spot)?;
            Ok(given)
        }
        WithValue::Now => event_type(alloc, &given, spot),
        WithValue::InitialEdge => {
            same(input, &Ty::bool(), spot)?;
            same(&given, &Ty::bool(), spot)?;
            event_type(alloc, &Ty::unit(), spot)
        }
        WithValue::EdgeTag => {
            same(input, &Ty::bool(), spot)?;
            event_type(alloc, &given, spot)
        }
        WithValue::Hold => {
            same(payload(input, spot)?, &given, spot)?;
            Ok(given)
        }
        WithValue::DelayedHold => {
            same(payload(input, spot)?, &given, spot)?;
            Ok(given)
        }
    }
}

/// The type of the outputs of a primitive with a value on inputs of a type.
#[tactic(auto, using(sf_expr::proofs::Judged::stops_then, sf_expr::proofs::Judged::kind_answers))]
fn value_output(
    context: &TypingContext,
    kind: WithValue,
    value: ExprId,
    input: &Ty,
    spot: Spot,
) -> Result<Ty, Refusal>
    requires { Holds (program_expressions (program_in context.now)) value }
    ensures { GivesFound result (primitive_judged (program_expressions (program_in context.now)) spot (Primitive.WithValue kind value) (context_in context.now) input.now) }
{
    let given = value_type(context, value)?;
    given_output(context.alloc, kind, given, input, spot)
}

/// Whether a form takes a time, in milliseconds.
fn takes_time(kind: Timing, time: i64) -> bool
    ensures { result ≡ Typing.takes_time kind time }
{
    match kind {
        Timing::After => 0 <= time && time <= 1_000_000_000_000,
        Timing::Repeatedly | Timing::Delay => 1 <= time && time <= 1_000_000_000_000,
    }
}

/// Nothing where a form with a value of a type takes inputs of a type; else refused at the spot with `Mismatch`.
fn takes_input(kind: Timing, given: &Ty, input: &Ty, spot: Spot) -> Result<(), Refusal>
    ensures { GivesFound result (asked Mismatch spot (Typing.takes_input kind given.now input.now)) }
{
    match kind {
        Timing::After | Timing::Repeatedly => Ok(()),
        Timing::Delay => agree(input, given, spot),
    }
}

/// The type of the outputs of a primitive with a time and a value of a type. Refused at the spot with `TypeTooLarge`, and
/// with `Memory`.
fn timed_type(alloc: Global, kind: Timing, given: Ty, spot: Spot) -> Result<Ty, Refusal>
    ensures { AnswersKind (timed_kind kind given) spot result }
{
    match kind {
        Timing::After | Timing::Repeatedly => event_type(alloc, &given, spot),
        Timing::Delay => Ok(given),
    }
}

/// The type of the outputs of a primitive with a time and a value on inputs of a type.
#[tactic(auto, using(sf_expr::proofs::Judged::stops_then))]
fn timed_output(
    context: &TypingContext,
    kind: Timing,
    time: i64,
    value: ExprId,
    input: &Ty,
    spot: Spot,
) -> Result<Ty, Refusal>
    requires { Holds (program_expressions (program_in context.now)) value }
    ensures { GivesFound result (primitive_judged (program_expressions (program_in context.now)) spot (Primitive.Timed kind time value) (context_in context.now) input.now) }
{
    let given = value_type(context, value)?;
    takes_input(kind, &given, input, spot)?;
    if !takes_time(kind, time) {
        return Err(Refusal::broken(Rule::BadConstant, spot));
    }
    timed_type(context.alloc, kind, given, spot)
}

/// Whether this is a number of events that a form takes.
fn takes_number(count: i64) -> bool
    ensures { result ≡ Typing.takes_number count }
{
    0 <= count && count <= 1_000_000_000
}

/// The type of the outputs of a primitive with a number of events on inputs of a type, whatever the number. Refused at the
/// spot with `Mismatch` where it is none on such inputs, and with `Memory`.
fn selected_type(alloc: Global, input: &Ty, spot: Spot) -> Result<Ty, Refusal>
    ensures { AnswersKind (selected_kind input.now) spot result }
{
    payload(input, spot)?;
    Ok(input.clone_in(alloc)?)
}

/// The type of the outputs of a primitive with a number of events on inputs of a type.
fn selected_output(alloc: Global, count: i64, input: &Ty, spot: Spot) -> Result<Ty, Refusal>
    ensures { (x : Exprs) (Γ : Context) (kind : Selection) → GivesFound result (primitive_judged x spot (Primitive.Selected kind count) Γ input.now) }
{
    let output = selected_type(alloc, input, spot)?;
    if !takes_number(count) {
        return Err(Refusal::broken(Rule::BadConstant, spot));
    }
    Ok(output)
}

/// The type of what a function answers to values of a type.
fn answer_type(
    context: &TypingContext,
    function: FunctionId,
    argument: &Ty,
    spot: Spot,
) -> Result<Ty, Refusal>
    requires { HoldsFunction (program_expressions (program_in context.now)) function }
    ensures { GivesFound result (function_judged (program_expressions (program_in context.now)) function spot argument.now (names_of_values (context_in context.now))) }
{
    let expressions = context.expressions();
    function_type(&expressions, function, argument, spot)
}

/// The type of what the function of an accumulation takes, with a value of a type, on inputs of a type. Refused at the spot
/// with `Mismatch` where it is none on such inputs, then with `TypeTooLarge`, and with `Memory`.
pub(crate) fn accumulated_argument_type(
    alloc: Global,
    kind: Accumulation,
    given: &Ty,
    input: &Ty,
    spot: Spot,
) -> Result<Ty, Refusal>
    ensures { AnswersKind (accumulated_argument kind given.now input.now) spot result }
{
    match kind {
        Accumulation::EdgeBy => pair_of(alloc, input, input, spot),
        Accumulation::AccumBy => pair_of(alloc, given, payload(input, spot)?, spot),
        Accumulation::AccumHoldBy => pair_of(alloc, given, payload(input, spot)?, spot),
        Accumulation::Scan => pair_of(alloc, given, input, spot),
    }
}

/// The type of the outputs of an accumulation with a value of a type on inputs of a type, where its function makes values
/// of a type. Refused at the spot with `Mismatch` where it makes none of these, then with `TypeTooLarge`, and with `Memory`.
fn accumulated_type(
    alloc: Global,
    kind: Accumulation,
    given: Ty,
    input: &Ty,
    made: Ty,
    spot: Spot,
) -> Result<Ty, Refusal>
    ensures { AnswersKind (accumulated_kind kind given input.now made) spot result }
{
    match kind {
        Accumulation::EdgeBy => {
            same(input, &given, spot)?;
            payload(&made, spot)?;
            Ok(made)
        }
        Accumulation::AccumBy => {
            same(&made, &given, spot)?;
            event_type(alloc, &given, spot)
        }
        Accumulation::AccumHoldBy => {
            same(&made, &given, spot)?;
            Ok(given)
        }
        Accumulation::Scan => {
            same(&made, &given, spot)?;
            Ok(given)
        }
    }
}

/// The type of the outputs of an accumulation on inputs of a type.
#[tactic(auto, using(sf_expr::proofs::Judged::stops_then))]
fn accumulated_output(
    context: &TypingContext,
    kind: Accumulation,
    value: ExprId,
    function: FunctionId,
    input: &Ty,
    spot: Spot,
) -> Result<Ty, Refusal>
    requires value_held { Holds (program_expressions (program_in context.now)) value }
    requires function_held { HoldsFunction (program_expressions (program_in context.now)) function }
    ensures { GivesFound result (primitive_judged (program_expressions (program_in context.now)) spot (Primitive.Accumulated kind value function) (context_in context.now) input.now) }
{
    let given = value_type(context, value)?;
    let argument = accumulated_argument_type(context.alloc, kind, &given, input, spot)?;
    let made = answer_type(context, function, &argument, spot)?;
    accumulated_type(context.alloc, kind, given, input, made, spot)
}

/// The type of the outputs of a primitive on inputs of a type.
fn primitive_output(
    context: &TypingContext,
    primitive: Primitive,
    input: &Ty,
    spot: Spot,
) -> Result<Ty, Refusal>
    requires { HoldsTermParts (program_in context.now) (Node.Primitive primitive) }
    ensures { GivesFound result (primitive_judged (program_expressions (program_in context.now)) spot primitive (context_in context.now) input.now) }
{
    match primitive {
        Primitive::Bare(kind) => bare_output(context.alloc, kind, input, spot),
        Primitive::Never(constant) => never_output(context, constant, input, spot),
        Primitive::WithValue(kind, value) => { value_output(context, kind, value, input, spot) }
        Primitive::Timed(kind, time, value) => {
            timed_output(context, kind, time, value, input, spot)
        }
        Primitive::Selected(_, count) => selected_output(context.alloc, count, input, spot),
        Primitive::Arrow(function) => answer_type(context, function, input, spot),
        Primitive::Accumulated(kind, value, function) => {
            accumulated_output(context, kind, value, function, input, spot)
        }
    }
}

/// The type of the outputs of a loop, by the type of its part's outputs: pairs, whose second parts are fed back.
#[tactic(auto, using(sf_expr::proofs::Judged::stops_then))]
fn loop_output(alloc: Global, output: &Ty, fed: &Ty, spot: Spot) -> Result<Ty, Refusal>
    ensures { GivesFound result (judged_fed spot output.now fed.now) }
{
    let (first, second) = parts(output, spot)?;
    agree(second, fed, spot)?;
    Ok(first.clone_in(alloc)?)
}

/// The type of the outputs of two parts that are joined on inputs of a type.
#[cycle(output)]
fn joined_output(
    context: &TypingContext,
    term: TermId,
    join: Join,
    left: TermId,
    right: TermId,
    input: &Ty,
) -> Result<Ty, Refusal>
    requires below { (term_number left < term_number term) × (term_number right < term_number term) }
    requires term_held { HoldsTerm (program_in context.now) term }
    requires left_held { HoldsTerm (program_in context.now) left }
    requires right_held { HoldsTerm (program_in context.now) right }
    ensures { GivesFound result (judged_as (program_in context.now) term (Node.Joined join left right) (context_in context.now) input.now) }
{
    match join {
        Join::InSequence => sequence_output(context, term, left, right, input),
        Join::InParallel => parallel_output(context, term, left, right, input),
        Join::FannedOut => fan_output(context, term, left, right, input),
    }
}

/// The type of the outputs of two parts in sequence on inputs of a type.
#[cycle(output)]
#[tactic(auto, using(sf_expr::proofs::Judged::stops_then))]
fn sequence_output(
    context: &TypingContext,
    term: TermId,
    left: TermId,
    right: TermId,
    input: &Ty,
) -> Result<Ty, Refusal>
    requires below { (term_number left < term_number term) × (term_number right < term_number term) }
    requires left_held { HoldsTerm (program_in context.now) left }
    requires right_held { HoldsTerm (program_in context.now) right }
    ensures { GivesFound result (judged_as (program_in context.now) term (Node.Joined Join.InSequence left right) (context_in context.now) input.now) }
{
    let middle = judge(context, left, input)?;
    judge(context, right, &middle)
}

/// The type of the outputs of two parts side by side on inputs of a type.
#[cycle(output)]
#[tactic(auto, using(sf_expr::proofs::Judged::stops_then))]
fn parallel_output(
    context: &TypingContext,
    term: TermId,
    left: TermId,
    right: TermId,
    input: &Ty,
) -> Result<Ty, Refusal>
    requires below { (term_number left < term_number term) × (term_number right < term_number term) }
    requires term_held { HoldsTerm (program_in context.now) term }
    requires left_held { HoldsTerm (program_in context.now) left }
    requires right_held { HoldsTerm (program_in context.now) right }
    ensures { GivesFound result (judged_as (program_in context.now) term (Node.Joined Join.InParallel left right) (context_in context.now) input.now) }
{
    let spot = context.program.spot(term);
    let (a, b) = parts(input, spot)?;
    let first = judge(context, left, a)?;
    let second = judge(context, right, b)?;
    both_at(context.alloc, &first, &second, spot)
}

/// The type of the outputs of two parts that both stand on the input, on inputs of a type.
#[cycle(output)]
#[tactic(auto, using(sf_expr::proofs::Judged::stops_then))]
fn fan_output(
    context: &TypingContext,
    term: TermId,
    left: TermId,
    right: TermId,
    input: &Ty,
) -> Result<Ty, Refusal>
    requires below { (term_number left < term_number term) × (term_number right < term_number term) }
    requires term_held { HoldsTerm (program_in context.now) term }
    requires left_held { HoldsTerm (program_in context.now) left }
    requires right_held { HoldsTerm (program_in context.now) right }
    ensures { GivesFound result (judged_as (program_in context.now) term (Node.Joined Join.FannedOut left right) (context_in context.now) input.now) }
{
    let spot = context.program.spot(term);
    let first = judge(context, left, input)?;
    let second = judge(context, right, input)?;
    both_at(context.alloc, &first, &second, spot)
}

/// The type of the outputs of a part on one side of a pair, on inputs of a type.
#[cycle(output)]
#[tactic(auto, using(sf_expr::proofs::Judged::stops_then))]
fn sided_output(
    context: &TypingContext,
    term: TermId,
    side: Side,
    part: TermId,
    input: &Ty,
) -> Result<Ty, Refusal>
    requires below { term_number part < term_number term }
    requires term_held { HoldsTerm (program_in context.now) term }
    requires part_held { HoldsTerm (program_in context.now) part }
    ensures { GivesFound result (judged_as (program_in context.now) term (Node.Sided side part) (context_in context.now) input.now) }
{
    let spot = context.program.spot(term);
    let (a, b) = parts(input, spot)?;
    match side {
        Side::First => {
            let first = judge(context, part, a)?;
            both_at(context.alloc, &first, b, spot)
        }
        Side::Second => {
            let second = judge(context, part, b)?;
            both_at(context.alloc, a, &second, spot)
        }
    }
}

/// The type of outputs, where it is the one that is wanted; another one is refused with `Mismatch` at the spot.
fn wanted_output(output: Ty, wanted: &Ty, spot: Spot) -> Result<Ty, Refusal>
    ensures { GivesFound result (wanted_at spot output wanted.now) }
{
    agree(&output, wanted, spot)?;
    Ok(output)
}

/// The type of the outputs of a body, on inputs of a type, which gives what is wanted of it inside the pattern for payloads of
/// a type.
#[cycle(output)]
fn body_output(context: &TypingContext, body: &Body) -> Result<Ty, Refusal>
    requires { HoldsPattern (program_expressions (program_in context.now)) body.now.pattern × HoldsTerm (program_in context.now) body.now.term }
    ensures { GivesFound result (judged_body (program_in context.now) body.now (context_in context.now)) }
{
    let names = (&*context).pattern_names(body.pattern, &*body.payload, body.spot)?;
    let given = output_within(context, &names, body.term, body.input)?;
    wanted_output(given, body.wanted, body.spot)
}

/// The type of the outputs of a body inside names, on inputs of a type.
#[cycle(output)]
fn output_within(
    context: &TypingContext,
    names: &Frame,
    body: TermId,
    input: &Ty,
) -> Result<Ty, Refusal>
    requires { HoldsTerm (program_in context.now) body }
    ensures { GivesFound result (term_judged (program_in context.now) body (inside_names names.now (context_in context.now)) input.now) }
{
    let inner = (&*context).within(&*names)?;
    judge(&inner, body, input)
}

/// The type of the outputs of a part with a value at its head, on inputs of a type. A value that is fed back has the type of
/// the second outputs, one in the place of an input that of the inputs, and any other that of the outputs.
#[cycle(output)]
#[tactic(auto, using(sf_expr::proofs::Judged::stops_then))]
fn headed_output(
    context: &TypingContext,
    term: TermId,
    heading: Heading,
    value: ExprId,
    part: TermId,
    input: &Ty,
) -> Result<Ty, Refusal>
    requires below { term_number part < term_number term }
    requires term_held { HoldsTerm (program_in context.now) term }
    requires value_held { Holds (program_expressions (program_in context.now)) value }
    requires part_held { HoldsTerm (program_in context.now) part }
    ensures { GivesFound result (judged_as (program_in context.now) term (Node.Headed heading value part) (context_in context.now) input.now) }
{
    let spot = context.program.spot(term);
    let given = value_type(context, value)?;
    match heading {
        Heading::LoopPre => {
            let fed = both_at(context.alloc, input, &given, spot)?;
            let output = judge(context, part, &fed)?;
            loop_output(context.alloc, &output, &given, spot)
        }
        Heading::Replaced => {
            let output = judge(context, part, input)?;
            agree(&given, input, spot)?;
            Ok(output)
        }
        Heading::Initialized | Heading::Followed => {
            let output = judge(context, part, input)?;
            wanted_output(output, &given, spot)
        }
    }
}

/// The type of the outputs of a part whose first input is what a function makes of it, on inputs of a type.
#[cycle(output)]
#[tactic(auto, using(sf_expr::proofs::Judged::stops_then))]
fn transformed_output(
    context: &TypingContext,
    term: TermId,
    function: FunctionId,
    part: TermId,
    input: &Ty,
) -> Result<Ty, Refusal>
    requires below { term_number part < term_number term }
    requires term_held { HoldsTerm (program_in context.now) term }
    requires function_held { HoldsFunction (program_expressions (program_in context.now)) function }
    requires part_held { HoldsTerm (program_in context.now) part }
    ensures { GivesFound result (judged_as (program_in context.now) term (Node.Transformed function part) (context_in context.now) input.now) }
{
    let spot = context.program.spot(term);
    let made = answer_type(context, function, input, spot)?;
    let output = judge(context, part, input)?;
    agree(&made, input, spot)?;
    Ok(output)
}

/// The type of the outputs of a term that gives way to another inside a pattern, on inputs of a type.
#[cycle(output)]
fn switching_output(
    context: &TypingContext,
    term: TermId,
    form: Switch,
    input: &Ty,
) -> Result<Ty, Refusal>
    requires below { (term_number form.source < term_number term) × (term_number form.body < term_number term) }
    requires term_held { HoldsTerm (program_in context.now) term }
    requires form_held { HoldsTermParts (program_in context.now) (Node.Switching form) }
    ensures { GivesFound result (judged_as (program_in context.now) term (Node.Switching form) (context_in context.now) input.now) }
{
    match form.form {
        Switching::Basic(shown) => basic_output(context, term, shown, form, input),
        Switching::Recurring(shown) => recurring_output(context, term, shown, form, input),
    }
}

/// The type of the outputs of a term that gives way at an event of its own, on inputs of a type.
#[cycle(output)]
#[tactic(auto, using(sf_expr::proofs::Judged::stops_then))]
fn basic_output(
    context: &TypingContext,
    term: TermId,
    shown: Observation,
    form: Switch,
    input: &Ty,
) -> Result<Ty, Refusal>
    requires below { (term_number form.source < term_number term) × (term_number form.body < term_number term) }
    requires term_held { HoldsTerm (program_in context.now) term }
    requires form_held { HoldsTermParts (program_in context.now) (Node.Switching form) }
    ensures { GivesFound result (judged_as (program_in context.now) term (Node.Switching (record form { form = Switching.Basic shown })) (context_in context.now) input.now) }
{
    let spot = context.program.spot(term);
    let output = judge(context, form.source, input)?;
    let (value, payload) = value_and_payload(&output, spot)?;
    let body = Body {
        pattern: form.pattern,
        payload,
        term: form.body,
        input,
        wanted: value,
        spot,
    };
    body_output(context, &body)
}

/// The type of the outputs of a term that gives way at an event beside its input, on inputs of a type.
#[cycle(output)]
#[tactic(auto, using(sf_expr::proofs::Judged::stops_then))]
fn recurring_output(
    context: &TypingContext,
    term: TermId,
    shown: Observation,
    form: Switch,
    input: &Ty,
) -> Result<Ty, Refusal>
    requires below { (term_number form.source < term_number term) × (term_number form.body < term_number term) }
    requires term_held { HoldsTerm (program_in context.now) term }
    requires form_held { HoldsTermParts (program_in context.now) (Node.Switching form) }
    ensures { GivesFound result (judged_as (program_in context.now) term (Node.Switching (record form { form = Switching.Recurring shown })) (context_in context.now) input.now) }
{
    let spot = context.program.spot(term);
    let (value, payload) = value_and_payload(input, spot)?;
    let output = judge(context, form.source, value)?;
    let body = Body {
        pattern: form.pattern,
        payload,
        term: form.body,
        input: value,
        wanted: &output,
        spot,
    };
    body_output(context, &body)
}

/// The type of the outputs of a term that gives way to another inside a pattern at the event that an observer sees, and is
/// then known by a name, on inputs of a type.
#[cycle(output)]
#[tactic(auto, using(sf_expr::proofs::Judged::stops_then))]
fn continuing_output(
    context: &TypingContext,
    term: TermId,
    form: Continuation,
    input: &Ty,
) -> Result<Ty, Refusal>
    requires below { (term_number form.source < term_number term) × (term_number form.observer < term_number term) × (term_number form.body < term_number term) }
    requires term_held { HoldsTerm (program_in context.now) term }
    requires form_held { HoldsTermParts (program_in context.now) (Node.Continuation form) }
    ensures { GivesFound result (judged_as (program_in context.now) term (Node.Continuation form) (context_in context.now) input.now) }
{
    let spot = context.program.spot(term);
    let value = judge(context, form.source, input)?;
    let watched = both_at(context.alloc, input, &value, spot)?;
    let seen = judge(context, form.observer, &watched)?;
    let payload = payload_at(&seen, spot)?;
    let body = Body {
        pattern: form.pattern,
        payload,
        term: form.body,
        input,
        wanted: &value,
        spot,
    };
    kept_output(context, form.name, &body)
}

/// The type of the outputs of a body, on inputs of a type, which gives what is wanted of it inside the pattern for payloads of
/// a type and the name of a process from the one to the other.
#[cycle(output)]
fn kept_output(context: &TypingContext, name: NameId, body: &Body) -> Result<Ty, Refusal>
    requires name_held { HoldsName (program_expressions (program_in context.now)) name }
    requires body_held { HoldsPattern (program_expressions (program_in context.now)) body.now.pattern × HoldsTerm (program_in context.now) body.now.term }
    ensures { GivesFound result (judged_body (program_in context.now) body.now (continuing_inside (program_in context.now) name body.now.input.now body.now.wanted.now (context_in context.now))) }
{
    let names = (&*context).process_name(name, &*body.input, &*body.wanted)?;
    body_within(context, &names, body)
}

/// The type of the outputs of a body inside names, on inputs of a type, which gives what is wanted of it inside the pattern
/// for payloads of a type.
#[cycle(output)]
fn body_within(context: &TypingContext, names: &Frame, body: &Body) -> Result<Ty, Refusal>
    requires { HoldsPattern (program_expressions (program_in context.now)) body.now.pattern × HoldsTerm (program_in context.now) body.now.term }
    ensures { GivesFound result (judged_body (program_in context.now) body.now (inside_names names.now (context_in context.now))) }
{
    let inner = (&*context).within(&*names)?;
    body_output(&inner, body)
}

/// The types of the collection of a name, whose members are given inputs of a type.
#[tactic(auto, using(sf_expr::proofs::Judged::stops_then))]
fn used_types(
    context: &TypingContext,
    name: NameId,
    place: Spot,
    spot: Spot,
    input: &Ty,
) -> Result<MemberTypes, Refusal>
    requires { HoldsName (program_expressions (program_in context.now)) name }
    ensures { GivesMembers result (members_judged (program_in context.now) (term_judged (program_in context.now)) (Used name place spot) (context_in context.now) input.now) }
{
    let types = context.collection(name, place)?;
    agree(input, types.from, spot)?;
    Ok(MemberTypes::new(context.alloc, types.keys, types.to)?)
}

/// Nothing where two collections have the same types; else refused with `Mismatch` at the spot.
fn same_members(left: &MemberTypes, right: &MemberTypes, spot: Spot) -> Result<(), Refusal>
    ensures { GivesFound result (asked Mismatch spot (same_kind (table_kind (key_kind_of left.now.keys) left.now.output) (table_kind (key_kind_of right.now.keys) right.now.output))) }
{
    if are_members(left, right.keys, &right.output) {
        Ok(())
    } else {
        Err(Refusal::broken(Rule::Mismatch, spot))
    }
}

/// The types of the collection at an id, which a form has, on inputs of a type.
#[cycle(output)]
fn judge_members(
    context: &TypingContext,
    form: TermId,
    members: CollectionId,
    input: &Ty,
) -> Result<MemberTypes, Refusal>
    requires below { CollectionBelow (term_number form) (collection_node (program_in context.now) members) }
    requires shallow { collection_depth (collection_of (program_in context.now) (collection_node (program_in context.now) members)) ≤ 64 }
    requires members_held { HoldsWhole (program_in context.now) members }
    ensures { GivesMembers result (members_judged (program_in context.now) (term_judged (program_in context.now)) (collection_node (program_in context.now) members) (context_in context.now) input.now) }
{
    members_of(context, form, context.program.collection(members), input)
}

/// The types of a collection, which a form has, on inputs of a type, or the first rule that is broken in it.
#[cycle(output)]
#[tactic(auto, using(sf_expr::proofs::Judged::stops_then))]
fn members_of(
    context: &TypingContext,
    form: TermId,
    collection: &CollExpr,
    input: &Ty,
) -> Result<MemberTypes, Refusal>
    requires below { CollectionBelow (term_number form) collection.now }
    requires shallow { collection_depth (collection_of (program_in context.now) collection.now) ≤ 64 }
    requires collection_held { HoldsMembers (program_in context.now) collection.now }
    ensures { GivesMembers result (members_judged (program_in context.now) (term_judged (program_in context.now)) collection.now (context_in context.now) input.now) }
{
    match collection {
        CollExpr::Empty(keys, output, _) => Ok(MemberTypes::new(context.alloc, *keys, output)?),
        CollExpr::Used(name, place, spot) => { used_types(context, *name, *place, *spot, input) }
        CollExpr::Added(members, key, term, spot) => {
            prove!(input.nodes() <= 256);
            let types = members_of(context, form, members, input)?;
            let given = value_type(context, *key)?;
            let output = judge(context, *term, input)?;
            agree(&given, &type_of_keys(types.keys), *spot)?;
            agree(&output, &types.output, *spot)?;
            Ok(types)
        }
        CollExpr::Dropped(members, key, spot) => {
            let types = members_of(context, form, members, input)?;
            let given = value_type(context, *key)?;
            agree(&given, &type_of_keys(types.keys), *spot)?;
            Ok(types)
        }
        CollExpr::Kept(members, function, spot) => {
            let types = members_of(context, form, members, input)?;
            let keys = type_of_keys(types.keys);
            let kept = answer_type(context, *function, &keys, *spot)?;
            agree(&kept, &Ty::bool(), *spot)?;
            Ok(types)
        }
        CollExpr::Chosen(condition, one, other, spot) => {
            let given = value_type(context, *condition)?;
            let types = members_of(context, form, one, input)?;
            let others = members_of(context, form, other, input)?;
            agree(&given, &Ty::bool(), *spot)?;
            same_members(&others, &types, *spot)?;
            Ok(types)
        }
    }
}

/// The type of the tables that the members of a collection give, on inputs of a type.
#[cycle(output)]
#[tactic(auto, using(sf_expr::proofs::Judged::stops_then))]
fn gathered_output(
    context: &TypingContext,
    term: TermId,
    members: CollectionId,
    input: &Ty,
) -> Result<Ty, Refusal>
    requires there { term_node_at (program_in context.now) term ≡ Node.Gathered members }
    requires below { CollectionBelow (term_number term) (collection_node (program_in context.now) members) }
    requires term_held { HoldsTerm (program_in context.now) term }
    requires members_held { HoldsWhole (program_in context.now) members }
    ensures { GivesFound result (judged_as (program_in context.now) term (Node.Gathered members) (context_in context.now) input.now) }
{
    let types = judge_members(context, term, members, input)?;
    table_at(context.alloc, &types, context.program.spot(term))
}

/// The type of the outputs of members that give way to a body inside a pattern at the event that an observer sees, and are then
/// known by a name, on inputs of a type.
#[cycle(output)]
#[tactic(auto, using(sf_expr::proofs::Judged::stops_then))]
fn releasing_output(
    context: &TypingContext,
    term: TermId,
    form: Releasing,
    input: &Ty,
) -> Result<Ty, Refusal>
    requires there { term_node_at (program_in context.now) term ≡ Node.Releasing form }
    requires below { CollectionBelow (term_number term) (collection_node (program_in context.now) form.members) × (term_number form.observer < term_number term) × (term_number form.body < term_number term) }
    requires term_held { HoldsTerm (program_in context.now) term }
    requires form_held { HoldsTermParts (program_in context.now) (Node.Releasing form) }
    ensures { GivesFound result (judged_as (program_in context.now) term (Node.Releasing form) (context_in context.now) input.now) }
{
    let spot = context.program.spot(term);
    let types = judge_members(context, term, form.members, input)?;
    let table = table_at(context.alloc, &types, spot)?;
    let watched = both_at(context.alloc, input, &table, spot)?;
    let seen = judge(context, form.observer, &watched)?;
    let payload = payload_at(&seen, spot)?;
    let body = Body {
        pattern: form.pattern,
        payload,
        term: form.body,
        input,
        wanted: &table,
        spot,
    };
    released_output(context, form.name, &types, &body)
}

/// The type of the outputs of the body of members that give way to it, on inputs of a type, which gives their tables inside the
/// pattern for payloads of a type and the name of the members.
#[cycle(output)]
fn released_output(
    context: &TypingContext,
    name: NameId,
    types: &MemberTypes,
    body: &Body,
) -> Result<Ty, Refusal>
    requires name_held { HoldsName (program_expressions (program_in context.now)) name }
    requires body_held { HoldsPattern (program_expressions (program_in context.now)) body.now.pattern × HoldsTerm (program_in context.now) body.now.term }
    ensures { GivesFound result (judged_body (program_in context.now) body.now (members_inside (program_in context.now) name (key_kind_of types.now.keys) body.now.input.now types.now.output (context_in context.now))) }
{
    let names = (&*context).members_name(name, types.keys, &*body.input, &types.output)?;
    body_within(context, &names, body)
}

/// The type of the outputs of members that are edited at each event beside their inputs, on inputs of a type.
#[cycle(output)]
#[tactic(auto, using(sf_expr::proofs::Judged::stops_then))]
fn editing_output(
    context: &TypingContext,
    term: TermId,
    form: Editing,
    input: &Ty,
) -> Result<Ty, Refusal>
    requires there { term_node_at (program_in context.now) term ≡ Node.Editing form }
    requires below { CollectionBelow (term_number term) (collection_node (program_in context.now) form.members) × CollectionBelow (term_number term) (collection_node (program_in context.now) form.edit) }
    requires term_held { HoldsTerm (program_in context.now) term }
    requires form_held { HoldsTermParts (program_in context.now) (Node.Editing form) }
    ensures { GivesFound result (judged_as (program_in context.now) term (Node.Editing form) (context_in context.now) input.now) }
{
    let spot = context.program.spot(term);
    let (value, payload) = value_and_payload(input, spot)?;
    let types = judge_members(context, term, form.members, value)?;
    let edit = Edit {
        form,
        payload,
        input: value,
        wanted: &types,
        spot,
    };
    edited_types(context, term, &edit)?;
    table_at(context.alloc, &types, spot)
}

/// The types of an edit, on inputs of a type, which has the types that are wanted of it inside the pattern for payloads of a
/// type and the name of members of these types.
#[cycle(output)]
fn edited_types(context: &TypingContext, term: TermId, edit: &Edit) -> Result<MemberTypes, Refusal>
    requires below { CollectionBelow (term_number term) (collection_node (program_in context.now) edit.now.form.edit) }
    requires shallow { collection_depth (collection_of (program_in context.now) (collection_node (program_in context.now) edit.now.form.edit)) ≤ 64 }
    requires edit_held { HoldsTermParts (program_in context.now) (Node.Editing edit.now.form) }
    ensures { GivesMembers result (judged_edit (program_in context.now) edit.now (members_inside (program_in context.now) edit.now.form.name (key_kind_of edit.now.wanted.now.keys) edit.now.input.now edit.now.wanted.now.output (context_in context.now))) }
{
    let wanted = edit.wanted;
    let names = (&*context).members_name(
        edit.form.name,
        wanted.keys,
        &*edit.input,
        &wanted.output,
    )?;
    edit_within(context, &names, term, edit)
}

/// The types of an edit inside names, on inputs of a type, which has the types that are wanted of it inside the pattern for
/// payloads of a type.
#[cycle(output)]
fn edit_within(
    context: &TypingContext,
    names: &Frame,
    term: TermId,
    edit: &Edit,
) -> Result<MemberTypes, Refusal>
    requires below { CollectionBelow (term_number term) (collection_node (program_in context.now) edit.now.form.edit) }
    requires shallow { collection_depth (collection_of (program_in context.now) (collection_node (program_in context.now) edit.now.form.edit)) ≤ 64 }
    requires edit_held { HoldsTermParts (program_in context.now) (Node.Editing edit.now.form) }
    ensures { GivesMembers result (judged_edit (program_in context.now) edit.now (inside_names names.now (context_in context.now))) }
{
    let inner = (&*context).within(&*names)?;
    edit_types(&inner, term, edit)
}

/// The types of an edit, on inputs of a type, which has the types that are wanted of it inside the pattern for payloads of a
/// type.
#[cycle(output)]
fn edit_types(context: &TypingContext, term: TermId, edit: &Edit) -> Result<MemberTypes, Refusal>
    requires below { CollectionBelow (term_number term) (collection_node (program_in context.now) edit.now.form.edit) }
    requires shallow { collection_depth (collection_of (program_in context.now) (collection_node (program_in context.now) edit.now.form.edit)) ≤ 64 }
    requires edit_held { HoldsTermParts (program_in context.now) (Node.Editing edit.now.form) }
    ensures { GivesMembers result (judged_edit (program_in context.now) edit.now (context_in context.now)) }
{
    let names = (&*context).pattern_names(edit.form.pattern, &*edit.payload, edit.spot)?;
    let given = members_within(context, &names, term, edit.form.edit, edit.input)?;
    same_members(&given, edit.wanted, edit.spot)?;
    Ok(given)
}

/// The types of the collection at an id, which a form has, inside names, on inputs of a type.
#[cycle(output)]
fn members_within(
    context: &TypingContext,
    names: &Frame,
    form: TermId,
    members: CollectionId,
    input: &Ty,
) -> Result<MemberTypes, Refusal>
    requires below { CollectionBelow (term_number form) (collection_node (program_in context.now) members) }
    requires shallow { collection_depth (collection_of (program_in context.now) (collection_node (program_in context.now) members)) ≤ 64 }
    requires members_held { HoldsWhole (program_in context.now) members }
    ensures { GivesMembers result (members_judged (program_in context.now) (term_judged (program_in context.now)) (collection_node (program_in context.now) members) (inside_names names.now (context_in context.now)) input.now) }
{
    let inner = (&*context).within(&*names)?;
    judge_members(&inner, form, members, input)
}

/// The type of the outputs of the process of a name on inputs of a type.
fn process_output(
    context: &TypingContext,
    term: TermId,
    name: NameId,
    place: Spot,
    input: &Ty,
) -> Result<Ty, Refusal>
    requires term_held { HoldsTerm (program_in context.now) term }
    requires name_held { HoldsName (program_expressions (program_in context.now)) name }
    ensures { (start : Start) → GivesFound result (judged_as (program_in context.now) term (Node.Named (Naming.Process start) name place) (context_in context.now) input.now) }
{
    let process = context.process(name, place)?;
    agree(input, process.from, context.program.spot(term))?;
    Ok(process.to.clone_in(context.alloc)?)
}

/// The type of the outputs of a form that is a name alone on inputs of a type.
fn named_output(
    context: &TypingContext,
    term: TermId,
    naming: Naming,
    name: NameId,
    place: Spot,
    input: &Ty,
) -> Result<Ty, Refusal>
    requires term_held { HoldsTerm (program_in context.now) term }
    requires name_held { HoldsName (program_expressions (program_in context.now)) name }
    ensures { GivesFound result (judged_as (program_in context.now) term (Node.Named naming name place) (context_in context.now) input.now) }
{
    match naming {
        Naming::Process(_) => process_output(context, term, name, place, input),
        Naming::Probe => Ok(input.clone_in(context.alloc)?),
    }
}

/// Whether a parameter stands for a value of a type.
fn takes_value(parameter: &ParameterForm, given: &Ty) -> bool
    ensures { result ≡ value_is_argument (Some given.now) (kind_of_form parameter.now) }
{
    match parameter {
        ParameterForm::Value(wanted) => is_same(given, wanted),
        ParameterForm::Process(_, _) => false,
        ParameterForm::Collection(_, _, _) => false,
    }
}

/// Whether an argument of a call is of the type or types of its parameter. Refused where an expression has no type, with
/// `Mismatch` at the call where a term or a collection stands for another one or for a value, and where it does not take the
/// inputs of its parameter.
#[cycle(output)]
#[tactic(auto, using(sf_expr::proofs::Judged::stops_then))]
fn argument_fits(
    context: &TypingContext,
    term: TermId,
    argument: Argument,
    parameter: &ParameterForm,
) -> Result<bool, Refusal>
    requires below { ArgumentBelow (program_in context.now) (term_number term) argument }
    requires shallow { (i : collection_ids.CollectionId) → argument ≡ Argument.Collection i → collection_depth (collection_of (program_in context.now) (collection_node (program_in context.now) i)) ≤ 64 }
    requires term_held { HoldsTerm (program_in context.now) term }
    requires argument_held { HoldsArgument (program_in context.now) argument }
    ensures { GivesFound result (argument_judged (program_in context.now) (term_judged (program_in context.now)) (term_spot_at (program_in context.now) term) (context_in context.now) argument (kind_of_form parameter.now)) }
{
    match (argument, parameter) {
        (Argument::Value(value), _) => {
            let given = value_type(context, value)?;
            Ok(takes_value(parameter, &given))
        }
        (Argument::Process(_), ParameterForm::Value(_)) => {
            Err(Refusal::broken(Rule::Mismatch, context.program.spot(term)))
        }
        (Argument::Process(part), ParameterForm::Process(from, to)) => {
            prove!(from.nodes() <= 256);
            let given = judge(context, part, from)?;
            Ok(is_same(&given, to))
        }
        (Argument::Process(_), ParameterForm::Collection(_, _, _)) => {
            Err(Refusal::broken(Rule::Mismatch, context.program.spot(term)))
        }
        (Argument::Collection(_), ParameterForm::Value(_)) => {
            Err(Refusal::broken(Rule::Mismatch, context.program.spot(term)))
        }
        (Argument::Collection(_), ParameterForm::Process(_, _)) => {
            Err(Refusal::broken(Rule::Mismatch, context.program.spot(term)))
        }
        (Argument::Collection(members), ParameterForm::Collection(keys, from, to)) => {
            let given = judge_members(context, term, members, from)?;
            Ok(are_members(&given, *keys, to))
        }
    }
}

/// The type of the outputs of a call on inputs of a type. Refused at its name with `UnknownName` where no template has it, then
/// with `Arity`; then where an argument is refused; and last with `Mismatch` where the arguments do not fit the parameters, or
/// the inputs the header.
#[cycle(output)]
fn call_output(
    context: &TypingContext,
    term: TermId,
    name: NameId,
    arguments: ArgumentsId,
    input: &Ty,
) -> Result<Ty, Refusal>
    requires there { term_node_at (program_in context.now) term ≡ Node.Call name arguments }
    requires below { All (ArgumentBelow (program_in context.now) (term_number term)) (argument_nodes (program_in context.now) arguments) }
    requires term_held { HoldsTerm (program_in context.now) term }
    requires name_held { HoldsName (program_expressions (program_in context.now)) name }
    requires arguments_held { HoldsArguments (program_in context.now) arguments × All (HoldsArgument (program_in context.now)) (argument_nodes (program_in context.now) arguments) }
    ensures { GivesFound result (judged_as (program_in context.now) term (Node.Call name arguments) (context_in context.now) input.now) }
{
    let spot = context.program.spot(term);
    let Some(template) = context.template(name) else {
        return Err(Refusal::broken(Rule::UnknownName, spot));
    };
    let arguments = context.program.arguments(arguments);
    let parameters = template.parameters();
    if arguments.len() != parameters.len() {
        return Err(Refusal::broken(Rule::Arity, spot));
    }
    let mut fit = true;
    for (argument, parameter) in arguments.iter().zip(parameters) {
        fit &= argument_fits(context, term, *argument, parameter.form())?;
    }
    if fit && same_type(input, template.input()) {
        Ok(template.output().clone_in(context.alloc)?)
    } else {
        Err(Refusal::broken(Rule::Mismatch, spot))
    }
}

/// The type of the outputs of the form of a node at an id on inputs of a type, or the first rule that is broken in it.
#[cycle(output)]
fn judge_form(context: &TypingContext, term: TermId, node: Node, input: &Ty) -> Result<Ty, Refusal>
    requires there { term_node_at (program_in context.now) term ≡ node }
    requires below { TermPartsBelow (program_in context.now) node (term_number term) }
    requires term_held { HoldsTerm (program_in context.now) term }
    requires node_held { HoldsTermParts (program_in context.now) node }
    ensures { GivesFound result (judged_as (program_in context.now) term node (context_in context.now) input.now) }
{
    match node {
        Node::Primitive(primitive) => {
            primitive_output(context, primitive, input, context.program.spot(term))
        }
        Node::Named(naming, name, place) => {
            named_output(context, term, naming, name, place, input)
        }
        Node::Call(name, arguments) => { call_output(context, term, name, arguments, input) }
        Node::Joined(join, left, right) => {
            joined_output(context, term, join, left, right, input)
        }
        Node::Sided(side, part) => sided_output(context, term, side, part, input),
        Node::Headed(heading, value, part) => {
            headed_output(context, term, heading, value, part, input)
        }
        Node::Transformed(function, part) => {
            transformed_output(context, term, function, part, input)
        }
        Node::Switching(form) => switching_output(context, term, form, input),
        Node::Continuation(form) => continuing_output(context, term, form, input),
        Node::Gathered(members) => gathered_output(context, term, members, input),
        Node::Releasing(form) => releasing_output(context, term, form, input),
        Node::Editing(form) => editing_output(context, term, form, input),
    }
}

/// The type of a term's outputs on inputs of a type, or the first rule that a form in it breaks.
#[cycle(output)]
fn judge(context: &TypingContext, term: TermId, input: &Ty) -> Result<Ty, Refusal>
    requires { HoldsTerm (program_in context.now) term }
    ensures { GivesFound result (term_judged (program_in context.now) term (context_in context.now) input.now) }
{
    let node = context.program.node(term);
    judge_form(context, term, node, input)
}

/// The type of a term's outputs on inputs of a type, or the first rule that a form in it breaks.
#[tactic(auto, using(crate::proofs::Judged::answers_term))]
pub(crate) fn output_of(context: &TypingContext, term: TermId, input: &Ty) -> Result<Ty, Refusal>
    requires fits { Fits input.now }
    requires term_held { HoldsTerm (program_in context.now) term }
    ensures { AnswersTerm (program_in context.now) (context_in context.now) term input.now result }
{
    judge(context, term, input)
}

/// The types of the collection at an id, which a form has, on inputs of a type, or the first rule that is broken in it.
#[tactic(auto, using(crate::proofs::Judged::answers_members))]
pub(crate) fn members_at(
    context: &TypingContext,
    form: TermId,
    members: CollectionId,
    input: &Ty,
) -> Result<MemberTypes, Refusal>
    requires fits { Fits input.now }
    requires below { CollectionBelow (term_number form) (collection_node (program_in context.now) members) }
    requires shallow { collection_depth (collection_of (program_in context.now) (collection_node (program_in context.now) members)) ≤ 64 }
    requires members_held { HoldsWhole (program_in context.now) members }
    ensures { AnswersMembers (program_in context.now) (context_in context.now) (collection_node (program_in context.now) members) input.now result }
{
    judge_members(context, form, members, input)
}

/// The type of the outputs of the body of a template inside the names of its parameters, on its inputs. The names of templates
/// are those of all, in order.
fn template_output(
    alloc: Global,
    program: &Program,
    templates: &IndexSet<String>,
    functions: &Signatures,
    names: &Frame,
    template: &Template,
) -> Result<Ty, Refusal>
    requires names { names_of_set templates.now ≡ program_names program.now }
    requires body_held { HoldsTerm program.now template.now.body }
    ensures { AnswersTerm program.now (outer_context (signatures_in functions.now) (bindings_from (frame_entries names.now)) (templates_of program.now)) template.now.body template.now.input result }
{
    let context = TypingContext::of_body(alloc, program, templates, functions, &*names)?;
    let input = template.input();
    prove!(input.nodes() <= 256);
    output_of(&context, template.body(), input)
}

/// Whether a template's term takes its header's input to its header's output, inside its parameters. The names are those of
/// all templates, in order.
pub(crate) fn check_template(
    alloc: Global,
    program: &Program,
    names: &IndexSet<String>,
    functions: &Signatures,
    template: &Template,
) -> Result<(), Refusal>
    requires names { names_of_set names.now ≡ program_names program.now }
    requires body_held { HoldsTerm program.now template.now.body }
    ensures ok { OnOk result (IsTyped (signatures_in functions.now) (templates_of program.now) (term_template program.now template.now)) }
    ensures err { IfErr result (OrMemory (TemplateBreaks (signatures_in functions.now) program.now template.now)) }
{
    let parameters = parameter_names(alloc, template.parameters())?;
    let body = template.body();
    let output = template_output(alloc, program, names, functions, &parameters, template)?;
    if same_type(&output, template.output()) {
        Ok(())
    } else {
        Err(Refusal::broken(Rule::Mismatch, program.spot(body)))
    }
}

/// Whether each template's term takes its header's input to its header's output, inside its parameters. The names are those
/// of all templates, in order.
pub(crate) fn check_templates(
    alloc: Global,
    program: &Program,
    names: &IndexSet<String>,
    functions: &Signatures,
) -> Result<(), Refusal>
    requires { names_of_set names.now ≡ program_names program.now }
    ensures ok { OnOk result (AreTyped (signatures_in functions.now) program.now) }
    ensures err { IfErr result (OrMemory (IsFirstBreak (signatures_in functions.now) program.now)) }
{
    for template in program.templates() {
        check_template(alloc, program, names, functions, template)?;
    }
    Ok(())
}
