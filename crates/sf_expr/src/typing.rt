//! The types of expressions.
ghost use Rattle.std.specs.Prelude.{OnOk, Some};
ghost use Rattle.sf_expr.specs.Typing.{Fits, named_in, names_and_functions, literal_kind};
ghost use Rattle.sf_expr.specs.Arena.{expression, function_at, spot_at, id_number, PartsBelow, Holds, HoldsFunction, HoldsParts};
ghost use Rattle.sf_expr.specs.declared.exprs.ExprNode.TheVariants.{Conditional};
ghost use Rattle.sf_expr.specs.Scopes.{scope_names};
ghost use Rattle.sf_expr.specs.Contexts.{exprs_in, types_around, types_within};
ghost use Rattle.sf_expr.specs.Judging.{judged_fitting, naming_at, calling_at, bound_judged, form_judged, judged, function_judged, GivesFound};
ghost use Rattle.sf_expr.specs.Refusals.{Types, TypesFunction, Judges, JudgesFunction, AnswersPair};
ghost use Rattle.sf_func.specs.Registries.{types_named};
ghost use Rattle.sf_func.specs.Signatures.{signatures_in};

use crate::constant::{Constant, ConstantForm};
use crate::exprs::{ExprId, ExprNode, Exprs, Folded, FunctionId, Mapped};
use crate::frame::Frame;
use crate::meaning::Meaning;
use crate::pat::Pat;
use crate::scope::TypeScope;
use sf_func::Signatures;
use sf_operator::{
    binary_type, called_type, conditional_type, event_type, folded_argument_type, folded_type,
    mapped_argument_type, mapped_type, unary_type,
};
use sf_refusal::{Refusal, Rule, Spot};
use sf_value::Ty;
use std::alloc::Global;

/// The type of pairs of two types; refused with `TypeTooLarge` at `at` where it would be made of more than 256 types.
#[tactic(auto, using(crate::proofs::Judged::answers_pair))]
pub fn pair_type(alloc: Global, first: Ty, second: Ty, at: Spot) -> Result<Ty, Refusal>
    ensures { AnswersPair first second at result }
{
    sf_operator::pair_type(alloc, &first, &second, at)
}

/// The type of a constant; refused with `TypeTooLarge` at `at` where it would be made of more than 256 types.
fn constant_type(alloc: Global, constant: &Constant, at: Spot) -> Result<Ty, Refusal>
    ensures { GivesFound result (judged_fitting at (Some (literal_kind constant.now))) }
{
    match constant.form() {
        ConstantForm::Text(_) => Ok(Ty::text()),
        ConstantForm::NoEvent(payload) => event_type(alloc, payload, at),
    }
}

/// The type of what the function of a name makes of a value of a type. Refused with `UnknownName` at `place` where there
/// is none of that name, then at `at` with `Mismatch` where it is none on such values, and with `Memory`.
fn call_type(
    alloc: Global,
    functions: &Signatures,
    name: &str,
    part: &Ty,
    place: Spot,
    at: Spot,
) -> Result<Ty, Refusal>
    ensures { GivesFound result (calling_at place at (types_named name.now (signatures_in functions.now)) part.now) }
{
    match functions.find(name) {
        Some(types) => called_type(alloc, types.from(), types.to(), part, at),
        None => Err(Refusal::broken(Rule::UnknownName, place)),
    }
}

/// The type of what a name stands for. Refused at `at` with `UnknownName` where it is not there and with `Mismatch` where
/// it stands for no value, and with `Memory`.
fn name_type(alloc: Global, names: &TypeScope, name: &str, at: Spot) -> Result<Ty, Refusal>
    ensures { GivesFound result (naming_at at (named_in name.now (scope_names names.now))) }
{
    match names.stands_for(name) {
        Some(Meaning::Value(ty)) => Ok(ty.clone_in(alloc)?),
        Some(Meaning::Process(_, _)) => Err(Refusal::broken(Rule::Mismatch, at)),
        Some(Meaning::Collection(_, _, _)) => Err(Refusal::broken(Rule::Mismatch, at)),
        None => Err(Refusal::broken(Rule::UnknownName, at)),
    }
}

/// What expressions are typed under: the arena that they stand in, the names around them, and the types of stored functions.
#[derive(Clone, Copy)]
pub struct ExprContext<'a, 'n> {
    pub alloc: Global,
    pub exprs: &'a Exprs,
    pub names: &'a TypeScope<'n>,
    pub functions: &'a Signatures,
}

/// The type of an expression, or the first refusal, parts first.
#[cycle(judge)]
fn judge(context: &ExprContext, id: ExprId) -> Result<Ty, Refusal>
    requires { Holds (exprs_in context.now) id }
    ensures { GivesFound result (judged (exprs_in context.now) id (types_around context.now)) }
{
    let node = context.exprs.node(id);
    judge_form(context, id, node)
}

/// The type of the form at an id, or the first refusal, parts first.
#[cycle(judge)]
#[tactic(auto, using(crate::proofs::Judged::stops_then, crate::proofs::Judged::kind_answers, crate::proofs::Judged::pair_answers))]
fn judge_form(context: &ExprContext, id: ExprId, node: ExprNode) -> Result<Ty, Refusal>
    requires below { PartsBelow node (id_number id) }
    requires there { Holds (exprs_in context.now) id }
    requires held { HoldsParts (exprs_in context.now) node }
    ensures { GivesFound result (form_judged (exprs_in context.now) (judged (exprs_in context.now)) (spot_at (exprs_in context.now) id) node (types_around context.now)) }
{
    match node {
        ExprNode::Unit => Ok(Ty::unit()),
        ExprNode::Truth(_) => Ok(Ty::bool()),
        ExprNode::Int(_) => Ok(Ty::int()),
        ExprNode::Constant(constant) => {
            constant_type(
                context.alloc,
                context.exprs.constant_at(constant),
                context.exprs.spot(id),
            )
        }
        ExprNode::Name(name) => name_type(
            context.alloc,
            context.names,
            context.exprs.name_of(name),
            context.exprs.spot(id),
        ),
        ExprNode::Pair(first, second) => {
            let first = judge(context, first)?;
            let second = judge(context, second)?;
            pair_type(context.alloc, first, second, context.exprs.spot(id))
        }
        ExprNode::Applied(operator, part) => {
            let part = judge(context, part)?;
            unary_type(context.alloc, operator, &part, context.exprs.spot(id))
        }
        ExprNode::Operation(left, operator, right) => {
            let left = judge(context, left)?;
            let right = judge(context, right)?;
            binary_type(
                context.alloc,
                operator,
                &left,
                &right,
                context.exprs.spot(id),
            )
        }
        ExprNode::Conditional(condition, first, second) => {
            judge_conditional(context, id, condition, first, second)
        }
        ExprNode::Mapped(node) => judge_mapped(context, id, node),
        ExprNode::Folded(node) => judge_folded(context, id, node),
        ExprNode::Called(function, place, part) => {
            let part = judge(context, part)?;
            let name = context.exprs.name_of(function);
            call_type(
                context.alloc,
                context.functions,
                name,
                &part,
                place,
                context.exprs.spot(id),
            )
        }
    }
}

/// The type of the conditional at an id, with these parts, or why it has none.
#[cycle(judge)]
#[tactic(auto, using(crate::proofs::Judged::stops_then, crate::proofs::Judged::kind_answers))]
fn judge_conditional(
    context: &ExprContext,
    id: ExprId,
    condition: ExprId,
    first: ExprId,
    second: ExprId,
) -> Result<Ty, Refusal>
    requires below { PartsBelow (Conditional condition first second) (id_number id) }
    requires there { Holds (exprs_in context.now) id }
    requires held { HoldsParts (exprs_in context.now) (Conditional condition first second) }
    ensures { GivesFound result (form_judged (exprs_in context.now) (judged (exprs_in context.now)) (spot_at (exprs_in context.now) id) (Conditional condition first second) (types_around context.now)) }
{
    let condition = judge(context, condition)?;
    let first = judge(context, first)?;
    let second = judge(context, second)?;
    conditional_type(
        context.alloc,
        &condition,
        &first,
        &second,
        context.exprs.spot(id),
    )
}

/// The type of the mapping at an id, or why it has none.
#[cycle(judge)]
#[tactic(auto, using(crate::proofs::Judged::stops_then, crate::proofs::Judged::kind_answers))]
fn judge_mapped(context: &ExprContext, id: ExprId, node: Mapped) -> Result<Ty, Refusal>
    requires below { PartsBelow (ExprNode.Mapped node) (id_number id) }
    requires there { Holds (exprs_in context.now) id }
    requires held { HoldsParts (exprs_in context.now) (ExprNode.Mapped node) }
    ensures { GivesFound result (form_judged (exprs_in context.now) (judged (exprs_in context.now)) (spot_at (exprs_in context.now) id) (ExprNode.Mapped node) (types_around context.now)) }
{
    let part = judge(context, node.part)?;
    let at = context.exprs.spot(id);
    let argument = mapped_argument_type(context.alloc, node.mapping, &part, at)?;
    let pattern = context.exprs.placed(node.pattern);
    let made = judge_part(context, pattern, node.body, &argument, at)?;
    mapped_type(context.alloc, node.mapping, &part, &made, at)
}

/// The type of the fold at an id, or why it has none.
#[cycle(judge)]
#[tactic(auto, using(crate::proofs::Judged::stops_then, crate::proofs::Judged::kind_answers))]
fn judge_folded(context: &ExprContext, id: ExprId, node: Folded) -> Result<Ty, Refusal>
    requires below { PartsBelow (ExprNode.Folded node) (id_number id) }
    requires there { Holds (exprs_in context.now) id }
    requires held { HoldsParts (exprs_in context.now) (ExprNode.Folded node) }
    ensures { GivesFound result (form_judged (exprs_in context.now) (judged (exprs_in context.now)) (spot_at (exprs_in context.now) id) (ExprNode.Folded node) (types_around context.now)) }
{
    let first = judge(context, node.first)?;
    let second = judge(context, node.second)?;
    let at = context.exprs.spot(id);
    let argument = folded_argument_type(context.alloc, node.folding, &first, &second, at)?;
    let pattern = context.exprs.placed(node.pattern);
    let made = judge_part(context, pattern, node.body, &argument, at)?;
    folded_type(context.alloc, node.folding, &first, &second, &made, at)
}

/// The type of an expression where a pattern before it binds names for the parts of a type, or the first refusal.
#[cycle(judge)]
fn judge_part(
    context: &ExprContext,
    pattern: &Pat,
    body: ExprId,
    from: &Ty,
    at: Spot,
) -> Result<Ty, Refusal>
    requires { Holds (exprs_in context.now) body }
    ensures judged { GivesFound result (bound_judged at pattern.now from.now (judged (exprs_in context.now) body) (types_around context.now)) }
    ensures fits { OnOk result (Fits from.now) }
{
    let frame = Frame::of_pattern(context.alloc, pattern, from, at)?;
    judge_within(context, body, &frame)
}

/// The type of an expression where a frame puts names behind those around it, or the first refusal.
#[cycle(judge)]
fn judge_within(context: &ExprContext, body: ExprId, frame: &Frame) -> Result<Ty, Refusal>
    requires { Holds (exprs_in context.now) body }
    ensures { GivesFound result (judged (exprs_in context.now) body (types_within frame.now context.now)) }
{
    let names = (&*context.names).within(context.alloc, &*frame)?;
    let inner = ExprContext {
        alloc: context.alloc,
        exprs: context.exprs,
        names: &names,
        functions: context.functions,
    };
    judge(&inner, body)
}

/// The type of an expression, where names and functions have these types, or why it has none.
///
/// Both operands are typed before a mismatch in either is answered, and the argument of a call before its function is
/// looked for. A name that is not there is refused with `UnknownName`, one that stands for no value with `Mismatch`. The
/// place is that of such a name, else that of the first token of the form whose rule is broken.
#[tactic(auto, using(crate::proofs::Judged::answers_judge, crate::proofs::Judged::answers_types))]
pub fn type_of(
    alloc: Global,
    exprs: &Exprs,
    id: ExprId,
    names: &TypeScope,
    functions: &Signatures,
) -> Result<Ty, Refusal>
    requires { Holds exprs.now id }
    ensures typed { Types (names_and_functions (signatures_in functions.now) (scope_names names.now)) (expression exprs.now id) result }
    ensures first { Judges exprs.now (names_and_functions (signatures_in functions.now) (scope_names names.now)) id result }
    ensures judged { GivesFound result (judged exprs.now id (names_and_functions (signatures_in functions.now) (scope_names names.now))) }
{
    let context = ExprContext {
        alloc,
        exprs,
        names,
        functions,
    };
    judge(&context, id)
}

/// The type that a function takes values of a type to, where the names around it and stored functions have these types, or
/// why there is none.
///
/// `DuplicateName` where two names of its pattern are the same, with the place of the later one, then `Mismatch` at `at`
/// where the pattern does not fit the type, then what its body is refused for.
pub fn function_type(
    context: &ExprContext,
    function: FunctionId,
    from: &Ty,
    at: Spot,
) -> Result<Ty, Refusal>
    requires { HoldsFunction (exprs_in context.now) function }
    ensures typed { TypesFunction (types_around context.now) (function_at (exprs_in context.now) function) from.now result }
    ensures first { JudgesFunction (exprs_in context.now) (types_around context.now) function from.now at result }
    ensures judged { GivesFound result (function_judged (exprs_in context.now) function at from.now (types_around context.now)) }
{
    let pattern = context.exprs.pattern(function);
    judge_part(context, pattern, context.exprs.body(function), from, at)
}
