//! What differs in an expression that is refused.
ghost use Rattle.std.specs.Prelude.{◌≡◌, IfOk, IfErr};
ghost use Rattle.sf_expr.specs.declared.exprs.ExprNode.TheVariants.{Conditional};
ghost use Rattle.sf_expr.specs.Arena.{expression, node_at, id_number, PartsBelow, Holds, HoldsFunction, HoldsParts};
ghost use Rattle.sf_expr.specs.Arena.{function_at};
ghost use Rattle.sf_expr.specs.Expressions;
ghost use Rattle.sf_expr.specs.Patterns.{pattern_of};
ghost use Rattle.sf_expr.specs.Typing.{names_and_functions, HasType, FunctionTakes};
ghost use Rattle.sf_expr.specs.Scopes.{scope_names};
ghost use Rattle.sf_expr.specs.Contexts.{exprs_in, types_around, types_within};
ghost use Rattle.sf_func.specs.Signatures.{signatures_in};
ghost use Rattle.sf_differ.specs.Differences.{Explains};
ghost use Rattle.sf_differ.specs.Differing.{ExpressionDiffers, BoundDiffers, FunctionDiffers};

use crate::blame::Blame;
use crate::difference::Wanted;
use crate::pattern::pattern_blame;
use crate::suiting::suited;
use crate::wanting::{
    folded_wanted, folding_wanted, left_wanted, mapped_wanted, mapping_wanted, operand_wanted,
    right_wanted, second_wanted,
};
use sf_expr::{
    ExprContext, ExprId, ExprNode, Exprs, Folded, Frame, FunctionId, Mapped, NameId, Operator, Pat,
    TypeScope, Unary, type_of,
};
use sf_func::Signatures;
use sf_operator::{folded_argument_type, mapped_argument_type};
use sf_refusal::{Refusal, Spot};
use sf_value::Ty;
use std::alloc::Global;

/// What differs in an expression that is refused: the types of a part of the form that is blamed, and of those that are wanted
/// in its place. Silent where no types are compared, and where the expression has a type.
#[cycle(explain)]
fn explain(context: &ExprContext, id: ExprId) -> Result<(), Blame>
    requires { Holds (exprs_in context.now) id }
    ensures { IfErr result (λ b. Explains (ExpressionDiffers (exprs_in context.now) (types_around context.now) id) b) }
{
    match context.exprs.node(id) {
        ExprNode::Unit => Ok(()),
        ExprNode::Truth(_) => Ok(()),
        ExprNode::Int(_) => Ok(()),
        ExprNode::Constant(_) => Ok(()),
        ExprNode::Name(_) => Ok(()),
        ExprNode::Pair(first, second) => { explain_pair(context, id, first, second) }
        ExprNode::Applied(operator, part) => { explain_applied(context, id, operator, part) }
        ExprNode::Operation(left, operator, right) => {
            explain_operation(context, id, left, operator, right)
        }
        ExprNode::Conditional(condition, first, second) => {
            explain_conditional(context, id, condition, first, second)
        }
        ExprNode::Mapped(node) => explain_mapped(context, id, node),
        ExprNode::Folded(node) => explain_folded(context, id, node),
        ExprNode::Called(function, place, part) => {
            explain_called(context, id, function, place, part)
        }
    }
}

/// The type of an expression, or what differs in it.
#[cycle(explain)]
fn part_type(context: &ExprContext, id: ExprId) -> Result<Ty, Blame>
    requires { Holds (exprs_in context.now) id }
    ensures ok { IfOk result (λ t. HasType (types_around context.now) (expression (exprs_in context.now) id) t) }
    ensures err { IfErr result (λ b. Explains (ExpressionDiffers (exprs_in context.now) (types_around context.now) id) b) }
{
    match type_of(
        context.alloc,
        context.exprs,
        id,
        context.names,
        context.functions,
    ) {
        Ok(ty) => Ok(ty),
        Err(Refusal::Memory) => Err(Blame::Memory),
        Err(Refusal::Broken(_)) => {
            explain(context, id)?;
            Err(Blame::Silent)
        }
    }
}

/// What differs in the pair at an id.
#[cycle(explain)]
fn explain_pair(
    context: &ExprContext,
    id: ExprId,
    first: ExprId,
    second: ExprId,
) -> Result<(), Blame>
    requires there { node_at (exprs_in context.now) id ≡ ExprNode.Pair first second }
    requires below { PartsBelow (ExprNode.Pair first second) (id_number id) }
    requires parts_held { HoldsParts (exprs_in context.now) (ExprNode.Pair first second) }
    ensures { IfErr result (λ b. Explains (ExpressionDiffers (exprs_in context.now) (types_around context.now) id) b) }
{
    part_type(context, first)?;
    part_type(context, second)?;
    Ok(())
}

/// What differs in the operator on its operand at an id.
#[cycle(explain)]
fn explain_applied(
    context: &ExprContext,
    id: ExprId,
    operator: Unary,
    part: ExprId,
) -> Result<(), Blame>
    requires there { node_at (exprs_in context.now) id ≡ ExprNode.Applied operator part }
    requires below { PartsBelow (ExprNode.Applied operator part) (id_number id) }
    requires held { Holds (exprs_in context.now) id }
    requires parts_held { HoldsParts (exprs_in context.now) (ExprNode.Applied operator part) }
    ensures { IfErr result (λ b. Explains (ExpressionDiffers (exprs_in context.now) (types_around context.now) id) b) }
{
    let given = part_type(context, part)?;
    suited(
        context.alloc,
        &given,
        operand_wanted(operator),
        context.exprs.spot(id),
    )
}

/// What differs in the operator between its operands at an id.
#[cycle(explain)]
fn explain_operation(
    context: &ExprContext,
    id: ExprId,
    left: ExprId,
    operator: Operator,
    right: ExprId,
) -> Result<(), Blame>
    requires there { node_at (exprs_in context.now) id ≡ ExprNode.Operation left operator right }
    requires below { PartsBelow (ExprNode.Operation left operator right) (id_number id) }
    requires held { Holds (exprs_in context.now) id }
    requires parts_held { HoldsParts (exprs_in context.now) (ExprNode.Operation left operator right) }
    ensures { IfErr result (λ b. Explains (ExpressionDiffers (exprs_in context.now) (types_around context.now) id) b) }
{
    let spot = context.exprs.spot(id);
    let first = part_type(context, left)?;
    let second = part_type(context, right)?;
    suited(context.alloc, &first, left_wanted(operator), spot)?;
    let wanted = right_wanted(context.alloc, operator, &first)?;
    suited(context.alloc, &second, wanted, spot)
}

/// What differs in the conditional at an id.
#[cycle(explain)]
fn explain_conditional(
    context: &ExprContext,
    id: ExprId,
    condition: ExprId,
    first: ExprId,
    second: ExprId,
) -> Result<(), Blame>
    requires there { node_at (exprs_in context.now) id ≡ Conditional condition first second }
    requires below { PartsBelow (Conditional condition first second) (id_number id) }
    requires held { Holds (exprs_in context.now) id }
    requires parts_held { HoldsParts (exprs_in context.now) (Conditional condition first second) }
    ensures { IfErr result (λ b. Explains (ExpressionDiffers (exprs_in context.now) (types_around context.now) id) b) }
{
    let spot = context.exprs.spot(id);
    let truth = part_type(context, condition)?;
    let one = part_type(context, first)?;
    let other = part_type(context, second)?;
    let wanted = Some(Wanted::Exactly(Ty::bool()));
    suited(context.alloc, &truth, wanted, spot)?;
    suited(context.alloc, &other, Some(Wanted::Exactly(one)), spot)
}

/// What differs in the mapping at an id.
#[cycle(explain)]
fn explain_mapped(context: &ExprContext, id: ExprId, node: Mapped) -> Result<(), Blame>
    requires there { node_at (exprs_in context.now) id ≡ ExprNode.Mapped node }
    requires below { PartsBelow (ExprNode.Mapped node) (id_number id) }
    requires held { Holds (exprs_in context.now) id }
    requires parts_held { HoldsParts (exprs_in context.now) (ExprNode.Mapped node) }
    ensures { IfErr result (λ b. Explains (ExpressionDiffers (exprs_in context.now) (types_around context.now) id) b) }
{
    let spot = context.exprs.spot(id);
    let given = part_type(context, node.part)?;
    suited(context.alloc, &given, mapping_wanted(node.mapping), spot)?;
    let argument = mapped_argument_type(context.alloc, node.mapping, &given, spot)?;
    let pattern = context.exprs.placed(node.pattern);
    let made = part_behind(context, pattern, node.body, &argument, spot)?;
    suited(context.alloc, &made, mapped_wanted(node.mapping), spot)
}

/// What differs in the fold at an id.
#[cycle(explain)]
fn explain_folded(context: &ExprContext, id: ExprId, node: Folded) -> Result<(), Blame>
    requires there { node_at (exprs_in context.now) id ≡ ExprNode.Folded node }
    requires below { PartsBelow (ExprNode.Folded node) (id_number id) }
    requires held { Holds (exprs_in context.now) id }
    requires parts_held { HoldsParts (exprs_in context.now) (ExprNode.Folded node) }
    ensures { IfErr result (λ b. Explains (ExpressionDiffers (exprs_in context.now) (types_around context.now) id) b) }
{
    let spot = context.exprs.spot(id);
    let one = part_type(context, node.first)?;
    let other = part_type(context, node.second)?;
    suited(context.alloc, &one, folding_wanted(node.folding), spot)?;
    let argument = folded_argument_type(context.alloc, node.folding, &one, &other, spot)?;
    let pattern = context.exprs.placed(node.pattern);
    let made = part_behind(context, pattern, node.body, &argument, spot)?;
    let wanted = second_wanted(context.alloc, node.folding, &one)?;
    suited(context.alloc, &other, wanted, spot)?;
    let wanted = folded_wanted(context.alloc, node.folding, &one, &other)?;
    suited(context.alloc, &made, wanted, spot)
}

/// What differs in the call of a stored function at an id.
#[cycle(explain)]
fn explain_called(
    context: &ExprContext,
    id: ExprId,
    function: NameId,
    place: Spot,
    part: ExprId,
) -> Result<(), Blame>
    requires there { node_at (exprs_in context.now) id ≡ ExprNode.Called function place part }
    requires below { PartsBelow (ExprNode.Called function place part) (id_number id) }
    requires held { Holds (exprs_in context.now) id }
    requires parts_held { HoldsParts (exprs_in context.now) (ExprNode.Called function place part) }
    ensures { IfErr result (λ b. Explains (ExpressionDiffers (exprs_in context.now) (types_around context.now) id) b) }
{
    let given = part_type(context, part)?;
    let Some(types) = context.functions.find(context.exprs.name_of(function)) else {
        return Ok(());
    };
    let wanted = Some(Wanted::Exactly(types.from().clone_in(context.alloc)?));
    suited(context.alloc, &given, wanted, context.exprs.spot(id))
}

/// The type of an expression where a pattern before it binds names for the parts of a type, or what differs.
#[cycle(explain)]
fn part_behind(
    context: &ExprContext,
    pattern: &Pat,
    body: ExprId,
    from: &Ty,
    at: Spot,
) -> Result<Ty, Blame>
    requires { Holds (exprs_in context.now) body }
    ensures ok { IfOk result (λ t. FunctionTakes (types_around context.now) (Expressions.function (pattern_of pattern.now) (expression (exprs_in context.now) body)) from.now t) }
    ensures err { IfErr result (λ b. Explains (BoundDiffers (exprs_in context.now) (types_around context.now) pattern.now body from.now at) b) }
{
    match Frame::of_pattern(context.alloc, pattern, from, at) {
        Ok(frame) => part_within(context, body, &frame),
        Err(refusal) => Err(pattern_blame(context.alloc, pattern, from, refusal)),
    }
}

/// The type of an expression where a frame puts names behind those around it, or what differs.
#[cycle(explain)]
fn part_within(context: &ExprContext, body: ExprId, frame: &Frame) -> Result<Ty, Blame>
    requires { Holds (exprs_in context.now) body }
    ensures ok { IfOk result (λ t. HasType (types_within frame.now context.now) (expression (exprs_in context.now) body) t) }
    ensures err { IfErr result (λ b. Explains (ExpressionDiffers (exprs_in context.now) (types_within frame.now context.now) body) b) }
{
    let names = (&*context.names).within(context.alloc, &*frame)?;
    let inner = ExprContext {
        alloc: context.alloc,
        exprs: context.exprs,
        names: &names,
        functions: context.functions,
    };
    part_type(&inner, body)
}

/// The type of an expression, or what differs in it.
pub fn typed(
    alloc: Global,
    exprs: &Exprs,
    id: ExprId,
    names: &TypeScope,
    functions: &Signatures,
) -> Result<Ty, Blame>
    requires { Holds exprs.now id }
    ensures ok { IfOk result (λ t. HasType (names_and_functions (signatures_in functions.now) (scope_names names.now)) (expression exprs.now id) t) }
    ensures err { IfErr result (λ b. Explains (ExpressionDiffers exprs.now (names_and_functions (signatures_in functions.now) (scope_names names.now)) id) b) }
{
    let context = ExprContext {
        alloc,
        exprs,
        names,
        functions,
    };
    part_type(&context, id)
}

/// The type that a function takes values of a type to, or what differs.
pub fn explain_function(
    context: &ExprContext,
    function: FunctionId,
    from: &Ty,
    at: Spot,
) -> Result<Ty, Blame>
    requires { HoldsFunction (exprs_in context.now) function }
    ensures ok { IfOk result (λ t. FunctionTakes (types_around context.now) (function_at (exprs_in context.now) function) from.now t) }
    ensures err { IfErr result (λ b. Explains (FunctionDiffers (exprs_in context.now) (types_around context.now) function from.now at) b) }
{
    let pattern = context.exprs.pattern(function);
    part_behind(context, pattern, context.exprs.body(function), from, at)
}
