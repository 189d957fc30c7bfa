//! The code of expressions.
ghost use Rattle.std.specs.Prelude.{◌≡◌, true, ◌∷◌, IfOk, IfSome, is_some};
ghost use Rattle.sf_expr.specs.Arena.{expression, stored_pattern, name_at, Holds, HoldsName, HoldsPattern, HoldsParts};
ghost use Rattle.sf_expr.specs.Evaluation.{literal_value, nonsense};
ghost use Rattle.sf_expr.specs.declared.exprs.ExprNode.TheVariants as nodes;
ghost use Rattle.sf_expr.specs.Patterns.{pattern_of};
ghost use Rattle.sf_value.specs.Values.{number};
ghost use Rattle.sf_code.specs.Codes as trees;
ghost use Rattle.sf_code.specs.CodeView.{code_of};
ghost use Rattle.sf_code.specs.Nodes.{is_place, is_value, is_number, is_one_node};
ghost use Rattle.sf_operator.specs.declared.operator.Arithmetic.{Arithmetic};
ghost use Rattle.sf_operator.specs.declared.operator.Comparison.{Comparison};
ghost use Rattle.sf_operator.specs.declared.operator.Equality.{Equality};
ghost use Rattle.sf_code.specs.Compiling.{closed_code, place_of_name, code_of_name};
ghost use Rattle.sf_code.specs.PlaceView.{frame_patterns};

use crate::code::{Code, ConstantEvent};
use crate::pattern::FramePattern;
use crate::place::Patterns;
use sf_expr::{Constant, ExprId, ExprNode, Exprs, Folded, Mapped, NameId, PatternId};
use sf_func::Callee;
use sf_operator::{Operator, Unary, number_in};
use sf_value::Value;
use std::alloc::{AllocError, Global};

/// The code of an expression, where frames have these patterns. A name that none of them binds makes no sense.
#[cycle(compile)]
pub(crate) fn compile(
    alloc: Global,
    exprs: &Exprs,
    id: ExprId,
    patterns: &Patterns,
) -> Result<Code, AllocError>
    requires { Holds exprs.now id }
    ensures { IfOk result (λ code. code_of code ≡ closed_code (frame_patterns patterns.now) (expression exprs.now id)) }
{
    match exprs.node(id) {
        ExprNode::Unit => Ok(Code::Constant(Value::unit())),
        ExprNode::Truth(truth) => Ok(Code::Constant(Value::bool(truth))),
        ExprNode::Int(number) => Ok(Code::Constant(Value::int(number))),
        ExprNode::Constant(constant) => constant_code(alloc, exprs.constant_at(constant)),
        ExprNode::Name(name) => name_code(alloc, exprs.name_of(name), patterns),
        ExprNode::Pair(first, second) => {
            let (first, second) = both(alloc, exprs, first, second, patterns)?;
            Ok(Code::Pair(first, second))
        }
        ExprNode::Applied(operator, part) => {
            let part = compile(alloc, exprs, part, patterns)?;
            applied(alloc, operator, part)
        }
        ExprNode::Operation(left, operator, right) => {
            operation(alloc, exprs, left, operator, right, patterns)
        }
        ExprNode::Conditional(condition, first, second) => {
            conditional(alloc, exprs, condition, first, second, patterns)
        }
        ExprNode::Mapped(node) => mapped(alloc, exprs, node, patterns),
        ExprNode::Folded(node) => folded(alloc, exprs, node, patterns),
        ExprNode::Called(name, _, part) => called(alloc, exprs, name, part, patterns),
    }
}

/// The code of an expression, in a box.
#[cycle(compile)]
fn boxed(
    alloc: Global,
    exprs: &Exprs,
    id: ExprId,
    patterns: &Patterns,
) -> Result<Box<Code>, AllocError>
    requires { Holds exprs.now id }
    ensures { IfOk result (λ code. code_of code.value ≡ closed_code (frame_patterns patterns.now) (expression exprs.now id)) }
{
    let code = compile(alloc, exprs, id, patterns)?;
    Ok(Box::new(alloc, code)?)
}

/// The codes of two expressions, in boxes.
#[cycle(compile)]
fn both(
    alloc: Global,
    exprs: &Exprs,
    first: ExprId,
    second: ExprId,
    patterns: &Patterns,
) -> Result<(Box<Code>, Box<Code>), AllocError>
    requires first { Holds exprs.now first }
    requires second { Holds exprs.now second }
    ensures first { IfOk result (λ pair. code_of pair.0.value ≡ closed_code (frame_patterns patterns.now) (expression exprs.now first)) }
    ensures second { IfOk result (λ pair. code_of pair.1.value ≡ closed_code (frame_patterns patterns.now) (expression exprs.now second)) }
{
    let first = boxed(alloc, exprs, first, patterns)?;
    let second = boxed(alloc, exprs, second, patterns)?;
    Ok((first, second))
}

/// The code of a function's expression, in a box: its pattern is that of a frame inside the others.
#[cycle(compile)]
fn within(
    alloc: Global,
    exprs: &Exprs,
    pattern: PatternId,
    body: ExprId,
    patterns: &Patterns,
) -> Result<Box<Code>, AllocError>
    requires pattern { HoldsPattern exprs.now pattern }
    requires body { Holds exprs.now body }
    ensures { IfOk result (λ code. code_of code.value ≡ closed_code (pattern_of (stored_pattern exprs.now pattern) ∷ frame_patterns patterns.now) (expression exprs.now body)) }
{
    let frame = FramePattern::new(alloc, (&*exprs).placed(pattern))?;
    let inner = (&*patterns).within(&frame);
    boxed(alloc, &*exprs, body, &inner)
}

/// The code of an operator on code: of the event of a constant, one node.
fn applied(alloc: Global, operator: Unary, part: Code) -> Result<Code, AllocError>
    ensures same { IfOk result (λ code. code_of code ≡ trees.applied operator (code_of part)) }
    ensures event { operator ≡ Unary.Event → is_value part ≡ true → IfOk result (λ code. is_one_node code ≡ true) }
{
    match (operator, part) {
        (Unary::Event, Code::Constant(payload)) => {
            Ok(Code::Event(ConstantEvent::new(alloc, payload)?))
        }
        (operator, part) => Ok(Code::Applied(operator, Box::new(alloc, part)?)),
    }
}

/// The code of an operator between two expressions.
#[cycle(compile)]
fn operation(
    alloc: Global,
    exprs: &Exprs,
    left: ExprId,
    operator: Operator,
    right: ExprId,
    patterns: &Patterns,
) -> Result<Code, AllocError>
    requires left { Holds exprs.now left }
    requires right { Holds exprs.now right }
    ensures { let ps = frame_patterns patterns.now in
        IfOk result (λ code. code_of code ≡ trees.operation (closed_code ps (expression exprs.now left)) operator (closed_code ps (expression exprs.now right))) }
{
    let left = compile(alloc, exprs, left, patterns)?;
    let right = compile(alloc, exprs, right, patterns)?;
    between(alloc, left, operator, right)
}

/// The code of an operator between two codes: of arithmetic between a place and a number, in either order, one node, and so
/// where a place is compared with a number.
fn between(alloc: Global, left: Code, operator: Operator, right: Code) -> Result<Code, AllocError>
    ensures same { IfOk result (λ code. code_of code ≡ trees.operation (code_of left) operator (code_of right)) }
    ensures place { (o : Arithmetic) → operator ≡ Operator.Arithmetic o → is_place left ≡ true → is_number right ≡ true → IfOk result (λ code. is_one_node code ≡ true) }
    ensures number { (o : Arithmetic) → operator ≡ Operator.Arithmetic o → is_number left ≡ true → is_place right ≡ true → IfOk result (λ code. is_one_node code ≡ true) }
    ensures compared { (o : Comparison) → operator ≡ Operator.Comparison o → is_place left ≡ true → is_number right ≡ true → IfOk result (λ code. is_one_node code ≡ true) }
    ensures equated { (o : Equality) → operator ≡ Operator.Equality o → is_place left ≡ true → is_number right ≡ true → IfOk result (λ code. is_one_node code ≡ true) }
{
    match (left, operator, number_of_code(&right)) {
        (Code::Place(place), Operator::Arithmetic(operator), Some(number)) => {
            Ok(Code::WithNumber(operator, place, number))
        }
        (Code::Place(place), Operator::Comparison(operator), Some(number)) => {
            Ok(Code::Compared(operator, place, number))
        }
        (Code::Place(place), Operator::Equality(operator), Some(number)) => {
            Ok(Code::Equated(operator, place, number))
        }
        (left, operator, _) => number_first(alloc, left, operator, right),
    }
}

/// The code of an operator between two codes: of arithmetic between a number and a place, one node.
fn number_first(
    alloc: Global,
    left: Code,
    operator: Operator,
    right: Code,
) -> Result<Code, AllocError>
    ensures same { IfOk result (λ code. code_of code ≡ trees.operation (code_of left) operator (code_of right)) }
    ensures number { (o : Arithmetic) → operator ≡ Operator.Arithmetic o → is_number left ≡ true → is_place right ≡ true → IfOk result (λ code. is_one_node code ≡ true) }
{
    match (number_of_code(&left), operator, right) {
        (Some(number), Operator::Arithmetic(operator), Code::Place(place)) => {
            Ok(Code::NumberWith(operator, number, place))
        }
        (_, operator, right) => {
            let left = Box::new(alloc, left)?;
            Ok(Code::Operation(left, operator, Box::new(alloc, right)?))
        }
    }
}

/// The number that code is, if it is one.
fn number_of_code(code: &Code) -> Option<i64>
    ensures found { is_some result ≡ is_number code.now }
    ensures same { IfSome result (λ n. code_of code.now ≡ trees.constant (number n)) }
{
    match code {
        Code::Constant(value) => number_in(value),
        _ => None,
    }
}

/// The code of two expressions of which a condition chooses one.
#[cycle(compile)]
fn conditional(
    alloc: Global,
    exprs: &Exprs,
    condition: ExprId,
    first: ExprId,
    second: ExprId,
    patterns: &Patterns,
) -> Result<Code, AllocError>
    requires condition { Holds exprs.now condition }
    requires first { Holds exprs.now first }
    requires second { Holds exprs.now second }
    ensures { let ps = frame_patterns patterns.now in
        IfOk result (λ code. code_of code ≡ trees.conditional (closed_code ps (expression exprs.now condition)) (closed_code ps (expression exprs.now first)) (closed_code ps (expression exprs.now second))) }
{
    let condition = boxed(alloc, exprs, condition, patterns)?;
    let (first, second) = both(alloc, exprs, first, second, patterns)?;
    Ok(Code::Conditional(condition, first, second))
}

/// The code of a form on an expression with a function.
#[cycle(compile)]
fn mapped(
    alloc: Global,
    exprs: &Exprs,
    node: Mapped,
    patterns: &Patterns,
) -> Result<Code, AllocError>
    requires { HoldsParts exprs.now (nodes.Mapped node) }
    ensures { let ps = frame_patterns patterns.now in
        let p = pattern_of (stored_pattern exprs.now node.pattern) in
        IfOk result (λ code. code_of code ≡ trees.mapped (closed_code ps (expression exprs.now node.part)) node.mapping (closed_code (p ∷ ps) (expression exprs.now node.body))) }
{
    let part = boxed(alloc, exprs, node.part, patterns)?;
    let body = within(alloc, exprs, node.pattern, node.body, patterns)?;
    Ok(Code::Mapped(part, node.mapping, body))
}

/// The code of a form on two expressions with a function.
#[cycle(compile)]
fn folded(
    alloc: Global,
    exprs: &Exprs,
    node: Folded,
    patterns: &Patterns,
) -> Result<Code, AllocError>
    requires { HoldsParts exprs.now (nodes.Folded node) }
    ensures { let ps = frame_patterns patterns.now in
        let p = pattern_of (stored_pattern exprs.now node.pattern) in
        IfOk result (λ code. code_of code ≡ trees.folded (closed_code ps (expression exprs.now node.first)) node.folding (closed_code ps (expression exprs.now node.second)) (closed_code (p ∷ ps) (expression exprs.now node.body))) }
{
    let (first, second) = both(alloc, exprs, node.first, node.second, patterns)?;
    let body = within(alloc, exprs, node.pattern, node.body, patterns)?;
    Ok(Code::Folded(first, node.folding, second, body))
}

/// The code of a call of a stored function on an expression.
#[cycle(compile)]
fn called(
    alloc: Global,
    exprs: &Exprs,
    function: NameId,
    part: ExprId,
    patterns: &Patterns,
) -> Result<Code, AllocError>
    requires function { HoldsName exprs.now function }
    requires part { Holds exprs.now part }
    ensures { IfOk result (λ code. code_of code ≡ trees.called (name_at exprs.now function) (closed_code (frame_patterns patterns.now) (expression exprs.now part))) }
{
    let part = boxed(alloc, exprs, part, patterns)?;
    let function = String::from_str(alloc, exprs.name_of(function))?;
    Ok(Code::Called(Callee::new(function), part))
}

/// The code of a constant: what it is worth. It takes no memory.
fn constant_code(alloc: Global, constant: &Constant) -> Result<Code, AllocError>
    ensures { IfOk result (λ code. code_of code ≡ trees.constant (literal_value constant.now)) }
{
    let value = constant.value(alloc)?;
    Ok(Code::Constant(value))
}

/// The code of a name: its place, or the number 0 where it has none.
fn name_code(alloc: Global, name: &str, patterns: &Patterns) -> Result<Code, AllocError>
    ensures { IfOk result (λ code. code_of code ≡ code_of_name nonsense (place_of_name name.now (frame_patterns patterns.now))) }
{
    match patterns.place(alloc, name)? {
        Some(place) => Ok(Code::Place(place)),
        None => Ok(Code::Constant(Value::int(0))),
    }
}
