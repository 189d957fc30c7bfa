//! Patterns and expressions as they are written.
ghost use Rattle.std.specs.Prelude.{◌≡◌, OnOk, true};
ghost use Rattle.sf_expr.specs.Arena.{expression, node_expression, name_at, stored_pattern, argument_pattern, body_id, function_at, Holds, HoldsFunction, HoldsName, HoldsPattern, HoldsParts};
ghost use Rattle.sf_expr.specs.Expressions.{literal, truth_literal, unit_literal, paired, applied, operation, conditional, mapped, called};
ghost use Rattle.sf_expr.specs.Patterns.{pattern_of};
ghost use Rattle.sf_grammar.specs.Spelling.{in_brackets, spell_operand, spell_mapping, spell_pattern, spell_literal, spell_expression, spell_function};
ghost use Rattle.sf_print.specs.Drafts.{append_tokens};
ghost use Rattle.sf_print.specs.Signs.{sign_token};

use crate::draft::Draft;
use crate::types::write_type;
use crate::words::{
    Sign, folding_word, mapping_word, operator_sign, stands_between, takes_brackets, unary_word,
};
use sf_expr::{
    Constant, ConstantForm, ExprId, ExprNode, Exprs, Folded, FunctionId, Mapped, Mapping, NameId,
    Operator, Pat, PatForm, PatternId, Unary,
};
use sf_grammar::Version;
use sf_lex::{Keyword, Symbol};
use std::alloc::AllocError;

/// Appends a pattern.
#[tactic(auto, using(crate::proofs::Putting::tokens_apart))]
pub(crate) fn write_pattern(pattern: &Pat, draft: &mut Draft) -> Result<(), AllocError>
    ensures { OnOk result (draft.new ≡ append_tokens draft.old (spell_pattern (pattern_of pattern.now))) }
{
    match pattern.form() {
        PatForm::Unnamed => draft.keyword(Keyword::Underscore),
        PatForm::Name(name, _) => draft.name(name.as_str()),
        PatForm::Both(first, second) => {
            draft.symbol(Symbol::Open)?;
            write_pattern(first, draft)?;
            draft.symbol(Symbol::Comma)?;
            write_pattern(second, draft)?;
            draft.symbol(Symbol::Close)
        }
    }
}

/// Appends a text, or no event of a type.
fn write_constant(
    constant: &Constant,
    version: Version,
    draft: &mut Draft,
) -> Result<(), AllocError>
    ensures { OnOk result (draft.new ≡ append_tokens draft.old (spell_literal version constant.now)) }
{
    match constant.form() {
        ConstantForm::Text(text) => draft.text(text),
        ConstantForm::NoEvent(payload) => {
            draft.keyword(Keyword::NoEvent)?;
            write_type(payload, version, draft)
        }
    }
}

/// Appends an opening and a closing bracket.
fn write_unit(version: Version, draft: &mut Draft) -> Result<(), AllocError>
    ensures { OnOk result (draft.new ≡ append_tokens draft.old (spell_literal version unit_literal)) }
{
    draft.symbol(Symbol::Open)?;
    draft.symbol(Symbol::Close)
}

/// Appends `true` or `false`.
fn write_truth(truth: bool, version: Version, draft: &mut Draft) -> Result<(), AllocError>
    ensures { OnOk result (draft.new ≡ append_tokens draft.old (spell_literal version (truth_literal truth))) }
{
    if truth {
        draft.keyword(Keyword::True)
    } else {
        draft.keyword(Keyword::False)
    }
}

/// Appends the expression at an id.
#[cycle(expression)]
#[tactic(auto, using(crate::proofs::Putting::tokens_apart))]
pub(crate) fn write_expression(
    exprs: &Exprs,
    version: Version,
    id: ExprId,
    draft: &mut Draft,
) -> Result<(), AllocError>
    requires { Holds exprs.now id }
    ensures { OnOk result (draft.new ≡ append_tokens draft.old (spell_expression version (expression exprs.now id))) }
{
    match exprs.node(id) {
        ExprNode::Unit => write_unit(version, draft),
        ExprNode::Truth(truth) => write_truth(truth, version, draft),
        ExprNode::Int(number) => draft.number(number),
        ExprNode::Constant(constant) => write_constant(exprs.constant_at(constant), version, draft),
        ExprNode::Name(name) => draft.name(exprs.name_of(name)),
        ExprNode::Pair(first, second) => {
            let comma = Sign::Symbol(Symbol::Comma);
            write_two(exprs, version, first, comma, second, draft)
        }
        ExprNode::Applied(operator, part) => write_applied(exprs, version, operator, part, draft),
        ExprNode::Operation(left, operator, right) => {
            write_operation(exprs, version, left, operator, right, draft)
        }
        ExprNode::Conditional(condition, first, second) => {
            write_conditional(exprs, version, condition, first, second, draft)
        }
        ExprNode::Mapped(node) => write_mapped(exprs, version, node, draft),
        ExprNode::Folded(node) => write_folded(exprs, version, node, draft),
        ExprNode::Called(name, _, part) => write_called(exprs, version, name, part, draft),
    }
}

/// Appends two expressions in brackets, with a token between them.
#[cycle(expression)]
#[tactic(auto, using(crate::proofs::Putting::tokens_apart))]
fn write_two(
    exprs: &Exprs,
    version: Version,
    first: ExprId,
    between: Sign,
    second: ExprId,
    draft: &mut Draft,
) -> Result<(), AllocError>
    requires first_held { Holds exprs.now first }
    requires second_held { Holds exprs.now second }
    ensures { OnOk result (draft.new ≡ append_tokens draft.old (in_brackets (spell_expression version (expression exprs.now first)) (sign_token between) (spell_expression version (expression exprs.now second)))) }
{
    draft.symbol(Symbol::Open)?;
    write_expression(exprs, version, first, draft)?;
    draft.sign(between)?;
    write_expression(exprs, version, second, draft)?;
    draft.symbol(Symbol::Close)
}

/// Appends an expression in brackets.
#[cycle(expression)]
#[tactic(auto, using(crate::proofs::Putting::tokens_apart))]
fn write_one(
    exprs: &Exprs,
    version: Version,
    part: ExprId,
    draft: &mut Draft,
) -> Result<(), AllocError>
    requires { Holds exprs.now part }
    ensures { OnOk result (draft.new ≡ append_tokens draft.old (spell_operand true (spell_expression version (expression exprs.now part)))) }
{
    draft.symbol(Symbol::Open)?;
    write_expression(exprs, version, part, draft)?;
    draft.symbol(Symbol::Close)
}

/// Appends an operator and its operand.
#[cycle(expression)]
#[tactic(auto, using(crate::proofs::Putting::tokens_apart))]
fn write_applied(
    exprs: &Exprs,
    version: Version,
    operator: Unary,
    part: ExprId,
    draft: &mut Draft,
) -> Result<(), AllocError>
    requires { Holds exprs.now part }
    ensures { OnOk result (draft.new ≡ append_tokens draft.old (spell_expression version (applied operator (expression exprs.now part)))) }
{
    draft.keyword(unary_word(operator))?;
    if takes_brackets(operator) {
        write_one(exprs, version, part, draft)
    } else {
        write_expression(exprs, version, part, draft)
    }
}

/// Appends an operator and its operands.
#[cycle(expression)]
#[tactic(auto, using(crate::proofs::Putting::tokens_apart))]
fn write_operation(
    exprs: &Exprs,
    version: Version,
    left: ExprId,
    operator: Operator,
    right: ExprId,
    draft: &mut Draft,
) -> Result<(), AllocError>
    requires left_held { Holds exprs.now left }
    requires right_held { Holds exprs.now right }
    ensures { OnOk result (draft.new ≡ append_tokens draft.old (spell_expression version (operation (expression exprs.now left) operator (expression exprs.now right)))) }
{
    let sign = operator_sign(operator);
    if stands_between(operator) {
        write_two(exprs, version, left, sign, right, draft)
    } else {
        draft.sign(sign)?;
        write_two(
            exprs,
            version,
            left,
            Sign::Symbol(Symbol::Comma),
            right,
            draft,
        )
    }
}

/// Appends two expressions of which a condition chooses one.
#[cycle(expression)]
#[tactic(auto, using(crate::proofs::Putting::tokens_apart))]
fn write_conditional(
    exprs: &Exprs,
    version: Version,
    condition: ExprId,
    first: ExprId,
    second: ExprId,
    draft: &mut Draft,
) -> Result<(), AllocError>
    requires condition_held { Holds exprs.now condition }
    requires first_held { Holds exprs.now first }
    requires second_held { Holds exprs.now second }
    ensures { OnOk result (draft.new ≡ append_tokens draft.old (spell_expression version (conditional (expression exprs.now condition) (expression exprs.now first) (expression exprs.now second)))) }
{
    draft.keyword(Keyword::If)?;
    write_expression(exprs, version, condition, draft)?;
    draft.keyword(Keyword::Then)?;
    write_expression(exprs, version, first, draft)?;
    draft.keyword(Keyword::Else)?;
    write_expression(exprs, version, second, draft)
}

/// Appends a pattern and the expression that it binds names for.
#[cycle(expression)]
#[tactic(auto, using(crate::proofs::Putting::tokens_apart))]
fn write_mapping(
    exprs: &Exprs,
    version: Version,
    pattern: &Pat,
    body: ExprId,
    draft: &mut Draft,
) -> Result<(), AllocError>
    requires { Holds exprs.now body }
    ensures { OnOk result (draft.new ≡ append_tokens draft.old (spell_mapping (spell_pattern (pattern_of pattern.now)) (spell_expression version (expression exprs.now body)))) }
{
    write_pattern(pattern, draft)?;
    draft.symbol(Symbol::MapsTo)?;
    write_expression(exprs, version, body, draft)
}

/// Appends `let`, behind which the pattern stands in front of the value.
#[cycle(expression)]
#[tactic(auto, using(crate::proofs::Putting::tokens_apart))]
fn write_let(
    exprs: &Exprs,
    version: Version,
    part: ExprId,
    pattern: PatternId,
    body: ExprId,
    draft: &mut Draft,
) -> Result<(), AllocError>
    requires part_held { Holds exprs.now part }
    requires pattern_held { HoldsPattern exprs.now pattern }
    requires body_held { Holds exprs.now body }
    ensures { OnOk result (draft.new ≡ append_tokens draft.old (spell_expression version (mapped (expression exprs.now part) Mapping.Let (pattern_of (stored_pattern exprs.now pattern)) (expression exprs.now body)))) }
{
    draft.keyword(Keyword::Let)?;
    write_pattern(exprs.placed(pattern), draft)?;
    draft.symbol(Symbol::Equals)?;
    write_expression(exprs, version, part, draft)?;
    draft.keyword(Keyword::In)?;
    write_expression(exprs, version, body, draft)
}

/// Appends a form on an expression with a function.
#[cycle(expression)]
#[tactic(auto, using(crate::proofs::Putting::tokens_apart))]
fn write_mapped(
    exprs: &Exprs,
    version: Version,
    node: Mapped,
    draft: &mut Draft,
) -> Result<(), AllocError>
    requires { HoldsParts exprs.now (ExprNode.Mapped node) }
    ensures { OnOk result (draft.new ≡ append_tokens draft.old (spell_expression version (node_expression exprs.now (ExprNode.Mapped node)))) }
{
    if node.mapping == Mapping::Let {
        return write_let(exprs, version, node.part, node.pattern, node.body, draft);
    }
    draft.keyword(mapping_word(node.mapping))?;
    draft.symbol(Symbol::Open)?;
    write_expression(exprs, version, node.part, draft)?;
    draft.symbol(Symbol::Comma)?;
    write_mapping(exprs, version, exprs.placed(node.pattern), node.body, draft)?;
    draft.symbol(Symbol::Close)
}

/// Appends a form on two expressions with a function.
#[cycle(expression)]
#[tactic(auto, using(crate::proofs::Putting::tokens_apart))]
fn write_folded(
    exprs: &Exprs,
    version: Version,
    node: Folded,
    draft: &mut Draft,
) -> Result<(), AllocError>
    requires { HoldsParts exprs.now (ExprNode.Folded node) }
    ensures { OnOk result (draft.new ≡ append_tokens draft.old (spell_expression version (node_expression exprs.now (ExprNode.Folded node)))) }
{
    draft.keyword(folding_word(node.folding))?;
    draft.symbol(Symbol::Open)?;
    write_expression(exprs, version, node.first, draft)?;
    draft.symbol(Symbol::Comma)?;
    write_expression(exprs, version, node.second, draft)?;
    draft.symbol(Symbol::Comma)?;
    write_mapping(exprs, version, exprs.placed(node.pattern), node.body, draft)?;
    draft.symbol(Symbol::Close)
}

/// Appends a call of a stored function on an expression.
#[cycle(expression)]
#[tactic(auto, using(crate::proofs::Putting::tokens_apart))]
fn write_called(
    exprs: &Exprs,
    version: Version,
    function: NameId,
    part: ExprId,
    draft: &mut Draft,
) -> Result<(), AllocError>
    requires function_held { HoldsName exprs.now function }
    requires part_held { Holds exprs.now part }
    ensures { OnOk result (draft.new ≡ append_tokens draft.old (spell_expression version (called (name_at exprs.now function) (expression exprs.now part)))) }
{
    draft.keyword(Keyword::Call)?;
    draft.name(exprs.name_of(function))?;
    write_one(exprs, version, part, draft)
}

/// Appends the function at an id.
#[tactic(auto, using(crate::proofs::Putting::tokens_apart))]
pub(crate) fn write_function(
    exprs: &Exprs,
    version: Version,
    function: FunctionId,
    draft: &mut Draft,
) -> Result<(), AllocError>
    requires { HoldsFunction exprs.now function }
    ensures { OnOk result (draft.new ≡ append_tokens draft.old (spell_function version (function_at exprs.now function))) }
{
    write_mapping(
        exprs,
        version,
        exprs.pattern(function),
        exprs.body(function),
        draft,
    )
}
