//! What holds of expressions.
ghost use Rattle.std.specs.Prelude.{◌≡◌, ◌↔◌, ◌⊎◌, Some, Ok};
ghost use Rattle.sf_value.specs.Values.{Kind};
ghost use Rattle.sf_expr.specs.declared.exprs.Exprs.{Exprs};
ghost use Rattle.sf_expr.specs.declared.exprs.ExprId.{ExprId};
ghost use Rattle.sf_expr.specs.declared.exprs.FunctionId.{FunctionId};
ghost use Rattle.sf_refusal.specs.declared.spot.Spot.{Spot};
ghost use Rattle.sf_refusal.specs.declared.refusal.Breach.{Breach};
ghost use Rattle.sf_expr.specs.Expressions.{Expression, Function};
ghost use Rattle.sf_expr.specs.Arena.{expression, function_at, spot_at, node_at};
ghost use Rattle.sf_expr.specs.Typing.{Names, Fits, HasType, FunctionTakes};
ghost use Rattle.sf_expr.specs.Inference.{expression_type, function_output};
ghost use Rattle.sf_expr.specs.Judging.{form_judged, judged, function_judged};
ghost use Rattle.sf_expr.specs.Refusals.{Refused, FunctionRefused};
ghost use Rattle.sf_expr.specs.Laws.{EachExpressionYields, EachFunctionYields};
ghost use Rattle.sf_expr.specs.Laws.{EachExpressionRefusedOnce, EachFunctionRefusedOnce};

/// A typed expression is worth a value of its type, or a fault, where each name has a value of its type. So is what a
/// function answers to a value of the type that it takes.
pub fn typed_expression()
    ensures expressions { EachExpressionYields }
    ensures functions { EachFunctionYields }
{}

/// An expression has the type that `expression_type` finds, and no other; a function takes a type to the one that
/// `function_output` finds, and to no other.
pub fn found_type()
    ensures expressions { (R : Names) (e : Expression) (t : Kind) → HasType R e t ↔ (expression_type R e ≡ Some t) }
    ensures functions { (R : Names) (f : Function) (a b : Kind) → FunctionTakes R f a b ↔ (function_output R f a ≡ Some b) }
{}

/// What is judged of an expression is what the equation of its form says of its parts. It is judged to have the type that it
/// has; so is a function, for values of a type of at most 256 nodes.
pub fn judged_type()
    ensures forms { (x : Exprs) (i : ExprId) → judged x i ≡ form_judged x (judged x) (spot_at x i) (node_at x i) }
    ensures expressions { (x : Exprs) (R : Names) (i : ExprId) (t : Kind) → HasType R (expression x i) t ↔ (judged x i R ≡ Ok t) }
    ensures functions { (x : Exprs) (R : Names) (f : FunctionId) (at : Spot) (a b : Kind) → Fits a →
        FunctionTakes R (function_at x f) a b ↔ (function_judged x f at a R ≡ Ok b) }
{}

/// Each expression has a type or is refused; so has each function, for values of a type of at most 256 nodes.
pub fn some_type()
    ensures expressions { (x : Exprs) (R : Names) (i : ExprId) →
        ((t : Kind) × HasType R (expression x i) t) ⊎ ((r : Breach) × Refused x R i r) }
    ensures functions { (x : Exprs) (R : Names) (f : FunctionId) (a : Kind) (at : Spot) → Fits a →
        ((b : Kind) × FunctionTakes R (function_at x f) a b) ⊎ ((r : Breach) × FunctionRefused x R f a at r) }
{}

/// An expression has one first refusal at most, and so has a function of values of a type: the refusal and its place are
/// fixed.
pub fn one_refusal()
    ensures expressions { EachExpressionRefusedOnce }
    ensures functions { EachFunctionRefusedOnce }
{}
