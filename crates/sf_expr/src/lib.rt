//! Expressions: their trees, in an arena, with their types.
#![tactic(auto)]

mod constant;
mod exprs;
mod frame;
mod laws;
mod meaning;
mod pat;
mod scope;
mod stored;
mod typing;

pub use constant::{Constant, ConstantForm};
pub use exprs::{
    ConstantId, ExprId, ExprNode, Exprs, Folded, FunctionId, Mapped, NameId, NumberedPattern,
    Numbers, PatternId,
};
pub use frame::Frame;
pub use laws::{found_type, one_refusal, some_type, typed_expression};
pub use meaning::Meaning;
pub use pat::{Pat, PatForm};
pub use scope::TypeScope;
pub use sf_arena::ArenaRefusal;
pub use sf_operator::{
    Arithmetic, Comparison, Equality, Folding, Logic, Mapping, Merge, Operator, Unary,
};
pub use sf_refusal::{Refusal, Rule, Spot};
pub use typing::{ExprContext, function_type, pair_type, type_of};
