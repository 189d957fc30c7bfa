//! Operators: the types that they take and make, and what they make of values.
#![tactic(auto)]

mod arithmetic;
mod fault;
mod function_types;
mod kinds;
mod laws;
mod operator;
mod parts;
mod values;

pub use arithmetic::{calculate, narrow};
pub use fault::EvalFault;
pub use function_types::{
    called_type, folded_argument_type, folded_type, mapped_argument_type, mapped_type,
};
pub use kinds::{binary_type, conditional_type, event_type, pair_type, payload, same, unary_type};
pub use laws::{floor_division, typed_functions, typed_operators};
pub use operator::{
    Arithmetic, Comparison, Equality, Folding, Logic, Mapping, Merge, Operator, Unary,
};
pub use parts::{is_true, number_in, payload_in, rows_in, value_of_key};
pub use values::{copied, decide, operate, operate_on};
