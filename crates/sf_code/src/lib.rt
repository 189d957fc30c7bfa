//! Code: expressions of which each name is a place among the values of frames, or a value.
//!
//! `expression_code` and `function_code` make it once for every scope: the names around it are places in its outermost
//! frame, whose value is put together where a scope has values for them (`OpenCode`, `Closure`). `evaluate` and `apply` run
//! it as often as values come. It is worth what the expression is worth, and needs neither the arena of expressions nor a
//! name's text when it runs: names are looked for where it is made, constants stand in it as values, and its parts stand in
//! boxes. The first fault of its operations is the answer, from left to right; of `if` and
//! `match` the chosen branch alone is run, and the second operand of `and` and `or` only where the first does not decide.
//!
//! `eval` does both at once, for an expression that is evaluated once.
#![tactic(auto)]

mod argument;
mod arithmetic;
mod around;
mod beside;
mod code;
mod compiler;
mod evaluation;
mod frames;
mod function;
mod laws;
mod name_list;
mod names;
mod open;
mod pattern;
mod place;
mod rearranging;
mod running;

pub use arithmetic::{Calculation, is_arithmetic};
pub use around::Around;
pub use code::Code;
pub use evaluation::{eval, evaluate_among};
pub use function::{apply, apply_beside, apply_in_place, evaluate, expression_code, function_code};
pub use laws::compiled_expression;
pub use name_list::{NamedValue, NamedValues};
pub use names::Names;
pub use open::{Closure, OpenCode};
