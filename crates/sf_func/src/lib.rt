//! Stored functions.
#![tactic(auto)]

mod adapter;
mod arithmetic;
mod callee;
mod function;
mod numbers;
mod registry;
mod signatures;
mod stored;

pub use adapter::{Int1, Int2, OnNumber, OnNumbers};
pub use arithmetic::{Absolute, Greatest, Least, Sign};
pub use callee::Callee;
pub use function::{Function, FunctionFault};
pub use registry::{AddRefusal, Entry, HasFunctionTypes, Holds, Registry};
pub use signatures::{Signature, Signatures};
pub use stored::Answers;
