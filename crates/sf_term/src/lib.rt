//! Networks: terms and templates, in an arena.
#![tactic(auto)]

mod argument;
mod collection;
mod form;
mod names;
mod node;
mod program;
mod refusal;
mod template;

pub use collection::{CollExpr, CollectionId};
pub use form::{
    Accumulation, Bare, Heading, Join, Naming, Observation, Selection, Side, Start, Switching,
    Timing, WithValue,
};
pub use node::{
    Argument, ArgumentsId, Continuation, Editing, Node, Primitive, Releasing, Switch, TermId,
};
pub use program::Program;
pub use refusal::BuildRefusal;
pub use template::{Parameter, ParameterForm, Template};
