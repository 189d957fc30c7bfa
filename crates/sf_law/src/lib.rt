//! The plans that are run.
#![tactic(auto)]

mod asked;
mod laws;
mod members;
mod mentioned;
mod mentions;
mod node;
mod places;
mod plain;
mod plan;
mod template;

pub use laws::asks_for_none;
pub use members::TermPlans;
pub use mentioned::{Binder, Mentioned};
pub use node::{
    PlanArgument, PlanChain, PlanCollection, PlanContinuation, PlanEditing, PlanId, PlanNode,
    PlanPrimitive, PlanReleasing, PlanSwitch, ShortId, TemplateId,
};
pub use plain::{empty_plan, plain_plan, plan_node};
pub use plan::Plan;
pub use template::{PlanParameter, PlanTemplate};
