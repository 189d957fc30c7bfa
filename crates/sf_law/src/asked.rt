//! The names for which a plan may ask what their processes began as.
ghost use Rattle.std.specs.Prelude.{◌≡◌, cond, IsTrue, IfOk};
ghost use Rattle.sf_expr.specs.Arena.{name_at};
ghost use Rattle.sf_law.specs.Arena.{plan_expressions, plan_headers, IsEnough, AsksOnly};
ghost use Rattle.sf_law.specs.Asking.{start_asked, argument_asked, arguments_asked, is_asked, IsLack};
ghost use Rattle.sf_law.specs.Mentioned.{is_mentioned};

use crate::mentioned::{MOST, Mentioned};
use crate::node::{PlanArgument, PlanId, PlanNode};
use crate::plan::Plan;
use crate::template::PlanParameter;
use sf_expr::NameId;
use sf_term::Start;
use std::alloc::{AllocError, Global};

/// The names for which a plan asks what their processes began as: those of `fresh`, and those that `run` hands on under one of
/// them. Any where they are too many. The error is a want of memory.
pub(crate) fn asked_names(alloc: Global, plan: &Plan) -> Result<Mentioned, AllocError>
    ensures enough { IfOk result (λ asked. IsEnough plan.now (is_mentioned (plan_expressions plan.now) asked)) }
    ensures only { IfOk result (λ asked. AsksOnly plan.now asked) }
{
    let mut asked = Mentioned::nothing(alloc);
    for _ in 0..=MOST {
        match asked.lack(plan) {
            Some(name) => asked.add(plan, name)?,
            None => return Ok(asked),
        }
    }
    Ok(Mentioned::Any)
}

impl Mentioned {
    // A name that a plan asks for and that isn't among these; `None` where they are enough.
    fn lack(&self, plan: &Plan) -> Option<NameId>
        ensures { IsLack (plan_expressions plan.now) (IsEnough plan.now) self.now result }
    {
        for number in 0..plan.count() {
            let lack = self.lack_of_node(plan, plan.node(PlanId(number)));
            if lack.is_some() {
                return lack;
            }
        }
        None
    }

    // The same of a node.
    fn lack_of_node(&self, plan: &Plan, node: &PlanNode) -> Option<NameId>
        ensures { IsLack (plan_expressions plan.now) (λ asks. IsTrue (is_asked (plan_expressions plan.now) (plan_headers plan.now) asks node.now)) self.now result }
    {
        match node {
            PlanNode::Started(start, name) => self.lack_of_start(plan, false, *start, *name),
            PlanNode::Call(_, template, arguments) => {
                self.lack_of_arguments(plan, plan.template(*template).parameters(), arguments)
            }
            _ => None,
        }
    }

    // The same of arguments, each for the parameter at its place.
    fn lack_of_arguments(
        &self,
        plan: &Plan,
        parameters: &[PlanParameter],
        arguments: &[PlanArgument],
    ) -> Option<NameId>
        ensures { IsLack (plan_expressions plan.now) (λ asks. IsTrue (arguments_asked (plan_expressions plan.now) asks parameters.now arguments.now)) self.now result }
    {
        for (parameter, argument) in parameters.iter().zip(arguments) {
            let lack = self.lack_of_argument(plan, parameter, argument);
            if lack.is_some() {
                return lack;
            }
        }
        None
    }

    // The same of one.
    fn lack_of_argument(
        &self,
        plan: &Plan,
        parameter: &PlanParameter,
        argument: &PlanArgument,
    ) -> Option<NameId>
        ensures { IsLack (plan_expressions plan.now) (λ asks. IsTrue (argument_asked (plan_expressions plan.now) asks (name_at (plan_expressions plan.now) parameter.now.name) argument.now)) self.now result }
    {
        match argument {
            PlanArgument::Started(start, name) => {
                let handed = self.has(plan, parameter.name());
                self.lack_of_start(plan, handed, *start, *name)
            }
            PlanArgument::Value(_, _) | PlanArgument::Closed(_) | PlanArgument::Collected(_) => {
                None
            }
        }
    }

    // The same of a process of a name, where it is handed on under a name among these, or isn't.
    fn lack_of_start(&self, plan: &Plan, handed: bool, start: Start, name: NameId) -> Option<NameId>
        ensures { result ≡ cond (start_asked handed (is_mentioned (plan_expressions plan.now) self.now (name_at (plan_expressions plan.now) name)) start) None (Some name) }
    {
        if self.is_enough_for(plan, handed, start, name) {
            None
        } else {
            Some(name)
        }
    }

    // Whether the name is among these where it is asked for.
    fn is_enough_for(&self, plan: &Plan, handed: bool, start: Start, name: NameId) -> bool
        ensures { result ≡ start_asked handed (is_mentioned (plan_expressions plan.now) self.now (name_at (plan_expressions plan.now) name)) start }
    {
        match start {
            Start::Run => !handed || self.has(plan, name),
            Start::Fresh => self.has(plan, name),
        }
    }
}
