//! What forms with one part keep at first.
ghost use Rattle.std.specs.Prelude.{◌≡◌, [], Ok, Err};
ghost use Rattle.sf_value.specs.Values.{Data};
ghost use Rattle.sf_expr.specs.Expressions.{Expression};
ghost use Rattle.sf_expr.specs.Evaluation.{answer, eval};
ghost use Rattle.sf_operator.specs.Answers.{Evaluates};
ghost use Rattle.sf_term.specs.Trees.{Term, sided, headed};
ghost use Rattle.sf_mean.specs.Lives.{Environment, scope_around};
ghost use Rattle.sf_mean.specs.Meaning.{Network, Made};
ghost use Rattle.sf_state.specs.Standing.{Wraps};
ghost use Rattle.sf_begin.specs.Beginning.{WrapsAtFirst};

use crate::context::fault_of;
use sf_operator::EvalFault;
use sf_state::{Feedback, Wrap};
use sf_term::{Heading, Side};
use sf_value::{Fault, Value};

/// A part on one side of a pair, before its first step.
pub(crate) fn on_side(side: Side) -> Wrap
    ensures { (n : Network) (t : Term) (e : Environment) (m : Made) → Wraps n result (sided side t) e m [] t [] }
{
    match side {
        Side::First => Wrap::First,
        Side::Second => Wrap::Second,
    }
}

/// A part with an expression at its head, before its first step, by what that is worth.
pub(crate) fn with_head(heading: Heading, worth: Result<Value, EvalFault>) -> Result<Wrap, Fault>
    ensures { (n : Network) (i : Expression) (t : Term) (e : Environment) (x : Data) → Evaluates worth (eval i (scope_around n.functions e)) →
        WrapsAtFirst n (headed heading i t) e x t result }
{
    match worth {
        Ok(value) => Ok(with_value(heading, value)),
        Err(fault) => with_fault(heading, fault),
    }
}

// The same by the expression's value.
fn with_value(heading: Heading, value: Value) -> Wrap
    ensures { (n : Network) (i : Expression) (t : Term) (e : Environment) (x : Data) → eval i (scope_around n.functions e) ≡ answer value →
        WrapsAtFirst n (headed heading i t) e x t (Ok result) }
{
    match heading {
        Heading::LoopPre => Wrap::Loop(Feedback::new(value)),
        Heading::Initialized => Wrap::Initialized(Some(value)),
        Heading::Replaced => Wrap::Replaced(Some(value)),
        Heading::Followed => Wrap::Followed(Ok(value)),
    }
}

// The same by its fault: `fby` keeps it until its part was stepped.
fn with_fault(heading: Heading, fault: EvalFault) -> Result<Wrap, Fault>
    ensures { (n : Network) (i : Expression) (t : Term) (e : Environment) (x : Data) → Evaluates (Err fault) (eval i (scope_around n.functions e)) →
        WrapsAtFirst n (headed heading i t) e x t result }
{
    match heading {
        Heading::LoopPre | Heading::Initialized | Heading::Replaced => Err(fault_of(fault)),
        Heading::Followed => match fault {
            EvalFault::Value(own) => Ok(Wrap::Followed(Err(own))),
            EvalFault::Memory => Err(Fault::Memory),
        },
    }
}
