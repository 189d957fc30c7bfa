//! The plan that is the network itself.
ghost use Rattle.std.specs.Prelude.{IfOk};
ghost use Rattle.sf_optimise.specs.Plans.{IsPlainPlan};

use sf_check::Checked;
use sf_law::{Plan, plain_plan};
use std::alloc::{AllocError, Global};

/// The plan of an accepted network that is the network itself.
pub fn plain(alloc: Global, checked: &Checked) -> Result<Plan, AllocError>
    ensures { IfOk result (λ plan. IsPlainPlan checked.now plan) }
{
    let program = checked.program();
    let plan = plain_plan(alloc, program, checked.main())?;
    Ok(plan)
}
