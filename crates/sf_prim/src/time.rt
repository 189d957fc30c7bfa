//! Samples of `localTime`.
ghost use Rattle.std.specs.Prelude.{◌≡◌, ◌+ℤ◌, pos, Some, OnOk};
ghost use Rattle.sf_operator.specs.Outcomes.{tested};
ghost use Rattle.sf_operator.specs.Answers.{Computes, Evaluates};
ghost use Rattle.sf_delay.specs.Gifts.{gift};
ghost use Rattle.sf_prim.specs.Remembering.{time_after};

use sf_operator::{EvalFault, narrow};
use sf_value::{Value, ValueFault};

/// A time so many milliseconds later, where it is within signed 64 bits.
fn later(before: i64, dt: u64) -> Result<i64, ValueFault>
    ensures { Computes result (tested (before +ℤ pos dt)) }
{
    narrow(i128::from(before) + i128::from(dt))
}

/// The milliseconds since the first sample in place of the input, `dt` milliseconds after the sample before; `dt` isn't
/// looked at where there was none. The fault is `Overflow`.
#[inline(never)]
pub(crate) fn tell_time(
    clock: &mut Option<i64>,
    dt: u64,
    value: &mut Value,
) -> Result<(), EvalFault>
    ensures told { Evaluates (gift result value.new) (tested (time_after clock.old dt)) }
    ensures kept { OnOk result (clock.new ≡ Some (time_after clock.old dt)) }
{
    let time = match *clock {
        Some(before) => later(before, dt)?,
        None => 0,
    };
    *clock = Some(time);
    *value = Value::int(time);
    Ok(())
}
