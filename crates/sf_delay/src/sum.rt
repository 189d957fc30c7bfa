//! What is under the inputs of `integral`.
ghost use Rattle.std.specs.Prelude.{◌≡◌, ◌+ℤ◌, ◌*ℤ◌, pos, [], ◌∷◌, OnOk};
ghost use Rattle.sf_operator.specs.Outcomes.{tested};
ghost use Rattle.sf_operator.specs.Answers.{Computes, Evaluates};
ghost use Rattle.sf_mean.specs.Lives.{Life, step};
ghost use Rattle.sf_mean.specs.Formulas.{area};
ghost use Rattle.sf_delay.specs.Gifts.{gift};

use sf_operator::{EvalFault, narrow, number_in};
use sf_value::{Value, ValueFault};

/// What is under the inputs of `integral` so far.
#[derive(Clone, Copy, Debug, PartialEq, Eq)]
pub struct Sum {
    /// The sum of the inputs before, each by the milliseconds to the next.
    pub sum: i64,
    /// The input of the sample before; 0 where there was none.
    pub level: i64,
}

/// A sum with a number for each of `dt` milliseconds, where it is within signed 64 bits.
fn grown(sum: i64, level: i64, dt: u64) -> Result<i64, ValueFault>
    ensures { Computes result (tested (sum +ℤ (pos dt *ℤ level))) }
{
    narrow(i128::from(sum) + i128::from(dt) * i128::from(level))
}

impl Sum {
    ghost use Rattle.sf_delay.specs.Waits.{Sums};

    /// A sum before its first sample.
    pub fn born() -> Sum
        ensures { Sums result [] }
    {
        Sum { sum: 0, level: 0 }
    }

    /// The sum so far in place of the input: the input of the sample before is added for each of the `dt` milliseconds
    /// since. The fault is `Overflow`, where the whole sum is outside signed 64 bits.
    #[inline(never)]
    pub fn step(&mut self, dt: u64, value: &mut Value) -> Result<(), EvalFault>
        ensures told { (L : Life) → Sums self.old L → Evaluates (gift result value.new) (tested (area (step dt value.old ∷ L))) }
        ensures kept { (L : Life) → Sums self.old L → OnOk result (Sums self.new (step dt value.old ∷ L)) }
    {
        let sum = grown(self.sum, self.level, dt)?;
        let level = number_in(value).unwrap_or(0);
        *self = Sum { sum, level };
        *value = Value::int(sum);
        Ok(())
    }
}
