//! Arithmetic within signed 64 bits.
ghost use Rattle.std.specs.Prelude.{◌≡◌, ◌≢◌, ◌<ℤ◌, pos, FitsSigned};
ghost use Rattle.std.specs.Int.{w64};
ghost use Rattle.sf_operator.specs.Operations.{of_numbers};
ghost use Rattle.sf_operator.specs.Operations;
ghost use Rattle.sf_operator.specs.Outcomes.{tested};
ghost use Rattle.sf_operator.specs.Answers.{Computes};

use crate::operator::Arithmetic;
use sf_value::ValueFault;

/// What an operator makes of two numbers: `Overflow` where it is outside signed 64 bits, and `DivideByZero` where a
/// divisor is zero.
#[inline(always)]
pub fn calculate(operator: Arithmetic, left: i64, right: i64) -> Result<i64, ValueFault>
    ensures { Computes result (of_numbers operator left right) }
{
    match operator {
        Arithmetic::Plus => left.checked_add(right).ok_or(ValueFault::Overflow),
        Arithmetic::Minus => left.checked_sub(right).ok_or(ValueFault::Overflow),
        Arithmetic::Times => left.checked_mul(right).ok_or(ValueFault::Overflow),
        Arithmetic::Divide | Arithmetic::Modulo if right == 0 => Err(ValueFault::DivideByZero),
        Arithmetic::Divide => narrow(quotient(i128::from(left), i128::from(right))),
        Arithmetic::Modulo => narrow(remainder(i128::from(left), i128::from(right))),
    }
}

/// A number, where it is within signed 64 bits.
pub fn narrow(n: i128) -> Result<i64, ValueFault>
    ensures { Computes result (tested n) }
{
    if n < i128::from(i64::MIN) || i128::from(i64::MAX) < n {
        return Err(ValueFault::Overflow);
    }
    Ok(n as i64)
}

/// The quotient of two numbers within signed 64 bits, rounded towards minus infinity.
#[inline(never)]
fn quotient(left: i128, right: i128) -> i128
    requires left_narrow { FitsSigned w64 left }
    requires right_narrow { FitsSigned w64 right }
    requires divisor { right ≢ pos 0 }
    ensures { result ≡ Operations.quotient left right }
{
    if 0 < right {
        left.div_euclid(right)
    } else {
        (-left).div_euclid(-right)
    }
}

/// What the divisor leaves, beside that quotient.
#[inline(never)]
fn remainder(left: i128, right: i128) -> i128
    requires left_narrow { FitsSigned w64 left }
    requires right_narrow { FitsSigned w64 right }
    requires divisor { right ≢ pos 0 }
    ensures { result ≡ Operations.remainder left right }
{
    if 0 < right {
        left.rem_euclid(right)
    } else {
        -(-left).rem_euclid(-right)
    }
}
