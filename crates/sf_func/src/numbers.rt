//! Numbers in values.
ghost use Rattle.std.specs.Prelude.{◌≡◌};
ghost use Rattle.std.specs.Option.{option_and_then};
ghost use Rattle.sf_func.specs.Meaning.{Applied};
ghost use Rattle.sf_func.specs.Numbers.{as_number, as_numbers, narrowed};

use crate::function::FunctionFault;
use sf_value::{Form, Value};

/// The number that a value is, if it is one.
pub(crate) fn number_of(value: &Value) -> Option<i64>
    ensures { result ≡ as_number value.now }
{
    match value.form() {
        Form::Int(n) => Some(*n),
        _ => None,
    }
}

/// The numbers of which a value is a pair, if it is one of two numbers.
pub(crate) fn numbers_of(value: &Value) -> Option<(i64, i64)>
    ensures { result ≡ as_numbers value.now }
{
    match value.form() {
        Form::Pair(halves) => Some((number_of(&halves.first)?, number_of(&halves.second)?)),
        _ => None,
    }
}

/// The number that a function answers, as a value.
pub(crate) fn answered(answer: Option<i64>) -> Result<Value, FunctionFault>
    ensures { Applied (option_and_then narrowed answer) result }
{
    match answer {
        Some(answer) => Ok(Value::int(answer)),
        None => Err(FunctionFault::Refused),
    }
}
