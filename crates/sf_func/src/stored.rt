//! What registries hold of a function.
ghost use Rattle.std.specs.Prelude.{◌≡◌, Option};
ghost use Rattle.sf_value.specs.Values.{Data};
ghost use Rattle.sf_func.specs.Meaning.{Applied};
ghost use Rattle.sf_func.specs.Storing.{stored_answers};
ghost use Rattle.sf_func.specs.declared.stored.Stored.TheVariants.{OfValues, OfNumber, OfNumbers};

use crate::adapter::{OnNumber, OnNumbers};
use crate::function::{Function, FunctionFault};
use crate::numbers::{answered, number_of, numbers_of};
use sf_value::Value;
use std::alloc::Global;

/// What is applied to values.
pub trait Answers {
    // what it answers to an argument: a value, or none where it refuses it
    ghost answers: { Self → Data → Option Data };
}

/// A function of values, of a number, or of two numbers.
pub(crate) enum Stored {
    OfValues(Box<dyn Function>),
    OfNumber(Box<dyn OnNumber>),
    OfNumbers(Box<dyn OnNumbers>),
}

impl Drop for Stored {
    fn drop(self) {
        match self {
            Stored::OfValues(function) => drop(function),
            Stored::OfNumber(function) => drop(function),
            Stored::OfNumbers(function) => drop(function),
        }
    }
}

impl Answers for Stored {
    ghost answers = { stored_answers (λ f. (Function-box f).answers f.value) (λ f. (OnNumber-box f).answer f.value) (λ f. (OnNumbers-box f).answer f.value) };
}

impl Stored {
    /// What it answers to an argument. The error is its refusal, or `Memory`.
    pub(crate) fn apply(&self, alloc: Global, value: &Value) -> Result<Value, FunctionFault>
        ensures { Applied (⟦<Stored as Answers>⟧.answers self.now value.now) result }
    {
        match self {
            Stored::OfValues(function) => function.apply(alloc, value),
            Stored::OfNumber(function) => match number_of(value) {
                Some(n) => answered(function.answer(n)),
                None => Err(FunctionFault::Refused),
            },
            Stored::OfNumbers(function) => match numbers_of(value) {
                Some((n, m)) => answered(function.answer(n, m)),
                None => Err(FunctionFault::Refused),
            },
        }
    }

    /// The function of values that it is.
    pub(crate) fn into_function(self) -> Box<dyn Function>
        requires { (f : _) × (self ≡ OfValues f) }
        ensures { self ≡ OfValues result }
    {
        match self {
            Stored::OfValues(function) => function,
            Stored::OfNumber(_) | Stored::OfNumbers(_) => unreachable!(),
        }
    }

    /// The function of a number that it is.
    pub(crate) fn into_on_number(self) -> Box<dyn OnNumber>
        requires { (f : _) × (self ≡ OfNumber f) }
        ensures { self ≡ OfNumber result }
    {
        match self {
            Stored::OfNumber(function) => function,
            Stored::OfValues(_) | Stored::OfNumbers(_) => unreachable!(),
        }
    }

    /// The function of two numbers that it is.
    pub(crate) fn into_on_numbers(self) -> Box<dyn OnNumbers>
        requires { (f : _) × (self ≡ OfNumbers f) }
        ensures { self ≡ OfNumbers result }
    {
        match self {
            Stored::OfNumbers(function) => function,
            Stored::OfValues(_) | Stored::OfNumber(_) => unreachable!(),
        }
    }
}
