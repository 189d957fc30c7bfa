//! Functions on numbers as stored functions.
ghost use Rattle.std.specs.Prelude.{◌≡◌, ℤ, Option};
ghost use Rattle.sf_func.specs.Numbers.{on_number, on_numbers};

use crate::function::{Function, FunctionFault};
use crate::numbers::{answered, number_of, numbers_of};
use sf_value::Value;
use std::alloc::Global;

/// A function from a number to a number, or `None`, which is a refusal.
pub trait OnNumber: Drop {
    ghost answer: { Self → ℤ → Option ℤ };

    /// What it answers to a number.
    fn answer(&self, n: i64) -> Option<i64>
        ensures { result ≡ answer self.now n };
}

/// A function from two numbers to a number, or `None`, which is a refusal.
pub trait OnNumbers: Drop {
    ghost answer: { Self → ℤ → ℤ → Option ℤ };

    /// What it answers to two numbers.
    fn answer(&self, n: i64, m: i64) -> Option<i64>
        ensures { result ≡ answer self.now n m };
}

/// A function of one number as a function of values. It refuses what is no number.
#[derive(Drop)]
pub struct Int1<N> {
    function: N,
}

impl<N: OnNumber> Int1<N> {
    /// The function, of values.
    pub fn new(function: N) -> Int1<N>
        ensures { result.function ≡ function }
    {
        Int1 { function }
    }
}

impl<N: OnNumber> Function for Int1<N> {
    ghost answers = { λ i. on_number (N.answer i.function) };

    fn apply(&self, _alloc: Global, value: &Value) -> Result<Value, FunctionFault> {
        match number_of(value) {
            Some(n) => answered(self.function.answer(n)),
            None => Err(FunctionFault::Refused),
        }
    }
}

/// A function of two numbers, which it takes as a pair, as a function of values. It refuses what is no such pair.
#[derive(Drop)]
pub struct Int2<N> {
    function: N,
}

impl<N: OnNumbers> Int2<N> {
    /// The function, of values.
    pub fn new(function: N) -> Int2<N>
        ensures { result.function ≡ function }
    {
        Int2 { function }
    }
}

impl<N: OnNumbers> Function for Int2<N> {
    ghost answers = { λ i. on_numbers (N.answer i.function) };

    fn apply(&self, _alloc: Global, value: &Value) -> Result<Value, FunctionFault> {
        match numbers_of(value) {
            Some((n, m)) => answered(self.function.answer(n, m)),
            None => Err(FunctionFault::Refused),
        }
    }
}
