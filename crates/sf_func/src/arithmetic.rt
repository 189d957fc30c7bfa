//! The functions on numbers that players are given.
ghost use Rattle.sf_func.specs.Arithmetic.{absolute, sign_number, greater_number, less_number};

use crate::adapter::{OnNumber, OnNumbers};

/// The distance from zero. It refuses the least number.
#[derive(Drop)]
pub struct Absolute;

/// -1 below zero, 1 above it, 0 at zero.
#[derive(Drop)]
pub struct Sign;

/// The greater one of two numbers.
#[derive(Drop)]
pub struct Greatest;

/// The lesser one of two numbers.
#[derive(Drop)]
pub struct Least;

impl OnNumber for Absolute {
    ghost answer = { λ _ n. absolute n };

    fn answer(&self, n: i64) -> Option<i64> {
        if n < -i64::MAX {
            None
        } else if n < 0 {
            Some(0 - n)
        } else {
            Some(n)
        }
    }
}

impl OnNumber for Sign {
    ghost answer = { λ _ n. sign_number n };

    fn answer(&self, n: i64) -> Option<i64> {
        if n < 0 {
            Some(-1)
        } else if 0 < n {
            Some(1)
        } else {
            Some(0)
        }
    }
}

impl OnNumbers for Greatest {
    ghost answer = { λ _ n m. greater_number n m };

    fn answer(&self, n: i64, m: i64) -> Option<i64> {
        if n < m { Some(m) } else { Some(n) }
    }
}

impl OnNumbers for Least {
    ghost answer = { λ _ n m. less_number n m };

    fn answer(&self, n: i64, m: i64) -> Option<i64> {
        if n < m { Some(n) } else { Some(m) }
    }
}
