//! The meter of a sample: how many nodes it entered, how many of them one inside another, what its probes recorded, and why it has
//! no value.
#![tactic(auto)]

mod meter;

pub use meter::{Mark, Meter, Spent, Stop};
