//! One sample of a network: the steps of its parts, and the routes that values take through them.
#![tactic(auto)]

// The value of a result. Without one the part stops, for want of memory.
macro_rules! granted {
    ($meter:expr, $result:expr) => {
        match $result {
            Ok(value) => value,
            Err(_) => return Err($meter.stop(Fault::Memory)),
        }
    };
}

mod leaves;
mod routing;
mod sample;
mod tables;
mod turning;

pub use sample::step;
pub use sf_meter::Meter;
