//! Networks that were checked, and engines that run them.
use sf_check::{Checked, check};
use sf_engine::{Engine, Mode, Sample};
use sf_func::{Holds, Registry};
use sf_text::read_network;
use sf_value::Form;
use std::alloc::Global;
use std::test::Fail;

/// The network's text of a delay by one sample.
pub(crate) const DELAY: &[u8] = b"network 1;\ntemplate main(): Int ~> Int = iPre 7;\n";

/// That of an integral.
pub(crate) const AREA: &[u8] = b"network 1;\ntemplate main(): Int ~> Int = integral;\n";

/// A network that was read and checked.
pub(crate) fn checked(
    alloc: Global,
    network: &[u8],
    functions: &Registry,
) -> Result<Checked, Fail> {
    let program = read_network(alloc, network)?;
    match check(alloc, program, functions) {
        Ok(checked) => Ok(checked),
        Err(_) => Err(Fail::new("refused")),
    }
}

/// An engine of a network that was checked with the same functions.
pub(crate) fn running<F: Holds + Drop>(
    alloc: Global,
    checked: Checked,
    functions: F,
) -> Result<Engine<F>, Fail> {
    match Engine::new(alloc, checked, functions, Mode::Plain) {
        Ok(engine) => Ok(engine),
        Err(_) => Err(Fail::new("no memory")),
    }
}

/// The time of a sample, and its number, if its value is one.
pub(crate) type Told = (u64, Option<i64>);

/// What a sample tells.
pub(crate) fn told(sample: &Sample) -> Told {
    match sample.value.form() {
        Form::Int(number) => (sample.time, Some(*number)),
        _ => (sample.time, None),
    }
}
