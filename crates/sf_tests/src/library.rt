//! Library calls that the program doesn't make, each once: their contracts let them answer want of memory.
use crate::networks::{DELAY, Told, running, told};
use sf_check::{Checked, check};
use sf_engine::{Engine, EngineError};
use sf_func::{Holds, Registry};
use sf_text::read_network;
use sf_value::Value;
use std::alloc::Global;
use std::test::Fail;

/// The network of a copy of a program.
fn copied(alloc: Global, functions: &Registry) -> Result<Checked, Fail> {
    let program = read_network(alloc, DELAY)?;
    let copy = program.clone_in(alloc)?;
    match check(alloc, copy, functions) {
        Ok(checked) => Ok(checked),
        Err(_) => Err(Fail::new("refused")),
    }
}

/// What an engine answers to a start with a truth, and what its first three samples tell.
fn samples<F: Holds>(
    engine: &mut Engine<F>,
) -> Result<(Option<EngineError>, Told, Told, Told), Fail> {
    let refused = engine.start(Value::bool(true)).err();
    let first = told(&engine.start(Value::int(1))?);
    let second = told(&engine.step(16, Some(Value::int(2)))?);
    let third = told(&engine.step(16, None)?);
    Ok((refused, first, second, third))
}

/// The same of an engine of a network.
fn sampled<F: Holds + Drop>(
    alloc: Global,
    checked: Checked,
    functions: F,
) -> Result<(Option<EngineError>, Told, Told, Told), Fail> {
    let mut engine = running(alloc, checked, functions)?;
    samples(&mut engine)
}

#[test]
fn an_engine_of_a_copy_looks_before_it_steps(rt: HostRuntime) -> Result<(), Fail> {
    let alloc = rt.alloc();
    let functions = Registry::new(alloc);
    let checked = copied(alloc, &functions)?;
    let (refused, first, second, third) = sampled(alloc, checked, functions)?;
    assert_eq!(rt; refused, Some(EngineError::WrongType));
    assert_eq!(rt;
        (first, second, third),
        ((0, Some(7)), (16, Some(1)), (32, Some(2)))
    );
    Ok(())
}
