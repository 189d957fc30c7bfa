//! Engines that return to what they kept, that run a list of steps, and that have an actuator: each call once.
ghost use Rattle.std.specs.Prelude.{◌≡◌, ◌↔◌, IsTrue};
ghost use Rattle.sf_value.specs.Values.{number};

use crate::networks::{AREA, DELAY, Told, checked, running, told};
use sf_check::Checked;
use sf_engine::{Actuator, Embedded, Engine, EngineError, React, Sample};
use sf_func::{Holds, Registry};
use sf_value::{Form, Value};
use std::alloc::Global;
use std::test::Fail;

/// What an engine gives 5 behind a save at 10, what it gives 7 behind it after a return, and again 5 behind it.
fn returns<F: Holds>(engine: &mut Engine<F>) -> Result<(Told, Told, Told), Fail> {
    engine.start(Value::int(1))?;
    engine.step(10, Some(Value::int(2)))?;
    engine.save("a")?;
    let first = told(&engine.step(5, Some(Value::int(3)))?);
    engine.back("a")?;
    let second = told(&engine.step(7, None)?);
    engine.back("a")?;
    let third = told(&engine.step(5, None)?);
    Ok((first, second, third))
}

/// The same of an engine of a network.
fn returned<F: Holds + Drop>(
    alloc: Global,
    checked: Checked,
    functions: F,
) -> Result<(Told, Told, Told), Fail> {
    let mut engine = running(alloc, checked, functions)?;
    returns(&mut engine)
}

#[test]
fn an_engine_returns_to_what_it_kept(rt: HostRuntime) -> Result<(), Fail> {
    let alloc = rt.alloc();
    let functions = Registry::new(alloc);
    let network = checked(alloc, AREA, &functions)?;
    let (first, second, third) = returned(alloc, network, functions)?;
    assert_eq!(rt;
        (first, second, third),
        ((15, Some(20)), (17, Some(24)), (15, Some(20)))
    );
    Ok(())
}

/// What an engine gives on a start with 1, a step of 16 to 2, one of 0, which is refused, and another one.
fn embeds<F: Holds>(alloc: Global, engine: &mut Engine<F>) -> Result<Embedded, Fail> {
    let mut steps = Vec::new(alloc);
    steps.push((16, Some(Value::int(2))))?;
    steps.push((0, None))?;
    steps.push((16, None))?;
    Ok(engine.embed(Value::int(1), steps)?)
}

/// The same of an engine of a network.
fn embedded<F: Holds + Drop>(
    alloc: Global,
    checked: Checked,
    functions: F,
) -> Result<Embedded, Fail> {
    let mut engine = running(alloc, checked, functions)?;
    embeds(alloc, &mut engine)
}

#[test]
fn a_list_of_steps_ends_at_the_first_error(rt: HostRuntime) -> Result<(), Fail> {
    let alloc = rt.alloc();
    let functions = Registry::new(alloc);
    let network = checked(alloc, DELAY, &functions)?;
    let run = embedded(alloc, network, functions)?;
    assert_eq!(rt; run.ended, Some(EngineError::BadStep));
    assert_eq!(rt; run.samples.len(), 2);
    for (sample, (time, number)) in run.samples.iter().zip([(0, 7), (16, 1)]) {
        assert_eq!(rt; told(sample), (time, Some(number)));
    }
    Ok(())
}

/// The end at a number.
#[derive(Drop)]
struct EndsAt {
    number: i64,
}

impl Actuator for EndsAt {
    ghost acts = { λ a s answer b. (IsTrue answer ↔ (s.value ≡ number a.number)) × (b ≡ a) };

    fn act(&mut self, sample: &Sample) -> bool {
        match sample.value.form() {
            Form::Int(n) => *n == self.number,
            _ => false,
        }
    }
}

/// What an engine with an actuator answers to a step before its start, to a start with 1, and to steps to 2 and 3.
fn reacts<F: Holds, A: Actuator>(
    react: &mut React<F, A>,
) -> Result<(Option<EngineError>, bool, bool, bool), Fail> {
    let early = react.react(16, None).err();
    let first = react.react_init(Value::int(1))?;
    let second = react.react(16, Some(Value::int(2)))?;
    let third = react.react(16, Some(Value::int(3)))?;
    Ok((early, first, second, third))
}

/// The same of an engine of a network.
fn reacted<F: Holds + Drop, A: Actuator>(
    alloc: Global,
    checked: Checked,
    functions: F,
    actuator: A,
) -> Result<(Option<EngineError>, bool, bool, bool), Fail> {
    let engine = running(alloc, checked, functions)?;
    let mut react = React::new(engine, actuator);
    reacts(&mut react)
}

#[test]
fn an_actuator_ends_a_run(rt: HostRuntime) -> Result<(), Fail> {
    let alloc = rt.alloc();
    let functions = Registry::new(alloc);
    let network = checked(alloc, DELAY, &functions)?;
    let actuator: Box<dyn Actuator> = Box::new(alloc, EndsAt { number: 2 })?;
    let (early, first, second, third) = reacted(alloc, network, functions, actuator)?;
    assert_eq!(rt; early, Some(EngineError::NotStarted));
    assert!(rt; !first && !second && third);
    Ok(())
}
