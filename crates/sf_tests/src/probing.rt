//! What probes record, as a caller of the library takes it: each call once.
use crate::networks::{checked, running};
use sf_check::Checked;
use sf_engine::Engine;
use sf_func::{Holds, Registry};
use sf_probe::{Latest, Reading, Readings, Watch};
use sf_value::{Value, same};
use std::alloc::Global;
use std::test::Fail;

/// A speed and the place that it leads to.
const PLACE: &[u8] =
    b"network 1;\ntemplate main(): Int ~> Int = (probe speed >>> (integral >>> probe place));\n";

/// What was last read at a start with 1 and a step of 10 to 2, and what was read at the step.
fn readings<F: Holds>(alloc: Global, engine: &mut Engine<F>) -> Result<(Latest, Readings), Fail> {
    let mut latest = Latest::new(alloc);
    latest.note(&engine.start(Value::int(1))?.readings)?;
    let second = engine.step(10, Some(Value::int(2)))?;
    latest.note(&second.readings)?;
    Ok((latest, second.readings))
}

/// The same of an engine of a network.
fn read<F: Holds + Drop>(
    alloc: Global,
    checked: Checked,
    functions: F,
) -> Result<(Latest, Readings), Fail> {
    let mut engine = running(alloc, checked, functions)?;
    readings(alloc, &mut engine)
}

fn is_last(latest: &Latest, name: &str, number: i64) -> bool {
    match latest.latest(name) {
        Some(value) => same(value, &Value::int(number)),
        None => false,
    }
}

fn is_reading(reading: Option<&Reading>, name: &str, number: i64) -> bool {
    match reading {
        Some(found) => found.name() == name && same(found.value(), &Value::int(number)),
        None => false,
    }
}

#[test]
fn the_last_readings_are_kept(rt: HostRuntime) -> Result<(), Fail> {
    let alloc = rt.alloc();
    let functions = Registry::new(alloc);
    let network = checked(alloc, PLACE, &functions)?;
    let (latest, readings) = read(alloc, network, functions)?;
    assert!(rt; is_last(&latest, "speed", 2));
    assert!(rt; is_last(&latest, "place", 10));
    assert!(rt; latest.latest("none").is_none());
    assert_eq!(rt;
        (latest.len(), latest.name_at(0), latest.name_at(1)),
        (2, Some("speed"), Some("place"))
    );
    assert!(rt; is_reading(readings.as_slice().first(), "speed", 2));
    assert!(rt; is_reading(readings.as_slice().last(), "place", 10));
    assert!(rt; readings.len() == 2 && !readings.is_empty());
    Ok(())
}

#[test]
fn a_watch_wants_its_names(rt: HostRuntime) -> Result<(), Fail> {
    let alloc = rt.alloc();
    let mut names = Vec::new(alloc);
    names.push(String::from_str(alloc, "place")?)?;
    let some = Watch::only(names);
    assert!(rt; some.wants("place") && !some.wants("plac"));
    assert!(rt; Watch::all().wants("plac"));
    Ok(())
}
