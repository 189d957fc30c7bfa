//! What states and values share, which no clause speaks of. The test holds whichever allocation fails.
use crate::networks::checked;
use sf_func::Registry;
use sf_law::Plan;
use sf_optimise::plain;
use sf_state::{Live, State};
use sf_step::{Meter, step};
use sf_value::{Fault, Form, Key, Value, same};
use std::alloc::Global;
use std::rc::Rc;
use std::test::Fail;

const DELAYS: &[u8] = b"network 1;\ntemplate main(): Int ~> Int = (iPre 7 >>> iPre 8);\n";

/// The same, of parts that are no primitives.
const PARTS: &[u8] =
    b"network 1;\ntemplate main(): Int ~> Int = ((iPre 7 &&& identity) >>> (arr (x, _) => x >>> iPre 8));\n";

/// A delay until the third sample, when another one takes over.
const SWITCH: &[u8] =
    b"network 1;\ntemplate main(): Int ~> Int = switch((iPre 7 &&& after 2000 ()), _ => iPre 8);\n";

/// The same, where the event stands beside the input of the delay.
const RECURRING: &[u8] =
    b"network 1;\ntemplate main(): Int ~> Int = ((identity &&& after 2000 ()) >>> rSwitch(iPre 7, _ => iPre 8));\n";

/// The same, where what gives the event sees the delay from outside, and the delay is frozen.
const KEEPING: &[u8] =
    b"network 1;\ntemplate main(): Int ~> Int = kSwitch((iPre 7 >>> identity), after 2000 (), kept, _ => iPre 8);\n";

/// Two delays as a member of a collection, whose output is looked up.
const MEMBERS: &[u8] =
    b"network 1;\ntemplate main(): Int ~> Int = (parB add(empty Int, 1, (iPre 7 >>> iPre 8)) >>> arr t => fromEvent(get(t, 1), 0));\n";

/// The same, which gives way to another member in the third sample.
const GIVING_WAY: &[u8] =
    b"network 1;\ntemplate main(): Int ~> Int = (pSwitchB(add(empty Int, 1, (iPre 7 >>> iPre 8)), after 2000 (), kept, _ => parB add(use kept, 2, iPre 8)) >>> arr t => fromEvent(get(t, 1), 0));\n";

/// The same, which is edited in each sample, and goes on.
const EDITED: &[u8] =
    b"network 1;\ntemplate main(): Int ~> Int = ((identity &&& constant event ()) >>> (rpSwitchB(add(empty Int, 1, (iPre 7 >>> iPre 8)), kept, _ => use kept) >>> arr t => fromEvent(get(t, 1), 0)));\n";

/// A delay as a member of a collection, whose table is looked at.
const TABLES: &[u8] =
    b"network 1;\ntemplate main(): Int ~> Table Int = parB add(empty Int, 1, iPre 7);\n";

/// How many owners a state's node has.
fn owners(state: &State) -> usize {
    match state {
        State::Unborn(_) => 0,
        State::Primitive(_) | State::Mapped(_, _) => 1,
        State::Primitives(node) => Rc::strong_count(node),
        State::Live(_, node) => Rc::strong_count(node),
        State::Switch(_, node) => Rc::strong_count(node),
        State::Continuation(_, node) => Rc::strong_count(node),
        State::Gathering(_, node) => Rc::strong_count(node),
        State::Frozen(node) => Rc::strong_count(node),
    }
}

/// How many owners the node of a switch's source has, if it keeps that; else one.
fn source_owners(state: &State) -> usize {
    match state {
        State::Continuation(_, node) => owners(&node.source),
        _ => 1,
    }
}

/// What a state gives at its next sample, 1,000 milliseconds after the one before, where the input is 5.
fn given(
    alloc: Global,
    state: &mut State,
    plan: &Plan,
    functions: &Registry,
) -> Result<Value, Fault> {
    let mut meter = Meter::new(alloc);
    let (value, _) = step(
        alloc,
        state,
        plan,
        functions,
        1000,
        Value::int(5),
        &mut meter,
    )?;
    Ok(value)
}

/// What a network gives at its second sample, and again where it goes on from the first, at which it was shared.
#[derive(Drop)]
struct Again {
    running: Result<Value, Fault>,
    resumed: Result<Value, Fault>,
    /// The owners of its source's node, and of the shared node before and after the second sample.
    owners: (usize, usize, usize),
}

/// What a state before its first sample gives and then gives again.
fn gives_again(
    alloc: Global,
    state: &mut State,
    plan: &Plan,
    functions: &Registry,
) -> Result<Again, Fail> {
    given(alloc, state, plan, functions)?;
    let source = source_owners(state);
    let mut shared = state.share(alloc)?;
    let before = owners(&shared);
    let running = given(alloc, state, plan, functions);
    if running.is_ok() {
        let _ = given(alloc, state, plan, functions);
    }
    let after = owners(&shared);
    let resumed = given(alloc, &mut shared, plan, functions);
    Ok(Again {
        running,
        resumed,
        owners: (source, before, after),
    })
}

/// The same of a network that calls no function.
fn network_gives_again(alloc: Global, network: &[u8]) -> Result<Again, Fail> {
    let functions = Registry::new(alloc);
    let plan = planned(alloc, network, &functions)?;
    let mut state = State::unborn(plan.main());
    gives_again(alloc, &mut state, &plan, &functions)
}

/// The plan of a network.
fn planned(alloc: Global, network: &[u8], functions: &Registry) -> Result<Plan, Fail> {
    let checked = checked(alloc, network, functions)?;
    Ok(plain(alloc, &checked)?)
}

/// Whether a state that is renewed before each of three samples goes on as the running one.
fn renewed_goes_on(
    alloc: Global,
    renewed: &mut State,
    running: &mut State,
    plan: &Plan,
    functions: &Registry,
) -> Result<bool, Fail> {
    // at the third sample its nodes are its own, and are used again
    for number in [8, 7, 5] {
        if !renewed_gives(alloc, renewed, running, plan, functions, number)? {
            return Ok(false);
        }
    }
    Ok(true)
}

/// Whether a state that was renewed from a running one and this one give the same number at their next samples.
fn renewed_gives(
    alloc: Global,
    renewed: &mut State,
    running: &mut State,
    plan: &Plan,
    functions: &Registry,
    number: i64,
) -> Result<bool, Fail> {
    renewed.renew(alloc, running)?;
    let one = given(alloc, renewed, plan, functions)?;
    let other = given(alloc, running, plan, functions)?;
    Ok(same(&one, &Value::int(number)) && same(&other, &Value::int(number)))
}

/// Whether a sample gave this number, or there was no memory.
fn is_or_refused(sample: &Result<Value, Fault>, number: i64) -> bool {
    match sample {
        Ok(value) => same(value, &Value::int(number)),
        Err(fault) => *fault == Fault::Memory,
    }
}

/// A table of events.
fn table(alloc: Global) -> Result<Value, Fail> {
    let mut rows = Vec::new(alloc);
    rows.push((Key::Int(2), Value::event(alloc, Value::unit())?))?;
    rows.push((Key::Int(1), Value::no_event()))?;
    Ok(Value::table(alloc, rows)?)
}

/// How many owners a table has.
fn table_owners(value: &Value) -> usize {
    match value.form() {
        Form::Table(table) => Rc::strong_count(table),
        _ => 0,
    }
}

/// How many owners the keys of a collection's members have.
fn key_owners(state: &State) -> usize {
    match state {
        State::Live(_, node) => match &**node {
            Live::Gathered(members) => Rc::strong_count(&members.keys),
            _ => 0,
        },
        _ => 0,
    }
}

#[test]
fn tables_of_members_share_their_keys(rt: HostRuntime) -> Result<(), Fail> {
    let alloc = rt.alloc();
    let functions = Registry::new(alloc);
    let plan = planned(alloc, TABLES, &functions)?;
    let mut state = State::unborn(plan.main());
    let _first = given(alloc, &mut state, &plan, &functions)?;
    assert_eq!(rt; key_owners(&state), 2);
    let _second = given(alloc, &mut state, &plan, &functions)?;
    assert_eq!(rt; key_owners(&state), 3);
    Ok(())
}

#[test]
fn a_renewed_state_goes_on_by_itself(rt: HostRuntime) -> Result<(), Fail> {
    let alloc = rt.alloc();
    let functions = Registry::new(alloc);
    for network in [DELAYS, PARTS] {
        let plan = planned(alloc, network, &functions)?;
        let mut running = State::unborn(plan.main());
        let mut renewed = State::unborn(plan.main());
        assert!(rt; renewed_goes_on(alloc, &mut renewed, &mut running, &plan, &functions)?);
    }
    Ok(())
}

#[test]
fn a_shared_state_and_a_copy_share(rt: HostRuntime) -> Result<(), Fail> {
    let alloc = rt.alloc();
    // Two delays, among other parts and as members too, give 8, 7, 5, the others 7, 5, 8. A step that is refused for want of memory leaves the shared state as it
    // was. After a sample without an event a source that was held back has nodes of its own.
    for (network, second) in [
        (DELAYS, 7),
        (PARTS, 7),
        (SWITCH, 5),
        (RECURRING, 5),
        (KEEPING, 5),
        (MEMBERS, 7),
        (GIVING_WAY, 7),
        (EDITED, 7),
    ] {
        let again = network_gives_again(alloc, network)?;
        assert!(rt; is_or_refused(&again.running, second) && is_or_refused(&again.resumed, second));
        assert!(rt; again.running.is_ok() || again.resumed.is_ok());
        assert!(rt; again.running.is_err() || again.owners == (1, 2, 1));
    }
    let table = table(alloc)?;
    let copy = table.clone_in(alloc)?;
    assert_eq!(rt; (table_owners(&table), table_owners(&copy)), (2, 2));
    Ok(())
}
