//! What a meter shows of a sample without a value: all that the sample entered. A contract says only that it shows no more.
use crate::networks::checked;
use sf_func::Registry;
use sf_optimise::plain;
use sf_state::State;
use sf_step::{Meter, step};
use sf_value::{Fault, Value, ValueFault};
use std::alloc::Global;
use std::test::Fail;

/// A function with a fault at 0, with a part before it and one behind it.
const DIVISION: &[u8] =
    b"network 1;\ntemplate main(): Int ~> Int = ((identity >>> arr x => (1 div x)) >>> identity);\n";

/// A constant with a fault, behind its part.
const FOLLOWED: &[u8] = b"network 1;\ntemplate main(): Int ~> Int = fby((1 div 0), identity);\n";

/// A function with a fault at the first input 0, before its part.
const TRANSFORMED: &[u8] =
    b"network 1;\ntemplate main(): Int ~> Int = >=-(x => (1 div x), identity);\n";

/// Its switch fires at each first sample, and its body calls it again. Each turn enters five nodes, the call of the next one
/// among them, and stands inside two nodes more.
const ENDLESS: &[u8] =
    b"network 1;\ntemplate main(): Int ~> Int = switch((identity &&& constant event 0), _ => main());\n";

/// Why the first sample of a network has no value for 0, and how many nodes it entered, in all and one inside another.
fn counted(alloc: Global, network: &[u8]) -> Result<(Option<Fault>, u64, u64), Fail> {
    let functions = Registry::new(alloc);
    let plan = plain(alloc, &checked(alloc, network, &functions)?)?;
    let mut state = State::unborn(plan.main());
    let mut meter = Meter::new(alloc);
    let zero = Value::int(0);
    let answer = step(alloc, &mut state, &plan, &functions, 0, zero, &mut meter);
    Ok((answer.err(), meter.entered(), meter.height()))
}

#[test]
fn a_meter_shows_what_was_entered_before_a_fault(rt: HostRuntime) -> Result<(), Fail> {
    let alloc = rt.alloc();
    let division = Fault::Value(ValueFault::DivideByZero);
    assert_eq!(rt; counted(alloc, DIVISION)?, (Some(division), 4, 3));
    assert_eq!(rt; counted(alloc, FOLLOWED)?, (Some(division), 2, 2));
    assert_eq!(rt; counted(alloc, TRANSFORMED)?, (Some(division), 1, 1));
    // 799 whole turns, and two nodes of the last one
    assert_eq!(rt;
        counted(alloc, ENDLESS)?,
        (Some(Fault::Large), 799 * 5 + 2, 1600)
    );
    Ok(())
}
