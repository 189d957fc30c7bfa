//! Each law of rewriting, where its left side stands alone: how many nodes a sample enters as the network was written, and
//! how many where laws were applied. A contract says only that there are no more.
use crate::networks::checked;
use sf_check::Checked;
use sf_func::Registry;
use sf_law::Plan;
use sf_optimise::{optimise, plain};
use sf_state::State;
use sf_step::{Meter, step};
use sf_value::Value;
use std::alloc::Global;
use std::test::Fail;

/// Networks on numbers.
const ON_NUMBERS: [(&[u8], u64, u64); 8] = [
    (
        b"network 1;\ntemplate main(): Int ~> Int = (identity >>> iPre 7);\n",
        3,
        1,
    ),
    (
        b"network 1;\ntemplate main(): Int ~> Int = (iPre 7 >>> identity);\n",
        3,
        1,
    ),
    (
        b"network 1;\ntemplate main(): Int ~> Int = ((iPre 7 >>> iPre 8) >>> (iPre 9 >>> iPre 10));\n",
        7,
        5,
    ),
    (
        b"network 1;\ntemplate main(): Int ~> Int = (arr x => (x + 1) >>> arr x => (x * 2));\n",
        3,
        1,
    ),
    (
        b"network 1;\ntemplate main(): Int ~> (Int, Int) = (arr x => (x + 1) &&& arr x => (x * 2));\n",
        3,
        1,
    ),
    (
        b"network 1;\ntemplate main(): Int ~> Int = (iPre 7 >>> constant 5);\n",
        3,
        1,
    ),
    // a part that may fail stays before a constant, and two functions that aren't neighbours stay apart
    (
        b"network 1;\ntemplate main(): Int ~> Int = (arr x => (1 div x) >>> constant 5);\n",
        3,
        3,
    ),
    (
        b"network 1;\ntemplate main(): Int ~> Int = ((arr x => (x + 1) >>> iPre 7) >>> arr x => (x * 2));\n",
        5,
        4,
    ),
];

/// Networks on pairs of numbers.
const ON_PAIRS: [(&[u8], u64, u64); 9] = [
    (
        b"network 1;\ntemplate main(): (Int, Int) ~> (Int, Int) = first arr x => (x + 1);\n",
        2,
        1,
    ),
    (
        b"network 1;\ntemplate main(): (Int, Int) ~> (Int, Int) = second arr x => (x + 1);\n",
        2,
        1,
    ),
    (
        b"network 1;\ntemplate main(): (Int, Int) ~> (Int, Int) = (arr x => (x + 1) *** arr x => (x * 2));\n",
        3,
        1,
    ),
    (
        b"network 1;\ntemplate main(): (Int, Int) ~> (Int, Int) = (first iPre 7 >>> first iPre 8);\n",
        5,
        4,
    ),
    (
        b"network 1;\ntemplate main(): (Int, Int) ~> (Int, Int) = (second iPre 7 >>> second iPre 8);\n",
        5,
        4,
    ),
    (
        b"network 1;\ntemplate main(): (Int, Int) ~> (Int, Int) = (first iPre 7 >>> second iPre 8);\n",
        5,
        5,
    ),
    (
        b"network 1;\ntemplate main(): (Int, Int) ~> (Int, Int) = ((identity *** iPre 7) >>> (iPre 8 *** identity));\n",
        7,
        3,
    ),
    (
        b"network 1;\ntemplate main(): (Int, Int) ~> Int = arr (x, y) => (x + y);\n",
        1,
        1,
    ),
    // neither of the two that would change places is quiet
    (
        b"network 1;\ntemplate main(): (Int, Int) ~> (Int, Int) = ((identity *** integral) >>> (integral *** identity));\n",
        7,
        7,
    ),
];

/// Loops on numbers.
const LOOPS: [(&[u8], u64, u64); 3] = [
    (
        b"network 1;\ntemplate main(): Int ~> Int = loopPre(0, (first iPre 7 >>> arr (x, s) => (x, (x + s))));\n",
        5,
        4,
    ),
    (
        b"network 1;\ntemplate main(): Int ~> Int = loopPre(0, (arr (x, s) => (x, (x + s)) >>> first iPre 7));\n",
        5,
        4,
    ),
    // neither the constant nor the part is quiet
    (
        b"network 1;\ntemplate main(): Int ~> Int = loopPre((1 div 1), (first integral >>> arr (x, s) => (x, (x + s))));\n",
        5,
        5,
    ),
];

/// How many nodes the first sample of a plan enters.
fn entered(alloc: Global, plan: &Plan, functions: &Registry, input: Value) -> Result<u64, Fail> {
    let mut meter = Meter::new(alloc);
    let mut state = State::unborn(plan.main());
    step(alloc, &mut state, plan, functions, 0, input, &mut meter)?;
    Ok(meter.entered())
}

/// How many nodes of a network are entered as it was written, and where laws were applied.
fn both(alloc: Global, network: &[u8], pair: bool) -> Result<(u64, u64), Fail> {
    let functions = Registry::new(alloc);
    let checked: Checked = checked(alloc, network, &functions)?;
    let written = plain(alloc, &checked)?;
    let rewritten = optimise(alloc, &checked)?;
    let before = entered(alloc, &written, &functions, given(alloc, pair)?)?;
    let after = entered(alloc, &rewritten, &functions, given(alloc, pair)?)?;
    Ok((before, after))
}

/// An input.
fn given(alloc: Global, pair: bool) -> Result<Value, Fail> {
    if pair {
        return Ok(Value::pair(alloc, Value::int(3), Value::int(4))?);
    }
    Ok(Value::int(3))
}

#[test]
fn laws_are_applied(rt: HostRuntime) -> Result<(), Fail> {
    let alloc = rt.alloc();
    for (network, before, after) in ON_NUMBERS {
        assert_eq!(rt; both(alloc, network, false)?, (before, after));
    }
    for (network, before, after) in ON_PAIRS {
        assert_eq!(rt; both(alloc, network, true)?, (before, after));
    }
    for (network, before, after) in LOOPS {
        assert_eq!(rt; both(alloc, network, false)?, (before, after));
    }
    Ok(())
}
