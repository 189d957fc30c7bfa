//! What is said to differ where a network is refused for its types.
use sf_check::{Difference, Refusal, Rule, Spot, Wanted, check, difference};
use sf_func::Registry;
use sf_text::read_network;
use sf_value::{Ty, same_type};
use std::alloc::Global;
use std::test::Fail;

/// The input of a stage is of another type than what stands before it gives.
const STAGE: &[u8] = b"network 1;\ntemplate main(): Int ~> Int = (constant true >>> integral);\n";

/// The second operand of a sum is a truth.
const OPERAND: &[u8] = b"network 1;\ntemplate main(): Int ~> Int = arr x => (x + true);\n";

/// The condition of a choice is a number.
const CHOICE: &[u8] = b"network 1;\ntemplate main(): Int ~> Int = arr x => if x then 1 else 2;\n";

/// What is watched gives no event beside its value.
const WATCHED: &[u8] =
    b"network 1;\ntemplate main(): Int ~> Int = switch(integral, x => identity);\n";

/// The network gives a number, and its header a truth.
const OUTPUT: &[u8] = b"network 1;\ntemplate main(): Int ~> Bool = identity;\n";

/// An argument is a truth, and its parameter a number.
const ARGUMENT: &[u8] =
    b"network 1;\ntemplate a(n: Int): Int ~> Int = constant n;\ntemplate main(): Int ~> Int = a(true);\n";

/// A process gives truths, and the one of its parameter numbers.
const PROCESS: &[u8] =
    b"network 1;\ntemplate a(f: Int ~> Int): Int ~> Int = run f;\ntemplate main(): Int ~> Int = a(sf arr x => (x < 1));\n";

/// A member gives truths, and those that it stands with numbers.
const MEMBER: &[u8] =
    b"network 1;\ntemplate main(): Int ~> Table Int = parB add(empty Int, 1, arr x => (x < 1));\n";

/// A process stands for a value.
const OTHER_SORT: &[u8] =
    b"network 1;\ntemplate a(n: Int): Int ~> Int = constant n;\ntemplate main(): Int ~> Int = a(sf identity);\n";

/// The name stands for nothing.
const UNKNOWN: &[u8] = b"network 1;\ntemplate main(): Int ~> Int = run k;\n";

/// What is accepted.
const ACCEPTED: &[u8] = b"network 1;\ntemplate main(): Int ~> Int = integral;\n";

/// What differs in a network; it is refused at that very place.
fn told(alloc: Global, network: &[u8]) -> Result<Difference, Fail> {
    let functions = Registry::new(alloc);
    let program = read_network(alloc, network)?;
    let Some(told) = difference(alloc, &program, &functions)? else {
        return Err(Fail::new("nothing is said"));
    };
    let due = Refusal::broken(Rule::Mismatch, told.spot);
    match check(alloc, program, &functions) {
        Err((refusal, _)) if refusal == due => Ok(told),
        Err(_) => Err(Fail::new("refused in another place")),
        Ok(_) => Err(Fail::new("accepted")),
    }
}

/// One type alone is wanted.
fn wants_exactly(told: &Difference, ty: &Ty) -> bool {
    match &told.wanted {
        Wanted::Exactly(wanted) => same_type(wanted, ty),
        _ => false,
    }
}

#[test]
fn a_difference_says_what_was_found_and_what_is_wanted(rt: HostRuntime) -> Result<(), Fail> {
    let alloc = rt.alloc();
    for network in [STAGE, OPERAND, ARGUMENT, PROCESS, MEMBER] {
        let told = told(alloc, network)?;
        assert!(rt; same_type(&told.found, &Ty::bool()));
        assert!(rt; wants_exactly(&told, &Ty::int()));
    }
    for network in [CHOICE, OUTPUT] {
        let told = told(alloc, network)?;
        assert!(rt; same_type(&told.found, &Ty::int()));
        assert!(rt; wants_exactly(&told, &Ty::bool()));
    }
    let told = told(alloc, WATCHED)?;
    assert!(rt; same_type(&told.found, &Ty::int()));
    assert!(rt; matches!(told.wanted, Wanted::EventBeside));
    Ok(())
}

#[test]
fn a_difference_stands_where_the_form_does(rt: HostRuntime) -> Result<(), Fail> {
    let alloc = rt.alloc();
    for (network, line, column) in [(OUTPUT, 2, 32), (ARGUMENT, 3, 31)] {
        let told = told(alloc, network)?;
        assert_eq!(rt; told.spot, Spot { line, column });
    }
    Ok(())
}

#[test]
fn nothing_differs_where_another_rule_is_broken_or_none(rt: HostRuntime) -> Result<(), Fail> {
    let alloc = rt.alloc();
    let functions = Registry::new(alloc);
    for network in [UNKNOWN, OTHER_SORT, ACCEPTED] {
        let program = read_network(alloc, network)?;
        assert!(rt; difference(alloc, &program, &functions)?.is_none());
    }
    Ok(())
}
