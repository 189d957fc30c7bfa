//! Expressions as a caller of the library evaluates them, the deepest that a network has among them.
use sf_code::{NamedValue, NamedValues, eval};
use sf_func::Registry;
use sf_operator::{EvalFault, number_in};
use sf_text::read_network;
use sf_value::{Value, ValueFault};
use std::alloc::Global;
use std::test::Fail;

/// Its fault is the second operand's, and its value is that of both names.
const QUOTIENT: &[u8] = b"network 1;\ntemplate main(): Int ~> Int = constant (x + (100 div y));\n";

/// A network whose expression stands 63 deep, inside a term.
fn deepest(alloc: Global) -> Result<Vec<u8>, Fail> {
    let mut text = Vec::new(alloc);
    text.extend_from_slice(b"network 1;\ntemplate main(): Int ~> Int = constant ")?;
    for _ in 0..62 {
        text.push(b'(')?;
    }
    text.push(b'x')?;
    for _ in 0..62 {
        text.extend_from_slice(b" + 1)")?;
    }
    text.extend_from_slice(b";\n")?;
    Ok(text)
}

/// Each name with its number.
fn named(alloc: Global, numbers: &[(&str, i64)]) -> Result<Vec<NamedValue>, Fail> {
    let mut names = Vec::new(alloc);
    for (name, number) in numbers {
        let name = String::from_str(alloc, *name)?;
        let value = Value::int(*number);
        names.push(NamedValue { name, value })?;
    }
    Ok(names)
}

/// The number that the last expression of a network is worth where names are numbers, or its fault.
fn worth(
    alloc: Global,
    network: &[u8],
    numbers: &[(&str, i64)],
) -> Result<(Option<i64>, Option<EvalFault>), Fail> {
    let program = read_network(alloc, network)?;
    let exprs = program.expressions();
    let count = exprs.len();
    if count == 0 {
        return Err(Fail::new("no expression"));
    }
    let values = named(alloc, numbers)?;
    let names = NamedValues {
        expressions: exprs,
        values: values.as_slice(),
    };
    let functions = Registry::new(alloc);
    match eval(alloc, exprs.at(count - 1), &names, &functions) {
        Ok(value) => Ok((number_in(&value), None)),
        Err(fault) => Ok((None, Some(fault))),
    }
}

#[test]
fn an_expression_is_worth_what_its_names_make_of_it(rt: HostRuntime) -> Result<(), Fail> {
    let alloc = rt.alloc();
    // of the same names the first counts
    let numbers: &[(&str, i64)] = &[("x", 5), ("y", -30), ("x", 6)];
    assert_eq!(rt; worth(alloc, QUOTIENT, numbers)?, (Some(1), None));
    let division = EvalFault::Value(ValueFault::DivideByZero);
    let numbers: &[(&str, i64)] = &[("x", 5), ("y", 0)];
    assert_eq!(rt; worth(alloc, QUOTIENT, numbers)?, (None, Some(division)));
    Ok(())
}

#[test]
fn the_deepest_expression_is_evaluated(rt: HostRuntime) -> Result<(), Fail> {
    let alloc = rt.alloc();
    let network = deepest(alloc)?;
    let numbers: &[(&str, i64)] = &[("x", 1)];
    assert_eq!(rt;
        worth(alloc, network.as_slice(), numbers)?,
        (Some(63), None)
    );
    Ok(())
}
