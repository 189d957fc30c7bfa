//! Stored functions that give no value, called by a process that goes on where it was frozen: the engine has their fault, and stops.
ghost use Rattle.std.specs.Prelude.{Some, None, cond, pos};
ghost use Rattle.std.specs.Int.Signed.{lt_z};

use crate::networks::{Told, checked, running, told};
use sf_check::Checked;
use sf_engine::{Engine, EngineError};
use sf_func::{Function, FunctionFault, Holds, OnNumber, Registry};
use sf_value::{Fault, Form, Ty, Value, ValueFault};
use std::alloc::Global;
use std::test::Fail;

/// At an output above 3 the process is frozen, and goes on.
const RESUMED: &[u8] =
    b"network 1;\ntemplate main(): Int ~> Int = kSwitch(arr x => call limited(x), arr (_, y) => gate(event (), (y > 3)), k, _ => run k);\n";

/// Numbers below 10 by themselves; others are refused.
#[derive(Drop)]
struct Refuses;

impl OnNumber for Refuses {
    ghost answer = { λ _ n. cond (lt_z n (pos 10)) (Some n) None };

    fn answer(&self, n: i64) -> Option<i64> {
        if n < 10 { Some(n) } else { None }
    }
}

/// Values by themselves, but numbers from 10 on want more memory than there is.
#[derive(Drop)]
struct Exhausts;

impl Function for Exhausts {
    ghost answers = { λ _ d. Some d };

    fn apply(&self, alloc: Global, value: &Value) -> Result<Value, FunctionFault> {
        if let Form::Int(10..) = value.form() {
            return Err(FunctionFault::Memory);
        }
        match value.clone_in(alloc) {
            Ok(copy) => Ok(copy),
            Err(_) => Err(FunctionFault::Memory),
        }
    }
}

/// What an engine tells at 1, and at 4, where a process is frozen and goes on; and its errors at 10 and behind it.
fn ends<F: Holds>(
    engine: &mut Engine<F>,
) -> Result<(Told, Told, Option<EngineError>, Option<EngineError>), Fail> {
    let first = told(&engine.start(Value::int(1))?);
    let second = told(&engine.step(5, Some(Value::int(4)))?);
    let fault = engine.step(5, Some(Value::int(10))).err();
    let behind = engine.step(5, Some(Value::int(1))).err();
    Ok((first, second, fault, behind))
}

/// The same of an engine of a network.
fn ended<F: Holds + Drop>(
    alloc: Global,
    checked: Checked,
    functions: F,
) -> Result<(Told, Told, Option<EngineError>, Option<EngineError>), Fail> {
    let mut engine = running(alloc, checked, functions)?;
    ends(&mut engine)
}

#[test]
fn a_resumed_process_calls_a_function_that_refuses(rt: HostRuntime) -> Result<(), Fail> {
    let alloc = rt.alloc();
    let mut functions = Registry::new(alloc);
    let refuses: Box<dyn OnNumber> = Box::new(alloc, Refuses)?;
    assert!(rt; functions.add_on_number(alloc, "limited", refuses).is_ok());
    let network = checked(alloc, RESUMED, &functions)?;
    let (first, second, fault, behind) = ended(alloc, network, functions)?;
    assert_eq!(rt; (first, second), ((0, Some(1)), (5, Some(4))));
    let refused = Fault::Value(ValueFault::Function);
    assert_eq!(rt; fault, Some(EngineError::Fault(refused)));
    assert_eq!(rt; behind, Some(EngineError::Stopped(refused)));
    Ok(())
}

#[test]
fn a_resumed_process_calls_a_function_without_memory(rt: HostRuntime) -> Result<(), Fail> {
    let alloc = rt.alloc();
    let mut functions = Registry::new(alloc);
    let exhausts: Box<dyn Function> = Box::new(alloc, Exhausts)?;
    assert!(rt;
        functions
            .add(alloc, "limited", Ty::int(), Ty::int(), exhausts)
            .is_ok()
    );
    let network = checked(alloc, RESUMED, &functions)?;
    let (first, second, fault, behind) = ended(alloc, network, functions)?;
    assert_eq!(rt; (first, second), ((0, Some(1)), (5, Some(4))));
    assert_eq!(rt; fault, Some(EngineError::Fault(Fault::Memory)));
    assert_eq!(rt; behind, Some(EngineError::Stopped(Fault::Memory)));
    Ok(())
}
