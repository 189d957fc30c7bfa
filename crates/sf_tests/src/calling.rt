//! Networks that call functions of types that the program hasn't.
ghost use Rattle.std.specs.Prelude.{◌≡◌, Some, None, cond};
ghost use Rattle.std.specs.Int.Signed.{lt_z};
ghost use Rattle.sf_tests.specs.Texts.{is_empty_text, unless_empty};

use crate::playing::played;
use sf_func::{Function, FunctionFault, Int1, OnNumber, Registry};
use sf_player::PlayEnd;
use sf_value::{Form, Ty, Value};
use std::alloc::Global;
use std::test::Fail;

const OF_TEXTS: &[u8] = b"network 1;\ntemplate main(): Text ~> Text = arr t => call filled(t);\n";

const OF_NUMBERS: &[u8] = b"network 1;\ntemplate main(): Int ~> Int = arr x => call below(x);\n";

/// Numbers below a bound, by themselves.
#[derive(Drop)]
struct Below {
    bound: i64,
}

impl OnNumber for Below {
    ghost answer = { λ b n. cond (lt_z n b.bound) (Some n) None };

    fn answer(&self, n: i64) -> Option<i64> {
        if n < self.bound { Some(n) } else { None }
    }
}

/// Texts by themselves, but for that without characters, which it refuses.
#[derive(Drop)]
struct Filled;

impl Function for Filled {
    ghost answers = { λ _ d. unless_empty d };

    fn apply(&self, alloc: Global, value: &Value) -> Result<Value, FunctionFault> {
        if is_empty_text(value) {
            return Err(FunctionFault::Refused);
        }
        match value.clone_in(alloc) {
            Ok(copy) => Ok(copy),
            Err(_) => Err(FunctionFault::Memory),
        }
    }
}

/// Whether a value is the text without characters.
fn is_empty_text(value: &Value) -> bool
    ensures { result ≡ is_empty_text value.now }
{
    match value.form() {
        Form::Text(text) => text.is_empty(),
        _ => false,
    }
}

#[test]
fn a_network_calls_a_function_of_texts(rt: HostRuntime) -> Result<(), Fail> {
    let alloc = rt.alloc();
    let mut functions = Registry::new(alloc);
    let filled: Box<dyn Function> = Box::new(alloc, Filled)?;
    assert!(rt;
        functions
            .add(alloc, "filled", Ty::text(), Ty::text(), filled)
            .is_ok()
    );
    let run = played(alloc, OF_TEXTS, functions, b"0 \"a\"\n16 \"\"\n");
    assert_eq!(rt; run.end, PlayEnd::Fault);
    assert_eq!(rt;
        run.text.as_slice(),
        b"> 0 \"a\"\n! 16 Function\n".as_slice()
    );
    Ok(())
}

#[test]
fn a_network_calls_a_function_with_a_bound(rt: HostRuntime) -> Result<(), Fail> {
    let alloc = rt.alloc();
    let mut functions = Registry::new(alloc);
    let below: Box<dyn Function> = Box::new(alloc, Int1::new(Below { bound: 10 }))?;
    assert!(rt;
        functions
            .add(alloc, "below", Ty::int(), Ty::int(), below)
            .is_ok()
    );
    let run = played(alloc, OF_NUMBERS, functions, b"0 9\n16 10\n");
    assert_eq!(rt; run.end, PlayEnd::Fault);
    assert_eq!(rt; run.text.as_slice(), b"> 0 9\n! 16 Function\n".as_slice());
    Ok(())
}
