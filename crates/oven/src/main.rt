//! An oven that a network controls: the network calls a function of this program, and a relay acts on what it gives.
#![tactic(auto)]

ghost use Rattle.std.specs.Prelude.{◌≡◌, ◌↔◌, IsTrue};
ghost use Rattle.oven.specs.Sensor.{within_range};

use anyhow::Error;
use gezmulda::{
    Actuator, Checked, Engine, Form, Holds, Mode, OnNumber, React, Registry, Sample, Value, check,
    read_network,
};
use std::alloc::{AllocError, Global};

/// The heater is on below 195 degrees, and then until 205.
const OVEN: &[u8] =
    b"network 1;\ntemplate main(): Int ~> Bool = (arr raw => call degrees(raw) >>> loopPre(false, arr (t, on) => let next = if on then (t < 205) else (t < 195) in (next, next)));\n";

/// What the sensor says, where it is 0 to 1023.
#[derive(Drop)]
struct Degrees;

impl OnNumber for Degrees {
    ghost answer = { λ _ n. within_range n };

    fn answer(&self, n: i64) -> Option<i64> {
        if n < 0 || n > 1023 { None } else { Some(n) }
    }
}

/// Whether the heater is on.
fn is_on(sample: &Sample) -> bool {
    matches!(sample.value.form(), Form::Bool(true))
}

/// Counts the samples with the heater on, and ends once they are as many as it was to wait for.
#[derive(Drop)]
struct Relay {
    left: u64,
}

impl Actuator for Relay {
    ghost acts = { λ old s answer new. IsTrue answer ↔ (new.left ≡ 0) };

    fn act(&mut self, sample: &Sample) -> bool {
        if is_on(sample) {
            self.left = self.left.saturating_sub(1);
        }
        self.left == 0
    }
}

/// Heats up: the samples of a list of readings, one a second.
fn heat<R: Print + Alloc<A = Global>, F: Holds>(rt: &R, oven: &mut Engine<F>) -> Result<(), Error> {
    let mut readings = Vec::new(rt.alloc());
    readings.push((1000, Some(Value::int(199))))?;
    readings.push((1000, Some(Value::int(206))))?;
    let heated = oven.embed(Value::int(180), readings)?;
    for sample in &heated.samples {
        println!(rt; "{} {}", sample.time, is_on(sample))?;
    }
    match heated.ended {
        Some(error) => Err(error.into()),
        None => Ok(()),
    }
}

/// Looks at what a second with the door open would do: the oven goes there, and back. Where nothing can be kept to go back to, it
/// stays where it is.
fn look<R: Print, F: Holds>(rt: &R, oven: &mut Engine<F>) -> Result<(), Error> {
    if oven.save("closed").is_err() {
        println!(rt; "if the door were open: unknown")?;
        return Ok(());
    }
    let sample = oven.step(1000, Some(Value::int(150)))?;
    println!(rt; "if the door were open: {}", is_on(&sample))?;
    oven.back("closed")?;
    Ok(())
}

/// Bakes: the relay acts on each sample.
fn bake<R: Print, F: Holds, A: Actuator>(rt: &R, oven: &mut React<F, A>) -> Result<(), Error> {
    for raw in [198, 190, 199] {
        let ended = oven.react(1000, Some(Value::int(raw)))?;
        println!(rt; "{ended}")?;
    }
    Ok(())
}

/// Runs a network that was checked. It takes the functions as any type that holds some.
fn run<R: Print + Alloc<A = Global>, F: Holds + Drop, A: Actuator>(
    rt: &R,
    checked: Checked,
    functions: F,
    actuator: A,
) -> Result<(), Error> {
    let Ok(mut oven) = Engine::new(rt.alloc(), checked, functions, Mode::Optimised) else {
        return Err(AllocError.into());
    };
    heat(rt, &mut oven)?;
    look(rt, &mut oven)?;
    bake(rt, &mut React::new(oven, actuator))
}

fn main(rt: HostRuntime) -> Result<(), Error> {
    let alloc = rt.alloc();
    let mut functions = Registry::new(alloc);
    let degrees: Box<dyn OnNumber> = Box::new(alloc, Degrees)?;
    if let Err((refusal, _)) = functions.add_on_number(alloc, "degrees", degrees) {
        return Err(refusal.into());
    }
    let program = read_network(alloc, OVEN)?;
    let checked = match check(alloc, program, &functions) {
        Ok(checked) => checked,
        Err((refusal, _)) => return Err(refusal.into()),
    };
    run(&rt, checked, functions, Relay { left: 2 })
}
