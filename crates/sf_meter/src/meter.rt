//! Counts of nodes, and what probes record.
ghost use Rattle.std.specs.Prelude.{◌≡◌, ◌≤◌, ◌++◌, OnOk, length, slice_range, map};
ghost use Rattle.sf_probe.specs.Readings.{reading_of, probe_readings};

use sf_probe::{Reading, Readings};
use sf_value::{Fault, Value};
use std::alloc::{AllocError, Global};
use std::mem;
use std::rc::Rc;

// how many nodes a sample may enter
const MOST_NODES: u64 = 1_000_000;

// how many of them one inside another
const MOST_HEIGHT: u64 = 1600;

/// The sample has no value; its meter has the fault. It takes no room, so that a step answers in a register.
#[derive(Clone, Copy, Debug, PartialEq, Eq)]
pub struct Stop;

/// Counts the nodes that one sample enters, and keeps what its probes record and its fault.
pub struct Meter {
    entered: u64,
    height: u64,
    fault: Fault,
    readings: Readings,
    ghost few: { entered ≤ 1000000 },
    ghost low: { height ≤ 1600 },
}

/// Where the meter of a sample stood.
#[derive(Clone, Copy)]
pub struct Mark {
    /// How many nodes the sample had entered.
    pub entered: u64,
    /// How many readings there were.
    pub recorded: usize,
}

/// What the meter of a sample counted and recorded between two of its parts.
#[derive(Clone, Copy)]
pub struct Spent {
    /// How many nodes.
    pub entered: u64,
    /// The readings from this one on.
    pub first: usize,
    /// As far as this one, which is none of them.
    pub behind: usize,
}

impl Drop for Meter {
    fn drop(self) {
        let Meter {
            entered: _,
            height: _,
            fault: _,
            readings,
        } = self;
        drop(readings);
    }
}

impl Meter {
    ghost use Rattle.std.specs.Prelude.{◌≡◌, ◌<◌, ◌++◌, [], ◌∷◌, IfOk, OnOk, string_bytes};
    ghost use Rattle.sf_probe.specs.Readings.{probe_readings};
    ghost use Rattle.sf_meter.specs.Meters.{entered_of, meter_height, meter_fault, Ticked, CountsAgain, IsSince, kept, left_or};
    ghost use Rattle.sf_meter.specs.Meters;

    /// A meter at zero, without readings. It takes no memory.
    #[tactic(auto, unfolding(crate::specs::Meters::readings))]
    pub fn new(alloc: Global) -> Meter
        ensures entered { entered_of result ≡ 0 }
        ensures height { meter_height result ≡ 0 }
        ensures readings { Meters.readings result ≡ [] }
    {
        Meter {
            entered: 0,
            height: 0,
            fault: Fault::Memory,
            readings: Readings::new(alloc),
        }
    }

    /// It is at zero again, without readings.
    #[tactic(auto, unfolding(crate::specs::Meters::readings))]
    #[inline(always)]
    pub fn reset(&mut self, alloc: Global)
        ensures entered { entered_of self.new ≡ 0 }
        ensures height { meter_height self.new ≡ 0 }
        ensures readings { Meters.readings self.new ≡ [] }
    {
        self.entered = 0;
        self.height = 0;
        if !self.readings.is_empty() {
            self.readings = Readings::new(alloc);
        }
    }

    /// How many nodes the sample entered.
    pub fn entered(&self) -> u64
        ensures count { result ≡ entered_of self.now }
        ensures few { result ≤ 1000000 }
    {
        self.entered
    }

    /// How many nodes it entered one inside another, at most.
    pub fn height(&self) -> u64
        ensures count { result ≡ meter_height self.now }
        ensures low { result ≤ 1600 }
    {
        self.height
    }

    /// What the probes of the sample recorded, in order. It leaves no readings.
    #[tactic(auto, unfolding(crate::specs::Meters::readings))]
    pub fn take_readings(&mut self, alloc: Global) -> Readings
        ensures taken { probe_readings result ≡ Meters.readings self.old }
        ensures none { Meters.readings self.new ≡ [] }
        ensures entered { entered_of self.new ≡ entered_of self.old }
        ensures height { meter_height self.new ≡ meter_height self.old }
        ensures fault { meter_fault self.new ≡ meter_fault self.old }
    {
        if self.readings.is_empty() {
            return Readings::new(alloc);
        }
        mem::replace(&mut self.readings, Readings::new(alloc))
    }

    /// A probe of this name sees this value. Where memory is refused, nothing is recorded.
    #[tactic(auto, unfolding(crate::specs::Meters::readings))]
    pub fn record(&mut self, name: Rc<String>, value: Value) -> Result<(), AllocError>
        ensures recorded { OnOk result (Meters.readings self.new ≡ Meters.readings self.old ++ (string_bytes name.value, value) ∷ []) }
        ensures entered { entered_of self.new ≡ entered_of self.old }
        ensures height { meter_height self.new ≡ meter_height self.old }
    {
        self.readings.push(name, value)
    }

    /// Why the sample has no value, once a part has stopped.
    pub fn fault(&self) -> Fault
        ensures { result ≡ meter_fault self.now }
    {
        self.fault
    }

    /// A part has no value, for this fault.
    // A call that is seldom made: so the ways that lead to it stand behind those of a sample that goes well.
    #[cold]
    #[inline(never)]
    pub fn stop(&mut self, fault: Fault) -> Stop
        ensures fault { meter_fault self.new ≡ fault }
        ensures entered { entered_of self.new ≡ entered_of self.old }
        ensures height { meter_height self.new ≡ meter_height self.old }
    {
        self.fault = fault;
        Stop
    }

    /// Where it stands.
    #[tactic(auto, unfolding(crate::specs::Meters::readings))]
    #[inline(always)]
    pub fn mark(&self) -> Mark
        ensures entered { result.entered ≡ entered_of self.now }
        ensures recorded { result.recorded ≡ length (Meters.readings self.now) }
    {
        Mark {
            entered: self.entered,
            recorded: self.readings.len(),
        }
    }

    /// What it counted and recorded since it stood there.
    #[tactic(auto, unfolding(crate::specs::Meters::readings))]
    #[inline(always)]
    pub fn since(&self, mark: Mark) -> Spent
        ensures { IsSince mark self.now result }
    {
        Spent {
            entered: self.entered.saturating_sub(mark.entered),
            first: mark.recorded,
            behind: self.readings.len(),
        }
    }

    /// Counts and records once more what it did before. It stops, with `Large`, where that makes more nodes than a sample may
    /// enter, or for want of memory.
    #[tactic(auto, unfolding(crate::specs::Meters::readings))]
    #[inline(always)]
    pub fn repeat(&mut self, alloc: Global, spent: &Spent) -> Result<(), Stop>
        ensures { CountsAgain self.old spent.now self.new (left_or result spent.now (meter_fault self.new)) }
    {
        if spent.entered > MOST_NODES - self.entered {
            return Err(self.stop(Fault::Large));
        }
        if spent.first < spent.behind {
            let Ok(()) = record_again(alloc, &mut self.readings, spent) else {
                return Err(self.stop(Fault::Memory));
            };
            self.entered += spent.entered;
            return Ok(());
        }
        self.entered += spent.entered;
        Ok(())
    }

    /// One more node, inside `depth` others. Answers how many its parts stand inside. It stops, with `Large`, at the 1,000,001st
    /// node of a sample and at more than 1,600 one inside another.
    pub fn tick(&mut self, depth: u64) -> Result<u64, Stop>
        ensures ticked { Ticked self.old self.new depth (kept result (meter_fault self.new)) }
        ensures deeper { IfOk result (λ inside. depth < inside) }
        ensures low { IfOk result (λ inside. inside ≤ 1600) }
    {
        if self.entered >= MOST_NODES || depth >= MOST_HEIGHT {
            return Err(self.stop(Fault::Large));
        }
        let inside = depth + 1;
        self.entered += 1;
        if self.height < inside {
            self.height = inside;
        }
        Ok(inside)
    }
}

// Adds readings once more behind the others.
#[cold]
#[inline(never)]
fn record_again(alloc: Global, readings: &mut Readings, spent: &Spent) -> Result<(), AllocError>
    ensures { OnOk result (spent.now.first ≤ spent.now.behind → spent.now.behind ≤ length (probe_readings readings.old) →
        probe_readings readings.new ≡ probe_readings readings.old ++ slice_range (probe_readings readings.old) spent.now.first spent.now.behind) }
{
    let items = readings.as_slice();
    let (first, behind) = (spent.first, spent.behind);
    if first > behind {
        return Ok(());
    }
    if behind > items.len() {
        return Ok(());
    }
    let part = &items[first..behind];
    let mut more = Readings::new(alloc);
    copy_readings(alloc, &mut more, part)?;
    copy_readings(alloc, readings, more.as_slice())
}

// Adds copies of readings behind others.
fn copy_readings(
    alloc: Global,
    readings: &mut Readings,
    items: &[Reading],
) -> Result<(), AllocError>
    ensures { OnOk result (probe_readings readings.new ≡ probe_readings readings.old ++ map reading_of items.now) }
{
    for reading in items {
        let name = reading.name.clone()?;
        let value = reading.value.clone_in(alloc)?;
        readings.push(name, value)?;
    }
    Ok(())
}
