//! Readings.
ghost use Rattle.std.specs.Prelude.{◌≡◌, ◌++◌, ◌↔◌, [], ◌∷◌, IsTrue, OnOk, OnErr, map, length, string_bytes};
ghost use Rattle.sf_probe.specs.Readings.{reading_of, probe_readings};

use sf_value::Value;
use std::alloc::{AllocError, Global};
use std::rc::Rc;

/// What a probe read, under its name. The name is shared.
#[derive(Drop)]
pub struct Reading {
    /// The name of the probe.
    pub name: Rc<String>,
    /// What it read.
    pub value: Value,
}

/// Readings in order.
pub struct Readings {
    items: Vec<Reading>,
}

impl Drop for Readings {
    #[inline(always)]
    fn drop(self) {
        let Readings { items } = self;
        drop(items);
    }
}

impl Reading {
    /// The name of the probe.
    pub fn name(&self) -> &str
        ensures { result.now ≡ (reading_of self.now).0 }
    {
        self.name.as_str()
    }

    /// What it read.
    pub fn value(&self) -> &Value
        ensures { result.now ≡ (reading_of self.now).1 }
    {
        &self.value
    }
}

impl Readings {
    /// No readings. They take no memory.
    pub fn new(alloc: Global) -> Readings
        ensures { probe_readings result ≡ [] }
    {
        Readings {
            items: Vec::new(alloc),
        }
    }

    /// Adds a reading behind the others. For want of memory nothing changes.
    pub fn push(&mut self, name: Rc<String>, value: Value) -> Result<(), AllocError>
        ensures ok { OnOk result (probe_readings self.new ≡ probe_readings self.old ++ (string_bytes name.value, value) ∷ []) }
        ensures err { OnErr result (probe_readings self.new ≡ probe_readings self.old) }
    {
        self.items.push(Reading { name, value })?;
        Ok(())
    }

    /// The readings, in order.
    pub fn as_slice(&self) -> &[Reading]
        ensures { map reading_of result.now ≡ probe_readings self.now }
    {
        self.items.as_slice()
    }

    /// How many there are.
    pub fn len(&self) -> usize
        ensures { result ≡ length (probe_readings self.now) }
    {
        self.items.len()
    }

    /// Whether there are none.
    pub fn is_empty(&self) -> bool
        ensures { IsTrue result ↔ (probe_readings self.now ≡ []) }
    {
        self.items.is_empty()
    }
}
