//! The last reading of each name.
ghost use Rattle.std.specs.Prelude.{◌≡◌, ◌≤◌, ◌++◌, ℕ, List, [], ◌∷◌, None, OnOk, OnErr, length, take, slice_get};
ghost use Rattle.std.specs.HashMap.{get_by_text};
ghost use Rattle.std.specs.Option.{option_map, option_copied};
ghost use Rattle.sf_value.specs.Values.{Name, Data};
ghost use Rattle.sf_probe.specs.Readings.{probe_readings};
ghost use Rattle.sf_probe.specs.Latest.{HasNoted, HasNotedFront, latest_names, last_reading};

use crate::reading::Readings;
use indexmap::IndexMap;
use sf_value::Value;
use std::alloc::{AllocError, Global};

/// The last reading of each name among those that were noted.
///
/// It keeps the allocator that it was made with.
pub struct Latest {
    alloc: Global,
    values: IndexMap<String, Value>,
}

impl Drop for Latest {
    fn drop(self) {
        let Latest { alloc: _, values } = self;
        drop(values);
    }
}

impl Latest {
    /// Nothing is noted. It takes no memory.
    pub fn new(alloc: Global) -> Latest
        ensures { HasNoted result [] }
    {
        Latest {
            alloc,
            values: IndexMap::new(alloc),
        }
    }

    /// Notes readings, in order. For want of memory some of the first of them are noted, and the others not.
    pub fn note(&mut self, readings: &Readings) -> Result<(), AllocError>
        ensures ok { OnOk result ((noted : List (Name × Data)) → HasNoted self.old noted → HasNoted self.new (noted ++ probe_readings readings.now)) }
        ensures err { OnErr result (HasNotedFront self.old self.new (probe_readings readings.now)) }
    {
        for reading in readings.as_slice() {
            self.put(reading.name(), reading.value())?;
        }
        Ok(())
    }

    /// The last reading of that name, if there is any.
    pub fn latest(&self, name: &str) -> Option<&Value>
        ensures { (noted : List (Name × Data)) → HasNoted self.now noted → option_copied result ≡ last_reading name.now noted }
    {
        self.values.get(name)
    }

    /// How many names there are.
    pub fn len(&self) -> usize
        ensures { result ≡ length (latest_names self.now) }
    {
        self.values.len()
    }

    /// The name at an index, in the order in which they were first noted.
    pub fn name_at(&self, index: usize) -> Option<&str>
        ensures { option_map (λ n. n.now) result ≡ slice_get (latest_names self.now) index }
    {
        match self.values.get_index(index) {
            Some((name, _)) => Some(name.as_str()),
            None => None,
        }
    }

    // Notes one reading. For want of memory nothing changes.
    fn put(&mut self, name: &str, value: &Value) -> Result<(), AllocError>
        ensures ok { OnOk result ((noted : List (Name × Data)) → HasNoted self.old noted → HasNoted self.new (noted ++ (name.now, value.now) ∷ [])) }
        ensures err { OnErr result ((noted : List (Name × Data)) → HasNoted self.old noted → HasNoted self.new noted) }
    {
        let copy = value.clone_in(self.alloc)?;
        if let Some(kept) = self.values.get_mut(name) {
            *kept = copy;
            return Ok(());
        }
        self.put_new(name, copy)
    }

    // Notes the first reading of a name. For want of memory nothing changes.
    fn put_new(&mut self, name: &str, value: Value) -> Result<(), AllocError>
        requires { get_by_text self.old.values name.now ≡ None }
        ensures ok { OnOk result ((noted : List (Name × Data)) → HasNoted self.old noted → HasNoted self.new (noted ++ (name.now, value) ∷ [])) }
        ensures err { OnErr result ((noted : List (Name × Data)) → HasNoted self.old noted → HasNoted self.new noted) }
    {
        let key = String::from_str(self.alloc, name)?;
        self.values.insert(key, value)?;
        Ok(())
    }
}
