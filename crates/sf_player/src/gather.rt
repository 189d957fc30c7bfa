//! The lines of samples.
ghost use Rattle.std.specs.Prelude.{◌≡◌, ◌++◌, true, OnOk, OnErr, take, vec_len};
ghost use Rattle.sf_probe.specs.Readings.{probe_readings};
ghost use Rattle.sf_player.specs.Scripts.{readings_said, sample_lines};

use sf_engine::Sample;
use sf_lines::{write_reading, write_sample};
use sf_probe::Readings;
use std::alloc::AllocError;

/// Appends the lines of a sample: those of its readings where they are asked for, and then its value's. An error leaves
/// what was there.
#[inline(always)]
pub(crate) fn gather(probes: bool, sample: &Sample, out: &mut Vec<u8>) -> Result<(), AllocError>
    ensures ok { OnOk result (out.new.items ≡ out.old.items ++ sample_lines probes sample.now.time sample.now.value (probe_readings sample.now.readings)) }
    ensures err { OnErr result (out.new.items ≡ out.old.items) }
{
    if !probes {
        return write_sample(sample.time, &sample.value, out);
    }
    let start = out.len();
    let written = append_lines(sample, out);
    if written.is_err() {
        out.truncate(start);
    }
    written
}

// An error leaves a part of the lines behind what was there.
#[inline(never)]
fn append_lines(sample: &Sample, out: &mut Vec<u8>) -> Result<(), AllocError>
    ensures ok { OnOk result (out.new.items ≡ out.old.items ++ sample_lines true sample.now.time sample.now.value (probe_readings sample.now.readings)) }
    ensures err { OnErr result (take (vec_len out.old) out.new.items ≡ out.old.items) }
{
    append_readings(&sample.readings, out)?;
    write_sample(sample.time, &sample.value, out)
}

// An error leaves a part of the lines behind what was there.
fn append_readings(readings: &Readings, out: &mut Vec<u8>) -> Result<(), AllocError>
    ensures ok { OnOk result (out.new.items ≡ out.old.items ++ readings_said true (probe_readings readings.now)) }
    ensures err { OnErr result (take (vec_len out.old) out.new.items ≡ out.old.items) }
{
    for reading in readings.as_slice() {
        write_reading(reading.name(), reading.value(), out)?;
    }
    Ok(())
}
