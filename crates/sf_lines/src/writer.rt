//! Output lines.
ghost use Rattle.std.specs.Prelude.{◌≡◌, ◌++◌, ◌≤◌, length, OnOk, OnErr, take, vec_len};
ghost use Rattle.sf_value.specs.Values.{number};
ghost use Rattle.sf_lines.specs.Names.{fault_name, refusal_name, value_fault_name};
ghost use Rattle.sf_lines.specs.Written.{sample_line, reading_line, fault_line, refusal_line};

use crate::refusal::LineRefusal;
use crate::short::ShortLine;
use sf_spelling::write_value;
use sf_value::{Fault, Form, Value, ValueFault};
use std::alloc::AllocError;

/// Appends the line of a sample, `> T VALUE`, at a time in milliseconds. An error leaves what was there.
#[inline(always)]
pub fn write_sample(time: u64, value: &Value, out: &mut Vec<u8>) -> Result<(), AllocError>
    ensures ok { OnOk result (out.new.items ≡ out.old.items ++ sample_line time value.now) }
    ensures err { OnErr result (out.new.items ≡ out.old.items) }
{
    match value.form() {
        Form::Int(n) => write_number(time, *n, out),
        _ => write_other(time, value, out),
    }
}

// The line of a sample that is a number.
#[inline(always)]
fn write_number(time: u64, n: i64, out: &mut Vec<u8>) -> Result<(), AllocError>
    ensures ok { OnOk result (out.new.items ≡ out.old.items ++ sample_line time (number n)) }
    ensures err { OnErr result (out.new.items ≡ out.old.items) }
{
    let mut line = ShortLine::new();
    line.push(b'\n');
    line.put_integer(n);
    line.push(b' ');
    line.put_natural(time);
    line.push(b' ');
    line.push(b'>');
    out.extend_from_slice(line.as_bytes())
}

// The line of a sample, in parts.
#[inline(never)]
fn write_other(time: u64, value: &Value, out: &mut Vec<u8>) -> Result<(), AllocError>
    ensures ok { OnOk result (out.new.items ≡ out.old.items ++ sample_line time value.now) }
    ensures err { OnErr result (out.new.items ≡ out.old.items) }
{
    let start = out.len();
    let written = append_sample(time, value, out);
    whole_or_none(written, start, out)
}

/// Appends the line of a reading, `? NAME VALUE`. An error leaves what was there.
pub fn write_reading(name: &str, value: &Value, out: &mut Vec<u8>) -> Result<(), AllocError>
    ensures ok { OnOk result (out.new.items ≡ out.old.items ++ reading_line name.now value.now) }
    ensures err { OnErr result (out.new.items ≡ out.old.items) }
{
    let start = out.len();
    let written = append_reading(name, value, out);
    whole_or_none(written, start, out)
}

/// The line of a fault, `! T FAULT`, at a time in milliseconds.
pub fn write_fault(time: u64, fault: Fault) -> ShortLine
    ensures { result ≡ fault_line time fault }
{
    let mut line = ShortLine::new();
    line.put(b"\n");
    line.put(name_of_fault(fault));
    line.put(b" ");
    line.put_natural(time);
    line.put(b"! ");
    line
}

/// The line of a refusal, `! line N REFUSAL`, of the input line with this number from 1.
pub fn write_refusal(line: u64, refusal: LineRefusal) -> ShortLine
    ensures { result ≡ refusal_line line refusal }
{
    let mut text = ShortLine::new();
    text.put(b"\n");
    text.put(name_of_refusal(refusal));
    text.put(b" ");
    text.put_natural(line);
    text.put(b"! line ");
    text
}

// What was written, where it is all written; else what there was before it, up to its start.
fn whole_or_none(
    written: Result<(), AllocError>,
    start: usize,
    out: &mut Vec<u8>,
) -> Result<(), AllocError>
    ensures same { result ≡ written }
    ensures ok { OnOk written (out.new.items ≡ out.old.items) }
    ensures err { OnErr written (out.new.items ≡ take start out.old.items) }
{
    if written.is_err() {
        out.truncate(start);
    }
    written
}

// An error leaves a part of the line behind what was there.
fn append_sample(time: u64, value: &Value, out: &mut Vec<u8>) -> Result<(), AllocError>
    ensures ok { OnOk result (out.new.items ≡ out.old.items ++ sample_line time value.now) }
    ensures err { OnErr result (take (vec_len out.old) out.new.items ≡ out.old.items) }
{
    let mut front = ShortLine::new();
    front.push(b' ');
    front.put_natural(time);
    front.push(b' ');
    front.push(b'>');
    out.extend_from_slice(front.as_bytes())?;
    write_value(value, out)?;
    out.extend_from_slice(b"\n")
}

// An error leaves a part of the line behind what was there.
fn append_reading(name: &str, value: &Value, out: &mut Vec<u8>) -> Result<(), AllocError>
    ensures ok { OnOk result (out.new.items ≡ out.old.items ++ reading_line name.now value.now) }
    ensures err { OnErr result (take (vec_len out.old) out.new.items ≡ out.old.items) }
{
    out.extend_from_slice(b"? ")?;
    out.extend_from_slice(name.as_bytes())?;
    out.extend_from_slice(b" ")?;
    write_value(value, out)?;
    out.extend_from_slice(b"\n")
}

fn name_of_fault(fault: Fault) -> &'static [u8]
    ensures name { result.now ≡ fault_name fault }
    ensures short { length result.now ≤ 12 }
{
    match fault {
        Fault::Value(fault) => name_of_value_fault(fault),
        Fault::Large => b"Large",
        Fault::Memory => b"Memory",
    }
}

fn name_of_value_fault(fault: ValueFault) -> &'static [u8]
    ensures name { result.now ≡ value_fault_name fault }
    ensures short { length result.now ≤ 12 }
{
    match fault {
        ValueFault::Overflow => b"Overflow",
        ValueFault::DivideByZero => b"DivideByZero",
        ValueFault::Clash => b"Clash",
        ValueFault::Function => b"Function",
    }
}

fn name_of_refusal(refusal: LineRefusal) -> &'static [u8]
    ensures name { result.now ≡ refusal_name refusal }
    ensures short { length result.now ≤ 12 }
{
    match refusal {
        LineRefusal::BadLine => b"BadLine",
        LineRefusal::LineTooLong => b"LineTooLong",
        LineRefusal::TooManyLines => b"TooManyLines",
        LineRefusal::NotStarted => b"NotStarted",
        LineRefusal::Started => b"Started",
        LineRefusal::BadStep => b"BadStep",
        LineRefusal::BadValue => b"BadValue",
        LineRefusal::OutOfRange => b"OutOfRange",
        LineRefusal::DuplicateKey => b"DuplicateKey",
        LineRefusal::NoSave => b"NoSave",
        LineRefusal::TooManySaves => b"TooManySaves",
        LineRefusal::Memory => b"Memory",
    }
}
