//! Spellings of values.
ghost use Rattle.std.specs.Prelude.{◌≡◌, ◌++◌, ◌∷◌, [], OnOk, OnErr, length, map, take};
ghost use Rattle.std.specs.List.{flat_map};
ghost use Rattle.sf_spelling.specs.Spelling.{escaped, quoted, key_spelling, spelling, rows_spelling, more_spelling};
ghost use Rattle.sf_value.specs.View.{key_of, keyed_rows};
ghost use Rattle.sf_value.specs.Values.{pair, table};

use sf_decimal::write_integer;
use sf_value::{Form, Key, Rows, Value};
use std::alloc::AllocError;

/// Appends the spelling of a value. An error leaves what was there.
pub fn write_value(value: &Value, out: &mut Vec<u8>) -> Result<(), AllocError>
    ensures ok { OnOk result (out.new.items ≡ out.old.items ++ spelling value.now) }
    ensures err { OnErr result (out.new.items ≡ out.old.items) }
{
    let start = out.len();
    let written = append(value, out);
    if written.is_err() {
        out.truncate(start);
    }
    written
}

// An error may leave a part of the spelling behind what was there, here and in the functions below.
#[cycle(append)]
fn append(value: &Value, out: &mut Vec<u8>) -> Result<(), AllocError>
    ensures ok { OnOk result (out.new.items ≡ out.old.items ++ spelling value.now) }
    ensures err { OnErr result (take (length out.old.items) out.new.items ≡ out.old.items) }
{
    match value.form() {
        Form::Unit => out.extend_from_slice(b"()"),
        Form::Bool(true) => out.extend_from_slice(b"true"),
        Form::Bool(false) => out.extend_from_slice(b"false"),
        Form::Int(n) => write_integer(*n, out),
        Form::Text(s) => append_text(s.as_str(), out),
        Form::Pair(halves) => append_pair(&halves.first, &halves.second, out),
        Form::NoEvent => out.extend_from_slice(b"none"),
        Form::UnitEvent => out.extend_from_slice(b"event ()"),
        Form::Event(payload) => {
            out.extend_from_slice(b"event ")?;
            append(payload, out)
        }
        Form::Table(_) => append_table(value.rows(), out),
    }
}

#[cycle(append)]
fn append_pair(first: &Value, second: &Value, out: &mut Vec<u8>) -> Result<(), AllocError>
    ensures ok { OnOk result (out.new.items ≡ out.old.items ++ spelling (pair first.now second.now)) }
    ensures err { OnErr result (take (length out.old.items) out.new.items ≡ out.old.items) }
{
    out.push(b'(')?;
    append(first, out)?;
    out.push(b',')?;
    append(second, out)?;
    out.push(b')')?;
    Ok(())
}

#[cycle(append)]
fn append_table(rows: Rows, out: &mut Vec<u8>) -> Result<(), AllocError>
    ensures ok { OnOk result (out.new.items ≡ out.old.items ++ spelling (table (keyed_rows (map key_of rows.entry.keys.now) rows.entry.values.now))) }
    ensures err { OnErr result (take (length out.old.items) out.new.items ≡ out.old.items) }
{
    out.push(b'{')?;
    append_rows(rows, out)?;
    out.push(b'}')?;
    Ok(())
}

#[cycle(append)]
fn append_rows(rows: Rows, out: &mut Vec<u8>) -> Result<(), AllocError>
    ensures ok { OnOk result (out.new.items ≡ out.old.items ++ rows_spelling (keyed_rows (map key_of rows.entry.keys.now) rows.entry.values.now)) }
    ensures err { OnErr result (take (length out.old.items) out.new.items ≡ out.old.items) }
{
    match rows.keys {
        [] => Ok(()),
        [key, keys @ ..] => match rows.values {
            [] => Ok(()),
            [value, values @ ..] => {
                append_key(key, out)?;
                append(value, out)?;
                append_more(Rows { keys, values }, out)
            }
        },
    }
}

#[cycle(append)]
fn append_more(rows: Rows, out: &mut Vec<u8>) -> Result<(), AllocError>
    ensures ok { OnOk result (out.new.items ≡ out.old.items ++ more_spelling (keyed_rows (map key_of rows.entry.keys.now) rows.entry.values.now)) }
    ensures err { OnErr result (take (length out.old.items) out.new.items ≡ out.old.items) }
{
    match rows.keys {
        [] => Ok(()),
        [key, keys @ ..] => match rows.values {
            [] => Ok(()),
            [value, values @ ..] => {
                out.push(b',')?;
                append_key(key, out)?;
                append(value, out)?;
                append_more(Rows { keys, values }, out)
            }
        },
    }
}

/// A key and the colon after it.
fn append_key(key: &Key, out: &mut Vec<u8>) -> Result<(), AllocError>
    ensures ok { OnOk result (out.new.items ≡ out.old.items ++ (key_spelling (key_of key.now) ++ 58 ∷ [])) }
    ensures err { OnErr result (take (length out.old.items) out.new.items ≡ out.old.items) }
{
    match key {
        Key::Int(n) => write_integer(*n, out)?,
        Key::Text(s) => append_text(s.as_str(), out)?,
    }
    out.push(b':')?;
    Ok(())
}

fn append_text(s: &str, out: &mut Vec<u8>) -> Result<(), AllocError>
    ensures ok { OnOk result (out.new.items ≡ out.old.items ++ quoted s.now) }
    ensures err { OnErr result (take (length out.old.items) out.new.items ≡ out.old.items) }
{
    out.push(b'"')?;
    append_escaped(s.as_bytes(), out)?;
    out.push(b'"')?;
    Ok(())
}

fn append_escaped(bytes: &[u8], out: &mut Vec<u8>) -> Result<(), AllocError>
    ensures ok { OnOk result (out.new.items ≡ out.old.items ++ flat_map escaped bytes.now) }
    ensures err { OnErr result (take (length out.old.items) out.new.items ≡ out.old.items) }
{
    for c in bytes {
        match c {
            b'"' => out.extend_from_slice(b"\\\"")?,
            b'\\' => out.extend_from_slice(b"\\\\")?,
            b'\n' => out.extend_from_slice(b"\\n")?,
            c => out.push(*c)?,
        }
    }
    Ok(())
}
