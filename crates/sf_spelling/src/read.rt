//! Values from their spellings.
ghost use Rattle.std.specs.Prelude.{◌≡◌, ◌<◌, ℕ, IfOk, IfErr, MatchResult, OnOk, length, min, codes, ◌++◌, ◌∷◌, []};
ghost use Rattle.sf_value.specs.Values.{KeyData, Data, unit_kind, bool_kind, int_kind, text_kind, pair_kind, event_kind, table_kind, HasKind};
ghost use Rattle.sf_value.specs.KindView.{key_kind_of};
ghost use Rattle.sf_value.specs.View.{key_of, keyed_rows};
ghost use Rattle.sf_spelling.specs.Spelling.{spelling};
ghost use Rattle.sf_decimal.specs.Decimals.{signed};
ghost use Rattle.sf_spelling.specs.Scan.{byte_at, word_at, positive_at, scanned_integer, scanned_value, narrow, begins_digit, scanned_key, new_key_at, scanned_row, scanned_rows};
ghost use Rattle.sf_spelling.specs.Steps.{value_behind, pair_closed, none_at, event_before, table_before, spellings};
ghost use Rattle.sf_spelling.specs.Reading.{Reads};
ghost use Rattle.sf_spelling.specs.Refuses.{Refuses, IsMemory};
ghost use Rattle.sf_spelling.specs.Gives.{Fails, GivesRead, GivesCapped, cap};
ghost use Rattle.sf_spelling.specs.declared.read.Failure.TheVariants.{Memory};

use crate::text::text_of;
use sf_decimal::{digits_at, signed};
use sf_value::{Key, KeyType, Keys, Ty, TyForm, Value};
use std::alloc::Global;
use std::rc::Rc;
use thiserror::Error;

/// Why bytes are no spelling of a value of a type, with the place in bytes from 0.
#[derive(Clone, Copy, Debug, PartialEq, Eq, Error)]
pub enum ReadRefusal {
    /// The longest front of the bytes that is a front of a spelling of the type, its numbers of any size and its keys repeated, ends here.
    #[error("bad value at byte {0}")]
    BadValue(usize),
    /// A number outside signed 64 bits begins here.
    #[error("number out of range at byte {0}")]
    OutOfRange(usize),
    /// A key that stood in its table before begins here.
    #[error("duplicate key at byte {0}")]
    DuplicateKey(usize),
    /// Memory ran out.
    #[error("out of memory")]
    Memory,
}

/// Why no value is read, with the number of bytes from the place on.
#[derive(Drop)]
pub(crate) enum Failure {
    Bad(usize),
    Wide(usize),
    Again(usize),
    Memory,
}

/// The rows of a table: its keys in order, and the value under each at the same place.
#[derive(Drop)]
struct Rows {
    keys: Keys,
    values: Vec<Value>,
}

/// What is after this byte.
pub(crate) fn byte_of(byte: u8, bytes: &[u8]) -> Result<&[u8], Failure>
    ensures { GivesRead (λ rest. rest.now) result (byte_at byte bytes.now) }
{
    match bytes {
        [] => Err(Failure::Bad(0)),
        [c, rest @ ..] => {
            if *c == byte {
                Ok(rest)
            } else {
                Err(Failure::Bad(bytes.len()))
            }
        }
    }
}

/// What is after this word.
#[inline]
fn word_of<'a>(word: &[u8], bytes: &'a [u8]) -> Result<&'a [u8], Failure>
    ensures { GivesRead (λ rest. rest.now) result (word_at word.now bytes.now) }
{
    match bytes.strip_prefix(word) {
        Some(rest) => Ok(rest),
        None => word_by_bytes(word, bytes),
    }
}

/// The same byte by byte, which says where another byte stands.
#[tactic(auto, using(crate::proofs::Failing::fails_then))]
fn word_by_bytes<'a>(word: &[u8], bytes: &'a [u8]) -> Result<&'a [u8], Failure>
    ensures { GivesRead (λ rest. rest.now) result (word_at word.now bytes.now) }
{
    match word {
        [] => Ok(bytes),
        [first, others @ ..] => {
            let rest = byte_of(*first, bytes)?;
            word_by_bytes(others, rest)
        }
    }
}

/// A number that doesn't begin with 0, up to the cap.
fn positive_of(bytes: &[u8]) -> Result<(u64, &[u8]), Failure>
    ensures { GivesCapped result (positive_at bytes.now) (λ r. r.now) }
{
    match bytes {
        [] => Err(Failure::Bad(0)),
        [c, ..] => {
            if b'0' < *c && c.is_ascii_digit() {
                let run = digits_at(bytes);
                Ok((run.number, run.rest))
            } else {
                Err(Failure::Bad(bytes.len()))
            }
        }
    }
}

/// A whole number at the front, and what is after it.
fn integer_of(bytes: &[u8]) -> Result<(i64, &[u8]), Failure>
    ensures { GivesRead (λ x. (x.0, x.1.now)) result (scanned_integer bytes.now) }
{
    match bytes {
        [] => Err(Failure::Bad(0)),
        [c, rest @ ..] => {
            if *c == b'-' {
                let (n, after) = positive_of(rest)?;
                narrow(n, true, bytes, after)
            } else if *c == b'0' {
                Ok((0, rest))
            } else {
                let (n, after) = positive_of(bytes)?;
                narrow(n, false, bytes, after)
            }
        }
    }
}

/// The number with this sign that begins the bytes, where it is within signed 64 bits.
fn narrow<'a>(
    n: u64,
    is_negative: bool,
    bytes: &[u8],
    after: &'a [u8],
) -> Result<(i64, &'a [u8]), Failure>
    ensures { (m : ℕ) → n ≡ min m cap →
        GivesRead (λ x. (x.0, x.1.now)) result (narrow bytes.now (signed is_negative m) after.now) }
{
    match signed(n, is_negative) {
        Some(number) => Ok((number, after)),
        None => Err(Failure::Wide(bytes.len())),
    }
}

/// A value of the type at the front, and what is after it.
#[cycle(value_of)]
fn value_of<'a>(alloc: Global, ty: &Ty, bytes: &'a [u8]) -> Result<(Value, &'a [u8]), Failure>
    ensures { GivesRead (λ x. (x.0, x.1.now)) result (scanned_value ty.now bytes.now) }
{
    match ty.form() {
        TyForm::Unit => unit_of(bytes),
        TyForm::Bool => bool_of(bytes),
        TyForm::Int => int_of(bytes),
        TyForm::Text => string_of(alloc, bytes),
        TyForm::Pair(first, second) => pair_of(alloc, first, second, bytes),
        TyForm::Event(payload) => event_of(alloc, payload, bytes),
        TyForm::Table(keys, values) => table_of(alloc, *keys, values, bytes),
    }
}

/// The same at once where it is a number or the unit.
#[cycle(value_of)]
#[inline(always)]
fn part_of<'a>(alloc: Global, ty: &Ty, bytes: &'a [u8]) -> Result<(Value, &'a [u8]), Failure>
    ensures { GivesRead (λ x. (x.0, x.1.now)) result (scanned_value ty.now bytes.now) }
{
    match ty.form() {
        TyForm::Unit => unit_of(bytes),
        TyForm::Int => int_of(bytes),
        _ => value_of(alloc, ty, bytes),
    }
}

#[tactic(auto, using(crate::proofs::Failing::fails_then), unfolding(crate::specs::Scan::scanned_value))]
fn unit_of(bytes: &[u8]) -> Result<(Value, &[u8]), Failure>
    ensures { GivesRead (λ x. (x.0, x.1.now)) result (scanned_value unit_kind bytes.now) }
{
    let rest = byte_of(b'(', bytes)?;
    let rest = byte_of(b')', rest)?;
    Ok((Value::unit(), rest))
}

#[tactic(auto, using(crate::proofs::Failing::fails_then), unfolding(crate::specs::Scan::scanned_value))]
fn bool_of(bytes: &[u8]) -> Result<(Value, &[u8]), Failure>
    ensures { GivesRead (λ x. (x.0, x.1.now)) result (scanned_value bool_kind bytes.now) }
{
    match bytes {
        [] => Err(Failure::Bad(0)),
        [c, ..] => {
            if *c == b't' {
                let rest = word_of(b"true", bytes)?;
                Ok((Value::bool(true), rest))
            } else {
                let rest = word_of(b"false", bytes)?;
                Ok((Value::bool(false), rest))
            }
        }
    }
}

#[tactic(auto, using(crate::proofs::Failing::fails_then), unfolding(crate::specs::Scan::scanned_value))]
fn int_of(bytes: &[u8]) -> Result<(Value, &[u8]), Failure>
    ensures { GivesRead (λ x. (x.0, x.1.now)) result (scanned_value int_kind bytes.now) }
{
    let (n, rest) = integer_of(bytes)?;
    Ok((Value::int(n), rest))
}

#[tactic(auto, using(crate::proofs::Failing::fails_then), unfolding(crate::specs::Scan::scanned_value))]
fn string_of(alloc: Global, bytes: &[u8]) -> Result<(Value, &[u8]), Failure>
    ensures { GivesRead (λ x. (x.0, x.1.now)) result (scanned_value text_kind bytes.now) }
{
    let (text, rest) = text_of(alloc, bytes)?;
    let Ok(value) = Value::text(alloc, text) else {
        return Err(Failure::Memory);
    };
    Ok((value, rest))
}

/// A value of the type behind this byte, and what is after it.
#[cycle(value_of)]
#[inline]
fn value_behind<'a>(
    alloc: Global,
    byte: u8,
    ty: &Ty,
    bytes: &'a [u8],
) -> Result<(Value, &'a [u8]), Failure>
    ensures { GivesRead (λ x. (x.0, x.1.now)) result (value_behind byte ty.now bytes.now) }
{
    let rest = byte_of(byte, bytes)?;
    part_of(alloc, ty, rest)
}

#[cycle(value_of)]
fn pair_of<'a>(
    alloc: Global,
    first: &Ty,
    second: &Ty,
    bytes: &'a [u8],
) -> Result<(Value, &'a [u8]), Failure>
    ensures { GivesRead (λ x. (x.0, x.1.now)) result (scanned_value (pair_kind first.now second.now) bytes.now) }
{
    let (x, rest) = value_behind(alloc, b'(', first, bytes)?;
    let (y, rest) = value_behind(alloc, b',', second, rest)?;
    closed_pair(alloc, x, y, rest)
}

/// The pair of the values before its closing bracket, and what is after it.
#[tactic(auto, using(crate::proofs::Failing::fails_then))]
fn closed_pair(alloc: Global, x: Value, y: Value, bytes: &[u8]) -> Result<(Value, &[u8]), Failure>
    ensures { GivesRead (λ r. (r.0, r.1.now)) result (pair_closed x y bytes.now) }
{
    let rest = byte_of(b')', bytes)?;
    let Ok(value) = Value::pair(alloc, x, y) else {
        return Err(Failure::Memory);
    };
    Ok((value, rest))
}

/// No event at the front, and what is after it.
#[tactic(auto, using(crate::proofs::Failing::fails_then))]
fn no_event_of(bytes: &[u8]) -> Result<(Value, &[u8]), Failure>
    ensures { GivesRead (λ x. (x.0, x.1.now)) result (none_at bytes.now) }
{
    let rest = word_of(b"none", bytes)?;
    Ok((Value::no_event(), rest))
}

#[cycle(value_of)]
#[tactic(auto, using(crate::proofs::Failing::fails_then), unfolding(crate::specs::Scan::scanned_value))]
fn event_of<'a>(alloc: Global, payload: &Ty, bytes: &'a [u8]) -> Result<(Value, &'a [u8]), Failure>
    ensures { GivesRead (λ x. (x.0, x.1.now)) result (scanned_value (event_kind payload.now) bytes.now) }
{
    match bytes {
        [] => Err(Failure::Bad(0)),
        [b'n', ..] => no_event_of(bytes),
        _ => {
            let rest = word_of(b"event ", bytes)?;
            let (x, rest) = part_of(alloc, payload, rest)?;
            event_in(alloc, x, rest)
        }
    }
}

/// The event with this payload, which ends before these bytes.
fn event_in(alloc: Global, payload: Value, bytes: &[u8]) -> Result<(Value, &[u8]), Failure>
    ensures { GivesRead (λ x. (x.0, x.1.now)) result (event_before payload bytes.now) }
{
    match Value::event(alloc, payload) {
        Ok(value) => Ok((value, bytes)),
        Err(_) => Err(Failure::Memory),
    }
}

/// A key of a type at the front, which no digit follows where it is a number, and what is after it.
#[tactic(auto, using(crate::proofs::Failing::fails_then))]
fn key_in(alloc: Global, keys: KeyType, bytes: &[u8]) -> Result<(Key, &[u8]), Failure>
    ensures { GivesRead (λ x. (key_of x.0, x.1.now)) result (scanned_key (key_kind_of keys) bytes.now) }
{
    match keys {
        KeyType::Int => {
            let (n, rest) = integer_of(bytes)?;
            if goes_on(rest) {
                return Err(Failure::Bad(rest.len()));
            }
            Ok((Key::Int(n), rest))
        }
        KeyType::Text => {
            let (text, rest) = text_of(alloc, bytes)?;
            let Ok(shared) = Rc::new(alloc, text) else {
                return Err(Failure::Memory);
            };
            Ok((Key::Text(shared), rest))
        }
    }
}

fn goes_on(bytes: &[u8]) -> bool
    ensures { result ≡ begins_digit bytes.now }
{
    match bytes {
        [] => false,
        [c, ..] => c.is_ascii_digit(),
    }
}

/// Reads a key at the front, which is none of those seen, and puts it behind them. The answer is what is after it.
fn new_key_in<'a>(
    alloc: Global,
    keys: KeyType,
    seen: &mut Keys,
    bytes: &'a [u8],
) -> Result<&'a [u8], Failure>
    ensures key { IfOk result (λ rest. (added : KeyData) × (seen.new ≡ seen.old ++ added ∷ []) ×
        (new_key_at (key_kind_of keys) (spellings seen.old) bytes.now ≡ Ok (added, rest.now))) }
    ensures fails { IfErr result (λ e. Fails e (new_key_at (key_kind_of keys) (spellings seen.old) bytes.now)) }
{
    let (key, rest) = key_in(alloc, keys, bytes)?;
    match seen.push(key) {
        Err(_) => Err(Failure::Memory),
        Ok(false) => Err(Failure::Again(bytes.len())),
        Ok(true) => Ok(rest),
    }
}

/// A table of a type at the front, and what is after it. Each key is looked up among those before it.
#[cycle(value_of)]
#[tactic(auto, unfolding(crate::specs::Scan::scanned_value))]
fn table_of<'a>(
    alloc: Global,
    keys: KeyType,
    values: &Ty,
    bytes: &'a [u8],
) -> Result<(Value, &'a [u8]), Failure>
    ensures { GivesRead (λ x. (x.0, x.1.now)) result (scanned_value (table_kind (key_kind_of keys) values.now) bytes.now) }
{
    let rest = byte_of(b'{', bytes)?;
    let (table, rest) = rows_in(alloc, keys, values, rest)?;
    table_in(alloc, table, rest)
}

/// The table, which ends before these bytes, as a value.
fn table_in(alloc: Global, table: Rows, bytes: &[u8]) -> Result<(Value, &[u8]), Failure>
    requires { length table.keys ≡ length table.values.items }
    ensures { GivesRead (λ x. (x.0, x.1.now)) result (table_before (keyed_rows table.keys table.values.items) bytes.now) }
{
    let Rows { keys, values } = table;
    let Ok(shared) = Rc::new(alloc, keys) else {
        return Err(Failure::Memory);
    };
    match Value::under(alloc, shared, values) {
        Ok(value) => Ok((value, bytes)),
        Err(_) => Err(Failure::Memory),
    }
}

/// The rows of a table up to its closing brace, and what is after it.
#[cycle(value_of)]
fn rows_in<'a>(
    alloc: Global,
    keys: KeyType,
    values: &Ty,
    bytes: &'a [u8],
) -> Result<(Rows, &'a [u8]), Failure>
    ensures rows { GivesRead (λ x. (keyed_rows x.0.keys x.0.values.items, x.1.now)) result (scanned_rows (key_kind_of keys) (scanned_value values.now) bytes.now) }
    ensures as_many { IfOk result (λ x. length x.0.keys ≡ length x.0.values.items) }
{
    let mut table = Rows {
        keys: Keys::new(alloc),
        values: Vec::new(alloc),
    };
    let mut left = bytes;
    if let [c, rest @ ..] = bytes {
        if *c == b'}' {
            return Ok((table, rest));
        }
    }
    loop {
        let rest = row_in(alloc, keys, values, &mut table, left)?;
        match rest {
            [] => return Err(Failure::Bad(0)),
            [c, behind @ ..] => {
                if *c == b'}' {
                    return Ok((table, behind));
                }
                if *c != b',' {
                    return Err(Failure::Bad(rest.len()));
                }
                left = behind;
            }
        }
    }
}

/// Reads a row at the front, whose key is none of those before it, and puts it behind them. The answer is what is after it.
#[cycle(value_of)]
fn row_in<'a>(
    alloc: Global,
    keys: KeyType,
    values: &Ty,
    rows: &mut Rows,
    bytes: &'a [u8],
) -> Result<&'a [u8], Failure>
    ensures row { IfOk result (λ rest. (added : KeyData × Data) × (rows.new.keys ≡ rows.old.keys ++ added.0 ∷ []) × (rows.new.values.items ≡ rows.old.values.items ++ added.1 ∷ []) ×
        (scanned_row (key_kind_of keys) (scanned_value values.now) (spellings rows.old.keys) bytes.now ≡ Ok (added, rest.now))) }
    ensures fails { IfErr result (λ e. Fails e (scanned_row (key_kind_of keys) (scanned_value values.now) (spellings rows.old.keys) bytes.now)) }
{
    let rest = new_key_in(alloc, keys, &mut rows.keys, bytes)?;
    let (value, rest) = value_behind(alloc, b':', values, rest)?;
    put_value(&mut rows.values, value)?;
    Ok(rest)
}

/// Puts a value behind the others.
fn put_value(values: &mut Vec<Value>, value: Value) -> Result<(), Failure>
    ensures ok { OnOk result (values.new.items ≡ values.old.items ++ value ∷ []) }
    ensures err { IfErr result (λ e. e ≡ Memory) }
{
    let Ok(()) = values.push(value) else {
        return Err(Failure::Memory);
    };
    Ok(())
}

/// A value of the type at the front, and what is after it. A number takes no call into the cycle of values with parts.
#[inline]
fn front_of<'a>(alloc: Global, ty: &Ty, bytes: &'a [u8]) -> Result<(Value, &'a [u8]), Failure>
    ensures { GivesRead (λ x. (x.0, x.1.now)) result (scanned_value ty.now bytes.now) }
{
    match ty.form() {
        TyForm::Int => int_of(bytes),
        _ => value_of(alloc, ty, bytes),
    }
}

/// The value of a type whose spelling the bytes are, to the last byte.
///
/// Of all places where the bytes may be refused, the least is answered. `Memory` is answered only where memory runs out.
pub fn read_value(alloc: Global, ty: &Ty, bytes: &[u8]) -> Result<Value, ReadRefusal>
    // What is read has the type and is spelled so.
    ensures found { IfOk result (λ v. Reads ty.now bytes.now (Ok v)) }
    // The refusal has the least place.
    ensures refused { IfErr result (λ e. Refuses ty.now bytes.now e) }
    // What is spelled so is read, unless memory runs out.
    ensures only { (v : Data) → HasKind v ty.now → bytes.now ≡ spelling v →
        MatchResult result (λ w. w ≡ v) IsMemory }
{
    match front_of(alloc, ty, bytes) {
        Ok((value, rest)) => {
            if rest.len() == 0 {
                Ok(value)
            } else {
                Err(ReadRefusal::BadValue(bytes.len() - rest.len()))
            }
        }
        Err(Failure::Bad(left)) => Err(ReadRefusal::BadValue(bytes.len() - left)),
        Err(Failure::Wide(left)) => Err(ReadRefusal::OutOfRange(bytes.len() - left)),
        Err(Failure::Again(left)) => Err(ReadRefusal::DuplicateKey(bytes.len() - left)),
        Err(Failure::Memory) => Err(ReadRefusal::Memory),
    }
}
