//! What members gave at the sample of an edit, which takes the places of those of the edit.
ghost use Rattle.std.specs.Prelude.{◌≡◌, None, IfOk, OnOk, length};
ghost use Rattle.std.specs.Option.{unwrap_or};
ghost use Rattle.sf_value.specs.Values.{Data, table};
ghost use Rattle.sf_value.specs.View.{keyed_rows};
ghost use Rattle.sf_mean.specs.Meaning.{switched_value};
ghost use Rattle.sf_begin.specs.Drafting.{all_changed};

use crate::tables::table_of;
use sf_begin::{Change, put, take_out};
use sf_meter::Spent;
use sf_state::State;
use sf_term::Observation;
use sf_value::{Keys, Value};
use std::alloc::{AllocError, Global};
use std::rc::Rc;

/// Whether a member of an edit has had its step at the sample.
#[derive(Clone, Copy)]
pub enum Turn {
    /// It stays, and has: what the sample's meter counted of it.
    Stays(Spent),
    /// It begins, and hasn't.
    Begins,
}

/// What members gave at the sample of an edit.
#[derive(Drop)]
pub struct Noted {
    /// Their values, or the input of one that begins.
    pub outputs: Vec<Value>,
    /// Whether each has had its step.
    pub turns: Vec<Turn>,
}

/// Changes the list of members, and with it their values and turns: one that begins has the input in place of its value. For want
/// of memory not all is changed.
pub(crate) fn change_all(
    alloc: Global,
    input: &Value,
    changes: Vec<Change>,
    states: &mut Vec<State>,
    outputs: &mut Vec<Value>,
    turns: &mut Vec<Turn>,
) -> Result<(), AllocError>
    ensures states { OnOk result (states.new.items ≡ all_changed (λ a. a) changes.items states.old.items) }
    ensures outputs { OnOk result (outputs.new.items ≡ all_changed (λ a. input.now) changes.items outputs.old.items) }
    ensures turns { OnOk result (turns.new.items ≡ all_changed (λ a. Turn.Begins) changes.items turns.old.items) }
{
    for change in changes {
        match change {
            Change::Put(at, state) => {
                put(states, at, state);
                put(outputs, at, input.clone_in(alloc)?);
                put(turns, at, Turn::Begins);
            }
            Change::Add(state) => {
                states.push(state)?;
                outputs.push(input.clone_in(alloc)?)?;
                turns.push(Turn::Begins)?;
            }
            Change::Take(at) => {
                take_out(states, at);
                take_out(outputs, at);
                take_out(turns, at);
            }
        }
    }
    Ok(())
}

/// The table of the members that give way, where that is what shows, and their values, or as many others where they don't show
/// again. The error is a want of memory, or too many owners.
pub(crate) fn table_before(
    alloc: Global,
    shown: Observation,
    keys: &Rc<Keys>,
    outputs: Vec<Value>,
) -> Result<(Option<Value>, Vec<Value>), AllocError>
    ensures shows { IfOk result (λ x. (z : Data) → unwrap_or x.0 z ≡ switched_value shown (table (keyed_rows keys.now.value outputs.items)) z) }
    ensures same { IfOk result (λ x. x.0 ≡ None → x.1.items ≡ outputs.items) }
    ensures long { IfOk result (λ x. length x.1.items ≡ length outputs.items) }
{
    match shown {
        Observation::Immediate => Ok((None, outputs)),
        Observation::Delayed => {
            let count = outputs.len();
            let rows = table_of(alloc, keys, outputs)?;
            let mut others = Vec::with_capacity(alloc, count)?;
            for place in 0..count {
                others.push_reserved(Value::int(0));
            }
            Ok((Some(rows), others))
        }
    }
}

/// The table that shows: one of before, or that of the members of the edit. The error is a want of memory, or too many owners.
pub(crate) fn table_after(
    alloc: Global,
    before: Option<Value>,
    keys: &Rc<Keys>,
    outputs: Vec<Value>,
) -> Result<Value, AllocError>
    ensures { IfOk result (λ v. v ≡ unwrap_or before (table (keyed_rows keys.now.value outputs.items))) }
{
    match before {
        Some(rows) => Ok(rows),
        None => table_of(alloc, keys, outputs),
    }
}
