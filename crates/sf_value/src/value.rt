//! Values.
use crate::keys::Keys;
use std::marker::Model;
use std::rc::Rc;

/// A value, whose numbers are within signed 64 bits and whose tables have different keys.
///
/// What a text, a pair, an event or a table holds is shared: a copy of a value copies no content.
#[cycle(value)]
pub struct Value {
    pub(crate) form: Form,
}

impl Value {
    ghost use Rattle.std.specs.Prelude.{◌≡◌};
    ghost use Rattle.sf_value.specs.View.{data_of, IsProper, IsFilled};

    /// What the value is made of, taken out of it.
    pub fn into_form(self) -> Form
        ensures data { data_of result ≡ self }
        ensures proper { IsProper self }
        ensures filled { IsFilled result }
    {
        let Value { form } = self;
        form
    }
}

// Written out, so that the crates above let go of a value by one call.
impl Drop for Value {
    #[cycle(value)]
    #[inline(always)]
    fn drop(self) {
        let Value { form } = self;
        match form {
            // what holds nothing needs no call
            Form::Unit | Form::Bool(_) | Form::Int(_) | Form::NoEvent | Form::UnitEvent => {}
            form => drop(form),
        }
    }
}

/// What a value is made of.
#[derive(Drop)]
#[cycle(value)]
pub enum Form {
    /// The only value of its type.
    Unit,
    /// True or false.
    Bool(bool),
    /// A whole number.
    Int(i64),
    /// A text.
    Text(Rc<String>),
    /// Two values.
    Pair(Rc<Pair>),
    /// No event.
    NoEvent,
    /// An event of the unit, which needs no node.
    UnitEvent,
    /// An event with its payload, which is not the unit.
    Event(Rc<Value>),
    /// Values under keys, in order.
    Table(Rc<Table>),
}

/// The two halves of a pair.
#[derive(Drop)]
#[cycle(value)]
pub struct Pair {
    /// The first value.
    pub first: Value,
    /// The second value.
    pub second: Value,
}

/// Values under different keys, in order.
#[derive(Drop)]
#[cycle(value)]
pub struct Table {
    // the keys, which tables under the same keys share
    pub(crate) keys: Rc<Keys>,
    // the value under each of them, at its place
    pub(crate) values: Vec<Value>,
}

/// The rows of a table: its keys in order, and the value under each at the same place.
#[derive(Clone, Copy)]
pub struct Rows<'a> {
    /// The keys, which are different.
    pub keys: &'a [Key],
    /// The value under each of them, at its place.
    pub values: &'a [Value],
}

/// A key of a table.
pub enum Key {
    /// A whole number.
    Int(i64),
    /// A text.
    Text(Rc<String>),
}

impl Drop for Key {
    #[inline(always)]
    fn drop(self) {
        match self {
            Key::Int(_) => {}
            Key::Text(text) => drop(text),
        }
    }
}

impl Model for Value {
    ghost use Rattle.sf_value.specs.Values.{Data, count};
    ghost use Rattle.std.specs.Prelude.{List};
    ghost use Rattle.std.specs.Coded.{code_by, codes};
    ghost use Rattle.sf_value.specs.Codes.{Mark, marks_of, decoded_data, decoded_data-marks_of};

    ghost Value = { Data };

    ghost coded = { code_by (List Mark) (Prim.hlevel codes) marks_of decoded_data decoded_data-marks_of };

    ghost use Rattle.sf_value.specs.View.{data_of, IsProper, IsFilled};

    ghost view = { λ a. data_of a.form };

    ghost invariant = { λ a. IsProper (data_of a.form) × IsFilled a.form };

    ghost size = { count };

    ghost use Rattle.sf_value.specs.Falls.{deep_le-count};

    ghost size_decreases = { λ a h. deep_le-count a.form h.1 };
}
