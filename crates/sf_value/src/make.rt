//! Values from their parts, and back.
ghost use Rattle.std.specs.Prelude.{◌≡◌, IfOk, string_bytes};
ghost use Rattle.sf_value.specs.Values.{unit, truth, number, text, pair, no_event, event};
ghost use Rattle.sf_value.specs.View.{key_of, data_of, IsProper, IsFilled};

use crate::value::{Form, Key, Pair, Value};
use std::alloc::{AllocError, Global};
use std::rc::Rc;

impl Value {
    /// The only value of its type.
    pub fn unit() -> Value
        ensures { result ≡ unit }
    {
        Value { form: Form::Unit }
    }

    /// True or false.
    pub fn bool(b: bool) -> Value
        ensures { result ≡ truth b }
    {
        Value {
            form: Form::Bool(b),
        }
    }

    /// A whole number.
    pub fn int(n: i64) -> Value
        ensures { result ≡ number n }
    {
        Value { form: Form::Int(n) }
    }

    /// A text.
    pub fn text(alloc: Global, s: String) -> Result<Value, AllocError>
        ensures { IfOk result (λ v. v ≡ text (string_bytes s)) }
    {
        let _utf8 = s.as_str();
        let shared = Rc::new(alloc, s)?;
        Ok(Value {
            form: Form::Text(shared),
        })
    }

    /// A text that is shared. It takes no memory.
    pub fn of_text(shared: Rc<String>) -> Value
        ensures { result ≡ text (string_bytes shared.value) }
    {
        let _utf8 = shared.as_str();
        Value {
            form: Form::Text(shared),
        }
    }

    /// A pair of two values.
    pub fn pair(alloc: Global, first: Value, second: Value) -> Result<Value, AllocError>
        ensures { IfOk result (λ v. v ≡ pair first second) }
    {
        let halves = Rc::new(alloc, Pair { first, second })?;
        Ok(Value::of_pair(halves))
    }

    /// The pair of two halves in their node, which may be shared. It takes no memory.
    pub fn of_pair(halves: Rc<Pair>) -> Value
        ensures { result ≡ pair halves.value.first halves.value.second }
    {
        Value {
            form: Form::Pair(halves),
        }
    }

    /// No event.
    pub fn no_event() -> Value
        ensures { result ≡ no_event }
    {
        Value {
            form: Form::NoEvent,
        }
    }

    /// An event with a payload. That of the unit takes no memory.
    pub fn event(alloc: Global, payload: Value) -> Result<Value, AllocError>
        ensures { IfOk result (λ v. v ≡ event payload) }
    {
        if let Form::Unit = payload.form() {
            return Ok(Value {
                form: Form::UnitEvent,
            });
        }
        let payload = Rc::new(alloc, payload)?;
        Ok(Value {
            form: Form::Event(payload),
        })
    }

    /// What the value is made of.
    pub fn form(&self) -> &Form
        ensures data { data_of result.now ≡ self.now }
        ensures proper { IsProper self.now }
        ensures filled { IsFilled result.now }
    {
        &self.form
    }

    /// A copy of the value, which shares what it is made of. It takes no memory, however large the value is.
    #[inline(always)]
    pub fn clone_in(&self, _alloc: Global) -> Result<Value, AllocError>
        ensures { IfOk result (λ v. v ≡ self.now) }
    {
        let form = match &self.form {
            Form::Unit => Form::Unit,
            Form::Bool(b) => Form::Bool(*b),
            Form::Int(n) => Form::Int(*n),
            Form::NoEvent => Form::NoEvent,
            Form::UnitEvent => Form::UnitEvent,
            // what holds something takes a call
            _ => return self.shared(),
        };
        Ok(Value { form })
    }

    // A copy of the value, which shares what it is made of.
    #[inline(never)]
    pub(crate) fn shared(&self) -> Result<Value, AllocError>
        ensures { IfOk result (λ v. v ≡ self.now) }
    {
        let form = match &self.form {
            Form::Unit => Form::Unit,
            Form::Bool(b) => Form::Bool(*b),
            Form::Int(n) => Form::Int(*n),
            Form::Text(s) => Form::Text(s.clone()?),
            Form::Pair(halves) => Form::Pair(halves.clone()?),
            Form::NoEvent => Form::NoEvent,
            Form::UnitEvent => Form::UnitEvent,
            Form::Event(payload) => Form::Event(payload.clone()?),
            Form::Table(rows) => Form::Table(rows.clone()?),
        };
        Ok(Value { form })
    }
}

impl Key {
    /// A copy of the key, which shares its text. It takes no memory.
    #[inline]
    pub fn clone_in(&self, _alloc: Global) -> Result<Key, AllocError>
        ensures { IfOk result (λ k. key_of k ≡ key_of self.now) }
    {
        match self {
            Key::Int(n) => Ok(Key::Int(*n)),
            Key::Text(s) => Ok(Key::Text(s.clone()?)),
        }
    }
}
