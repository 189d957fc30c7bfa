//! What a `loopPre` feeds back.
ghost use Rattle.std.specs.Prelude.{◌≡◌, IfOk, OnOk};
ghost use Rattle.sf_value.specs.Values.{pair, first_of, second_of};

use sf_value::{Pair, Value};
use std::alloc::{AllocError, Global};
use std::marker::Model;
use std::mem;
use std::rc::Rc;

/// The value that a `loopPre` feeds its part with next, beside the input.
pub struct Feedback {
    next: Value,
    // a node for the next pair, which takes the place of a new one
    room: Option<Rc<Pair>>,
}

impl Drop for Feedback {
    #[inline]
    fn drop(self) {
        let Feedback { next, room } = self;
        drop(next);
        drop(room);
    }
}

impl Model for Feedback {
    ghost use Rattle.std.specs.Prelude.{List};
    ghost use Rattle.std.specs.Coded.{code_by, codes};
    ghost use Rattle.sf_value.specs.Values.{Data};
    ghost use Rattle.sf_value.specs.Codes.{Mark, marks_of, decoded_data, decoded_data-marks_of};

    ghost Value = { Data };

    ghost coded = { code_by (List Mark) (Prim.hlevel codes) marks_of decoded_data decoded_data-marks_of };

    ghost view = { λ a. a.next };
}

impl Feedback {
    /// What is fed back at first.
    pub fn new(first: Value) -> Feedback
        ensures { result ≡ first }
    {
        Feedback {
            next: first,
            room: None,
        }
    }

    /// A copy, which shares what the value is made of. It takes no memory; the error is too many owners.
    pub fn clone_in(&self, alloc: Global) -> Result<Feedback, AllocError>
        ensures { IfOk result (λ copy. copy ≡ self.now) }
    {
        let next = self.next.clone_in(alloc)?;
        Ok(Feedback { next, room: None })
    }

    /// An input beside what is fed back. It takes memory at the first sample alone, and where the last pair was shared.
    /// The input's place then holds any value.
    pub fn beside(&mut self, alloc: Global, input: &mut Value) -> Result<Value, AllocError>
        ensures both { IfOk result (λ both. both ≡ pair input.old self.old) }
        ensures same { self.new ≡ self.old }
    {
        let next = self.next.clone_in(alloc)?;
        if let Some(mut node) = self.room.take() {
            if let Some(own) = Rc::get_mut(&mut node) {
                mem::swap(&mut own.first, input);
                own.second = next;
                return Ok(Value::of_pair(node));
            }
        }
        Value::pair(alloc, mem::replace(input, Value::int(0)), next)
    }

    /// Takes apart the pair that came out: its first half, the output, takes the place of a value, and its second half is
    /// fed back next. Where nothing else has its node, that is room for the next pair. A value that is no pair stands for
    /// both halves.
    #[inline(always)]
    pub fn keep(&mut self, alloc: Global, both: Value, value: &mut Value) -> Result<(), AllocError>
        ensures output { OnOk result (value.new ≡ first_of both) }
        ensures next { OnOk result (self.new ≡ second_of both) }
    {
        let mut node = both.into_pair(alloc)?;
        match Rc::get_mut(&mut node) {
            Some(own) => {
                mem::swap(&mut own.first, value);
                self.next = mem::replace(&mut own.second, Value::int(0));
                self.room = Some(node);
            }
            None => {
                *value = node.first.clone_in(alloc)?;
                self.next = node.second.clone_in(alloc)?;
            }
        }
        Ok(())
    }
}
