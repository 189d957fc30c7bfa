//! Code with names around it, and their values.
ghost use Rattle.std.specs.Prelude.{◌≡◌, IfOk, option_to_list};
ghost use Rattle.sf_expr.specs.Evaluation.{Scope};
ghost use Rattle.sf_expr.specs.Expressions.{Function};
ghost use Rattle.sf_func.specs.Registries.{AnswersByName};
ghost use Rattle.sf_code.specs.Around.{pattern_around};
ghost use Rattle.sf_code.specs.Names.{scope_with};
ghost use Rattle.sf_code.specs.Worth.{pattern_values, frame_around, IsCodeOfFunction, IsClosureOf};

use crate::around::Around;
use crate::code::Code;
use crate::names::Names;
use sf_value::Value;
use std::alloc::{AllocError, Global};
use std::rc::Rc;

/// Code of which names from around it are places in its outermost frame: it is made once, and serves wherever these names
/// have values.
#[derive(Drop)]
pub struct OpenCode {
    /// The code.
    pub code: Code,
    /// The names around it, in the shape of its outermost frame; none where it has no such name.
    pub around: Option<Box<Around>>,
}

impl OpenCode {
    /// The value of its outermost frame: of the names around it, in their shape. The error is a want of memory.
    pub fn frame<N: Names>(&self, alloc: Global, names: &N) -> Result<Option<Value>, AllocError>
        ensures { IfOk result (λ frame. (f : AnswersByName) → option_to_list frame ≡ frame_around (N.expressions names.now) self.now.around (scope_with (N.values names.now) f)) }
    {
        match &self.around {
            None => Ok(None),
            Some(around) => Ok(Some(gathered(alloc, around, names)?)),
        }
    }
}

// The values of names, in their shape.
fn gathered<N: Names>(alloc: Global, around: &Around, names: &N) -> Result<Value, AllocError>
    ensures { IfOk result (λ value. (f : AnswersByName) → value ≡ pattern_values (scope_with (N.values names.now) f) (pattern_around (N.expressions names.now) around.now)) }
{
    match around {
        Around::Nothing => Ok(Value::unit()),
        Around::Name(name) => match names.value(*name) {
            Some(value) => value.clone_in(alloc),
            None => Ok(Value::int(0)),
        },
        Around::Both(first, second) => {
            let first = gathered(alloc, first, names)?;
            let second = gathered(alloc, second, names)?;
            Value::pair(alloc, first, second)
        }
    }
}

/// A function's code over the values of the names around it.
#[derive(Drop)]
pub struct Closure {
    /// The code, which it shares with its plan.
    pub function: Rc<OpenCode>,
    /// The value of its outermost frame, if it has one.
    pub around: Option<Value>,
}

impl Closure {
    /// A function with these names around it. The error is a want of memory, or too many owners of the code.
    pub fn new<N: Names>(
        alloc: Global,
        function: &Rc<OpenCode>,
        names: &N,
    ) -> Result<Closure, AllocError>
        ensures made { IfOk result (λ closure. (f : AnswersByName) (g : Function) → IsCodeOfFunction (N.expressions names.now) g function.now.value →
            IsClosureOf (scope_with (N.values names.now) f) g closure) }
        ensures bare { function.now.value.around ≡ None → IfOk result (λ closure. closure.around ≡ None) }
    {
        let around = function.frame(alloc, names)?;
        let function = function.clone()?;
        Ok(Closure { function, around })
    }

    /// A copy, which shares the code. The error is too many owners.
    pub fn clone_in(&self, alloc: Global) -> Result<Closure, AllocError>
        ensures { IfOk result (λ copy. (s : Scope) (g : Function) → IsClosureOf s g self.now → IsClosureOf s g copy) }
    {
        let around = match &self.around {
            Some(value) => Some(value.clone_in(alloc)?),
            None => None,
        };
        let function = self.function.clone()?;
        Ok(Closure { function, around })
    }
}
