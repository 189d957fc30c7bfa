//! Lines that keep a life, or return to one.
ghost use Rattle.std.specs.Prelude.{◌≡◌, ◌≢◌, Some, None};
ghost use Rattle.sf_player.specs.Playing.{saving_refusal};

use sf_engine::EngineError;
use sf_lines::LineRefusal;

/// The refusal of a line at which the engine keeps nothing, or doesn't return.
pub(crate) fn refusal_of(error: EngineError) -> LineRefusal
    requires { saving_refusal error ≢ None }
    ensures { saving_refusal error ≡ Some result }
{
    match error {
        EngineError::NoSave => LineRefusal::NoSave,
        EngineError::TooManySaves => LineRefusal::TooManySaves,
        EngineError::Memory => LineRefusal::Memory,
        _ => unreachable!(),
    }
}
