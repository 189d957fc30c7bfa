//! What the program does with a network's text.
ghost use Rattle.std.specs.Prelude.{◌≡◌, ◌-◌, ◌<◌, ◌^◌, IfOk, OnErr};
ghost use Rattle.sf_player.specs.Counting.{failures_of, inner_of, CountsWrites};
ghost use Rattle.sfplay.specs.Tasks.{WritesText, Checks, Dumps, DoesTask};

use crate::functions::{numbers, offered};
use sf_func::{Absolute, Function, Greatest, Holds, Int1, Int2, Least, Registry, Sign};
use sf_player::{Counted, Options, PlayEnd, check_text, dump_text, play};
use sf_value::Ty;
use std::alloc::{AllocError, Global};
use std::io::{Read, Write};

/// What is done with a network's text.
#[derive(Clone, Copy, Debug, PartialEq, Eq)]
pub(crate) enum Task {
    /// The line `ok` is written where the network is accepted.
    Check,
    /// The canonical text of the network is written, accepted or not.
    Dump,
    /// Input lines are played through the network.
    Play(Options),
}

/// Writes a text and flushes it.
fn say<W: Write>(writer: &mut Counted<W>, text: &[u8]) -> PlayEnd
    requires { failures_of writer.old < 2 ^ 64 - 1 }
    ensures written { WritesText (W.contents (inner_of writer.old)) (W.contents (inner_of writer.new)) text.now result }
    ensures counted { CountsWrites result (failures_of writer.old) (failures_of writer.new) }
{
    if writer.put(text) {
        PlayEnd::Done
    } else {
        PlayEnd::WriteFault
    }
}

/// Writes `ok` and a line feed where a text is a network that is accepted with these functions.
fn check<W: Write>(
    alloc: Global,
    net: &[u8],
    functions: &Registry,
    writer: &mut Counted<W>,
) -> PlayEnd
    requires { failures_of writer.old < 2 ^ 64 - 1 }
    ensures checked { Checks (⟦<Registry as Holds>⟧.types functions.now) net.now (W.contents (inner_of writer.old)) (W.contents (inner_of writer.new)) result }
    ensures counted { CountsWrites result (failures_of writer.old) (failures_of writer.new) }
{
    match check_text(alloc, net, functions) {
        Ok(()) => say(writer, b"ok\n"),
        Err(refusal) => PlayEnd::Network(refusal),
    }
}

/// Writes the canonical text of the network that a text is.
fn dump<W: Write>(alloc: Global, net: &[u8], writer: &mut Counted<W>) -> PlayEnd
    requires { failures_of writer.old < 2 ^ 64 - 1 }
    ensures dumped { Dumps net.now (W.contents (inner_of writer.old)) (W.contents (inner_of writer.new)) result }
    ensures counted { CountsWrites result (failures_of writer.old) (failures_of writer.new) }
{
    match dump_text(alloc, net) {
        Ok(text) => say(writer, &text),
        Err(refusal) => PlayEnd::Network(refusal),
    }
}

/// Does what is asked for with the network that a text is, which may call `abs`, `sign`, `max` and `min`. The error is want of
/// memory for these functions, with nothing read or written.
pub(crate) fn perform<R: Read, W: Write>(
    alloc: Global,
    net: &[u8],
    task: Task,
    reader: &mut Counted<R>,
    writer: &mut Counted<W>,
) -> Result<PlayEnd, AllocError>
    requires reads { failures_of reader.old < 2 ^ 64 - 1 }
    requires writes { failures_of writer.old < 2 ^ 64 - 1 }
    // What was read and written, by what the text is and by the meaning of the network with these functions.
    ensures done { IfOk result (λ end. DoesTask task net.now
        (R.remaining (inner_of reader.old)) (R.remaining (inner_of reader.new))
        (W.contents (inner_of writer.old)) (W.contents (inner_of writer.new)) end) }
    ensures unread { OnErr result (reader.new ≡ reader.old) }
    ensures unwritten { OnErr result (writer.new ≡ writer.old) }
{
    let abs: Box<dyn Function> = Box::new(alloc, Int1::new(Absolute))?;
    let functions = Registry::new(alloc);
    let functions = offered(alloc, functions, "abs", Ty::int(), Ty::int(), abs)?;
    let sign: Box<dyn Function> = Box::new(alloc, Int1::new(Sign))?;
    let functions = offered(alloc, functions, "sign", Ty::int(), Ty::int(), sign)?;
    let max: Box<dyn Function> = Box::new(alloc, Int2::new(Greatest))?;
    let from = numbers(alloc)?;
    let functions = offered(alloc, functions, "max", from, Ty::int(), max)?;
    let min: Box<dyn Function> = Box::new(alloc, Int2::new(Least))?;
    let from = numbers(alloc)?;
    let functions = offered(alloc, functions, "min", from, Ty::int(), min)?;
    match task {
        Task::Check => Ok(check(alloc, net, &functions, writer)),
        Task::Dump => Ok(dump(alloc, net, writer)),
        Task::Play(options) => Ok(play(alloc, net, reader, writer, functions, options)),
    }
}
