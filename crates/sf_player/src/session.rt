//! Runs from a network's text and an input to an output.
ghost use Rattle.std.specs.Prelude.{◌≡◌, ℕ, ◌-◌, ◌<◌, ◌^◌, Bool, List, [], Option, ◌≢◌};
ghost use Rattle.std.specs.Io.KnownBytes.{IsAtEnd};
ghost use Rattle.sf_term.specs.Trees.{Template};
ghost use Rattle.sf_term.specs.Arena.{templates_of};
ghost use Rattle.sf_mean.specs.Meaning.{Network};
ghost use Rattle.sf_mean.specs.Typing.{Accepted};
ghost use Rattle.sf_text.specs.Spelling.{IsNetworkText};
ghost use Rattle.sf_check.specs.Accepting.{accepted_program};
ghost use Rattle.sf_player.specs.Counting.{inner_of, failures_of, CountsReads, CountsWrites};
ghost use Rattle.sf_player.specs.Telling.{Told, Plays};
ghost use Rattle.sf_player.specs.Playing.{Played, IsFresh};

use crate::counted::Counted;
use crate::end::PlayEnd;
use crate::options::Options;
use crate::player::Player;
use sf_accept::read_accepted;
use sf_check::Checked;
use sf_engine::{Engine, Mode};
use sf_func::{Holds, Registry};
use sf_lines::{LineRefusal, write_refusal};
use sf_refusal::Refusal;
use std::alloc::Global;
use std::io::{Read, Write};

/// Plays the lines of an input through the network that a text is, and writes what its meaning gives for them.
///
/// The network calls the functions of the registry. It is read and accepted first; where it is refused, nothing is read or
/// written, and the end names the first rule that it breaks and the place where it breaks it. Each sample gives
/// `> T VALUE`, behind `? NAME VALUE` for each reading of it, in order, where the options ask for them; a line that saves or returns gives nothing; the first fault or refused line, `! T FAULT` or
/// `! line N REFUSAL`, ends the run. `Memory` is such a refusal only of a line whose value is read, of one that saves or
/// returns, or of line 1 before any is read. All output of a line is written and flushed before more is read.
pub fn play<R: Read, W: Write>(
    alloc: Global,
    net: &[u8],
    reader: &mut Counted<R>,
    writer: &mut Counted<W>,
    functions: Registry,
    options: Options,
) -> PlayEnd
    requires reads { failures_of reader.old < 2 ^ 64 - 1 }
    requires writes { failures_of writer.old < 2 ^ 64 - 1 }
    // What was read and written, by the meaning of the network.
    ensures told { Plays options.probes (⟦<Registry as Holds>⟧.types functions) (⟦<Registry as Holds>⟧.answers functions) net.now
        (R.remaining (inner_of reader.old)) (R.remaining (inner_of reader.new))
        (W.contents (inner_of writer.old)) (W.contents (inner_of writer.new)) result }
    ensures end { result ≡ PlayEnd.Done → IsAtEnd (R.remaining (inner_of reader.new)) }
    ensures reader { CountsReads result (failures_of reader.old) (failures_of reader.new) }
    ensures writer { CountsWrites result (failures_of writer.old) (failures_of writer.new) }
{
    match read_accepted(alloc, net, &functions) {
        Err(refusal) => PlayEnd::Network(refusal),
        Ok(checked) => play_accepted(alloc, checked, reader, writer, functions, options),
    }
}

/// Plays an input through an accepted network.
fn play_accepted<F: Holds + Drop, R: Read, W: Write>(
    alloc: Global,
    checked: Checked,
    reader: &mut Counted<R>,
    writer: &mut Counted<W>,
    functions: F,
    options: Options,
) -> PlayEnd
    requires fits { Accepted (F.types functions) (templates_of (accepted_program checked)) }
    requires reads { failures_of reader.old < 2 ^ 64 - 1 }
    requires writes { failures_of writer.old < 2 ^ 64 - 1 }
    ensures told { (net : List ℕ) → IsNetworkText net (templates_of (accepted_program checked)) →
        Plays options.probes (F.types functions) (F.answers functions) net
        (R.remaining (inner_of reader.old)) (R.remaining (inner_of reader.new))
        (W.contents (inner_of writer.old)) (W.contents (inner_of writer.new)) result }
    ensures end { result ≡ PlayEnd.Done → IsAtEnd (R.remaining (inner_of reader.new)) }
    ensures reader { CountsReads result (failures_of reader.old) (failures_of reader.new) }
    ensures writer { CountsWrites result (failures_of writer.old) (failures_of writer.new) }
{
    let mode = if options.plain {
        Mode::Plain
    } else {
        Mode::Optimised
    };
    match Engine::new(alloc, checked, functions, mode) {
        Err(_) => PlayEnd::Network(Refusal::Memory),
        Ok(engine) => match Player::new(alloc, engine, options.probes) {
            Ok(player) => run(player, reader, writer),
            Err(_) => refuse_lines(writer),
        },
    }
}

/// Plays an input from its start.
fn run<F: Holds + Drop, R: Read, W: Write>(
    player: Player<F>,
    reader: &mut Counted<R>,
    writer: &mut Counted<W>,
) -> PlayEnd
    requires fresh { IsFresh player }
    requires reads { failures_of reader.old < 2 ^ 64 - 1 }
    requires writes { failures_of writer.old < 2 ^ 64 - 1 }
    ensures told { (probes : Bool) (n : Network) (m : Template) → Played probes n m [] [] player → Told probes n m
        (R.remaining (inner_of reader.old)) (R.remaining (inner_of reader.new))
        (W.contents (inner_of writer.old)) (W.contents (inner_of writer.new)) result }
    ensures end { result ≡ PlayEnd.Done → IsAtEnd (R.remaining (inner_of reader.new)) }
    ensures reader { CountsReads result (failures_of reader.old) (failures_of reader.new) }
    ensures writer { CountsWrites result (failures_of writer.old) (failures_of writer.new) }
{
    let mut player = player;
    let mut buf = [0u8; 8192];
    loop {
        let Some(size) = reader.read_some(&mut buf) else {
            return PlayEnd::ReadFault;
        };
        if size == 0 {
            let stop = player.finish();
            if let Some(end) = player.write_out(stop, writer) {
                return end;
            }
            return PlayEnd::Done;
        }
        let stop = player.feed(&buf[..size]);
        if let Some(end) = player.write_out(stop, writer) {
            return end;
        }
    }
}

/// Says that there is no memory for lines.
fn refuse_lines<W: Write>(writer: &mut Counted<W>) -> PlayEnd
    requires { failures_of writer.old < 2 ^ 64 - 1 }
    ensures told { (probes : Bool) (n : Network) (m : Template) (input : Option (List ℕ)) → Told probes n m input input
        (W.contents (inner_of writer.old)) (W.contents (inner_of writer.new)) result }
    ensures end { result ≢ PlayEnd.Done }
    ensures reader { (count : ℕ) → CountsReads result count count }
    ensures writer { CountsWrites result (failures_of writer.old) (failures_of writer.new) }
{
    if writer.put(write_refusal(1, LineRefusal::Memory).as_bytes()) {
        PlayEnd::BadLine
    } else {
        PlayEnd::WriteFault
    }
}
