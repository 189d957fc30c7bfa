//! Counts the nodes that each sample of a network enters, as the network is written and as it is rewritten.
//!
//! `sfmeter NET` reads the network and the lines of standard input as `sfplay NET` does, and writes a line `PLAIN REWRITTEN` for
//! each sample that has a value in both plans. The first fault or refused line ends the run with nothing written for it. The
//! exit statuses are those of `sfplay`.
#![tactic(auto)]

mod meters;
mod stop;

ghost use Rattle.std.specs.Prelude.{◌≡◌, ◌≢◌, ◌<◌, ◌≤◌, length, IfOk};
ghost use Rattle.sf_value.specs.Values.{int_kind, pair_kind};
ghost use Rattle.sf_func.specs.Registries.{KeepsTypes};

use meters::{Counts, Meters};
use sf_check::check;
use sf_func::{Absolute, Function, Greatest, Int1, Int2, Least, Registry, Sign};
use sf_lines::{Cut, Cutter};
use sf_text::read_network;
use sf_value::Ty;
use std::alloc::{AllocError, Global};
use std::env;
use std::fs::File;
use std::io::{self, BufWriter, Read, Write};
use std::process::ExitCode;
use std::rt::{Env, Files};
use stop::Stop;

/// One byte more than a network's text may have.
const MOST_READ: u64 = 1_048_577;

/// The word of the command line, the path of the file that has the network's text.
fn path<R: Env + Alloc<A = Global>>(rt: &R) -> Result<String, Stop> {
    let mut words = env::args(rt)?;
    let (_, path, more) = (words.next(), words.next(), words.next());
    match (path, more) {
        (Some(path), None) => Ok(path),
        _ => Err(Stop::Words),
    }
}

/// The text of a network in a file, up to one byte more than it may have.
fn network<R: Files + Alloc<A = Global>>(rt: &R, path: &str) -> io::Result<Vec<u8>> {
    let mut text = Vec::new(rt.alloc());
    File::open(rt, path)?
        .take(MOST_READ)
        .read_to_end(&mut text)?;
    Ok(text)
}

/// The whole input.
fn input<R: Input + Alloc<A = Global>>(rt: &R) -> io::Result<Vec<u8>> {
    let mut bytes = Vec::new(rt.alloc());
    rt.reader().read_to_end(&mut bytes)?;
    Ok(bytes)
}

/// The type of a pair of numbers.
fn numbers(alloc: Global) -> Result<Ty, AllocError>
    ensures { IfOk result (λ ty. ty ≡ pair_kind int_kind int_kind) }
{
    match Ty::pair(alloc, Ty::int(), Ty::int()) {
        Ok(ty) => Ok(ty),
        Err(_) => Err(AllocError),
    }
}

/// The functions that networks may call with one more.
fn offered(
    alloc: Global,
    functions: Registry,
    name: &str,
    from: Ty,
    to: Ty,
    function: Box<dyn Function>,
) -> Result<Registry, AllocError>
    requires { KeepsTypes from to (answers function) }
{
    let mut functions = functions;
    match functions.add(alloc, name, from, to, function) {
        Ok(()) => Ok(functions),
        Err(_) => Err(AllocError),
    }
}

/// Reads the network that a text is, which may call `abs`, `sign`, `max` and `min`, and plays the lines of an input through
/// its two plans.
fn measure<W: Write>(alloc: Global, net: &[u8], lines: &[u8], out: &mut W) -> Result<(), Stop> {
    let abs: Box<dyn Function> = Box::new(alloc, Int1::new(Absolute))?;
    let functions = Registry::new(alloc);
    let functions = offered(alloc, functions, "abs", Ty::int(), Ty::int(), abs)?;
    let sign: Box<dyn Function> = Box::new(alloc, Int1::new(Sign))?;
    let functions = offered(alloc, functions, "sign", Ty::int(), Ty::int(), sign)?;
    let max: Box<dyn Function> = Box::new(alloc, Int2::new(Greatest))?;
    let functions = offered(alloc, functions, "max", numbers(alloc)?, Ty::int(), max)?;
    let min: Box<dyn Function> = Box::new(alloc, Int2::new(Least))?;
    let functions = offered(alloc, functions, "min", numbers(alloc)?, Ty::int(), min)?;
    let program = read_network(alloc, net)?;
    match check(alloc, program, &functions) {
        Ok(checked) => play(alloc, Meters::new(alloc, &checked, functions)?, lines, out),
        Err((refusal, _)) => Err(Stop::Network(refusal)),
    }
}

/// Plays the lines of an input, and writes the counts of each sample.
fn play<W: Write>(alloc: Global, meters: Meters, lines: &[u8], out: &mut W) -> Result<(), Stop> {
    let mut meters = meters;
    let mut cutter = Cutter::new(alloc)?;
    let mut at = 0;
    while at < lines.len() {
        at += advance(&mut meters, &mut cutter, &lines[at..], out)?;
    }
    match cutter.finish()? {
        Cut::Part => Ok(()),
        cut => play_line(&mut meters, &cutter, cut, out),
    }
}

/// Plays a line of the piece, if it completes one, or else its bytes. How many bytes were played.
fn advance<W: Write>(
    meters: &mut Meters,
    cutter: &mut Cutter,
    piece: &[u8],
    out: &mut W,
) -> Result<usize, Stop>
    ensures within { IfOk result (λ used. used ≤ length piece.now) }
    ensures some { IfOk result (λ used. length piece.now ≢ 0 → 0 < used) }
{
    match cutter.take(piece)? {
        Cut::Whole(line) => {
            write_counts(meters, line, out)?;
            Ok(line.len() + 1)
        }
        Cut::Line(used) => {
            play_line(meters, cutter, Cut::Line(used), out)?;
            Ok(used)
        }
        Cut::Part => Ok(piece.len()),
    }
}

/// Plays the line that a cutter completed, and writes the counts of its sample, if it is one.
fn play_line<W: Write>(
    meters: &mut Meters,
    cutter: &Cutter,
    cut: Cut<'_>,
    out: &mut W,
) -> Result<(), Stop> {
    let line = (&*cutter).line(cut);
    write_counts(meters, line, out)
}

/// Plays a line, and writes the counts of its sample, if it is one.
fn write_counts<W: Write>(meters: &mut Meters, line: &[u8], out: &mut W) -> Result<(), Stop> {
    match meters.play(line)? {
        Some(Counts { plain, rewritten }) => {
            writeln!(out, "{plain} {rewritten}")?;
            Ok(())
        }
        None => Ok(()),
    }
}

/// Plays the lines of standard input through the network that the word of the command line names.
fn run<R: Env + Files + Input + Print + Alloc<A = Global>>(rt: &R) -> Result<(), Stop> {
    let alloc = rt.alloc();
    let path = path(rt)?;
    let net = network(rt, path.as_str())?;
    let lines = input(rt)?;
    let mut out = BufWriter::new(alloc, io::writer(rt))?;
    let measured = measure(alloc, net.as_slice(), lines.as_slice(), &mut out);
    out.flush()?;
    measured
}

fn main(rt: HostRuntime) -> ExitCode {
    match run(&rt) {
        Ok(()) => ExitCode::SUCCESS,
        Err(stop) => {
            let _ = eprintln!(&rt; "sfmeter: {stop}");
            ExitCode::from(stop.status())
        }
    }
}
