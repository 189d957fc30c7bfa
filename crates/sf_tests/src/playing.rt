//! A read or a write that fails in mid-stream.
use sf_func::Registry;
use sf_player::{Counted, Options, PlayEnd, play};
use std::alloc::Global;
use std::io::{self, Error, ErrorKind, Read, Write};
use std::test::Fail;

const DELAY: &[u8] = b"network 1;\ntemplate main(): Int ~> Int = iPre 7;\n";

/// A reader that gives four bytes at a time, and fails at its second call, if it is to.
#[derive(Drop)]
struct Pieces<'a> {
    rest: &'a [u8],
    has_begun: bool,
    fails: bool,
}

impl Read for Pieces<'_> {
    fn read(&mut self, buf: &mut [u8]) -> io::Result<usize> {
        if self.fails && self.has_begun {
            return Err(Error::from(ErrorKind::BrokenPipe));
        }
        self.has_begun = true;
        let n = 4usize.min(self.rest.len()).min(buf.len());
        buf[..n].copy_from_slice(&self.rest[..n]);
        self.rest = &self.rest[n..];
        Ok(n)
    }
}

/// What a writer does that fails.
#[derive(Clone, Copy, PartialEq, Eq)]
enum Failure {
    Never,
    ErrsAtItsSecondWrite,
    TakesNoneAtItsSecondWrite,
    ErrsAtFlush,
}

/// A writer that takes three bytes at a time.
#[derive(Drop)]
struct Slow {
    held: Vec<u8>,
    failure: Failure,
}

impl Write for Slow {
    fn write(&mut self, buf: &[u8]) -> io::Result<usize> {
        if !self.held.is_empty() {
            match self.failure {
                Failure::ErrsAtItsSecondWrite => return Err(Error::from(ErrorKind::BrokenPipe)),
                Failure::TakesNoneAtItsSecondWrite => return Ok(0),
                Failure::Never | Failure::ErrsAtFlush => {}
            }
        }
        let n = 3usize.min(buf.len());
        self.held.extend_from_slice(&buf[..n])?;
        Ok(n)
    }

    fn flush(&mut self) -> io::Result<()> {
        if self.failure == Failure::ErrsAtFlush {
            return Err(Error::from(ErrorKind::BrokenPipe));
        }
        Ok(())
    }
}

/// How a run ended, what it wrote, and how many reads and writes failed.
#[derive(Drop)]
pub(crate) struct Outcome {
    pub(crate) end: PlayEnd,
    pub(crate) text: Vec<u8>,
    reads: u64,
    writes: u64,
}

/// A run of a network with these functions.
fn ended(
    alloc: Global,
    net: &[u8],
    functions: Registry,
    input: Pieces,
    failure: Failure,
) -> Outcome {
    let mut reader = Counted::new(input);
    let mut writer = Counted::new(Slow {
        held: Vec::new(alloc),
        failure,
    });
    let options = Options {
        plain: true,
        probes: false,
    };
    let end = play(alloc, net, &mut reader, &mut writer, functions, options);
    Outcome {
        end,
        reads: reader.failures(),
        writes: writer.failures(),
        text: writer.into_inner().held,
    }
}

/// A run of a network with these functions on lines.
pub(crate) fn played(alloc: Global, net: &[u8], functions: Registry, lines: &[u8]) -> Outcome {
    let input = Pieces {
        rest: lines,
        has_begun: false,
        fails: false,
    };
    ended(alloc, net, functions, input, Failure::Never)
}

/// A run of a delay on two lines.
fn run(rt: &HostRuntime, fails: bool, failure: Failure) -> Outcome {
    let alloc = rt.alloc();
    let input = Pieces {
        rest: b"0 1\n16 2\n",
        has_begun: false,
        fails,
    };
    ended(alloc, DELAY, Registry::new(alloc), input, failure)
}

/// Whether a run with this failure of its writer ends by a write fault, counts it and leaves this text.
fn leaves(rt: &HostRuntime, failure: Failure, text: &[u8]) -> bool {
    let run = run(rt, false, failure);
    run.end == PlayEnd::WriteFault && run.text.as_slice() == text && run.writes == 1
}

#[test]
fn a_read_or_a_write_fails(rt: HostRuntime) -> Result<(), Fail> {
    let run = run(&rt, true, Failure::Never);
    assert_eq!(rt; run.end, PlayEnd::ReadFault);
    // All output of a line is written before more is read.
    assert_eq!(rt; run.text.as_slice(), b"> 0 7\n".as_slice());
    assert_eq!(rt; (run.reads, run.writes), (1, 0));
    assert!(rt; leaves(&rt, Failure::ErrsAtItsSecondWrite, b"> 0"));
    assert!(rt; leaves(&rt, Failure::TakesNoneAtItsSecondWrite, b"> 0"));
    assert!(rt; leaves(&rt, Failure::ErrsAtFlush, b"> 0 7\n"));
    Ok(())
}

#[test]
fn lines_that_save_and_return_come_in_pieces(rt: HostRuntime) -> Result<(), Fail> {
    let alloc = rt.alloc();
    let net = b"network 1;\ntemplate main(): Int ~> Int = integral;\n";
    let lines = b"0 1\n10 2\nsave a\n5 3\nback a\n7 =\n1 0";
    let run = played(alloc, net, Registry::new(alloc), lines);
    assert_eq!(rt; run.end, PlayEnd::Done);
    let text = b"> 0 0\n> 10 10\n> 15 20\n> 17 24\n> 18 26\n";
    assert_eq!(rt; run.text.as_slice(), text.as_slice());
    Ok(())
}
