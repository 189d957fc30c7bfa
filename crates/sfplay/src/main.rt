//! Plays the lines of standard input through a network, checks its text or writes it anew.
#![tactic(auto)]

mod functions;
mod task;

use crate::task::{Task, perform};
use clap::{Arg, ArgAction, ArgMatches, Command, Error};
use sf_player::{Counted, Options, PlayEnd, Refusal};
use std::alloc::{AllocError, Global};
use std::fs::File;
use std::io::Read;
use std::process::ExitCode;
use std::rt::{Env, Files};
use std::{env, io};

/// The exit status where the words of the command line are refused, or ask for help or the version.
const WORDS_REFUSED: u8 = 2;
/// The exit status where the network can't be read.
const UNREADABLE: u8 = 6;
/// One byte more than a network's text may have.
const MOST_READ: u64 = 1_048_577;

const VERSION: &str = "0.1.0";

const ABOUT: &str = "Plays the lines of standard input through a network of signal functions";

const LONG_ABOUT: &str = "\
Plays the lines of standard input through a network of signal functions, and
writes what the network gives for them to standard output.

An input line is a time step in milliseconds and a value, as in `16 42`; the
first step is 0. With `=` in place of the value the input is unchanged. An
empty line, or one that begins with `#`, gives nothing. Each sample gives a
line `> TIME VALUE`. With `--probes` there is before it a line `? NAME VALUE`
for what each probe recorded, in order. The first fault or refused line ends
the run, with a line that begins with `!`.

Networks may call the functions `abs` and `sign` of a number, and `max` and
`min` of a pair of numbers.";

const NET: &str = "The file that has the network's text";

const PLAIN: &str =
    "Runs the network as it is written; without it, laws are applied that make it do less work";

const PROBES: &str = "Writes what probes record, before the value of each sample";

const CHECK: &str = "Writes `ok` where the network is accepted, and runs nothing; wins over --dump";

const DUMP: &str = "Writes the canonical text of the network, accepted or not, and runs nothing";

const STATUSES: &str = "\
Exit statuses:
  0  the whole input was played, or the network was checked or dumped
  2  the words of the command line are refused, or ask for help or the version
  3  a sample had a fault; the last line is `! TIME FAULT`
  4  an input line was refused; the last line is `! line NUMBER REFUSAL`
  5  the network was refused; standard error names the rule and its place
  6  the network or the input could not be read, or the output not be written";

/// A word that asks for something by standing there.
fn flag<'a>(alloc: Global, name: &'a str, help: &'a str) -> Arg<'a> {
    Arg::new(alloc, name)
        .long(name)
        .help(help)
        .action(ArgAction::SetTrue)
}

/// What the words of the command line ask for.
fn matches<'a>(alloc: Global, words: &'a [String]) -> Result<ArgMatches<'a>, Error> {
    Command::new(alloc, "sfplay")
        .version(VERSION)
        .about(ABOUT)
        .long_about(LONG_ABOUT)
        .after_long_help(STATUSES)
        .arg(
            Arg::new(alloc, "NET")
                .help(NET)
                .required(true)
                .action(ArgAction::Set),
        )?
        .arg(flag(alloc, "plain", PLAIN))?
        .arg(flag(alloc, "probes", PROBES))?
        .arg(flag(alloc, "check", CHECK))?
        .arg(flag(alloc, "dump", DUMP))?
        .try_get_matches_from(words)
}

/// The words of the command line.
fn words<R: Env + Alloc<A = Global>>(rt: &R) -> io::Result<Vec<String>> {
    let mut words = Vec::new(rt.alloc());
    for word in env::args(rt)? {
        words.push(word)?;
    }
    Ok(words)
}

/// The text of a network in a file, up to one byte more than it may have.
fn network<R: Files + Alloc<A = Global>>(rt: &R, path: &str) -> io::Result<Vec<u8>> {
    let mut text = Vec::new(rt.alloc());
    File::open(rt, path)?
        .take(MOST_READ)
        .read_to_end(&mut text)?;
    Ok(text)
}

/// What the words ask for: a check wins over the canonical text, and both over the input.
fn asked(matches: &ArgMatches) -> Task {
    if matches.get_flag("check") {
        return Task::Check;
    }
    if matches.get_flag("dump") {
        return Task::Dump;
    }
    Task::Play(Options {
        plain: matches.get_flag("plain"),
        probes: matches.get_flag("probes"),
    })
}

fn main(rt: HostRuntime) -> ExitCode {
    let alloc = rt.alloc();
    let Ok(words) = words(&rt) else {
        return ExitCode::from(WORDS_REFUSED);
    };
    let matches = match matches(alloc, words.as_slice()) {
        Ok(matches) => matches,
        Err(error) => {
            let _ = eprint!(&rt; "{error}");
            return ExitCode::from(WORDS_REFUSED);
        }
    };
    let Some(path) = matches.get_str("NET") else {
        return ExitCode::from(WORDS_REFUSED);
    };
    let Ok(net) = network(&rt, path) else {
        let _ = eprintln!(&rt; "sfplay: read fault");
        return ExitCode::from(UNREADABLE);
    };
    let mut reader = Counted::new(rt.reader());
    let mut writer = Counted::new(io::writer(&rt));
    let task = asked(&matches);
    let end = match perform(alloc, net.as_slice(), task, &mut reader, &mut writer) {
        Ok(end) => end,
        Err(AllocError) => PlayEnd::Network(Refusal::Memory),
    };
    report(&rt, end);
    ExitCode::from(end.status())
}

/// Says on standard error why there is no whole script, where the output doesn't.
fn report<R: Eprint>(rt: &R, end: PlayEnd) {
    let _ = match end {
        PlayEnd::Done | PlayEnd::Fault | PlayEnd::BadLine => Ok(()),
        PlayEnd::Network(refusal) => eprintln!(rt; "sfplay: {refusal}"),
        PlayEnd::ReadFault => eprintln!(rt; "sfplay: read fault"),
        PlayEnd::WriteFault => eprintln!(rt; "sfplay: write fault"),
    };
}
