//! Says which types do not fit in a network that is refused for them.
//!
//! `sftypes NET` writes a line `LINE:COLUMN found TYPE, wanted WHICH`, at the place for which `sfplay NET` refuses the network.
//! It writes nothing where the network is accepted, where it is refused for another rule, and where no types are told. Networks
//! may call the functions that they may call in `sfplay`. The exit statuses are those of `sfplay --dump`.
#![tactic(auto)]

mod stop;

use sf_accept::explain_text;
use sf_func::{Absolute, Greatest, Least, OnNumber, OnNumbers, Registry, Sign};
use std::alloc::{AllocError, Global};
use std::env;
use std::fs::File;
use std::io::{self, Read, Write};
use std::process::ExitCode;
use std::rt::{Env, Files};
use stop::Stop;

/// One byte more than a network's text may have.
const MOST_READ: u64 = 1_048_577;

/// The word of the command line, the path of the file that has the network's text.
fn path<R: Env + Alloc<A = Global>>(rt: &R) -> Result<String, Stop> {
    let mut words = env::args(rt)?;
    let (_, path, more) = (words.next(), words.next(), words.next());
    match (path, more) {
        (Some(path), None) => Ok(path),
        _ => Err(Stop::Words),
    }
}

/// The text of a network in a file, up to one byte more than it may have.
fn network<R: Files + Alloc<A = Global>>(rt: &R, path: &str) -> io::Result<Vec<u8>> {
    let mut text = Vec::new(rt.alloc());
    File::open(rt, path)?
        .take(MOST_READ)
        .read_to_end(&mut text)?;
    Ok(text)
}

/// Says which types do not fit in the network that a text is, which may call `abs`, `sign`, `max` and `min`.
fn explain(alloc: Global, net: &[u8]) -> Result<Option<Vec<u8>>, Stop> {
    let mut functions = Registry::new(alloc);
    let absolute: Box<dyn OnNumber> = Box::new(alloc, Absolute)?;
    let sign: Box<dyn OnNumber> = Box::new(alloc, Sign)?;
    let greatest: Box<dyn OnNumbers> = Box::new(alloc, Greatest)?;
    let least: Box<dyn OnNumbers> = Box::new(alloc, Least)?;
    if functions.add_on_number(alloc, "abs", absolute).is_err()
        || functions.add_on_number(alloc, "sign", sign).is_err()
        || functions.add_on_numbers(alloc, "max", greatest).is_err()
        || functions.add_on_numbers(alloc, "min", least).is_err()
    {
        return Err(AllocError.into());
    }
    Ok(explain_text(alloc, net, &functions)?)
}

/// Says which types do not fit in the network that the word of the command line names.
fn run<R: Env + Files + Print + Alloc<A = Global>>(rt: &R) -> Result<(), Stop> {
    let alloc = rt.alloc();
    let path = path(rt)?;
    let net = network(rt, path.as_str())?;
    match explain(alloc, net.as_slice())? {
        Some(told) => {
            let mut out = io::writer(rt);
            out.write_all(told.as_slice())?;
            out.write_all(b"\n")?;
            out.flush()?;
            Ok(())
        }
        None => Ok(()),
    }
}

fn main(rt: HostRuntime) -> ExitCode {
    match run(&rt) {
        Ok(()) => ExitCode::SUCCESS,
        Err(stop) => {
            let _ = eprintln!(&rt; "sftypes: {stop}");
            ExitCode::from(stop.status())
        }
    }
}
