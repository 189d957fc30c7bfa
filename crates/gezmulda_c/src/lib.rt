//! Plays an input that lies in memory, for C and what can call C.
#![tactic(auto)]

ghost use Rattle.std.specs.Prelude.{◌≡◌, ℕ, List, [], Option, Some, length, min, take};
ghost use Rattle.sf_func.specs.Registries.{AnswersByName};
ghost use Rattle.sf_player.specs.declared.end.PlayEnd.{PlayEnd};
ghost use Rattle.sf_player.specs.Counting.{inner_of};
ghost use Rattle.sf_player.specs.Statuses.{status_of};
ghost use Rattle.sf_player.specs.Telling.{Plays};

pub mod engine;
pub mod handle;
mod loose;
pub mod refusal;

use sf_func::Registry;
use sf_player::{Counted, Options, play};
use std::alloc::Global;

/// Plays the lines of an input through a network that calls no stored functions, and writes as much of what that gives as
/// the room takes. Answers the status of the run, and how many bytes it gives.
#[unsafe(no_mangle)]
pub extern "C" fn gezmulda_play(
    alloc: Global,
    net: &[u8],
    input: &[u8],
    probes: bool,
    out: &mut [u8],
    given: &mut usize,
) -> u8
    ensures { (answers : AnswersByName) × (e : PlayEnd) × (left : Option (List ℕ)) × (said : List ℕ)
        × Plays probes [] answers net.now (Some input.now) left (Some []) (Some said) e
        × (result ≡ status_of e) × (given.new ≡ length said)
        × (take (min given.new (length out.new)) out.new ≡ take (min given.new (length out.new)) said) }
{
    let mut reader = Counted::new(input);
    let mut writer = Counted::new(Vec::new(alloc));
    let options = Options {
        plain: false,
        probes,
    };
    let functions = Registry::new(alloc);
    let end = play(alloc, net, &mut reader, &mut writer, functions, options);
    let said = writer.into_inner();
    *given = said.len();
    let most = said.len().min(out.len());
    out[..most].copy_from_slice(&said[..most]);
    end.status()
}
