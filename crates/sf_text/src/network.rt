//! Networks.
ghost use Rattle.std.specs.Prelude.{◌≡◌, ◌≢◌, IfOk, IfErr, OnOk};
ghost use Rattle.sf_term.specs.Arena.{templates_of, headers_of};
ghost use Rattle.sf_term.specs.Trees.{Templates};
ghost use Rattle.sf_refusal.specs.Refusals.{OrMemory};
ghost use Rattle.sf_text.specs.Parsing.Answers.{toks, ahead};
ghost use Rattle.sf_grammar.specs.Spelling.{IsNetworkText};
ghost use Rattle.sf_grammar.specs.Placing.{TemplatesPlaced, NetworkPlaced, IsPlacedIn};
ghost use Rattle.sf_text.specs.Parsing.Consuming.{places, spots_ahead};
ghost use Rattle.sf_text.specs.Progress.{Behind, ReadsTemplates, ReadsNetwork, IsBlankProgram};
ghost use Rattle.sf_grammar.specs.Stopping.{BreaksText};

use crate::header::opening;
use crate::parts::{Cursor, Reader, Stop};
use crate::place::refusal_at;
use crate::template::template;
use sf_grammar::Version;
use sf_lex::{PlacedToken, tokens};
use sf_refusal::Refusal;
use sf_term::Program;
use std::alloc::Global;

/// Reads templates up to the end.
#[tactic(auto, using(crate::proofs::Behind::stops_after))]
fn templates(reader: &mut Reader, version: Version) -> Result<(), Stop>
    requires blank { IsBlankProgram reader.old.program }
    ensures reads { ReadsTemplates version result (ahead reader.old.cursor) reader.new.program }
    ensures placed { OnOk result (TemplatesPlaced version reader.new.program (headers_of reader.new.program) (spots_ahead reader.old.cursor)) }
{
    while !reader.cursor.tokens.is_empty() {
        template(reader, version)?;
    }
    Ok(())
}

/// Reads the tokens of a network to their end: its version and the network.
#[tactic(auto, using(crate::proofs::Whole::stops_opening, crate::proofs::Whole::network_spelled, crate::proofs::Whole::network_stops))]
fn network(alloc: Global, tokens: &[PlacedToken]) -> Result<(Version, Program), Stop>
    ensures reads { ReadsNetwork result (toks tokens.now) }
    ensures placed { IfOk result (λ r. NetworkPlaced r.0 r.1 (places tokens.now)) }
{
    let mut cursor = Cursor { alloc, tokens };
    let version = opening(&mut cursor)?;
    let program = Program::new(alloc);
    let mut reader = Reader { cursor, program };
    templates(&mut reader, version)?;
    Ok((version, reader.program))
}

/// The network whose text this is: version 1 or 2, at most 1,048,576 bytes, 100,000 terms and 100,000 expressions. At most 64
/// terms, expressions, patterns or types stand one inside another, and a type has at most 256 nodes. Faults of tokens come
/// first; then the first in reading order: `Rule::Unexpected`, the first token that no network has behind the tokens before
/// it, or the place behind the last byte; `Rule::TooDeep`, the token that begins a form 65 deep; `Rule::Version`;
/// `Rule::WrittenTypeTooLarge`, the first token of the type; `Rule::TooMany`, the first token of the form too many.
#[tactic(auto, using(crate::proofs::Whole::network_text, crate::proofs::Whole::text_stops, sf_grammar::proofs::Texts::refused_none))]
pub fn read_network(alloc: Global, bytes: &[u8]) -> Result<Program, Refusal>
    // What is read is the network of the text.
    ensures read { IfOk result (λ p. IsNetworkText bytes.now (templates_of p)) }
    // Each form stands where its first token does, and each name where its own does.
    ensures placed { IfOk result (λ p. IsPlacedIn bytes.now p) }
    // What is refused breaks the rule at the place.
    ensures fault { IfErr result (OrMemory (BreaksText bytes.now)) }
    // Nothing is refused that is the text of a network, but for want of memory.
    ensures refused { IfErr result (λ e. e ≢ Refusal.Memory → (p : Templates) → IsNetworkText bytes.now p → ⊥) }
{
    let tokens = tokens(alloc, bytes)?;
    match network(alloc, &tokens) {
        Ok((_version, program)) => Ok(program),
        Err(stop) => Err(refusal_at(stop, &tokens, bytes)),
    }
}
