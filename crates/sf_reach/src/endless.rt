//! The first endless call of a program.
ghost use Rattle.std.specs.Prelude.{◌≡◌, IfOk, MatchOption};
ghost use Rattle.sf_reach.specs.Names.{names_of_set, program_names, HasDifferentNames};
ghost use Rattle.sf_reach.specs.Endless.{IsFirstEndlessCall, ReachesItselfNowhere};

use crate::graph::graph_of;
use crate::leading::first_call_back;
use crate::settling::settled;
use indexmap::IndexSet;
use sf_refusal::Spot;
use sf_term::Program;
use std::alloc::{AllocError, Global};

/// Where the first call of a program stands that is outside the bodies of switches, and from which such calls lead back to
/// the template in which it stands; `None` where no template reaches itself. The names are those of the templates, in order.
pub fn first_endless_call(
    alloc: Global,
    program: &Program,
    names: &IndexSet<String>,
) -> Result<Option<Spot>, AllocError>
    requires names { names_of_set names.now ≡ program_names program.now }
    requires different { HasDifferentNames program.now }
    ensures { IfOk result (λ found. MatchOption found (ReachesItselfNowhere program.now) (IsFirstEndlessCall program.now)) }
{
    let graph = graph_of(alloc, program, names)?;
    let settled = settled(alloc, &graph)?;
    for (template, is_settled) in settled.iter().enumerate() {
        if *is_settled {
            continue;
        }
        if let Some(spot) = first_call_back(alloc, &graph, template)? {
            return Ok(Some(spot));
        }
    }
    Ok(None)
}
