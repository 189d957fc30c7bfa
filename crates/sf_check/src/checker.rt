//! The checker.
ghost use Rattle.std.specs.Prelude.{◌≡◌, [], Some, IfOk, IfErr, IfSome, IfNone, OnOk, OnSome, MatchResult, ⊤, position, bytes_eq, codes};
ghost use Rattle.sf_term.specs.Trees.{Template};
ghost use Rattle.sf_term.specs.Arena.{templates_of};
ghost use Rattle.sf_func.specs.Signatures.{signatures_in};
ghost use Rattle.sf_mean.specs.Networks.{main_of};
ghost use Rattle.sf_mean.specs.Typing.{Accepted};
ghost use Rattle.sf_check.specs.Accepting.{accepted_program, types_checked};
ghost use Rattle.sf_check.specs.Names.{names_of_set, program_names};
ghost use Rattle.sf_check.specs.Refusing.{RefusesNetwork, HasNoMain};
ghost use Rattle.sf_refusal.specs.Refusals.{OrMemory};

use crate::checked::Checked;
use crate::names::template_names;
use crate::typing::check_templates;
use indexmap::IndexSet;
use sf_func::{Holds, Registry, Signatures};
use sf_reach::first_endless_call;
use sf_refusal::{Refusal, Rule, Spot};
use sf_term::Program;
use std::alloc::Global;

/// The names of a network's templates, and which of them is `main`.
#[derive(Drop)]
struct Found {
    names: IndexSet<String>,
    main: usize,
}

/// The place of `main` among the templates, which have these names; `None` where it is not there or has parameters.
fn place_of_main(program: &Program, names: &IndexSet<String>) -> Option<usize>
    requires { names_of_set names.now ≡ program_names program.now }
    ensures place { IfSome result (λ i. position (bytes_eq (codes "main")) (program_names program.now) ≡ Some i) }
    ensures bare { OnSome result ((t : Template) × (main_of (templates_of program.now) ≡ Some t) × (t.parameters ≡ [])) }
    ensures absent { IfNone result (HasNoMain program.now) }
{
    let place = names.get_index_of("main")?;
    if program.templates()[place].parameters().is_empty() {
        Some(place)
    } else {
        None
    }
}

/// What an accepted network has, or the first rule that is broken.
fn examined(alloc: Global, program: &Program, functions: &Signatures) -> Result<Found, Refusal>
    ensures accepted { OnOk result (Accepted (signatures_in functions.now) (templates_of program.now)) }
    ensures named { IfOk result (λ found. names_of_set found.names ≡ program_names program.now) }
    ensures main { IfOk result (λ found. position (bytes_eq (codes "main")) (program_names program.now) ≡ Some found.main) }
    ensures refused { IfErr result (OrMemory (RefusesNetwork (signatures_in functions.now) program.now)) }
{
    let names = template_names(alloc, program)?;
    check_templates(alloc, program, &names, functions)?;
    if let Some(spot) = first_endless_call(alloc, program, &names)? {
        return Err(Refusal::broken(Rule::Endless, spot));
    }
    match place_of_main(program, &names) {
        Some(main) => Ok(Found { names, main }),
        None => Err(Refusal::broken(Rule::NoMain, Spot::FIRST)),
    }
}

// Accepts a network, with stored functions of these types, or answers the first rule that is broken and the program.
fn check_with(
    alloc: Global,
    program: Program,
    functions: Signatures,
) -> Result<Checked, (Refusal, Program)>
    ensures accepted { OnOk result (Accepted (signatures_in functions) (templates_of program)) }
    ensures kept { IfOk result (λ checked. accepted_program checked ≡ program) }
    ensures types { IfOk result (λ checked. types_checked checked ≡ signatures_in functions) }
    ensures handed_back { IfErr result (λ refused. refused.1 ≡ program) }
    ensures refused { IfErr result (λ refused. OrMemory (RefusesNetwork (signatures_in functions) program) refused.0) }
    ensures only { Accepted (signatures_in functions) (templates_of program) → MatchResult result (λ _. ⊤) (λ refused. refused.0 ≡ Refusal.Memory) }
{
    match examined(alloc, &program, &functions) {
        Ok(found) => Ok(Checked {
            program,
            functions,
            names: found.names,
            main: found.main,
        }),
        Err(refusal) => Err((refusal, program)),
    }
}

/// Accepts a network whose templates have different names, each with different names of its parameters, and terms of their
/// headers' types, none of which reaches itself by calls outside the bodies of switches, and one of which is `main`, without
/// parameters, where it calls the functions of a registry.
///
/// # Errors
/// The first rule that is broken, with its place, and the program. Names are looked at first (`DuplicateName`): in the order
/// of the text a template's name, then those of its parameters, each at the later of two. Then the types of each template in
/// the order of the text, then whether a template reaches itself (`Endless`, at the name of the first call from which calls
/// lead back to its template; the calls in arguments come after a call's own name), then `main` (`NoMain`, at the beginning
/// of the text). In a template a form's own rule is looked at after its parts, but before a part what is needed to type it:
/// that the input is of pairs, the value of a loop, that a switch's source gives a value and an event, or its observer an
/// event on pairs that are not too large, the names of a pattern and then whether it fits (`UnknownName`, `DuplicateName`,
/// `Mismatch`, `TypeTooLarge`). So the argument of a stored function comes first, then `UnknownName` at the function's name,
/// then `Mismatch` and `TypeTooLarge` at the call; the name of a process (`UnknownName`, and `Mismatch` where it stands for a
/// value, at the name) comes before its input (`Mismatch`). A call of a template names what it breaks at its name: that the
/// template is not there (`UnknownName`) and takes as many arguments (`Arity`) come before the arguments, and that these fit
/// the parameters, and the input the header, after them (`Mismatch`); a term for a value is a `Mismatch` before it is typed.
/// The header's output comes last (`Mismatch` at the template's term). `Memory` says nothing of the network.
pub fn check(
    alloc: Global,
    program: Program,
    functions: &Registry,
) -> Result<Checked, (Refusal, Program)>
    ensures accepted { OnOk result (Accepted (⟦<Registry as Holds>⟧.types functions.now) (templates_of program)) }
    ensures kept { IfOk result (λ checked. accepted_program checked ≡ program) }
    ensures types { IfOk result (λ checked. types_checked checked ≡ ⟦<Registry as Holds>⟧.types functions.now) }
    ensures handed_back { IfErr result (λ refused. refused.1 ≡ program) }
    // The first rule that is broken, in the order of the text, at its place.
    ensures refused { IfErr result (λ refused. OrMemory (RefusesNetwork (⟦<Registry as Holds>⟧.types functions.now) program) refused.0) }
    // A network that keeps all rules is refused for want of memory alone.
    ensures only { Accepted (⟦<Registry as Holds>⟧.types functions.now) (templates_of program) → MatchResult result (λ _. ⊤) (λ refused. refused.0 ≡ Refusal.Memory) }
{
    match functions.signatures(alloc) {
        Ok(signatures) => check_with(alloc, program, signatures),
        Err(_) => Err((Refusal::Memory, program)),
    }
}
