//! The names of templates and of their parameters.
ghost use Rattle.std.specs.Prelude.{◌≡◌, ◌∷◌, ◌++◌, [], true, false, IfOk, IfErr, OnOk, bytes_eq};
ghost use Rattle.std.specs.List.{list_any};
ghost use Rattle.sf_refusal.specs.declared.spot.Spot.{Spot};
ghost use Rattle.sf_refusal.specs.declared.rule.Rule.TheVariants.{DuplicateName};
ghost use Rattle.sf_refusal.specs.Refusals.{OrMemory, breach_of};
ghost use Rattle.sf_term.specs.Parameters.{parameters_of};
ghost use Rattle.sf_check.specs.Names.{names_of_set, program_names, parameter_names, parameter_spots, AreDifferent, NamesDiffer, IsFirstRepeat, IsFirstNameAgain};

use indexmap::IndexSet;
use sf_refusal::{Refusal, Rule, Spot};
use sf_term::{Parameter, Program};
use std::alloc::Global;

/// Puts a name behind names. Refused with `DuplicateName` at the spot where it is one of them, and with `Memory`.
fn add_name(
    alloc: Global,
    names: &mut IndexSet<String>,
    name: &str,
    spot: Spot,
) -> Result<(), Refusal>
    ensures added { OnOk result (names_of_set names.new ≡ names_of_set names.old ++ name.now ∷ []) }
    ensures new { OnOk result (list_any (bytes_eq name.now) (names_of_set names.old) ≡ false) }
    ensures refused { IfErr result (OrMemory (λ b. (b ≡ breach_of DuplicateName spot) × (list_any (bytes_eq name.now) (names_of_set names.old) ≡ true))) }
{
    let owned = String::from_str(alloc, name)?;
    if names.insert(owned)? {
        Ok(())
    } else {
        Err(Refusal::broken(Rule::DuplicateName, spot))
    }
}

/// That the names of parameters are different. Refused with `DuplicateName` at the first that is one before it, and with
/// `Memory`.
fn check_parameters(alloc: Global, parameters: &[Parameter]) -> Result<(), Refusal>
    ensures different { OnOk result (AreDifferent (parameter_names (parameters_of parameters.now))) }
    ensures refused { IfErr result (OrMemory (λ b. (s : Spot) × (b ≡ breach_of DuplicateName s) × IsFirstRepeat (parameter_names (parameters_of parameters.now)) (parameter_spots parameters.now) s)) }
{
    let mut names = IndexSet::new(alloc);
    for parameter in parameters {
        add_name(alloc, &mut names, parameter.name(), parameter.spot())?;
    }
    Ok(())
}

/// The names of a program's templates, in the order of its text, where they are different and so are those of each
/// template's parameters. Refused with `DuplicateName` at the first name, header by header, that is one before it, and with
/// `Memory`.
pub(crate) fn template_names(alloc: Global, program: &Program) -> Result<IndexSet<String>, Refusal>
    ensures names { IfOk result (λ names. names_of_set names ≡ program_names program.now) }
    ensures different { OnOk result (NamesDiffer program.now) }
    ensures refused { IfErr result (OrMemory (λ b. (s : Spot) × (b ≡ breach_of DuplicateName s) × IsFirstNameAgain program.now s)) }
{
    let mut names = IndexSet::new(alloc);
    for template in program.templates() {
        add_name(alloc, &mut names, template.name(), template.spot())?;
        check_parameters(alloc, template.parameters())?;
    }
    Ok(names)
}
