//! What differs in a call whose arguments are typed.
ghost use Rattle.std.specs.Prelude.{◌≡◌, ◌≤◌, All, [], OnOk, IfErr};
ghost use Rattle.sf_differ.specs.Differences.{Explains};
ghost use Rattle.sf_term.specs.declared.collection.CollectionId.{CollectionId};
ghost use Rattle.sf_term.specs.ParameterView.{kind_of_form};
ghost use Rattle.sf_term.specs.Parameters.{parameters_of};
ghost use Rattle.sf_term.specs.Trees.{collection_depth, arguments_depth};
ghost use Rattle.sf_term.specs.Arena.{term_number, term_spot_at, arguments_of, collection_node, collection_of, ArgumentBelow, HoldsTerm, HoldsArgument, term_template};
ghost use Rattle.sf_mean.specs.Contexts.{signature_of};
ghost use Rattle.sf_check.specs.Contexts.{program_in, context_in};
ghost use Rattle.sf_check.specs.Breaking.{ArgumentsLeft};
ghost use Rattle.sf_check.specs.Answering.{ArgumentFits};
ghost use Rattle.sf_check.specs.Differing.{ArgumentDiffers, CallDiffers};

use crate::blaming::{answered, suits_members, suits_type};
use crate::context::TypingContext;
use crate::typing::{constant_type, members_at, output_of};
use sf_differ::Blame;
use sf_refusal::Spot;
use sf_term::{Argument, ParameterForm, Template, TermId};
use sf_value::Ty;

/// Nothing where an argument of a call is of the type or types of its parameter; else what differs, at the spot. Nothing is said
/// where it is of another sort.
fn argument_suits(
    context: &TypingContext,
    term: TermId,
    argument: Argument,
    parameter: &ParameterForm,
    spot: Spot,
) -> Result<(), Blame>
    requires below { ArgumentBelow (program_in context.now) (term_number term) argument }
    requires shallow { (i : CollectionId) → argument ≡ Argument.Collection i → collection_depth (collection_of (program_in context.now) (collection_node (program_in context.now) i)) ≤ 64 }
    requires argument_held { HoldsArgument (program_in context.now) argument }
    ensures ok { OnOk result (ArgumentFits (program_in context.now) (context_in context.now) argument (kind_of_form parameter.now)) }
    ensures err { IfErr result (λ b. Explains (ArgumentDiffers (program_in context.now) (context_in context.now) spot argument (kind_of_form parameter.now)) b) }
{
    match (argument, parameter) {
        (Argument::Value(value), ParameterForm::Value(wanted)) => {
            let given = answered(constant_type(context, value))?;
            suits_type(context.alloc, &given, wanted, spot)
        }
        (Argument::Process(part), ParameterForm::Process(from, to)) => {
            prove!(from.nodes() <= 256);
            let given = answered(output_of(context, part, from))?;
            suits_type(context.alloc, &given, to, spot)
        }
        (Argument::Collection(members), ParameterForm::Collection(keys, from, to)) => {
            prove!(from.nodes() <= 256);
            let given = answered(members_at(context, term, members, from))?;
            suits_members(context.alloc, &given, *keys, to, spot)
        }
        (Argument::Value(_), ParameterForm::Process(_, _)) => Err(Blame::Silent),
        (Argument::Value(_), ParameterForm::Collection(_, _, _)) => Err(Blame::Silent),
        (Argument::Process(_), ParameterForm::Value(_)) => Err(Blame::Silent),
        (Argument::Process(_), ParameterForm::Collection(_, _, _)) => Err(Blame::Silent),
        (Argument::Collection(_), ParameterForm::Value(_)) => Err(Blame::Silent),
        (Argument::Collection(_), ParameterForm::Process(_, _)) => Err(Blame::Silent),
    }
}

/// What differs in a call whose arguments are typed: the first of them that does not fit its parameter, or else the inputs beside
/// the header of its template.
pub(crate) fn explain_fit(
    context: &TypingContext,
    term: TermId,
    arguments: &[Argument],
    template: &Template,
    input: &Ty,
) -> Result<(), Blame>
    requires typed { ArgumentsLeft (program_in context.now) (context_in context.now) arguments.now (parameters_of template.now.parameters) [] [] }
    requires below { All (ArgumentBelow (program_in context.now) (term_number term)) arguments.now }
    requires shallow { arguments_depth (arguments_of (program_in context.now) arguments.now) ≤ 64 }
    requires term_held { HoldsTerm (program_in context.now) term }
    requires arguments_held { All (HoldsArgument (program_in context.now)) arguments.now }
    ensures { IfErr result (λ b. Explains (CallDiffers (program_in context.now) (context_in context.now) (term_spot_at (program_in context.now) term) arguments.now input.now (signature_of (term_template (program_in context.now) template.now))) b) }
{
    let spot = context.program.spot(term);
    let parameters = template.parameters();
    for (argument, parameter) in arguments.iter().zip(parameters) {
        argument_suits(context, term, *argument, parameter.form(), spot)?;
    }
    suits_type(context.alloc, input, template.input(), spot)
}
