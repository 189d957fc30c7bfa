//! The names of a template's parameters.
ghost use Rattle.std.specs.Prelude.{◌≡◌, ◌∷◌, [], All, IfOk, OnOk};
ghost use Rattle.sf_value.specs.Values.{Name};
ghost use Rattle.sf_expr.specs.Scopes.{frame_entries};
ghost use Rattle.sf_term.specs.Parameters.{NameKind, binding_of, parameters_of};
ghost use Rattle.sf_mean.specs.Contexts.{parameters_inside};
ghost use Rattle.sf_mean.specs.Typing.{ParameterFits};
ghost use Rattle.sf_check.specs.Standing.{bindings_from};

use sf_expr::Frame;
use sf_term::{Parameter, ParameterForm};
use std::alloc::{AllocError, Global};

/// Puts the name of a parameter behind names, with what it stands for.
fn add_parameter<'a>(names: &mut Frame<'a>, parameter: &'a Parameter) -> Result<(), AllocError>
    ensures bound { OnOk result (bindings_from (frame_entries names.new) ≡ binding_of parameter.now ∷ bindings_from (frame_entries names.old)) }
    ensures fits { OnOk result (ParameterFits parameter.now.kind) }
{
    let name = parameter.name();
    match parameter.form() {
        ParameterForm::Value(ty) => {
            prove!(ty.nodes() <= 256);
            names.add_value(name, ty)?;
        }
        ParameterForm::Process(from, to) => {
            prove!(from.nodes() <= 256 && to.nodes() <= 256);
            names.add_process(name, from, to)?;
        }
        ParameterForm::Collection(keys, from, to) => {
            prove!(from.nodes() <= 256 && to.nodes() <= 256);
            names.add_collection(name, *keys, from, to)?;
        }
    }
    Ok(())
}

/// The names of parameters, each with what it stands for.
pub(crate) fn parameter_names<'a>(
    alloc: Global,
    parameters: &'a [Parameter],
) -> Result<Frame<'a>, AllocError>
    ensures bound { IfOk result (λ names. bindings_from (frame_entries names) ≡ parameters_inside (parameters_of parameters.now) []) }
    ensures fit { OnOk result (All (λ (q : Name × NameKind). ParameterFits q.1) (parameters_of parameters.now)) }
{
    let mut names = Frame::new(alloc);
    for parameter in parameters {
        add_parameter(&mut names, parameter)?;
    }
    Ok(names)
}
