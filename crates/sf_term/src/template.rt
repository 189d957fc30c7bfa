//! Templates.
ghost use Rattle.std.specs.Prelude.{◌≡◌, IfOk, string_bytes};
ghost use Rattle.sf_term.specs.ParameterView.{kind_of_form};

use crate::node::TermId;
use sf_expr::Spot;
use sf_value::{KeyType, Ty};
use std::alloc::{AllocError, Global};
use std::marker::Model;

/// A parameter of a template: its name, and what it stands for.
pub struct Parameter {
    name: String,
    spot: Spot,
    form: ParameterForm,
}

impl Drop for Parameter {
    fn drop(self) {
        let Parameter {
            name,
            spot: _,
            form,
        } = self;
        drop(name);
        drop(form);
    }
}

/// What a parameter stands for.
#[derive(Drop)]
pub enum ParameterForm {
    /// A value of a type.
    Value(Ty),
    /// A process, with the types of its inputs and of its outputs.
    Process(Ty, Ty),
    /// A collection of processes, with the types of its keys and of their inputs and outputs.
    Collection(KeyType, Ty, Ty),
}

impl Model for Parameter {
    ghost use Rattle.std.specs.Prelude.{string_bytes};
    ghost use Rattle.std.specs.Coded.{codes};
    ghost use Rattle.sf_value.specs.contracts.ty.Ty as ty;
    ghost use Rattle.sf_term.specs.Parameters.{PlacedParameter};
    ghost use Rattle.sf_term.specs.ParameterView.{coded_name_kind, kind_of_form};

    ghost Value = { PlacedParameter };

    ghost coded = { Prim.hlevel (codes, coded_name_kind ty.the_row.coded) };

    ghost view = { λ a. record { name = string_bytes a.name; spot = a.spot; kind = kind_of_form a.form } };
}

impl Parameter {
    /// A parameter of this form, whose name stands at a place in the text.
    pub fn new(name: String, spot: Spot, form: ParameterForm) -> Parameter
        ensures { result ≡ record { name = string_bytes name; spot = spot; kind = kind_of_form form } }
    {
        Parameter { name, spot, form }
    }

    /// Its name.
    pub fn name(&self) -> &str
        ensures { result.now ≡ self.now.name }
    {
        self.name.as_str()
    }

    /// Where its name stands in the text.
    pub fn spot(&self) -> Spot
        ensures { result ≡ self.now.spot }
    {
        self.spot
    }

    /// What it stands for.
    pub fn form(&self) -> &ParameterForm
        ensures { kind_of_form result.now ≡ self.now.kind }
    {
        &self.form
    }

    fn clone_in(&self, alloc: Global) -> Result<Parameter, AllocError>
        ensures { IfOk result (λ copy. copy ≡ self.now) }
    {
        Ok(Parameter {
            name: String::from_str(alloc, self.name.as_str())?,
            spot: self.spot,
            form: self.form.clone_in(alloc)?,
        })
    }
}

impl ParameterForm {
    /// A copy.
    pub fn clone_in(&self, alloc: Global) -> Result<ParameterForm, AllocError>
        ensures { IfOk result (λ copy. kind_of_form copy ≡ kind_of_form self.now) }
    {
        match self {
            ParameterForm::Value(ty) => Ok(ParameterForm::Value(ty.clone_in(alloc)?)),
            ParameterForm::Process(from, to) => {
                let from = from.clone_in(alloc)?;
                let to = to.clone_in(alloc)?;
                Ok(ParameterForm::Process(from, to))
            }
            ParameterForm::Collection(keys, from, to) => {
                let from = from.clone_in(alloc)?;
                let to = to.clone_in(alloc)?;
                Ok(ParameterForm::Collection(*keys, from, to))
            }
        }
    }
}

/// Copies of parameters, in order.
fn clone_parameters(alloc: Global, parameters: &[Parameter]) -> Result<Vec<Parameter>, AllocError>
    ensures { IfOk result (λ copies. copies.items ≡ parameters.now) }
{
    let mut copies = Vec::new(alloc);
    for parameter in parameters {
        copies.push(parameter.clone_in(alloc)?)?;
    }
    Ok(copies)
}

/// A template: its name, its parameters, the types of its header and the term of its body.
pub struct Template {
    name: String,
    spot: Spot,
    parameters: Vec<Parameter>,
    input: Ty,
    output: Ty,
    body: TermId,
}

impl Drop for Template {
    fn drop(self) {
        let Template {
            name,
            spot: _,
            parameters,
            input,
            output,
            body: _,
        } = self;
        drop(name);
        drop(parameters);
        drop(input);
        drop(output);
    }
}

impl Model for Template {
    ghost use Rattle.std.specs.Prelude.{string_bytes};
    ghost use Rattle.sf_term.specs.Headers.{Header};
    ghost use Rattle.std.specs.Coded.{codes};
    ghost use Rattle.sf_value.specs.contracts.ty.Ty as ty;
    ghost use Rattle.sf_term.specs.ParameterView.{coded_name_kind};

    ghost Value = { Header };

    ghost coded = { Prim.hlevel (codes, ty.the_row.coded, coded_name_kind ty.the_row.coded) };

    ghost view = { λ a. record { name = string_bytes a.name; spot = a.spot; parameters = a.parameters.items; input = a.input; output = a.output; body = a.body } };
}

impl Template {
    /// A template of these parts.
    pub(crate) fn new(
        name: String,
        spot: Spot,
        parameters: Vec<Parameter>,
        input: Ty,
        output: Ty,
        body: TermId,
    ) -> Template
        ensures { result ≡ record { name = string_bytes name; spot = spot; parameters = parameters.items; input = input; output = output; body = body } }
    {
        Template {
            name,
            spot,
            parameters,
            input,
            output,
            body,
        }
    }

    /// Its name.
    pub fn name(&self) -> &str
        ensures { result.now ≡ self.now.name }
    {
        self.name.as_str()
    }

    /// Where its name stands in the text.
    pub fn spot(&self) -> Spot
        ensures { result ≡ self.now.spot }
    {
        self.spot
    }

    /// Its parameters, in order.
    pub fn parameters(&self) -> &[Parameter]
        ensures { result.now ≡ self.now.parameters }
    {
        &self.parameters
    }

    /// The type of its inputs.
    pub fn input(&self) -> &Ty
        ensures { result.now ≡ self.now.input }
    {
        &self.input
    }

    /// The type of its outputs.
    pub fn output(&self) -> &Ty
        ensures { result.now ≡ self.now.output }
    {
        &self.output
    }

    /// The term that it stands for.
    pub fn body(&self) -> TermId
        ensures { result ≡ self.now.body }
    {
        self.body
    }

    /// A copy.
    pub fn clone_in(&self, alloc: Global) -> Result<Template, AllocError>
        ensures { IfOk result (λ copy. copy ≡ self.now) }
    {
        Ok(Template {
            name: String::from_str(alloc, self.name.as_str())?,
            spot: self.spot,
            parameters: clone_parameters(alloc, &self.parameters)?,
            input: self.input.clone_in(alloc)?,
            output: self.output.clone_in(alloc)?,
            body: self.body,
        })
    }
}

/// Copies of templates, in order.
pub(crate) fn clone_all(alloc: Global, templates: &[Template]) -> Result<Vec<Template>, AllocError>
    ensures { IfOk result (λ copies. copies.items ≡ templates.now) }
{
    let mut copies = Vec::new(alloc);
    for template in templates {
        copies.push(template.clone_in(alloc)?)?;
    }
    Ok(copies)
}
