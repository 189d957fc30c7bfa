//! Templates of plans.
ghost use Rattle.std.specs.Prelude.{◌≡◌, map, string_bytes, IfOk};
ghost use Rattle.sf_term.specs.ParameterView.{kind_of_form};
ghost use Rattle.sf_law.specs.Headers.{NumbersFirst, no_header, rebodied};

use crate::node::PlanId;
use indexmap::IndexMap;
use sf_expr::{NameId, PatternId};
use sf_term::ParameterForm;
use sf_value::Ty;
use std::alloc::{AllocError, Global};
use std::marker::Model;

/// A parameter of a template of a plan: its name, the pattern that binds this name alone, and what it stands for.
#[derive(Drop)]
pub struct PlanParameter {
    name: NameId,
    pattern: PatternId,
    form: ParameterForm,
}

impl Model for PlanParameter {
    ghost use Rattle.std.specs.Coded.{codes};
    ghost use Rattle.sf_value.specs.contracts.ty.Ty as ty;
    ghost use Rattle.sf_term.specs.ParameterView.{coded_name_kind, kind_of_form};
    ghost use Rattle.sf_law.specs.Headers.{ParameterHeader};

    ghost Value = { ParameterHeader };

    ghost coded = { Prim.hlevel (codes, coded_name_kind ty.the_row.coded) };

    ghost view = { λ a. record { name = a.name; pattern = a.pattern; kind = kind_of_form a.form } };
}

impl PlanParameter {
    /// A parameter of these parts.
    pub(crate) fn new(name: NameId, pattern: PatternId, form: ParameterForm) -> PlanParameter
        ensures { result ≡ record { name = name; pattern = pattern; kind = kind_of_form form } }
    {
        PlanParameter {
            name,
            pattern,
            form,
        }
    }

    /// Its name, under which a process is bound.
    pub fn name(&self) -> NameId
        ensures { result ≡ self.now.name }
    {
        self.name
    }

    /// The pattern that binds its name alone, with which a value is bound.
    pub fn pattern(&self) -> PatternId
        ensures { result ≡ self.now.pattern }
    {
        self.pattern
    }
}

/// A template of a plan: its name, its parameters, the types of its header and the term of its body.
pub struct PlanTemplate {
    name: String,
    parameters: Vec<PlanParameter>,
    input: Ty,
    output: Ty,
    body: PlanId,
}

impl Drop for PlanTemplate {
    fn drop(self) {
        let PlanTemplate {
            name,
            parameters,
            input,
            output,
            body: _,
        } = self;
        drop(name);
        drop(parameters);
        drop(input);
        drop(output);
    }
}

impl Model for PlanTemplate {
    ghost use Rattle.std.specs.Prelude.{string_bytes};
    ghost use Rattle.sf_law.specs.Headers.{PlanHeader};
    ghost use Rattle.std.specs.Coded.{codes};
    ghost use Rattle.sf_value.specs.contracts.ty.Ty as ty;
    ghost use Rattle.sf_term.specs.ParameterView.{coded_name_kind};

    ghost Value = { PlanHeader };

    ghost coded = { Prim.hlevel (codes, ty.the_row.coded, coded_name_kind ty.the_row.coded) };

    ghost view = { λ a. record { name = string_bytes a.name; parameters = a.parameters.items; input = a.input; output = a.output; body = a.body } };
}

impl PlanTemplate {
    /// A template of these parts.
    pub(crate) fn new(
        name: String,
        parameters: Vec<PlanParameter>,
        input: Ty,
        output: Ty,
        body: PlanId,
    ) -> PlanTemplate
        ensures { result ≡ record { name = string_bytes name; parameters = parameters.items; input = input; output = output; body = body } }
    {
        PlanTemplate {
            name,
            parameters,
            input,
            output,
            body,
        }
    }

    /// What stands for a template that is not there: no parameters, and a body that no plan holds.
    pub(crate) fn absent(alloc: Global) -> PlanTemplate
        ensures { result ≡ no_header }
    {
        PlanTemplate::new(
            String::new(alloc),
            Vec::new(alloc),
            Ty::unit(),
            Ty::unit(),
            PlanId(usize::MAX),
        )
    }

    // Puts the body in place of its own that stands at the number of that, or one that passes its inputs on.
    fn put_body(&mut self, bodies: &[PlanId], passing: PlanId)
        ensures { self.new ≡ rebodied bodies.now passing.0 self.old }
    {
        let body = match bodies.get(self.body.0) {
            Some(body) => *body,
            None => passing,
        };
        self.body = body;
    }

    /// Its name.
    pub(crate) fn name(&self) -> &str
        ensures { result.now ≡ self.now.name }
    {
        self.name.as_str()
    }

    /// Its parameters, in order.
    pub fn parameters(&self) -> &[PlanParameter]
        ensures { result.now ≡ self.now.parameters }
    {
        &self.parameters
    }

    /// The term that it stands for.
    pub fn body(&self) -> PlanId
        ensures { result ≡ self.now.body }
    {
        self.body
    }
}

/// Puts other bodies in place of those of templates.
pub(crate) fn put_bodies(templates: &mut Vec<PlanTemplate>, bodies: &[PlanId], passing: PlanId)
    ensures { templates.new.items ≡ map (rebodied bodies.now passing.0) templates.old.items }
{
    for number in 0..templates.len() {
        templates[number].put_body(bodies, passing);
    }
}

/// The number of the first template of each name.
pub(crate) fn first_templates(
    alloc: Global,
    templates: &[PlanTemplate],
) -> Result<IndexMap<String, usize>, AllocError>
    ensures { IfOk result (λ numbers. NumbersFirst numbers templates.now) }
{
    let mut numbers = IndexMap::new(alloc);
    for number in 0..templates.len() {
        let name = templates[number].name();
        if !numbers.contains_key(name) {
            numbers.insert(String::from_str(alloc, name)?, number)?;
        }
    }
    Ok(numbers)
}
