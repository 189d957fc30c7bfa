//! Networks as they are written.
ghost use Rattle.std.specs.Prelude.{◌≡◌, pos, OnOk, IfOk, map};
ghost use Rattle.sf_term.specs.ParameterView.{kind_of_form};
ghost use Rattle.sf_term.specs.Parameters.{parameters_of, binding_of};
ghost use Rattle.sf_term.specs.Arena.{term_template, templates_of, headers_of, HoldsTerm};
ghost use Rattle.sf_grammar.specs.Spelling.{spell, spell_template, spell_templates, spell_name_kind, spell_parameter, spell_listed, spell_further, version_number};
ghost use Rattle.sf_print.specs.Canonical.{canonical_text, text_of};
ghost use Rattle.sf_print.specs.Drafts.{append_tokens};

use crate::draft::Draft;
use crate::terms::write_term;
use crate::types::{write_key_kind, write_type};
use crate::versions::network_needs_two;
use sf_grammar::Version;
use sf_lex::{Keyword, Symbol};
use sf_term::{Parameter, ParameterForm, Program, Template};
use std::alloc::{AllocError, Global};

/// Appends what a parameter stands for.
#[tactic(auto, using(crate::proofs::Putting::tokens_apart))]
fn write_form(form: &ParameterForm, version: Version, draft: &mut Draft) -> Result<(), AllocError>
    ensures { OnOk result (draft.new ≡ append_tokens draft.old (spell_name_kind version (kind_of_form form.now))) }
{
    match form {
        ParameterForm::Value(ty) => write_type(ty, version, draft),
        ParameterForm::Process(from, to) => {
            write_type(from, version, draft)?;
            draft.symbol(Symbol::Leads)?;
            write_type(to, version, draft)
        }
        ParameterForm::Collection(keys, from, to) => {
            draft.symbol(Symbol::OpenBracket)?;
            write_key_kind(*keys, version, draft)?;
            write_type(from, version, draft)?;
            draft.symbol(Symbol::Leads)?;
            write_type(to, version, draft)?;
            draft.symbol(Symbol::CloseBracket)
        }
    }
}

/// Appends a parameter.
fn write_parameter(
    parameter: &Parameter,
    version: Version,
    draft: &mut Draft,
) -> Result<(), AllocError>
    ensures { OnOk result (draft.new ≡ append_tokens draft.old (spell_parameter version (binding_of parameter.now))) }
{
    draft.name(parameter.name())?;
    draft.symbol(Symbol::Colon)?;
    write_form(parameter.form(), version, draft)
}

/// Appends further parameters, each behind a comma, and the closing bracket.
fn write_further(
    parameters: &[Parameter],
    version: Version,
    draft: &mut Draft,
) -> Result<(), AllocError>
    ensures { OnOk result (draft.new ≡ append_tokens draft.old (spell_further (map (spell_parameter version) (parameters_of parameters.now)))) }
{
    for parameter in parameters {
        draft.symbol(Symbol::Comma)?;
        write_parameter(parameter, version, draft)?;
    }
    draft.symbol(Symbol::Close)
}

/// Appends the parameters of a template and the closing bracket.
#[tactic(auto, using(crate::proofs::Putting::tokens_apart))]
fn write_parameters(
    parameters: &[Parameter],
    version: Version,
    draft: &mut Draft,
) -> Result<(), AllocError>
    ensures { OnOk result (draft.new ≡ append_tokens draft.old (spell_listed (map (spell_parameter version) (parameters_of parameters.now)))) }
{
    match parameters {
        [] => draft.symbol(Symbol::Close),
        [first, rest @ ..] => {
            write_parameter(first, version, draft)?;
            write_further(rest, version, draft)
        }
    }
}

/// Appends a template.
#[tactic(auto, using(crate::proofs::Putting::tokens_apart))]
fn write_template(
    program: &Program,
    version: Version,
    template: &Template,
    draft: &mut Draft,
) -> Result<(), AllocError>
    requires { HoldsTerm program.now template.now.body }
    ensures { OnOk result (draft.new ≡ append_tokens draft.old (spell_template version (term_template program.now template.now))) }
{
    draft.keyword(Keyword::Template)?;
    draft.name(template.name())?;
    draft.symbol(Symbol::Open)?;
    write_parameters(template.parameters(), version, draft)?;
    draft.symbol(Symbol::Colon)?;
    write_type(template.input(), version, draft)?;
    draft.symbol(Symbol::Leads)?;
    write_type(template.output(), version, draft)?;
    draft.symbol(Symbol::Equals)?;
    write_term(program, version, template.body(), draft)?;
    draft.symbol(Symbol::Semicolon)
}

/// Appends the templates of a network.
fn write_templates(program: &Program, version: Version, draft: &mut Draft) -> Result<(), AllocError>
    ensures { OnOk result (draft.new ≡ append_tokens draft.old (spell_templates version (templates_of program.now))) }
{
    for template in program.templates() {
        write_template(program, version, template, draft)?;
    }
    Ok(())
}

/// The number of a version.
fn version_number(version: Version) -> i64
    ensures { result ≡ pos (version_number version) }
{
    match version {
        Version::One => 1,
        Version::Two => 2,
    }
}

/// Appends a network in a version.
fn write_program(program: &Program, version: Version, draft: &mut Draft) -> Result<(), AllocError>
    ensures { OnOk result (draft.new ≡ append_tokens draft.old (spell version (templates_of program.now))) }
{
    draft.keyword(Keyword::Network)?;
    draft.number(version_number(version))?;
    draft.symbol(Symbol::Semicolon)?;
    write_templates(program, version, draft)
}

/// The text of a version of a network.
#[tactic(auto, using(crate::proofs::Written::put_text))]
fn print(alloc: Global, program: &Program, version: Version) -> Result<Vec<u8>, AllocError>
    ensures { IfOk result (λ text. text.items ≡ text_of (spell version (templates_of program.now))) }
{
    let mut draft = Draft::new(alloc);
    write_program(program, version, &mut draft)?;
    Ok(draft.into_bytes())
}

/// The canonical text of a network: a text of version 1 where no Text key and no `fresh` stands in it, else of version 2. It
/// may be longer than a text that can be read; the only refusal is want of memory.
pub fn write_network(alloc: Global, program: &Program) -> Result<Vec<u8>, AllocError>
    ensures { IfOk result (λ text. text.items ≡ canonical_text (templates_of program.now)) }
{
    // A network too large for memory is refused here, before it is looked through.
    let text = print(alloc, program, Version::One)?;
    if network_needs_two(program) {
        drop(text);
        print(alloc, program, Version::Two)
    } else {
        Ok(text)
    }
}
