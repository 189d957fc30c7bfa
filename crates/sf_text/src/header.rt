//! What stands in front of templates and of their terms.
ghost use Rattle.std.specs.Prelude.{◌≢◌, IfOk, None, suc, [], length};
ghost use Rattle.sf_text.specs.Parsing.Answers.{ahead, ReadsAs};
ghost use Rattle.sf_lex.specs.Words.{IsName};
ghost use Rattle.sf_value.specs.KindView.{key_kind_of};
ghost use Rattle.sf_term.specs.Names.{AreNamed};
ghost use Rattle.sf_term.specs.ParameterView.{kind_of_form};
ghost use Rattle.sf_term.specs.Parameters.{binding_of};
ghost use Rattle.sf_text.specs.Answers.{declared_kinds, heading_in, parameter_bindings};
ghost use Rattle.sf_text.specs.Parsing.Consuming.{spots_ahead, BehindOne, BehindSome, StandsOn};
ghost use Rattle.sf_grammar.specs.Placing.{ParameterPlaced, EachParameterPlaced, ParametersPlaced};
ghost use Rattle.sf_text.specs.Consuming.{HeadingPlaced, OpeningPlaced};
ghost use Rattle.sf_grammar.specs.Reading.{parse_version, parse_opening, parse_listed, parse_kind_from, parse_key_kind, parse_collection_kind, parse_name_kind, parse_parameter, parse_parameters, parse_heading, parse_signature};

use crate::listed::{behind_leads, behind_list, separator};
use crate::parts::{Cursor, First, Named, Stop};
use sf_grammar::Version;
use sf_lex::{Keyword, Symbol, Token};
use sf_refusal::Rule;
use sf_term::{Parameter, ParameterForm};
use sf_value::{KeyType, Ty};

/// The version.
fn version(cursor: &mut Cursor) -> Result<Version, Stop>
    ensures reads { ReadsAs (λ v. v) result cursor.new (parse_version (ahead cursor.old)) }
    ensures behind { IfOk result (λ v. BehindOne (spots_ahead cursor.old) (spots_ahead cursor.new)) }
{
    let First { token, start } = cursor.first()?;
    match token {
        Token::Number(1) => Ok(Version::One),
        Token::Number(2) => Ok(Version::Two),
        Token::Number(_) => Err(Stop::At(Rule::Version, start.ahead)),
        _ => Err(Stop::At(Rule::Unexpected, start.ahead)),
    }
}

/// The version of a network, from what stands in front of its templates.
#[tactic(auto, unfolding(sf_grammar::specs::Reading::parse_opening))]
pub(crate) fn opening(cursor: &mut Cursor) -> Result<Version, Stop>
    ensures reads { ReadsAs (λ v. v) result cursor.new (parse_opening (ahead cursor.old)) }
    ensures placed { IfOk result (λ v. OpeningPlaced (spots_ahead cursor.old) (spots_ahead cursor.new)) }
{
    cursor.keyword(Keyword::Network)?;
    let version = version(cursor)?;
    cursor.symbol(Symbol::Semicolon)?;
    Ok(version)
}

/// The type of a collection's keys, of which the version writes what it writes.
fn key_kind(cursor: &mut Cursor, version: Version) -> Result<KeyType, Stop>
    ensures reads { ReadsAs key_kind_of result cursor.new (parse_key_kind version (ahead cursor.old)) }
    ensures behind { IfOk result (λ k. BehindSome (spots_ahead cursor.old) (spots_ahead cursor.new)) }
{
    match version {
        Version::One => Ok(KeyType::Int),
        Version::Two => {
            let keys = cursor.keys(Version::Two)?;
            cursor.symbol(Symbol::Colon)?;
            Ok(keys)
        }
    }
}

/// What a parameter stands for that is a collection, behind its opening bracket.
#[tactic(auto, unfolding(sf_grammar::specs::Reading::parse_collection_kind))]
fn collection_kind(cursor: &mut Cursor, version: Version) -> Result<ParameterForm, Stop>
    ensures reads { ReadsAs kind_of_form result cursor.new (parse_collection_kind version (ahead cursor.old)) }
    ensures behind { IfOk result (λ k. BehindSome (spots_ahead cursor.old) (spots_ahead cursor.new)) }
{
    let keys = key_kind(cursor, version)?;
    let input = cursor.ty(version)?;
    cursor.symbol(Symbol::Leads)?;
    let output = cursor.ty(version)?;
    cursor.symbol(Symbol::CloseBracket)?;
    Ok(ParameterForm::Collection(keys, input, output))
}

/// What a parameter stands for.
#[tactic(auto, unfolding(sf_grammar::specs::Reading::parse_name_kind))]
fn name_kind(cursor: &mut Cursor, version: Version) -> Result<ParameterForm, Stop>
    ensures reads { ReadsAs kind_of_form result cursor.new (parse_name_kind version (ahead cursor.old)) }
    ensures behind { IfOk result (λ k. BehindSome (spots_ahead cursor.old) (spots_ahead cursor.new)) }
{
    match behind_list(cursor) {
        Some(behind) => {
            *cursor = behind;
            collection_kind(cursor, version)
        }
        None => plain_kind(cursor, version),
    }
}

/// What a parameter stands for that is no collection.
fn plain_kind(cursor: &mut Cursor, version: Version) -> Result<ParameterForm, Stop>
    ensures reads { ReadsAs kind_of_form result cursor.new (parse_kind_from version None (ahead cursor.old)) }
    ensures behind { IfOk result (λ k. BehindSome (spots_ahead cursor.old) (spots_ahead cursor.new)) }
{
    let first = cursor.ty(version)?;
    match behind_leads(cursor) {
        Some(behind) => {
            *cursor = behind;
            let output = cursor.ty(version)?;
            Ok(ParameterForm::Process(first, output))
        }
        None => Ok(ParameterForm::Value(first)),
    }
}

/// A parameter.
#[tactic(auto, unfolding(sf_grammar::specs::Reading::parse_parameter))]
fn parameter(cursor: &mut Cursor, version: Version) -> Result<Parameter, Stop>
    ensures reads { ReadsAs binding_of result cursor.new (parse_parameter version (ahead cursor.old)) }
    ensures named { IfOk result (λ q. IsName q.name) }
    ensures placed { StandsOn (ParameterPlaced version) result cursor.old cursor.new }
{
    let known = cursor.name()?;
    cursor.symbol(Symbol::Colon)?;
    let form = name_kind(cursor, version)?;
    let name = String::from_str(cursor.alloc, known.name.as_str())?;
    Ok(Parameter::new(name, known.spot, form))
}

/// Parameters, one at least, and the closing bracket behind them.
fn some_parameters(cursor: &mut Cursor, version: Version) -> Result<Vec<Parameter>, Stop>
    ensures reads { ReadsAs parameter_bindings result cursor.new (parse_parameters (suc (length (ahead cursor.old))) version (ahead cursor.old)) }
    ensures named { IfOk result (λ qs. AreNamed qs.items) }
    ensures some { IfOk result (λ qs. qs.items ≢ []) }
    ensures placed { StandsOn (λ qs. EachParameterPlaced version qs.items) result cursor.old cursor.new }
{
    let mut parameters = Vec::new(cursor.alloc);
    let mut more = true;
    while more {
        let parameter = parameter(cursor, version)?;
        parameters.push(parameter)?;
        more = separator(cursor)?;
    }
    Ok(parameters)
}

/// Parameters, if there are any, and the closing bracket behind them.
fn parameters(cursor: &mut Cursor, version: Version) -> Result<Vec<Parameter>, Stop>
    ensures reads { ReadsAs parameter_bindings result cursor.new (parse_listed [] (λ ts. parse_parameters (suc (length ts)) version ts) (ahead cursor.old)) }
    ensures named { IfOk result (λ qs. AreNamed qs.items) }
    ensures placed { StandsOn (λ qs. ParametersPlaced version qs.items) result cursor.old cursor.new }
{
    match cursor.behind_close() {
        Some(behind) => {
            *cursor = behind;
            Ok(Vec::new(cursor.alloc))
        }
        None => some_parameters(cursor, version),
    }
}

/// The name of a template and its parameters.
#[derive(Drop)]
pub(crate) struct Titled<'a> {
    pub(crate) name: Named<'a>,
    pub(crate) parameters: Vec<Parameter>,
}

/// The name of a template and its parameters, behind its word.
#[tactic(auto, unfolding(sf_grammar::specs::Reading::parse_heading))]
pub(crate) fn heading<'a>(cursor: &mut Cursor<'a>, version: Version) -> Result<Titled<'a>, Stop>
    ensures reads { ReadsAs heading_in result cursor.new (parse_heading version (ahead cursor.old)) }
    ensures named { IfOk result (λ h. AreNamed h.parameters.items) }
    ensures placed { IfOk result (λ h. HeadingPlaced version h.name.spot h.parameters.items (spots_ahead cursor.old) (spots_ahead cursor.new)) }
{
    cursor.keyword(Keyword::Template)?;
    let name = cursor.name()?;
    cursor.symbol(Symbol::Open)?;
    let parameters = parameters(cursor, version)?;
    Ok(Titled { name, parameters })
}

/// The types of a template's inputs and outputs.
#[derive(Drop)]
pub(crate) struct Types {
    pub(crate) input: Ty,
    pub(crate) output: Ty,
}

/// The types of a template's inputs and outputs, with what stands around them.
#[tactic(auto, unfolding(sf_grammar::specs::Reading::parse_signature))]
pub(crate) fn signature(cursor: &mut Cursor, version: Version) -> Result<Types, Stop>
    ensures reads { ReadsAs declared_kinds result cursor.new (parse_signature version (ahead cursor.old)) }
    ensures behind { IfOk result (λ s. BehindSome (spots_ahead cursor.old) (spots_ahead cursor.new)) }
{
    cursor.symbol(Symbol::Colon)?;
    let input = cursor.ty(version)?;
    cursor.symbol(Symbol::Leads)?;
    let output = cursor.ty(version)?;
    cursor.symbol(Symbol::Equals)?;
    Ok(Types { input, output })
}
