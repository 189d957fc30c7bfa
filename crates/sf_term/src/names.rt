//! Names in patterns and in headers.
ghost use Rattle.std.specs.Prelude.{◌↔◌, IsTrue};
ghost use Rattle.sf_expr.specs.Patterns.{pattern_of};
ghost use Rattle.sf_lex.specs.Words.{IsName};
ghost use Rattle.sf_term.specs.Names.{HasNames, AreNamed};

use crate::template::Parameter;
use sf_expr::{Pat, PatForm};
use sf_lex::is_name;

/// Whether all names of a pattern are names of the language.
pub(crate) fn has_names(pattern: &Pat) -> bool
    ensures { IsTrue result ↔ HasNames (pattern_of pattern.now) }
{
    match pattern.form() {
        PatForm::Unnamed => true,
        PatForm::Name(name, _) => is_name(name.as_bytes()),
        PatForm::Both(first, second) => has_names(first) && has_names(second),
    }
}

/// Whether the names of parameters are names of the language.
fn are_named(parameters: &[Parameter]) -> bool
    ensures { IsTrue result ↔ AreNamed parameters.now }
{
    for parameter in parameters {
        if !is_name(parameter.name().as_bytes()) {
            return false;
        }
    }
    true
}

/// Whether a word and all names of a pattern are names of the language.
pub(crate) fn are_both_named(name: &[u8], pattern: &Pat) -> bool
    ensures { IsTrue result ↔ IsName name.now × HasNames (pattern_of pattern.now) }
{
    is_name(name) && has_names(pattern)
}

/// Whether a word and the names of parameters are names of the language.
pub(crate) fn are_all_named(name: &[u8], parameters: &[Parameter]) -> bool
    ensures { IsTrue result ↔ IsName name.now × AreNamed parameters.now }
{
    is_name(name) && are_named(parameters)
}
