//! Templates.
ghost use Rattle.std.specs.Prelude.{◌≡◌, IfOk};
ghost use Rattle.sf_text.specs.Parsing.Answers.{ahead, counts_of};
ghost use Rattle.sf_text.specs.Answers.{ReadsTemplate};
ghost use Rattle.sf_text.specs.Parsing.Consuming.{spots_ahead};
ghost use Rattle.sf_text.specs.Consuming.{PlacesTemplate};
ghost use Rattle.sf_grammar.specs.Reading.{parse_template};

use crate::header::{heading, signature};
use crate::parts::{Reader, Stop, refused};
use crate::term::term;
use sf_grammar::Version;
use sf_lex::Symbol;

/// Reads a template into the program.
#[tactic(auto, unfolding(sf_grammar::specs::Reading::parse_template))]
pub(crate) fn template(reader: &mut Reader, version: Version) -> Result<(), Stop>
    ensures reads { ReadsTemplate reader.old reader.new result (parse_template version (counts_of reader.old.program) (ahead reader.old.cursor)) }
    ensures placed { IfOk result (λ u. PlacesTemplate version reader.old.program reader.new.program (spots_ahead reader.old.cursor) (spots_ahead reader.new.cursor)) }
{
    let ahead = reader.cursor.tokens.len();
    let titled = heading(&mut reader.cursor, version)?;
    let types = signature(&mut reader.cursor, version)?;
    let body = term(reader, version, 64)?;
    reader.cursor.symbol(Symbol::Semicolon)?;
    let name = String::from_str(reader.cursor.alloc, titled.name.name.as_str())?;
    match reader.program.template(
        name,
        titled.name.spot,
        titled.parameters,
        types.input,
        types.output,
        body,
    ) {
        Ok(()) => Ok(()),
        Err(refusal) => Err(refused(refusal, ahead)),
    }
}
