//! Names.
ghost use Rattle.std.specs.Prelude.{◌≡◌};
ghost use Rattle.sf_lex.specs.Words.{IsName};

use std::str;

/// A name of the language: a letter, then letters, digits and `_`, but no keyword. It borrows the text that it stands
/// in.
#[derive(Clone, Copy, Debug)]
pub struct Name<'a> {
    text: &'a str,
    ghost named: { IsName text.now },
}

impl<'a> Name<'a> {
    ghost use Rattle.sf_lex.specs.Tokens.{name_bytes};

    /// The name that these bytes are.
    #[tactic(auto, using(crate::proofs::Readable::name_utf8))]
    pub(crate) fn of_bytes(bytes: &'a [u8]) -> Name<'a>
        requires { IsName bytes.now }
        ensures { name_bytes result ≡ bytes.now }
    {
        Name {
            text: str::from_utf8(bytes).unwrap(),
        }
    }

    /// The name itself.
    pub fn as_str(self) -> &'a str
        ensures text { result.now ≡ name_bytes self.entry }
        ensures named { IsName result.now }
    {
        self.text
    }
}
