//! Where forms begin.
ghost use Rattle.std.specs.Prelude.{◌≡◌};
ghost use Rattle.sf_text.specs.Parsing.Answers.{stop_for, built_as};

use crate::parts::stop::Stop;
use sf_refusal::{Rule, Spot};
use sf_term::BuildRefusal;

/// Where a form begins: the place of its first token, and how many tokens there are from that one on.
#[derive(Clone, Copy, Debug)]
pub struct Mark {
    pub spot: Spot,
    pub ahead: usize,
}

impl Mark {
    /// What a program answers of the form; where it took no more of it, a stop at the form.
    pub fn built<T>(self, added: Result<T, BuildRefusal>) -> Result<T, Stop>
        ensures { result ≡ built_as self.ahead added }
    {
        match added {
            Ok(id) => Ok(id),
            Err(refusal) => Err(refused(refusal, self.ahead)),
        }
    }
}

/// Why a program took no more of a form that has so many tokens ahead at its first one.
pub fn refused(refusal: BuildRefusal, ahead: usize) -> Stop
    ensures { result ≡ stop_for refusal ahead }
{
    match refusal {
        BuildRefusal::TooMany => Stop::At(Rule::TooMany, ahead),
        BuildRefusal::TooDeep => Stop::At(Rule::TooDeep, ahead),
        BuildRefusal::BadName => Stop::At(Rule::Unexpected, ahead),
        BuildRefusal::Memory => Stop::Memory,
    }
}
