ghost use Rattle.std.specs.Prelude.{◌≡◌, ◌+◌, ◌≤◌, ◌<◌, ◌^◌, length, fold};
ghost use Rattle.sf_lex.specs.Tokens.{place_step};

use sf_refusal::Spot;

/// The place behind these bytes, which begin at the place.
pub(crate) fn after(place: Spot, passed: &[u8]) -> Spot
    requires line { place.line + length passed.now < 2 ^ 32 }
    requires column { place.column + length passed.now < 2 ^ 32 }
    ensures { result ≡ fold place_step place passed.now }
{
    let mut place = place;
    for b in passed {
        if *b == b'\n' {
            place = Spot {
                line: place.line + 1,
                column: 1,
            };
        } else {
            place = Spot {
                line: place.line,
                column: place.column + 1,
            };
        }
    }
    place
}
