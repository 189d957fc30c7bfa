//! Numbers from their digits.
ghost use Rattle.std.specs.Prelude.{◌≡◌, ℕ, min, true, false, MatchOption};
ghost use Rattle.std.specs.Char.{is_ascii_digit};
ghost use Rattle.std.specs.List.{prefix_len};
ghost use Rattle.std.specs.Str.Parse.{digits_value, digits_value_after};
ghost use Rattle.sf_decimal.specs.Decimals.{digits_at, after_digits, signed, is_narrow};

/// The run of digits in front of some bytes.
#[derive(Clone, Copy, Debug, PartialEq, Eq)]
pub struct Run<'a> {
    /// The number that the digits make, 0 where there are none; `u64::MAX` stands for every larger one.
    pub number: u64,
    /// How many digits there are, leading zeros among them.
    pub len: usize,
    /// The bytes behind them.
    pub rest: &'a [u8],
}

// A number of so many digits is within 64 bits, whichever they are.
const SHORT: usize = 18;

/// The digits that the bytes begin with.
pub fn digits_at(bytes: &[u8]) -> Run<'_>
    ensures number { result.number ≡ min (digits_value 10 (digits_at bytes.now)) u64.MAX }
    ensures len { result.len ≡ prefix_len is_ascii_digit bytes.now }
    ensures rest { result.rest.now ≡ after_digits bytes.now }
{
    let end = bytes.len().min(SHORT);
    let mut number = 0u64;
    let mut len = 0;
    while len < end && bytes[len].is_ascii_digit() {
        number = 10 * number + u64::from(bytes[len] - b'0');
        len += 1;
    }
    if len < SHORT {
        return Run {
            number,
            len,
            rest: &bytes[len..],
        };
    }
    let (number, rest) = digits_behind(number, &bytes[len..]);
    Run {
        number,
        len: bytes.len() - rest.len(),
        rest,
    }
}

/// The number of which these bytes go on with the digits, `u64::MAX` for every larger one, and what stands behind them.
fn digits_behind(number: u64, bytes: &[u8]) -> (u64, &[u8])
    ensures number { result.0 ≡ min (digits_value_after 10 number (digits_at bytes.now)) u64.MAX }
    ensures rest { result.1.now ≡ after_digits bytes.now }
{
    let mut number = number;
    let mut rest = bytes;
    while let [digit, behind @ ..] = rest {
        if !digit.is_ascii_digit() {
            break;
        }
        number = number
            .saturating_mul(10)
            .saturating_add(u64::from(*digit - b'0'));
        rest = behind;
    }
    (number, rest)
}

// The first number past signed 64 bits. With a minus it is the least within them.
const LIMIT: u64 = 9_223_372_036_854_775_808;

/// The number of a run with this sign, where signed 64 bits hold it.
pub fn signed(number: u64, is_negative: bool) -> Option<i64>
    // `u64::MAX` stands for every larger number.
    ensures { (n : ℕ) → number ≡ min n u64.MAX →
        MatchOption result (is_narrow (signed is_negative n) ≡ false)
        (λ z. (z ≡ signed is_negative n) × (is_narrow (signed is_negative n) ≡ true)) }
{
    if number < LIMIT {
        let positive = number as i64;
        return Some(if is_negative { -positive } else { positive });
    }
    if is_negative && number == LIMIT {
        return Some(i64::MIN);
    }
    None
}
