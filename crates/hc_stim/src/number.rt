ghost use Rattle.std.specs.Prelude.{◌≡◌, ◌≤◌, ◌<◌, ◌+◌, ◌-◌, ◌*◌, ◌^◌, ◌++◌, ◌∷◌, decimal, MatchOption};
ghost use Rattle.hc_stim.specs.Reading.{HasNoDigit, BeginsWithDigit, HasNoNumber, IsNumber};

/// The number that stands in front in decimal, without leading zeros, and what stands behind it; `None` where there is
/// none, or it is `2^128` or more.
pub(crate) fn read_number(bytes: &[u8]) -> Option<(u128, &[u8])>
    ensures { MatchOption result (HasNoNumber bytes.now) (λ p. IsNumber bytes.now p.0 p.1.now) }
{
    match split_digit(bytes) {
        Some((b'0', rest)) => read_zero(rest),
        Some((first, rest)) => read_digits(u128::from(first - b'0'), rest),
        None => None,
    }
}

/// The number 0 behind whose digit these bytes stand, where they don't begin with a digit.
fn read_zero(rest: &[u8]) -> Option<(u128, &[u8])>
    ensures { MatchOption result (HasNoNumber (48 ∷ rest.now)) (λ p. IsNumber (48 ∷ rest.now) p.0 p.1.now) }
{
    match split_digit(rest) {
        Some(_) => None,
        None => Some((0, rest)),
    }
}

/// The number that begins with a digit that isn't 0 and goes on with the digits in front of the bytes.
fn read_digits(first: u128, bytes: &[u8]) -> Option<(u128, &[u8])>
    requires some { 0 < first }
    requires digit { first < 10 }
    ensures { MatchOption result
        (HasNoNumber (decimal first ++ bytes.now))
        (λ p. IsNumber (decimal first ++ bytes.now) p.0 p.1.now) }
{
    let mut value = first;
    let mut rest = bytes;
    while let Some((digit, after)) = split_digit(rest) {
        match with_digit(value, digit) {
            Some(more) => value = more,
            None => return None,
        }
        rest = after;
    }
    Some((value, rest))
}

/// A number with one more digit behind it, or `None` where it is `2^128` or more.
fn with_digit(value: u128, digit: u8) -> Option<u128>
    requires low { 48 ≤ digit }
    requires high { digit ≤ 57 }
    ensures { MatchOption result (2 ^ 128 ≤ value * 10 + (digit - 48)) (λ n. (n ≡ value * 10 + (digit - 48)) × (n < 2 ^ 128)) }
{
    match value.checked_mul(10) {
        Some(tens) => tens.checked_add(u128::from(digit - b'0')),
        None => None,
    }
}

/// The digit in front of the bytes, and what stands behind it.
fn split_digit(bytes: &[u8]) -> Option<(u8, &[u8])>
    ensures { MatchOption result (HasNoDigit bytes.now) (λ p. BeginsWithDigit bytes.now p.0 p.1.now) }
{
    match bytes {
        [digit @ b'0'..=b'9', rest @ ..] => Some((*digit, rest)),
        _ => None,
    }
}
