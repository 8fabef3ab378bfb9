ghost use Rattle.std.specs.Prelude.{◌≡◌, ◌≤◌, ◌<◌, length, slice_index};
ghost use Rattle.hc_lex.specs.Number as spec;

/// The value of a digit, letters counted from 10, or 16 for a byte that is no digit.
fn digit(b: u8) -> u8
    ensures { result ≡ spec.digit b }
{
    if b.is_ascii_digit() {
        b - b'0'
    } else if b'a' <= b && b <= b'f' {
        b - b'a' + 10
    } else if b'A' <= b && b <= b'F' {
        b - b'A' + 10
    } else {
        16
    }
}

/// The value of digits of a base, where there is one, all are digits of it and the value is below 2^128.
#[tactic(auto, using(crate::proofs::Digits::numeral_is))]
fn numeral(base: u128, mut run: &[u8]) -> Option<u128>
    requires { 2 ≤ base }
    ensures { result ≡ spec.numeral base run.entry.now }
{
    if run.is_empty() {
        return None;
    }
    let mut value: u128 = 0;
    while let [b, rest @ ..] = run {
        let digit = u128::from(digit(*b));
        if base <= digit {
            return None;
        }
        match value.checked_mul(base) {
            None => return None,
            Some(high) => match high.checked_add(digit) {
                None => return None,
                Some(sum) => value = sum,
            },
        }
        run = rest;
    }
    Some(value)
}

/// The value of a run of letters, digits and `_`, by its spelling: decimal, octal behind a `0`, hexadecimal behind
/// `0x`, binary behind `0b`.
#[tactic(auto, unfolding(crate::specs::Number::number))]
pub(crate) fn number(run: &[u8]) -> Option<u128>
    ensures { result ≡ spec.number run.now }
{
    match run {
        [b'0', b'x' | b'X', digits @ ..] => numeral(16, digits),
        [b'0', b'b' | b'B', digits @ ..] => numeral(2, digits),
        [b'0', ..] => numeral(8, run),
        _ => numeral(10, run),
    }
}
