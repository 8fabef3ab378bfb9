ghost use Rattle.std.specs.Prelude.{◌≡◌, ◌<◌, ◌*◌, ◌++◌, length, slice_index_or, false, if◌then◌else◌, OnOk};
ghost use Rattle.hc_run.specs.Edif as spec;
ghost use Rattle.hc_run.specs.Edif.{hex_digit, hex_text};

use std::alloc::AllocError;

/// A hexadecimal digit.
fn hex_digit(number: usize) -> u8
    requires { number < 16 }
    ensures { result ≡ hex_digit number }
{
    b"0123456789abcdef"[number]
}

/// Bit k of some bits, as a number, and 0 past the last.
fn bit_at(bits: &[bool], k: usize) -> usize
    ensures value { result ≡ (if slice_index_or bits.now k false then 1 else 0) }
    ensures small { result < 2 }
{
    match bits.get(k) {
        Some(true) => 1,
        Some(false) => 0,
        None => 0,
    }
}

/// Digit i of the number of some bits.
fn digit_of(bits: &[bool], i: usize) -> u8
    requires { i * 4 < length bits.now }
    ensures { result ≡ spec.digit_of bits.now i }
{
    let first = i * 4;
    let low = bit_at(bits, first) + 2 * bit_at(bits, first + 1);
    let high = bit_at(bits, first + 2) + 2 * bit_at(bits, first + 3);
    hex_digit(low + 4 * high)
}

/// Appends the number of some bits in hexadecimal digits.
pub(crate) fn push_digits(text: &mut Vec<u8>, bits: &[bool]) -> Result<(), AllocError>
    ensures { OnOk result (text.new.items ≡ text.old.items ++ hex_text bits.now) }
{
    for i in (0..bits.len().div_ceil(4)).rev() {
        text.push(digit_of(bits, i))?;
    }
    Ok(())
}
