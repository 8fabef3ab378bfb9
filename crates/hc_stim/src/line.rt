ghost use Rattle.std.specs.Prelude.{
  ◌≡◌,
  ◌≢◌,
  ◌≤◌,
  ◌<◌,
  ◌^◌,
  ◌↔◌,
  [],
  ◌∷◌,
  true,
  IsTrue,
  IfOk,
  MatchOption,
};
ghost use Rattle.hc_stim.specs.Reading.{
  IsField,
  HasNoField,
  ReadsFields,
  HasNoFields,
  ReadsLine,
  HasNoLine,
  EndsLine,
  HasNoEnd,
  IsBehindSpace,
  HasNoSpace,
};
ghost use Rattle.hc_stim.specs.Text.{AreWidths};

use crate::number::read_number;
use std::alloc::AllocError;

/// Reads a line into the list of numbers, and gives what stands behind it; `None` where no line stands in front.
pub(crate) fn read_line<'a>(
    bytes: &'a [u8],
    widths: &[u32],
    values: &mut Vec<u128>,
) -> Result<Option<&'a [u8]>, AllocError>
    requires some { bytes.now ≢ [] }
    requires widths { AreWidths widths.now }
    ensures { IfOk result (λ found. MatchOption found
        (HasNoLine widths.now bytes.now)
        (λ rest. ReadsLine widths.now bytes.now values.old.items values.new.items rest.now)) }
{
    match read_fields(bytes, widths, values)? {
        Some(rest) => Ok(behind_line(rest)),
        None => Ok(None),
    }
}

/// What stands behind a line whose numbers stand in front of these bytes: behind its line feed, or nothing at the end.
fn behind_line(bytes: &[u8]) -> Option<&[u8]>
    ensures { MatchOption result (HasNoEnd bytes.now) (λ rest. EndsLine bytes.now rest.now) }
{
    match bytes {
        [] => Some(bytes),
        [b'\n', rest @ ..] => Some(rest),
        _ => None,
    }
}

/// Reads the numbers of a line, and gives what stands behind them; `None` where they don't stand there.
fn read_fields<'a>(
    bytes: &'a [u8],
    widths: &[u32],
    values: &mut Vec<u128>,
) -> Result<Option<&'a [u8]>, AllocError>
    requires { AreWidths widths.now }
    ensures { IfOk result (λ found. MatchOption found
        (HasNoFields widths.now bytes.now)
        (λ rest. ReadsFields widths.now bytes.now values.old.items values.new.items rest.now)) }
{
    let mut rest = bytes;
    for (i, width) in widths.iter().enumerate() {
        match read_field(rest, i == 0, *width) {
            Some((value, after)) => {
                values.push(value)?;
                rest = after;
            }
            None => return Ok(None),
        }
    }
    Ok(Some(rest))
}

/// The number of a width that stands in front, behind a space where it isn't the first of its line, and what stands
/// behind it.
fn read_field(bytes: &[u8], first: bool, width: u32) -> Option<(u128, &[u8])>
    requires { width ≤ 128 }
    ensures { MatchOption result
        (HasNoField first width bytes.now)
        (λ p. IsField first width bytes.now p.0 p.1.now) }
{
    match behind_space(bytes, first) {
        Some(number) => read_within(number, width),
        None => None,
    }
}

/// The number of a width that stands in front, and what stands behind it.
fn read_within(bytes: &[u8], width: u32) -> Option<(u128, &[u8])>
    requires { width ≤ 128 }
    ensures { MatchOption result (HasNoField true width bytes.now) (λ p. IsField true width bytes.now p.0 p.1.now) }
{
    match read_number(bytes) {
        Some((value, rest)) => {
            if fits(value, width) {
                Some((value, rest))
            } else {
                None
            }
        }
        None => None,
    }
}

/// What stands behind the space in front of a number, which the first of a line hasn't.
fn behind_space(bytes: &[u8], first: bool) -> Option<&[u8]>
    ensures { MatchOption result
        (HasNoSpace first bytes.now)
        (λ rest. IsBehindSpace first bytes.now rest.now) }
{
    match bytes {
        _ if first => Some(bytes),
        [b' ', rest @ ..] => Some(rest),
        _ => None,
    }
}

/// Whether a number is below `2^width`.
fn fits(value: u128, width: u32) -> bool
    requires { width ≤ 128 }
    ensures { IsTrue result ↔ (value < 2 ^ width) }
{
    width == 128 || value >> width == 0
}
