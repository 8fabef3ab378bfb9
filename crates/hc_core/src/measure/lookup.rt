//! What an object's number says of its object.

ghost use Rattle.std.specs.Prelude.{◌≡◌, Some, slice_get};
ghost use Rattle.hc_core.specs.Typed.{kinds_of, kind_width};
ghost use Rattle.hc_core.specs.Weight.{kind_length};

use crate::object::{Kind, Object};

/// The width of an object in bits.
pub(crate) fn width_of(kind: &Kind) -> u32
    ensures { result ≡ kind_width (Some kind.now) }
{
    match kind {
        Kind::Reg { width, .. } => *width,
        Kind::Array { width, .. } => *width,
        Kind::Ram { width, .. } => *width,
        Kind::Rom { width, .. } => *width,
        Kind::Signal { width, .. } => *width,
        Kind::Chan { width, .. } => *width,
        Kind::Input { width, .. } => *width,
        Kind::Output { width, .. } => *width,
    }
}

fn length_of(kind: &Kind) -> u32
    ensures { result ≡ kind_length (Some kind.now) }
{
    match kind {
        Kind::Array { length, .. } => *length,
        Kind::Ram { length, .. } => *length,
        Kind::Rom { length, .. } => *length,
        Kind::Reg { .. } => 0,
        Kind::Signal { .. } => 0,
        Kind::Chan { .. } => 0,
        Kind::Input { .. } => 0,
        Kind::Output { .. } => 0,
    }
}

/// The width of an object in bits, or 0 where there is none.
pub(crate) fn width_at(objects: &[Object], k: u32) -> u32
    ensures { result ≡ kind_width (slice_get (kinds_of objects.now) k) }
{
    match objects.get(k as usize) {
        None => 0,
        Some(object) => width_of(&object.kind),
    }
}

/// How many elements or words an object has; 0 where it has none.
pub(crate) fn length_at(objects: &[Object], k: u32) -> u32
    ensures { result ≡ kind_length (slice_get (kinds_of objects.now) k) }
{
    match objects.get(k as usize) {
        None => 0,
        Some(object) => length_of(&object.kind),
    }
}
