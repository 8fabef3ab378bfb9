ghost use Rattle.std.specs.Prelude.{◌≡◌, Some, slice_get, IfOk};
ghost use Rattle.hc_core.specs.Typed.{kinds_of, kind_width, kind_sign};
ghost use Rattle.hc_core.specs.Weight.{kind_length};
ghost use Rattle.hc_value.specs.Objects.{nets_of};

use crate::objects::ObjectNets;
use crate::operand::Operand;
use hc_core::{Kind, Object};
use hc_net::{Nets, NoMemory};
use std::alloc::Global;

/// What an object holds: the width of its numbers in bits, whether they have a sign, and how many elements or words there are.
#[derive(Clone, Copy)]
pub(crate) struct Shape {
    pub(crate) width: u32,
    pub(crate) signed: bool,
    pub(crate) length: u32,
}

/// An object of a kind that has no elements or words.
fn single(width: u32, signed: bool) -> Shape
    ensures width { result.width ≡ width }
    ensures signed { result.signed ≡ signed }
    ensures length { result.length ≡ 0 }
{
    Shape {
        width,
        signed,
        length: 0,
    }
}

/// An object of a kind that has `length` elements or words.
fn many(width: u32, signed: bool, length: u32) -> Shape
    ensures width { result.width ≡ width }
    ensures signed { result.signed ≡ signed }
    ensures length { result.length ≡ length }
{
    Shape {
        width,
        signed,
        length,
    }
}

/// The shape of an object of a kind.
fn shape_of(kind: &Kind) -> Shape
    ensures width { result.width ≡ kind_width (Some kind.now) }
    ensures signed { result.signed ≡ kind_sign (Some kind.now) }
    ensures length { result.length ≡ kind_length (Some kind.now) }
{
    match kind {
        Kind::Reg { width, signed, .. } => single(*width, *signed),
        Kind::Array {
            width,
            signed,
            length,
            ..
        } => many(*width, *signed, *length),
        Kind::Ram {
            width,
            signed,
            length,
            ..
        } => many(*width, *signed, *length),
        Kind::Rom {
            width,
            signed,
            length,
            ..
        } => many(*width, *signed, *length),
        Kind::Signal { width, signed, .. } => single(*width, *signed),
        Kind::Chan { width, signed, .. } => single(*width, *signed),
        Kind::Input { width, signed, .. } => single(*width, *signed),
        Kind::Output { width, signed, .. } => single(*width, *signed),
    }
}

/// The shape of the object with a number, which is 0 in all where there is none.
pub(crate) fn shape_at(objects: &[Object], k: u32) -> Shape
    ensures width { result.width ≡ kind_width (slice_get (kinds_of objects.now) k) }
    ensures signed { result.signed ≡ kind_sign (slice_get (kinds_of objects.now) k) }
    ensures length { result.length ≡ kind_length (slice_get (kinds_of objects.now) k) }
{
    match objects.get(k as usize) {
        None => single(0, false),
        Some(object) => shape_of(&object.kind),
    }
}

/// The nets of the object with a number; none where there is no such object.
pub(crate) fn nets_at<'a>(at: &'a ObjectNets, k: u32) -> &'a [u32]
    ensures { result.now ≡ nets_of at.now k }
{
    match at.objects.get(k as usize) {
        Some(nets) => nets.as_slice(),
        None => &[],
    }
}

/// A register, a signal, an input, or the word that is read of a RAM or ROM: the nets of the object as they are.
pub(crate) fn whole(
    alloc: Global,
    objects: &[Object],
    at: &ObjectNets,
    k: u32,
) -> Result<Operand, NoMemory>
    ensures nets { IfOk result (λ z. z.nets ≡ nets_of at.now k) }
    ensures signed { IfOk result (λ z. z.signed ≡ kind_sign (slice_get (kinds_of objects.now) k)) }
{
    let nets = Nets::from_slice(alloc, nets_at(at, k))?;
    Ok(Operand {
        nets,
        signed: shape_at(objects, k).signed,
    })
}
