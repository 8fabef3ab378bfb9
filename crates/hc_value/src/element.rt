ghost use Rattle.std.specs.Prelude.{◌≡◌, ◌<◌, ◌≤◌, ◌+◌, ◌*◌, ◌^◌, ◌∷◌, [], ◌++◌, length, map, slice_get, All, IfOk};
ghost use Rattle.std.specs.List.{range_with_len};
ghost use Rattle.hc_core.specs.Typed.{kinds_of, kind_width, kind_sign};
ghost use Rattle.hc_core.specs.Weight.{kind_length};
ghost use Rattle.hc_net.specs.Bits.{number};
ghost use Rattle.hc_net.specs.Made.{Makes};
ghost use Rattle.hc_value.specs.Elements.{enabled, chosen, element_gates, fixed_nets};
ghost use Rattle.hc_value.specs.Objects.{nets_of};
ghost use Rattle.hc_bits.specs.Elements.{element_nets};

use crate::lists::repeated;
use crate::objects::ObjectNets;
use crate::operand::Operand;
use crate::shape::{Shape, nets_at, shape_at};
use hc_bits::{decode, truth};
use hc_core::Object;
use hc_net::{Builder, GateKind, Nets, NoMemory};
use std::alloc::Global;

/// The element of an array at a constant index: its nets, or `zero` for each bit where the index isn't inside.
pub(crate) fn fixed_element(
    alloc: Global,
    objects: &[Object],
    at: &ObjectNets,
    k: u32,
    index: u128,
) -> Result<Operand, NoMemory>
    requires count { length (nets_of at.now k) ≡ kind_length (slice_get (kinds_of objects.now) k) * kind_width (slice_get (kinds_of objects.now) k) }
    ensures nets { IfOk result (λ z. z.nets ≡ fixed_nets at.now.zero (kind_length (slice_get (kinds_of objects.now) k)) (kind_width (slice_get (kinds_of objects.now) k)) (nets_of at.now k) index) }
    ensures signed { IfOk result (λ z. z.signed ≡ kind_sign (slice_get (kinds_of objects.now) k)) }
{
    let shape = shape_at(objects, k);
    let nets = element_at(alloc, at.zero, nets_at(at, k), shape, index)?;
    Ok(Operand {
        nets,
        signed: shape.signed,
    })
}

/// The element of an array at the number of `index`, or 0 where that isn't inside.
pub(crate) fn read_element(
    alloc: Global,
    b: &mut Builder,
    objects: &[Object],
    at: &ObjectNets,
    k: u32,
    index: &Nets,
) -> Result<Operand, NoMemory>
    requires nets { All (λ k. k < length b.old.nodes) (nets_of at.now k) }
    requires index { All (λ k. k < length b.old.nodes) index.now }
    requires count { length (nets_of at.now k) ≡ kind_length (slice_get (kinds_of objects.now) k) * kind_width (slice_get (kinds_of objects.now) k) }
    requires some_elements { 1 ≤ kind_length (slice_get (kinds_of objects.now) k) }
    requires some_index { 1 ≤ length index.now }
    requires numbers { kind_length (slice_get (kinds_of objects.now) k) ≤ 2 ^ length index.now }
    requires room { length b.old.nodes + element_gates (kind_length (slice_get (kinds_of objects.now) k)) (kind_width (slice_get (kinds_of objects.now) k)) (length index.now) < 2 ^ 32 }
    ensures width { IfOk result (λ z. length z.nets ≡ kind_width (slice_get (kinds_of objects.now) k)) }
    ensures signed { IfOk result (λ z. z.signed ≡ kind_sign (slice_get (kinds_of objects.now) k)) }
    ensures circuit { IfOk result (λ z. Makes (element_gates (kind_length (slice_get (kinds_of objects.now) k)) (kind_width (slice_get (kinds_of objects.now) k)) (length index.now)) (nets_of at.now k ++ index.now) b.old b.new z.nets (λ v. number (map v z.nets) ≡ number (map v (element_nets (kind_width (slice_get (kinds_of objects.now) k)) (nets_of at.now k) (number (map v index.now)))))) }
{
    let shape = shape_at(objects, k);
    let nets = element(alloc, b, nets_at(at, k), shape, index)?;
    Ok(Operand {
        nets,
        signed: shape.signed,
    })
}

/// The nets of the element at a constant index.
fn element_at(
    alloc: Global,
    zero: u32,
    nets: &[u32],
    shape: Shape,
    index: u128,
) -> Result<Nets, NoMemory>
    requires count { length nets.now ≡ shape.length * shape.width }
    ensures { IfOk result (λ z. z ≡ fixed_nets zero shape.length shape.width nets.now index) }
{
    let width = shape.width as usize;
    if index < shape.length as u128 {
        let rest = &nets[index as usize * width..];
        Nets::from_slice(alloc, &rest[..width])
    } else {
        repeated(alloc, zero, width)
    }
}

/// The nets of the element at the number of `index`: the index is decoded once, and each bit is chosen by the enables of all
/// elements.
fn element(
    alloc: Global,
    b: &mut Builder,
    nets: &[u32],
    shape: Shape,
    index: &Nets,
) -> Result<Nets, NoMemory>
    requires nets { All (λ k. k < length b.old.nodes) nets.now }
    requires index { All (λ k. k < length b.old.nodes) index.now }
    requires count { length nets.now ≡ shape.length * shape.width }
    requires some_elements { 1 ≤ shape.length }
    requires some_index { 1 ≤ length index.now }
    requires numbers { shape.length ≤ 2 ^ length index.now }
    requires room { length b.old.nodes + element_gates shape.length shape.width (length index.now) < 2 ^ 32 }
    ensures width { IfOk result (λ z. length z ≡ shape.width) }
    ensures circuit { IfOk result (λ z. Makes (element_gates shape.length shape.width (length index.now)) (nets.now ++ index.now) b.old b.new z (λ v. number (map v z) ≡ number (map v (element_nets shape.width nets.now (number (map v index.now)))))) }
{
    let enables = decode(alloc, b, index, shape.length)?;
    chosen_bits(alloc, b, enables.as_slice(), nets, shape.width)
}

/// The bits of the element whose enable is 1.
fn chosen_bits(
    alloc: Global,
    b: &mut Builder,
    enables: &[u32],
    nets: &[u32],
    width: u32,
) -> Result<Nets, NoMemory>
    requires enables { All (λ k. k < length b.old.nodes) enables.now }
    requires nets { All (λ k. k < length b.old.nodes) nets.now }
    requires count { length nets.now ≡ length enables.now * width }
    requires some { 1 ≤ length enables.now }
    requires room { length b.old.nodes + width * (2 * length enables.now) < 2 ^ 32 }
    ensures width { IfOk result (λ z. length z ≡ width) }
    ensures circuit { IfOk result (λ z. Makes (width * (2 * length enables.now)) (enables.now ++ nets.now) b.old b.new z (λ v. map v z ≡ map (λ place. chosen v enables.now nets.now width place) (range_with_len 0 width))) }
{
    let mut bits = Nets::new(alloc);
    for place in 0..width {
        let bit = chosen_bit(alloc, b, enables, nets, width, place)?;
        bits.push(bit)?;
    }
    Ok(bits)
}

/// One bit of the element whose enable is 1, and 0 where none is.
fn chosen_bit(
    alloc: Global,
    b: &mut Builder,
    enables: &[u32],
    nets: &[u32],
    width: u32,
    place: u32,
) -> Result<u32, NoMemory>
    requires enables { All (λ k. k < length b.old.nodes) enables.now }
    requires nets { All (λ k. k < length b.old.nodes) nets.now }
    requires count { length nets.now ≡ length enables.now * width }
    requires some { 1 ≤ length enables.now }
    requires place { place < width }
    requires room { length b.old.nodes + 2 * length enables.now < 2 ^ 32 }
    ensures { IfOk result (λ z. Makes (2 * length enables.now) (enables.now ++ nets.now) b.old b.new (z ∷ []) (λ v. v z ≡ chosen v enables.now nets.now width place)) }
{
    let terms = enabled_bits(alloc, b, enables, nets, width, place)?;
    let some = truth(alloc, b, &terms)?;
    Ok(some.as_slice()[0])
}

/// One bit of each element where its enable is 1, else 0.
fn enabled_bits(
    alloc: Global,
    b: &mut Builder,
    enables: &[u32],
    nets: &[u32],
    width: u32,
    place: u32,
) -> Result<Nets, NoMemory>
    requires enables { All (λ k. k < length b.old.nodes) enables.now }
    requires nets { All (λ k. k < length b.old.nodes) nets.now }
    requires count { length nets.now ≡ length enables.now * width }
    requires place { place < width }
    requires room { length b.old.nodes + length enables.now < 2 ^ 32 }
    ensures width { IfOk result (λ z. length z ≡ length enables.now) }
    ensures circuit { IfOk result (λ z. Makes (length enables.now) (enables.now ++ nets.now) b.old b.new z (λ v. map v z ≡ map (λ i. enabled v enables.now nets.now width place i) (range_with_len 0 (length enables.now)))) }
{
    let mut terms = Nets::new(alloc);
    for i in 0..enables.len() {
        let net = nets[i * width as usize + place as usize];
        let term = b.gate(GateKind::And, enables[i], net)?;
        terms.push(term)?;
    }
    Ok(terms)
}
