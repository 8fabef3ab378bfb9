ghost use Rattle.std.specs.Prelude.{◌≡◌, ◌<◌, ◌≤◌, ◌+◌, ◌*◌, ◌^◌, ◌∷◌, [], ◌++◌, length, map, All, IfOk};
ghost use Rattle.std.specs.List.{range_with_len};
ghost use Rattle.hc_net.specs.Made.{Makes};
ghost use Rattle.hc_ram.specs.Enabled.{AreLists, all_nets, any_enabled, column_nets};

use hc_bits::{band, truth};
use hc_net::{Builder, Nets, NoMemory};
use std::alloc::Global;

/// `width` bits, of which number i is 1 where some use has its net of `enables` and bit i of its value. Value i stands for enable
/// i.
pub(crate) fn any_enabled(
    alloc: Global,
    b: &mut Builder,
    width: usize,
    enables: &Nets,
    values: &[Nets],
) -> Result<Nets, NoMemory>
    requires enables { All (λ k. k < length b.old.nodes) enables.now }
    requires values { AreLists (length b.old.nodes) width values.now }
    requires uses { length values.now ≡ length enables.now }
    requires some { 1 ≤ length enables.now }
    requires room { length b.old.nodes + width * (2 * length enables.now) < 2 ^ 32 }
    ensures width { IfOk result (λ z. length z ≡ width) }
    ensures circuit { IfOk result (λ z. Makes (width * (2 * length enables.now)) (enables.now ++ all_nets values.now) b.old b.new z
        (λ v. map v z ≡ map (any_enabled v enables.now values.now) (range_with_len 0 width))) }
{
    let mut bits = Nets::new(alloc);
    for i in 0..width {
        let bit = any_bit(alloc, b, enables, values, i)?;
        bits.push(bit)?;
    }
    Ok(bits)
}

/// One bit, 1 where some use has its net of `enables` and bit `i` of its value.
fn any_bit(
    alloc: Global,
    b: &mut Builder,
    enables: &Nets,
    values: &[Nets],
    i: usize,
) -> Result<u32, NoMemory>
    requires enables { All (λ k. k < length b.old.nodes) enables.now }
    requires values { All (All (λ k. k < length b.old.nodes)) values.now }
    requires within { All (λ value. i < length value) values.now }
    requires uses { length values.now ≡ length enables.now }
    requires some { 1 ≤ length enables.now }
    requires room { length b.old.nodes + 2 * length enables.now < 2 ^ 32 }
    ensures { IfOk result (λ z. Makes (2 * length enables.now) (enables.now ++ all_nets values.now) b.old b.new (z ∷ []) (λ v. v z ≡ any_enabled v enables.now values.now i)) }
{
    let bits = column(alloc, values, i)?;
    let both = band(alloc, b, enables, &bits)?;
    let some = truth(alloc, b, &both)?;
    Ok(some.as_slice()[0])
}

/// Bit `i` of each value.
fn column(alloc: Global, values: &[Nets], i: usize) -> Result<Nets, NoMemory>
    requires { All (λ value. i < length value) values.now }
    ensures { IfOk result (λ nets. nets ≡ column_nets values.now i) }
{
    let mut nets = Nets::new(alloc);
    for value in values {
        nets.push(value.as_slice()[i])?;
    }
    Ok(nets)
}
