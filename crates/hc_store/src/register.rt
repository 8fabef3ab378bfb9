ghost use Rattle.std.specs.Prelude.{◌≡◌, ◌<◌, ◌≤◌, ◌+◌, ◌*◌, ◌^◌, ◌∷◌, [], ◌++◌, length, map, slice_index, All, IfOk};
ghost use Rattle.std.specs.List.{range_with_len};
ghost use Rattle.hc_net.specs.Made.{Makes};
ghost use Rattle.hc_store.specs.Takes.{Takes, AreValues, all_nets, column_nets, joined_bit, some_both, hold_gates};

use hc_bits::{band, invert, truth};
use hc_net::{Builder, Nets, NoMemory};
use std::alloc::Global;

/// The next bits of a register that holds the bits `q`: those of the one value whose net of `enables` is 1, or `q` where none
/// is. Value i stands for enable i.
pub fn hold(
    alloc: Global,
    b: &mut Builder,
    q: &Nets,
    enables: &Nets,
    values: &[Nets],
) -> Result<Nets, NoMemory>
    requires present { All (λ k. k < length b.old.nodes) q.now }
    requires enables { All (λ k. k < length b.old.nodes) enables.now }
    requires values { AreValues (length b.old.nodes) (length q.now) values.now }
    requires writes { length values.now ≡ length enables.now }
    requires room { length b.old.nodes + hold_gates (length q.now) (length enables.now) < 2 ^ 32 }
    ensures width { IfOk result (λ z. length z ≡ length q.now) }
    ensures circuit { IfOk result (λ z. Makes (hold_gates (length q.now) (length enables.now)) (q.now ++ (enables.now ++ all_nets values.now)) b.old b.new z
        (λ v. Takes v (length enables.now) (λ i. v (slice_index enables.now i)) q.now values.now z)) }
{
    joined_bits(alloc, b, q, enables, values)
}

/// The values whose nets of `enables` are 1, joined bit by bit, or `q` where none is. Value i stands for enable i.
pub(crate) fn joined_bits(
    alloc: Global,
    b: &mut Builder,
    q: &Nets,
    enables: &Nets,
    values: &[Nets],
) -> Result<Nets, NoMemory>
    requires present { All (λ k. k < length b.old.nodes) q.now }
    requires enables { All (λ k. k < length b.old.nodes) enables.now }
    requires values { AreValues (length b.old.nodes) (length q.now) values.now }
    requires writes { length values.now ≡ length enables.now }
    requires room { length b.old.nodes + hold_gates (length q.now) (length enables.now) < 2 ^ 32 }
    ensures width { IfOk result (λ z. length z ≡ length q.now) }
    ensures circuit { IfOk result (λ z. Makes (hold_gates (length q.now) (length enables.now)) (q.now ++ (enables.now ++ all_nets values.now)) b.old b.new z
        (λ v. map v z ≡ map (joined_bit v q.now enables.now values.now) (range_with_len 0 (length q.now)))) }
{
    if enables.is_empty() {
        return Nets::from_slice(alloc, q.as_slice());
    }
    let some = truth(alloc, b, enables)?;
    let none = invert(alloc, b, &some)?;
    let choices = joined(alloc, enables, &none)?;
    next_bits(alloc, b, &choices, q, values)
}

/// The nets of `low`, and above them those of `high`.
fn joined(alloc: Global, low: &Nets, high: &Nets) -> Result<Nets, NoMemory>
    ensures { IfOk result (λ nets. nets ≡ low.now ++ high.now) }
{
    let mut nets = Nets::from_slice(alloc, low.as_slice())?;
    for net in high.as_slice() {
        nets.push(*net)?;
    }
    Ok(nets)
}

/// Each bit, by the choices: those of the values in order, and then that of the present bits.
pub(crate) fn next_bits(
    alloc: Global,
    b: &mut Builder,
    choices: &Nets,
    q: &Nets,
    values: &[Nets],
) -> Result<Nets, NoMemory>
    requires choices { All (λ k. k < length b.old.nodes) choices.now }
    requires present { All (λ k. k < length b.old.nodes) q.now }
    requires values { AreValues (length b.old.nodes) (length q.now) values.now }
    requires writes { length choices.now ≡ length values.now + 1 }
    requires room { length b.old.nodes + length q.now * (2 * length choices.now) < 2 ^ 32 }
    ensures width { IfOk result (λ z. length z ≡ length q.now) }
    ensures circuit { IfOk result (λ z. Makes (length q.now * (2 * length choices.now)) (choices.now ++ (q.now ++ all_nets values.now)) b.old b.new z
        (λ v. map v z ≡ map (λ i. some_both (map v choices.now) (map v (column_nets q.now values.now i))) (range_with_len 0 (length q.now)))) }
{
    let mut next = Nets::new(alloc);
    for i in 0..q.len() {
        let column = column(alloc, q, values, i)?;
        let bit = any_both(alloc, b, choices, &column)?;
        next.push(bit)?;
    }
    Ok(next)
}

/// Bit `i` of each value, and behind these that of the present bits.
fn column(alloc: Global, q: &Nets, values: &[Nets], i: usize) -> Result<Nets, NoMemory>
    requires within { i < length q.now }
    requires values { All (λ value. i < length value) values.now }
    ensures { IfOk result (λ nets. nets ≡ column_nets q.now values.now i) }
{
    let mut nets = Nets::new(alloc);
    for value in values {
        nets.push(value.as_slice()[i])?;
    }
    nets.push(q.as_slice()[i])?;
    Ok(nets)
}

/// One bit, 1 where a net of `choices` is and the net of `bits` in the same place is too.
fn any_both(alloc: Global, b: &mut Builder, choices: &Nets, bits: &Nets) -> Result<u32, NoMemory>
    requires choices { All (λ k. k < length b.old.nodes) choices.now }
    requires bits { All (λ k. k < length b.old.nodes) bits.now }
    requires same { length bits.now ≡ length choices.now }
    requires some { 1 ≤ length choices.now }
    requires room { length b.old.nodes + 2 * length choices.now < 2 ^ 32 }
    ensures { IfOk result (λ z. Makes (2 * length choices.now) (choices.now ++ bits.now) b.old b.new (z ∷ []) (λ v. v z ≡ some_both (map v choices.now) (map v bits.now))) }
{
    let both = band(alloc, b, choices, bits)?;
    let some = truth(alloc, b, &both)?;
    Ok(some.as_slice()[0])
}
