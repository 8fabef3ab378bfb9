ghost use Rattle.std.specs.Prelude.{◌≡◌, ◌<◌, ◌≤◌, ◌&&◌, ◌+◌, ◌*◌, ◌/◌, ◌%◌, ◌^◌, [], ◌∷◌, ◌++◌, length, map, All, IfOk, true, false, slice_index_or};
ghost use Rattle.hc_net.specs.Made.{Makes};
ghost use Rattle.hc_bits.specs.Carry.{carry_out, carries, paired, both_pass, upper_pass};
ghost use Rattle.hc_bits.specs.Carry.{each as each_bit};

use crate::carry::carry_out;
use crate::each::each;
use crate::gates::{and, or};
use hc_net::{Builder, GateKind, Nets, NoMemory};
use std::alloc::Global;

/// The carry out of place `i`, where `g` is its net and `c` comes in. A place without a net in `p` passes each carry on.
fn carry_past(b: &mut Builder, g: u32, p: &[u32], i: usize, c: u32) -> Result<u32, NoMemory>
    requires generates { g < length b.old.nodes }
    requires passes { All (λ k. k < length b.old.nodes) p.now }
    requires carry { c < length b.old.nodes }
    requires room { length b.old.nodes + 2 < 2 ^ 32 }
    ensures { IfOk result (λ z. Makes 2 (g ∷ c ∷ p.now) b.old b.new (z ∷ []) (λ v. v z ≡ carry_out (v g) (slice_index_or (map v p.now) i true) (v c))) }
{
    if i < p.len() {
        carry_out(b, g, p[i], c)
    } else {
        or(b, g, c)
    }
}

/// Where each pair of neighbours generates a carry. A place that is left over at the top is left out.
fn paired(alloc: Global, b: &mut Builder, g: &[u32], p: &[u32]) -> Result<Nets, NoMemory>
    requires generates { All (λ k. k < length b.old.nodes) g.now }
    requires passes { All (λ k. k < length b.old.nodes) p.now }
    requires room { length b.old.nodes + length g.now < 2 ^ 32 }
    ensures width { IfOk result (λ z. length z ≡ length g.now / 2) }
    ensures circuit { IfOk result (λ z. Makes (2 * (length g.now / 2)) (g.now ++ p.now) b.old b.new z (λ v. map v z ≡ paired (map v g.now) (map v p.now))) }
{
    let mut z = Nets::new(alloc);
    for i in 0..g.len() / 2 {
        let carry = carry_past(b, g[2 * i + 1], p, 2 * i + 1, g[2 * i])?;
        z.push(carry)?;
    }
    Ok(z)
}

/// Where each pair of neighbours passes a carry on. No carry comes in at the lowest pair, which gets no gate.
fn upper_pass(alloc: Global, b: &mut Builder, p: &[u32]) -> Result<Nets, NoMemory>
    requires passes { All (λ k. k < length b.old.nodes) p.now }
    requires room { length b.old.nodes + length p.now < 2 ^ 32 }
    ensures width { IfOk result (λ z. length z ≡ length p.now / 2) }
    ensures circuit { IfOk result (λ z. Makes (length p.now / 2) p.now b.old b.new z (λ v. map v z ≡ upper_pass (map v p.now))) }
{
    let mut z = Nets::new(alloc);
    if p.len() < 2 {
        return Ok(z);
    }
    z.push(p[1])?;
    for i in 1..p.len() / 2 {
        let passes = and(b, p[2 * i + 1], p[2 * i])?;
        z.push(passes)?;
    }
    Ok(z)
}

/// The carry out of place `i`, where `c` has those of the pairs: it is the one of a pair that ends there, or comes from the
/// pair below.
fn carry_at(b: &mut Builder, g: &[u32], p: &[u32], c: &[u32], i: usize) -> Result<u32, NoMemory>
    requires generates { All (λ k. k < length b.old.nodes) g.now }
    requires passes { All (λ k. k < length b.old.nodes) p.now }
    requires carries { All (λ k. k < length b.old.nodes) c.now }
    requires width { 1 ≤ length p.now → length p.now ≡ length g.now }
    requires pairs { length c.now ≡ length g.now / 2 }
    requires place { i < length g.now }
    requires room { length b.old.nodes + 2 * ((i + 1) % 2) < 2 ^ 32 }
    ensures { IfOk result (λ z. Makes (2 * ((i + 1) % 2)) (g.now ++ (p.now ++ c.now)) b.old b.new (z ∷ []) (λ v. map v c.now ≡ carries false (paired (map v g.now) (map v p.now)) (both_pass (map v p.now)) → v z ≡ slice_index_or (carries false (map v g.now) (map v p.now)) i false)) }
{
    if i % 2 == 1 {
        Ok(c[i / 2])
    } else if i == 0 {
        Ok(g[0])
    } else {
        carry_past(b, g[i], p, i, c[i / 2 - 1])
    }
}

/// The carry out of each place, where `c` has those of the pairs.
fn spread(alloc: Global, b: &mut Builder, g: &[u32], p: &[u32], c: &[u32]) -> Result<Nets, NoMemory>
    requires generates { All (λ k. k < length b.old.nodes) g.now }
    requires passes { All (λ k. k < length b.old.nodes) p.now }
    requires carries { All (λ k. k < length b.old.nodes) c.now }
    requires width { 1 ≤ length p.now → length p.now ≡ length g.now }
    requires pairs { length c.now ≡ length g.now / 2 }
    requires room { length b.old.nodes + 2 * ((length g.now + 1) / 2) < 2 ^ 32 }
    ensures width { IfOk result (λ z. length z ≡ length g.now) }
    ensures circuit { IfOk result (λ z. Makes (2 * ((length g.now + 1) / 2)) (g.now ++ (p.now ++ c.now)) b.old b.new z (λ v. map v c.now ≡ carries false (paired (map v g.now) (map v p.now)) (both_pass (map v p.now)) → map v z ≡ carries false (map v g.now) (map v p.now))) }
{
    let mut z = Nets::new(alloc);
    for i in 0..g.len() {
        let carry = carry_at(b, g, p, c, i)?;
        z.push(carry)?;
    }
    Ok(z)
}

/// The carry out of each place, lowest first, as a parallel prefix after Brent and Kung: pairs of neighbours become one place
/// each, these give the carries out of the pairs, and each place between two pairs has its carry from the pair below.
/// No carry comes in at the lowest place. With no nets in `p` each place passes each carry on.
pub(crate) fn prefix_carries(
    alloc: Global,
    b: &mut Builder,
    g: &[u32],
    p: &[u32],
) -> Result<Nets, NoMemory>
    requires generates { All (λ k. k < length b.old.nodes) g.now }
    requires passes { All (λ k. k < length b.old.nodes) p.now }
    requires width { length p.now ≤ length g.now }
    requires each_or_none { 1 ≤ length p.now → length p.now ≡ length g.now }
    requires room { length b.old.nodes + 5 * length g.now < 2 ^ 32 }
    ensures width { IfOk result (λ c. length c ≡ length g.now) }
    ensures circuit { IfOk result (λ c. Makes (5 * length g.now) (g.now ++ p.now) b.old b.new c (λ v. map v c ≡ carries false (map v g.now) (map v p.now))) }
{
    if g.len() < 2 {
        return Nets::from_slice(alloc, g);
    }
    let high_g = paired(alloc, b, g, p)?;
    let high_p = upper_pass(alloc, b, p)?;
    let c = prefix_carries(alloc, b, high_g.as_slice(), high_p.as_slice())?;
    spread(alloc, b, g, p, c.as_slice())
}

/// The carry out of each place of a sum, lowest first, where `s` has the places in which the two numbers differ: these pass
/// a carry on, and a place makes one where both numbers have a 1.
pub(crate) fn sum_carries(
    alloc: Global,
    b: &mut Builder,
    s: &[u32],
    x: &[u32],
    y: &[u32],
) -> Result<Nets, NoMemory>
    requires own { All (λ k. k < length b.old.nodes) s.now }
    requires left { All (λ k. k < length b.old.nodes) x.now }
    requires right { All (λ k. k < length b.old.nodes) y.now }
    requires width { length x.now ≤ length y.now }
    requires own_width { length x.now ≤ length s.now }
    requires room { length b.old.nodes + 6 * length x.now < 2 ^ 32 }
    ensures width { IfOk result (λ c. length c ≡ length x.now) }
    ensures circuit { IfOk result (λ c. Makes (6 * length x.now) (s.now ++ (x.now ++ y.now)) b.old b.new c (λ v. map v c ≡ carries false (each_bit ◌&&◌ (map v x.now) (map v y.now)) (map v s.now))) }
{
    let g = each(alloc, b, GateKind::And, x, y)?;
    prefix_carries(alloc, b, g.as_slice(), &s[..x.len()])
}
