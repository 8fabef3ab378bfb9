ghost use Rattle.std.specs.Prelude.{◌≡◌, ◌<◌, ◌≤◌, ◌+◌, ◌*◌, ◌^◌, [], ◌∷◌, ◌++◌, ◌&&◌, ◌||◌, Bool, List, not, length, map, All, IfOk, false};
ghost use Rattle.hc_net.specs.Made.{Makes};
ghost use Rattle.hc_bits.specs.Carry.{carry_out, carries, digits};
ghost use Rattle.hc_bits.specs.Carry.{each as each_bit};

use crate::each::{above, each};
use crate::gates::{and, or};
use hc_net::{Builder, GateKind, Nets, NoMemory};
use std::alloc::Global;

/// The carry out of a place that generates one, or passes on the one that comes in.
pub(crate) fn carry_out(b: &mut Builder, g: u32, p: u32, c: u32) -> Result<u32, NoMemory>
    requires generates { g < length b.old.nodes }
    requires passes { p < length b.old.nodes }
    requires carry { c < length b.old.nodes }
    requires room { length b.old.nodes + 2 < 2 ^ 32 }
    ensures { IfOk result (λ z. Makes 2 (g ∷ p ∷ c ∷ []) b.old b.new (z ∷ []) (λ v. v z ≡ carry_out (v g) (v p) (v c))) }
{
    let passed = and(b, p, c)?;
    or(b, g, passed)
}

/// The carry out of each place, lowest first, as a chain: `g` has where a place generates one, `p` where it passes one
/// on. No carry comes in at the lowest place.
pub(crate) fn carries(
    alloc: Global,
    b: &mut Builder,
    g: &[u32],
    p: &[u32],
) -> Result<Nets, NoMemory>
    requires generates { All (λ k. k < length b.old.nodes) g.now }
    requires passes { All (λ k. k < length b.old.nodes) p.now }
    requires some { 1 ≤ length g.now }
    requires width { length g.now ≤ length p.now }
    requires room { length b.old.nodes + 2 * length g.now < 2 ^ 32 }
    ensures width { IfOk result (λ c. length c ≡ length g.now) }
    ensures circuit { IfOk result (λ c. Makes (2 * length g.now) (g.now ++ p.now) b.old b.new c (λ v. map v c ≡ carries false (map v g.now) (map v p.now))) }
{
    let mut carry = g[0];
    let mut c = Nets::new(alloc);
    c.push(carry)?;
    for i in 1..g.len() {
        carry = carry_out(b, g[i], p[i], carry)?;
        c.push(carry)?;
    }
    Ok(c)
}

/// Where a place passes a borrow on: where its own bit in `s` is 0. No borrow comes in at the lowest place, which gets no
/// gate.
pub(crate) fn passing(alloc: Global, b: &mut Builder, s: &[u32]) -> Result<Nets, NoMemory>
    requires own { All (λ k. k < length b.old.nodes) s.now }
    requires some { 1 ≤ length s.now }
    requires room { length b.old.nodes + length s.now < 2 ^ 32 }
    ensures width { IfOk result (λ p. length p ≡ length s.now) }
    ensures circuit { IfOk result (λ p. Makes (length s.now) s.now b.old b.new p (λ v. (g : List Bool) → carries false g (map v p) ≡ carries false g (each_bit (λ x y. not x) (map v s.now) (map v s.now)))) }
{
    let rest = &s[1..];
    let turned = each(alloc, b, GateKind::Not, rest, rest)?;
    above(alloc, s[0], turned.as_slice())
}

/// The borrow out of each place of a difference, lowest first, where `s` has the places in which the two numbers differ:
/// one of these makes a borrow where `y` has a 1, and any other place passes a borrow on.
pub(crate) fn borrows(
    alloc: Global,
    b: &mut Builder,
    s: &[u32],
    y: &[u32],
) -> Result<Nets, NoMemory>
    requires own { All (λ k. k < length b.old.nodes) s.now }
    requires right { All (λ k. k < length b.old.nodes) y.now }
    requires some { 1 ≤ length s.now }
    requires width { length s.now ≤ length y.now }
    requires room { length b.old.nodes + 4 * length s.now < 2 ^ 32 }
    ensures width { IfOk result (λ c. length c ≡ length s.now) }
    ensures circuit { IfOk result (λ c. Makes (4 * length s.now) (s.now ++ y.now) b.old b.new c (λ v. map v c ≡ carries false (each_bit ◌&&◌ (map v s.now) (map v y.now)) (each_bit (λ x y. not x) (map v s.now) (map v s.now)))) }
{
    let g = each(alloc, b, GateKind::And, s, y)?;
    let p = passing(alloc, b, s)?;
    carries(alloc, b, g.as_slice(), p.as_slice())
}

/// The digits of a sum or a difference: each place's own bit in `s`, changed by the carry out of the place below it.
pub(crate) fn digits(alloc: Global, b: &mut Builder, s: &[u32], c: &[u32]) -> Result<Nets, NoMemory>
    requires own { All (λ k. k < length b.old.nodes) s.now }
    requires carries { All (λ k. k < length b.old.nodes) c.now }
    requires width { length s.now ≡ length c.now + 1 }
    requires room { length b.old.nodes + length c.now < 2 ^ 32 }
    ensures width { IfOk result (λ z. length z ≡ length s.now) }
    ensures circuit { IfOk result (λ z. Makes (length c.now) (s.now ++ c.now) b.old b.new z (λ v. map v z ≡ digits (map v s.now) (map v c.now))) }
{
    let changed = each(alloc, b, GateKind::Xor, &s[1..], c)?;
    above(alloc, s[0], changed.as_slice())
}
