ghost use Rattle.std.specs.Prelude.{◌≡◌, ◌<◌, ◌⊎◌, ℕ, not, ◌≤◌, ◌+◌, ◌-◌, ◌*◌, ◌^◌, ◌∷◌, [], ◌++◌, ◌&&◌, ◌||◌, map, length, slice_index, All, IfOk};
ghost use Rattle.std.specs.List.{range_with_len};
ghost use Rattle.hc_net.specs.Made.{Makes};
ghost use Rattle.hc_token.specs.Circuits.{every};
ghost use Rattle.hc_token.specs.Control.{IsNever, IsAlways};

use hc_net::{Builder, GateKind, Nets, NoMemory};
use std::alloc::Global;

/// 1 where both nets are. A constant takes no gate.
pub fn and(b: &mut Builder, x: u32, y: u32) -> Result<u32, NoMemory>
    requires left { x < length b.old.nodes }
    requires right { y < length b.old.nodes }
    requires room { length b.old.nodes + 1 < 2 ^ 32 }
    ensures circuit { IfOk result (λ z. Makes 1 (x ∷ y ∷ []) b.old b.new (z ∷ []) (λ v. v z ≡ (v x && v y))) }
    ensures never { IfOk result (λ z. IsNever b.old.nodes x ⊎ IsNever b.old.nodes y → IsNever b.new.nodes z) }
    ensures always { IfOk result (λ z. IsAlways b.old.nodes x → IsAlways b.old.nodes y → IsAlways b.new.nodes z) }
{
    match b.constant(x) {
        Some(true) => Ok(y),
        Some(false) => Ok(x),
        None => match b.constant(y) {
            Some(true) => Ok(x),
            Some(false) => Ok(y),
            None => b.gate(GateKind::And, x, y),
        },
    }
}

/// 1 where one of the nets is. A constant takes no gate: the other net stands where one net is the constant 0, the first where
/// both are.
pub fn or(b: &mut Builder, x: u32, y: u32) -> Result<u32, NoMemory>
    requires left { x < length b.old.nodes }
    requires right { y < length b.old.nodes }
    requires room { length b.old.nodes + 1 < 2 ^ 32 }
    ensures circuit { IfOk result (λ z. Makes 1 (x ∷ y ∷ []) b.old b.new (z ∷ []) (λ v. v z ≡ (v x || v y))) }
    ensures never { IfOk result (λ z. IsNever b.old.nodes x → IsNever b.old.nodes y → IsNever b.new.nodes z) }
    ensures always { IfOk result (λ z. IsAlways b.old.nodes x ⊎ IsAlways b.old.nodes y → IsAlways b.new.nodes z) }
    ensures first { IfOk result (λ z. IsNever b.old.nodes y → z ≡ x) }
    ensures second { IfOk result (λ z. IsNever b.old.nodes x → (z ≡ y) ⊎ IsNever b.old.nodes y) }
{
    match b.constant(y) {
        Some(true) => Ok(y),
        Some(false) => Ok(x),
        None => match b.constant(x) {
            Some(true) => Ok(x),
            Some(false) => Ok(y),
            None => b.gate(GateKind::Or, x, y),
        },
    }
}

/// 1 where the net is 0.
pub fn not(b: &mut Builder, x: u32) -> Result<u32, NoMemory>
    requires net { x < length b.old.nodes }
    requires room { length b.old.nodes + 1 < 2 ^ 32 }
    ensures circuit { IfOk result (λ z. Makes 1 (x ∷ []) b.old b.new (z ∷ []) (λ v. v z ≡ not (v x))) }
    ensures never { IfOk result (λ z. IsAlways b.old.nodes x → IsNever b.new.nodes z) }
    ensures always { IfOk result (λ z. IsNever b.old.nodes x → IsAlways b.new.nodes z) }
{
    match b.constant(x) {
        Some(true) => b.gate(GateKind::Zero, 0, 0),
        Some(false) => b.gate(GateKind::One, 0, 0),
        None => b.gate(GateKind::Not, x, 0),
    }
}

/// 1 where all of these nets are. There is one at least.
pub fn all(alloc: Global, b: &mut Builder, x: &Nets) -> Result<u32, NoMemory>
    requires nets { All (λ k. k < length b.old.nodes) x.now }
    requires width { 1 ≤ length x.now }
    requires room { length b.old.nodes + length x.now < 2 ^ 32 }
    ensures circuit { IfOk result (λ z. Makes (length x.now - 1) x.now b.old b.new (z ∷ []) (λ v. v z ≡ every (map v x.now))) }
    ensures never { IfOk result (λ z. (i : ℕ) → i < length x.now → IsNever b.old.nodes (slice_index x.now i) → IsNever b.new.nodes z) }
{
    let mut nets = Nets::from_slice(alloc, x.as_slice())?;
    // The first two nets that aren't joined yet are joined into one behind the others, so the tree is balanced.
    for i in 0..x.len() - 1 {
        let net = and(b, nets.as_slice()[2 * i], nets.as_slice()[2 * i + 1])?;
        nets.push(net)?;
    }
    Ok(nets.as_slice()[nets.len() - 1])
}

/// For each net of `x` and the one in the same place of `y`, a net that is 1 where one of the two is.
pub(crate) fn either(alloc: Global, b: &mut Builder, x: &Nets, y: &Nets) -> Result<Nets, NoMemory>
    requires left { All (λ k. k < length b.old.nodes) x.now }
    requires right { All (λ k. k < length b.old.nodes) y.now }
    requires width { length y.now ≡ length x.now }
    requires room { length b.old.nodes + length x.now < 2 ^ 32 }
    ensures width { IfOk result (λ z. length z ≡ length x.now) }
    ensures circuit { IfOk result (λ z. Makes (length x.now) (x.now ++ y.now) b.old b.new z (λ v. map v z ≡ map (λ i. v (slice_index x.now i) || v (slice_index y.now i)) (range_with_len 0 (length x.now)))) }
{
    let mut bits = Nets::new(alloc);
    for i in 0..x.len() {
        let bit = or(b, x.as_slice()[i], y.as_slice()[i])?;
        bits.push(bit)?;
    }
    Ok(bits)
}

/// 1 where `c` and `x` are, or `d` and `y`.
fn choose(b: &mut Builder, c: u32, d: u32, x: u32, y: u32) -> Result<u32, NoMemory>
    requires first { c < length b.old.nodes }
    requires second { d < length b.old.nodes }
    requires left { x < length b.old.nodes }
    requires right { y < length b.old.nodes }
    requires room { length b.old.nodes + 3 < 2 ^ 32 }
    ensures { IfOk result (λ z. Makes 3 (c ∷ d ∷ x ∷ y ∷ []) b.old b.new (z ∷ []) (λ v. v z ≡ ((v c && v x) || (v d && v y)))) }
{
    let taken = and(b, c, x)?;
    let other = and(b, d, y)?;
    or(b, taken, other)
}

/// The nets of `x` where `c` is 1, and those of `y` where `d` is.
pub(crate) fn choose_each(
    alloc: Global,
    b: &mut Builder,
    c: u32,
    d: u32,
    x: &Nets,
    y: &Nets,
) -> Result<Nets, NoMemory>
    requires first { c < length b.old.nodes }
    requires second { d < length b.old.nodes }
    requires left { All (λ k. k < length b.old.nodes) x.now }
    requires right { All (λ k. k < length b.old.nodes) y.now }
    requires width { length y.now ≡ length x.now }
    requires room { length b.old.nodes + 3 * length x.now < 2 ^ 32 }
    ensures width { IfOk result (λ z. length z ≡ length x.now) }
    ensures circuit { IfOk result (λ z. Makes (3 * length x.now) (c ∷ d ∷ x.now ++ y.now) b.old b.new z (λ v. map v z ≡ map (λ i. (v c && v (slice_index x.now i)) || (v d && v (slice_index y.now i))) (range_with_len 0 (length x.now)))) }
{
    let mut bits = Nets::new(alloc);
    for i in 0..x.len() {
        let bit = choose(b, c, d, x.as_slice()[i], y.as_slice()[i])?;
        bits.push(bit)?;
    }
    Ok(bits)
}
