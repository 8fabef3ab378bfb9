ghost use Rattle.std.specs.Prelude.{◌≡◌, ◌<◌, ◌+◌, ◌*◌, ◌^◌, ◌∷◌, [], ◌++◌, ◌&&◌, ◌||◌, length, map, slice_index, All, IfOk, if◌then◌else◌};
ghost use Rattle.std.specs.List.{range_with_len};
ghost use Rattle.hc_net.specs.Made.{Makes};

use crate::gates::{and, not, or};
use hc_net::{Builder, Nets, NoMemory};
use std::alloc::Global;

/// `x` where `c` is 1, else `y`.
pub fn mux(alloc: Global, b: &mut Builder, c: u32, x: &Nets, y: &Nets) -> Result<Nets, NoMemory>
    requires chosen { c < length b.old.nodes }
    requires left { All (λ k. k < length b.old.nodes) x.now }
    requires right { All (λ k. k < length b.old.nodes) y.now }
    requires width { length y.now ≡ length x.now }
    requires room { length b.old.nodes + (3 * length x.now + 1) < 2 ^ 32 }
    ensures width { IfOk result (λ z. length z ≡ length x.now) }
    ensures circuit { IfOk result (λ z. Makes (3 * length x.now + 1) (c ∷ x.now ++ y.now) b.old b.new z (λ v. map v z ≡ if v c then map v x.now else map v y.now)) }
{
    match not(b, c) {
        Ok(otherwise) => choose_each(alloc, b, c, otherwise, x, y),
        Err(NoMemory) => Err(NoMemory),
    }
}

/// Each bit of `x` where `c` is 1, or that of `y` where `otherwise` is.
fn choose_each(
    alloc: Global,
    b: &mut Builder,
    c: u32,
    otherwise: u32,
    x: &Nets,
    y: &Nets,
) -> Result<Nets, NoMemory>
    requires chosen { c < length b.old.nodes }
    requires otherwise { otherwise < length b.old.nodes }
    requires left { All (λ k. k < length b.old.nodes) x.now }
    requires right { All (λ k. k < length b.old.nodes) y.now }
    requires width { length y.now ≡ length x.now }
    requires room { length b.old.nodes + 3 * length x.now < 2 ^ 32 }
    ensures width { IfOk result (λ z. length z ≡ length x.now) }
    ensures circuit { IfOk result (λ z. Makes (3 * length x.now) (c ∷ otherwise ∷ x.now ++ y.now) b.old b.new z (λ v. map v z ≡ map (λ i. (v c && v (slice_index x.now i)) || (v otherwise && v (slice_index y.now i))) (range_with_len 0 (length x.now)))) }
{
    let mut bits = Nets::new(alloc);
    for i in 0..x.len() {
        let bit = match choose(b, c, otherwise, x.as_slice()[i], y.as_slice()[i]) {
            Ok(bit) => bit,
            Err(NoMemory) => return Err(NoMemory),
        };
        match bits.push(bit) {
            Ok(()) => {}
            Err(NoMemory) => return Err(NoMemory),
        }
    }
    Ok(bits)
}

/// `x` where `c` is 1, or `y` where `otherwise` is.
pub(crate) fn choose(
    b: &mut Builder,
    c: u32,
    otherwise: u32,
    x: u32,
    y: u32,
) -> Result<u32, NoMemory>
    requires chosen { c < length b.old.nodes }
    requires otherwise { otherwise < length b.old.nodes }
    requires left { x < length b.old.nodes }
    requires right { y < length b.old.nodes }
    requires room { length b.old.nodes + 3 < 2 ^ 32 }
    ensures { IfOk result (λ z. Makes 3 (c ∷ otherwise ∷ x ∷ y ∷ []) b.old b.new (z ∷ []) (λ v. v z ≡ ((v c && v x) || (v otherwise && v y)))) }
{
    let taken = match and(b, c, x) {
        Ok(taken) => taken,
        Err(NoMemory) => return Err(NoMemory),
    };
    let other = match and(b, otherwise, y) {
        Ok(other) => other,
        Err(NoMemory) => return Err(NoMemory),
    };
    or(b, taken, other)
}
