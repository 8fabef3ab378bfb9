ghost use Rattle.std.specs.Prelude.{◌≡◌, ◌==◌, ◌<◌, nat_lt, ◌+◌, ◌*◌, ◌^◌, ◌∷◌, [], ◌++◌, ◌&&◌, ◌||◌, Bool, Some, length, drop, reverse, slice_index, slice_index_or, All, IfOk, ◌≤◌, map, true, false, if◌then◌else◌};
ghost use Rattle.std.specs.List.{range_with_len};
ghost use Rattle.hc_num.specs.Shift.{shifted_left, shifted_right};
ghost use Rattle.hc_net.specs.Made.{Makes};
ghost use Rattle.hc_bits.specs.Held.{held};
ghost use Rattle.hc_net.specs.Bits.{number};
ghost use Rattle.hc_bits.specs.Moved.{moved, bit_of, nets_of};

use crate::any_bit::truth;
use crate::gates::{and, not};
use crate::selector::choose;
use hc_net::{Builder, Nets, NoMemory};
use std::alloc::Global;

/// `x << y`: zeros enter at the low end.
pub fn shift_left(alloc: Global, b: &mut Builder, x: &Nets, y: &Nets) -> Result<Nets, NoMemory>
    requires left { All (λ k. k < length b.old.nodes) x.now }
    requires right { All (λ k. k < length b.old.nodes) y.now }
    requires width { 1 ≤ length x.now }
    requires room { length b.old.nodes + 4 * length x.now * length y.now + 4 * length x.now < 2 ^ 32 }
    ensures width { IfOk result (λ z. length z ≡ length x.now) }
    ensures circuit { IfOk result (λ z. Makes (4 * length x.now * length y.now + 4 * length x.now) (x.now ++ y.now) b.old b.new z (λ v. (s : Bool) → held s v z ≡ shifted_left (held s v x.now) (number (map v y.now)))) }
{
    let turned = match reversed(alloc, x) {
        Ok(turned) => turned,
        Err(NoMemory) => return Err(NoMemory),
    };
    match shift_down(alloc, b, &turned, y, None) {
        Ok(shifted) => reversed(alloc, &shifted),
        Err(NoMemory) => Err(NoMemory),
    }
}

/// `x >> y` of a number without a sign: zeros enter at the high end.
pub fn shift_right_zero(
    alloc: Global,
    b: &mut Builder,
    x: &Nets,
    y: &Nets,
) -> Result<Nets, NoMemory>
    requires left { All (λ k. k < length b.old.nodes) x.now }
    requires right { All (λ k. k < length b.old.nodes) y.now }
    requires width { 1 ≤ length x.now }
    requires room { length b.old.nodes + 4 * length x.now * length y.now + 4 * length x.now < 2 ^ 32 }
    ensures width { IfOk result (λ z. length z ≡ length x.now) }
    ensures circuit { IfOk result (λ z. Makes (4 * length x.now * length y.now + 4 * length x.now) (x.now ++ y.now) b.old b.new z (λ v. held false v z ≡ shifted_right (held false v x.now) (number (map v y.now)))) }
{
    shift_down(alloc, b, x, y, None)
}

/// `x >> y` of a number with a sign: its top bit enters at the high end.
pub fn shift_right_sign(
    alloc: Global,
    b: &mut Builder,
    x: &Nets,
    y: &Nets,
) -> Result<Nets, NoMemory>
    requires left { All (λ k. k < length b.old.nodes) x.now }
    requires right { All (λ k. k < length b.old.nodes) y.now }
    requires width { 1 ≤ length x.now }
    requires room { length b.old.nodes + 4 * length x.now * length y.now + 4 * length x.now < 2 ^ 32 }
    ensures width { IfOk result (λ z. length z ≡ length x.now) }
    ensures circuit { IfOk result (λ z. Makes (4 * length x.now * length y.now + 4 * length x.now) (x.now ++ y.now) b.old b.new z (λ v. held true v z ≡ shifted_right (held true v x.now) (number (map v y.now)))) }
{
    let sign = x.as_slice()[x.len() - 1];
    shift_down(alloc, b, x, y, Some(sign))
}

/// The nets from the highest one down.
fn reversed(alloc: Global, x: &Nets) -> Result<Nets, NoMemory>
    ensures { IfOk result (λ z. z ≡ reverse x.now) }
{
    let mut turned = Nets::new(alloc);
    for i in 0..x.len() {
        match turned.push(x.as_slice()[x.len() - 1 - i]) {
            Ok(()) => {}
            Err(NoMemory) => return Err(NoMemory),
        }
    }
    Ok(turned)
}

/// The nets from this place on.
fn above(alloc: Global, x: &Nets, place: usize) -> Result<Nets, NoMemory>
    requires { place ≤ length x.now }
    ensures { IfOk result (λ z. z ≡ drop place x.now) }
{
    Nets::from_slice(alloc, &x.as_slice()[place..])
}

/// `x` moved down by the number of `y`: `fill`, or where it's `None` zeros, enter at the high end. There is a stage for
/// each bit of `y` whose weight is below the width, and one for all higher bits.
fn shift_down(
    alloc: Global,
    b: &mut Builder,
    x: &Nets,
    y: &Nets,
    fill: Option<u32>,
) -> Result<Nets, NoMemory>
    requires left { All (λ k. k < length b.old.nodes) x.now }
    requires right { All (λ k. k < length b.old.nodes) y.now }
    requires fill { All (λ k. k < length b.old.nodes) (nets_of fill) }
    requires width { 1 ≤ length x.now }
    requires room { length b.old.nodes + 4 * length x.now * length y.now + 4 * length x.now < 2 ^ 32 }
    ensures width { IfOk result (λ z. length z ≡ length x.now) }
    ensures circuit { IfOk result (λ z. Makes (4 * length x.now * length y.now + 4 * length x.now) (nets_of fill ++ (x.now ++ y.now)) b.old b.new z (λ v. map v z ≡ moved (number (map v y.now)) (bit_of v fill) (map v x.now))) }
{
    let mut shifted = match Nets::from_slice(alloc, x.as_slice()) {
        Ok(shifted) => shifted,
        Err(NoMemory) => return Err(NoMemory),
    };
    let mut distance = 1;
    let mut k = 0;
    while k < y.len() && distance < x.len() {
        shifted = match stage(alloc, b, y.as_slice()[k], &shifted, distance, fill) {
            Ok(next) => next,
            Err(NoMemory) => return Err(NoMemory),
        };
        distance *= 2;
        k += 1;
    }
    match above(alloc, y, k) {
        Ok(high) => shift_out(alloc, b, shifted, &high, fill),
        Err(NoMemory) => Err(NoMemory),
    }
}

/// `x` where `high` is 0, else nothing but what enters.
fn shift_out(
    alloc: Global,
    b: &mut Builder,
    x: Nets,
    high: &Nets,
    fill: Option<u32>,
) -> Result<Nets, NoMemory>
    requires left { All (λ k. k < length b.old.nodes) x }
    requires right { All (λ k. k < length b.old.nodes) high.now }
    requires fill { All (λ k. k < length b.old.nodes) (nets_of fill) }
    requires room { length b.old.nodes + (length high.now + (3 * length x + 1)) < 2 ^ 32 }
    ensures width { IfOk result (λ z. length z ≡ length x) }
    ensures circuit { IfOk result (λ z. Makes (length high.now + (3 * length x + 1)) (nets_of fill ++ (x ++ high.now)) b.old b.new z (λ v. map v z ≡ moved (if number (map v high.now) == 0 then 0 else length x) (bit_of v fill) (map v x))) }
{
    if high.is_empty() {
        return Ok(x);
    }
    match truth(alloc, b, high) {
        Ok(some) => stage(alloc, b, some.as_slice()[0], &x, x.len(), fill),
        Err(NoMemory) => Err(NoMemory),
    }
}

/// `x` moved down by `distance` where `c` is 1, else `x`.
fn stage(
    alloc: Global,
    b: &mut Builder,
    c: u32,
    x: &Nets,
    distance: usize,
    fill: Option<u32>,
) -> Result<Nets, NoMemory>
    requires chosen { c < length b.old.nodes }
    requires nets { All (λ k. k < length b.old.nodes) x.now }
    requires fill { All (λ k. k < length b.old.nodes) (nets_of fill) }
    requires distance { distance ≤ length x.now }
    requires room { length b.old.nodes + (3 * length x.now + 1) < 2 ^ 32 }
    ensures width { IfOk result (λ z. length z ≡ length x.now) }
    ensures circuit { IfOk result (λ z. Makes (3 * length x.now + 1) (c ∷ nets_of fill ++ x.now) b.old b.new z (λ v. map v z ≡ moved (if v c then distance else 0) (bit_of v fill) (map v x.now))) }
{
    match not(b, c) {
        Ok(stays) => stage_bits(alloc, b, c, stays, x, distance, fill),
        Err(NoMemory) => Err(NoMemory),
    }
}

/// Each bit of `x` moved down by `distance` where `c` is 1, or that of `x` where `stays` is.
fn stage_bits(
    alloc: Global,
    b: &mut Builder,
    c: u32,
    stays: u32,
    x: &Nets,
    distance: usize,
    fill: Option<u32>,
) -> Result<Nets, NoMemory>
    requires chosen { c < length b.old.nodes }
    requires stays { stays < length b.old.nodes }
    requires nets { All (λ k. k < length b.old.nodes) x.now }
    requires fill { All (λ k. k < length b.old.nodes) (nets_of fill) }
    requires distance { distance ≤ length x.now }
    requires room { length b.old.nodes + 3 * length x.now < 2 ^ 32 }
    ensures width { IfOk result (λ z. length z ≡ length x.now) }
    ensures circuit { IfOk result (λ z. Makes (3 * length x.now) (c ∷ stays ∷ nets_of fill ++ x.now) b.old b.new z (λ v. map v z ≡ map (λ i. (v c && slice_index_or (map v x.now) (i + distance) (bit_of v fill)) || (v stays && v (slice_index x.now i))) (range_with_len 0 (length x.now)))) }
{
    let mut bits = Nets::new(alloc);
    for i in 0..x.len() {
        let moved = source(x.as_slice(), i + distance, fill);
        let bit = match stage_bit(b, c, stays, moved, x.as_slice()[i]) {
            Ok(bit) => bit,
            Err(NoMemory) => return Err(NoMemory),
        };
        match bits.push(bit) {
            Ok(()) => {}
            Err(NoMemory) => return Err(NoMemory),
        }
    }
    Ok(bits)
}

/// The net at this place, or what enters above the highest one.
fn source(x: &[u32], place: usize, fill: Option<u32>) -> Option<u32>
    ensures { result ≡ (if nat_lt place (length x.now) then Some (slice_index x.now place) else fill) }
{
    if place < x.len() {
        Some(x[place])
    } else {
        fill
    }
}

/// `moved` where `c` is 1, or `x` where `stays` is. One gate does where zero moves in.
fn stage_bit(
    b: &mut Builder,
    c: u32,
    stays: u32,
    moved: Option<u32>,
    x: u32,
) -> Result<u32, NoMemory>
    requires chosen { c < length b.old.nodes }
    requires stays { stays < length b.old.nodes }
    requires moved { All (λ k. k < length b.old.nodes) (nets_of moved) }
    requires net { x < length b.old.nodes }
    requires room { length b.old.nodes + 3 < 2 ^ 32 }
    ensures { IfOk result (λ z. Makes 3 (c ∷ stays ∷ nets_of moved ++ x ∷ []) b.old b.new (z ∷ []) (λ v. v z ≡ ((v c && bit_of v moved) || (v stays && v x)))) }
{
    match moved {
        Some(moved) => choose(b, c, stays, moved, x),
        None => and(b, stays, x),
    }
}
