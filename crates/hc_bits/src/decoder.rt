ghost use Rattle.std.specs.Prelude.{◌≡◌, ◌<◌, ◌≤◌, ◌+◌, ◌-◌, ◌*◌, ◌/◌, ◌%◌, ◌^◌, ◌==◌, ◌&&◌, ◌∷◌, [], not, length, map, slice_index, All, IfOk, if◌then◌else◌};
ghost use Rattle.std.specs.List.{range_with_len};
ghost use Rattle.hc_net.specs.Bits.{number};
ghost use Rattle.hc_net.specs.Made.{Makes};

use crate::gates::{and, not};
use hc_net::{Builder, Nets, NoMemory};
use std::alloc::Global;

/// `n` bits, of which number i, counted from 0, is 1 exactly where `x` is i.
pub fn decode(alloc: Global, b: &mut Builder, x: &Nets, n: u32) -> Result<Nets, NoMemory>
    requires nets { All (λ k. k < length b.old.nodes) x.now }
    requires some { 1 ≤ length x.now }
    requires numbers { n ≤ 2 ^ length x.now }
    requires room { length b.old.nodes + (n * length x.now + length x.now) < 2 ^ 32 }
    ensures width { IfOk result (λ z. length z ≡ n) }
    ensures circuit { IfOk result (λ z. Makes (n * length x.now + length x.now) x.now b.old b.new z (λ v. map v z ≡ map (λ i. number (map v x.now) == i) (range_with_len 0 n))) }
{
    if n == 0 {
        return Ok(Nets::new(alloc));
    }
    let top = x.len() - 1;
    let mut terms = match first_terms(alloc, b, x.as_slice()[top], terms_at(n, top)) {
        Ok(terms) => terms,
        Err(NoMemory) => return Err(NoMemory),
    };
    for i in 0..top {
        let place = top - 1 - i;
        terms = match doubled(alloc, b, &terms, x.as_slice()[place], terms_at(n, place)) {
            Ok(longer) => longer,
            Err(NoMemory) => return Err(NoMemory),
        };
    }
    Ok(terms)
}

/// How many numbers the bits from this place on have, of numbers below `n`.
fn terms_at(n: u32, place: usize) -> u32
    requires { 1 ≤ n }
    ensures { result ≡ (n - 1) / 2 ^ place + 1 }
{
    if place < 32 {
        ((n - 1) >> place) + 1
    } else {
        1
    }
}

/// For a number of one bit a net that is 1 where it's 0, and where `count` is 2 one that is 1 where it's 1.
fn first_terms(alloc: Global, b: &mut Builder, bit: u32, count: u32) -> Result<Nets, NoMemory>
    requires net { bit < length b.old.nodes }
    requires some { 1 ≤ count }
    requires most { count ≤ 2 }
    requires room { length b.old.nodes + 1 < 2 ^ 32 }
    ensures width { IfOk result (λ z. length z ≡ count) }
    ensures circuit { IfOk result (λ z. Makes 1 (bit ∷ []) b.old b.new z (λ v. map v z ≡ map (λ i. number (v bit ∷ []) == i) (range_with_len 0 count))) }
{
    match not(b, bit) {
        Ok(otherwise) => {
            if count < 2 {
                Nets::from_slice(alloc, &[otherwise])
            } else {
                Nets::from_slice(alloc, &[otherwise, bit])
            }
        }
        Err(NoMemory) => Err(NoMemory),
    }
}

/// The terms of a number with one more bit at its low end: term i becomes 2i and 2i + 1.
fn doubled(
    alloc: Global,
    b: &mut Builder,
    terms: &Nets,
    bit: u32,
    count: u32,
) -> Result<Nets, NoMemory>
    requires terms { All (λ k. k < length b.old.nodes) terms.now }
    requires net { bit < length b.old.nodes }
    requires most { count ≤ 2 * length terms.now }
    requires room { length b.old.nodes + (count + 1) < 2 ^ 32 }
    ensures width { IfOk result (λ z. length z ≡ count) }
    ensures circuit { IfOk result (λ z. Makes (count + 1) (bit ∷ terms.now) b.old b.new z (λ v. map v z ≡ map (λ i. v (slice_index terms.now (i / 2)) && (if i % 2 == 0 then not (v bit) else v bit)) (range_with_len 0 count))) }
{
    match not(b, bit) {
        Ok(otherwise) => each_with(alloc, b, terms, bit, otherwise, count),
        Err(NoMemory) => Err(NoMemory),
    }
}

/// Each term with either value of the bit below, as long as there are less than `count` of them.
fn each_with(
    alloc: Global,
    b: &mut Builder,
    terms: &Nets,
    bit: u32,
    otherwise: u32,
    count: u32,
) -> Result<Nets, NoMemory>
    requires terms { All (λ k. k < length b.old.nodes) terms.now }
    requires net { bit < length b.old.nodes }
    requires otherwise { otherwise < length b.old.nodes }
    requires most { count ≤ 2 * length terms.now }
    requires room { length b.old.nodes + count < 2 ^ 32 }
    ensures width { IfOk result (λ z. length z ≡ count) }
    ensures circuit { IfOk result (λ z. Makes count (bit ∷ otherwise ∷ terms.now) b.old b.new z (λ v. map v z ≡ map (λ i. v (slice_index terms.now (i / 2)) && v (if i % 2 == 0 then otherwise else bit)) (range_with_len 0 count))) }
{
    let mut longer = Nets::new(alloc);
    for i in 0..count {
        let low = low_net(i, bit, otherwise);
        let term = match and(b, terms.as_slice()[(i / 2) as usize], low) {
            Ok(term) => term,
            Err(NoMemory) => return Err(NoMemory),
        };
        match longer.push(term) {
            Ok(()) => {}
            Err(NoMemory) => return Err(NoMemory),
        }
    }
    Ok(longer)
}

/// The net that is 1 where the lowest bit is that of `i`.
fn low_net(i: u32, bit: u32, otherwise: u32) -> u32
    ensures { result ≡ (if i % 2 == 0 then otherwise else bit) }
{
    if i % 2 == 0 { otherwise } else { bit }
}
