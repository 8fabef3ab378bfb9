ghost use Rattle.std.specs.Prelude.{◌≡◌, ◌<◌, ◌≤◌, ◌+◌, ◌*◌, ◌^◌, ◌++◌, Bool, length, replicate, All, IfOk};
ghost use Rattle.hc_num.specs.Arithmetic as num;
ghost use Rattle.hc_net.specs.Made.{Makes};
ghost use Rattle.hc_bits.specs.Held.{held};
ghost use Rattle.hc_muldiv.specs.Division.{MakesDivision, MakesStep};

use crate::joined::joined_nets;
use hc_bits::{mux, sub};
use hc_net::{Builder, GateKind, Nets, NoMemory};
use std::alloc::Global;

/// A quotient and its remainder.
#[derive(Drop)]
struct Divided {
    quotient: Nets,
    remainder: Nets,
}

/// A bit of a quotient, and what is left above the bits that were not looked at yet.
#[derive(Drop)]
struct Step {
    bit: u32,
    rest: Nets,
}

/// `x / y` of numbers without a sign, rounded down; all ones where `y` is 0.
pub fn quotient(alloc: Global, b: &mut Builder, x: &Nets, y: &Nets) -> Result<Nets, NoMemory>
    requires left { All (λ k. k < length b.old.nodes) x.now }
    requires right { All (λ k. k < length b.old.nodes) y.now }
    requires width { length y.now ≡ length x.now }
    requires some { 1 ≤ length x.now }
    requires room { length b.old.nodes + (16 * (length x.now * length x.now) + 24 * length x.now) < 2 ^ 32 }
    ensures width { IfOk result (λ z. length z ≡ length x.now) }
    ensures circuit { IfOk result (λ z. Makes (16 * (length x.now * length x.now) + 24 * length x.now) (x.now ++ y.now) b.old b.new z (λ v. (s : Bool) → held s v z ≡ num.quotient (held s v x.now) (held s v y.now))) }
{
    let divided = divide(alloc, b, x, y)?;
    Ok(divided.quotient)
}

/// `x % y` of numbers without a sign; `x` where `y` is 0.
pub fn remainder(alloc: Global, b: &mut Builder, x: &Nets, y: &Nets) -> Result<Nets, NoMemory>
    requires left { All (λ k. k < length b.old.nodes) x.now }
    requires right { All (λ k. k < length b.old.nodes) y.now }
    requires width { length y.now ≡ length x.now }
    requires some { 1 ≤ length x.now }
    requires room { length b.old.nodes + (16 * (length x.now * length x.now) + 24 * length x.now) < 2 ^ 32 }
    ensures width { IfOk result (λ z. length z ≡ length x.now) }
    ensures circuit { IfOk result (λ z. Makes (16 * (length x.now * length x.now) + 24 * length x.now) (x.now ++ y.now) b.old b.new z (λ v. (s : Bool) → held s v z ≡ num.remainder (held s v x.now) (held s v y.now))) }
{
    let divided = divide(alloc, b, x, y)?;
    Ok(divided.remainder)
}

/// Long division: the bits of `x` from the highest on, each below what the steps before it left.
fn divide(alloc: Global, b: &mut Builder, x: &Nets, y: &Nets) -> Result<Divided, NoMemory>
    requires left { All (λ k. k < length b.old.nodes) x.now }
    requires right { All (λ k. k < length b.old.nodes) y.now }
    requires width { length y.now ≡ length x.now }
    requires room { length b.old.nodes + (1 + length x.now * (11 * length x.now + 10)) < 2 ^ 32 }
    ensures quotient { IfOk result (λ d. length d.quotient ≡ length x.now) }
    ensures remainder { IfOk result (λ d. length d.remainder ≡ length x.now) }
    ensures circuit { IfOk result (λ d. MakesDivision x.now y.now b.old b.new d.quotient d.remainder) }
{
    let width = x.len();
    let zero = b.gate(GateKind::Zero, 0, 0)?;
    let divisor = joined_nets(alloc, y.as_slice(), &[zero])?;
    let mut quotient = Nets::new(alloc);
    let mut rest = repeated(alloc, zero, width)?;
    for done in 0..width {
        let net = x.as_slice()[width - 1 - done];
        let step = divide_step(alloc, b, net, &rest, &divisor)?;
        quotient = joined_nets(alloc, &[step.bit], quotient.as_slice())?;
        rest = step.rest;
    }
    Ok(Divided {
        quotient,
        remainder: rest,
    })
}

/// One step of a long division: `divisor` is taken from `rest` with the net `low` below it where it goes into that.
/// The divisor has a 0 on top, so that the top bit of the difference is 1 exactly where it doesn't.
fn divide_step(
    alloc: Global,
    b: &mut Builder,
    low: u32,
    rest: &Nets,
    divisor: &Nets,
) -> Result<Step, NoMemory>
    requires low { low < length b.old.nodes }
    requires rest { All (λ k. k < length b.old.nodes) rest.now }
    requires divisor { All (λ k. k < length b.old.nodes) divisor.now }
    requires width { length divisor.now ≡ length rest.now + 1 }
    requires room { length b.old.nodes + (11 * length rest.now + 10) < 2 ^ 32 }
    ensures width { IfOk result (λ s. length s.rest ≡ length rest.now) }
    ensures circuit { IfOk result (λ s. MakesStep low rest.now divisor.now b.old b.new s.bit s.rest) }
{
    let width = rest.len();
    let whole = joined_nets(alloc, &[low], rest.as_slice())?;
    let less = sub(alloc, b, &whole, divisor)?;
    let borrow = less.as_slice()[width];
    let bit = b.gate(GateKind::Not, borrow, 0)?;
    let kept = Nets::from_slice(alloc, &whole.as_slice()[..width])?;
    let reduced = Nets::from_slice(alloc, &less.as_slice()[..width])?;
    let rest = mux(alloc, b, borrow, &kept, &reduced)?;
    Ok(Step { bit, rest })
}

/// A net, `count` times.
fn repeated(alloc: Global, net: u32, count: usize) -> Result<Nets, NoMemory>
    ensures { IfOk result (λ nets. nets ≡ replicate count net) }
{
    let mut nets = Nets::new(alloc);
    for i in 0..count {
        nets.push(net)?;
    }
    Ok(nets)
}
