ghost use Rattle.std.specs.Prelude.{◌≡◌, ◌<◌, ◌≤◌, ◌+◌, ◌^◌, [], ◌++◌, length, map, All, IfOk, if◌then◌else◌};
ghost use Rattle.hc_net.specs.Bits.{bit, number};
ghost use Rattle.hc_net.specs.Made.{Makes};
ghost use Rattle.hc_store.specs.Takes.{AreValues, all_nets};
ghost use Rattle.hc_store.specs.Signals.{assigned, presented, constant_nets, signal_gates};

use crate::register::{joined_bits, next_bits};
use hc_net::{Builder, GateKind, Nets, NoMemory};
use hc_num::Num;
use std::alloc::Global;

/// The bits of a signal in a clock: the bitwise or of the values whose nets of `enables` are 1 in it, or the bits of `default`
/// where none is. Value i stands for enable i.
pub fn present(
    alloc: Global,
    b: &mut Builder,
    default: &Num,
    enables: &Nets,
    values: &[Nets],
) -> Result<Nets, NoMemory>
    requires enables { All (λ k. k < length b.old.nodes) enables.now }
    requires values { AreValues (length b.old.nodes) default.now.width values.now }
    requires writes { length values.now ≡ length enables.now }
    requires room { length b.old.nodes + signal_gates default.now.width (length enables.now) < 2 ^ 32 }
    ensures width { IfOk result (λ z. length z ≡ default.now.width) }
    ensures circuit { IfOk result (λ z. Makes (signal_gates default.now.width (length enables.now)) (enables.now ++ all_nets values.now) b.old b.new z
        (λ v. number (map v z) ≡ presented default.now.bits (assigned v (map v enables.now) values.now))) }
{
    let count = values.len();
    if default.bits() == 0 && count > 0 {
        // A default of 0 adds nothing: the last value stands where a register has its present bits.
        let (front, last) = values.split_at(count - 1);
        return next_bits(alloc, b, enables, &last[0], front);
    }
    let unset = constant(alloc, b, default.width(), default.bits())?;
    joined_bits(alloc, b, &unset, enables, values)
}

/// The nets of a number of `width` bits, from two gates.
fn constant(alloc: Global, b: &mut Builder, width: u32, bits: u128) -> Result<Nets, NoMemory>
    requires few { width ≤ 128 }
    requires fits { bits < 2 ^ width }
    requires room { length b.old.nodes + 2 < 2 ^ 32 }
    ensures width { IfOk result (λ z. length z ≡ width) }
    ensures circuit { IfOk result (λ z. Makes 2 [] b.old b.new z (λ v. number (map v z) ≡ bits)) }
{
    let zero = b.gate(GateKind::Zero, 0, 0)?;
    let one = b.gate(GateKind::One, 0, 0)?;
    constant_nets(alloc, zero, one, width, bits)
}

/// `one` for each bit of a number that is 1, and `zero` for each other one, of `width` bits.
fn constant_nets(
    alloc: Global,
    zero: u32,
    one: u32,
    width: u32,
    bits: u128,
) -> Result<Nets, NoMemory>
    requires few { width ≤ 128 }
    ensures { IfOk result (λ z. z ≡ constant_nets zero one width bits) }
{
    let mut nets = Nets::new(alloc);
    for place in 0..width {
        let net = bit_net(zero, one, bits, place);
        nets.push(net)?;
    }
    Ok(nets)
}

/// `one` where this bit of a number is 1, else `zero`.
fn bit_net(zero: u32, one: u32, bits: u128, place: u32) -> u32
    requires { place < 128 }
    ensures { result ≡ (if bit bits place then one else zero) }
{
    if (bits >> place) % 2 == 1 { one } else { zero }
}
