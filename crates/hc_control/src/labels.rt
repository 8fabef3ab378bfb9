ghost use Rattle.std.specs.Prelude.{◌≡◌, ◌<◌, ◌≤◌, ◌+◌, ◌*◌, ◌^◌, ◌∷◌, [], ◌==◌, length, map, false, All, IfOk};
ghost use Rattle.hc_core.specs.Read.{arms as read_arms};
ghost use Rattle.hc_core.specs.Typed.{IsNumber};
ghost use Rattle.hc_net.specs.Bits.{number};
ghost use Rattle.hc_net.specs.Made.{Makes};
ghost use Rattle.hc_control.specs.Selecting.{same_bit, is_among, among_each, label_count, AreLabels};

use hc_core::{Arm, Nums};
use hc_net::{Builder, Nets, NoMemory};
use hc_num::Num;
use hc_token::{all, not, or};
use std::alloc::Global;

/// For each arm the net that holds where the number on `x` is among the values of its labels. The net `zero` is 0.
pub(crate) fn labelled(
    alloc: Global,
    b: &mut Builder,
    zero: u32,
    x: &Nets,
    arms: &[Arm],
) -> Result<Nets, NoMemory>
    requires zero { zero < length b.old.nodes }
    requires nets { All (λ k. k < length b.old.nodes) x.now }
    requires some { 1 ≤ length x.now }
    requires labels { AreLabels (length x.now) (read_arms arms.now) }
    requires room { length b.old.nodes + (2 * length x.now + 1) * label_count (read_arms arms.now) < 2 ^ 32 }
    ensures count { IfOk result (λ z. length z ≡ length arms.now) }
    ensures circuit { IfOk result (λ z. Makes ((2 * length x.now + 1) * label_count (read_arms arms.now)) (zero ∷ x.now) b.old b.new z
        (λ v. v zero ≡ false → map v z ≡ among_each (number (map v x.now)) (read_arms arms.now))) }
{
    let mut nets = Nets::new(alloc);
    for i in 0..arms.len() {
        let net = among(alloc, b, zero, x, &arms[i].values)?;
        nets.push(net)?;
    }
    Ok(nets)
}

/// The net that holds where the number on `x` is among these.
fn among(
    alloc: Global,
    b: &mut Builder,
    zero: u32,
    x: &Nets,
    values: &Nums,
) -> Result<u32, NoMemory>
    requires zero { zero < length b.old.nodes }
    requires nets { All (λ k. k < length b.old.nodes) x.now }
    requires some { 1 ≤ length x.now }
    requires values { All (λ n. IsNumber n × (n.width ≡ length x.now)) values.now }
    requires room { length b.old.nodes + (2 * length x.now + 1) * length values.now < 2 ^ 32 }
    ensures { IfOk result (λ z. Makes ((2 * length x.now + 1) * length values.now) (zero ∷ x.now) b.old b.new (z ∷ [])
        (λ v. v zero ≡ false → v z ≡ is_among (number (map v x.now)) values.now)) }
{
    let mut net = zero;
    for i in 0..values.len() {
        let one = is(alloc, b, x, values.as_slice()[i])?;
        net = or(b, net, one)?;
    }
    Ok(net)
}

/// The net that holds where the number on `x` is this one.
fn is(alloc: Global, b: &mut Builder, x: &Nets, n: Num) -> Result<u32, NoMemory>
    requires nets { All (λ k. k < length b.old.nodes) x.now }
    requires some { 1 ≤ length x.now }
    requires number { IsNumber n }
    requires width { n.width ≡ length x.now }
    requires room { length b.old.nodes + 2 * length x.now < 2 ^ 32 }
    ensures { IfOk result (λ z. Makes (2 * length x.now) x.now b.old b.new (z ∷ []) (λ v. v z ≡ (number (map v x.now) == n.bits))) }
{
    let mut bits = Nets::new(alloc);
    for i in 0..x.len() {
        let bit = as_bit(b, x.as_slice()[i], (n.bits() >> i as u32) % 2 == 1)?;
        bits.push(bit)?;
    }
    all(alloc, b, &bits)
}

/// The net that holds where a net is this bit.
fn as_bit(b: &mut Builder, net: u32, bit: bool) -> Result<u32, NoMemory>
    requires net { net < length b.old.nodes }
    requires room { length b.old.nodes + 1 < 2 ^ 32 }
    ensures { IfOk result (λ z. Makes 1 (net ∷ []) b.old b.new (z ∷ []) (λ v. v z ≡ same_bit (v net) bit)) }
{
    if bit { Ok(net) } else { not(b, net) }
}
