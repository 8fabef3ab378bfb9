ghost use Rattle.std.specs.Prelude.{◌≡◌, ◌<◌, ◌≤◌, ◌+◌, ◌^◌, ◌∷◌, ◌++◌, length, map, All, IfOk};
ghost use Rattle.hc_net.specs.Gate.{gate_bit};
ghost use Rattle.hc_net.specs.Made.{Makes};
ghost use Rattle.hc_bits.specs.Carry.{each};

use hc_net::{Builder, GateKind, Nets, NoMemory};
use std::alloc::Global;

/// A gate of this kind for each place of `x`, over its nets in `x` and in `y`.
pub(crate) fn each(
    alloc: Global,
    b: &mut Builder,
    kind: GateKind,
    x: &[u32],
    y: &[u32],
) -> Result<Nets, NoMemory>
    requires left { All (λ k. k < length b.old.nodes) x.now }
    requires right { All (λ k. k < length b.old.nodes) y.now }
    requires width { length x.now ≤ length y.now }
    requires room { length b.old.nodes + length x.now < 2 ^ 32 }
    ensures width { IfOk result (λ z. length z ≡ length x.now) }
    ensures circuit { IfOk result (λ z. Makes (length x.now) (x.now ++ y.now) b.old b.new z (λ v. map v z ≡ each (gate_bit kind) (map v x.now) (map v y.now))) }
{
    let mut z = Nets::new(alloc);
    for i in 0..x.len() {
        let net = b.gate(kind, x[i], y[i])?;
        z.push(net)?;
    }
    Ok(z)
}

/// A net, and others above it.
pub(crate) fn above(alloc: Global, lowest: u32, nets: &[u32]) -> Result<Nets, NoMemory>
    ensures { IfOk result (λ z. z ≡ lowest ∷ nets.now) }
{
    let mut z = Nets::new(alloc);
    z.push(lowest)?;
    for net in nets {
        z.push(*net)?;
    }
    Ok(z)
}
