ghost use Rattle.std.specs.Prelude.{◌≡◌, ◌<◌, ◌+◌, ◌^◌, Bool, length, All, IfOk, ◌≤◌, ◌==◌, not, false};
ghost use Rattle.hc_num.specs.Compare.{truth as one_bit};
ghost use Rattle.hc_net.specs.Made.{Makes};
ghost use Rattle.hc_bits.specs.Held.{held};

use crate::gates::or;
use hc_net::{Builder, Nets, NoMemory};
use std::alloc::Global;

/// One bit, 1 where `x` isn't 0.
pub fn truth(alloc: Global, b: &mut Builder, x: &Nets) -> Result<Nets, NoMemory>
    requires nets { All (λ k. k < length b.old.nodes) x.now }
    requires width { 1 ≤ length x.now }
    requires room { length b.old.nodes + length x.now < 2 ^ 32 }
    ensures width { IfOk result (λ z. length z ≡ 1) }
    ensures circuit { IfOk result (λ z. Makes (length x.now) x.now b.old b.new z (λ v. (s : Bool) → held false v z ≡ one_bit (not ((held s v x.now).bits == 0)))) }
{
    let mut nets = match Nets::from_slice(alloc, x.as_slice()) {
        Ok(nets) => nets,
        Err(NoMemory) => return Err(NoMemory),
    };
    // The first two nets that aren't joined yet are joined into one behind the others, so the tree is balanced.
    for i in 0..x.len() - 1 {
        let net = match or(b, nets.as_slice()[2 * i], nets.as_slice()[2 * i + 1]) {
            Ok(net) => net,
            Err(NoMemory) => return Err(NoMemory),
        };
        match nets.push(net) {
            Ok(()) => {}
            Err(NoMemory) => return Err(NoMemory),
        }
    }
    let root = nets.as_slice()[nets.len() - 1];
    Nets::from_slice(alloc, &[root])
}
