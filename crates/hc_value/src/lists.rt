ghost use Rattle.std.specs.Prelude.{◌≡◌, ◌++◌, replicate, IfOk};

use hc_net::{Nets, NoMemory};
use std::alloc::Global;

/// The nets of `low` and above them those of `high`.
pub(crate) fn joined_nets(alloc: Global, low: &[u32], high: &[u32]) -> Result<Nets, NoMemory>
    ensures { IfOk result (λ nets. nets ≡ low.now ++ high.now) }
{
    let mut nets = Nets::from_slice(alloc, low)?;
    for net in high {
        nets.push(*net)?;
    }
    Ok(nets)
}

/// A net, `count` times.
pub(crate) fn repeated(alloc: Global, net: u32, count: usize) -> Result<Nets, NoMemory>
    ensures { IfOk result (λ nets. nets ≡ replicate count net) }
{
    let mut nets = Nets::new(alloc);
    for i in 0..count {
        nets.push(net)?;
    }
    Ok(nets)
}
