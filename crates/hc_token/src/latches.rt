ghost use Rattle.std.specs.Prelude.{◌≡◌, ◌<◌, ◌≤◌, ℕ, ◌+◌, ◌^◌, ◌++◌, List, length, All, IfOk};
ghost use Rattle.std.specs.List.{range_with_len};
ghost use Rattle.hc_net.specs.Circuit.{Extends};
ghost use Rattle.hc_net.specs.declared.node.Node.{Node};
ghost use Rattle.hc_token.specs.Latches.{with_latches, AreOpen, StandOpen, fed_latches};

use hc_net::{Builder, FlopName, Nets, NoMemory};
use std::alloc::Global;

/// The flip-flops of so many latches, which are fed by `feed_all`. `token` is the number of the first.
pub(crate) fn add_latches(
    alloc: Global,
    b: &mut Builder,
    token: u32,
    count: usize,
) -> Result<Nets, NoMemory>
    requires numbers { token + count ≤ 2 ^ 32 }
    requires room { length b.old.nodes + count < 2 ^ 32 }
    ensures { IfOk result (λ nets. (nets ≡ range_with_len (length b.old.nodes) count) × (b.new ≡ with_latches b.old token count)) }
{
    let mut latches = Nets::new(alloc);
    for i in 0..count {
        let latch = b.flop(FlopName::Token(token + i as u32), false)?;
        latches.push(latch)?;
    }
    Ok(latches)
}

/// Feeds each latch with the net in the same place of `sources`.
pub(crate) fn feed_all(b: &mut Builder, latches: &Nets, sources: &Nets)
    requires there { All (λ k. k < length b.old.nodes) sources.now }
    requires width { length sources.now ≡ length latches.now }
    requires latches { AreOpen latches.now b.old.nodes }
    ensures clock { b.new.clock ≡ b.old.clock }
    ensures ports { b.new.ports ≡ b.old.ports }
    ensures fed { (token : ℕ) (front back : List Node) → StandOpen token front back latches.now b.old.nodes → b.new.nodes ≡ front ++ (fed_latches token sources.now (length latches.now) ++ back) }
    ensures earlier { Extends b.old.nodes b.new.nodes }
{
    for i in 0..latches.len() {
        b.feed(latches.as_slice()[i], sources.as_slice()[i]);
    }
}
