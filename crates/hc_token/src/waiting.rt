ghost use Rattle.std.specs.Prelude.{◌≡◌, ◌<◌, ◌≤◌, ◌+◌, ◌*◌, ◌^◌, length, All, IfOk};
ghost use Rattle.hc_token.specs.Waits.{Waits, HoldsNext};
ghost use Rattle.hc_net.specs.Made.{Makes};
ghost use Rattle.std.specs.Prelude.{◌∷◌, [], ◌++◌};

use crate::gates::{all, and, choose_each, either, not};
use hc_net::{Builder, Nets, NoMemory};
use std::alloc::Global;

/// Branches that wait for one another: the net that is 1 where the last of them is done, and the net that each latch reads.
#[derive(Debug, Drop)]
pub(crate) struct Waiting {
    pub(crate) finish: u32,
    pub(crate) sources: Nets,
}

/// The gates of branches that wait in these latches.
pub(crate) fn wait(
    alloc: Global,
    b: &mut Builder,
    start: u32,
    pass: u32,
    passes: &Nets,
    finishes: &Nets,
    latches: &Nets,
) -> Result<Waiting, NoMemory>
    requires start { start < length b.old.nodes }
    requires pass { pass < length b.old.nodes }
    requires passes { All (λ k. k < length b.old.nodes) passes.now }
    requires finishes { All (λ k. k < length b.old.nodes) finishes.now }
    requires latches { All (λ k. k < length b.old.nodes) latches.now }
    requires some { 1 ≤ length passes.now }
    requires width { length finishes.now ≡ length passes.now }
    requires size { length latches.now ≡ length passes.now }
    requires room { length b.old.nodes + (5 * length passes.now + 3) < 2 ^ 32 }
    ensures { IfOk result (Waits start pass passes.now finishes.now latches.now b.old b.new) }
{
    let done = either(alloc, b, finishes, latches)?;
    let finish = all(alloc, b, &done)?;
    let sources = next(alloc, b, start, pass, finish, passes, &done)?;
    Ok(Waiting { finish, sources })
}

/// What each latch reads: it is set where its branch passes and the whole doesn't, and it stays until the whole finishes.
fn next(
    alloc: Global,
    b: &mut Builder,
    start: u32,
    pass: u32,
    finish: u32,
    passes: &Nets,
    done: &Nets,
) -> Result<Nets, NoMemory>
    requires start { start < length b.old.nodes }
    requires pass { pass < length b.old.nodes }
    requires finish { finish < length b.old.nodes }
    requires passes { All (λ k. k < length b.old.nodes) passes.now }
    requires done { All (λ k. k < length b.old.nodes) done.now }
    requires width { length done.now ≡ length passes.now }
    requires room { length b.old.nodes + (3 * length passes.now + 3) < 2 ^ 32 }
    ensures width { IfOk result (λ z. length z ≡ length passes.now) }
    ensures circuit { IfOk result (λ z. Makes (3 * length passes.now + 3) (start ∷ pass ∷ finish ∷ passes.now ++ done.now) b.old b.new z (HoldsNext start pass finish passes.now done.now z)) }
{
    let waits = not(b, pass)?;
    let held = and(b, start, waits)?;
    let over = not(b, finish)?;
    choose_each(alloc, b, held, over, passes, done)
}
