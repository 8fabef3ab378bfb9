ghost use Rattle.std.specs.Prelude.{◌<◌, ◌≤◌, ◌+◌, ◌*◌, ◌^◌, length, true, false, All, IfOk};
ghost use Rattle.hc_prialt.specs.Picks.{MakesPick};

use crate::cases::add_cases;
use crate::choice::Pick;
use hc_net::{Builder, FlopName, GateKind, Nets, NoMemory};
use std::alloc::Global;

/// The choice of a `prialt` that starts where the net `start` is 1: net i of `ready` is 1 where the partner of case i stands.
/// `token` is the number of the first flip-flop: that in which a `prialt` without default waits, and then one for each arm.
pub fn pick(
    alloc: Global,
    b: &mut Builder,
    token: u32,
    start: u32,
    ready: &Nets,
    has_default: bool,
) -> Result<Pick, NoMemory>
    requires numbers { token + (length ready.now + 1) ≤ 2 ^ 32 }
    requires start { start < length b.old.nodes }
    requires ready { All (λ k. k < length b.old.nodes) ready.now }
    requires room { length b.old.nodes + (3 * length ready.now + 3) < 2 ^ 32 }
    ensures circuit { IfOk result (λ p. MakesPick token start ready.now has_default b.old b.new p) }
{
    match has_default {
        true => pick_or_default(alloc, b, token, start, ready),
        false => pick_or_wait(alloc, b, token, start, ready),
    }
}

/// A choice with a default, which never waits: it stands where it starts.
fn pick_or_default(
    alloc: Global,
    b: &mut Builder,
    token: u32,
    start: u32,
    ready: &Nets,
) -> Result<Pick, NoMemory>
    requires numbers { token + (length ready.now + 1) ≤ 2 ^ 32 }
    requires start { start < length b.old.nodes }
    requires ready { All (λ k. k < length b.old.nodes) ready.now }
    requires room { length b.old.nodes + (3 * length ready.now + 3) < 2 ^ 32 }
    ensures { IfOk result (λ p. MakesPick token start ready.now true b.old b.new p) }
{
    let cases = add_cases(alloc, b, token as usize, start, ready)?;
    Ok(Pick {
        active: start,
        taken: cases.taken,
        default_start: cases.free,
        arm_starts: cases.arm_starts,
    })
}

/// A choice without default, which waits as long as no case is ready.
fn pick_or_wait(
    alloc: Global,
    b: &mut Builder,
    token: u32,
    start: u32,
    ready: &Nets,
) -> Result<Pick, NoMemory>
    requires numbers { token + (length ready.now + 1) ≤ 2 ^ 32 }
    requires start { start < length b.old.nodes }
    requires ready { All (λ k. k < length b.old.nodes) ready.now }
    requires room { length b.old.nodes + (3 * length ready.now + 3) < 2 ^ 32 }
    ensures { IfOk result (λ p. MakesPick token start ready.now false b.old b.new p) }
{
    let waits = b.flop(FlopName::Token(token), false)?;
    let active = b.gate(GateKind::Or, start, waits)?;
    let cases = add_cases(alloc, b, token as usize + 1, active, ready)?;
    let never = b.gate(GateKind::Zero, 0, 0)?;
    b.feed(waits, cases.free);
    Ok(Pick {
        active,
        taken: cases.taken,
        default_start: never,
        arm_starts: cases.arm_starts,
    })
}
