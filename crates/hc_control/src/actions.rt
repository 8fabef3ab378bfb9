ghost use Rattle.std.specs.Prelude.{◌≡◌, ◌<◌, ◌≤◌, ◌+◌, ◌^◌, ◌∷◌, ◌++◌, [], length, IfOk};
ghost use Rattle.hc_control.specs.Actions.{Acts};

use crate::started::Started;
use hc_net::{Builder, NoMemory};
use hc_token::{Ends, act};
use hc_value::ObjectNets;
use std::alloc::Global;

/// The ends of a statement that does nothing: what starts passes.
pub(crate) fn idle(at: &ObjectNets) -> Ends
    ensures pass { result.pass ≡ at.now.one }
    ensures finish { result.finish ≡ at.now.zero }
{
    Ends {
        pass: at.one,
        finish: at.zero,
    }
}

/// The token of an action.
pub(crate) fn action(
    alloc: Global,
    b: &mut Builder,
    start: u32,
    started: &mut Started,
) -> Result<Ends, NoMemory>
    requires start { start < length b.old.nodes }
    requires number { started.old.next + 1 < 2 ^ 32 }
    requires room { length b.old.nodes + 2 < 2 ^ 32 }
    ensures { IfOk result (Acts start b.old b.new started.old started.new) }
{
    started.starts.push(start)?;
    let ends = act(alloc, b, started.next, start)?;
    started.next += 1;
    Ok(ends)
}
