ghost use Rattle.std.specs.Prelude.{IfOk};
ghost use Rattle.hc_control.specs.Controlled.{CanControl, IsControlled, StartsMain};

use crate::listing::actions;
use crate::started::Started;
use crate::statement::statement;
use crate::uses::{Uses, uses};
use hc_core::Core;
use hc_cycle::Ranks;
use hc_net::{Builder, FlopName, Nets, NoMemory};
use hc_value::ObjectNets;
use std::alloc::Global;

/// The tokens of `main`, which starts in clock 0, and for each object its uses: what is written to it, and when. `ranks` orders
/// signals, memories and channels, of which none is built yet.
pub fn control(
    alloc: Global,
    b: &mut Builder,
    core: &Core,
    _ranks: &Ranks,
    at: &ObjectNets,
) -> Result<Uses, NoMemory>
    requires { CanControl core.now at.now b.old }
    ensures { IfOk result (λ uses. IsControlled core.now at.now b.old b.new uses.items) }
{
    let starts = starts(alloc, b, core, at)?;
    let list = actions(alloc, &core.main)?;
    uses(alloc, b, core, at, &starts, list.as_slice())
}

/// The control of `main`: the net of each action, in text order, that is 1 in a clock in which the action is taken. The first token
/// starts `main`, and holds in clock 0 alone.
fn starts(alloc: Global, b: &mut Builder, core: &Core, at: &ObjectNets) -> Result<Nets, NoMemory>
    requires { CanControl core.now at.now b.old }
    ensures { IfOk result (StartsMain core.now at.now b.old b.new) }
{
    let first = b.flop(FlopName::Token(0), true)?;
    b.feed(first, at.zero);
    let mut started = Started {
        next: 1,
        starts: Nets::new(alloc),
    };
    let _ends = statement(alloc, b, core, at, first, &core.main, &mut started)?;
    Ok(started.starts)
}
