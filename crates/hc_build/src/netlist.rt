ghost use Rattle.std.specs.Prelude.{IfOk};
ghost use Rattle.hc_core.specs.Depends.{IsOrder};
ghost use Rattle.hc_build.specs.Built.{IsBuildable};
ghost use Rattle.hc_build.specs.Implements.{IsNetlistOf};

use crate::connect::connect;
use crate::objects::place_objects;
use crate::sources::sources;
use hc_control::control;
use hc_core::Core;
use hc_cycle::Ranks;
use hc_net::{Builder, Label, Net, NoMemory};
use std::alloc::Global;

/// The netlist of a core of built forms: it does what the core does, clock by clock, with at most as many gates as the core
/// weighs and at most as many flip-flops as its objects and its control have. `ranks` is an order of what has a value within a
/// clock.
pub fn build(alloc: Global, core: &Core, ranks: &Ranks) -> Result<Net, NoMemory>
    requires core { IsBuildable core.now }
    requires order { IsOrder core.now ranks.now }
    ensures { IfOk result (IsNetlistOf core.now) }
{
    let clock = Label::new(alloc, core.clock.as_bytes())?;
    let mut b = Builder::new(alloc, &clock)?;
    let at = place_objects(alloc, &mut b, core)?;
    let uses = control(alloc, &mut b, core, ranks, &at)?;
    let sources = sources(alloc, &mut b, core, &at, uses.as_slice())?;
    connect(&mut b, core, &at, &sources);
    b.seal()
}
