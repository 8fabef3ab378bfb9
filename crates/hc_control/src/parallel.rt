ghost use Rattle.std.specs.Prelude.{IfOk};
ghost use Rattle.hc_core.specs.Program.{Par};
ghost use Rattle.hc_core.specs.Read.{statements};
ghost use Rattle.hc_core.specs.Typed.{kinds_of};
ghost use Rattle.hc_control.specs.Building.{CanBuild, Builds, CanBuildEach, BuildsEach};

use crate::started::Started;
use crate::statement::statement;
use hc_core::{Core, Stmt};
use hc_net::{Builder, NoMemory};
use hc_token::{Ends, join};
use hc_value::ObjectNets;
use std::alloc::Global;

/// The control of branches side by side.
#[cycle(control)]
pub(crate) fn parallel(
    alloc: Global,
    b: &mut Builder,
    core: &Core,
    at: &ObjectNets,
    start: u32,
    branches: &[Stmt],
    started: &mut Started,
) -> Result<Ends, NoMemory>
    requires { (place : _) × CanBuild (kinds_of core.now.objects) at.now (Par place (statements branches.now)) start started.old.next b.old }
    ensures { IfOk result (λ ends. (place : _) → Builds (kinds_of core.now.objects) at.now (Par place (statements branches.now)) start b.old b.new started.old started.new ends) }
{
    let ends = each(alloc, b, core, at, start, branches, started)?;
    let whole = join(alloc, b, started.next, start, ends.as_slice())?;
    started.next += branches.len() as u32;
    Ok(whole)
}

/// The control of each branch, all of which start together.
#[cycle(control)]
fn each(
    alloc: Global,
    b: &mut Builder,
    core: &Core,
    at: &ObjectNets,
    start: u32,
    branches: &[Stmt],
    started: &mut Started,
) -> Result<Vec<Ends>, NoMemory>
    requires { CanBuildEach (kinds_of core.now.objects) at.now (statements branches.now) start started.old.next b.old }
    ensures { IfOk result (λ all. BuildsEach (kinds_of core.now.objects) at.now (statements branches.now) start b.old b.new started.old started.new all.items) }
{
    let mut all = Vec::new(alloc);
    let mut rest = branches;
    while let [first, behind @ ..] = rest {
        let ends = statement(alloc, b, core, at, start, first, started)?;
        match all.push(ends) {
            Ok(()) => {}
            Err(_) => return Err(NoMemory),
        }
        rest = behind;
    }
    Ok(all)
}
