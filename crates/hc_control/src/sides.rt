ghost use Rattle.std.specs.Prelude.{IfOk};
ghost use Rattle.hc_core.specs.Program.{If};
ghost use Rattle.hc_core.specs.Read.{expression, statement as read};
ghost use Rattle.hc_core.specs.Typed.{kinds_of};
ghost use Rattle.hc_control.specs.Building.{CanBuild, Builds};

use crate::condition::condition;
use crate::started::Started;
use crate::statement::statement;
use hc_core::{Core, Expr, Stmt};
use hc_net::{Builder, NoMemory};
use hc_token::{Ends, and, branch, not};
use hc_value::ObjectNets;
use std::alloc::Global;

/// The control of an `if`: the condition starts one of the two sides.
#[cycle(control)]
pub(crate) fn sides(
    alloc: Global,
    b: &mut Builder,
    core: &Core,
    at: &ObjectNets,
    start: u32,
    test: &Expr,
    yes: &Stmt,
    no: &Stmt,
    started: &mut Started,
) -> Result<Ends, NoMemory>
    requires { (place : _) × CanBuild (kinds_of core.now.objects) at.now (If place (expression test.now) (read yes.now) (read no.now)) start started.old.next b.old }
    ensures { IfOk result (λ ends. (place : _) → Builds (kinds_of core.now.objects) at.now (If place (expression test.now) (read yes.now) (read no.now)) start b.old b.new started.old started.new ends) }
{
    let c = condition(alloc, b, core, at, test)?;
    let start_yes = and(b, start, c)?;
    let otherwise = not(b, c)?;
    let start_no = and(b, start, otherwise)?;
    let ends_yes = statement(alloc, b, core, at, start_yes, yes, started)?;
    let ends_no = statement(alloc, b, core, at, start_no, no, started)?;
    branch(alloc, b, c, ends_yes, ends_no)
}
