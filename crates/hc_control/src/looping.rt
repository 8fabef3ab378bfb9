ghost use Rattle.std.specs.Prelude.{IfOk};
ghost use Rattle.hc_core.specs.Program.{While, DoWhile};
ghost use Rattle.hc_core.specs.Read.{expression, statement as read};
ghost use Rattle.hc_core.specs.Typed.{kinds_of};
ghost use Rattle.hc_control.specs.Building.{CanBuild, Builds};

use crate::condition::condition;
use crate::started::Started;
use crate::statement::statement;
use hc_core::{Core, Expr, Stmt};
use hc_net::{Builder, NoMemory};
use hc_token::{Ends, again, and, or};
use hc_value::ObjectNets;
use std::alloc::Global;

/// The control of a `while`. The body's finish comes round on a placeholder, which the starts of the condition and of the body
/// alone read; a body starts anew in the clock in which it finishes.
#[cycle(control)]
pub(crate) fn while_loop(
    alloc: Global,
    b: &mut Builder,
    core: &Core,
    at: &ObjectNets,
    start: u32,
    test: &Expr,
    body: &Stmt,
    started: &mut Started,
) -> Result<Ends, NoMemory>
    requires { (place : _) × CanBuild (kinds_of core.now.objects) at.now (While place (expression test.now) (read body.now)) start started.old.next b.old }
    ensures { IfOk result (λ ends. (place : _) → Builds (kinds_of core.now.objects) at.now (While place (expression test.now) (read body.now)) start b.old b.new started.old started.new ends) }
{
    let c = condition(alloc, b, core, at, test)?;
    let back = b.wire(0)?;
    let round = or(b, start, back)?;
    let start_body = and(b, round, c)?;
    let ends = statement(alloc, b, core, at, start_body, body, started)?;
    b.drive(back, ends.finish);
    again(alloc, b, c, ends)
}

/// The control of a `do`: the condition is evaluated where the body finishes, and the whole takes a clock at least.
#[cycle(control)]
pub(crate) fn do_while(
    alloc: Global,
    b: &mut Builder,
    core: &Core,
    at: &ObjectNets,
    start: u32,
    body: &Stmt,
    test: &Expr,
    started: &mut Started,
) -> Result<Ends, NoMemory>
    requires { (place : _) × CanBuild (kinds_of core.now.objects) at.now (DoWhile place (read body.now) (expression test.now)) start started.old.next b.old }
    ensures { IfOk result (λ ends. (place : _) → Builds (kinds_of core.now.objects) at.now (DoWhile place (read body.now) (expression test.now)) start b.old b.new started.old started.new ends) }
{
    let c = condition(alloc, b, core, at, test)?;
    let back = b.wire(0)?;
    let anew = and(b, back, c)?;
    let start_body = or(b, start, anew)?;
    let ends = statement(alloc, b, core, at, start_body, body, started)?;
    b.drive(back, ends.finish);
    let whole = again(alloc, b, c, ends)?;
    Ok(Ends {
        pass: at.zero,
        finish: whole.finish,
    })
}
