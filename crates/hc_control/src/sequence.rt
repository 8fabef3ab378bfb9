ghost use Rattle.std.specs.Prelude.{IfOk};
ghost use Rattle.hc_core.specs.Program.{Seq};
ghost use Rattle.hc_core.specs.Read.{statements};
ghost use Rattle.hc_core.specs.Typed.{kinds_of};
ghost use Rattle.hc_control.specs.Building.{CanBuild, Builds};
ghost use Rattle.std.specs.Prelude.{◌<◌, ◌+◌, ◌^◌, ◌∷◌, [], ◌≡◌, ◌&&◌, ◌||◌, length};
ghost use Rattle.hc_net.specs.Made.{Makes};
ghost use Rattle.hc_token.specs.Control.{AreThere, IsNever};

use crate::actions::idle;
use crate::started::Started;
use crate::statement::statement;
use hc_core::{Core, Stmt};
use hc_net::{Builder, NoMemory};
use hc_token::{Ends, and, follow, or};
use hc_value::ObjectNets;
use std::alloc::Global;

/// The control of statements one after another.
#[cycle(control)]
pub(crate) fn sequence(
    alloc: Global,
    b: &mut Builder,
    core: &Core,
    at: &ObjectNets,
    start: u32,
    parts: &[Stmt],
    started: &mut Started,
) -> Result<Ends, NoMemory>
    requires { (place : _) × CanBuild (kinds_of core.now.objects) at.now (Seq place (statements parts.now)) start started.old.next b.old }
    ensures { IfOk result (λ ends. (place : _) → Builds (kinds_of core.now.objects) at.now (Seq place (statements parts.now)) start b.old b.new started.old started.new ends) }
{
    match parts {
        [] => Ok(idle(at)),
        [first, behind @ ..] => {
            let mut ends = statement(alloc, b, core, at, start, first, started)?;
            let mut rest = behind;
            while let [next, behind @ ..] = rest {
                let start_next = start_behind(b, start, ends)?;
                let next_ends = statement(alloc, b, core, at, start_next, next, started)?;
                ends = follow(alloc, b, ends, next_ends)?;
                rest = behind;
            }
            Ok(ends)
        }
    }
}

/// The start of what stands behind a statement: it holds where the statement finishes, and where it starts and passes. Behind a
/// statement that always takes a clock it is the net of the finish, and so reaches no more than that.
fn start_behind(b: &mut Builder, start: u32, ends: Ends) -> Result<u32, NoMemory>
    requires start { start < length b.old.nodes }
    requires ends { AreThere b.old ends }
    requires room { length b.old.nodes + 2 < 2 ^ 32 }
    ensures circuit { IfOk result (λ z. Makes 2 (ends.finish ∷ start ∷ ends.pass ∷ []) b.old b.new (z ∷ []) (λ v. v z ≡ (v ends.finish || (v start && v ends.pass)))) }
    ensures reach { IfOk result (λ z. IsNever b.old.nodes ends.pass → z ≡ ends.finish) }
{
    let through = and(b, start, ends.pass)?;
    or(b, ends.finish, through)
}
