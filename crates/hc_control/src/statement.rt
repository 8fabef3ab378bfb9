//! The control of a statement, form by form. Lists are gone over by loops, so that the recursion is as deep as statements are
//! nested.

ghost use Rattle.std.specs.Prelude.{IfOk};
ghost use Rattle.hc_core.specs.Read.{statement as read};
ghost use Rattle.hc_core.specs.Typed.{kinds_of};
ghost use Rattle.hc_control.specs.Building.{CanBuild, Builds};

use crate::actions::{action, idle};
use crate::arms::switch;
use crate::looping::{do_while, while_loop};
use crate::parallel::parallel;
use crate::sequence::sequence;
use crate::sides::sides;
use crate::started::Started;
use hc_core::{Core, Stmt};
use hc_net::{Builder, NoMemory};
use hc_token::Ends;
use hc_value::ObjectNets;
use std::alloc::Global;

/// The control of a statement that starts where the net `start` holds.
#[cycle(control)]
#[tactic(auto, using(hc_core::proofs::Read::reading))]
pub(crate) fn statement(
    alloc: Global,
    b: &mut Builder,
    core: &Core,
    at: &ObjectNets,
    start: u32,
    s: &Stmt,
    started: &mut Started,
) -> Result<Ends, NoMemory>
    requires { CanBuild (kinds_of core.now.objects) at.now (read s.now) start started.old.next b.old }
    ensures { IfOk result (Builds (kinds_of core.now.objects) at.now (read s.now) start b.old b.new started.old started.new) }
{
    match s {
        Stmt::Skip => Ok(idle(at)),
        Stmt::Assign { .. } => action(alloc, b, start, started),
        Stmt::Delay { .. } => action(alloc, b, start, started),
        Stmt::Seq { parts, .. } => sequence(alloc, b, core, at, start, parts.as_slice(), started),
        Stmt::Par { branches, .. } => {
            parallel(alloc, b, core, at, start, branches.as_slice(), started)
        }
        Stmt::If {
            condition,
            yes,
            no,
            ..
        } => sides(
            alloc,
            b,
            core,
            at,
            start,
            condition,
            yes.get(),
            no.get(),
            started,
        ),
        Stmt::While {
            condition,
            body,
            ..
        } => while_loop(alloc, b, core, at, start, condition, body.get(), started),
        Stmt::DoWhile {
            body,
            condition,
            ..
        } => do_while(alloc, b, core, at, start, body.get(), condition, started),
        Stmt::Switch { selector, arms, .. } => {
            switch(
                alloc,
                b,
                core,
                at,
                start,
                selector,
                arms.as_slice(),
                started,
            )
        }
        Stmt::Send { .. } => unreachable!(),
        Stmt::Recv { .. } => unreachable!(),
        Stmt::Prialt { .. } => unreachable!(),
    }
}
