ghost use Rattle.std.specs.Prelude.{◌≡◌, IfOk};
ghost use Rattle.hc_core.specs.Read.{statement};
ghost use Rattle.hc_core.specs.Sound.{IsTyped};
ghost use Rattle.hc_core.specs.Typed.{kinds_of};
ghost use Rattle.hc_scope.specs.Nodes.{nodes};
ghost use Rattle.hc_scope.specs.Reading.{context_of, Answers};
ghost use Rattle.hc_scope.specs.Sound.{AreSound};
ghost use Rattle.hc_scope.specs.Statement as spec;

use crate::channel::{find_channel, received, sent};
use hc_core::Stmt;
use hc_scope::{Scope, State};
use hc_tree::{ExprTree, FrontErr, Ident, Place, Target};
use std::alloc::Global;

/// The statement `c ! e`: S4 or S6 of the channel first, then what the value breaks, then S9 to S11 at the statement.
#[tactic(auto, using(hc_core::proofs::Read::reading, crate::proofs::Steps::err_then, crate::proofs::Steps::value_then, crate::proofs::Transfers::sends_typed))]
pub fn send<'s, 't>(
    alloc: Global,
    state: &mut State,
    scope: &'s Scope<'s, 't>,
    calls: u32,
    room: u32,
    place: Place,
    x: &'t Ident,
    value: &'t ExprTree,
) -> Result<Stmt, FrontErr>
    requires sound { AreSound (kinds_of state.old.objects) }
    ensures answers { Answers statement (spec.send (nodes room) (context_of scope.now calls) place x.now value.now state.old) result state.new }
    ensures typed { IfOk result (λ s. IsTyped (kinds_of state.old.objects) (statement s)) }
    ensures objects { state.new.objects ≡ state.old.objects }
{
    match find_channel(alloc, state, &*scope, x) {
        Ok(c) => match sent(alloc, state, &*scope, calls, room, place, c.of, value) {
            Ok(value) => Ok(Stmt::Send {
                place,
                chan: c.number,
                value,
            }),
            Err(e) => Err(e),
        },
        Err(e) => Err(e),
    }
}

/// The statement `c ? x`: S4 or S6 of the channel first, then of what is written, then S9 and S10 at the statement.
#[tactic(auto, using(hc_core::proofs::Read::reading, crate::proofs::Steps::err_then, crate::proofs::Steps::value_then, crate::proofs::Transfers::receives_typed))]
pub fn receive<'s, 't>(
    alloc: Global,
    state: &mut State,
    scope: &'s Scope<'s, 't>,
    calls: u32,
    room: u32,
    place: Place,
    x: &'t Ident,
    target: &'t Target,
) -> Result<Stmt, FrontErr>
    requires sound { AreSound (kinds_of state.old.objects) }
    ensures answers { Answers statement (spec.receive (nodes room) (context_of scope.now calls) place x.now target.now state.old) result state.new }
    ensures typed { IfOk result (λ s. IsTyped (kinds_of state.old.objects) (statement s)) }
    ensures objects { state.new.objects ≡ state.old.objects }
{
    match find_channel(alloc, state, &*scope, x) {
        Ok(c) => match received(alloc, state, &*scope, calls, room, place, c.of, target) {
            Ok(target) => Ok(Stmt::Recv {
                place,
                chan: c.number,
                target,
            }),
            Err(e) => Err(e),
        },
        Err(e) => Err(e),
    }
}
