ghost use Rattle.std.specs.Prelude.{◌≡◌, ◌≤◌, IfOk};
ghost use Rattle.hc_core.specs.Typed.{kinds_of};
ghost use Rattle.hc_core.specs.Sound.{HasType, IsWidth};
ghost use Rattle.hc_scope.specs.Nodes.{nodes};
ghost use Rattle.hc_scope.specs.Declaration as spec;
ghost use Rattle.hc_scope.specs.Reading.{context_of, Answers};
ghost use Rattle.hc_scope.specs.Sound.{AreSound};
ghost use Rattle.hc_scope.specs.Types.{type_read};

use crate::expressions::constant;
use hc_num::Num;
use hc_scope::{Scope, State, ValueType, broken, place_of};
use hc_tree::{ExprTree, FrontErr, Rule};
use hc_width::fit;
use std::alloc::Global;

/// The constant of an expression as a number of a type: S8 at its place where it has none, and S11 where it doesn't fit.
#[tactic(auto, using(hc_scope::proofs::Fitted::fitted_has), unfolding(hc_scope::specs::Declaration::initial))]
pub fn initial<'s, 't>(
    alloc: Global,
    state: &mut State,
    scope: &Scope<'s, 't>,
    calls: u32,
    room: u32,
    t: ValueType,
    x: &'t ExprTree,
) -> Result<Num, FrontErr>
    requires sound { AreSound (kinds_of state.old.objects) }
    requires width { IsWidth t.width }
    ensures answers { Answers (λ n. n) (spec.initial (nodes room) (context_of scope.now calls) (type_read t) x.now state.old) result state.new }
    ensures typed { IfOk result (λ n. HasType t.width t.signed n) }
    ensures objects { state.new.objects ≡ state.old.objects }
{
    match constant(alloc, state, scope, calls, room, x) {
        Ok(v) => match fit(v, t.width, t.signed, place_of(x)) {
            Ok(n) => Ok(n),
            Err(r) => Err(FrontErr::Refused(r)),
        },
        Err(e) => Err(e),
    }
}

/// The constant of an expression as a number of a type, as `initial` has it, or 0 where none is written.
pub fn initial_or_zero<'s, 't>(
    alloc: Global,
    state: &mut State,
    scope: &Scope<'s, 't>,
    calls: u32,
    room: u32,
    t: ValueType,
    x: &'t Option<ExprTree>,
) -> Result<Num, FrontErr>
    requires sound { AreSound (kinds_of state.old.objects) }
    requires width { IsWidth t.width }
    ensures answers { Answers (λ n. n) (spec.initial_or_zero (nodes room) (context_of scope.now calls) (type_read t) x.now state.old) result state.new }
    ensures typed { IfOk result (λ n. HasType t.width t.signed n) }
    ensures objects { state.new.objects ≡ state.old.objects }
{
    match x {
        Some(x) => initial(alloc, state, scope, calls, room, t, x),
        None => Ok(Num::new(t.width, t.signed, 0)),
    }
}

/// A number of elements or words: a constant of 1 or more, else S13.
#[tactic(auto, unfolding(hc_scope::specs::Declaration::length_of))]
pub(crate) fn length_of<'s, 't>(
    alloc: Global,
    state: &mut State,
    scope: &Scope<'s, 't>,
    calls: u32,
    room: u32,
    x: &'t ExprTree,
) -> Result<u128, FrontErr>
    requires sound { AreSound (kinds_of state.old.objects) }
    ensures answers { Answers (λ n. n) (spec.length_of (nodes room) (context_of scope.now calls) x.now state.old) result state.new }
    ensures least { IfOk result (λ n. 1 ≤ n) }
    ensures objects { state.new.objects ≡ state.old.objects }
{
    match constant(alloc, state, scope, calls, room, x) {
        Ok(v) => {
            if v.is_negative() || v.magnitude() < 1 {
                Err(broken(Rule::S13, place_of(x)))
            } else {
                Ok(v.magnitude())
            }
        }
        Err(e) => Err(e),
    }
}
