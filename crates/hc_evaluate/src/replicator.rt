ghost use Rattle.std.specs.Prelude.{◌≡◌, pos};
ghost use Rattle.hc_core.specs.Typed.{kinds_of};
ghost use Rattle.hc_width.specs.Operand.{operand, IsOperand};
ghost use Rattle.hc_width.specs.Operand as o;
ghost use Rattle.hc_scope.specs.Nodes.{nodes};
ghost use Rattle.hc_scope.specs.Statement as spec;
ghost use Rattle.hc_scope.specs.Reading.{context_of, Answers};
ghost use Rattle.hc_scope.specs.Sound.{AreSound};
ghost use Rattle.hc_scope.specs.declared.state.State as the_state;

use crate::assignment::{operator, step_operator};
use crate::expressions::{constant, expression};
use crate::types::needs_constant;
use hc_core::BinOp;
use hc_scope::{Scope, State, broken_name, enter, simple_place};
use hc_tree::{ExprTree, FrontErr, Ident, Place, Rule, Simple, Target};
use hc_width::{Value, Whole, binary};
use std::alloc::Global;

/// The number that a replicator's variable has next. The step is a node, so L5 and L6 of it come first; then S6 where it writes
/// another name, then what its value breaks, with S8 where the next number is no constant.
#[tactic(auto, using(crate::proofs::PartNodes::step_is))]
pub fn step<'s, 't>(
    alloc: Global,
    state: &mut State,
    scope: &'s Scope<'s, 't>,
    calls: u32,
    room: u32,
    x: &Ident,
    v: Whole,
    by: &'t Simple,
) -> Result<Whole, FrontErr>
    requires sound { AreSound (kinds_of state.old.objects) }
    ensures answers { Answers (λ n. n) ((nodes room).step (context_of scope.now calls) x.now v by.now state.old) result state.new }
    ensures objects { state.new.objects ≡ state.old.objects }
{
    match enter(state, false, calls, simple_place(by), room) {
        Ok(()) => step_form(alloc, state, scope, calls, room - 1, x, v, by),
        Err(e) => Err(e),
    }
}

/// The step of a replicator by its form: the number that its variable has next.
#[tactic(auto, using(crate::proofs::Steps::err_then, crate::proofs::Steps::value_then), unfolding(hc_scope::specs::Statement::step_form))]
pub(crate) fn step_form<'s, 't>(
    alloc: Global,
    state: &mut State,
    scope: &'s Scope<'s, 't>,
    calls: u32,
    room: u32,
    x: &Ident,
    v: Whole,
    step: &'t Simple,
) -> Result<Whole, FrontErr>
    requires sound { AreSound (kinds_of state.old.objects) }
    ensures answers { Answers (λ n. n) (spec.step_form (nodes room) (context_of scope.now calls) x.now v step.now state.old) result state.new }
    ensures objects { state.new.objects ≡ state.old.objects }
{
    match step {
        Simple::Assign {
            place,
            target,
            assign,
            value,
        } => match writes_variable(alloc, state, x, target) {
            Ok(()) => next_number(
                alloc,
                state,
                scope,
                calls,
                room,
                *place,
                v,
                operator(*assign),
                value,
            ),
            Err(e) => Err(e),
        },
        Simple::After {
            place,
            target,
            step,
        } => match writes_variable(alloc, state, x, target) {
            Ok(()) => stepped_by_one(alloc, state, *place, step_operator(*step), v),
            Err(e) => Err(e),
        },
        Simple::Before {
            place,
            step,
            target,
        } => match writes_variable(alloc, state, x, target) {
            Ok(()) => stepped_by_one(alloc, state, *place, step_operator(*step), v),
            Err(e) => Err(e),
        },
    }
}

// The step has to write the variable, by its name alone, else S6 of the name that it writes.
fn writes_variable(alloc: Global, state: &State, x: &Ident, target: &Target) -> Result<(), FrontErr>
    ensures { Answers (λ u. u) (spec.writes_variable x.now target.now state.now) result state.now }
{
    let is_same = target.name.name.as_bytes() == x.name.as_bytes();
    if is_same && !target.index.is_some() {
        Ok(())
    } else {
        Err(broken_name(alloc, Rule::S6, &target.name))
    }
}

// The next number: `e`, or `x op e`.
#[tactic(auto, using(crate::proofs::Steps::err_then, crate::proofs::Steps::value_then))]
fn next_number<'s, 't>(
    alloc: Global,
    state: &mut State,
    scope: &'s Scope<'s, 't>,
    calls: u32,
    room: u32,
    place: Place,
    v: Whole,
    op: Option<BinOp>,
    value: &'t ExprTree,
) -> Result<Whole, FrontErr>
    requires sound { AreSound (kinds_of state.old.objects) }
    ensures answers { Answers (λ n. n) (spec.next_number (nodes room) (context_of scope.now calls) place v op value.now state.old) result state.new }
    ensures objects { state.new.objects ≡ state.old.objects }
{
    match op {
        Some(op) => match expression(alloc, state, scope, calls, room, value) {
            Ok(w) => stepped(alloc, state, place, op, v, w),
            Err(e) => Err(e),
        },
        None => constant(alloc, state, scope, calls, room, value),
    }
}

// The next number by `++` or `--`.
fn stepped_by_one(
    alloc: Global,
    state: &State,
    place: Place,
    op: BinOp,
    v: Whole,
) -> Result<Whole, FrontErr>
    ensures { Answers (λ n. n) (spec.stepped place op v (o.Whole (pos 1)) state.now) result state.now }
{
    stepped(
        alloc,
        state,
        place,
        op,
        v,
        Value::Constant(Whole::from_number(1)),
    )
}

// The variable's number and a value, by an operator; S8 where this is no constant.
#[tactic(auto, using(crate::proofs::Steps::err_then, crate::proofs::Steps::value_then, crate::proofs::Steps::judged_answers))]
fn stepped(
    alloc: Global,
    state: &State,
    place: Place,
    op: BinOp,
    v: Whole,
    w: Value,
) -> Result<Whole, FrontErr>
    requires { IsOperand (kinds_of state.now.objects) (operand w) }
    ensures { Answers (λ n. n) (spec.stepped place op v (operand w) state.now) result state.now }
{
    match binary(alloc, &state.objects, op, Value::Constant(v), w, place) {
        Ok(r) => needs_constant(r, place),
        Err(e) => Err(e),
    }
}
