ghost use Rattle.std.specs.Prelude.{◌≡◌, ℕ, Bool, false, IfOk, slice_get};
ghost use Rattle.hc_num.specs.Index.{index_width};
ghost use Rattle.hc_core.specs.Read.{expression, target};
ghost use Rattle.hc_core.specs.Sound.{IsTarget, IsKept};
ghost use Rattle.hc_core.specs.Typed.{Typed, kinds_of};
ghost use Rattle.hc_width.specs.Operand.{operand, Of, IsOperand, IsTyped};
ghost use Rattle.hc_core.specs.Program as core;
ghost use Rattle.hc_core.specs.declared.object.Kind.{Kind};
ghost use Rattle.std.specs.Prelude.{List};
ghost use Rattle.hc_scope.specs.Expansion.{Yields};
ghost use Rattle.hc_scope.specs.Expression.{kind_length};
ghost use Rattle.hc_scope.specs.Nodes.{nodes};
ghost use Rattle.hc_scope.specs.Parts.{Context};
ghost use Rattle.hc_scope.specs.Scope as s;
ghost use Rattle.hc_scope.specs.Statement as spec;
ghost use Rattle.hc_scope.specs.Reading.{Answers};
ghost use Rattle.hc_scope.specs.Sound.{AreSound};
ghost use Rattle.hc_evaluate.specs.Targets.{index_read, destination_read, IsDestination};
ghost use Rattle.hc_scope.specs.declared.state.State as the_state;

use crate::expressions::expression;
use crate::index::index;
use crate::targets::{Destination, IndexAt, TypedDestination};
use hc_core::{Expr, Target};
use hc_scope::{State, broken_name};
use hc_tree::{FrontErr, Ident, Rule};
use hc_width::Value;
use sqlite_items::Boxed;
use std::alloc::Global;

// The expression of an index.
#[tactic(auto, using(crate::proofs::Steps::err_then, crate::proofs::Steps::value_then), unfolding(hc_scope::specs::Statement::index_at))]
fn index_at<'s, 't>(
    alloc: Global,
    state: &mut State,
    calls: u32,
    room: u32,
    k: u32,
    i: IndexAt<'s, 't>,
) -> Result<Expr, FrontErr>
    requires sound { AreSound (kinds_of state.old.objects) }
    ensures answers { Answers expression (spec.index_at (nodes room) calls k (index_read i.entry) state.old) result state.new }
    ensures typed { IfOk result (λ e. Typed (kinds_of state.old.objects) (expression e) (index_width (kind_length (slice_get (kinds_of state.old.objects) k))) false) }
    ensures objects { state.new.objects ≡ state.old.objects }
{
    match expression(alloc, state, i.scope, calls, room, i.index) {
        Ok(v) => index(state, k, i.index, v),
        Err(e) => Err(e),
    }
}

/// What is written, with its index.
#[tactic(auto, using(hc_core::proofs::Read::reading, crate::proofs::Steps::err_then, crate::proofs::Steps::value_then))]
pub(crate) fn target_of<'s, 't>(
    alloc: Global,
    state: &mut State,
    calls: u32,
    room: u32,
    d: TypedDestination<'s, 't>,
) -> Result<Target, FrontErr>
    requires sound { AreSound (kinds_of state.old.objects) }
    requires is { IsDestination (kinds_of state.old.objects) (destination_read d.to) d.of.width d.of.signed }
    ensures answers { Answers target (spec.target_of (nodes room) calls (destination_read d.entry.to) state.old) result state.new }
    ensures typed { IfOk result (λ t. IsTarget (kinds_of state.old.objects) (target t) d.entry.of.width d.entry.of.signed) }
    ensures objects { state.new.objects ≡ state.old.objects }
{
    match d.to {
        Destination::Register(k) => Ok(Target::Reg(k)),
        Destination::Signal(k) => Ok(Target::Signal(k)),
        Destination::Element(k, i) => match index_at(alloc, state, calls, room, k, i) {
            Ok(i) => Ok(Target::Element(k, i)),
            Err(e) => Err(e),
        },
        Destination::Word(k, i) => match index_at(alloc, state, calls, room, k, i) {
            Ok(i) => Ok(Target::Word(k, i)),
            Err(e) => Err(e),
        },
    }
}

/// What is written as a value. Its index is expanded once more.
#[tactic(auto, using(hc_core::proofs::Read::reading, crate::proofs::Steps::err_then, crate::proofs::Steps::value_then))]
pub(crate) fn value_of<'s, 't>(
    alloc: Global,
    state: &mut State,
    calls: u32,
    room: u32,
    d: TypedDestination<'s, 't>,
) -> Result<Value, FrontErr>
    requires sound { AreSound (kinds_of state.old.objects) }
    requires is { IsDestination (kinds_of state.old.objects) (destination_read d.to) d.of.width d.of.signed }
    ensures answers { Answers operand (spec.value_of (nodes room) calls (destination_read d.entry.to) state.old) result state.new }
    ensures typed { IfOk result (λ v. IsOperand (kinds_of state.old.objects) (operand v)) }
    ensures objects { state.new.objects ≡ state.old.objects }
{
    match d.to {
        Destination::Register(k) => Ok(Value::Typed(Expr::Reg(k))),
        Destination::Signal(k) => Ok(Value::Typed(Expr::Signal(k))),
        Destination::Element(k, i) => match index_at(alloc, state, calls, room, k, i) {
            Ok(i) => element(alloc, k, i),
            Err(e) => Err(e),
        },
        Destination::Word(k, i) => match index_at(alloc, state, calls, room, k, i) {
            Ok(i) => word(alloc, k, i),
            Err(e) => Err(e),
        },
    }
}

// An element as a value.
#[tactic(auto, using(hc_core::proofs::Read::reading))]
fn element(alloc: Global, k: u32, i: Expr) -> Result<Value, FrontErr>
    ensures answers { (t : the_state.State) → Answers operand (Yields (Of (core.Element k (expression i))) t) result t }
    ensures typed { (kinds : List Kind) → IsTyped kinds (core.Element k (expression i)) → IfOk result (λ v. IsOperand kinds (operand v)) }
{
    match Boxed::new(alloc, i) {
        Ok(i) => Ok(Value::Typed(Expr::Element(k, i))),
        Err(_) => Err(FrontErr::NoMemory),
    }
}

// A word as a value.
#[tactic(auto, using(hc_core::proofs::Read::reading))]
fn word(alloc: Global, k: u32, i: Expr) -> Result<Value, FrontErr>
    ensures answers { (t : the_state.State) → Answers operand (Yields (Of (core.Word k (expression i))) t) result t }
    ensures typed { (kinds : List Kind) → IsTyped kinds (core.Word k (expression i)) → IfOk result (λ v. IsOperand kinds (operand v)) }
{
    match Boxed::new(alloc, i) {
        Ok(i) => Ok(Value::Typed(Expr::Word(k, i))),
        Err(_) => Err(FrontErr::NoMemory),
    }
}

/// What is received into is no signal, else S6 of its name.
pub(crate) fn kept<'s, 't>(
    alloc: Global,
    x: &Ident,
    d: &Destination<'s, 't>,
) -> Result<(), FrontErr>
    ensures { (s : the_state.State) → Answers (λ u. u) (spec.kept x.now (destination_read d.now) s) result s }
{
    match d {
        Destination::Register(_) => Ok(()),
        Destination::Signal(_) => Err(broken_name(alloc, Rule::S6, x)),
        Destination::Element(_, _) => Ok(()),
        Destination::Word(_, _) => Ok(()),
    }
}
