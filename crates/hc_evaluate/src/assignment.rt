ghost use Rattle.std.specs.Prelude.{◌≡◌, IfOk, Some};
ghost use Rattle.hc_core.specs.Read.{statement};
ghost use Rattle.hc_core.specs.Sound.{IsTyped, IsWidth};
ghost use Rattle.hc_core.specs.Typed.{kinds_of};
ghost use Rattle.hc_width.specs.Operand.{operand, IsOperand};
ghost use Rattle.hc_scope.specs.Nodes.{nodes};
ghost use Rattle.hc_scope.specs.Statement as spec;
ghost use Rattle.hc_scope.specs.Reading.{context_of, Answers};
ghost use Rattle.hc_scope.specs.Sound.{AreSound};
ghost use Rattle.hc_evaluate.specs.Targets.{destination_read, typed_read, assigned_value, IsDestination};

use crate::expressions::expression;
use crate::targets::{TypedDestination, find_destination};
use crate::writing::{target_of, value_of};
use hc_core::{BinOp, Stmt};
use hc_scope::{Scope, State, taken};
use hc_tree::{Assign, ExprTree, FrontErr, Place, Simple, Step, Target};
use hc_width::{Value, Whole, binary};
use std::alloc::Global;

/// What stands on the right of an assignment: an expression, or the 1 of `++` and `--`.
#[derive(Clone, Copy)]
pub(crate) enum Assigned<'t> {
    Expression(&'t ExprTree),
    One,
}

/// The operator within a mark of assignment.
pub(crate) fn operator(assign: Assign) -> Option<BinOp>
    ensures { result ≡ spec.operator assign }
{
    match assign {
        Assign::Set => None,
        Assign::Add => Some(BinOp::Add),
        Assign::Subtract => Some(BinOp::Sub),
        Assign::Multiply => Some(BinOp::Mul),
        Assign::Divide => Some(BinOp::Div),
        Assign::Remainder => Some(BinOp::Rem),
        Assign::And => Some(BinOp::And),
        Assign::Or => Some(BinOp::Or),
        Assign::Xor => Some(BinOp::Xor),
        Assign::ShiftLeft => Some(BinOp::Shl),
        Assign::ShiftRight => Some(BinOp::Shr),
    }
}

/// The operator of `++` or `--`.
pub(crate) fn step_operator(step: Step) -> BinOp
    ensures { result ≡ spec.step_operator step }
{
    match step {
        Step::Up => BinOp::Add,
        Step::Down => BinOp::Sub,
    }
}

/// An assignment, `++` or `--`, which may stand in a `for`: S4 or S6 of what is written first, then what its index and its value
/// break, then S9 to S11 of both, at the statement.
#[tactic(auto, unfolding(hc_scope::specs::Statement::simple_form))]
pub fn simple_form<'s, 't>(
    alloc: Global,
    state: &mut State,
    scope: &'s Scope<'s, 't>,
    calls: u32,
    room: u32,
    simple: &'t Simple,
) -> Result<Stmt, FrontErr>
    requires sound { AreSound (kinds_of state.old.objects) }
    ensures answers { Answers statement (spec.simple_form (nodes room) (context_of scope.now calls) simple.now state.old) result state.new }
    ensures typed { IfOk result (λ s. IsTyped (kinds_of state.old.objects) (statement s)) }
    ensures objects { state.new.objects ≡ state.old.objects }
{
    match simple {
        Simple::Assign {
            place,
            target,
            assign,
            value,
        } => {
            let v = Assigned::Expression(value);
            assignment(
                alloc,
                state,
                scope,
                calls,
                room,
                *place,
                target,
                operator(*assign),
                v,
            )
        }
        Simple::After {
            place,
            target,
            step,
        } => {
            let op = Some(step_operator(*step));
            assignment(
                alloc,
                state,
                scope,
                calls,
                room,
                *place,
                target,
                op,
                Assigned::One,
            )
        }
        Simple::Before {
            place,
            step,
            target,
        } => {
            let op = Some(step_operator(*step));
            assignment(
                alloc,
                state,
                scope,
                calls,
                room,
                *place,
                target,
                op,
                Assigned::One,
            )
        }
    }
}

// An assignment: `x = e`, or `x = x op e`.
#[tactic(auto, using(crate::proofs::Steps::err_then, crate::proofs::Steps::value_then), unfolding(hc_scope::specs::Statement::assignment))]
fn assignment<'s, 't>(
    alloc: Global,
    state: &mut State,
    scope: &'s Scope<'s, 't>,
    calls: u32,
    room: u32,
    place: Place,
    target: &'t Target,
    op: Option<BinOp>,
    v: Assigned<'t>,
) -> Result<Stmt, FrontErr>
    requires sound { AreSound (kinds_of state.old.objects) }
    ensures answers { let c = context_of scope.now calls in
        Answers statement (spec.assignment (nodes room) c place target.now op (assigned_value (nodes room) c v.entry) state.old) result state.new }
    ensures typed { IfOk result (λ s. IsTyped (kinds_of state.old.objects) (statement s)) }
    ensures objects { state.new.objects ≡ state.old.objects }
{
    match find_destination(alloc, state, scope, target) {
        Ok(d) => assignment_to(alloc, state, scope, calls, room, place, d, op, v),
        Err(e) => Err(e),
    }
}

// An assignment to what its target stands for.
#[tactic(auto, using(hc_core::proofs::Read::reading, crate::proofs::Steps::err_then, crate::proofs::Steps::value_then))]
fn assignment_to<'s, 't>(
    alloc: Global,
    state: &mut State,
    scope: &'s Scope<'s, 't>,
    calls: u32,
    room: u32,
    place: Place,
    d: TypedDestination<'s, 't>,
    op: Option<BinOp>,
    v: Assigned<'t>,
) -> Result<Stmt, FrontErr>
    requires sound { AreSound (kinds_of state.old.objects) }
    requires is { IsDestination (kinds_of state.old.objects) (destination_read d.to) d.of.width d.of.signed }
    requires width { IsWidth d.of.width }
    ensures answers { let c = context_of scope.now calls in
        Answers statement (spec.assignment_to (nodes room) c place op (assigned_value (nodes room) c v.entry) (typed_read d.entry) state.old) result state.new }
    ensures typed { IfOk result (λ s. IsTyped (kinds_of state.old.objects) (statement s)) }
    ensures objects { state.new.objects ≡ state.old.objects }
{
    match target_of(alloc, state, calls, room, d) {
        Ok(target) => match new_value(alloc, state, scope, calls, room, place, d, op, v) {
            Ok(v) => match taken(state, d.of, place, v) {
                Ok(value) => Ok(Stmt::Assign {
                    place,
                    target,
                    value,
                }),
                Err(e) => {
                    drop(target);
                    Err(e)
                }
            },
            Err(e) => {
                drop(target);
                Err(e)
            }
        },
        Err(e) => Err(e),
    }
}

// The value that is assigned: `e`, or `x op e`.
fn new_value<'s, 't>(
    alloc: Global,
    state: &mut State,
    scope: &'s Scope<'s, 't>,
    calls: u32,
    room: u32,
    place: Place,
    d: TypedDestination<'s, 't>,
    op: Option<BinOp>,
    v: Assigned<'t>,
) -> Result<Value, FrontErr>
    requires sound { AreSound (kinds_of state.old.objects) }
    requires is { IsDestination (kinds_of state.old.objects) (destination_read d.to) d.of.width d.of.signed }
    ensures answers { let c = context_of scope.now calls in
        Answers operand (spec.new_value (nodes room) c place (destination_read d.entry.to) op (assigned_value (nodes room) c v.entry) state.old) result state.new }
    ensures typed { IfOk result (λ v. IsOperand (kinds_of state.old.objects) (operand v)) }
    ensures objects { state.new.objects ≡ state.old.objects }
{
    match op {
        Some(op) => combined(alloc, state, scope, calls, room, place, d, op, v),
        None => right_side(alloc, state, scope, calls, room, v),
    }
}

// What is written and the right side, by an operator.
#[tactic(auto, using(crate::proofs::Steps::err_then, crate::proofs::Steps::value_then, crate::proofs::Steps::judged_answers))]
fn combined<'s, 't>(
    alloc: Global,
    state: &mut State,
    scope: &'s Scope<'s, 't>,
    calls: u32,
    room: u32,
    place: Place,
    d: TypedDestination<'s, 't>,
    op: BinOp,
    v: Assigned<'t>,
) -> Result<Value, FrontErr>
    requires sound { AreSound (kinds_of state.old.objects) }
    requires is { IsDestination (kinds_of state.old.objects) (destination_read d.to) d.of.width d.of.signed }
    ensures answers { let c = context_of scope.now calls in
        Answers operand (spec.new_value (nodes room) c place (destination_read d.entry.to) (Some op) (assigned_value (nodes room) c v.entry) state.old) result state.new }
    ensures typed { IfOk result (λ v. IsOperand (kinds_of state.old.objects) (operand v)) }
    ensures objects { state.new.objects ≡ state.old.objects }
{
    match value_of(alloc, state, calls, room, d) {
        Ok(x) => match right_side(alloc, state, scope, calls, room, v) {
            Ok(v) => binary(alloc, &state.objects, op, x, v, place),
            Err(e) => {
                drop(x);
                Err(e)
            }
        },
        Err(e) => Err(e),
    }
}

// The right side of an assignment.
fn right_side<'s, 't>(
    alloc: Global,
    state: &mut State,
    scope: &'s Scope<'s, 't>,
    calls: u32,
    room: u32,
    v: Assigned<'t>,
) -> Result<Value, FrontErr>
    requires sound { AreSound (kinds_of state.old.objects) }
    ensures answers { let c = context_of scope.now calls in
        Answers operand (assigned_value (nodes room) c v.entry state.old) result state.new }
    ensures typed { IfOk result (λ v. IsOperand (kinds_of state.old.objects) (operand v)) }
    ensures objects { state.new.objects ≡ state.old.objects }
{
    match v {
        Assigned::Expression(e) => expression(alloc, state, scope, calls, room, e),
        Assigned::One => Ok(Value::Constant(Whole::from_number(1))),
    }
}
