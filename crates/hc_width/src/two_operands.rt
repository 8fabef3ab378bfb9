ghost use Rattle.std.specs.Prelude.{◌≡◌, IfOk};
ghost use Rattle.hc_core.specs.Program.{Constant, Binary};
ghost use Rattle.hc_core.specs.Read.{expression};
ghost use Rattle.hc_core.specs.Typed.{kinds_of};
ghost use Rattle.hc_width.specs.Operand as o;
ghost use Rattle.hc_width.specs.Operand.{operand, IsOperand, IsTyped};
ghost use Rattle.hc_width.specs.Judged.{Answers, Gives, Passes, FindsBy};
ghost use Rattle.hc_width.specs.Binary.{binary};

use crate::constants::constants;
use crate::judging::{judge_types, number_first, number_second};
use crate::making::binary_of;
use crate::value::Value;
use crate::whole::Whole;
use hc_core::{BinOp, Expr, Objects};
use hc_tree::{FrontErr, Place};
use std::alloc::Global;

/// An operator between two operands. Two constants give a constant, and a constant beside an expression takes the type
/// that the operator wants there. Of S8 to S14 the form breaks the first that isn't kept, in the order S12, S8, S9, S10,
/// S11, S13, S14.
pub fn binary(
    alloc: Global,
    objects: &Objects,
    op: BinOp,
    a: Value,
    b: Value,
    place: Place,
) -> Result<Value, FrontErr>
    requires left { IsOperand (kinds_of objects.now) (operand a) }
    requires right { IsOperand (kinds_of objects.now) (operand b) }
    ensures value { Answers (binary (kinds_of objects.now) op (operand a) (operand b)) place result }
    ensures typed { IfOk result (λ found. IsOperand (kinds_of objects.now) (operand found)) }
{
    judged_binary(alloc, objects, op, a, b, place)
}

// The operator, by what its operands are.
fn judged_binary(
    alloc: Global,
    objects: &Objects,
    op: BinOp,
    a: Value,
    b: Value,
    place: Place,
) -> Result<Value, FrontErr>
    requires left { IsOperand (kinds_of objects.now) (operand a) }
    requires right { IsOperand (kinds_of objects.now) (operand b) }
    ensures { Answers (binary (kinds_of objects.now) op (operand a) (operand b)) place result }
{
    match a {
        Value::Constant(a) => match b {
            Value::Constant(b) => constants(op, a, b, place),
            Value::Typed(b) => constant_first(alloc, objects, op, a, b, place),
        },
        Value::Typed(a) => match b {
            Value::Constant(b) => constant_second(alloc, objects, op, a, b, place),
            Value::Typed(b) => expressions(alloc, objects, op, a, b, place),
        },
    }
}

// An operator between two expressions.
fn expressions(
    alloc: Global,
    objects: &Objects,
    op: BinOp,
    a: Expr,
    b: Expr,
    place: Place,
) -> Result<Value, FrontErr>
    requires left { IsTyped (kinds_of objects.now) (expression a) }
    requires right { IsTyped (kinds_of objects.now) (expression b) }
    ensures { Answers (binary (kinds_of objects.now) op (o.Of (expression a)) (o.Of (expression b))) place result }
{
    match judge_types(objects, op, &a, &b, place) {
        Ok(()) => binary_of(alloc, op, a, b),
        Err(r) => Err(FrontErr::Refused(r)),
    }
}

// An operator between an expression and a constant.
#[tactic(auto, unfolding(hc_core::specs::Read::expression))]
fn constant_second(
    alloc: Global,
    objects: &Objects,
    op: BinOp,
    a: Expr,
    b: Whole,
    place: Place,
) -> Result<Value, FrontErr>
    requires { IsTyped (kinds_of objects.now) (expression a) }
    ensures { Answers (binary (kinds_of objects.now) op (o.Of (expression a)) (o.Whole b)) place result }
{
    match number_second(objects, op, &a, b, place) {
        Ok(n) => binary_of(alloc, op, a, Expr::Const(n)),
        Err(r) => Err(FrontErr::Refused(r)),
    }
}

// An operator between a constant and an expression.
#[tactic(auto, unfolding(hc_core::specs::Read::expression))]
fn constant_first(
    alloc: Global,
    objects: &Objects,
    op: BinOp,
    a: Whole,
    b: Expr,
    place: Place,
) -> Result<Value, FrontErr>
    requires { IsTyped (kinds_of objects.now) (expression b) }
    ensures { Answers (binary (kinds_of objects.now) op (o.Whole a) (o.Of (expression b))) place result }
{
    match number_first(objects, op, a, &b, place) {
        Ok(n) => binary_of(alloc, op, Expr::Const(n), b),
        Err(r) => Err(FrontErr::Refused(r)),
    }
}
