ghost use Rattle.std.specs.Prelude.{◌≡◌, IfOk, List};
ghost use Rattle.hc_core.specs.Read.{expression};
ghost use Rattle.hc_core.specs.Typed.{kinds_of};
ghost use Rattle.hc_core.specs.declared.object.Kind.{Kind};
ghost use Rattle.hc_width.specs.Operand as o;
ghost use Rattle.hc_width.specs.Operand.{Operand, operand, IsOperand, IsTyped};
ghost use Rattle.hc_width.specs.Judged.{Answers};
ghost use Rattle.hc_width.specs.Parts.{choose, choose_whole, condition};

use crate::beside::{condition_number, fit_beside, same_type};
use crate::making::{breaks, choice_of};
use crate::value::Value;
use crate::whole::Whole;
use hc_core::{Expr, Objects};
use hc_tree::{FrontErr, Place, Rule};
use std::alloc::Global;

/// `c ? a : b`. Both sides are to have one type, which a constant takes from the other: two widths that differ break S9,
/// two signs S10, and a constant that doesn't fit S11. Two constants are chosen from by a constant condition; by another
/// they break S12.
pub fn choose(
    alloc: Global,
    objects: &Objects,
    c: Value,
    a: Value,
    b: Value,
    place: Place,
) -> Result<Value, FrontErr>
    requires condition { IsOperand (kinds_of objects.now) (operand c) }
    requires left { IsOperand (kinds_of objects.now) (operand a) }
    requires right { IsOperand (kinds_of objects.now) (operand b) }
    ensures value { Answers (choose (kinds_of objects.now) (operand c) (operand a) (operand b)) place result }
    ensures typed { IfOk result (λ found. IsOperand (kinds_of objects.now) (operand found)) }
{
    judged_choice(alloc, objects, c, a, b, place)
}

// The choice, by what its sides are.
fn judged_choice(
    alloc: Global,
    objects: &Objects,
    c: Value,
    a: Value,
    b: Value,
    place: Place,
) -> Result<Value, FrontErr>
    requires left { IsOperand (kinds_of objects.now) (operand a) }
    requires right { IsOperand (kinds_of objects.now) (operand b) }
    ensures { Answers (choose (kinds_of objects.now) (operand c) (operand a) (operand b)) place result }
{
    match a {
        Value::Constant(a) => match b {
            Value::Constant(b) => choose_constant(c, a, b, place),
            Value::Typed(b) => constant_first(alloc, objects, condition(c), a, b, place),
        },
        Value::Typed(a) => match b {
            Value::Constant(b) => constant_second(alloc, objects, condition(c), a, b, place),
            Value::Typed(b) => choose_expression(alloc, objects, condition(c), a, b, place),
        },
    }
}

// A choice between two expressions.
#[tactic(auto, unfolding(crate::specs::Parts::choose))]
fn choose_expression(
    alloc: Global,
    objects: &Objects,
    c: Expr,
    a: Expr,
    b: Expr,
    place: Place,
) -> Result<Value, FrontErr>
    requires left { IsTyped (kinds_of objects.now) (expression a) }
    requires right { IsTyped (kinds_of objects.now) (expression b) }
    ensures { (by : Operand) → condition by ≡ expression c
        → Answers (choose (kinds_of objects.now) by (o.Of (expression a)) (o.Of (expression b))) place result }
{
    match same_type(objects, &a, &b, place) {
        Ok(()) => choice_of(alloc, c, a, b),
        Err(r) => Err(FrontErr::Refused(r)),
    }
}

// A choice between an expression and a constant.
#[tactic(auto, unfolding(crate::specs::Parts::choose, crate::specs::Unary::fitted, hc_core::specs::Read::expression))]
fn constant_second(
    alloc: Global,
    objects: &Objects,
    c: Expr,
    a: Expr,
    b: Whole,
    place: Place,
) -> Result<Value, FrontErr>
    requires { IsTyped (kinds_of objects.now) (expression a) }
    ensures { (by : Operand) → condition by ≡ expression c
        → Answers (choose (kinds_of objects.now) by (o.Of (expression a)) (o.Whole b)) place result }
{
    match fit_beside(objects, &a, b, place) {
        Ok(n) => choice_of(alloc, c, a, Expr::Const(n)),
        Err(r) => Err(FrontErr::Refused(r)),
    }
}

// A choice between a constant and an expression.
#[tactic(auto, unfolding(crate::specs::Parts::choose, crate::specs::Unary::fitted, hc_core::specs::Read::expression))]
fn constant_first(
    alloc: Global,
    objects: &Objects,
    c: Expr,
    a: Whole,
    b: Expr,
    place: Place,
) -> Result<Value, FrontErr>
    requires { IsTyped (kinds_of objects.now) (expression b) }
    ensures { (by : Operand) → condition by ≡ expression c
        → Answers (choose (kinds_of objects.now) by (o.Whole a) (o.Of (expression b))) place result }
{
    match fit_beside(objects, &b, a, place) {
        Ok(n) => choice_of(alloc, c, Expr::Const(n), b),
        Err(r) => Err(FrontErr::Refused(r)),
    }
}

// A choice between two constants.
fn choose_constant(c: Value, a: Whole, b: Whole, place: Place) -> Result<Value, FrontErr>
    ensures { Answers (choose_whole (operand c) a b) place result }
{
    match c {
        Value::Constant(c) => Ok(Value::Constant(if c.holds() { a } else { b })),
        Value::Typed(_) => breaks(Rule::S12, place),
    }
}

// A condition beside what is typed, in which a constant is one bit.
#[tactic(auto, unfolding(hc_core::specs::Read::expression))]
pub(crate) fn condition(c: Value) -> Expr
    ensures { expression result ≡ condition (operand c) }
{
    match c {
        Value::Constant(c) => Expr::Const(condition_number(c)),
        Value::Typed(c) => c,
    }
}
