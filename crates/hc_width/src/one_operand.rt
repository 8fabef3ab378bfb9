ghost use Rattle.std.specs.Prelude.{◌≡◌, ◌≤◌, IfOk, List};
ghost use Rattle.hc_core.specs.Read.{expression};
ghost use Rattle.hc_core.specs.Typed.{kinds_of};
ghost use Rattle.hc_core.specs.declared.object.Kind.{Kind};
ghost use Rattle.hc_width.specs.Operand as o;
ghost use Rattle.hc_width.specs.Operand.{operand, IsOperand, HasType, IsTyped};
ghost use Rattle.hc_width.specs.Judged.{Answers};
ghost use Rattle.hc_width.specs.Unary.{unary, unary_whole, cast, cast_to, IsPrefix};

use crate::fitting::{fit, widths_differ};
use crate::making::{breaks, constant, decided, unary_of};
use crate::types::type_of;
use crate::value::Value;
use crate::whole::Whole;
use hc_core::{Expr, Objects, UnOp};
use hc_tree::{FrontErr, Place, Rule};
use std::alloc::Global;

/// `-`, `~` or `!` before an operand. Before a constant `~` breaks S12, and `-` S11 where the negative is out of range.
pub fn unary(
    alloc: Global,
    objects: &Objects,
    op: UnOp,
    v: Value,
    place: Place,
) -> Result<Value, FrontErr>
    requires operand { IsOperand (kinds_of objects.now) (operand v) }
    requires operator { IsPrefix op }
    ensures value { Answers (unary op (operand v)) place result }
    ensures typed { IfOk result (λ found. IsOperand (kinds_of objects.now) (operand found)) }
{
    match v {
        Value::Constant(v) => unary_constant(op, v, place),
        Value::Typed(e) => unary_of(alloc, op, e),
    }
}

// An operator before a constant.
fn unary_constant(op: UnOp, v: Whole, place: Place) -> Result<Value, FrontErr>
    ensures { Answers (unary_whole op v) place result }
{
    match op {
        UnOp::Neg => constant(v.neg(), place),
        UnOp::Not => breaks(Rule::S12, place),
        UnOp::IsZero => Ok(decided(!v.holds())),
        UnOp::ToSigned => breaks(Rule::S12, place),
        UnOp::ToUnsigned => breaks(Rule::S12, place),
    }
}

/// A cast to a type of `width`, 1 to 128 bits. A constant takes the type, or breaks S11 where it doesn't fit. An
/// expression of another width breaks S9, with the type's width named first.
pub fn cast(
    alloc: Global,
    objects: &Objects,
    width: u32,
    signed: bool,
    v: Value,
    place: Place,
) -> Result<Value, FrontErr>
    requires least { 1 ≤ width }
    requires most { width ≤ 128 }
    requires operand { IsOperand (kinds_of objects.now) (operand v) }
    ensures value { Answers (cast (kinds_of objects.now) width signed (operand v)) place result }
    ensures typed { IfOk result (λ found. IsOperand (kinds_of objects.now) (operand found)) }
    ensures type_is { IfOk result (λ found. HasType (kinds_of objects.now) (operand found) width signed) }
{
    match v {
        Value::Constant(v) => cast_constant(width, signed, v, place),
        Value::Typed(e) => cast_expression(alloc, objects, width, signed, e, place),
    }
}

// A constant as a number of a type.
#[tactic(auto, unfolding(crate::specs::Unary::cast, crate::specs::Unary::fitted, hc_core::specs::Read::expression))]
fn cast_constant(width: u32, signed: bool, v: Whole, place: Place) -> Result<Value, FrontErr>
    requires least { 1 ≤ width }
    requires most { width ≤ 128 }
    ensures { (kinds : List Kind) → Answers (cast kinds width signed (o.Whole v)) place result }
{
    match fit(v, width, signed, place) {
        Ok(n) => Ok(Value::Typed(Expr::Const(n))),
        Err(r) => Err(FrontErr::Refused(r)),
    }
}

// A cast of an expression, whose width is to be that of the type.
#[tactic(auto, using(crate::proofs::Kept::some_type), unfolding(crate::specs::Unary::cast))]
fn cast_expression(
    alloc: Global,
    objects: &Objects,
    width: u32,
    signed: bool,
    e: Expr,
    place: Place,
) -> Result<Value, FrontErr>
    requires { IsTyped (kinds_of objects.now) (expression e) }
    ensures { Answers (cast (kinds_of objects.now) width signed (o.Of (expression e))) place result }
{
    let (found, _) = type_of(objects, &e);
    if width == found {
        unary_of(alloc, cast_to(signed), e)
    } else {
        Err(FrontErr::Refused(widths_differ(width, found, place)))
    }
}

// The operator that a cast is.
fn cast_to(signed: bool) -> UnOp
    ensures { result ≡ cast_to signed }
{
    if signed {
        UnOp::ToSigned
    } else {
        UnOp::ToUnsigned
    }
}
