ghost use Rattle.std.specs.Prelude.{◌≡◌, ◌≤◌, slice_get, Some, List};
ghost use Rattle.hc_core.specs.Program.{Expression, Unary};
ghost use Rattle.hc_core.specs.declared.object.Kind.{Kind};
ghost use Rattle.hc_core.specs.Read.{expression};
ghost use Rattle.hc_core.specs.Typed.{Typed, HasSomeType, kinds_of, width_of, sign_of, kind_width, kind_sign, constant_of};

use crate::group::{Group, group_of};
use hc_core::{BinOp, Expr, Kind, Objects, UnOp, types_are_unique};

/// The type of an expression: its width in bits, and whether it has a sign.
#[tactic(auto, using(crate::proofs::Typing::typing))]
pub fn type_of(objects: &Objects, e: &Expr) -> (u32, bool)
    requires { HasSomeType (kinds_of objects.now) (expression e.now) }
    ensures width { result.0 ≡ width_of (kinds_of objects.now) (expression e.now) }
    ensures sign { result.1 ≡ sign_of (kinds_of objects.now) (expression e.now) }
    ensures typed { Typed (kinds_of objects.now) (expression e.now) result.0 result.1 }
{
    types_are_unique();
    found_type(objects, e)
}

// The type that is computed. Of two operands only the first is gone into, but for `@`.
#[tactic(auto, using(hc_core::proofs::Read::reading, crate::proofs::Typing::typing), unfolding(hc_core::specs::Read::expression))]
fn found_type(objects: &Objects, e: &Expr) -> (u32, bool)
    requires { HasSomeType (kinds_of objects.now) (expression e.now) }
    ensures width { result.0 ≡ width_of (kinds_of objects.now) (expression e.now) }
    ensures sign { result.1 ≡ sign_of (kinds_of objects.now) (expression e.now) }
{
    match e {
        Expr::Const(n) => (n.width(), n.signed()),
        Expr::Reg(k) => object_type(objects, *k),
        Expr::Element(k, _) => object_type(objects, *k),
        Expr::Word(k, _) => object_type(objects, *k),
        Expr::Signal(k) => object_type(objects, *k),
        Expr::Input(k) => object_type(objects, *k),
        Expr::Unary(op, a) => unary_type(*op, found_type(objects, a.get())),
        Expr::Binary(op, a, b) => {
            let (width, signed) = found_type(objects, a.get());
            match group_of(*op) {
                Group::Arithmetic => (width, signed),
                Group::Division => (width, signed),
                Group::Bitwise => (width, signed),
                Group::Comparison => (1, false),
                Group::Shifting => (width, signed),
                Group::Joining => (width + found_type(objects, b.get()).0, signed),
                Group::Taking => (amount(b.get()) as u32, signed),
                Group::Dropping => (width - amount(b.get()) as u32, signed),
                Group::Logic => (1, false),
            }
        }
        Expr::Slice(a, high, low) => {
            // The high bit is below this width, so that there is a next number.
            let _width = found_type(objects, a.get()).0;
            (*high - *low + 1, false)
        }
        Expr::Choice(_, a, _) => found_type(objects, a.get()),
    }
}

// The type of what an operator before an operand of this type gives.
fn unary_type(op: UnOp, operand: (u32, bool)) -> (u32, bool)
    ensures width { (kinds : List Kind) (a : Expression) → operand.0 ≡ width_of kinds a → result.0 ≡ width_of kinds (Unary op a) }
    ensures sign { (kinds : List Kind) (a : Expression) → operand.1 ≡ sign_of kinds a → result.1 ≡ sign_of kinds (Unary op a) }
{
    match op {
        UnOp::Neg => operand,
        UnOp::Not => operand,
        UnOp::IsZero => (1, false),
        UnOp::ToSigned => (operand.0, true),
        UnOp::ToUnsigned => (operand.0, false),
    }
}

// The number of a constant, and 0 for any other expression.
#[tactic(auto, using(hc_core::proofs::Read::reading), unfolding(hc_core::specs::Read::expression))]
fn amount(e: &Expr) -> u128
    ensures { result ≡ constant_of (expression e.now) }
{
    match e {
        Expr::Const(n) => n.bits(),
        Expr::Reg(_) => 0,
        Expr::Element(_, _) => 0,
        Expr::Word(_, _) => 0,
        Expr::Signal(_) => 0,
        Expr::Input(_) => 0,
        Expr::Unary(_, _) => 0,
        Expr::Binary(_, _, _) => 0,
        Expr::Slice(_, _, _) => 0,
        Expr::Choice(_, _, _) => 0,
    }
}

// The width and sign of the object with a number, or 0 and none where there is no such object.
fn object_type(objects: &Objects, k: u32) -> (u32, bool)
    ensures width { result.0 ≡ kind_width (slice_get (kinds_of objects.now) k) }
    ensures sign { result.1 ≡ kind_sign (slice_get (kinds_of objects.now) k) }
{
    match objects.get(k as usize) {
        Some(object) => kind_type(&object.kind),
        None => (0, false),
    }
}

// The width and sign of an object of a kind.
fn kind_type(kind: &Kind) -> (u32, bool)
    ensures width { result.0 ≡ kind_width (Some kind.now) }
    ensures sign { result.1 ≡ kind_sign (Some kind.now) }
{
    match kind {
        Kind::Reg { width, signed, .. } => (*width, *signed),
        Kind::Array { width, signed, .. } => (*width, *signed),
        Kind::Ram { width, signed, .. } => (*width, *signed),
        Kind::Rom { width, signed, .. } => (*width, *signed),
        Kind::Signal { width, signed, .. } => (*width, *signed),
        Kind::Chan { width, signed, .. } => (*width, *signed),
        Kind::Input { width, signed, .. } => (*width, *signed),
        Kind::Output { width, signed, .. } => (*width, *signed),
    }
}
