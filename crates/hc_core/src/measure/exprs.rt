//! The width and the weight of an expression, in one pass.

ghost use Rattle.std.specs.Prelude.{◌≡◌, ◌<◌, ◌≤◌, ◌^◌};
ghost use Rattle.hc_core.specs.Read.{expression};
ghost use Rattle.hc_core.specs.Typed.{kinds_of, width_of, constant_of, unary_width, group_of, group_width};
ghost use Rattle.hc_core.specs.Weight.{is_constant, expression_weight};
ghost use Rattle.hc_core.specs.Weigh.{CanWeigh};

use crate::expr::{BinOp, Expr, UnOp};
use crate::measure::lookup::{length_at, width_at};
use crate::measure::operators::{binary, element, unary, word};
use crate::object::Object;

/// The width of an expression in bits, and its weight.
#[derive(Clone, Copy)]
pub(crate) struct Sized {
    pub(crate) width: u32,
    pub(crate) weight: u64,
}

/// Whether an expression is a constant.
#[tactic(auto, using(crate::proofs::Read::reading))]
pub(crate) fn is_constant(e: &Expr) -> bool
    ensures { result ≡ is_constant (expression e.now) }
{
    match e {
        Expr::Const(_) => true,
        Expr::Reg(_) => false,
        Expr::Element(_, _) => false,
        Expr::Word(_, _) => false,
        Expr::Signal(_) => false,
        Expr::Input(_) => false,
        Expr::Unary(_, _) => false,
        Expr::Binary(_, _, _) => false,
        Expr::Slice(_, _, _) => false,
        Expr::Choice(_, _, _) => false,
    }
}

/// The number of a constant, and 0 for any other expression.
#[tactic(auto, using(crate::proofs::Read::reading))]
fn constant_of(e: &Expr) -> u128
    ensures { result ≡ constant_of (expression e.now) }
{
    match e {
        Expr::Const(n) => n.bits(),
        Expr::Reg(_) => 0,
        Expr::Element(_, _) => 0,
        Expr::Word(_, _) => 0,
        Expr::Signal(_) => 0,
        Expr::Input(_) => 0,
        Expr::Unary(_, _) => 0,
        Expr::Binary(_, _, _) => 0,
        Expr::Slice(_, _, _) => 0,
        Expr::Choice(_, _, _) => 0,
    }
}

/// The width that an operator gives an operand of `w` bits.
fn unary_width(op: UnOp, w: u32) -> u32
    ensures { result ≡ unary_width op w }
{
    match op {
        UnOp::IsZero => 1,
        UnOp::Neg => w,
        UnOp::Not => w,
        UnOp::ToSigned => w,
        UnOp::ToUnsigned => w,
    }
}

/// The width that an operator gives operands of `w` and `v` bits, of which the second is the constant `n` if it is one.
fn binary_width(op: BinOp, w: u32, v: u32, n: u128) -> u32
    requires { group_width (group_of op) w v n ≤ 128 }
    ensures { result ≡ group_width (group_of op) w v n }
{
    match op {
        BinOp::Add | BinOp::Sub | BinOp::Mul | BinOp::Div | BinOp::Rem => w,
        BinOp::And | BinOp::Or | BinOp::Xor => w,
        BinOp::Eq | BinOp::Ne | BinOp::Lt | BinOp::Le | BinOp::Gt | BinOp::Ge => 1,
        BinOp::Shl | BinOp::Shr => w,
        BinOp::Concat => w + v,
        BinOp::Take => n as u32,
        BinOp::Drop => (w as u128).saturating_sub(n) as u32,
        BinOp::Both | BinOp::Either => 1,
    }
}

/// The width and the weight of an expression.
#[tactic(auto, using(crate::proofs::Read::reading))]
fn measured(objects: &[Object], e: &Expr) -> Sized
    requires { CanWeigh (kinds_of objects.now) (expression e.now) }
    ensures width { result.width ≡ width_of (kinds_of objects.now) (expression e.now) }
    ensures weight { result.weight ≡ expression_weight (kinds_of objects.now) (expression e.now) }
{
    match e {
        Expr::Const(n) => Sized {
            width: n.width(),
            weight: 0,
        },
        Expr::Reg(k) => Sized {
            width: width_at(objects, *k),
            weight: 0,
        },
        Expr::Signal(k) => Sized {
            width: width_at(objects, *k),
            weight: 0,
        },
        Expr::Input(k) => Sized {
            width: width_at(objects, *k),
            weight: 0,
        },
        Expr::Element(k, i) => {
            let index = measured(objects, i.get());
            let width = width_at(objects, *k);
            let own = element(is_constant(i.get()), length_at(objects, *k), width as u64);
            Sized {
                width,
                weight: own + index.weight,
            }
        }
        Expr::Word(k, i) => {
            let at = measured(objects, i.get());
            let own = word(length_at(objects, *k));
            Sized {
                width: width_at(objects, *k),
                weight: own + at.weight,
            }
        }
        Expr::Unary(op, a) => {
            let a = measured(objects, a.get());
            Sized {
                width: unary_width(*op, a.width),
                weight: unary(*op, a.width as u64) + a.weight,
            }
        }
        Expr::Binary(op, x, y) => {
            let a = measured(objects, x.get());
            let b = measured(objects, y.get());
            let own = binary(*op, is_constant(y.get()), a.width as u64, b.width as u64);
            Sized {
                width: binary_width(*op, a.width, b.width, constant_of(y.get())),
                weight: own + a.weight + b.weight,
            }
        }
        Expr::Slice(a, high, low) => {
            let a = measured(objects, a.get());
            Sized {
                width: high.saturating_sub(*low) + 1,
                weight: a.weight,
            }
        }
        Expr::Choice(c, x, y) => {
            let c = measured(objects, c.get());
            let a = measured(objects, x.get());
            let b = measured(objects, y.get());
            Sized {
                width: a.width,
                weight: c.width as u64 + 4 * a.width as u64 + 1 + c.weight + a.weight + b.weight,
            }
        }
    }
}

/// The same, with its bounds.
#[tactic(auto, using(crate::proofs::Operands::width_bound, crate::proofs::Operands::weight_bound))]
pub(crate) fn weighed(objects: &[Object], e: &Expr) -> Sized
    requires { CanWeigh (kinds_of objects.now) (expression e.now) }
    ensures width { result.width ≡ width_of (kinds_of objects.now) (expression e.now) }
    ensures weight { result.weight ≡ expression_weight (kinds_of objects.now) (expression e.now) }
    ensures narrow { result.width ≤ 128 }
    ensures light { result.weight < 2 ^ 57 }
{
    measured(objects, e)
}
