ghost use Rattle.std.specs.Prelude.{◌≡◌, ℤ, IfOk};
ghost use Rattle.hc_core.specs.Read.{expression};
ghost use Rattle.hc_core.specs.Program.{Unary, Binary, Slice, Choice};
ghost use Rattle.hc_tree.specs.declared.place.Place.{Place};
ghost use Rattle.hc_tree.specs.declared.refusal.Detail.TheVariants.{Nothing};
ghost use Rattle.hc_width.specs.Whole.{within_range};
ghost use Rattle.hc_width.specs.Operand.{Of, operand};
ghost use Rattle.hc_width.specs.Judged.{Answers, Gives, Breaks};
ghost use Rattle.hc_width.specs.Unary.{ranged, decided};

use crate::fitting::refusal;
use crate::value::Value;
use crate::whole::Whole;
use hc_core::{BinOp, Expr, UnOp};
use hc_tree::{FrontErr, Place, Rule};
use sqlite_items::Boxed;
use std::alloc::Global;

// A rule is broken, and there is no more to say.
pub(crate) fn breaks(rule: Rule, place: Place) -> Result<Value, FrontErr>
    ensures { Answers (Breaks rule Nothing) place result }
{
    Err(FrontErr::Refused(refusal(rule, place)))
}

// A constant, or S11 where there is none.
pub(crate) fn constant(found: Option<Whole>, place: Place) -> Result<Value, FrontErr>
    ensures { (v : ℤ) → found ≡ within_range v → Answers (ranged v) place result }
{
    match found {
        Some(v) => Ok(Value::Constant(v)),
        None => breaks(Rule::S11, place),
    }
}

// Whether something holds, as a constant.
pub(crate) fn decided(holds: bool) -> Value
    ensures { operand result ≡ decided holds }
{
    Value::Constant(Whole::from_number(u128::from(holds)))
}

// An operator before its operand.
#[tactic(auto, using(hc_core::proofs::Read::reading))]
pub(crate) fn unary_of(alloc: Global, op: UnOp, a: Expr) -> Result<Value, FrontErr>
    ensures { (at : Place) → Answers (Gives (Of (Unary op (expression a)))) at result }
{
    match Boxed::new(alloc, a) {
        Ok(a) => Ok(Value::Typed(Expr::Unary(op, a))),
        Err(_) => Err(FrontErr::NoMemory),
    }
}

// An operator between two operands.
#[tactic(auto, using(hc_core::proofs::Read::reading))]
pub(crate) fn binary_of(alloc: Global, op: BinOp, a: Expr, b: Expr) -> Result<Value, FrontErr>
    ensures { (at : Place) → Answers (Gives (Of (Binary op (expression a) (expression b)))) at result }
{
    match (Boxed::new(alloc, a), Boxed::new(alloc, b)) {
        (Ok(a), Ok(b)) => Ok(Value::Typed(Expr::Binary(op, a, b))),
        _ => Err(FrontErr::NoMemory),
    }
}

// The bits of an expression from a high one to a low one.
#[tactic(auto, using(hc_core::proofs::Read::reading))]
pub(crate) fn slice_of(alloc: Global, a: Expr, high: u32, low: u32) -> Result<Value, FrontErr>
    ensures { (at : Place) → Answers (Gives (Of (Slice (expression a) high low))) at result }
{
    match Boxed::new(alloc, a) {
        Ok(a) => Ok(Value::Typed(Expr::Slice(a, high, low))),
        Err(_) => Err(FrontErr::NoMemory),
    }
}

// A choice between two expressions.
#[tactic(auto, using(hc_core::proofs::Read::reading))]
pub(crate) fn choice_of(alloc: Global, c: Expr, a: Expr, b: Expr) -> Result<Value, FrontErr>
    ensures { (at : Place) → Answers (Gives (Of (Choice (expression c) (expression a) (expression b)))) at result }
{
    match (
        Boxed::new(alloc, c),
        Boxed::new(alloc, a),
        Boxed::new(alloc, b),
    ) {
        (Ok(c), Ok(a), Ok(b)) => Ok(Value::Typed(Expr::Choice(c, a, b))),
        _ => Err(FrontErr::NoMemory),
    }
}
