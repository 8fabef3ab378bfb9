ghost use Rattle.std.specs.Prelude.{◌≡◌, IfOk, MatchOption, List};
ghost use Rattle.hc_core.specs.Program.{Expression, Slice};
ghost use Rattle.hc_core.specs.Read.{expression};
ghost use Rattle.hc_core.specs.Typed.{kinds_of, width_of};
ghost use Rattle.hc_core.specs.declared.object.Kind.{Kind};
ghost use Rattle.hc_tree.specs.declared.refusal.Rule.TheVariants.{S14};
ghost use Rattle.hc_tree.specs.declared.refusal.Detail.TheVariants.{Nothing};
ghost use Rattle.hc_width.specs.Operand as o;
ghost use Rattle.hc_width.specs.Operand.{operand, IsOperand, IsTyped};
ghost use Rattle.hc_width.specs.Judged.{Answers, Gives, Breaks};
ghost use Rattle.hc_width.specs.Parts.{cut, cut_within};

use crate::making::{breaks, slice_of};
use crate::types::type_of;
use crate::value::Value;
use crate::whole::Whole;
use hc_core::{Expr, Objects};
use hc_tree::{FrontErr, Place, Rule};
use std::alloc::Global;

/// The bits of an operand from `high` to `low`, both counted from 0 at the lowest. A constant has none and breaks S12;
/// bits that aren't within the width, or not in this order, break S14.
pub fn cut(
    alloc: Global,
    objects: &Objects,
    v: Value,
    high: Whole,
    low: Whole,
    place: Place,
) -> Result<Value, FrontErr>
    requires { IsOperand (kinds_of objects.now) (operand v) }
    ensures value { Answers (cut (kinds_of objects.now) (operand v) high low) place result }
    ensures typed { IfOk result (λ found. IsOperand (kinds_of objects.now) (operand found)) }
{
    match v {
        Value::Constant(_) => breaks(Rule::S12, place),
        Value::Typed(e) => cut_expression(alloc, objects, e, high, low, place),
    }
}

// The bits of an expression.
#[tactic(auto, using(crate::proofs::Kept::some_type), unfolding(crate::specs::Parts::cut))]
fn cut_expression(
    alloc: Global,
    objects: &Objects,
    e: Expr,
    high: Whole,
    low: Whole,
    place: Place,
) -> Result<Value, FrontErr>
    requires { IsTyped (kinds_of objects.now) (expression e) }
    ensures { Answers (cut (kinds_of objects.now) (o.Of (expression e)) high low) place result }
{
    let (width, _) = type_of(objects, &e);
    match bounds(width, high, low) {
        Some((high, low)) => slice_of(alloc, e, high, low),
        None => breaks(Rule::S14, place),
    }
}

// Both bounds of a bit range, or None where they aren't within the width or not in this order.
fn bounds(width: u32, high: Whole, low: Whole) -> Option<(u32, u32)>
    ensures { (kinds : List Kind) (e : Expression) → width_of kinds e ≡ width
        → MatchOption result (cut_within kinds e high low ≡ Breaks S14 Nothing) (λ b. cut_within kinds e high low ≡ Gives (o.Of (Slice e b.0 b.1))) }
{
    if high.is_negative() || low.is_negative() {
        None
    } else if low.magnitude() <= high.magnitude() && high.magnitude() < u128::from(width) {
        Some((high.magnitude() as u32, low.magnitude() as u32))
    } else {
        None
    }
}
