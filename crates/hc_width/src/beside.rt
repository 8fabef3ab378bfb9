ghost use Rattle.std.specs.Prelude.{◌≡◌, ℕ, List, Bool, false, ◌&&◌, nat_le, nat_lt, unsigned_abs};
ghost use Rattle.hc_num.specs.Number.{Number};
ghost use Rattle.hc_num.specs.Compare.{truth};
ghost use Rattle.hc_core.specs.Program.{Expression, Constant, Binary};
ghost use Rattle.hc_core.specs.declared.object.Kind.{Kind};
ghost use Rattle.hc_core.specs.declared.expr.BinOp.{BinOp};
ghost use Rattle.hc_tree.specs.declared.refusal.Rule.TheVariants.{S10, S11};
ghost use Rattle.hc_width.specs.Whole.{holds, is_negative, number_in};
ghost use Rattle.hc_width.specs.Binary.{within};
ghost use Rattle.hc_width.specs.Operand as o;
ghost use Rattle.hc_core.specs.Read.{expression};
ghost use Rattle.hc_core.specs.Typed.{kinds_of, width_of, sign_of};
ghost use Rattle.hc_width.specs.Operand.{Operand, IsTyped};
ghost use Rattle.hc_width.specs.Judged.{Judged, Gives, Finds, FindsBy, Passes, unless, equal_widths, equal_signs};
ghost use Rattle.hc_width.specs.Unary.{fitted};

use crate::fitting::{fit, refusal, widths_differ};
use crate::types::type_of;
use crate::whole::Whole;
use hc_core::{Expr, Objects};
use hc_num::Num;
use hc_tree::{Place, Refusal, Rule};

// Whether two expressions have one type: S9 where their widths differ, and S10 where their signs do.
#[tactic(auto, using(crate::proofs::Kept::some_type))]
pub(crate) fn same_type(objects: &Objects, a: &Expr, b: &Expr, place: Place) -> Result<(), Refusal>
    requires left { IsTyped (kinds_of objects.now) (expression a.now) }
    requires right { IsTyped (kinds_of objects.now) (expression b.now) }
    ensures { let kinds = kinds_of objects.now in let x = expression a.now in let y = expression b.now in
        (behind : Judged Operand) → Passes (equal_widths (width_of kinds x) (width_of kinds y) (equal_signs (sign_of kinds x) (sign_of kinds y) behind)) behind place result }
{
    let left = type_of(objects, a);
    let right = type_of(objects, b);
    if left.0 != right.0 {
        Err(widths_differ(left.0, right.0, place))
    } else if left.1 != right.1 {
        Err(refusal(Rule::S10, place))
    } else {
        Ok(())
    }
}

// A constant as a number of the type of the expression beside it, or S11.
#[tactic(auto, using(crate::proofs::Kept::some_type))]
pub(crate) fn fit_beside(
    objects: &Objects,
    e: &Expr,
    v: Whole,
    place: Place,
) -> Result<Num, Refusal>
    requires { IsTyped (kinds_of objects.now) (expression e.now) }
    ensures { let kinds = kinds_of objects.now in Finds (fitted (width_of kinds (expression e.now)) (sign_of kinds (expression e.now)) v) place result }
{
    let (width, signed) = type_of(objects, e);
    fit(v, width, signed, place)
}

// An expression without a sign: S10 where it has one.
#[tactic(auto, using(crate::proofs::Kept::some_type))]
pub(crate) fn unsigned(objects: &Objects, e: &Expr, place: Place) -> Result<(), Refusal>
    requires { IsTyped (kinds_of objects.now) (expression e.now) }
    ensures { (behind : Judged Operand) → Passes (unless (sign_of (kinds_of objects.now) (expression e.now)) S10 behind) behind place result }
{
    if type_of(objects, e).1 {
        Err(refusal(Rule::S10, place))
    } else {
        Ok(())
    }
}

// A constant that is a condition, as one bit.
pub(crate) fn condition_number(c: Whole) -> Num
    ensures { result ≡ truth (holds c) }
{
    Num::new(1, false, u128::from(c.holds()))
}

// The constant amount of a shift, or S11 where it is negative.
pub(crate) fn shift_amount(v: Whole, place: Place) -> Result<Num, Refusal>
    ensures { (made : Number → Operand) → FindsBy (unless (is_negative v) S11 (Gives (made (number_in 128 false v)))) made place result }
{
    if v.is_negative() {
        Err(refusal(Rule::S11, place))
    } else {
        Ok(Num::new(128, false, v.magnitude()))
    }
}

// The constant amount of a take or a drop, or S14 where it is negative or isn't allowed.
pub(crate) fn allowed_amount(is_allowed: bool, v: Whole, place: Place) -> Result<Num, Refusal>
    ensures { (kinds : List Kind) (op : BinOp) (a : Expression) (allowed : ℕ → ℕ → Bool) → is_allowed ≡ allowed (unsigned_abs v) (width_of kinds a)
        → FindsBy (within kinds op allowed (o.Of a) (o.Whole v)) (λ n. o.Of (Binary op a (Constant n))) place result }
{
    if v.is_negative() || !is_allowed {
        Err(refusal(Rule::S14, place))
    } else {
        Ok(Num::new(128, false, v.magnitude()))
    }
}

// Whether so many bits can be taken of this width: at least one.
pub(crate) fn can_take(width: u32, v: Whole) -> bool
    ensures { result ≡ (nat_le 1 (unsigned_abs v) && nat_le (unsigned_abs v) width) }
{
    1 <= v.magnitude() && v.magnitude() <= u128::from(width)
}

// Whether so many bits can be dropped of this width: not all.
pub(crate) fn can_drop(width: u32, v: Whole) -> bool
    ensures { result ≡ nat_lt (unsigned_abs v) width }
{
    v.magnitude() < u128::from(width)
}
