ghost use Rattle.std.specs.Prelude.{◌≡◌};
ghost use Rattle.hc_core.specs.Program.{Constant, Binary};
ghost use Rattle.hc_core.specs.Read.{expression};
ghost use Rattle.hc_core.specs.Typed.{kinds_of};
ghost use Rattle.hc_width.specs.Operand as o;
ghost use Rattle.hc_width.specs.Operand.{IsTyped};
ghost use Rattle.hc_width.specs.Judged.{Gives, Passes, FindsBy};
ghost use Rattle.hc_width.specs.Binary.{binary};

use crate::beside::{
    allowed_amount, can_drop, can_take, condition_number, fit_beside, same_type, shift_amount,
    unsigned,
};
use crate::fitting::refusal;
use crate::group::{Group, group_of};
use crate::types::type_of;
use crate::whole::Whole;
use hc_core::{BinOp, Expr, Objects};
use hc_num::Num;
use hc_tree::{Place, Refusal, Rule};

// Whether two expressions are as their operator needs them.
#[tactic(auto, using(crate::proofs::Kept::some_type))]
pub(crate) fn judge_types(
    objects: &Objects,
    op: BinOp,
    a: &Expr,
    b: &Expr,
    place: Place,
) -> Result<(), Refusal>
    requires left { IsTyped (kinds_of objects.now) (expression a.now) }
    requires right { IsTyped (kinds_of objects.now) (expression b.now) }
    ensures { let x = expression a.now in let y = expression b.now in
        Passes (binary (kinds_of objects.now) op (o.Of x) (o.Of y)) (Gives (o.Of (Binary op x y))) place result }
{
    match group_of(op) {
        Group::Arithmetic => same_type(objects, a, b, place),
        Group::Division => match same_type(objects, a, b, place) {
            Ok(()) => unsigned(objects, a, place),
            Err(r) => Err(r),
        },
        Group::Bitwise => same_type(objects, a, b, place),
        Group::Comparison => same_type(objects, a, b, place),
        Group::Shifting => unsigned(objects, b, place),
        Group::Joining => {
            if type_of(objects, a).0 + type_of(objects, b).0 > 128 {
                Err(refusal(Rule::S13, place))
            } else {
                Ok(())
            }
        }
        Group::Taking => Err(refusal(Rule::S8, place)),
        Group::Dropping => Err(refusal(Rule::S8, place)),
        Group::Logic => Ok(()),
    }
}

// The number that a constant behind an expression and an operator is.
#[tactic(auto, using(crate::proofs::Kept::some_type))]
pub(crate) fn number_second(
    objects: &Objects,
    op: BinOp,
    a: &Expr,
    b: Whole,
    place: Place,
) -> Result<Num, Refusal>
    requires { IsTyped (kinds_of objects.now) (expression a.now) }
    ensures { let x = expression a.now in
        FindsBy (binary (kinds_of objects.now) op (o.Of x) (o.Whole b)) (λ n. o.Of (Binary op x (Constant n))) place result }
{
    match group_of(op) {
        Group::Arithmetic => fit_beside(objects, a, b, place),
        Group::Division => match unsigned(objects, a, place) {
            Ok(()) => fit_beside(objects, a, b, place),
            Err(r) => Err(r),
        },
        Group::Bitwise => fit_beside(objects, a, b, place),
        Group::Comparison => fit_beside(objects, a, b, place),
        Group::Shifting => shift_amount(b, place),
        Group::Joining => Err(refusal(Rule::S12, place)),
        Group::Taking => {
            let (width, _) = type_of(objects, a);
            allowed_amount(can_take(width, b), b, place)
        }
        Group::Dropping => {
            let (width, _) = type_of(objects, a);
            allowed_amount(can_drop(width, b), b, place)
        }
        Group::Logic => Ok(condition_number(b)),
    }
}

// The number that a constant before an operator and an expression is.
pub(crate) fn number_first(
    objects: &Objects,
    op: BinOp,
    a: Whole,
    b: &Expr,
    place: Place,
) -> Result<Num, Refusal>
    requires { IsTyped (kinds_of objects.now) (expression b.now) }
    ensures { let y = expression b.now in
        FindsBy (binary (kinds_of objects.now) op (o.Whole a) (o.Of y)) (λ n. o.Of (Binary op (Constant n) y)) place result }
{
    match group_of(op) {
        Group::Arithmetic => fit_beside(objects, b, a, place),
        Group::Division => match unsigned(objects, b, place) {
            Ok(()) => fit_beside(objects, b, a, place),
            Err(r) => Err(r),
        },
        Group::Bitwise => fit_beside(objects, b, a, place),
        Group::Comparison => fit_beside(objects, b, a, place),
        Group::Shifting => match unsigned(objects, b, place) {
            Ok(()) => fit_beside(objects, b, a, place),
            Err(r) => Err(r),
        },
        Group::Joining => Err(refusal(Rule::S12, place)),
        Group::Taking => Err(refusal(Rule::S12, place)),
        Group::Dropping => Err(refusal(Rule::S12, place)),
        Group::Logic => Ok(condition_number(a)),
    }
}
