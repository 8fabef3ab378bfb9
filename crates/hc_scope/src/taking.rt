ghost use Rattle.std.specs.Prelude.{◌≡◌, IfOk};
ghost use Rattle.hc_core.specs.Read.{expression};
ghost use Rattle.hc_core.specs.Sound.{IsWidth};
ghost use Rattle.hc_core.specs.Typed.{Typed, kinds_of};
ghost use Rattle.hc_width.specs.Operand.{operand, IsOperand, IsTyped};
ghost use Rattle.hc_width.specs.Operand as o;
ghost use Rattle.hc_scope.specs.Declaration as spec;
ghost use Rattle.hc_scope.specs.Reading.{Answers};
ghost use Rattle.hc_scope.specs.Types.{type_read};

use crate::refusal::{broken, widths_differ};
use crate::state::State;
use crate::value_type::ValueType;
use hc_core::Expr;
use hc_tree::{FrontErr, Place, Rule};
use hc_width::{Value, fit, type_of};

/// A value with the type of what it is for: S11 at this place where a constant doesn't fit, S9 and then S10 where the types
/// differ, with the width that is wanted first, in bits.
#[tactic(auto, using(crate::proofs::Fitted::fitted_typed), unfolding(crate::specs::Declaration::taken, hc_core::specs::Read::expression))]
pub fn taken(state: &State, t: ValueType, place: Place, v: Value) -> Result<Expr, FrontErr>
    requires width { IsWidth t.width }
    requires value { IsOperand (kinds_of state.now.objects) (operand v) }
    ensures answers { Answers expression (spec.taken (type_read t) place (operand v) state.now) result state.now }
    ensures typed { IfOk result (λ e. Typed (kinds_of state.now.objects) (expression e) t.width t.signed) }
{
    match v {
        Value::Constant(v) => match fit(v, t.width, t.signed, place) {
            Ok(n) => Ok(Expr::Const(n)),
            Err(r) => Err(FrontErr::Refused(r)),
        },
        Value::Typed(e) => taken_expression(state, t, place, e),
    }
}

// An expression of this type.
#[tactic(auto, using(hc_width::proofs::Kept::some_type), unfolding(crate::specs::Declaration::taken))]
fn taken_expression(state: &State, t: ValueType, place: Place, e: Expr) -> Result<Expr, FrontErr>
    requires { IsTyped (kinds_of state.now.objects) (expression e) }
    ensures answers { Answers expression (spec.taken (type_read t) place (o.Of (expression e)) state.now) result state.now }
    ensures typed { IfOk result (λ e. Typed (kinds_of state.now.objects) (expression e) t.width t.signed) }
{
    let (width, signed) = type_of(&state.objects, &e);
    if t.width != width {
        Err(widths_differ(t.width, width, place))
    } else if t.signed != signed {
        Err(broken(Rule::S10, place))
    } else {
        Ok(e)
    }
}
