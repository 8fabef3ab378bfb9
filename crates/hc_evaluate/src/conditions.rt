ghost use Rattle.std.specs.Prelude.{◌≡◌, List, IfOk};
ghost use Rattle.hc_num.specs.Compare.{truth};
ghost use Rattle.hc_core.specs.Read.{expression};
ghost use Rattle.hc_core.specs.Typed.{HasSomeType, IsNumber, kinds_of};
ghost use Rattle.hc_core.specs.declared.object.Kind.{Kind};
ghost use Rattle.hc_width.specs.Operand.{operand, IsOperand};
ghost use Rattle.hc_width.specs.Parts as width;
ghost use Rattle.hc_scope.specs.Nodes.{nodes};
ghost use Rattle.hc_scope.specs.Statement as spec;
ghost use Rattle.hc_scope.specs.Reading.{context_of, Answers};
ghost use Rattle.hc_scope.specs.Sound.{AreSound};

use crate::expressions as of;
use hc_core::Expr;
use hc_num::Num;
use hc_scope::{Scope, State};
use hc_tree::{ExprTree, FrontErr};
use hc_width::Value;
use std::alloc::Global;

/// A value as a condition: a constant is one unsigned bit.
#[tactic(auto, using(hc_core::proofs::Read::reading, hc_width::proofs::Kept::some_type))]
pub fn condition(v: Value) -> Expr
    ensures is { expression result ≡ width.condition (operand v) }
    ensures typed { (kinds : List Kind) → IsOperand kinds (operand v) → HasSomeType kinds (expression result) }
{
    match v {
        Value::Constant(v) => Expr::Const(bit(v.holds())),
        Value::Typed(e) => e,
    }
}

// One bit.
fn bit(is_set: bool) -> Num
    ensures is { result ≡ truth is_set }
    ensures number { IsNumber result }
{
    Num::new(1, false, u128::from(is_set))
}

/// The condition of a `for`: what it breaks, or one unsigned bit of 1 where none is written.
#[tactic(auto, using(hc_core::proofs::Read::reading, crate::proofs::Steps::err_then, crate::proofs::Steps::value_then))]
pub fn condition_or_one<'s, 't>(
    alloc: Global,
    state: &mut State,
    scope: &Scope<'s, 't>,
    calls: u32,
    room: u32,
    e: &'t Option<ExprTree>,
) -> Result<Expr, FrontErr>
    requires sound { AreSound (kinds_of state.old.objects) }
    ensures answers { Answers expression (spec.condition_or_one (nodes room) (context_of scope.now calls) e.now state.old) result state.new }
    ensures typed { IfOk result (λ e. HasSomeType (kinds_of state.old.objects) (expression e)) }
    ensures objects { state.new.objects ≡ state.old.objects }
{
    match e {
        Some(e) => match of::expression(alloc, state, scope, calls, room, e) {
            Ok(v) => Ok(condition(v)),
            Err(e) => Err(e),
        },
        None => Ok(Expr::Const(bit(true))),
    }
}
