ghost use Rattle.std.specs.Prelude.{◌≡◌, ◌≤◌, ◌<◌};
ghost use Rattle.hc_grammar.specs.Form as f;
ghost use Rattle.hc_exparse.specs.Last.{AnswersLast, AnswersLastTo};

use crate::halt::{later, or_zero};
use crate::made::binary_of;
use crate::ops::level_op;
use crate::unary::unary;
use hc_grammar::{Cursor, Halt};
use hc_tree::{ExprTree, Place};
use std::alloc::Global;

/// `binary` of a level from 1, and a unary expression at level 0.
#[cycle(expr)]
pub(crate) fn binary(alloc: Global, c: &mut Cursor<'_>, level: u8) -> Result<ExprTree, Halt>
    requires { level ≤ 12 }
    ensures { AnswersLast (f.binary level) c.old result c.new }
{
    let before = c.len();
    if before == 0 {
        return Err(Halt::Refused(None));
    }
    if level == 0 {
        return unary(alloc, c);
    }
    let place = c.place();
    let left = match binary(alloc, c, level - 1) {
        Ok(left) => left,
        Err(halt) => return Err(halt),
    };
    let at = c.len();
    match binary_tail(alloc, c, level, place, left) {
        Ok(made) => Ok(made),
        Err(halt) => Err(later(halt, before, at)),
    }
}

/// `binary_tail`: the operators of a level from 1 behind the first operand, grouped to the left.
#[cycle(expr)]
fn binary_tail(
    alloc: Global,
    c: &mut Cursor<'_>,
    level: u8,
    place: Place,
    left: ExprTree,
) -> Result<ExprTree, Halt>
    requires low { 0 < level }
    requires high { level ≤ 12 }
    ensures { AnswersLastTo (f.binary_tail level) (λ tail. tail place left) c.old result c.new }
{
    let op = match level_op(level, c.kind()) {
        Some(op) => op,
        None => return Ok(left),
    };
    let before = c.len();
    c.take();
    let behind_op = c.len();
    let right = match binary(alloc, c, level - 1) {
        Ok(right) => right,
        Err(halt) => return Err(or_zero(later(halt, before, behind_op))),
    };
    let made = match binary_of(alloc, place, left, op, right) {
        Ok(made) => made,
        Err(_) => return Err(Halt::NoMemory),
    };
    let at = c.len();
    match binary_tail(alloc, c, level, place, made) {
        Ok(all) => Ok(all),
        Err(halt) => Err(or_zero(later(halt, before, at))),
    }
}
