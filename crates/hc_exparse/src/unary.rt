ghost use Rattle.std.specs.Prelude.{◌≡◌, true, Some, option_map, option_and_then};
ghost use Rattle.hc_grammar.specs.Expression.{unary_op, begins_type};
ghost use Rattle.hc_grammar.specs.Form as f;
ghost use Rattle.hc_exparse.specs.Last.{AnswersLast, AnswersLastTo};
ghost use Rattle.hc_exparse.specs.Ops.{next_kind};

use crate::expression::expr_before;
use crate::halt::{later, with_last};
use crate::made::{cast_of, unary_of};
use crate::ops::{begins_type, unary_op};
use crate::postfix::postfix_tail;
use crate::primary::primary;
use crate::types::type_of;
use hc_grammar::{Cursor, Halt, Kind};
use hc_lex::Mark;
use hc_tree::{ExprTree, Place, UnaryOp};
use std::alloc::Global;

/// `unary`: an operator and its operand, what begins with a bracket, or a primary with its indexes and bit ranges.
#[cycle(expr)]
pub(crate) fn unary(alloc: Global, c: &mut Cursor<'_>) -> Result<ExprTree, Halt>
    ensures { AnswersLast f.unary c.old result c.new }
{
    let kind = match c.kind() {
        Some(kind) => kind,
        None => return Err(Halt::Refused(None)),
    };
    if let Some(op) = unary_op(kind) {
        return operand(alloc, c, op);
    }
    let before = c.len();
    let place = c.place();
    if c.is(Kind::Mark(Mark::ParenOpen)) {
        c.take();
        let at = c.len();
        return match paren_tail(alloc, c, place) {
            Ok(made) => Ok(made),
            Err(halt) => Err(later(halt, before, at)),
        };
    }
    let first = match primary(alloc, c) {
        Ok(first) => first,
        Err(halt) => return Err(halt),
    };
    let at = c.len();
    match postfix_tail(alloc, c, place, first) {
        Ok(made) => Ok(made),
        Err(halt) => Err(later(halt, before, at)),
    }
}

/// An operator and its operand.
#[cycle(expr)]
fn operand(alloc: Global, c: &mut Cursor<'_>, op: UnaryOp) -> Result<ExprTree, Halt>
    requires { option_and_then unary_op (next_kind c.old) ≡ Some op }
    ensures { AnswersLast f.unary c.old result c.new }
{
    let before = c.len();
    let place = c.place();
    c.take();
    let at = c.len();
    match unary(alloc, c) {
        Ok(of) => unary_of(alloc, place, op, of),
        Err(halt) => Err(later(halt, before, at)),
    }
}

/// `paren_tail`: behind a `(` a type, `)` and its operand, or an expression, `)` and its indexes and bit ranges.
#[cycle(expr)]
fn paren_tail(alloc: Global, c: &mut Cursor<'_>, place: Place) -> Result<ExprTree, Halt>
    ensures { AnswersLastTo f.paren_tail (λ tail. tail place) c.old result c.new }
{
    let kind = match c.kind() {
        Some(kind) => kind,
        None => return Err(Halt::Refused(None)),
    };
    if begins_type(kind) {
        return cast(alloc, c, place);
    }
    let before = c.len();
    let inner = match expr_before(alloc, c, Kind::Mark(Mark::ParenClose)) {
        Ok(inner) => inner,
        Err(halt) => return Err(halt),
    };
    let at = c.len();
    match postfix_tail(alloc, c, place, inner) {
        Ok(made) => Ok(made),
        Err(halt) => Err(later(halt, before, at)),
    }
}

/// A type, `)` and its operand.
#[cycle(expr)]
fn cast(alloc: Global, c: &mut Cursor<'_>, place: Place) -> Result<ExprTree, Halt>
    requires { option_map begins_type (next_kind c.old) ≡ Some true }
    ensures { AnswersLastTo f.paren_tail (λ tail. tail place) c.old result c.new }
{
    let before = c.len();
    let to = match type_of(alloc, c) {
        Ok(to) => to,
        Err(halt) => return Err(with_last(halt, None)),
    };
    match c.expect(Kind::Mark(Mark::ParenClose)) {
        Ok(()) => {}
        Err(_) => return Err(Halt::Refused(None)),
    }
    let at = c.len();
    match unary(alloc, c) {
        Ok(of) => cast_of(alloc, place, to, of),
        Err(halt) => Err(later(halt, before, at)),
    }
}
