ghost use Rattle.std.specs.Prelude.{◌≡◌};
ghost use Rattle.hc_grammar.specs.Form as f;
ghost use Rattle.hc_exparse.specs.Last.{AnswersLastTo, AnswersLastAs};
ghost use Rattle.hc_exparse.specs.Parts.{bits_part};

use crate::expression::{expr_before, whole};
use crate::halt::{later, or_zero, with_last};
use crate::made::part_of;
use hc_grammar::{Cursor, Halt, Kind};
use hc_lex::Mark;
use hc_tree::{ExprTree, Place};
use std::alloc::Global;

/// `postfix_tail`: indexes and bit ranges, from left to right.
#[cycle(expr)]
pub(crate) fn postfix_tail(
    alloc: Global,
    c: &mut Cursor<'_>,
    place: Place,
    of: ExprTree,
) -> Result<ExprTree, Halt>
    ensures { AnswersLastTo f.postfix_tail (λ tail. tail place of) c.old result c.new }
{
    if !c.is(Kind::Mark(Mark::BracketOpen)) {
        return Ok(of);
    }
    let before = c.len();
    c.take();
    let index = match whole(alloc, c) {
        Ok(index) => index,
        Err(halt) => return Err(with_last(halt, Some(0))),
    };
    let behind_index = c.len();
    let low = match bits_tail(alloc, c) {
        Ok(low) => low,
        Err(halt) => return Err(or_zero(later(halt, before, behind_index))),
    };
    let part = match part_of(alloc, place, of, index, low) {
        Ok(part) => part,
        Err(_) => return Err(Halt::NoMemory),
    };
    let at = c.len();
    match postfix_tail(alloc, c, place, part) {
        Ok(all) => Ok(all),
        Err(halt) => Err(or_zero(later(halt, before, at))),
    }
}

/// `bits_tail`: behind an index `]`, or the low end of a bit range and `]`.
#[cycle(expr)]
fn bits_tail(alloc: Global, c: &mut Cursor<'_>) -> Result<Option<ExprTree>, Halt>
    ensures { AnswersLastAs f.bits_tail bits_part c.old result c.new }
{
    if c.is(Kind::Mark(Mark::BracketClose)) {
        c.take();
        return Ok(None);
    }
    match c.expect(Kind::Mark(Mark::Colon)) {
        Ok(()) => {}
        Err(_) => return Err(Halt::Refused(None)),
    }
    match expr_before(alloc, c, Kind::Mark(Mark::BracketClose)) {
        Ok(low) => Ok(Some(low)),
        Err(halt) => Err(halt),
    }
}
