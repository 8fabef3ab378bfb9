ghost use Rattle.std.specs.Prelude.{◌≡◌};
ghost use Rattle.hc_grammar.specs.Answers.{Answers};
ghost use Rattle.hc_grammar.specs.Form as f;
ghost use Rattle.hc_exparse.specs.Last.{AnswersLast, AnswersLastAs, AnswersBefore};
ghost use Rattle.hc_exparse.specs.Parts.{choice_part};

use crate::binary::binary;
use crate::halt::{later, or_zero, with_last};
use crate::made::chosen;
use hc_grammar::{Cursor, Halt, Kind};
use hc_lex::Mark;
use hc_tree::ExprTree;
use std::alloc::Global;

/// `expr`: the longest expression that stands at the cursor, or where the tokens are refused.
pub fn expr(alloc: Global, c: &mut Cursor<'_>) -> Result<ExprTree, Halt>
    ensures { Answers f.expr c.old result c.new }
{
    whole(alloc, c)
}

/// `expr`, with the number of tokens of the longest whole expression where it is refused.
#[cycle(expr)]
pub(crate) fn whole(alloc: Global, c: &mut Cursor<'_>) -> Result<ExprTree, Halt>
    ensures { AnswersLast f.expr c.old result c.new }
{
    let before = c.len();
    if before == 0 {
        return Err(Halt::Refused(None));
    }
    let place = c.place();
    let condition = match binary(alloc, c, 12) {
        Ok(condition) => condition,
        Err(halt) => return Err(halt),
    };
    let at = c.len();
    match choice_tail(alloc, c) {
        Ok(part) => chosen(alloc, place, condition, part),
        Err(halt) => Err(later(halt, before, at)),
    }
}

/// `choice_tail`: `? expr : expr` behind a condition, or nothing.
#[cycle(expr)]
fn choice_tail(alloc: Global, c: &mut Cursor<'_>) -> Result<Option<(ExprTree, ExprTree)>, Halt>
    ensures { AnswersLastAs f.choice_tail choice_part c.old result c.new }
{
    if !c.is(Kind::Mark(Mark::Question)) {
        return Ok(None);
    }
    let before = c.len();
    c.take();
    let yes = match expr_before(alloc, c, Kind::Mark(Mark::Colon)) {
        Ok(yes) => yes,
        Err(halt) => return Err(with_last(halt, Some(0))),
    };
    let at = c.len();
    match whole(alloc, c) {
        Ok(no) => Ok(Some((yes, no))),
        Err(halt) => Err(or_zero(later(halt, before, at))),
    }
}

/// An expression and the mark behind it.
#[cycle(expr)]
pub(crate) fn expr_before(alloc: Global, c: &mut Cursor<'_>, kind: Kind) -> Result<ExprTree, Halt>
    ensures { AnswersBefore kind c.old result c.new }
{
    let inner = match whole(alloc, c) {
        Ok(inner) => inner,
        Err(halt) => return Err(with_last(halt, None)),
    };
    match c.expect(kind) {
        Ok(()) => Ok(inner),
        Err(_) => Err(Halt::Refused(None)),
    }
}
