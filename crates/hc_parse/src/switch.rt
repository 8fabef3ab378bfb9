ghost use Rattle.std.specs.Prelude.{◌≡◌, ◌∷◌, [], Some, true, false};
ghost use Rattle.hc_grammar.specs.Answers.{Answers};
ghost use Rattle.hc_grammar.specs.Form as f;
ghost use Rattle.hc_parse.specs.Turn.{AnswersLabels, AnswersPart, AnswersTurn, begins, begins_label, next_kind, with_labels};

use crate::block::stmts;
use crate::parts::{expr_before, in_brackets, is_at_label, opt_break};
use hc_grammar::{Cursor, Halt, Kind};
use hc_lex::Mark;
use hc_tree::{Arm, Label, Stmt};
use sqlite_items::Items;
use std::alloc::Global;

/// `switch ( expr ) { { arm } }`, where the outer braces are written.
#[cycle(statement)]
pub(crate) fn switch(alloc: Global, c: &mut Cursor<'_>) -> Result<Stmt, Halt>
    requires { next_kind c.old ≡ Some Kind.Switch }
    ensures { Answers f.stmt c.old result c.new }
{
    let place = c.place();
    c.take();
    let selector = match in_brackets(alloc, c) {
        Ok(selector) => selector,
        Err(halt) => return Err(halt),
    };
    match c.expect(Kind::Mark(Mark::BraceOpen)) {
        Ok(()) => {}
        Err(halt) => {
            drop(selector);
            return Err(halt);
        }
    }
    let arms = match arms(alloc, c) {
        Ok(arms) => arms,
        Err(halt) => {
            drop(selector);
            return Err(halt);
        }
    };
    match c.expect(Kind::Mark(Mark::BraceClose)) {
        Ok(()) => Ok(Stmt::Switch {
            place,
            selector,
            arms,
        }),
        Err(halt) => {
            drop(arms);
            drop(selector);
            Err(halt)
        }
    }
}

/// `arms`: the arms of a `switch`, at most one of them with a `default`. Behind an arm without `break` there is none.
#[cycle(statement)]
fn arms(alloc: Global, c: &mut Cursor<'_>) -> Result<Items<Arm>, Halt>
    ensures { Answers (f.arms false) c.old result c.new }
{
    let mut list = Items::new(alloc);
    let mut has_default = false;
    'each: while is_at_label(c, has_default) {
        let (arm, has_break) = match arm(alloc, c, &mut has_default) {
            Ok(read) => read,
            Err(halt) => {
                drop(list);
                return Err(halt);
            }
        };
        match list.push(arm) {
            Ok(()) => {}
            Err(_) => {
                drop(list);
                return Err(Halt::NoMemory);
            }
        }
        if !has_break {
            return Ok(list);
        }
    }
    Ok(list)
}

/// An arm, and whether it ends with a `break`.
#[cycle(statement)]
fn arm(alloc: Global, c: &mut Cursor<'_>, has_default: &mut bool) -> Result<(Arm, bool), Halt>
    requires { begins (begins_label has_default.old) (next_kind c.old) ≡ true }
    ensures { AnswersTurn (f.arms has_default.old) (f.arms has_default.new) (λ arm more. arm ∷ more) (λ arm. arm ∷ []) c.old result c.new }
{
    let place = c.place();
    let labels = match labels(alloc, c, has_default) {
        Ok(labels) => labels,
        Err(halt) => return Err(halt),
    };
    let stmts = match stmts(alloc, c) {
        Ok(stmts) => stmts,
        Err(halt) => {
            drop(labels);
            return Err(halt);
        }
    };
    match opt_break(c) {
        Ok(has_break) => Ok((
            Arm {
                place,
                labels,
                stmts,
                has_break,
            },
            has_break,
        )),
        Err(halt) => {
            drop(stmts);
            drop(labels);
            Err(halt)
        }
    }
}

/// The labels of an arm, as many as there are.
fn labels(alloc: Global, c: &mut Cursor<'_>, has_default: &mut bool) -> Result<Items<Label>, Halt>
    ensures { AnswersLabels has_default.old has_default.new c.old result c.new }
{
    let mut list = Items::new(alloc);
    'each: while is_at_label(c, *has_default) {
        let next = match label(alloc, c, has_default) {
            Ok(next) => next,
            Err(halt) => {
                drop(list);
                return Err(halt);
            }
        };
        match list.push(next) {
            Ok(()) => {}
            Err(_) => {
                drop(list);
                return Err(Halt::NoMemory);
            }
        }
    }
    Ok(list)
}

/// A label.
fn label(alloc: Global, c: &mut Cursor<'_>, has_default: &mut bool) -> Result<Label, Halt>
    requires { begins (begins_label has_default.old) (next_kind c.old) ≡ true }
    ensures { AnswersPart (f.arm_tail has_default.old) (f.arm_tail has_default.new) (λ label. with_labels (label ∷ [])) c.old result c.new }
{
    let place = c.place();
    if c.is(Kind::Case) {
        c.take();
        return match expr_before(alloc, c, Kind::Mark(Mark::Colon)) {
            Ok(value) => Ok(Label::Case { place, value }),
            Err(halt) => Err(halt),
        };
    }
    *has_default = true;
    c.take();
    match c.expect(Kind::Mark(Mark::Colon)) {
        Ok(()) => Ok(Label::Default { place }),
        Err(halt) => Err(halt),
    }
}
