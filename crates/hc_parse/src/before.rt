ghost use Rattle.hc_grammar.specs.Form as f;
ghost use Rattle.hc_parse.specs.Before.{AnswersBefore};

use crate::with_list::with_list;
use hc_exparse::{expr, name, text};
use hc_grammar::{Cursor, Halt, Kind};
use hc_lex::Mark;
use hc_tree::{ExprTree, Ident, Name, With};
use std::alloc::Global;

/// A name and the mark behind it.
pub(crate) fn name_before(alloc: Global, c: &mut Cursor<'_>, kind: Kind) -> Result<Ident, Halt>
    ensures { AnswersBefore f.name kind c.old result c.new }
{
    let name = match name(alloc, c) {
        Ok(name) => name,
        Err(halt) => return Err(halt),
    };
    match c.expect(kind) {
        Ok(()) => Ok(name),
        Err(halt) => Err(halt),
    }
}

/// A text and the mark behind it.
pub(crate) fn text_before(alloc: Global, c: &mut Cursor<'_>, kind: Kind) -> Result<Name, Halt>
    ensures { AnswersBefore f.text kind c.old result c.new }
{
    let text = match text(alloc, c) {
        Ok(text) => text,
        Err(halt) => return Err(halt),
    };
    match c.expect(kind) {
        Ok(()) => Ok(text),
        Err(halt) => Err(halt),
    }
}

/// An expression and the mark behind it.
pub(crate) fn expr_before(alloc: Global, c: &mut Cursor<'_>, kind: Kind) -> Result<ExprTree, Halt>
    ensures { AnswersBefore f.expr kind c.old result c.new }
{
    let value = match expr(alloc, c) {
        Ok(value) => value,
        Err(halt) => return Err(halt),
    };
    match c.expect(kind) {
        Ok(()) => Ok(value),
        Err(halt) => {
            drop(value);
            Err(halt)
        }
    }
}

/// `[ with ] ;`
pub(crate) fn with_end(alloc: Global, c: &mut Cursor<'_>) -> Result<Option<With>, Halt>
    ensures { AnswersBefore f.with (Kind.Mark Mark.Semicolon) c.old result c.new }
{
    let with = match with_list(alloc, c) {
        Ok(with) => with,
        Err(halt) => return Err(halt),
    };
    match c.expect(Kind::Mark(Mark::Semicolon)) {
        Ok(()) => Ok(with),
        Err(halt) => Err(halt),
    }
}
