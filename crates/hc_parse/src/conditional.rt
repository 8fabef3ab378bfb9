ghost use Rattle.std.specs.Prelude.{◌≡◌, Some};
ghost use Rattle.hc_grammar.specs.Answers.{Answers};
ghost use Rattle.hc_grammar.specs.Form as f;
ghost use Rattle.hc_parse.specs.Turn.{condition_word, next_kind};

use crate::boxes::{do_of, if_of, while_of};
use crate::parts::in_brackets;
use crate::statement::stmt;
use hc_grammar::{Cursor, Halt, Kind};
use hc_lex::Mark;
use hc_tree::{Condition, Stmt};
use std::alloc::Global;

/// `( if | ifselect ) ( expr ) stmt [ else stmt ]`
#[cycle(statement)]
pub(crate) fn conditional(alloc: Global, c: &mut Cursor<'_>, word: Condition) -> Result<Stmt, Halt>
    requires { next_kind c.old ≡ Some (condition_word word) }
    ensures { Answers f.stmt c.old result c.new }
{
    let place = c.place();
    c.take();
    let condition = match in_brackets(alloc, c) {
        Ok(condition) => condition,
        Err(halt) => return Err(halt),
    };
    let yes = match stmt(alloc, c) {
        Ok(yes) => yes,
        Err(halt) => {
            drop(condition);
            return Err(halt);
        }
    };
    match else_tail(alloc, c) {
        Ok(no) => if_of(alloc, place, word, condition, yes, no),
        Err(halt) => {
            drop(yes);
            drop(condition);
            Err(halt)
        }
    }
}

/// `else_tail`: `[ else stmt ]`
#[cycle(statement)]
fn else_tail(alloc: Global, c: &mut Cursor<'_>) -> Result<Option<Stmt>, Halt>
    ensures { Answers f.else_tail c.old result c.new }
{
    if !c.is(Kind::Else) {
        return Ok(None);
    }
    c.take();
    match stmt(alloc, c) {
        Ok(no) => Ok(Some(no)),
        Err(halt) => Err(halt),
    }
}

/// `while ( expr ) stmt`
#[cycle(statement)]
pub(crate) fn while_stmt(alloc: Global, c: &mut Cursor<'_>) -> Result<Stmt, Halt>
    requires { next_kind c.old ≡ Some Kind.While }
    ensures { Answers f.stmt c.old result c.new }
{
    let place = c.place();
    c.take();
    let condition = match in_brackets(alloc, c) {
        Ok(condition) => condition,
        Err(halt) => return Err(halt),
    };
    match stmt(alloc, c) {
        Ok(body) => while_of(alloc, place, condition, body),
        Err(halt) => {
            drop(condition);
            Err(halt)
        }
    }
}

/// `do stmt while ( expr ) ;`
#[cycle(statement)]
pub(crate) fn do_stmt(alloc: Global, c: &mut Cursor<'_>) -> Result<Stmt, Halt>
    requires { next_kind c.old ≡ Some Kind.Do }
    ensures { Answers f.stmt c.old result c.new }
{
    let place = c.place();
    c.take();
    let body = match stmt(alloc, c) {
        Ok(body) => body,
        Err(halt) => return Err(halt),
    };
    match c.expect(Kind::While) {
        Ok(()) => {}
        Err(halt) => {
            drop(body);
            return Err(halt);
        }
    }
    let condition = match in_brackets(alloc, c) {
        Ok(condition) => condition,
        Err(halt) => {
            drop(body);
            return Err(halt);
        }
    };
    match c.expect(Kind::Mark(Mark::Semicolon)) {
        Ok(()) => do_of(alloc, place, body, condition),
        Err(halt) => {
            drop(condition);
            drop(body);
            Err(halt)
        }
    }
}
