ghost use Rattle.std.specs.Prelude.{◌≡◌, Some, true};
ghost use Rattle.hc_grammar.specs.Answers.{Answers, AnswersTo};
ghost use Rattle.hc_grammar.specs.Form as f;
ghost use Rattle.hc_grammar.specs.Kind.{is_name};
ghost use Rattle.hc_parse.specs.Turn.{begins, begins_written, next_kind};

use crate::parts::expr_before;
use crate::written::{index, simple_tail, target};
use hc_exparse::{args, name};
use hc_grammar::{Cursor, Halt, Kind};
use hc_lex::Mark;
use hc_tree::{Ident, Stmt, Target};
use std::alloc::Global;

/// A statement that begins with a name.
pub(crate) fn named(alloc: Global, c: &mut Cursor<'_>) -> Result<Stmt, Halt>
    requires { begins is_name (next_kind c.old) ≡ true }
    ensures { Answers f.stmt c.old result c.new }
{
    let name = match name(alloc, c) {
        Ok(name) => name,
        Err(halt) => return Err(halt),
    };
    match name_stmt_tail(alloc, c, name) {
        Ok(made) => Ok(made),
        Err(halt) => Err(halt),
    }
}

/// `name_stmt_tail`: behind a name what makes it a statement.
fn name_stmt_tail(alloc: Global, c: &mut Cursor<'_>, name: Ident) -> Result<Stmt, Halt>
    ensures { AnswersTo f.name_stmt_tail (λ tail. tail name) c.old result c.new }
{
    if c.len() == 0 {
        return Err(Halt::Refused(None));
    }
    if c.is(Kind::Mark(Mark::Not)) {
        return send(alloc, c, name);
    }
    if c.is(Kind::Mark(Mark::Question)) {
        return receive(alloc, c, name);
    }
    if c.is(Kind::Mark(Mark::ParenOpen)) {
        return call(alloc, c, name);
    }
    written(alloc, c, name)
}

/// `! expr ;`
fn send(alloc: Global, c: &mut Cursor<'_>, channel: Ident) -> Result<Stmt, Halt>
    requires { next_kind c.old ≡ Some (Kind.Mark Mark.Not) }
    ensures { AnswersTo f.name_stmt_tail (λ tail. tail channel) c.old result c.new }
{
    c.take();
    match expr_before(alloc, c, Kind::Mark(Mark::Semicolon)) {
        Ok(value) => Ok(Stmt::Send {
            place: channel.place,
            channel,
            value,
        }),
        Err(halt) => Err(halt),
    }
}

/// `? target ;`
fn receive(alloc: Global, c: &mut Cursor<'_>, channel: Ident) -> Result<Stmt, Halt>
    requires { next_kind c.old ≡ Some (Kind.Mark Mark.Question) }
    ensures { AnswersTo f.name_stmt_tail (λ tail. tail channel) c.old result c.new }
{
    c.take();
    let target = match target(alloc, c) {
        Ok(target) => target,
        Err(halt) => return Err(halt),
    };
    match c.expect(Kind::Mark(Mark::Semicolon)) {
        Ok(()) => Ok(Stmt::Receive {
            place: channel.place,
            channel,
            target,
        }),
        Err(halt) => {
            drop(target);
            Err(halt)
        }
    }
}

/// `( [ expr { , expr } ] ) ;`
fn call(alloc: Global, c: &mut Cursor<'_>, name: Ident) -> Result<Stmt, Halt>
    requires { next_kind c.old ≡ Some (Kind.Mark Mark.ParenOpen) }
    ensures { AnswersTo f.name_stmt_tail (λ tail. tail name) c.old result c.new }
{
    c.take();
    let arguments = match args(alloc, c) {
        Ok(arguments) => arguments,
        Err(halt) => return Err(halt),
    };
    match c.expect(Kind::Mark(Mark::ParenClose)) {
        Ok(()) => {}
        Err(halt) => {
            drop(arguments);
            return Err(halt);
        }
    }
    match c.expect(Kind::Mark(Mark::Semicolon)) {
        Ok(()) => Ok(Stmt::Call {
            place: name.place,
            name,
            arguments,
        }),
        Err(halt) => {
            drop(arguments);
            Err(halt)
        }
    }
}

/// What is written to the object of a name, and `;`
fn written(alloc: Global, c: &mut Cursor<'_>, name: Ident) -> Result<Stmt, Halt>
    requires { begins begins_written (next_kind c.old) ≡ true }
    ensures { AnswersTo f.name_stmt_tail (λ tail. tail name) c.old result c.new }
{
    let index = match index(alloc, c) {
        Ok(index) => index,
        Err(halt) => return Err(halt),
    };
    let made = match simple_tail(alloc, c, Target { name, index }) {
        Ok(made) => made,
        Err(halt) => return Err(halt),
    };
    match c.expect(Kind::Mark(Mark::Semicolon)) {
        Ok(()) => Ok(Stmt::Simple(made)),
        Err(halt) => {
            drop(made);
            Err(halt)
        }
    }
}
