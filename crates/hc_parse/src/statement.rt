ghost use Rattle.std.specs.Prelude.{◌≡◌, Some, false, true};
ghost use Rattle.hc_grammar.specs.Answers.{Answers};
ghost use Rattle.hc_grammar.specs.Form as f;
ghost use Rattle.hc_parse.specs.Turn.{begins, begins_worded, is_step, next_kind};

use crate::block::block;
use crate::conditional::{conditional, do_stmt, while_stmt};
use crate::for_loop::for_stmt;
use crate::named::named;
use crate::ordered::ordered;
use crate::prialt::prialt;
use crate::switch::switch;
use crate::written::simple;
use hc_grammar::{Cursor, Halt, Kind};
use hc_lex::Mark;
use hc_tree::{Condition, Order, Stmt};
use std::alloc::Global;

/// `stmt`: a statement, by the token that it begins with.
#[cycle(statement)]
pub(crate) fn stmt(alloc: Global, c: &mut Cursor<'_>) -> Result<Stmt, Halt>
    ensures { Answers f.stmt c.old result c.new }
{
    let kind = match c.kind() {
        Some(kind) => kind,
        None => return Err(Halt::Refused(None)),
    };
    if kind.is_name() {
        return named(alloc, c);
    }
    if c.is(Kind::Seq) {
        return ordered(alloc, c, Order::Seq);
    }
    if c.is(Kind::Par) {
        return ordered(alloc, c, Order::Par);
    }
    if c.is(Kind::Delay) {
        return delay(c);
    }
    if c.is(Kind::If) {
        return conditional(alloc, c, Condition::If);
    }
    if c.is(Kind::IfSelect) {
        return conditional(alloc, c, Condition::IfSelect);
    }
    if c.is(Kind::While) {
        return while_stmt(alloc, c);
    }
    if c.is(Kind::Do) {
        return do_stmt(alloc, c);
    }
    if c.is(Kind::For) {
        return for_stmt(alloc, c);
    }
    if c.is(Kind::Switch) {
        return switch(alloc, c);
    }
    if c.is(Kind::Prialt) {
        return prialt(alloc, c);
    }
    marked(alloc, c)
}

/// A statement that begins with a mark, where neither a name nor a word of statements stands.
#[cycle(statement)]
fn marked(alloc: Global, c: &mut Cursor<'_>) -> Result<Stmt, Halt>
    requires { begins begins_worded (next_kind c.old) ≡ false }
    ensures { Answers f.stmt c.old result c.new }
{
    if c.is(Kind::Mark(Mark::Semicolon)) {
        return empty(c);
    }
    if c.is(Kind::Mark(Mark::BraceOpen)) {
        return match block(alloc, c) {
            Ok(body) => Ok(Stmt::Block(body)),
            Err(halt) => Err(halt),
        };
    }
    if c.is(Kind::Mark(Mark::Increment)) {
        return stepped(alloc, c);
    }
    if c.is(Kind::Mark(Mark::Decrement)) {
        return stepped(alloc, c);
    }
    Err(Halt::Refused(None))
}

/// `;`
fn empty(c: &mut Cursor<'_>) -> Result<Stmt, Halt>
    requires { next_kind c.old ≡ Some (Kind.Mark Mark.Semicolon) }
    ensures { Answers f.stmt c.old result c.new }
{
    let place = c.place();
    c.take();
    Ok(Stmt::Empty { place })
}

/// `delay ;`
fn delay(c: &mut Cursor<'_>) -> Result<Stmt, Halt>
    requires { next_kind c.old ≡ Some Kind.Delay }
    ensures { Answers f.stmt c.old result c.new }
{
    let place = c.place();
    c.take();
    match c.expect(Kind::Mark(Mark::Semicolon)) {
        Ok(()) => Ok(Stmt::Delay { place }),
        Err(halt) => Err(halt),
    }
}

/// `( ++ | -- ) place ;`
fn stepped(alloc: Global, c: &mut Cursor<'_>) -> Result<Stmt, Halt>
    requires { begins is_step (next_kind c.old) ≡ true }
    ensures { Answers f.stmt c.old result c.new }
{
    let made = match simple(alloc, c) {
        Ok(made) => made,
        Err(halt) => return Err(halt),
    };
    match c.expect(Kind::Mark(Mark::Semicolon)) {
        Ok(()) => Ok(Stmt::Simple(made)),
        Err(halt) => {
            drop(made);
            Err(halt)
        }
    }
}
