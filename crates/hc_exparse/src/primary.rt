ghost use Rattle.std.specs.Prelude.{◌≡◌, Some};
ghost use Rattle.hc_grammar.specs.Form as f;
ghost use Rattle.hc_exparse.specs.Last.{AnswersLast, AnswersLastAs};
ghost use Rattle.hc_exparse.specs.Ops.{next_kind};
ghost use Rattle.hc_exparse.specs.Parts.{name_part};

use crate::expression::expr_before;
use crate::halt::{later, or_zero, with_last};
use crate::list::args;
use crate::made::{named, number_of, select_of, width_of};
use crate::names::ident;
use crate::part::NameTail;
use hc_grammar::{Cursor, Halt, Kind};
use hc_lex::Mark;
use hc_tree::ExprTree;
use std::alloc::Global;

/// `primary`: a number, `width`, `select`, or what begins with a name.
#[cycle(expr)]
pub(crate) fn primary(alloc: Global, c: &mut Cursor<'_>) -> Result<ExprTree, Halt>
    ensures { AnswersLast f.primary c.old result c.new }
{
    let kind = match c.kind() {
        Some(kind) => kind,
        None => return Err(Halt::Refused(None)),
    };
    if c.is(Kind::Number) {
        return number(c);
    }
    if c.is(Kind::Width) {
        return width(alloc, c);
    }
    if c.is(Kind::Select) {
        return select(alloc, c);
    }
    if !kind.is_name() {
        return Err(Halt::Refused(None));
    }
    let before = c.len();
    let name = match ident(alloc, c) {
        Ok(name) => name,
        Err(halt) => return Err(halt),
    };
    let at = c.len();
    match name_tail(alloc, c) {
        Ok(tail) => Ok(named(name, tail)),
        Err(halt) => Err(later(halt, before, at)),
    }
}

/// A number.
fn number(c: &mut Cursor<'_>) -> Result<ExprTree, Halt>
    requires { next_kind c.old ≡ Some Kind.Number }
    ensures { AnswersLast f.primary c.old result c.new }
{
    match c.take() {
        Some(t) => Ok(ExprTree::Number {
            place: t.place,
            value: number_of(&t.token),
        }),
        None => Err(Halt::NoMemory),
    }
}

/// `width ( expr )`
#[cycle(expr)]
fn width(alloc: Global, c: &mut Cursor<'_>) -> Result<ExprTree, Halt>
    requires { next_kind c.old ≡ Some Kind.Width }
    ensures { AnswersLast f.primary c.old result c.new }
{
    let place = c.place();
    c.take();
    match c.expect(Kind::Mark(Mark::ParenOpen)) {
        Ok(()) => {}
        Err(_) => return Err(Halt::Refused(None)),
    }
    match expr_before(alloc, c, Kind::Mark(Mark::ParenClose)) {
        Ok(of) => width_of(alloc, place, of),
        Err(halt) => Err(halt),
    }
}

/// `select ( expr , expr , expr )`
#[cycle(expr)]
fn select(alloc: Global, c: &mut Cursor<'_>) -> Result<ExprTree, Halt>
    requires { next_kind c.old ≡ Some Kind.Select }
    ensures { AnswersLast f.primary c.old result c.new }
{
    let place = c.place();
    c.take();
    match c.expect(Kind::Mark(Mark::ParenOpen)) {
        Ok(()) => {}
        Err(_) => return Err(Halt::Refused(None)),
    }
    let condition = match expr_before(alloc, c, Kind::Mark(Mark::Comma)) {
        Ok(condition) => condition,
        Err(halt) => return Err(halt),
    };
    let yes = match expr_before(alloc, c, Kind::Mark(Mark::Comma)) {
        Ok(yes) => yes,
        Err(halt) => return Err(halt),
    };
    match expr_before(alloc, c, Kind::Mark(Mark::ParenClose)) {
        Ok(no) => select_of(alloc, place, condition, yes, no),
        Err(halt) => Err(halt),
    }
}

/// `name_tail`: behind a name the arguments of a call, the port of an interface, or nothing.
#[cycle(expr)]
fn name_tail(alloc: Global, c: &mut Cursor<'_>) -> Result<NameTail, Halt>
    ensures { AnswersLastAs f.name_tail name_part c.old result c.new }
{
    if c.is(Kind::Mark(Mark::Dot)) {
        return port(alloc, c);
    }
    if !c.is(Kind::Mark(Mark::ParenOpen)) {
        return Ok(NameTail::Alone);
    }
    c.take();
    let arguments = match args(alloc, c) {
        Ok(arguments) => arguments,
        Err(halt) => return Err(with_last(halt, Some(0))),
    };
    match c.expect(Kind::Mark(Mark::ParenClose)) {
        Ok(()) => Ok(NameTail::Call(arguments)),
        Err(_) => Err(Halt::Refused(Some(0))),
    }
}

/// `. name`
fn port(alloc: Global, c: &mut Cursor<'_>) -> Result<NameTail, Halt>
    requires { next_kind c.old ≡ Some (Kind.Mark Mark.Dot) }
    ensures { AnswersLastAs f.name_tail name_part c.old result c.new }
{
    let before = c.len();
    c.take();
    let at = c.len();
    match ident(alloc, c) {
        Ok(port) => Ok(NameTail::Port(port)),
        Err(halt) => Err(or_zero(later(halt, before, at))),
    }
}
