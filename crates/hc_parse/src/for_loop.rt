ghost use Rattle.std.specs.Prelude.{◌≡◌, Some};
ghost use Rattle.hc_exparse.specs.Last.{Makes};
ghost use Rattle.hc_grammar.specs.Answers.{Answers};
ghost use Rattle.hc_grammar.specs.Form as f;
ghost use Rattle.hc_parse.specs.Turn.{PassesForHead, PassesForRest, next_kind};

use crate::boxes::boxed;
use crate::parts::{opt_expr_before, opt_simple_before};
use crate::statement::stmt;
use hc_grammar::{Cursor, Halt, Kind};
use hc_lex::Mark;
use hc_tree::{ExprTree, Place, Simple, Stmt};
use sqlite_items::Boxed;
use std::alloc::Global;

/// What stands in the brackets of a `for`.
#[derive(Drop)]
pub(crate) struct ForHead {
    first: Option<Simple>,
    rest: Boxed<ForRest>,
}

/// What stands in the brackets of a `for` behind the first `;`.
#[derive(Drop)]
pub(crate) struct ForRest {
    condition: Option<ExprTree>,
    step: Option<Simple>,
}

/// `for ( [ simple ] ; [ expr ] ; [ simple ] ) stmt`
#[cycle(statement)]
pub(crate) fn for_stmt(alloc: Global, c: &mut Cursor<'_>) -> Result<Stmt, Halt>
    requires { next_kind c.old ≡ Some Kind.For }
    ensures { Answers f.stmt c.old result c.new }
{
    let place = c.place();
    c.take();
    let head = match for_head(alloc, c) {
        Ok(head) => head,
        Err(halt) => return Err(halt),
    };
    match stmt(alloc, c) {
        Ok(body) => for_of(alloc, place, head, body),
        Err(halt) => {
            drop(head);
            Err(halt)
        }
    }
}

/// `( [ simple ] ; [ expr ] ; [ simple ] )`, where the brackets are written.
fn for_head(alloc: Global, c: &mut Cursor<'_>) -> Result<Boxed<ForHead>, Halt>
    ensures { PassesForHead c.old result c.new }
{
    match c.expect(Kind::Mark(Mark::ParenOpen)) {
        Ok(()) => {}
        Err(halt) => return Err(halt),
    }
    let first = match opt_simple_before(alloc, c, Kind::Mark(Mark::Semicolon)) {
        Ok(first) => first,
        Err(halt) => return Err(halt),
    };
    match for_rest(alloc, c) {
        Ok(rest) => head_of(alloc, first, rest),
        Err(halt) => {
            drop(first);
            Err(halt)
        }
    }
}

/// `[ expr ] ; [ simple ] )`, where the bracket is written.
fn for_rest(alloc: Global, c: &mut Cursor<'_>) -> Result<Boxed<ForRest>, Halt>
    ensures { PassesForRest c.old result c.new }
{
    let condition = match opt_expr_before(alloc, c, Kind::Mark(Mark::Semicolon)) {
        Ok(condition) => condition,
        Err(halt) => return Err(halt),
    };
    match opt_simple_before(alloc, c, Kind::Mark(Mark::ParenClose)) {
        Ok(step) => rest_of(alloc, condition, step),
        Err(halt) => {
            drop(condition);
            Err(halt)
        }
    }
}

fn rest_of(
    alloc: Global,
    condition: Option<ExprTree>,
    step: Option<Simple>,
) -> Result<Boxed<ForRest>, Halt>
    ensures { Makes result (record { condition = condition; step = step }) }
{
    match Boxed::new(alloc, ForRest { condition, step }) {
        Ok(made) => Ok(made),
        Err(_) => Err(Halt::NoMemory),
    }
}

fn head_of(
    alloc: Global,
    first: Option<Simple>,
    rest: Boxed<ForRest>,
) -> Result<Boxed<ForHead>, Halt>
    ensures { Makes result (record { first = first; rest = rest }) }
{
    match Boxed::new(alloc, ForHead { first, rest }) {
        Ok(made) => Ok(made),
        Err(_) => Err(Halt::NoMemory),
    }
}

/// A `for` of its parts.
fn for_boxed(place: Place, head: ForHead, body: Boxed<Stmt>) -> Stmt
    ensures { result ≡ Stmt.For place head.first head.rest.condition head.rest.step body }
{
    let rest = head.rest.into_inner();
    Stmt::For {
        place,
        first: head.first,
        condition: rest.condition,
        step: rest.step,
        body,
    }
}

/// A `for` with its body.
fn for_of(alloc: Global, place: Place, head: Boxed<ForHead>, body: Stmt) -> Result<Stmt, Halt>
    ensures { Makes result (Stmt.For place head.first head.rest.condition head.rest.step body) }
{
    match boxed(alloc, body) {
        Ok(body) => Ok(for_boxed(place, head.into_inner(), body)),
        Err(_) => {
            drop(head);
            Err(Halt::NoMemory)
        }
    }
}
