ghost use Rattle.std.specs.Prelude.{◌≡◌, Some};
ghost use Rattle.hc_grammar.specs.Answers.{Answers, AnswersTo};
ghost use Rattle.hc_grammar.specs.Form as f;
ghost use Rattle.hc_parse.specs.Turn as spec;
ghost use Rattle.hc_parse.specs.Turn.{next_kind, order_word};

use crate::block::block;
use crate::parts::expr_before;
use crate::written::simple;
use hc_exparse::name;
use hc_grammar::{Cursor, Halt, Kind};
use hc_lex::Mark;
use hc_tree::{Block, Order, Place, Stmt};
use std::alloc::Global;

/// `( seq | par )` and a block or a replicator
#[cycle(statement)]
pub(crate) fn ordered(alloc: Global, c: &mut Cursor<'_>, order: Order) -> Result<Stmt, Halt>
    requires { next_kind c.old ≡ Some (order_word order) }
    ensures { Answers f.stmt c.old result c.new }
{
    let place = c.place();
    c.take();
    match order_tail(alloc, c, place, order) {
        Ok(made) => Ok(made),
        Err(halt) => Err(halt),
    }
}

/// A block behind `seq` or `par`.
fn in_order(place: Place, order: Order, body: Block) -> Stmt
    ensures { result ≡ spec.in_order order place body }
{
    match order {
        Order::Seq => Stmt::Seq { place, body },
        Order::Par => Stmt::Par { place, body },
    }
}

/// `order_tail`: behind `seq` or `par` a block or a replicator.
#[cycle(statement)]
fn order_tail(alloc: Global, c: &mut Cursor<'_>, place: Place, order: Order) -> Result<Stmt, Halt>
    ensures { AnswersTo (f.order_tail order) (λ tail. tail place) c.old result c.new }
{
    if c.len() == 0 {
        return Err(Halt::Refused(None));
    }
    if c.is(Kind::Mark(Mark::ParenOpen)) {
        return replicator(alloc, c, place, order);
    }
    match block(alloc, c) {
        Ok(body) => Ok(in_order(place, order, body)),
        Err(halt) => Err(halt),
    }
}

/// `( name = expr ; expr ; simple ) block`, where the brackets are written.
#[cycle(statement)]
fn replicator(alloc: Global, c: &mut Cursor<'_>, place: Place, order: Order) -> Result<Stmt, Halt>
    requires { next_kind c.old ≡ Some (Kind.Mark Mark.ParenOpen) }
    ensures { AnswersTo (f.order_tail order) (λ tail. tail place) c.old result c.new }
{
    c.take();
    let name = match name(alloc, c) {
        Ok(name) => name,
        Err(halt) => return Err(halt),
    };
    match c.expect(Kind::Mark(Mark::Assign)) {
        Ok(()) => {}
        Err(halt) => return Err(halt),
    }
    let first = match expr_before(alloc, c, Kind::Mark(Mark::Semicolon)) {
        Ok(first) => first,
        Err(halt) => return Err(halt),
    };
    let condition = match expr_before(alloc, c, Kind::Mark(Mark::Semicolon)) {
        Ok(condition) => condition,
        Err(halt) => {
            drop(first);
            return Err(halt);
        }
    };
    let step = match simple(alloc, c) {
        Ok(step) => step,
        Err(halt) => {
            drop(condition);
            drop(first);
            return Err(halt);
        }
    };
    match c.expect(Kind::Mark(Mark::ParenClose)) {
        Ok(()) => {}
        Err(halt) => {
            drop(step);
            drop(condition);
            drop(first);
            return Err(halt);
        }
    }
    match block(alloc, c) {
        Ok(body) => Ok(Stmt::Replicator {
            place,
            order,
            name,
            first,
            condition,
            step,
            body,
        }),
        Err(halt) => {
            drop(step);
            drop(condition);
            drop(first);
            Err(halt)
        }
    }
}
