ghost use Rattle.std.specs.Prelude.{◌≡◌, ◌∷◌, true};
ghost use Rattle.hc_tree.specs.declared.stmt.LocalItem.{LocalItem};
ghost use Rattle.hc_grammar.specs.Answers.{Answers};
ghost use Rattle.hc_grammar.specs.Form as f;
ghost use Rattle.hc_parse.specs.Turn.{AnswersPart, begins, begins_local, next_kind};

use crate::declaration::decl;
use crate::macros::macro_item;
use crate::parts::{is_at_local, is_at_stmt};
use crate::statement::stmt;
use hc_grammar::{Cursor, Halt, Kind};
use hc_lex::Mark;
use hc_tree::{Block, LocalItem, Stmt};
use sqlite_items::Items;
use std::alloc::Global;

/// `block`: `{ { decl | macro } { stmt } }`, where the outer braces are written.
#[cycle(statement)]
pub(crate) fn block(alloc: Global, c: &mut Cursor<'_>) -> Result<Block, Halt>
    ensures { Answers f.block c.old result c.new }
{
    let place = c.place();
    match c.expect(Kind::Mark(Mark::BraceOpen)) {
        Ok(()) => {}
        Err(halt) => return Err(halt),
    }
    let declared = match declared(alloc, c) {
        Ok(declared) => declared,
        Err(halt) => return Err(halt),
    };
    let stmts = match stmts(alloc, c) {
        Ok(stmts) => stmts,
        Err(halt) => {
            drop(declared);
            return Err(halt);
        }
    };
    match c.expect(Kind::Mark(Mark::BraceClose)) {
        Ok(()) => Ok(Block {
            place,
            declared,
            stmts,
        }),
        Err(halt) => {
            drop(stmts);
            drop(declared);
            Err(halt)
        }
    }
}

/// `declared`: the declarations and macros of a block.
#[cycle(statement)]
fn declared(alloc: Global, c: &mut Cursor<'_>) -> Result<Items<LocalItem>, Halt>
    ensures { Answers f.declared c.old result c.new }
{
    let mut list = Items::new(alloc);
    'each: while is_at_local(c) {
        let item = match local_item(alloc, c) {
            Ok(item) => item,
            Err(halt) => {
                drop(list);
                return Err(halt);
            }
        };
        match list.push(item) {
            Ok(()) => {}
            Err(_) => {
                drop(list);
                return Err(Halt::NoMemory);
            }
        }
    }
    Ok(list)
}

/// A declaration or a macro in a block.
#[cycle(statement)]
fn local_item(alloc: Global, c: &mut Cursor<'_>) -> Result<LocalItem, Halt>
    requires { begins begins_local (next_kind c.old) ≡ true }
    ensures { AnswersPart f.declared f.declared (λ item more. item ∷ more) c.old result c.new }
{
    if c.is(Kind::Macro) {
        return match macro_item(alloc, c) {
            Ok(item) => Ok(LocalItem::Macro(item)),
            Err(halt) => Err(halt),
        };
    }
    match decl(alloc, c, true) {
        Ok(item) => Ok(LocalItem::Decl(item)),
        Err(halt) => Err(halt),
    }
}

/// `stmts`: statements, as long as one begins.
#[cycle(statement)]
pub(crate) fn stmts(alloc: Global, c: &mut Cursor<'_>) -> Result<Items<Stmt>, Halt>
    ensures { Answers f.stmts c.old result c.new }
{
    let mut list = Items::new(alloc);
    'each: while is_at_stmt(c) {
        let next = match stmt(alloc, c) {
            Ok(next) => next,
            Err(halt) => {
                drop(list);
                return Err(halt);
            }
        };
        match list.push(next) {
            Ok(()) => {}
            Err(_) => {
                drop(list);
                return Err(Halt::NoMemory);
            }
        }
    }
    Ok(list)
}
