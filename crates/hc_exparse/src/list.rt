ghost use Rattle.std.specs.Prelude.{◌≡◌, ◌++◌};
ghost use Rattle.hc_grammar.specs.Answers.{Answers, AnswersIn};
ghost use Rattle.hc_grammar.specs.Form as f;

use crate::expression::whole;
use hc_grammar::{Cursor, Halt, Kind};
use hc_lex::Mark;
use hc_tree::ExprTree;
use sqlite_items::Items;
use std::alloc::Global;

/// `args`: the expressions before a `)`, parted by commas.
#[cycle(expr)]
pub fn args(alloc: Global, c: &mut Cursor<'_>) -> Result<Items<ExprTree>, Halt>
    ensures { Answers f.args c.old result c.new }
{
    let mut list = Items::new(alloc);
    if c.len() == 0 {
        return Ok(list);
    }
    if c.is(Kind::Mark(Mark::ParenClose)) {
        return Ok(list);
    }
    let first = match whole(alloc, c) {
        Ok(first) => first,
        Err(halt) => return Err(halt),
    };
    match list.push(first) {
        Ok(()) => {}
        Err(_) => return Err(Halt::NoMemory),
    }
    match more_exprs(alloc, c, &mut list) {
        Ok(()) => Ok(list),
        Err(halt) => Err(halt),
    }
}

/// `more_exprs`: the expressions behind commas, put behind those of `list`.
#[cycle(expr)]
pub fn more_exprs(alloc: Global, c: &mut Cursor<'_>, list: &mut Items<ExprTree>) -> Result<(), Halt>
    ensures { AnswersIn f.more_exprs (λ more. list.old ++ more) c.old result list.new c.new }
{
    'each: while c.is(Kind::Mark(Mark::Comma)) {
        c.take();
        let next = match whole(alloc, c) {
            Ok(next) => next,
            Err(halt) => return Err(halt),
        };
        match list.push(next) {
            Ok(()) => {}
            Err(_) => return Err(Halt::NoMemory),
        }
    }
    Ok(())
}
