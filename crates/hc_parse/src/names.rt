ghost use Rattle.std.specs.Prelude.{◌≡◌, ◌++◌};
ghost use Rattle.hc_grammar.specs.Answers.{Answers, AnswersIn};
ghost use Rattle.hc_grammar.specs.Form as f;

use hc_exparse::name;
use hc_grammar::{Cursor, Halt, Kind};
use hc_lex::Mark;
use hc_tree::{Ident, Params};
use sqlite_items::Items;
use std::alloc::Global;

/// `more_names`: the names behind commas, put behind those of `list`.
pub(crate) fn more_names(
    alloc: Global,
    c: &mut Cursor<'_>,
    list: &mut Items<Ident>,
) -> Result<(), Halt>
    ensures { AnswersIn f.more_names (λ more. list.old ++ more) c.old result list.new c.new }
{
    'each: while c.is(Kind::Mark(Mark::Comma)) {
        c.take();
        let next = match name(alloc, c) {
            Ok(next) => next,
            Err(halt) => return Err(halt),
        };
        match list.push(next) {
            Ok(()) => {}
            Err(_) => return Err(Halt::NoMemory),
        }
    }
    Ok(())
}

/// `names`: the names before a `)`, parted by commas.
pub(crate) fn names(alloc: Global, c: &mut Cursor<'_>) -> Result<Items<Ident>, Halt>
    ensures { Answers f.names c.old result c.new }
{
    let mut list = Items::new(alloc);
    if c.len() == 0 {
        return Ok(list);
    }
    if c.is(Kind::Mark(Mark::ParenClose)) {
        return Ok(list);
    }
    let first = match name(alloc, c) {
        Ok(first) => first,
        Err(halt) => return Err(halt),
    };
    match list.push(first) {
        Ok(()) => {}
        Err(_) => return Err(Halt::NoMemory),
    }
    match more_names(alloc, c, &mut list) {
        Ok(()) => Ok(list),
        Err(halt) => Err(halt),
    }
}

/// `params`: names in round brackets.
pub(crate) fn params(alloc: Global, c: &mut Cursor<'_>) -> Result<Params, Halt>
    ensures { Answers f.params c.old result c.new }
{
    if c.len() == 0 {
        return Err(Halt::Refused(None));
    }
    match c.expect(Kind::Mark(Mark::ParenOpen)) {
        Ok(()) => {}
        Err(halt) => return Err(halt),
    }
    let names = match names(alloc, c) {
        Ok(names) => names,
        Err(halt) => return Err(halt),
    };
    match c.expect(Kind::Mark(Mark::ParenClose)) {
        Ok(()) => Ok(Params { names }),
        Err(halt) => Err(halt),
    }
}

/// `opt_params`: names in round brackets, or nothing.
pub(crate) fn opt_params(alloc: Global, c: &mut Cursor<'_>) -> Result<Option<Params>, Halt>
    ensures { Answers f.opt_params c.old result c.new }
{
    if !c.is(Kind::Mark(Mark::ParenOpen)) {
        return Ok(None);
    }
    match params(alloc, c) {
        Ok(params) => Ok(Some(params)),
        Err(halt) => Err(halt),
    }
}
