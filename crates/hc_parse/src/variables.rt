ghost use Rattle.std.specs.Prelude.{◌≡◌, ◌++◌, Some};
ghost use Rattle.hc_grammar.specs.Answers.{Answers, AnswersIn, AnswersTo};
ghost use Rattle.hc_grammar.specs.Form as f;
ghost use Rattle.hc_exparse.specs.Ops.{next_kind};

use crate::memories::{allowed, mem_init};
use crate::with_list::with_list;
use hc_exparse::{expr, name, type_of};
use hc_grammar::{Cursor, Halt, Kind};
use hc_lex::Mark;
use hc_tree::{Decl, Ident, Mem, Place, Var};
use sqlite_items::Items;
use std::alloc::Global;

/// `vars_tail`: the type and the registers and arrays of a declaration. `init` says whether they may have values.
pub(crate) fn vars_tail(
    alloc: Global,
    c: &mut Cursor<'_>,
    init: bool,
    place: Place,
    is_static: bool,
) -> Result<Decl, Halt>
    ensures { AnswersTo (f.vars_tail init) (λ tail. tail place is_static) c.old result c.new }
{
    if c.len() == 0 {
        return Err(Halt::Refused(None));
    }
    let of = match type_of(alloc, c) {
        Ok(of) => of,
        Err(halt) => return Err(halt),
    };
    let first = match var(alloc, c, init) {
        Ok(first) => first,
        Err(halt) => {
            drop(of);
            return Err(halt);
        }
    };
    let mut vars = Items::new(alloc);
    match vars.push(first) {
        Ok(()) => {}
        Err(_) => {
            drop(vars);
            drop(of);
            return Err(Halt::NoMemory);
        }
    }
    match more_vars(alloc, c, init, &mut vars) {
        Ok(()) => {}
        Err(halt) => {
            drop(vars);
            drop(of);
            return Err(halt);
        }
    }
    let with = match with_list(alloc, c) {
        Ok(with) => with,
        Err(halt) => {
            drop(vars);
            drop(of);
            return Err(halt);
        }
    };
    match c.expect(Kind::Mark(Mark::Semicolon)) {
        Ok(()) => Ok(Decl::Vars {
            place,
            is_static,
            of,
            vars,
            with,
        }),
        Err(halt) => {
            drop(with);
            drop(vars);
            drop(of);
            Err(halt)
        }
    }
}

/// `more_vars`: the registers and arrays behind commas, put behind those of `list`.
fn more_vars(
    alloc: Global,
    c: &mut Cursor<'_>,
    init: bool,
    list: &mut Items<Var>,
) -> Result<(), Halt>
    ensures { AnswersIn (f.more_vars init) (λ more. list.old ++ more) c.old result list.new c.new }
{
    'each: while c.is(Kind::Mark(Mark::Comma)) {
        c.take();
        let next = match var(alloc, c, init) {
            Ok(next) => next,
            Err(halt) => return Err(halt),
        };
        match list.push(next) {
            Ok(()) => {}
            Err(_) => return Err(Halt::NoMemory),
        }
    }
    Ok(())
}

/// `var`: a register or an array.
fn var(alloc: Global, c: &mut Cursor<'_>, init: bool) -> Result<Var, Halt>
    ensures { Answers (f.var init) c.old result c.new }
{
    if c.len() == 0 {
        return Err(Halt::Refused(None));
    }
    let name = match name(alloc, c) {
        Ok(name) => name,
        Err(halt) => return Err(halt),
    };
    var_tail(alloc, c, init, name)
}

/// `var_tail`: behind a name a register's value, an array's length and values, or nothing.
fn var_tail(alloc: Global, c: &mut Cursor<'_>, init: bool, name: Ident) -> Result<Var, Halt>
    ensures { AnswersTo (f.var_tail init) (λ tail. tail name) c.old result c.new }
{
    if c.is(Kind::Mark(Mark::BracketOpen)) {
        return array(alloc, c, init, name);
    }
    if !init {
        return Ok(Var::Register { name, init: None });
    }
    if !c.is(Kind::Mark(Mark::Assign)) {
        return Ok(Var::Register { name, init: None });
    }
    c.take();
    match expr(alloc, c) {
        Ok(value) => Ok(Var::Register {
            name,
            init: Some(value),
        }),
        Err(halt) => Err(halt),
    }
}

/// An array's length and values.
fn array(alloc: Global, c: &mut Cursor<'_>, init: bool, name: Ident) -> Result<Var, Halt>
    requires { next_kind c.old ≡ Some (Kind.Mark Mark.BracketOpen) }
    ensures { AnswersTo (f.var_tail init) (λ tail. tail name) c.old result c.new }
{
    c.take();
    let length = match expr(alloc, c) {
        Ok(length) => length,
        Err(halt) => return Err(halt),
    };
    match c.expect(Kind::Mark(Mark::BracketClose)) {
        Ok(()) => {}
        Err(halt) => {
            drop(length);
            return Err(halt);
        }
    }
    match mem_init(alloc, c, allowed(init)) {
        Ok(init) => Ok(Var::Array(Mem { name, length, init })),
        Err(halt) => {
            drop(length);
            Err(halt)
        }
    }
}
