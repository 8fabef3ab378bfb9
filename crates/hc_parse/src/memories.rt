ghost use Rattle.std.specs.Prelude.{◌≡◌, ◌++◌, true, false};
ghost use Rattle.hc_grammar.specs.Answers.{Answers, AnswersIn, AnswersTo};
ghost use Rattle.hc_grammar.specs.Declaration as spec;
ghost use Rattle.hc_grammar.specs.Form as f;
ghost use Rattle.hc_exparse.specs.Ops.{next_kind};
ghost use Rattle.hc_parse.specs.Initials.{initial, HasNone, HasValues};

use crate::with_list::with_list;
use hc_exparse::{expr, more_exprs, name, type_of};
use hc_grammar::{Cursor, Halt, Kind};
use hc_lex::Mark;
use hc_tree::{Decl, ExprTree, Mem, MemoryKind, Place};
use sqlite_items::Items;
use std::alloc::Global;

/// Which initial values a declared array or memory has: none, at most one list, or its list always.
#[derive(Clone, Copy)]
pub(crate) enum Initial {
    Never,
    Maybe,
    Always,
}

/// The initial values where they may be given or not.
pub(crate) fn allowed(init: bool) -> Initial
    ensures { initial result ≡ spec.allowed init }
{
    if init { Initial::Maybe } else { Initial::Never }
}

/// `memories_tail`: the type and the memories of a declaration.
pub(crate) fn memories_tail(
    alloc: Global,
    c: &mut Cursor<'_>,
    init: Initial,
    place: Place,
    is_static: bool,
    kind: MemoryKind,
) -> Result<Decl, Halt>
    ensures { AnswersTo (f.memories_tail (initial init)) (λ tail. tail place is_static kind) c.old result c.new }
{
    if c.len() == 0 {
        return Err(Halt::Refused(None));
    }
    let of = match type_of(alloc, c) {
        Ok(of) => of,
        Err(halt) => return Err(halt),
    };
    let first = match mem(alloc, c, init) {
        Ok(first) => first,
        Err(halt) => {
            drop(of);
            return Err(halt);
        }
    };
    let mut memories = Items::new(alloc);
    match memories.push(first) {
        Ok(()) => {}
        Err(_) => {
            drop(memories);
            drop(of);
            return Err(Halt::NoMemory);
        }
    }
    match more_mems(alloc, c, init, &mut memories) {
        Ok(()) => {}
        Err(halt) => {
            drop(memories);
            drop(of);
            return Err(halt);
        }
    }
    let with = match with_list(alloc, c) {
        Ok(with) => with,
        Err(halt) => {
            drop(memories);
            drop(of);
            return Err(halt);
        }
    };
    match c.expect(Kind::Mark(Mark::Semicolon)) {
        Ok(()) => Ok(Decl::Memories {
            place,
            is_static,
            kind,
            of,
            memories,
            with,
        }),
        Err(halt) => {
            drop(with);
            drop(memories);
            drop(of);
            Err(halt)
        }
    }
}

/// `more_mems`: the memories behind commas, put behind those of `list`.
fn more_mems(
    alloc: Global,
    c: &mut Cursor<'_>,
    init: Initial,
    list: &mut Items<Mem>,
) -> Result<(), Halt>
    ensures { AnswersIn (f.more_mems (initial init)) (λ more. list.old ++ more) c.old result list.new c.new }
{
    'each: while c.is(Kind::Mark(Mark::Comma)) {
        c.take();
        let next = match mem(alloc, c, init) {
            Ok(next) => next,
            Err(halt) => return Err(halt),
        };
        match list.push(next) {
            Ok(()) => {}
            Err(_) => return Err(Halt::NoMemory),
        }
    }
    Ok(())
}

/// `mem`: a memory with its length and its values.
fn mem(alloc: Global, c: &mut Cursor<'_>, init: Initial) -> Result<Mem, Halt>
    ensures { Answers (f.mem (initial init)) c.old result c.new }
{
    if c.len() == 0 {
        return Err(Halt::Refused(None));
    }
    let name = match name(alloc, c) {
        Ok(name) => name,
        Err(halt) => return Err(halt),
    };
    match c.expect(Kind::Mark(Mark::BracketOpen)) {
        Ok(()) => {}
        Err(halt) => return Err(halt),
    }
    let length = match expr(alloc, c) {
        Ok(length) => length,
        Err(halt) => return Err(halt),
    };
    match c.expect(Kind::Mark(Mark::BracketClose)) {
        Ok(()) => {}
        Err(halt) => {
            drop(length);
            return Err(halt);
        }
    }
    match mem_init(alloc, c, init) {
        Ok(init) => Ok(Mem { name, length, init }),
        Err(halt) => {
            drop(length);
            Err(halt)
        }
    }
}

/// Whether no values are written here.
fn has_none(c: &Cursor<'_>, init: Initial) -> bool
    ensures yes { result ≡ true → HasNone init (next_kind c.now) }
    ensures no { result ≡ false → HasValues init (next_kind c.now) }
{
    match init {
        Initial::Never => true,
        Initial::Maybe => !c.is(Kind::Mark(Mark::Assign)),
        Initial::Always => false,
    }
}

/// `mem_init`: values in braces, or nothing.
pub(crate) fn mem_init(
    alloc: Global,
    c: &mut Cursor<'_>,
    init: Initial,
) -> Result<Option<Items<ExprTree>>, Halt>
    ensures { Answers (f.mem_init (initial init)) c.old result c.new }
{
    if has_none(c, init) {
        return Ok(None);
    }
    match c.expect(Kind::Mark(Mark::Assign)) {
        Ok(()) => {}
        Err(halt) => return Err(halt),
    }
    match c.expect(Kind::Mark(Mark::BraceOpen)) {
        Ok(()) => {}
        Err(halt) => return Err(halt),
    }
    let first = match expr(alloc, c) {
        Ok(first) => first,
        Err(halt) => return Err(halt),
    };
    let mut values = Items::new(alloc);
    match values.push(first) {
        Ok(()) => {}
        Err(_) => {
            drop(values);
            return Err(Halt::NoMemory);
        }
    }
    match more_exprs(alloc, c, &mut values) {
        Ok(()) => {}
        Err(halt) => {
            drop(values);
            return Err(halt);
        }
    }
    match c.expect(Kind::Mark(Mark::BraceClose)) {
        Ok(()) => Ok(Some(values)),
        Err(halt) => {
            drop(values);
            Err(halt)
        }
    }
}
