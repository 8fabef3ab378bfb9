ghost use Rattle.std.specs.Prelude.{◌≡◌, ◌++◌, Bool, Some};
ghost use Rattle.hc_grammar.specs.Answers.{Answers, AnswersIn};
ghost use Rattle.hc_grammar.specs.Form as f;
ghost use Rattle.hc_exparse.specs.Ops.{next_kind};

use crate::names::more_names;
use crate::with_list::with_list;
use hc_exparse::{expr, name, type_of};
use hc_grammar::{Cursor, Halt, Kind};
use hc_lex::Mark;
use hc_tree::{BoxedType, Decl, ExprTree, Sig};
use sqlite_items::Items;
use std::alloc::Global;

/// Signals, declared in a block or outside.
pub(crate) fn signals(alloc: Global, c: &mut Cursor<'_>) -> Result<Decl, Halt>
    requires { next_kind c.old ≡ Some Kind.Signal }
    ensures { (local : Bool) → Answers (f.decl local) c.old result c.new }
{
    let place = c.place();
    c.take();
    let of = match boxed(alloc, c) {
        Ok(of) => of,
        Err(halt) => return Err(halt),
    };
    let first = match sig(alloc, c) {
        Ok(first) => first,
        Err(halt) => {
            drop(of);
            return Err(halt);
        }
    };
    let mut signals = Items::new(alloc);
    match signals.push(first) {
        Ok(()) => {}
        Err(_) => {
            drop(signals);
            drop(of);
            return Err(Halt::NoMemory);
        }
    }
    match more_sigs(alloc, c, &mut signals) {
        Ok(()) => {}
        Err(halt) => {
            drop(signals);
            drop(of);
            return Err(halt);
        }
    }
    let with = match with_list(alloc, c) {
        Ok(with) => with,
        Err(halt) => {
            drop(signals);
            drop(of);
            return Err(halt);
        }
    };
    match c.expect(Kind::Mark(Mark::Semicolon)) {
        Ok(()) => Ok(Decl::Signals {
            place,
            of,
            signals,
            with,
        }),
        Err(halt) => {
            drop(with);
            drop(signals);
            drop(of);
            Err(halt)
        }
    }
}

/// Channels, declared in a block or outside.
pub(crate) fn chans(alloc: Global, c: &mut Cursor<'_>) -> Result<Decl, Halt>
    requires { next_kind c.old ≡ Some Kind.Chan }
    ensures { (local : Bool) → Answers (f.decl local) c.old result c.new }
{
    let place = c.place();
    c.take();
    let of = match boxed(alloc, c) {
        Ok(of) => of,
        Err(halt) => return Err(halt),
    };
    let first = match name(alloc, c) {
        Ok(first) => first,
        Err(halt) => {
            drop(of);
            return Err(halt);
        }
    };
    let mut names = Items::new(alloc);
    match names.push(first) {
        Ok(()) => {}
        Err(_) => {
            drop(names);
            drop(of);
            return Err(Halt::NoMemory);
        }
    }
    match more_names(alloc, c, &mut names) {
        Ok(()) => {}
        Err(halt) => {
            drop(names);
            drop(of);
            return Err(halt);
        }
    }
    let with = match with_list(alloc, c) {
        Ok(with) => with,
        Err(halt) => {
            drop(names);
            drop(of);
            return Err(halt);
        }
    };
    match c.expect(Kind::Mark(Mark::Semicolon)) {
        Ok(()) => Ok(Decl::Chans {
            place,
            of,
            names,
            with,
        }),
        Err(halt) => {
            drop(with);
            drop(names);
            drop(of);
            Err(halt)
        }
    }
}

/// `boxed`: a type, which may stand in angle brackets.
fn boxed(alloc: Global, c: &mut Cursor<'_>) -> Result<BoxedType, Halt>
    ensures { Answers f.boxed c.old result c.new }
{
    if c.len() == 0 {
        return Err(Halt::Refused(None));
    }
    if !c.is(Kind::Mark(Mark::Less)) {
        return match type_of(alloc, c) {
            Ok(of) => Ok(BoxedType::Bare(of)),
            Err(halt) => Err(halt),
        };
    }
    c.take();
    let of = match type_of(alloc, c) {
        Ok(of) => of,
        Err(halt) => return Err(halt),
    };
    match c.expect(Kind::Mark(Mark::Greater)) {
        Ok(()) => Ok(BoxedType::InAngles(of)),
        Err(halt) => {
            drop(of);
            Err(halt)
        }
    }
}

/// `more_sigs`: the signals behind commas, put behind those of `list`.
fn more_sigs(alloc: Global, c: &mut Cursor<'_>, list: &mut Items<Sig>) -> Result<(), Halt>
    ensures { AnswersIn f.more_sigs (λ more. list.old ++ more) c.old result list.new c.new }
{
    'each: while c.is(Kind::Mark(Mark::Comma)) {
        c.take();
        let next = match sig(alloc, c) {
            Ok(next) => next,
            Err(halt) => return Err(halt),
        };
        match list.push(next) {
            Ok(()) => {}
            Err(_) => return Err(Halt::NoMemory),
        }
    }
    Ok(())
}

/// `sig`: a signal.
fn sig(alloc: Global, c: &mut Cursor<'_>) -> Result<Sig, Halt>
    ensures { Answers f.sig c.old result c.new }
{
    if c.len() == 0 {
        return Err(Halt::Refused(None));
    }
    let name = match name(alloc, c) {
        Ok(name) => name,
        Err(halt) => return Err(halt),
    };
    match sig_tail(alloc, c) {
        Ok(unset) => Ok(Sig { name, unset }),
        Err(halt) => Err(halt),
    }
}

/// `sig_tail`: a signal's default, or nothing.
fn sig_tail(alloc: Global, c: &mut Cursor<'_>) -> Result<Option<ExprTree>, Halt>
    ensures { Answers f.sig_tail c.old result c.new }
{
    if !c.is(Kind::Mark(Mark::Assign)) {
        return Ok(None);
    }
    c.take();
    match expr(alloc, c) {
        Ok(unset) => Ok(Some(unset)),
        Err(halt) => Err(halt),
    }
}
