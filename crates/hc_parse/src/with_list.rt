ghost use Rattle.std.specs.Prelude.{◌≡◌, ◌++◌, Some};
ghost use Rattle.hc_grammar.specs.Answers.{Answers, AnswersIn};
ghost use Rattle.hc_grammar.specs.Form as f;
ghost use Rattle.hc_exparse.specs.Ops.{next_kind};

use hc_exparse::{expr, name, text};
use hc_grammar::{Cursor, Halt, Kind};
use hc_lex::Mark;
use hc_tree::{Name, Spec, SpecValue, With};
use sqlite_items::Items;
use std::alloc::Global;

/// `with`: entries in braces behind the word, or nothing.
pub(crate) fn with_list(alloc: Global, c: &mut Cursor<'_>) -> Result<Option<With>, Halt>
    ensures { Answers f.with c.old result c.new }
{
    if !c.is(Kind::With) {
        return Ok(None);
    }
    c.take();
    match c.expect(Kind::Mark(Mark::BraceOpen)) {
        Ok(()) => {}
        Err(halt) => return Err(halt),
    }
    let first = match spec(alloc, c) {
        Ok(first) => first,
        Err(halt) => return Err(halt),
    };
    let mut specs = Items::new(alloc);
    match specs.push(first) {
        Ok(()) => {}
        Err(_) => return Err(Halt::NoMemory),
    }
    match more_specs(alloc, c, &mut specs) {
        Ok(()) => {}
        Err(halt) => return Err(halt),
    }
    match c.expect(Kind::Mark(Mark::BraceClose)) {
        Ok(()) => Ok(Some(With { specs })),
        Err(halt) => Err(halt),
    }
}

/// `spec`: a name and its value.
fn spec(alloc: Global, c: &mut Cursor<'_>) -> Result<Spec, Halt>
    ensures { Answers f.spec c.old result c.new }
{
    if c.len() == 0 {
        return Err(Halt::Refused(None));
    }
    let name = match name(alloc, c) {
        Ok(name) => name,
        Err(halt) => return Err(halt),
    };
    match c.expect(Kind::Mark(Mark::Assign)) {
        Ok(()) => {}
        Err(halt) => return Err(halt),
    }
    match spec_value(alloc, c) {
        Ok(value) => Ok(Spec { name, value }),
        Err(halt) => Err(halt),
    }
}

/// `more_specs`: the entries behind commas, put behind those of `list`.
fn more_specs(alloc: Global, c: &mut Cursor<'_>, list: &mut Items<Spec>) -> Result<(), Halt>
    ensures { AnswersIn f.more_specs (λ more. list.old ++ more) c.old result list.new c.new }
{
    'each: while c.is(Kind::Mark(Mark::Comma)) {
        c.take();
        let next = match spec(alloc, c) {
            Ok(next) => next,
            Err(halt) => return Err(halt),
        };
        match list.push(next) {
            Ok(()) => {}
            Err(_) => return Err(Halt::NoMemory),
        }
    }
    Ok(())
}

/// `spec_value`: a text, texts in braces or an expression.
fn spec_value(alloc: Global, c: &mut Cursor<'_>) -> Result<SpecValue, Halt>
    ensures { Answers f.spec_value c.old result c.new }
{
    if c.len() == 0 {
        return Err(Halt::Refused(None));
    }
    if c.is(Kind::Text) {
        return match text(alloc, c) {
            Ok(text) => Ok(SpecValue::Text(text)),
            Err(halt) => Err(halt),
        };
    }
    if c.is(Kind::Mark(Mark::BraceOpen)) {
        return texts(alloc, c);
    }
    match expr(alloc, c) {
        Ok(value) => Ok(SpecValue::Expr(value)),
        Err(halt) => Err(halt),
    }
}

/// Texts in braces.
fn texts(alloc: Global, c: &mut Cursor<'_>) -> Result<SpecValue, Halt>
    requires { next_kind c.old ≡ Some (Kind.Mark Mark.BraceOpen) }
    ensures { Answers f.spec_value c.old result c.new }
{
    c.take();
    let first = match text(alloc, c) {
        Ok(first) => first,
        Err(halt) => return Err(halt),
    };
    let mut texts = Items::new(alloc);
    match texts.push(first) {
        Ok(()) => {}
        Err(_) => return Err(Halt::NoMemory),
    }
    match more_texts(alloc, c, &mut texts) {
        Ok(()) => {}
        Err(halt) => return Err(halt),
    }
    match c.expect(Kind::Mark(Mark::BraceClose)) {
        Ok(()) => Ok(SpecValue::Texts(texts)),
        Err(halt) => Err(halt),
    }
}

/// `more_texts`: the texts behind commas, put behind those of `list`.
fn more_texts(alloc: Global, c: &mut Cursor<'_>, list: &mut Items<Name>) -> Result<(), Halt>
    ensures { AnswersIn f.more_texts (λ more. list.old ++ more) c.old result list.new c.new }
{
    'each: while c.is(Kind::Mark(Mark::Comma)) {
        c.take();
        let next = match text(alloc, c) {
            Ok(next) => next,
            Err(halt) => return Err(halt),
        };
        match list.push(next) {
            Ok(()) => {}
            Err(_) => return Err(Halt::NoMemory),
        }
    }
    Ok(())
}
