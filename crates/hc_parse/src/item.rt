ghost use Rattle.std.specs.Prelude.{◌≡◌, Some};
ghost use Rattle.hc_grammar.specs.Answers.{Answers, AnswersTo};
ghost use Rattle.hc_grammar.specs.Form as f;
ghost use Rattle.hc_grammar.specs.Grammar.{grammar};
ghost use Rattle.hc_grammar.specs.Table.{Reads};
ghost use Rattle.hc_exparse.specs.Ops.{next_kind};

use crate::before::{name_before, text_before, with_end};
use crate::block::block;
use crate::declaration::decl;
use crate::interface::interface_tail;
use crate::macros::macro_item;
use hc_exparse::text;
use hc_grammar::{Cursor, Halt, Kind};
use hc_lex::Mark;
use hc_tree::{Item, Place};
use std::alloc::Global;

/// `item`: what stands at the outermost level of a source, by the word that it begins with.
pub(crate) fn item(alloc: Global, c: &mut Cursor<'_>) -> Result<Item, Halt>
    ensures { Answers f.item c.old result c.new }
{
    if c.is(Kind::Set) {
        return set_item(alloc, c);
    }
    if c.is(Kind::Interface) {
        return interface_item(alloc, c);
    }
    if c.is(Kind::Void) {
        return main_item(alloc, c);
    }
    if c.is(Kind::Macro) {
        return match macro_item(alloc, c) {
            Ok(made) => Ok(Item::Macro(made)),
            Err(halt) => Err(halt),
        };
    }
    match decl(alloc, c, false) {
        Ok(made) => Ok(Item::Decl(made)),
        Err(halt) => Err(halt),
    }
}

/// `set` and what is set.
fn set_item(alloc: Global, c: &mut Cursor<'_>) -> Result<Item, Halt>
    requires { next_kind c.old ≡ Some Kind.Set }
    ensures { Answers f.item c.old result c.new }
{
    let place = c.place();
    c.take();
    set_tail(alloc, c, place)
}

/// `set_tail`: the clock, the family or the part, behind `set` at this place.
fn set_tail(alloc: Global, c: &mut Cursor<'_>, place: Place) -> Result<Item, Halt>
    ensures { AnswersTo f.set_tail (λ tail. tail place) c.old result c.new }
{
    if c.is(Kind::Clock) {
        return clock(alloc, c, place);
    }
    if c.is(Kind::Family) {
        return family(alloc, c, place);
    }
    if c.is(Kind::Part) {
        return part(alloc, c, place);
    }
    Err(Halt::Refused(None))
}

/// `clock = external text [ with ] ;`
fn clock(alloc: Global, c: &mut Cursor<'_>, place: Place) -> Result<Item, Halt>
    requires { next_kind c.old ≡ Some Kind.Clock }
    ensures { AnswersTo f.set_tail (λ tail. tail place) c.old result c.new }
{
    c.take();
    match c.expect(Kind::Mark(Mark::Assign)) {
        Ok(()) => {}
        Err(halt) => return Err(halt),
    }
    match c.expect(Kind::External) {
        Ok(()) => {}
        Err(halt) => return Err(halt),
    }
    let pin = match text(alloc, c) {
        Ok(pin) => pin,
        Err(halt) => return Err(halt),
    };
    match with_end(alloc, c) {
        Ok(with) => Ok(Item::Clock { place, pin, with }),
        Err(halt) => Err(halt),
    }
}

/// `family = name ;`
fn family(alloc: Global, c: &mut Cursor<'_>, place: Place) -> Result<Item, Halt>
    requires { next_kind c.old ≡ Some Kind.Family }
    ensures { AnswersTo f.set_tail (λ tail. tail place) c.old result c.new }
{
    c.take();
    match c.expect(Kind::Mark(Mark::Assign)) {
        Ok(()) => {}
        Err(halt) => return Err(halt),
    }
    match name_before(alloc, c, Kind::Mark(Mark::Semicolon)) {
        Ok(name) => Ok(Item::Family { place, name }),
        Err(halt) => Err(halt),
    }
}

/// `part = text ;`
fn part(alloc: Global, c: &mut Cursor<'_>, place: Place) -> Result<Item, Halt>
    requires { next_kind c.old ≡ Some Kind.Part }
    ensures { AnswersTo f.set_tail (λ tail. tail place) c.old result c.new }
{
    c.take();
    match c.expect(Kind::Mark(Mark::Assign)) {
        Ok(()) => {}
        Err(halt) => return Err(halt),
    }
    match text_before(alloc, c, Kind::Mark(Mark::Semicolon)) {
        Ok(part) => Ok(Item::Part { place, part }),
        Err(halt) => Err(halt),
    }
}

/// `interface` and an input or an output.
fn interface_item(alloc: Global, c: &mut Cursor<'_>) -> Result<Item, Halt>
    requires { next_kind c.old ≡ Some Kind.Interface }
    ensures { Answers f.item c.old result c.new }
{
    let place = c.place();
    c.take();
    match interface_tail(alloc, c, place) {
        Ok(made) => Ok(Item::Interface(made)),
        Err(halt) => Err(halt),
    }
}

/// `void main ( [ void ] ) block`
fn main_item(alloc: Global, c: &mut Cursor<'_>) -> Result<Item, Halt>
    requires { next_kind c.old ≡ Some Kind.Void }
    ensures { Answers f.item c.old result c.new }
{
    let place = c.place();
    c.take();
    match c.expect(Kind::Main) {
        Ok(()) => {}
        Err(halt) => return Err(halt),
    }
    match c.expect(Kind::Mark(Mark::ParenOpen)) {
        Ok(()) => {}
        Err(halt) => return Err(halt),
    }
    let says_void = opt_void(c);
    match c.expect(Kind::Mark(Mark::ParenClose)) {
        Ok(()) => {}
        Err(halt) => return Err(halt),
    }
    match block(alloc, c) {
        Ok(body) => Ok(Item::Main {
            place,
            says_void,
            body,
        }),
        Err(halt) => Err(halt),
    }
}

/// `opt_void`: whether `void` is written.
fn opt_void(c: &mut Cursor<'_>) -> bool
    ensures reads { Reads grammar f.opt_void c.old.rest result c.new.rest }
    ensures end { c.new.end ≡ c.old.end }
{
    if c.is(Kind::Void) {
        c.take();
        return true;
    }
    false
}
