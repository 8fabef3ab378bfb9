ghost use Rattle.std.specs.Prelude.{◌≡◌, Some};
ghost use Rattle.hc_grammar.specs.Answers.{AnswersTo};
ghost use Rattle.hc_grammar.specs.Form as f;
ghost use Rattle.hc_exparse.specs.Ops.{next_kind};

use crate::before::{expr_before, name_before, with_end};
use hc_exparse::type_of;
use hc_grammar::{Cursor, Halt, Kind};
use hc_lex::Mark;
use hc_tree::{Interface, Place};
use std::alloc::Global;

/// `interface_tail`: an input or an output, behind `interface` at this place.
pub(crate) fn interface_tail(
    alloc: Global,
    c: &mut Cursor<'_>,
    place: Place,
) -> Result<Interface, Halt>
    ensures { AnswersTo f.interface_tail (λ tail. tail place) c.old result c.new }
{
    if c.is(Kind::BusIn) {
        return bus_in(alloc, c, place);
    }
    if c.is(Kind::BusOut) {
        return bus_out(alloc, c, place);
    }
    Err(Halt::Refused(None))
}

/// `bus_in ( type name ) name ( ) [ with ] ;`
fn bus_in(alloc: Global, c: &mut Cursor<'_>, place: Place) -> Result<Interface, Halt>
    requires { next_kind c.old ≡ Some Kind.BusIn }
    ensures { AnswersTo f.interface_tail (λ tail. tail place) c.old result c.new }
{
    c.take();
    match c.expect(Kind::Mark(Mark::ParenOpen)) {
        Ok(()) => {}
        Err(halt) => return Err(halt),
    }
    let of = match type_of(alloc, c) {
        Ok(of) => of,
        Err(halt) => return Err(halt),
    };
    let port = match name_before(alloc, c, Kind::Mark(Mark::ParenClose)) {
        Ok(port) => port,
        Err(halt) => {
            drop(of);
            return Err(halt);
        }
    };
    let name = match name_before(alloc, c, Kind::Mark(Mark::ParenOpen)) {
        Ok(name) => name,
        Err(halt) => {
            drop(of);
            return Err(halt);
        }
    };
    match c.expect(Kind::Mark(Mark::ParenClose)) {
        Ok(()) => {}
        Err(halt) => {
            drop(of);
            return Err(halt);
        }
    }
    match with_end(alloc, c) {
        Ok(with) => Ok(Interface::BusIn {
            place,
            of,
            port,
            name,
            with,
        }),
        Err(halt) => {
            drop(of);
            Err(halt)
        }
    }
}

/// `bus_out ( ) name ( type name = expr ) [ with ] ;`
fn bus_out(alloc: Global, c: &mut Cursor<'_>, place: Place) -> Result<Interface, Halt>
    requires { next_kind c.old ≡ Some Kind.BusOut }
    ensures { AnswersTo f.interface_tail (λ tail. tail place) c.old result c.new }
{
    c.take();
    match c.expect(Kind::Mark(Mark::ParenOpen)) {
        Ok(()) => {}
        Err(halt) => return Err(halt),
    }
    match c.expect(Kind::Mark(Mark::ParenClose)) {
        Ok(()) => {}
        Err(halt) => return Err(halt),
    }
    let name = match name_before(alloc, c, Kind::Mark(Mark::ParenOpen)) {
        Ok(name) => name,
        Err(halt) => return Err(halt),
    };
    let of = match type_of(alloc, c) {
        Ok(of) => of,
        Err(halt) => return Err(halt),
    };
    let port = match name_before(alloc, c, Kind::Mark(Mark::Assign)) {
        Ok(port) => port,
        Err(halt) => {
            drop(of);
            return Err(halt);
        }
    };
    let value = match expr_before(alloc, c, Kind::Mark(Mark::ParenClose)) {
        Ok(value) => value,
        Err(halt) => {
            drop(of);
            return Err(halt);
        }
    };
    match with_end(alloc, c) {
        Ok(with) => Ok(Interface::BusOut {
            place,
            name,
            of,
            port,
            value,
            with,
        }),
        Err(halt) => {
            drop(value);
            drop(of);
            Err(halt)
        }
    }
}
