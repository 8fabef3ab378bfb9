ghost use Rattle.std.specs.Prelude.{◌≡◌, ◌≤◌, Some, length};
ghost use Rattle.hc_grammar.specs.Answers.{Answers};
ghost use Rattle.hc_grammar.specs.Cursor.{place_at};
ghost use Rattle.hc_grammar.specs.Form as f;
ghost use Rattle.hc_exparse.specs.Heads.{ReadsHead};
ghost use Rattle.hc_exparse.specs.Ops.{next_kind};
ghost use Rattle.hc_exparse.specs.Parts.{type_part};

use crate::expression::expr_before;
use crate::made::{number_of, size_of, typed};
use crate::names::name;
use crate::part::TypeHead;
use hc_grammar::{Cursor, Halt, Kind};
use hc_lex::Mark;
use hc_tree::{Size, Type};
use std::alloc::Global;

/// `type`: `unsigned [ int ] size`, `[ signed ] int size` or `signed size`.
#[cycle(expr)]
pub fn type_of(alloc: Global, c: &mut Cursor<'_>) -> Result<Type, Halt>
    ensures { Answers f.«type» c.old result c.new }
{
    let place = c.place();
    let head = match type_head(c) {
        Some(head) => head,
        None => return Err(Halt::Refused(None)),
    };
    match size(alloc, c) {
        Ok(size) => Ok(typed(place, head, size)),
        Err(halt) => Err(halt),
    }
}

/// The words of a type before its size.
fn type_head(c: &mut Cursor<'_>) -> Option<TypeHead>
    ensures words { ReadsHead f.«type» (λ head n. type_part head (place_at c.old) n) c.old result c.new }
    ensures shorter { length c.new.rest ≤ length c.old.rest }
{
    if c.is(Kind::Unsigned) {
        c.take();
        return unsigned_head(c);
    }
    if c.is(Kind::Signed) {
        c.take();
        return signed_head(c);
    }
    match c.expect(Kind::Int) {
        Ok(()) => Some(TypeHead::Int(false)),
        Err(_) => None,
    }
}

/// `unsigned_tail` before its size.
fn unsigned_head(c: &mut Cursor<'_>) -> Option<TypeHead>
    ensures words { ReadsHead f.unsigned_tail (λ head n at. type_part head at n) c.old result c.new }
    ensures shorter { length c.new.rest ≤ length c.old.rest }
{
    if c.len() == 0 {
        return None;
    }
    if c.is(Kind::Int) {
        c.take();
        return Some(TypeHead::Unsigned(true));
    }
    Some(TypeHead::Unsigned(false))
}

/// `signed_tail` before its size.
fn signed_head(c: &mut Cursor<'_>) -> Option<TypeHead>
    ensures words { ReadsHead f.signed_tail (λ head n at. type_part head at n) c.old result c.new }
    ensures shorter { length c.new.rest ≤ length c.old.rest }
{
    if c.len() == 0 {
        return None;
    }
    if c.is(Kind::Int) {
        c.take();
        return Some(TypeHead::Int(true));
    }
    Some(TypeHead::Signed)
}

/// `size`: a number, a name or `( expr )`.
#[cycle(expr)]
fn size(alloc: Global, c: &mut Cursor<'_>) -> Result<Size, Halt>
    ensures { Answers f.size c.old result c.new }
{
    let kind = match c.kind() {
        Some(kind) => kind,
        None => return Err(Halt::Refused(None)),
    };
    if c.is(Kind::Number) {
        return number(c);
    }
    if kind.is_name() {
        return match name(alloc, c) {
            Ok(name) => Ok(Size::Name(name)),
            Err(halt) => Err(halt),
        };
    }
    match c.expect(Kind::Mark(Mark::ParenOpen)) {
        Ok(()) => {}
        Err(_) => return Err(Halt::Refused(None)),
    }
    match expr_before(alloc, c, Kind::Mark(Mark::ParenClose)) {
        Ok(width) => size_of(alloc, width),
        Err(halt) => Err(halt),
    }
}

/// A number as a width.
fn number(c: &mut Cursor<'_>) -> Result<Size, Halt>
    requires { next_kind c.old ≡ Some Kind.Number }
    ensures { Answers f.size c.old result c.new }
{
    match c.take() {
        Some(t) => Ok(Size::Number {
            place: t.place,
            value: number_of(&t.token),
        }),
        None => Err(Halt::NoMemory),
    }
}
