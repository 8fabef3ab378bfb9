ghost use Rattle.std.specs.Prelude.{◌≡◌, option_and_then};
ghost use Rattle.hc_grammar.specs.Answers.{Answers, AnswersTo};
ghost use Rattle.hc_grammar.specs.Form as f;
ghost use Rattle.hc_grammar.specs.Statement as spec;
ghost use Rattle.hc_exparse.specs.Ops.{next_kind};

use hc_exparse::{expr, name};
use hc_grammar::{Cursor, Halt, Kind};
use hc_lex::Mark;
use hc_tree::{Assign, ExprTree, Simple, Step, Target};
use std::alloc::Global;

/// `target`: a name, perhaps with an index.
pub(crate) fn target(alloc: Global, c: &mut Cursor<'_>) -> Result<Target, Halt>
    ensures { Answers f.target c.old result c.new }
{
    if c.len() == 0 {
        return Err(Halt::Refused(None));
    }
    let name = match name(alloc, c) {
        Ok(name) => name,
        Err(halt) => return Err(halt),
    };
    match index(alloc, c) {
        Ok(index) => Ok(Target { name, index }),
        Err(halt) => Err(halt),
    }
}

/// `index`: an expression in square brackets, or nothing.
pub(crate) fn index(alloc: Global, c: &mut Cursor<'_>) -> Result<Option<ExprTree>, Halt>
    ensures { Answers f.index c.old result c.new }
{
    if !c.is(Kind::Mark(Mark::BracketOpen)) {
        return Ok(None);
    }
    c.take();
    let at = match expr(alloc, c) {
        Ok(at) => at,
        Err(halt) => return Err(halt),
    };
    match c.expect(Kind::Mark(Mark::BracketClose)) {
        Ok(()) => Ok(Some(at)),
        Err(halt) => {
            drop(at);
            Err(halt)
        }
    }
}

/// `++` or `--`.
fn step(c: &Cursor<'_>) -> Option<Step>
    ensures { result ≡ option_and_then spec.step (next_kind c.now) }
{
    if c.is(Kind::Mark(Mark::Increment)) {
        return Some(Step::Up);
    }
    if c.is(Kind::Mark(Mark::Decrement)) {
        return Some(Step::Down);
    }
    None
}

/// `simple`: a new value for a target, or a step behind or before it.
pub(crate) fn simple(alloc: Global, c: &mut Cursor<'_>) -> Result<Simple, Halt>
    ensures { Answers f.simple c.old result c.new }
{
    if c.len() == 0 {
        return Err(Halt::Refused(None));
    }
    let place = c.place();
    if let Some(step) = step(c) {
        c.take();
        return match target(alloc, c) {
            Ok(target) => Ok(Simple::Before {
                place,
                step,
                target,
            }),
            Err(halt) => Err(halt),
        };
    }
    let to = match target(alloc, c) {
        Ok(to) => to,
        Err(halt) => return Err(halt),
    };
    simple_tail(alloc, c, to)
}

/// `simple_tail`: behind a target a step, or an assignment's mark and the new value.
pub(crate) fn simple_tail(alloc: Global, c: &mut Cursor<'_>, target: Target) -> Result<Simple, Halt>
    ensures { AnswersTo f.simple_tail (λ tail. tail target) c.old result c.new }
{
    if c.len() == 0 {
        drop(target);
        return Err(Halt::Refused(None));
    }
    let place = target.name.place;
    if let Some(step) = step(c) {
        c.take();
        return Ok(Simple::After {
            place,
            target,
            step,
        });
    }
    let assign = match assign(c) {
        Ok(assign) => assign,
        Err(halt) => {
            drop(target);
            return Err(halt);
        }
    };
    match expr(alloc, c) {
        Ok(value) => Ok(Simple::Assign {
            place,
            target,
            assign,
            value,
        }),
        Err(halt) => {
            drop(target);
            Err(halt)
        }
    }
}

/// The assignment of the next token.
fn assign_mark(c: &Cursor<'_>) -> Option<Assign>
    ensures { result ≡ option_and_then spec.assign_mark (next_kind c.now) }
{
    if c.is(Kind::Mark(Mark::Assign)) {
        return Some(Assign::Set);
    }
    if c.is(Kind::Mark(Mark::AddAssign)) {
        return Some(Assign::Add);
    }
    if c.is(Kind::Mark(Mark::SubtractAssign)) {
        return Some(Assign::Subtract);
    }
    if c.is(Kind::Mark(Mark::MultiplyAssign)) {
        return Some(Assign::Multiply);
    }
    if c.is(Kind::Mark(Mark::DivideAssign)) {
        return Some(Assign::Divide);
    }
    if c.is(Kind::Mark(Mark::RemainderAssign)) {
        return Some(Assign::Remainder);
    }
    if c.is(Kind::Mark(Mark::AndAssign)) {
        return Some(Assign::And);
    }
    if c.is(Kind::Mark(Mark::OrAssign)) {
        return Some(Assign::Or);
    }
    if c.is(Kind::Mark(Mark::XorAssign)) {
        return Some(Assign::Xor);
    }
    if c.is(Kind::Mark(Mark::ShiftLeftAssign)) {
        return Some(Assign::ShiftLeft);
    }
    if c.is(Kind::Mark(Mark::ShiftRightAssign)) {
        return Some(Assign::ShiftRight);
    }
    None
}

/// `assign`: `=`, or an operator's mark that ends in `=`.
pub(crate) fn assign(c: &mut Cursor<'_>) -> Result<Assign, Halt>
    ensures { Answers f.assign c.old result c.new }
{
    match assign_mark(c) {
        Some(assign) => {
            c.take();
            Ok(assign)
        }
        None => Err(Halt::Refused(None)),
    }
}

/// `opt_simple`: `simple`, or nothing before a `;` or `)`.
pub(crate) fn opt_simple(alloc: Global, c: &mut Cursor<'_>) -> Result<Option<Simple>, Halt>
    ensures { Answers f.opt_simple c.old result c.new }
{
    if c.len() == 0 {
        return Ok(None);
    }
    if c.is(Kind::Mark(Mark::Semicolon)) {
        return Ok(None);
    }
    if c.is(Kind::Mark(Mark::ParenClose)) {
        return Ok(None);
    }
    match simple(alloc, c) {
        Ok(simple) => Ok(Some(simple)),
        Err(halt) => Err(halt),
    }
}

/// `opt_expr`: an expression, or nothing before a `;`.
pub(crate) fn opt_expr(alloc: Global, c: &mut Cursor<'_>) -> Result<Option<ExprTree>, Halt>
    ensures { Answers f.opt_expr c.old result c.new }
{
    if c.len() == 0 {
        return Ok(None);
    }
    if c.is(Kind::Mark(Mark::Semicolon)) {
        return Ok(None);
    }
    match expr(alloc, c) {
        Ok(value) => Ok(Some(value)),
        Err(halt) => Err(halt),
    }
}
