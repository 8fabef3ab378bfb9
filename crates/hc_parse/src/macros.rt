ghost use Rattle.std.specs.Prelude.{◌≡◌, Some};
ghost use Rattle.hc_grammar.specs.Answers.{Answers, AnswersTo};
ghost use Rattle.hc_grammar.specs.Form as f;
ghost use Rattle.hc_parse.specs.Turn.{next_kind};

use crate::block::block;
use crate::names::{opt_params, params};
use crate::parts::expr_before;
use hc_exparse::name;
use hc_grammar::{Cursor, Halt, Kind};
use hc_lex::Mark;
use hc_tree::{Macro, Place};
use std::alloc::Global;

/// `macro`: a macro expression or a macro procedure.
#[cycle(statement)]
pub(crate) fn macro_item(alloc: Global, c: &mut Cursor<'_>) -> Result<Macro, Halt>
    ensures { Answers f.«macro» c.old result c.new }
{
    let place = c.place();
    match c.expect(Kind::Macro) {
        Ok(()) => {}
        Err(halt) => return Err(halt),
    }
    match macro_tail(alloc, c, place) {
        Ok(made) => Ok(made),
        Err(halt) => Err(halt),
    }
}

/// `macro_tail`: what stands behind `macro`.
#[cycle(statement)]
fn macro_tail(alloc: Global, c: &mut Cursor<'_>, place: Place) -> Result<Macro, Halt>
    ensures { AnswersTo f.macro_tail (λ tail. tail place) c.old result c.new }
{
    if c.is(Kind::Expr) {
        return macro_expr(alloc, c, place);
    }
    if c.is(Kind::Proc) {
        return macro_proc(alloc, c, place);
    }
    Err(Halt::Refused(None))
}

/// `expr name [ params ] = expr ;`
fn macro_expr(alloc: Global, c: &mut Cursor<'_>, place: Place) -> Result<Macro, Halt>
    requires { next_kind c.old ≡ Some Kind.Expr }
    ensures { AnswersTo f.macro_tail (λ tail. tail place) c.old result c.new }
{
    c.take();
    let name = match name(alloc, c) {
        Ok(name) => name,
        Err(halt) => return Err(halt),
    };
    let params = match opt_params(alloc, c) {
        Ok(params) => params,
        Err(halt) => return Err(halt),
    };
    match c.expect(Kind::Mark(Mark::Assign)) {
        Ok(()) => {}
        Err(halt) => {
            drop(params);
            return Err(halt);
        }
    }
    match expr_before(alloc, c, Kind::Mark(Mark::Semicolon)) {
        Ok(value) => Ok(Macro::Expr {
            place,
            name,
            params,
            value,
        }),
        Err(halt) => {
            drop(params);
            Err(halt)
        }
    }
}

/// `proc name params block`
#[cycle(statement)]
fn macro_proc(alloc: Global, c: &mut Cursor<'_>, place: Place) -> Result<Macro, Halt>
    requires { next_kind c.old ≡ Some Kind.Proc }
    ensures { AnswersTo f.macro_tail (λ tail. tail place) c.old result c.new }
{
    c.take();
    let name = match name(alloc, c) {
        Ok(name) => name,
        Err(halt) => return Err(halt),
    };
    let params = match params(alloc, c) {
        Ok(params) => params,
        Err(halt) => return Err(halt),
    };
    match block(alloc, c) {
        Ok(body) => Ok(Macro::Proc {
            place,
            name,
            params,
            body,
        }),
        Err(halt) => {
            drop(params);
            Err(halt)
        }
    }
}
