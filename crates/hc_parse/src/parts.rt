ghost use Rattle.std.specs.Prelude.{◌≡◌};
ghost use Rattle.hc_grammar.specs.Form as f;
ghost use Rattle.hc_grammar.specs.Statement as spec;
ghost use Rattle.hc_parse.specs.Turn.{PassesBefore, PassesBrackets, PassesBreak, begins, begins_label, begins_local, next_kind};

use crate::begins::{begins_decl, begins_stmt};
use crate::written::{opt_expr, opt_simple};
use hc_exparse::expr;
use hc_grammar::{Cursor, Halt, Kind};
use hc_lex::Mark;
use hc_tree::{ExprTree, Simple};
use std::alloc::Global;

/// Whether a statement begins at the cursor.
pub(crate) fn is_at_stmt(c: &Cursor<'_>) -> bool
    ensures { result ≡ begins spec.begins_stmt (next_kind c.now) }
{
    match c.kind() {
        Some(kind) => begins_stmt(kind),
        None => false,
    }
}

/// Whether a declaration or a macro begins at the cursor.
pub(crate) fn is_at_local(c: &Cursor<'_>) -> bool
    ensures { result ≡ begins begins_local (next_kind c.now) }
{
    if c.is(Kind::Macro) {
        return true;
    }
    match c.kind() {
        Some(kind) => begins_decl(kind),
        None => false,
    }
}

/// Whether a label begins at the cursor, where a `default` was read before or not.
pub(crate) fn is_at_label(c: &Cursor<'_>, has_default: bool) -> bool
    ensures { result ≡ begins (begins_label has_default) (next_kind c.now) }
{
    if c.is(Kind::Case) {
        return true;
    }
    if has_default {
        return false;
    }
    c.is(Kind::Default)
}

/// An expression and the mark behind it.
pub(crate) fn expr_before(alloc: Global, c: &mut Cursor<'_>, kind: Kind) -> Result<ExprTree, Halt>
    ensures { PassesBefore f.expr kind c.old result c.new }
{
    let value = match expr(alloc, c) {
        Ok(value) => value,
        Err(halt) => return Err(halt),
    };
    match c.expect(kind) {
        Ok(()) => Ok(value),
        Err(halt) => {
            drop(value);
            Err(halt)
        }
    }
}

/// `[ expr ]` and the mark behind it.
pub(crate) fn opt_expr_before(
    alloc: Global,
    c: &mut Cursor<'_>,
    kind: Kind,
) -> Result<Option<ExprTree>, Halt>
    ensures { PassesBefore f.opt_expr kind c.old result c.new }
{
    let value = match opt_expr(alloc, c) {
        Ok(value) => value,
        Err(halt) => return Err(halt),
    };
    match c.expect(kind) {
        Ok(()) => Ok(value),
        Err(halt) => {
            drop(value);
            Err(halt)
        }
    }
}

/// `[ simple ]` and the mark behind it.
pub(crate) fn opt_simple_before(
    alloc: Global,
    c: &mut Cursor<'_>,
    kind: Kind,
) -> Result<Option<Simple>, Halt>
    ensures { PassesBefore f.opt_simple kind c.old result c.new }
{
    let value = match opt_simple(alloc, c) {
        Ok(value) => value,
        Err(halt) => return Err(halt),
    };
    match c.expect(kind) {
        Ok(()) => Ok(value),
        Err(halt) => {
            drop(value);
            Err(halt)
        }
    }
}

/// `( expr )`
pub(crate) fn in_brackets(alloc: Global, c: &mut Cursor<'_>) -> Result<ExprTree, Halt>
    ensures { PassesBrackets c.old result c.new }
{
    match c.expect(Kind::Mark(Mark::ParenOpen)) {
        Ok(()) => {}
        Err(halt) => return Err(halt),
    }
    match expr_before(alloc, c, Kind::Mark(Mark::ParenClose)) {
        Ok(value) => Ok(value),
        Err(halt) => Err(halt),
    }
}

/// `[ break ; ]`
pub(crate) fn opt_break(c: &mut Cursor<'_>) -> Result<bool, Halt>
    ensures { PassesBreak c.old result c.new }
{
    if !c.is(Kind::Break) {
        return Ok(false);
    }
    c.take();
    match c.expect(Kind::Mark(Mark::Semicolon)) {
        Ok(()) => Ok(true),
        Err(halt) => Err(halt),
    }
}
