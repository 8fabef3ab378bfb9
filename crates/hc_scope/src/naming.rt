ghost use Rattle.std.specs.Prelude.{◌≡◌, ◌+◌};
ghost use Rattle.hc_tree.specs.declared.expr.ExprTree.{out-ExprTree};
ghost use Rattle.hc_scope.specs.Scope.{name_in, argument};
ghost use Rattle.hc_scope.specs.Depth.{depth};
ghost use Rattle.hc_scope.specs.Reading.{scope_of, named_of};
ghost use Rattle.hc_scope.specs.Steps.{IsForm, IsIndexedForm, IsStep};

use crate::scope::{Meaning, Named, Scope, find};
use hc_tree::{ExprTree, Ident};

/// What a name in the place of a target or a channel leads to, where a parameter stands for its argument. Nothing is refused
/// here.
pub fn named<'s, 't>(scope: &Scope<'s, 't>, x: &'t Ident) -> Named<'s, 't>
    ensures { named_of result ≡ name_in (scope_of scope.now) x.now }
{
    match step_from(scope, x) {
        Step::Ends(end) => end,
        Step::Goes(y, call) => named(call, y),
        Step::GoesIndexed(y, at, call) => match named(call, y) {
            Named::Missing(z) => Named::Missing(z),
            Named::NoName(z) => Named::NoName(z),
            Named::Known(z, meaning, index) => match index {
                None => Named::Known(z, meaning, Some((at, call))),
                Some(_other) => Named::NoName(z),
            },
        },
    }
}

/// What a name leads to.
#[derive(Clone, Copy)]
pub(crate) enum Step<'s, 't> {
    /// It ends here.
    Ends(Named<'s, 't>),
    /// It is a parameter that stands for another name, in the scope of a call.
    Goes(&'t Ident, &'s Scope<'s, 't>),
    /// The same, with an index.
    GoesIndexed(&'t Ident, &'t ExprTree, &'s Scope<'s, 't>),
}

// One step from a name.
fn step_from<'s, 't>(scope: &Scope<'s, 't>, x: &'t Ident) -> Step<'s, 't>
    ensures { IsStep (name_in (scope_of scope.now) x.now) (depth (scope_of scope.now)) result }
{
    match find(scope, x.name.as_bytes()) {
        None => Step::Ends(Named::Missing(x)),
        Some(found) => match found.meaning {
            Meaning::Argument(e, call) => argument_step(x, e, call),
            Meaning::Object(_) => Step::Ends(Named::Known(x, found.meaning, None)),
            Meaning::Interface(_, _) => Step::Ends(Named::Known(x, found.meaning, None)),
            Meaning::Number(_) => Step::Ends(Named::Known(x, found.meaning, None)),
            Meaning::Expression(_, _) => Step::Ends(Named::Known(x, found.meaning, None)),
            Meaning::Procedure(_, _) => Step::Ends(Named::Known(x, found.meaning, None)),
        },
    }
}

// A parameter's step, by its argument.
fn argument_step<'s, 't>(x: &'t Ident, e: &'t ExprTree, call: &'s Scope<'s, 't>) -> Step<'s, 't>
    ensures { IsStep (argument (name_in (scope_of call.now)) x.now (scope_of call.now) (out-ExprTree e.now)) (depth (scope_of call.now) + 1) result }
{
    match name_form(e) {
        NameForm::Alone(y) => Step::Goes(y, call),
        NameForm::Indexed(y, at) => Step::GoesIndexed(y, at, call),
        NameForm::Other => Step::Ends(Named::NoName(x)),
    }
}

/// What an argument is as a name.
#[derive(Clone, Copy)]
pub(crate) enum NameForm<'t> {
    /// A name alone.
    Alone(&'t Ident),
    /// A name with an index.
    Indexed(&'t Ident, &'t ExprTree),
    /// Another expression.
    Other,
}

// The name that an expression is, alone or with an index.
fn name_form<'t>(e: &'t ExprTree) -> NameForm<'t>
    ensures { IsForm (out-ExprTree e.now) result }
{
    match e {
        ExprTree::Name(x) => NameForm::Alone(x),
        ExprTree::Index {
            place: _place,
            of,
            at,
        } => indexed_form(of.get(), at.get()),
        ExprTree::Number { .. } => NameForm::Other,
        ExprTree::Call { .. } => NameForm::Other,
        ExprTree::Port { .. } => NameForm::Other,
        ExprTree::Width { .. } => NameForm::Other,
        ExprTree::Select { .. } => NameForm::Other,
        ExprTree::Bits { .. } => NameForm::Other,
        ExprTree::Unary { .. } => NameForm::Other,
        ExprTree::Cast { .. } => NameForm::Other,
        ExprTree::Binary { .. } => NameForm::Other,
        ExprTree::Choice { .. } => NameForm::Other,
    }
}

// The name before an index.
fn indexed_form<'t>(of: &'t ExprTree, at: &'t ExprTree) -> NameForm<'t>
    ensures { IsIndexedForm (out-ExprTree of.now) at.now result }
{
    match of {
        ExprTree::Name(x) => NameForm::Indexed(x, at),
        ExprTree::Index { .. } => NameForm::Other,
        ExprTree::Number { .. } => NameForm::Other,
        ExprTree::Call { .. } => NameForm::Other,
        ExprTree::Port { .. } => NameForm::Other,
        ExprTree::Width { .. } => NameForm::Other,
        ExprTree::Select { .. } => NameForm::Other,
        ExprTree::Bits { .. } => NameForm::Other,
        ExprTree::Unary { .. } => NameForm::Other,
        ExprTree::Cast { .. } => NameForm::Other,
        ExprTree::Binary { .. } => NameForm::Other,
        ExprTree::Choice { .. } => NameForm::Other,
    }
}
