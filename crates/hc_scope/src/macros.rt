ghost use Rattle.std.specs.Prelude.{◌≡◌};
ghost use Rattle.hc_scope.specs.Declaration as declaration;
ghost use Rattle.hc_scope.specs.Expansion.{and_then, pure};
ghost use Rattle.hc_scope.specs.Reading.{declared_of};
ghost use Rattle.hc_scope.specs.Statement as spec;
ghost use Rattle.hc_scope.specs.Table.{context_in, AnswersNames};

use crate::names::{Names, declare};
use crate::scope::{Declared, Scope};
use crate::state::State;
use crate::table::fresh;
use hc_tree::{FrontErr, Ident, Macro, NoMemory, Params, Place};
use std::alloc::Global;

/// Declares a macro, which isn't expanded: S5 at its name where the table has that already.
#[tactic(auto, unfolding(crate::specs::Statement::macro_form))]
pub fn macro_form<'s, 't>(
    alloc: Global,
    state: &State,
    names: &mut Names<'t>,
    around: &'s Scope<'s, 't>,
    calls: u32,
    m: &'t Macro,
) -> Result<(), FrontErr>
    ensures { AnswersNames names.new.entries around.now calls
        (spec.macro_form (context_in names.old.entries around.now calls) m.now state.now) result state.now }
{
    match m {
        Macro::Expr {
            name,
            params,
            value,
            ..
        } => {
            let what = Declared::Expression(parameters(params), value);
            declare_macro(alloc, state, names, around, calls, name, what)
        }
        Macro::Proc {
            name,
            params,
            body,
            ..
        } => {
            let what = Declared::Procedure(params.names.as_slice(), body);
            declare_macro(alloc, state, names, around, calls, name, what)
        }
    }
}

/// The place of a macro, by line and column from 1.
pub fn macro_place(m: &Macro) -> Place
    ensures { result ≡ spec.macro_place m.now }
{
    match m {
        Macro::Expr { place, .. } => *place,
        Macro::Proc { place, .. } => *place,
    }
}

// The parameters of a macro expression, which may have none.
fn parameters(params: &Option<Params>) -> &[Ident]
    ensures { result.now ≡ spec.parameters_of params.now }
{
    match params {
        Some(params) => params.names.as_slice(),
        None => &[],
    }
}

// A macro of this name is declared, which the table may have already.
fn declare_macro<'s, 't>(
    alloc: Global,
    state: &State,
    names: &mut Names<'t>,
    around: &'s Scope<'s, 't>,
    calls: u32,
    x: &'t Ident,
    what: Declared<'t>,
) -> Result<(), FrontErr>
    ensures { let c = context_in names.old.entries around.now calls in
        AnswersNames names.new.entries around.now calls
        (and_then (declaration.fresh c x.now state.now) (λ u. pure (declaration.declaring x.now (declared_of what.entry) c))) result state.now }
{
    match fresh(alloc, state, names, around, calls, x) {
        Ok(()) => match declare(names, x.name.as_bytes(), what) {
            Ok(()) => Ok(()),
            Err(NoMemory) => Err(FrontErr::NoMemory),
        },
        Err(e) => Err(e),
    }
}
