ghost use Rattle.std.specs.Prelude.{◌≡◌, ◌≢◌, ℕ, ◌+◌, [], length};
ghost use Rattle.hc_tree.specs.declared.refusal.FrontErr.TheVariants.{Refused};
ghost use Rattle.hc_tree.specs.declared.refusal.Rule.TheVariants.{S7};
ghost use Rattle.hc_tree.specs.declared.refusal.Detail.TheVariants.{Pair};
ghost use Rattle.hc_scope.specs.Expression as spec;
ghost use Rattle.hc_scope.specs.Calls.{IsNoted};
ghost use Rattle.hc_scope.specs.Reading.{scope_of, context_of, Answers};
ghost use Rattle.hc_scope.specs.declared.state.State as the_state;

use crate::refusal::broken_name;
use crate::scope::Scope;
use hc_tree::{Detail, ExprTree, FrontErr, Ident, Refusal, Rule};
use indexmap::IndexSet;
use std::alloc::Global;

/// The scope of a macro's body: S5 at the second of two equal parameters, then S7 at the call's name where the call has another
/// number of arguments.
pub fn call_scope<'s, 't>(
    alloc: Global,
    scope: &'s Scope<'s, 't>,
    x: &Ident,
    parameters: &'t [Ident],
    around: &'s Scope<'s, 't>,
    arguments: &'t [ExprTree],
) -> Result<Scope<'s, 't>, FrontErr>
    ensures { (calls : ℕ) (s : the_state.State) → Answers (λ inner. context_of inner (calls + 1))
        (spec.call_context (context_of scope.now calls) x.now parameters.now (scope_of around.now) arguments.now s) result s }
{
    match differ(alloc, parameters) {
        Ok(()) => {
            if arguments.len() == parameters.len() {
                Ok(Scope::Binds(parameters, arguments, scope, around))
            } else {
                Err(wrong_number(x, arguments.len(), parameters.len()))
            }
        }
        Err(e) => Err(e),
    }
}

// S7: so many arguments where so many are wanted.
fn wrong_number(x: &Ident, found: usize, wanted: usize) -> FrontErr
    ensures { result ≡ Refused (record { rule = S7; place = x.now.place; detail = Pair found wanted }) }
{
    FrontErr::Refused(Refusal {
        rule: Rule::S7,
        place: x.place,
        detail: Detail::Pair(found as u128, wanted as u128),
    })
}

// The first parameter that has the name of one before it breaks S5.
fn differ(alloc: Global, parameters: &[Ident]) -> Result<(), FrontErr>
    ensures { (s : the_state.State) → Answers (λ u. u) (spec.differ_from [] parameters.now s) result s }
{
    let mut names = IndexSet::new(alloc);
    for x in parameters {
        match note(alloc, &mut names, x) {
            Ok(()) => (),
            Err(e) => return Err(e),
        }
    }
    Ok(())
}

// One more parameter, whose name is to differ from those before it.
fn note<'t>(alloc: Global, names: &mut IndexSet<&'t [u8]>, x: &'t Ident) -> Result<(), FrontErr>
    ensures { IsNoted x.now names.old.keys names.new.keys result }
{
    match names.insert(x.name.as_bytes()) {
        Ok(added) => {
            if added {
                Ok(())
            } else {
                Err(broken_name(alloc, Rule::S5, x))
            }
        }
        Err(_value) => Err(FrontErr::NoMemory),
    }
}
