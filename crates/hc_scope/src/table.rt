ghost use Rattle.std.specs.Prelude.{◌≡◌, false, OnOk};
ghost use Rattle.hc_scope.specs.Declaration as spec;
ghost use Rattle.hc_scope.specs.Reading.{scope_of, Answers};
ghost use Rattle.hc_scope.specs.Scope as s;
ghost use Rattle.hc_scope.specs.Table.{context_in};
ghost use Rattle.hc_scope.specs.Reading.{scope_in};

use crate::names::Names;
use crate::refusal::broken_name;
use crate::scope::Scope;
use crate::state::State;
use hc_tree::{FrontErr, Ident, Rule};
use std::alloc::Global;

/// Whether a name may be declared: S5 at the name where the table declares it already.
pub fn fresh<'s, 't>(
    alloc: Global,
    state: &State,
    names: &Names<'t>,
    around: &Scope<'s, 't>,
    calls: u32,
    x: &Ident,
) -> Result<(), FrontErr>
    ensures answers { Answers (λ u. u) (spec.fresh (context_in names.now.entries around.now calls) x.now state.now) result state.now }
    ensures new { OnOk result ((outer : s.Scope) → s.is_declared x.now.name (scope_in names.now.entries outer) ≡ false) }
{
    if declares(names, x.name.as_bytes()) {
        Err(broken_name(alloc, Rule::S5, x))
    } else {
        Ok(())
    }
}

// Whether a table declares a name.
fn declares<'t>(names: &Names<'t>, name: &[u8]) -> bool
    ensures { (outer : s.Scope) → result ≡ s.is_declared name.now (scope_in names.now.entries outer) }
{
    names.table.contains_key(name)
}
