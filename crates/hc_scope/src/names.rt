ghost use Rattle.std.specs.Prelude.{◌≡◌, ◌<◌, ℕ, List, false, None, IfSome, OnOk, OnErr};
ghost use Rattle.hc_scope.specs.Marks.{mark_of};
ghost use Rattle.hc_scope.specs.Scope.{Scope as Chain, declared, is_declared};
ghost use Rattle.hc_scope.specs.Reading.{scope_of, scope_in, declared_of};
ghost use Rattle.hc_scope.specs.Places.{IsAmong};

use crate::marked::{Marked, mark};
use crate::scope::{Declared, Scope};
use hc_tree::NoMemory;
use indexmap::IndexMap;

/// The names of one scope, in the order of their declarations.
pub type Names<'t> = Marked<'t, Declared<'t>>;

/// The index of a name with this mark among the first so many names of a scope, with what it stands for.
pub(crate) fn find_among<'t>(
    names: &Names<'t>,
    seen: usize,
    name: &[u8],
    mark: u32,
) -> Option<(usize, Declared<'t>)>
    requires mark { mark ≡ mark_of name.now }
    requires small { mark < 64 }
    ensures among { IsAmong name.now names.now.entries seen result }
    ensures within { IfSome result (λ p. p.0 < seen) }
{
    if is_marked(names, mark) {
        find_in(&names.table, seen, name)
    } else {
        None
    }
}

/// Whether a scope may have a name with this mark.
pub(crate) fn is_marked<'t>(names: &Names<'t>, mark: u32) -> bool
    requires { mark < 64 }
    ensures { result ≡ false → (name : List ℕ) (seen : ℕ) → mark ≡ mark_of name → IsAmong name names.now.entries seen None }
{
    (names.marks >> mark) % 2 == 1
}

/// The same in the table.
fn find_in<'t>(
    names: &IndexMap<&'t [u8], Declared<'t>>,
    seen: usize,
    name: &[u8],
) -> Option<(usize, Declared<'t>)>
    ensures among { IsAmong name.now names.now.entries seen result }
    ensures within { IfSome result (λ p. p.0 < seen) }
{
    // The number of names is asked for its clause that the keys differ.
    let _len = names.len();
    match names.get_full(name) {
        Some((at, _key, declared)) => {
            if at < seen {
                Some((at, *declared))
            } else {
                None
            }
        }
        None => None,
    }
}

/// The scope of all names of a table so far, within another one.
pub fn all_of<'s, 't>(names: &'s Names<'t>, around: &'s Scope<'s, 't>) -> Scope<'s, 't>
    ensures { scope_of result ≡ scope_in names.now.entries (scope_of around.now) }
{
    Scope::Declares(names, names.count(), around)
}

/// Declares a name that its scope doesn't have yet.
pub fn declare<'t>(
    names: &mut Names<'t>,
    name: &'t [u8],
    what: Declared<'t>,
) -> Result<(), NoMemory>
    // The scope behind the declaration, within any other one.
    ensures added { OnOk result ((around : Chain) → is_declared name.now (scope_in names.old.entries around) ≡ false
        → scope_in names.new.entries around ≡ declared name.now (declared_of what.entry) (scope_in names.old.entries around)) }
    ensures kept { OnErr result (names.new.entries ≡ names.old.entries) }
{
    let place = mark(name);
    match names.table.insert(name, what) {
        Ok(_old) => {
            names.marks |= 1 << place;
            Ok(())
        }
        Err(_pair) => Err(NoMemory),
    }
}
