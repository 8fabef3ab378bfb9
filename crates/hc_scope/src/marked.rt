ghost use Rattle.std.specs.Prelude.{◌≡◌, ◌<◌, [], length};
ghost use Rattle.hc_scope.specs.Marks.{mark_of};

use indexmap::IndexMap;
use std::alloc::Global;
use std::marker::Model;

/// Names with what each stands for, in the order of their declarations.
#[derive(Drop)]
pub struct Marked<'t, V> {
    pub(crate) table: IndexMap<&'t [u8], V>,
    // A bit for the mark of each name. A name whose bit isn't set is not there, so that a look-up passes over most scopes of
    // a chain without asking their tables.
    pub(crate) marks: u64,
}

impl<'t, V> Model for Marked<'t, V> {
    ghost use Rattle.hc_scope.specs.Marks.{Table, HasMarks};

    ghost Value = { Table V };

    ghost view = { λ n. record { entries = n.table.entries } };

    ghost invariant = { λ n. HasMarks n.marks n.table.entries };
}

/// The mark of a name, from 0 to 63.
pub(crate) fn mark(name: &[u8]) -> u32
    ensures mark { result ≡ mark_of name.now }
    ensures small { result < 64 }
{
    if name.is_empty() {
        return 0;
    }
    let first = name[0] as usize;
    let last = name[name.len() - 1] as usize;
    ((first + 5 * last + 11 * (name.len() % 64)) % 64) as u32
}

impl<'t, V> Marked<'t, V> {
    /// No names.
    pub fn new(alloc: Global) -> Marked<'t, V>
        ensures { result.entries ≡ [] }
    {
        Marked {
            table: IndexMap::new(alloc),
            marks: 0,
        }
    }

    /// How many names there are.
    pub(crate) fn count(&self) -> usize
        ensures { result ≡ length self.now.entries }
    {
        self.table.len()
    }
}
