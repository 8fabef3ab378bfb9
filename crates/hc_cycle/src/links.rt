//! The dependencies of a core as one graph: its nodes by their numbers, and behind them the unions of sets.

ghost use Rattle.std.specs.Prelude.{◌≡◌, ◌<◌, ◌+◌, ◌-◌, ◌*◌, ◌^◌, ℕ, [], ◌∷◌, ◌++◌, List, Option, length, map, slice_get, IfOk, OnOk};
ghost use Rattle.hc_core.specs.Depends.{Need};
ghost use Rattle.hc_cycle.specs.Sets.{Extends};
ghost use Rattle.hc_cycle.specs.Links.{AddsHead, Aligned, AreBelow, AreHeads, HasHeads, IsBelow, IsGraphOf, head_fork, number_in, union_fork};

use crate::ranks::number_of;
use crate::sets::{Gather, MOST, Set};
use hc_core::{Core, Object};
use hc_graph::Fork;
use hc_tree::{NoMemory, Node};
use sqlite_items::{Items, at};
use std::alloc::Global;

/// The unions of sets, and for each node of a core, by its number, the set of nodes that it depends on.
#[derive(Debug, Drop)]
pub(crate) struct Links {
    pub(crate) table: Items<Option<(Set, Set)>>,
    pub(crate) heads: Items<Set>,
}

/// What the nodes of a core depend on.
pub(crate) fn linked(alloc: Global, core: &Core) -> Result<Links, NoMemory>
    ensures heads { IfOk result (λ l. HasHeads core.now l.table l.heads) }
    ensures size { IfOk result (λ l. length l.heads ≡ 3 * length core.now.objects) }
{
    let mut gather = Gather {
        table: Items::new(alloc),
        needs: Items::new(alloc),
    };
    gather.visit(Set::Empty, &core.main)?;
    let Gather { table, needs } = gather;
    let mut unions = Gather {
        table,
        needs: Items::new(alloc),
    };
    let none = no_sets(alloc, core.objects.as_slice())?;
    let heads = unions.heads(none, needs.as_slice())?;
    Ok(Links {
        table: unions.table,
        heads,
    })
}

/// No set for each of the nodes that these objects may have.
fn no_sets(alloc: Global, objects: &[Object]) -> Result<Items<Set>, NoMemory>
    ensures size { IfOk result (λ sets. length sets ≡ 3 * length objects.now) }
    ensures empty { IfOk result (λ sets. (k : ℕ) (s : Set) → slice_get sets k ≡ Some s → s ≡ Set.Empty) }
{
    let mut sets = Items::new(alloc);
    for _object in objects {
        add_none(&mut sets)?;
        add_none(&mut sets)?;
        add_none(&mut sets)?;
    }
    Ok(sets)
}

/// One more set that is empty.
fn add_none(sets: &mut Items<Set>) -> Result<(), NoMemory>
    ensures { OnOk result (sets.new ≡ sets.old ++ Set.Empty ∷ []) }
{
    match sets.push(Set::Empty) {
        Ok(()) => Ok(()),
        Err(_) => Err(NoMemory),
    }
}

impl Gather {
    /// The sets of nodes, by their numbers, with what all of these pairs add.
    fn heads(&mut self, none: Items<Set>, pairs: &[(Node, Set)]) -> Result<Items<Set>, NoMemory>
        requires { (k : ℕ) (s : Set) → slice_get none k ≡ Some s → s ≡ Set.Empty }
        ensures heads { IfOk result (λ heads. (needs : List Need) → Aligned self.old.table pairs.now needs → AreHeads self.new.table heads needs) }
        ensures size { IfOk result (λ heads. length heads ≡ length none) }
    {
        let mut heads = none;
        for pair in pairs {
            self.add_head(&mut heads, *pair)?;
        }
        Ok(heads)
    }

    /// A set is added to that of a node. A node that is of no object of the core has none.
    fn add_head(&mut self, heads: &mut Items<Set>, pair: (Node, Set)) -> Result<(), NoMemory>
        ensures { OnOk result (AddsHead self.old self.new heads.old heads.new pair) }
    {
        let (node, on) = pair;
        let index = number_of(node) as usize;
        match at(heads.as_slice(), index).copied() {
            None => Err(NoMemory),
            Some(before) => {
                let after = self.union(before, on)?;
                heads.set(index, after);
                Ok(())
            }
        }
    }
}

/// The graph of these sets and unions. A set with a node of no object of the core has no place in it.
pub(crate) fn graph(
    alloc: Global,
    heads: &[Set],
    table: &[Option<(Set, Set)>],
) -> Result<Items<Fork>, NoMemory>
    ensures graph { IfOk result (λ g. IsGraphOf heads.now table.now g) }
    ensures few { IfOk result (λ g. length g < 2 ^ 31 - 1) }
    ensures few_heads { IfOk result (λ g. length heads.now < 2 ^ 30) }
{
    if heads.len() >= MOST || table.len() >= MOST {
        return Err(NoMemory);
    }
    let base = heads.len() as u32;
    let mut forks = Items::new(alloc);
    add_heads(&mut forks, base, heads)?;
    add_unions(&mut forks, base, table)?;
    Ok(forks)
}

/// Where the nodes lead to.
fn add_heads(forks: &mut Items<Fork>, base: u32, heads: &[Set]) -> Result<(), NoMemory>
    requires { base < 2 ^ 30 }
    ensures forks { OnOk result (forks.new ≡ forks.old ++ map (head_fork base) heads.now) }
    ensures below { OnOk result ((k : ℕ) (s : Set) → slice_get heads.now k ≡ Some s → IsBelow base s) }
{
    for set in heads {
        let fork = head_fork(base, *set)?;
        add(forks, fork)?;
    }
    Ok(())
}

/// Where a node leads to that has a set.
fn head_fork(base: u32, set: Set) -> Result<Fork, NoMemory>
    requires { base < 2 ^ 30 }
    ensures fork { IfOk result (λ f. f ≡ head_fork base set) }
    ensures below { IfOk result (λ f. IsBelow base set) }
{
    let first = number_in(base, set)?;
    Ok(Fork {
        first,
        second: None,
    })
}

/// Where the unions lead to.
fn add_unions(
    forks: &mut Items<Fork>,
    base: u32,
    table: &[Option<(Set, Set)>],
) -> Result<(), NoMemory>
    requires { base < 2 ^ 30 }
    ensures forks { OnOk result (forks.new ≡ forks.old ++ map (union_fork base) table.now) }
    ensures below { OnOk result ((k : ℕ) (u : Option (Set × Set)) → slice_get table.now k ≡ Some u → AreBelow base u) }
{
    for union in table {
        let fork = union_fork(base, *union)?;
        add(forks, fork)?;
    }
    Ok(())
}

/// Where a union leads to.
fn union_fork(base: u32, union: Option<(Set, Set)>) -> Result<Fork, NoMemory>
    requires { base < 2 ^ 30 }
    ensures fork { IfOk result (λ f. f ≡ union_fork base union) }
    ensures below { IfOk result (λ f. AreBelow base union) }
{
    match union {
        None => Ok(Fork {
            first: None,
            second: None,
        }),
        Some((a, b)) => {
            let first = number_in(base, a)?;
            let second = number_in(base, b)?;
            Ok(Fork { first, second })
        }
    }
}

/// One more node of a graph.
fn add(forks: &mut Items<Fork>, fork: Fork) -> Result<(), NoMemory>
    ensures { OnOk result (forks.new ≡ forks.old ++ fork ∷ []) }
{
    match forks.push(fork) {
        Ok(()) => Ok(()),
        Err(_) => Err(NoMemory),
    }
}

/// The number of a set in a graph, if it isn't empty.
fn number_in(base: u32, set: Set) -> Result<Option<u32>, NoMemory>
    requires { base < 2 ^ 30 }
    ensures number { IfOk result (λ v. v ≡ number_in base set) }
    ensures below { IfOk result (λ v. IsBelow base set) }
{
    match set {
        Set::Empty => Ok(None),
        Set::One(node) => {
            let number = number_of(node);
            if number < u64::from(base) {
                Ok(Some(number as u32))
            } else {
                Err(NoMemory)
            }
        }
        Set::Union(k) => {
            if k < 1 << 30 {
                Ok(Some(base + k))
            } else {
                Err(NoMemory)
            }
        }
    }
}
