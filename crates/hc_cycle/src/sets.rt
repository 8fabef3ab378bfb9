ghost use Rattle.std.specs.Prelude.{◌≡◌, ◌&&◌, ◌||◌, [], ◌∷◌, ◌++◌, IfOk, OnOk, slice_get, Some, None, true, false};
ghost use Rattle.hc_cycle.specs.Sets.{Adds, Beside, Decided, Fills, Follows, Joins, Keeps, StartsBehind};

use hc_tree::{NoMemory, Node};
use sqlite_items::Items;

/// A set of nodes.
#[derive(Clone, Copy, Debug, PartialEq, Eq)]
pub(crate) enum Set {
    /// No node.
    Empty,
    /// One node.
    One(Node),
    /// The union of two sets, by its number in the table.
    Union(u32),
}

/// What decides that a statement is passed and that it finishes, and whether it may take no clock.
#[derive(Clone, Copy, Debug, PartialEq, Eq)]
pub(crate) struct Ends {
    pub(crate) zero: bool,
    pub(crate) pass: Set,
    pub(crate) finish: Set,
}

/// The dependencies that were met: the unions of sets, of which a number may be kept for later, and pairs of a node and
/// the set that it depends on.
#[derive(Debug, Drop)]
pub(crate) struct Gather {
    pub(crate) table: Items<Option<(Set, Set)>>,
    pub(crate) needs: Items<(Node, Set)>,
}

/// How many unions a table may have.
pub(crate) const MOST: usize = 1 << 30;

impl Gather {
    /// The union of two sets.
    pub(crate) fn union(&mut self, a: Set, b: Set) -> Result<Set, NoMemory>
        ensures { IfOk result (λ s. Joins self.old self.new a b s) }
    {
        match (a, b) {
            (Set::Empty, b) => Ok(b),
            (a, Set::Empty) => Ok(a),
            (a, b) => self.enter(a, b),
        }
    }

    /// A union in the table.
    fn enter(&mut self, a: Set, b: Set) -> Result<Set, NoMemory>
        ensures { IfOk result (λ s. Joins self.old self.new a b s) }
    {
        let at = self.table.len();
        if at >= MOST {
            return Err(NoMemory);
        }
        match self.table.push(Some((a, b))) {
            Ok(()) => Ok(Set::Union(at as u32)),
            Err(_) => Err(NoMemory),
        }
    }

    /// A number that is kept for a union.
    pub(crate) fn keep(&mut self) -> Result<u32, NoMemory>
        ensures { IfOk result (λ at. Keeps self.old self.new at) }
    {
        let at = self.table.len();
        if at >= MOST {
            return Err(NoMemory);
        }
        match self.table.push(None) {
            Ok(()) => Ok(at as u32),
            Err(_) => Err(NoMemory),
        }
    }

    /// A number that was kept is that of this union.
    pub(crate) fn fill(&mut self, at: u32, a: Set, b: Set)
        requires { slice_get self.old.table at ≡ Some None }
        ensures { Fills self.old self.new at a b }
    {
        self.table.set(at as usize, Some((a, b)));
    }

    /// The ends of two statements together, which may take no clock where this is so.
    pub(crate) fn beside(&mut self, zero: bool, a: Ends, b: Ends) -> Result<Ends, NoMemory>
        ensures { IfOk result (λ e. Beside self.old self.new zero a b e) }
    {
        let pass = self.union(a.pass, b.pass)?;
        let finish = self.union(a.finish, b.finish)?;
        Ok(Ends { zero, pass, finish })
    }

    /// The ends of a statement of which a set too decides the pass, where it has one.
    pub(crate) fn decided(&mut self, read: Set, ends: Ends) -> Result<Ends, NoMemory>
        ensures { IfOk result (λ e. Decided self.old self.new read ends e) }
    {
        let pass = self.union(read, ends.pass)?;
        Ok(Ends {
            zero: ends.zero,
            pass: where_it(ends.zero, pass),
            finish: ends.finish,
        })
    }

    /// What decides the start of a part of a sequence behind the parts before it.
    pub(crate) fn start_behind(&mut self, start: Set, before: Ends) -> Result<Set, NoMemory>
        ensures { IfOk result (λ s. StartsBehind self.old self.new start before s) }
    {
        let passed = self.union(start, before.pass)?;
        self.union(before.finish, where_it(before.zero, passed))
    }

    /// The ends of the parts of a sequence up to one more.
    pub(crate) fn follow(&mut self, before: Ends, next: Ends) -> Result<Ends, NoMemory>
        ensures { IfOk result (λ e. Follows self.old self.new before next e) }
    {
        let passed = self.union(before.pass, next.pass)?;
        let earlier = self.union(before.finish, next.pass)?;
        let finish = self.union(next.finish, where_it(next.zero, earlier))?;
        let zero = both(before.zero, next.zero);
        Ok(Ends {
            zero,
            pass: where_it(zero, passed),
            finish,
        })
    }

    /// A node depends on a set.
    pub(crate) fn need(&mut self, node: Node, on: Set) -> Result<(), NoMemory>
        ensures { OnOk result (Adds self.old self.new on (λ xs. record { node = node; on = xs } ∷ [])) }
    {
        match self.needs.push((node, on)) {
            Ok(()) => Ok(()),
            Err(_) => Err(NoMemory),
        }
    }
}

/// Whether both hold.
pub(crate) fn both(a: bool, b: bool) -> bool
    ensures { result ≡ (a && b) }
{
    a && b
}

/// Whether one of two holds.
pub(crate) fn either(a: bool, b: bool) -> bool
    ensures { result ≡ (a || b) }
{
    a || b
}

/// The ends of what isn't passed by a value of the clock and finishes by none.
pub(crate) fn no_end(zero: bool) -> Ends
    ensures { result ≡ record { zero = zero; pass = Set.Empty; finish = Set.Empty } }
{
    Ends {
        zero,
        pass: Set::Empty,
        finish: Set::Empty,
    }
}

/// The set where it holds, and else none.
pub(crate) fn where_it(holds: bool, set: Set) -> Set
    ensures yes { holds ≡ true → result ≡ set }
    ensures no { holds ≡ false → result ≡ Set.Empty }
{
    if holds { set } else { Set::Empty }
}

/// The partners of cases, and what decides that they finish.
#[derive(Clone, Copy, Debug, PartialEq, Eq)]
pub(crate) struct CaseEnds {
    pub(crate) partners: Set,
    pub(crate) finish: Set,
}

/// The ends of arms of which one may take no clock, and whether one has the label `default`.
#[derive(Clone, Copy, Debug, PartialEq, Eq)]
pub(crate) struct ArmEnds {
    pub(crate) ends: Ends,
    pub(crate) other: bool,
}
