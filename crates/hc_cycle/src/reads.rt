//! What is read in an expression and in a target, and the words of RAMs and ROMs that are accessed there. The recursion is as
//! deep as an expression is nested.

ghost use Rattle.std.specs.Prelude.{◌≡◌, ◌∷◌, ◌++◌, ℕ, IfOk, OnOk};
ghost use Rattle.hc_core.specs.Read.{expression, target};
ghost use Rattle.hc_core.specs.Instant.{deps};
ghost use Rattle.hc_core.specs.Depends.{accesses, access_needs, target_accesses};
ghost use Rattle.hc_cycle.specs.Sets.{Accesses, Adds, AreRead};

use crate::sets::{Gather, Set};
use hc_core::{Expr, Target};
use hc_tree::{NoMemory, Node};

impl Gather {
    /// The nodes that are read in an expression, whose words are accessed where these nodes decide it.
    pub(crate) fn read(&mut self, start: Set, e: &Expr) -> Result<Set, NoMemory>
        ensures { IfOk result (λ s. AreRead self.old self.new start s (expression e.now)) }
    {
        match e {
            Expr::Const(_) => Ok(Set::Empty),
            Expr::Reg(_) => Ok(Set::Empty),
            Expr::Input(_) => Ok(Set::Empty),
            Expr::Signal(k) => Ok(Set::One(Node::Value(*k))),
            Expr::Element(_, i) => self.read(start, i.get()),
            Expr::Word(k, i) => {
                let index = self.read(start, i.get())?;
                self.access(start, *k, index)?;
                self.union(Set::One(Node::Value(*k)), index)
            }
            Expr::Unary(_, a) => self.read(start, a.get()),
            Expr::Slice(a, _, _) => self.read(start, a.get()),
            Expr::Binary(_, a, b) => {
                let a = self.read(start, a.get())?;
                let b = self.read(start, b.get())?;
                self.union(a, b)
            }
            Expr::Choice(c, a, b) => {
                let c = self.read(start, c.get())?;
                let a = self.read(start, a.get())?;
                let b = self.read(start, b.get())?;
                let both = self.union(c, a)?;
                self.union(both, b)
            }
        }
    }

    /// A RAM or ROM is accessed at an index that reads a set.
    fn access(&mut self, start: Set, memory: u32, index: Set) -> Result<(), NoMemory>
        ensures { OnOk result (Accesses self.old self.new start memory index) }
    {
        let on = self.union(start, index)?;
        self.need(Node::Value(memory), on)
    }

    /// The words that are accessed in a target.
    pub(crate) fn target(&mut self, start: Set, t: &Target) -> Result<(), NoMemory>
        ensures { OnOk result (Adds self.old self.new start (λ xs. access_needs xs (target_accesses (target t.now)))) }
    {
        match t {
            Target::Reg(_) => Ok(()),
            Target::Signal(_) => Ok(()),
            Target::Element(_, i) => {
                self.read(start, i)?;
                Ok(())
            }
            Target::Word(k, i) => {
                let index = self.read(start, i)?;
                self.access(start, *k, index)
            }
        }
    }
}
