ghost use Rattle.std.specs.Prelude.{◌≡◌, ◌+◌, ◌*◌, ◌<◌, ◌^◌, ℕ, [], ◌∷◌, ◌++◌, length, slice_get, IfOk, OnOk, MatchOption, true, false};
ghost use Rattle.hc_graph.specs.Graph.{AreRanks, Leads};
ghost use Rattle.hc_graph.specs.Search.{Chain, IsSearch, IsNext, IsWaiting, IsClosed, IsPassed, LeadsToPassed, KeepsMet, new_marks};

use crate::graph::Fork;
use sqlite_items::{Items, at};
use std::alloc::{AllocError, Global};

/// How far the search has come with a node.
#[derive(Clone, Copy, Debug, PartialEq, Eq)]
pub(crate) enum Mark {
    /// Not met yet.
    New,
    /// On the path.
    Open,
    /// Passed, as are the nodes that it leads to, with its number.
    Passed(u32),
}

/// A search in depth: the mark of each node, the path to the node that is looked at, and how many nodes are passed.
#[derive(Debug, Drop)]
pub(crate) struct Search {
    pub(crate) marks: Items<Mark>,
    pub(crate) path: Items<u32>,
    pub(crate) passed: u32,
}

impl Search {
    /// The search before the first step.
    pub(crate) fn new(alloc: Global, graph: &[Fork]) -> Result<Search, AllocError>
        ensures search { IfOk result (λ s. IsSearch graph.now s.marks s.path s.passed) }
        ensures path { IfOk result (λ s. s.path ≡ []) }
    {
        let mut marks = Items::new(alloc);
        for _fork in graph {
            marks.push(Mark::New)?;
        }
        Ok(Search {
            marks,
            path: Items::new(alloc),
            passed: 0,
        })
    }

    /// Puts a node that is new on the path.
    pub(crate) fn enter(&mut self, graph: &[Fork], node: u32) -> Result<(), AllocError>
        requires search { IsSearch graph.now self.old.marks self.old.path self.old.passed }
        requires new { slice_get self.old.marks node ≡ Some Mark.New }
        requires chain { Chain graph.now (self.old.path ++ node ∷ []) }
        ensures search { OnOk result (IsSearch graph.now self.new.marks self.new.path self.new.passed) }
        ensures path { OnOk result (self.new.path ≡ self.old.path ++ node ∷ []) }
        ensures fewer { OnOk result (new_marks self.new.marks + 1 ≡ new_marks self.old.marks) }
        ensures kept { OnOk result (KeepsMet self.old.marks self.new.marks) }
        ensures met { OnOk result (slice_get self.new.marks node ≡ Some Mark.Open) }
    {
        self.path.push(node)?;
        self.marks.set(node as usize, Mark::Open);
        Ok(())
    }

    /// Passes a node that was the last on the path, and that leads to passed nodes alone.
    fn leave(&mut self, graph: &[Fork], node: u32)
        requires few { length graph.now < 2 ^ 32 }
        requires search { IsSearch graph.now self.old.marks (self.old.path ++ node ∷ []) self.old.passed }
        requires passed { LeadsToPassed graph.now self.old.marks node }
        ensures search { IsSearch graph.now self.new.marks self.new.path self.new.passed }
        ensures path { self.new.path ≡ self.old.path }
        ensures as_many { new_marks self.new.marks ≡ new_marks self.old.marks }
        ensures kept { KeepsMet self.old.marks self.new.marks }
    {
        self.marks.set(node as usize, Mark::Passed(self.passed));
        self.passed += 1;
    }

    /// One step from a node that was the last on the path: to a node that is new, or back where all that it leads to is
    /// passed. Some where it leads to a node of the path.
    fn step(&mut self, graph: &[Fork], node: u32) -> Result<Option<u32>, AllocError>
        requires few { length graph.now < 2 ^ 32 }
        requires search { IsSearch graph.now self.old.marks (self.old.path ++ node ∷ []) self.old.passed }
        ensures search { OnOk result (IsSearch graph.now self.new.marks self.new.path self.new.passed) }
        ensures kept { OnOk result (KeepsMet self.old.marks self.new.marks) }
        ensures goes { IfOk result (λ r. MatchOption r (2 * new_marks self.new.marks + length self.new.path < 2 * new_marks self.old.marks + (length self.old.path + 1)) (λ back. IsClosed graph.now self.new.path back)) }
    {
        match next(graph, self.marks.as_slice(), node) {
            None => {
                self.leave(graph, node);
                Ok(None)
            }
            Some(next) => {
                self.path.push(node)?;
                if is_open(self.marks.as_slice(), next) {
                    return Ok(Some(next));
                }
                self.enter(graph, next)?;
                Ok(None)
            }
        }
    }

    /// Passes a node and all that it leads to, unless it is met, or stops where a node leads to one of the path.
    pub(crate) fn visit(&mut self, graph: &[Fork], node: u32) -> Result<Option<u32>, AllocError>
        requires few { length graph.now < 2 ^ 32 }
        requires search { IsSearch graph.now self.old.marks self.old.path self.old.passed }
        requires path { self.old.path ≡ [] }
        ensures search { OnOk result (IsSearch graph.now self.new.marks self.new.path self.new.passed) }
        ensures kept { OnOk result (KeepsMet self.old.marks self.new.marks) }
        ensures end { IfOk result (λ r. MatchOption r (self.new.path ≡ []) (λ back. IsClosed graph.now self.new.path back)) }
        ensures met { OnOk result (slice_get self.new.marks node ≡ Some Mark.New → ⊥) }
    {
        match mark_of(self.marks.as_slice(), node) {
            Some(Mark::New) => {
                self.enter(graph, node)?;
                self.run(graph)
            }
            Some(Mark::Open) => Ok(None),
            Some(Mark::Passed(_)) => Ok(None),
            None => Ok(None),
        }
    }

    /// Goes on until no node is on the path, or until a node leads to one of the path.
    pub(crate) fn run(&mut self, graph: &[Fork]) -> Result<Option<u32>, AllocError>
        requires few { length graph.now < 2 ^ 32 }
        requires search { IsSearch graph.now self.old.marks self.old.path self.old.passed }
        ensures search { OnOk result (IsSearch graph.now self.new.marks self.new.path self.new.passed) }
        ensures kept { OnOk result (KeepsMet self.old.marks self.new.marks) }
        ensures end { IfOk result (λ r. MatchOption r (self.new.path ≡ []) (λ back. IsClosed graph.now self.new.path back)) }
    {
        while let Some(node) = self.path.pop() {
            let back = self.step(graph, node)?;
            if back.is_some() {
                return Ok(back);
            }
        }
        Ok(None)
    }
}

/// A node that this one leads to and that isn't passed, or None where there is none.
fn next(graph: &[Fork], marks: &[Mark], node: u32) -> Option<u32>
    requires size { length marks.now ≡ length graph.now }
    requires there { node < length graph.now }
    ensures { MatchOption result (LeadsToPassed graph.now marks.now node) (λ next. IsNext graph.now marks.now node next) }
{
    let fork = graph[node as usize];
    match waiting(marks, fork.first) {
        Some(next) => Some(next),
        None => waiting(marks, fork.second),
    }
}

/// The node, if there is one that isn't passed.
fn waiting(marks: &[Mark], node: Option<u32>) -> Option<u32>
    ensures { MatchOption result (IsPassed marks.now node) (λ b. (node ≡ Some b) × IsWaiting marks.now b) }
{
    match node {
        None => None,
        Some(b) => match mark_of(marks, b) {
            None => None,
            Some(Mark::Passed(_)) => None,
            Some(Mark::New) => Some(b),
            Some(Mark::Open) => Some(b),
        },
    }
}

/// Whether a node is on the path.
fn is_open(marks: &[Mark], node: u32) -> bool
    ensures yes { result ≡ true → slice_get marks.now node ≡ Some Mark.Open }
    ensures no { result ≡ false → IsWaiting marks.now node → slice_get marks.now node ≡ Some Mark.New }
{
    match mark_of(marks, node) {
        Some(Mark::Open) => true,
        Some(Mark::New) => false,
        Some(Mark::Passed(_)) => false,
        None => false,
    }
}

/// The mark of a node, or None where the graph doesn't have it.
pub(crate) fn mark_of(marks: &[Mark], node: u32) -> Option<Mark>
    ensures { result ≡ slice_get marks.now node }
{
    at(marks, node as usize).copied()
}
