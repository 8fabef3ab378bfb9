ghost use Rattle.std.specs.Prelude.{◌≡◌, ◌<◌, ◌^◌, length, map, IfOk};
ghost use Rattle.hc_graph.specs.Graph.{IsSorted};
ghost use Rattle.hc_graph.specs.Sort.{rank_of};

use crate::cycle::cycle;
use crate::graph::{Fork, Sorted};
use crate::search::{Mark, Search};
use sqlite_items::Items;
use std::alloc::{AllocError, Global};

/// A number for each node of a graph, below the number of nodes and above those of the nodes that it leads to, or a cycle
/// of the graph where there is one. It takes time and memory in proportion to the number of nodes. The error is want of
/// memory.
pub fn sort(alloc: Global, graph: &[Fork]) -> Result<Sorted, AllocError>
    requires { length graph.now < 2 ^ 32 }
    ensures { IfOk result (λ found. IsSorted graph.now found) }
{
    let mut search = Search::new(alloc, graph)?;
    for node in 0..graph.len() as u32 {
        let back = search.visit(graph, node)?;
        if let Some(back) = back {
            return Ok(Sorted::Cycle(cycle(alloc, graph, search.path.as_slice(), back)?));
        }
    }
    Ok(Sorted::Ranks(ranks(alloc, search.marks.as_slice())?))
}

/// The numbers of marked nodes.
fn ranks(alloc: Global, marks: &[Mark]) -> Result<Items<u32>, AllocError>
    ensures { IfOk result (λ ranks. ranks ≡ map rank_of marks.now) }
{
    let mut ranks = Items::new(alloc);
    for mark in marks {
        ranks.push(rank_of(mark))?;
    }
    Ok(ranks)
}

/// The number of a passed node, and 0 of another.
fn rank_of(mark: &Mark) -> u32
    ensures { result ≡ rank_of mark.now }
{
    match mark {
        Mark::New => 0,
        Mark::Open => 0,
        Mark::Passed(rank) => *rank,
    }
}
