ghost use Rattle.std.specs.Prelude.{◌≡◌, ◌≢◌, ◌<◌, ◌≤◌, length, slice_index, IfOk, All, AllPairs};
ghost use Rattle.std.specs.List.{Contains};
ghost use Rattle.hc_graph.specs.Graph.{IsCycle};
ghost use Rattle.hc_graph.specs.Search.{IsClosed, IsFrom};

use crate::graph::Fork;
use sqlite_items::Items;
use std::alloc::{AllocError, Global};

/// The cycle at the end of a path that leads back to one of its nodes, the least node first.
pub(crate) fn cycle(
    alloc: Global,
    graph: &[Fork],
    path: &[u32],
    back: u32,
) -> Result<Items<u32>, AllocError>
    requires closed { IsClosed graph.now path.now back }
    requires distinct { AllPairs ◌≢◌ path.now }
    ensures { IfOk result (λ nodes. IsCycle graph.now nodes) }
{
    let nodes = from_node(path, back);
    let first = least(nodes);
    let mut cycle = Items::from_slice(alloc, &nodes[first..])?;
    cycle.append(Items::from_slice(alloc, &nodes[..first])?)?;
    Ok(cycle)
}

/// The end of a path, from this node on.
fn from_node(path: &[u32], node: u32) -> &[u32]
    requires { Contains path.now node }
    ensures { IsFrom path.now node result.now }
{
    let mut rest = path;
    while let [first, behind @ ..] = rest {
        if *first == node {
            return rest;
        }
        rest = behind;
    }
    rest
}

/// The index of the least node.
fn least(nodes: &[u32]) -> usize
    requires { 0 < length nodes.now }
    ensures within { result < length nodes.now }
    ensures least { All (λ n. slice_index nodes.now result ≤ n) nodes.now }
{
    let mut at = 0;
    for (i, node) in nodes.iter().enumerate() {
        if *node < nodes[at] {
            at = i;
        }
    }
    at
}
