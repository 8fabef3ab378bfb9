ghost use Rattle.std.specs.Prelude.{◌≡◌, ◌<◌, ◌*◌, ◌-◌, ◌^◌, ℕ, [], ◌∷◌, ◌++◌, map, All, Some, true, IfOk, IfErr, OnOk, slice_get, slice_index, length};
ghost use Rattle.hc_tree.specs.declared.refusal.Node.{Node};
ghost use Rattle.hc_core.specs.Instant.{kind_nodes, nodes_from};
ghost use Rattle.hc_core.specs.Typed.{kinds_of};
ghost use Rattle.hc_core.specs.Depends.{nodes_of, Cyclic, IsCycle, IsOrder};
ghost use Rattle.hc_cycle.specs.Ranks.{number_of};
ghost use Rattle.hc_cycle.specs.Links.{node_of, nodes_in, ranked};
ghost use Rattle.hc_cycle.specs.Found.{AddsName, IsDeclaredAt, IsFound, IsNamed, ShowsCycle, has_node, is_value};
ghost use Rattle.hc_cycle.specs.Order.{IfRefused, NamesCycle, NamesNodes, object_of};

use crate::links::{graph, linked};
use crate::ranks::{Ranks, number_of};
use hc_core::{Core, Kind, Object};
use hc_graph::{Sorted, sort};
use hc_tree::{Detail, FrontErr, Name, NoMemory, Node, Place, Refusal, Rule};
use sqlite_items::{Items, at};
use std::alloc::Global;

/// An order of what has a value within a clock: signals, RAMs and ROMs, and the plain sends and receives of channels. Where
/// such a node depends on itself, the core is refused by S17, with a cycle of nodes from the least one on, at the declaration
/// of its object. It takes time and memory in proportion to the size of the core. The rule is this project's own.
pub fn order(alloc: Global, core: &Core) -> Result<Ranks, FrontErr>
    ensures order { IfOk result (λ ranks. IsOrder core.now ranks) }
    ensures no_cycle { IfOk result (λ ranks. Cyclic core.now → ⊥) }
    ensures refused { IfErr result (λ e. IfRefused e (NamesCycle core.now)) }
    ensures nodes { IfErr result (λ e. IfRefused e (NamesNodes core.now)) }
{
    match sorted(alloc, core) {
        Err(NoMemory) => Err(FrontErr::NoMemory),
        Ok(Found::Order(pairs)) => Ok(Ranks::from_pairs(pairs)),
        Ok(Found::Cycle(nodes)) => match refusal(alloc, core, nodes.as_slice()) {
            Err(NoMemory) => Err(FrontErr::NoMemory),
            Ok(refusal) => Err(FrontErr::Refused(refusal)),
        },
    }
}

/// An order of the nodes of a core, each with its number, or a cycle of nodes.
#[derive(Debug, Drop)]
pub(crate) enum Found {
    Order(Items<(Node, u32)>),
    Cycle(Items<Node>),
}

/// An order or a cycle of the nodes of a core.
fn sorted(alloc: Global, core: &Core) -> Result<Found, NoMemory>
    ensures { IfOk result (λ f. IsFound core.now f) }
{
    let links = linked(alloc, core)?;
    let graph = graph(alloc, links.heads.as_slice(), links.table.as_slice())?;
    match sort(alloc, graph.as_slice()) {
        Err(_) => Err(NoMemory),
        Ok(Sorted::Ranks(ranks)) => {
            let nodes = nodes(alloc, core.objects.as_slice())?;
            let pairs = pairs(alloc, nodes.as_slice(), ranks.as_slice())?;
            Ok(Found::Order(pairs))
        }
        Ok(Sorted::Cycle(cycle)) => {
            let nodes = cycle_nodes(alloc, links.heads.len() as u32, cycle.as_slice())?;
            Ok(Found::Cycle(nodes))
        }
    }
}

/// The nodes of objects, in their order.
fn nodes(alloc: Global, objects: &[Object]) -> Result<Items<Node>, NoMemory>
    requires { length objects.now < 2 ^ 30 }
    ensures { IfOk result (λ nodes. nodes ≡ nodes_from 0 (kinds_of objects.now)) }
{
    let mut nodes = Items::new(alloc);
    let mut k: u32 = 0;
    for object in objects {
        add_nodes(&mut nodes, k, &object.kind)?;
        k += 1;
    }
    Ok(nodes)
}

/// The nodes of one object more.
fn add_nodes(nodes: &mut Items<Node>, k: u32, kind: &Kind) -> Result<(), NoMemory>
    ensures { OnOk result (nodes.new ≡ nodes.old ++ kind_nodes k kind.now) }
{
    match kind {
        Kind::Reg { .. } => Ok(()),
        Kind::Array { .. } => Ok(()),
        Kind::Ram { .. } => add_node(nodes, Node::Value(k)),
        Kind::Rom { .. } => add_node(nodes, Node::Value(k)),
        Kind::Signal { .. } => add_node(nodes, Node::Value(k)),
        Kind::Chan { .. } => {
            add_node(nodes, Node::Sends(k))?;
            add_node(nodes, Node::Receives(k))
        }
        Kind::Input { .. } => Ok(()),
        Kind::Output { .. } => Ok(()),
    }
}

/// One node more.
fn add_node(nodes: &mut Items<Node>, node: Node) -> Result<(), NoMemory>
    ensures { OnOk result (nodes.new ≡ nodes.old ++ node ∷ []) }
{
    match nodes.push(node) {
        Ok(()) => Ok(()),
        Err(_) => Err(NoMemory),
    }
}

/// The nodes, each with its rank.
fn pairs(alloc: Global, nodes: &[Node], ranks: &[u32]) -> Result<Items<(Node, u32)>, NoMemory>
    requires { (k : ℕ) → slice_index ranks.now k < 2 ^ 31 - 1 }
    ensures { IfOk result (λ pairs. pairs ≡ map (ranked ranks.now) nodes.now) }
{
    let mut pairs = Items::new(alloc);
    for node in nodes {
        add_pair(&mut pairs, ranked(ranks, *node))?;
    }
    Ok(pairs)
}

/// One pair more.
fn add_pair(pairs: &mut Items<(Node, u32)>, pair: (Node, u32)) -> Result<(), NoMemory>
    ensures { OnOk result (pairs.new ≡ pairs.old ++ pair ∷ []) }
{
    match pairs.push(pair) {
        Ok(()) => Ok(()),
        Err(_) => Err(NoMemory),
    }
}

/// A node with its rank, which is odd.
fn ranked(ranks: &[u32], node: Node) -> (Node, u32)
    requires { (k : ℕ) → slice_index ranks.now k < 2 ^ 31 - 1 }
    ensures { result ≡ ranked ranks.now node }
{
    let rank = rank_at(ranks, number_of(node) as usize);
    (node, 2 * rank + 1)
}

/// The rank at an index, or 0 where there is none.
fn rank_at(ranks: &[u32], index: usize) -> u32
    ensures { result ≡ slice_index ranks.now index }
{
    if index < ranks.len() { ranks[index] } else { 0 }
}

/// The nodes of a core in a cycle of its graph, the least of which comes first. No cycle has unions alone, which is not proved:
/// of such a one the answer would be that there isn't enough memory.
fn cycle_nodes(alloc: Global, base: u32, cycle: &[u32]) -> Result<Items<Node>, NoMemory>
    ensures nodes { IfOk result (λ nodes. nodes ≡ nodes_in base cycle.now) }
    ensures begins { IfOk result (λ nodes. slice_index cycle.now 0 < base) }
{
    if !begins_below(base, cycle) {
        return Err(NoMemory);
    }
    let mut nodes = Items::new(alloc);
    for v in cycle {
        add_below(&mut nodes, base, *v)?;
    }
    Ok(nodes)
}

/// The node that has a number, where it is below a base.
fn add_below(nodes: &mut Items<Node>, base: u32, v: u32) -> Result<(), NoMemory>
    ensures { OnOk result (nodes.new ≡ nodes.old ++ nodes_in base (v ∷ [])) }
{
    if v < base {
        return add_node(nodes, node_of(v));
    }
    Ok(())
}

/// Whether the first of these numbers is below a base.
fn begins_below(base: u32, numbers: &[u32]) -> bool
    ensures { result ≡ true → slice_index numbers.now 0 < base }
{
    match numbers {
        [] => false,
        [first, ..] => *first < base,
    }
}

/// The node that has a number.
fn node_of(v: u32) -> Node
    ensures { result ≡ node_of v }
{
    match v % 3 {
        0 => Node::Value(v / 3),
        1 => Node::Sends(v / 3),
        _ => Node::Receives(v / 3),
    }
}

/// The refusal of a cycle.
fn refusal(alloc: Global, core: &Core, nodes: &[Node]) -> Result<Refusal, NoMemory>
    requires cycle { IsCycle core.now nodes.now }
    ensures { IfOk result (ShowsCycle core.now) }
{
    let place = place_of(core, nodes)?;
    let named = named(alloc, core, nodes)?;
    Ok(Refusal {
        rule: Rule::S17,
        place,
        detail: Detail::Cycle(named),
    })
}

/// The place at which the object of the first node is declared.
fn place_of(core: &Core, nodes: &[Node]) -> Result<Place, NoMemory>
    ensures { IfOk result (λ place. IsDeclaredAt core.now nodes.now place) }
{
    match nodes {
        [] => Err(NoMemory),
        [first, ..] => match at(core.objects.as_slice(), object_of(*first) as usize) {
            None => Err(NoMemory),
            Some(object) => Ok(object.place),
        },
    }
}

/// The number of the object of a node.
fn object_of(node: Node) -> u32
    ensures { result ≡ object_of node }
{
    match node {
        Node::Value(k) => k,
        Node::Sends(k) => k,
        Node::Receives(k) => k,
    }
}

/// The nodes, each with the name of its object.
fn named(alloc: Global, core: &Core, nodes: &[Node]) -> Result<Items<(Node, Name)>, NoMemory>
    ensures nodes { IfOk result (λ named. map (λ n. n.0) named ≡ nodes.now) }
    ensures names { IfOk result (λ named. All (IsNamed core.now) named) }
{
    let mut named = Items::new(alloc);
    for node in nodes {
        add_named(&mut named, alloc, core, *node)?;
    }
    Ok(named)
}

/// One node more, with the name of its object. A node that the core doesn't have is none of a core that is sound.
fn add_named(
    named: &mut Items<(Node, Name)>,
    alloc: Global,
    core: &Core,
    node: Node,
) -> Result<(), NoMemory>
    ensures { OnOk result (AddsName core.now named.old named.new node) }
{
    match at(core.objects.as_slice(), object_of(node) as usize) {
        None => Err(NoMemory),
        Some(object) => {
            if !has_node(&object.kind, node) {
                return Err(NoMemory);
            }
            let name = Name::new(alloc, object.name.as_bytes())?;
            match named.push((node, name)) {
                Ok(()) => Ok(()),
                Err(_) => Err(NoMemory),
            }
        }
    }
}

/// Whether an object of a kind has such a node.
fn has_node(kind: &Kind, node: Node) -> bool
    ensures { result ≡ has_node kind.now node }
{
    match kind {
        Kind::Reg { .. } => false,
        Kind::Array { .. } => false,
        Kind::Ram { .. } => is_value(node),
        Kind::Rom { .. } => is_value(node),
        Kind::Signal { .. } => is_value(node),
        Kind::Chan { .. } => !is_value(node),
        Kind::Input { .. } => false,
        Kind::Output { .. } => false,
    }
}

/// Whether a node is that of a signal, RAM or ROM.
fn is_value(node: Node) -> bool
    ensures { result ≡ is_value node }
{
    match node {
        Node::Value(_) => true,
        Node::Sends(_) => false,
        Node::Receives(_) => false,
    }
}
