ghost use Rattle.std.specs.Prelude.{◌≡◌, ◌<◌, ◌^◌, length, IfOk, [], ◌∷◌};
ghost use Rattle.hc_net.specs.Circuit.{flops_of, input_bits_of};
ghost use Rattle.hc_net.specs.Place.{AreFirst, base_of, place_from, place_of};

use crate::nets::NoMemory;
use crate::node::Node;
use std::alloc::Global;

/// 1 for an input bit, else 0.
fn inputs_in(node: &Node) -> u32
    ensures { result ≡ length (input_bits_of (node.now ∷ [])) }
{
    match node {
        Node::Input { port: _, bit: _ } => 1,
        Node::Flop {
            name: _,
            init: _,
            d: _,
        } => 0,
        Node::Wire { rank: _, from: _ } => 0,
        Node::Gate {
            kind: _,
            a: _,
            b: _,
        } => 0,
        Node::Ram {
            rank: _,
            first: _,
            ram: _,
        } => 0,
    }
}

/// 1 for a flip-flop, else 0.
fn flops_in(node: &Node) -> u32
    ensures { result ≡ length (flops_of (node.now ∷ [])) }
{
    match node {
        Node::Input { port: _, bit: _ } => 0,
        Node::Flop {
            name: _,
            init: _,
            d: _,
        } => 1,
        Node::Wire { rank: _, from: _ } => 0,
        Node::Gate {
            kind: _,
            a: _,
            b: _,
        } => 0,
        Node::Ram {
            rank: _,
            first: _,
            ram: _,
        } => 0,
    }
}

/// How many input bits there are.
fn count_inputs(nodes: &[Node]) -> u32
    requires { length nodes.now < 2 ^ 32 }
    ensures { result ≡ length (input_bits_of nodes.now) }
{
    let mut count = 0;
    for node in nodes {
        count += inputs_in(node);
    }
    count
}

/// The place of an input bit or a flip-flop, from the next of each.
fn place_from(node: &Node, input: u32, flop: u32) -> Option<u32>
    ensures { result ≡ place_from input flop node.now }
{
    match node {
        Node::Input { port: _, bit: _ } => Some(input),
        Node::Flop {
            name: _,
            init: _,
            d: _,
        } => Some(flop),
        Node::Wire { rank: _, from: _ } => None,
        Node::Gate {
            kind: _,
            a: _,
            b: _,
        } => None,
        Node::Ram {
            rank: _,
            first: _,
            ram: _,
        } => None,
    }
}

/// Places for input bits and then flip-flops, each in their order, and where the places of cells begin.
pub(crate) fn first_places(
    alloc: Global,
    nodes: &[Node],
) -> Result<(Vec<Option<u32>>, u32), NoMemory>
    requires { length nodes.now < 2 ^ 32 }
    ensures places { IfOk result (λ first. AreFirst nodes.now first.0.items) }
    ensures base { IfOk result (λ first. first.1 ≡ base_of nodes.now) }
{
    let Ok(mut places) = Vec::with_capacity(alloc, nodes.len()) else {
        return Err(NoMemory);
    };
    let mut input = 0;
    let mut flop = count_inputs(nodes);
    for node in nodes {
        match places.push(place_from(node, input, flop)) {
            Ok(()) => {}
            Err(_) => return Err(NoMemory),
        }
        input += inputs_in(node);
        flop += flops_in(node);
    }
    Ok((places, flop))
}

/// The place of a net that has one.
pub(crate) fn place_of(places: &[Option<u32>], net: u32) -> u32
    ensures { result ≡ place_of places.now net }
{
    match places.get(net as usize) {
        Some(Some(place)) => *place,
        Some(None) => 0,
        None => 0,
    }
}
