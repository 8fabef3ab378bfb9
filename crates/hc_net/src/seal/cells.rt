ghost use Rattle.std.specs.Prelude.{◌≡◌, ◌<◌, ◌+◌, ◌++◌, ◌∷◌, ◌^◌, ℕ, [], length, IfOk, OnOk, IsSome};
ghost use Rattle.hc_net.specs.Circuit.{AreRams, node_at};
ghost use Rattle.hc_net.specs.Order.{AreDriven, IsDriven, IsOrder, Reads};
ghost use Rattle.hc_net.specs.Place.{AllPlaced, ArePlaces, base_of, cell_of, place_at};
ghost use Rattle.hc_net.specs.Run.{cell_nets};

use crate::gate::GateKind;
use crate::net::{Cell, Cells};
use crate::nets::NoMemory;
use crate::node::Node;
use crate::ram_nodes::boxed;
use crate::seal::order::Leveled;
use crate::seal::places::place_of;
use sqlite_items::Items;
use std::alloc::Global;

/// The cells of the gates and RAMs in this order, and a place for each net. A placeholder has the place of its driver. The
/// nets of RAMs aren't renamed yet. `base` is the first cell's net.
pub(crate) fn cells(
    alloc: Global,
    nodes: &[Node],
    order: &[Leveled],
    base: u32,
    places: &mut [Option<u32>],
) -> Result<Cells, NoMemory>
    requires few { length nodes.now < 2 ^ 32 }
    requires rams { AreRams nodes.now }
    requires order { IsOrder nodes.now order.now }
    requires driven { AreDriven nodes.now }
    requires base { base ≡ base_of nodes.now }
    requires places { ArePlaces nodes.now places.old [] }
    ensures places { IfOk result (λ cells. ArePlaces nodes.now places.new cells) }
    ensures all { OnOk result (AllPlaced nodes.now places.new) }
{
    let mut cells = Items::new(alloc);
    let mut next = base;
    for entry in order {
        next = place_net(alloc, nodes, entry.net, next, places, &mut cells)?;
    }
    Ok(cells)
}

/// Gives a net its place, unless it has one. `next` is the net of the next cell, and so is what is given back.
fn place_net(
    alloc: Global,
    nodes: &[Node],
    net: u32,
    next: u32,
    places: &mut [Option<u32>],
    cells: &mut Cells,
) -> Result<u32, NoMemory>
    requires few { length nodes.now < 2 ^ 32 }
    requires rams { AreRams nodes.now }
    requires net { net < length nodes.now }
    requires driven { IsDriven (node_at nodes.now net) }
    requires next { next ≡ base_of nodes.now + cell_nets cells.old }
    requires places { ArePlaces nodes.now places.old cells.old }
    requires ready { Reads (λ k. IsSome (place_at places.old k)) (node_at nodes.now net) }
    ensures next { IfOk result (λ next. next ≡ base_of nodes.now + cell_nets cells.new) }
    ensures places { OnOk result (ArePlaces nodes.now places.new cells.new) }
    ensures placed { OnOk result (IsSome (place_at places.new net)) }
    ensures kept { OnOk result ((k : ℕ) → IsSome (place_at places.old k) → IsSome (place_at places.new k)) }
{
    if places[net as usize].is_some() {
        return Ok(next);
    }
    match &nodes[net as usize] {
        Node::Input { port: _, bit: _ } => Ok(next),
        Node::Flop {
            name: _,
            init: _,
            d: _,
        } => Ok(next),
        Node::Wire { rank: _, from } => {
            let place = place_of(places, from.unwrap_or(0));
            places[net as usize] = Some(place);
            Ok(next)
        }
        Node::Gate { kind, a, b } => {
            let cell = cell_of(*kind, place_of(places, *a), place_of(places, *b));
            push(cells, cell)?;
            places[net as usize] = Some(next);
            Ok(next + 1)
        }
        Node::Ram {
            rank: _,
            first,
            ram,
        } => match ram {
            None => {
                let place = place_of(places, *first) + (net - *first);
                places[net as usize] = Some(place);
                Ok(next)
            }
            Some(ram) => {
                let width = ram.get().width;
                let copy = boxed(alloc, ram.get().copy(alloc)?)?;
                push(cells, Cell::Ram(copy))?;
                places[net as usize] = Some(next);
                Ok(next + width)
            }
        },
    }
}

/// Adds a cell.
fn push(cells: &mut Cells, cell: Cell) -> Result<(), NoMemory>
    ensures { OnOk result (cells.new ≡ cells.old ++ cell ∷ []) }
{
    match cells.push(cell) {
        Ok(()) => Ok(()),
        Err(_) => Err(NoMemory),
    }
}

/// A gate with the nets that it reads.
fn cell_of(kind: GateKind, a: u32, b: u32) -> Cell
    ensures { result ≡ cell_of kind a b }
{
    match kind {
        GateKind::Zero => Cell::Zero,
        GateKind::One => Cell::One,
        GateKind::Not => Cell::Not(a),
        GateKind::And => Cell::And(a, b),
        GateKind::Or => Cell::Or(a, b),
        GateKind::Xor => Cell::Xor(a, b),
    }
}
