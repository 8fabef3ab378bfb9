ghost use Rattle.std.specs.Prelude.{◌≡◌, ◌∷◌, [], ◌++◌, IfOk, OnOk, map};
ghost use Rattle.hc_net.specs.Ram.{moved};
ghost use Rattle.hc_net.specs.Seal.{placed};
ghost use Rattle.hc_net.specs.Place.{flops_with, place_of, with_moved_ram};

use crate::net::{Cell, Cells, Flop, Flops, Port, Ports};
use crate::nets::{Nets, NoMemory};
use crate::node::Node;
use crate::ram::RamCell;
use crate::ram_nodes::boxed;
use crate::seal::places::place_of;
use sqlite_items::Items;
use std::alloc::Global;

/// The flip-flops in order, with their inputs renamed.
pub(crate) fn flops(
    alloc: Global,
    nodes: &[Node],
    places: &[Option<u32>],
) -> Result<Flops, NoMemory>
    ensures { IfOk result (λ flops. flops ≡ flops_with (place_of places.now) nodes.now) }
{
    let mut flops = Items::new(alloc);
    for node in nodes {
        add_flop(&mut flops, node, places)?;
    }
    Ok(flops)
}

/// Adds the flip-flop of a node, if it is one.
fn add_flop(flops: &mut Flops, node: &Node, places: &[Option<u32>]) -> Result<(), NoMemory>
    ensures { OnOk result (flops.new ≡ flops.old ++ flops_with (place_of places.now) (node.now ∷ [])) }
{
    match node {
        Node::Input { port: _, bit: _ } => Ok(()),
        Node::Flop { name, init, d } => {
            let flop = Flop {
                name: *name,
                init: *init,
                d: place_of(places, d.unwrap_or(0)),
            };
            match flops.push(flop) {
                Ok(()) => Ok(()),
                Err(_) => Err(NoMemory),
            }
        }
        Node::Wire { rank: _, from: _ } => Ok(()),
        Node::Gate {
            kind: _,
            a: _,
            b: _,
        } => Ok(()),
        Node::Ram {
            rank: _,
            first: _,
            ram: _,
        } => Ok(()),
    }
}

/// The ports in order, with the nets of outputs renamed.
pub(crate) fn ports(
    alloc: Global,
    mut ports: Ports,
    places: &[Option<u32>],
) -> Result<Ports, NoMemory>
    ensures { IfOk result (λ renamed. renamed ≡ map (placed (place_of places.now)) ports) }
{
    let mut renamed = Vec::new(alloc);
    while let Some(port) = ports.pop() {
        let port = placed(alloc, port, places)?;
        match renamed.push(port) {
            Ok(()) => {}
            Err(_) => return Err(NoMemory),
        }
    }
    renamed.reverse();
    Ok(Items::from_vec(renamed))
}

/// A port whose nets are renamed.
fn placed(alloc: Global, port: Port, places: &[Option<u32>]) -> Result<Port, NoMemory>
    ensures { IfOk result (λ renamed. renamed ≡ placed (place_of places.now) port) }
{
    match port {
        Port::Input { name, width, pins } => Ok(Port::Input { name, width, pins }),
        Port::Output {
            name,
            width,
            pins,
            from,
        } => Ok(Port::Output {
            name,
            width,
            pins,
            from: nets(alloc, from.as_slice(), places)?,
        }),
    }
}

/// The places of nets.
fn nets(alloc: Global, nets: &[u32], places: &[Option<u32>]) -> Result<Nets, NoMemory>
    ensures { IfOk result (λ renamed. renamed ≡ map (place_of places.now) nets.now) }
{
    let mut renamed = Nets::new(alloc);
    for net in nets {
        renamed.push(place_of(places, *net))?;
    }
    Ok(renamed)
}

/// The cells in order, with the nets of RAMs renamed.
pub(crate) fn cells(
    alloc: Global,
    mut cells: Cells,
    places: &[Option<u32>],
) -> Result<Cells, NoMemory>
    ensures { IfOk result (λ renamed. renamed ≡ map (with_moved_ram (place_of places.now)) cells) }
{
    let Ok(mut renamed) = Vec::with_capacity(alloc, cells.len()) else {
        return Err(NoMemory);
    };
    while let Some(cell) = cells.pop() {
        let cell = with_moved_ram(alloc, cell, places)?;
        match renamed.push(cell) {
            Ok(()) => {}
            Err(_) => return Err(NoMemory),
        }
    }
    renamed.reverse();
    Ok(Items::from_vec(renamed))
}

/// A RAM with its nets renamed, and a gate as it is.
fn with_moved_ram(alloc: Global, cell: Cell, places: &[Option<u32>]) -> Result<Cell, NoMemory>
    ensures { IfOk result (λ renamed. renamed ≡ with_moved_ram (place_of places.now) cell) }
{
    match cell {
        Cell::Zero => Ok(Cell::Zero),
        Cell::One => Ok(Cell::One),
        Cell::Not(a) => Ok(Cell::Not(a)),
        Cell::And(a, b) => Ok(Cell::And(a, b)),
        Cell::Or(a, b) => Ok(Cell::Or(a, b)),
        Cell::Xor(a, b) => Ok(Cell::Xor(a, b)),
        Cell::Ram(ram) => {
            let ram = moved(alloc, ram.into_inner(), places)?;
            Ok(Cell::Ram(boxed(alloc, ram)?))
        }
    }
}

/// A RAM with its nets renamed.
fn moved(alloc: Global, ram: RamCell, places: &[Option<u32>]) -> Result<RamCell, NoMemory>
    ensures { IfOk result (λ renamed. renamed ≡ moved (place_of places.now) ram) }
{
    let RamCell {
        object,
        words,
        width,
        init,
        addr,
        we,
        d,
    } = ram;
    Ok(RamCell {
        object,
        words,
        width,
        init,
        addr: nets(alloc, addr.as_slice(), places)?,
        we: place_of(places, we),
        d: nets(alloc, d.as_slice(), places)?,
    })
}
