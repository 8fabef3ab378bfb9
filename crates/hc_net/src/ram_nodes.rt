ghost use Rattle.std.specs.Prelude.{◌≡◌, ◌≤◌, ◌<◌, ◌++◌, ◌^◌, length, take, replicate, None, IfOk, OnOk, OnErr};
ghost use Rattle.hc_net.specs.Circuit.{ram_outputs, ram_pins};
ghost use Rattle.hc_net.specs.declared.node.Node.TheVariants.{Ram, Wire};

use crate::nets::NoMemory;
use crate::node::{Node, Nodes};
use crate::ram::RamCell;
use hc_num::aw;
use sqlite_items::Boxed;
use std::alloc::Global;

/// A RAM in a box.
pub(crate) fn boxed(alloc: Global, ram: RamCell) -> Result<Boxed<RamCell>, NoMemory>
    ensures { IfOk result (λ b. b ≡ ram) }
{
    match Boxed::new(alloc, ram) {
        Ok(ram) => Ok(ram),
        Err(_) => Err(NoMemory),
    }
}

/// Adds the nodes of a RAM. An error leaves the list as it was.
pub(crate) fn add_ram(
    nodes: &mut Nodes,
    ram: Boxed<RamCell>,
    rank: u32,
    first: u32,
) -> Result<(), NoMemory>
    requires width { 1 ≤ ram.width }
    requires few { ram.width < 2 ^ 31 }
    ensures ok { OnOk result (nodes.new ≡ nodes.old ++ ram_pins ram.words ram.width rank ++ ram_outputs ram.width rank first ram) }
    ensures err { OnErr result (nodes.new ≡ nodes.old) }
{
    let count = nodes.len();
    match push_ram(nodes, ram, rank, first) {
        Ok(()) => Ok(()),
        Err(NoMemory) => {
            keep_first(nodes, count);
            Err(NoMemory)
        }
    }
}

/// Adds the nodes of a RAM. An error leaves the nodes that were there, with some behind them.
fn push_ram(nodes: &mut Nodes, ram: Boxed<RamCell>, rank: u32, first: u32) -> Result<(), NoMemory>
    requires width { 1 ≤ ram.width }
    requires few { ram.width < 2 ^ 31 }
    ensures ok { OnOk result (nodes.new ≡ nodes.old ++ ram_pins ram.words ram.width rank ++ ram_outputs ram.width rank first ram) }
    ensures err { OnErr result (take (length nodes.old) nodes.new ≡ nodes.old) }
{
    let width = ram.get().width;
    push_wires(nodes, u64::from(rank), aw(ram.get().words))?;
    push_wires(nodes, LAST_RANK, width + 1)?;
    let bit = Node::Ram {
        rank,
        first,
        ram: Some(ram),
    };
    match nodes.push(bit) {
        Ok(()) => push_bits(nodes, rank, first, width - 1),
        Err(_) => Err(NoMemory),
    }
}

/// The rank of a RAM's write net and data, above those of all others: what drives them may reach any net.
const LAST_RANK: u64 = 1 << 32;

/// Adds placeholders. An error leaves the nodes that were there, with some behind them.
fn push_wires(nodes: &mut Nodes, rank: u64, count: u32) -> Result<(), NoMemory>
    ensures ok { OnOk result (nodes.new ≡ nodes.old ++ replicate count (Wire rank None)) }
    ensures err { OnErr result (take (length nodes.old) nodes.new ≡ nodes.old) }
{
    for pushed in 0..count {
        match nodes.push(Node::Wire { rank, from: None }) {
            Ok(()) => {}
            Err(_) => return Err(NoMemory),
        }
    }
    Ok(())
}

/// Adds bits of a RAM behind its first one. An error leaves the nodes that were there, with some behind them.
fn push_bits(nodes: &mut Nodes, rank: u32, first: u32, count: u32) -> Result<(), NoMemory>
    ensures ok { OnOk result (nodes.new ≡ nodes.old ++ replicate count (Ram rank first None)) }
    ensures err { OnErr result (take (length nodes.old) nodes.new ≡ nodes.old) }
{
    for pushed in 0..count {
        let bit = Node::Ram {
            rank,
            first,
            ram: None,
        };
        match nodes.push(bit) {
            Ok(()) => {}
            Err(_) => return Err(NoMemory),
        }
    }
    Ok(())
}

/// Keeps the first `count` nodes.
fn keep_first(nodes: &mut Nodes, count: usize)
    ensures { nodes.new ≡ take count nodes.old }
{
    while nodes.len() > count {
        let _ = nodes.pop();
    }
}
