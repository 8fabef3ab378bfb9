ghost use Rattle.std.specs.Prelude.{◌≡◌, ◌<◌, ◌^◌, length, IfOk};
ghost use Rattle.hc_net.specs.Circuit.{AreRams};
ghost use Rattle.hc_net.specs.Order.{AreLevels, AreDriven, GateReads, GatesReadEarlier, HaveRanks, HasRank, IfGate, IsOrder, node_level};

use crate::gate::GateKind;
use crate::nets::NoMemory;
use crate::node::Node;
use std::alloc::Global;

/// A net with its level. In the order of levels, and of numbers at one level, each net stands after those that it
/// reads in the same clock.
#[derive(Clone, Copy, Debug, PartialEq, Eq, PartialOrd, Ord)]
pub(crate) struct Leveled {
    pub(crate) level: u64,
    pub(crate) net: u32,
}

/// The nets, each after those that it reads in the same clock.
pub(crate) fn order(alloc: Global, nodes: &[Node]) -> Result<Vec<Leveled>, NoMemory>
    requires few { length nodes.now < 2 ^ 32 }
    requires gates { GatesReadEarlier nodes.now }
    requires driven { AreDriven nodes.now }
    requires rams { AreRams nodes.now }
    ensures { IfOk result (λ order. IsOrder nodes.now order.items) }
{
    let mut order = levels(alloc, nodes)?;
    order.sort_unstable();
    Ok(order)
}

/// The nets in their order of numbers, with their levels.
fn levels(alloc: Global, nodes: &[Node]) -> Result<Vec<Leveled>, NoMemory>
    requires few { length nodes.now < 2 ^ 32 }
    requires gates { GatesReadEarlier nodes.now }
    requires ranks { HaveRanks nodes.now }
    ensures { IfOk result (λ levels. AreLevels nodes.now levels.items) }
{
    let Ok(mut levels) = Vec::with_capacity(alloc, nodes.len()) else {
        return Err(NoMemory);
    };
    for node in nodes {
        let entry = Leveled {
            level: node_level(node, levels.as_slice()),
            net: levels.len() as u32,
        };
        match levels.push(entry) {
            Ok(()) => {}
            Err(_) => return Err(NoMemory),
        }
    }
    Ok(levels)
}

/// A gate's level is the greatest of those that it reads, and those of a placeholder and of a RAM are above their rank.
fn node_level(node: &Node, levels: &[Leveled]) -> u64
    requires gate { IfGate (GateReads (λ k. k < length levels.now)) node.now }
    requires rank { HasRank node.now }
    ensures { result ≡ node_level levels.now node.now }
{
    match node {
        Node::Input { port: _, bit: _ } => 0,
        Node::Flop {
            name: _,
            init: _,
            d: _,
        } => 0,
        Node::Wire { rank, from: _ } => *rank + 1,
        Node::Gate { kind, a, b } => match kind {
            GateKind::Zero => 0,
            GateKind::One => 0,
            GateKind::Not => levels[*a as usize].level,
            GateKind::And => levels[*a as usize].level.max(levels[*b as usize].level),
            GateKind::Or => levels[*a as usize].level.max(levels[*b as usize].level),
            GateKind::Xor => levels[*a as usize].level.max(levels[*b as usize].level),
        },
        Node::Ram {
            rank,
            first: _,
            ram: _,
        } => u64::from(*rank) + 1,
    }
}
