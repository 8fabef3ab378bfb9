ghost use Rattle.std.specs.Prelude.{◌≡◌, MatchOption};
ghost use Rattle.hc_net.specs.Circuit.{constant_at, reading};

use crate::gate::GateKind;
use crate::net::FlopName;
use crate::ram::RamCell;
use sqlite_items::{Boxed, Items};

/// What a net of a builder is. The net's number is the place of its node in the builder's list, from 0.
#[derive(Debug, Drop)]
pub enum Node {
    /// This bit of the input port of this number, inputs alone counted, both from 0.
    Input {
        port: u32,
        bit: u32,
    },
    /// The output of a flip-flop, and the net that it reads once it is fed.
    Flop {
        name: FlopName,
        init: bool,
        d: Option<u32>,
    },
    /// A placeholder, and the net that it stands for once it is driven.
    Wire {
        rank: u64,
        from: Option<u32>,
    },
    /// The output of a gate.
    Gate {
        kind: GateKind,
        a: u32,
        b: u32,
    },
    /// A bit of the word that a RAM gives. `first` is the net of bit 0, whose node has the RAM with the nets of its pins.
    Ram {
        rank: u32,
        first: u32,
        ram: Option<Boxed<RamCell>>,
    },
}

impl Node {
    /// A flip-flop or a placeholder that reads this net; `None` for any other node, which stays as it is.
    pub(crate) fn reading(&self, net: u32) -> Option<Node>
        ensures { MatchOption result (self.now ≡ reading net self.now) (λ n. n ≡ reading net self.now) }
    {
        match self {
            Node::Input { port: _, bit: _ } => None,
            Node::Flop { name, init, d: _ } => Some(Node::Flop {
                name: *name,
                init: *init,
                d: Some(net),
            }),
            Node::Wire { rank, from: _ } => Some(Node::Wire {
                rank: *rank,
                from: Some(net),
            }),
            Node::Gate {
                kind: _,
                a: _,
                b: _,
            } => None,
            Node::Ram {
                rank: _,
                first: _,
                ram: _,
            } => None,
        }
    }

    /// The constant that the node gives, if it is a gate that gives one.
    pub(crate) fn constant(&self) -> Option<bool>
        ensures { result ≡ constant_at self.now }
    {
        match self {
            Node::Input { .. } => None,
            Node::Flop { .. } => None,
            Node::Wire { .. } => None,
            Node::Gate { kind, .. } => match kind {
                GateKind::Zero => Some(false),
                GateKind::One => Some(true),
                GateKind::Not => None,
                GateKind::And => None,
                GateKind::Or => None,
                GateKind::Xor => None,
            },
            Node::Ram { .. } => None,
        }
    }
}

/// The nodes of a builder in the order of their nets.
pub type Nodes = Items<Node>;
