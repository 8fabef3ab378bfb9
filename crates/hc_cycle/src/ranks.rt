ghost use Rattle.std.specs.Prelude.{◌≡◌};
ghost use Rattle.hc_cycle.specs.Ranks.{AreInOrder, number_of, rank_of};

use hc_tree::Node;
use sqlite_items::Items;
use std::marker::Model;

/// Nodes in their order, each with its number. In the order of a core, what a node depends on has a smaller number than the
/// node.
#[derive(Debug, Drop)]
pub struct Ranks {
    pairs: Items<(Node, u32)>,
}

impl Model for Ranks {
    ghost use Rattle.std.specs.Prelude.{ℕ, List};
    ghost use Rattle.hc_tree.specs.declared.refusal.Node.{Node};
    ghost use Rattle.hc_cycle.specs.Ranks.{AreInOrder};

    ghost Value = { List (Node × ℕ) };

    ghost view = { λ r. r.pairs };

    ghost invariant = { λ r. AreInOrder r.pairs };
}

impl Ranks {
    /// The nodes of these pairs, each with its number.
    pub(crate) fn from_pairs(pairs: Items<(Node, u32)>) -> Ranks
        requires { AreInOrder pairs }
        ensures { result ≡ pairs }
    {
        Ranks { pairs }
    }

    /// The number of a node, or None where it has none. It takes no memory, and time in proportion to the logarithm of the
    /// number of pairs.
    pub fn rank(&self, node: Node) -> Option<u32>
        ensures { result ≡ rank_of node self.now }
    {
        rank_in(self.pairs.as_slice(), node)
    }
}

/// The number of a node among pairs in the order of nodes, by halves.
fn rank_in(pairs: &[(Node, u32)], node: Node) -> Option<u32>
    requires { AreInOrder pairs.now }
    ensures { result ≡ rank_of node pairs.now }
{
    let number = number_of(node);
    let mut low = 0;
    let mut high = pairs.len();
    while low < high {
        let middle = low + (high - low) / 2;
        let (of, rank) = pairs[middle];
        let other = number_of(of);
        if other == number {
            return Some(rank);
        }
        if other < number {
            low = middle + 1;
        } else {
            high = middle;
        }
    }
    None
}

/// The number of a node in the order of nodes.
pub(crate) fn number_of(node: Node) -> u64
    ensures { result ≡ number_of node }
{
    match node {
        Node::Value(k) => 3 * u64::from(k),
        Node::Sends(k) => 3 * u64::from(k) + 1,
        Node::Receives(k) => 3 * u64::from(k) + 2,
    }
}
