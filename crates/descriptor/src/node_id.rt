//! The numbers of nodes.

ghost use Rattle.std.specs.Prelude.{◌≡◌, ◌<◌, ◌^◌};

use std::marker::Model;

/// The number of a node, in preorder from 0.
#[derive(Clone, Copy, PartialEq, Eq, PartialOrd, Ord, Hash, Debug)]
pub struct NodeId(u16);

impl Model for NodeId {
    ghost use Rattle.std.specs.Prelude.{ℕ};

    ghost Value = { ℕ };

    ghost view = { λ n. n.0 };

    ghost inverse = { λ n. record { 0 = n } };
}

impl NodeId {
    /// The plan's node.
    pub const ROOT: NodeId = NodeId(0);

    /// The node of this number.
    pub fn new(number: u16) -> NodeId
        ensures { result ≡ number }
    {
        NodeId(number)
    }

    /// The node's place in a list with one place for each node, from 0.
    pub fn index(self) -> usize
        ensures same { result ≡ self }
        ensures small { result < 2 ^ 16 }
    {
        usize::from(self.0)
    }

    /// The node's number.
    pub fn number(self) -> u16
        ensures { result ≡ self }
    {
        self.0
    }
}
