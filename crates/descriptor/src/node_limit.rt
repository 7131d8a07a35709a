//! How many nodes a tree may have.

ghost use Rattle.std.specs.Prelude.{◌≡◌, ◌<◌, ◌≤◌, IfSome, IfNone};

use std::marker::Model;

/// The greatest number of nodes of any tree, the plan included.
pub const MOST_NODES: usize = 16_384;

/// How many nodes a tree may have besides the plan: at most 16,383.
#[derive(Clone, Copy, PartialEq, Eq, PartialOrd, Ord, Debug)]
pub struct NodeLimit(u16);

impl Model for NodeLimit {
    ghost use Rattle.std.specs.Prelude.{ℕ, ◌≤◌};

    ghost Value = { ℕ };

    ghost view = { λ l. l.0 };

    ghost inverse = { λ n. record { 0 = n } };

    ghost invariant = { λ l. l.0 ≤ 16383 };
}

impl NodeLimit {
    /// As many as a tree may have if nobody asks for more.
    pub fn usual() -> NodeLimit
        ensures { result ≡ 4095 }
    {
        NodeLimit(4_095)
    }

    /// As many as any tree may have.
    pub fn most() -> NodeLimit
        ensures { result ≡ 16383 }
    {
        NodeLimit(16_383)
    }

    /// So many; none if no tree may have as many.
    pub fn new(nodes: u16) -> Option<NodeLimit>
        ensures some { IfSome result (λ limit. (limit ≡ nodes) × (nodes ≤ 16383)) }
        ensures none { IfNone result (16383 < nodes) }
    {
        if usize::from(nodes) < MOST_NODES {
            Some(NodeLimit(nodes))
        } else {
            None
        }
    }

    /// The number of nodes.
    pub fn nodes(self) -> usize
        ensures same { result ≡ self }
        ensures few { result ≤ 16383 }
    {
        usize::from(self.0)
    }
}
