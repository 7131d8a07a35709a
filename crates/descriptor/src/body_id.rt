//! The numbers of bodies.

ghost use Rattle.std.specs.Prelude.{◌≡◌, ◌<◌, ◌^◌, IfSome, IfNone};
ghost use Rattle.descriptor.specs.Bodies.{after_body};

use crate::node_id::NodeId;
use std::marker::Model;

/// From this number on come after-bodies, in a tree whose bodies have the numbers of their nodes.
const FIRST_AFTER: u16 = 16_384;

/// The number of a body, which is what runs for a node.
#[derive(Clone, Copy, PartialEq, Eq, PartialOrd, Ord, Hash, Debug)]
pub struct BodyId(u16);

impl Model for BodyId {
    ghost use Rattle.std.specs.Prelude.{ℕ};

    ghost Value = { ℕ };

    ghost view = { λ n. n.0 };

    ghost inverse = { λ n. record { 0 = n } };
}

impl BodyId {
    /// The body of this number.
    pub fn new(number: u16) -> BodyId
        ensures { result ≡ number }
    {
        BodyId(number)
    }

    /// The after-body of this node, in a tree whose bodies have the numbers of their nodes.
    pub fn after(node: NodeId) -> BodyId
        requires { node < 16384 }
        ensures { result ≡ after_body node }
    {
        BodyId(FIRST_AFTER + node.number())
    }

    /// The node whose after-body this is, in such a tree; none if it is a node's body.
    pub fn after_of(self) -> Option<NodeId>
        ensures some { IfSome result (λ node. self ≡ after_body node) }
        ensures none { IfNone result (self < 16384) }
    {
        Some(NodeId::new(self.0.checked_sub(FIRST_AFTER)?))
    }

    /// The body's place in a list with one place for each body, from 0.
    pub fn index(self) -> usize
        ensures same { result ≡ self }
        ensures small { result < 2 ^ 16 }
    {
        usize::from(self.0)
    }

    /// The body's number.
    pub fn number(self) -> u16
        ensures { result ≡ self }
    {
        self.0
    }
}
