//! The parent of a node that is not the plan.

ghost use Rattle.std.specs.Prelude.{◌≡◌, ◌<◌};
ghost use Rattle.descriptor.specs.Nodes.{size, parent_of};

use descriptor::{NodeId, Tree};

/// The parent of a node other than the plan.
pub(crate) fn parent(tree: &Tree, node: NodeId) -> NodeId
    requires above_zero { 0 < node }
    requires inside { node < size tree.now }
    ensures { result ≡ parent_of tree.now node }
{
    match tree.parent(node) {
        Some(parent) => parent,
        None => unreachable!(),
    }
}
