//! The mode that is declared nearest to a node.

ghost use Rattle.std.specs.Prelude.{◌≡◌, ◌<◌, map};
ghost use Rattle.std.specs.List.{range_with_len};
ghost use Rattle.descriptor.specs.Nodes.{size, IsTree};
ghost use Rattle.config_params.specs.Nearest.{nearest_mode};

use descriptor::{Mode, NodeId, Tree};

/// The nearest mode that is declared at or above the node, where this is known of all nodes before it.
pub(crate) fn nearest_mode(tree: &Tree, before: &[Option<Mode>], node: NodeId) -> Option<Mode>
    requires tree { IsTree tree.now }
    requires inside { node < size tree.now }
    requires before { before.now ≡ map (nearest_mode tree.now) (range_with_len 0 node) }
    ensures { result ≡ nearest_mode tree.now node }
{
    match tree.parent(node) {
        Some(parent) => tree.mode(node).or(before[parent.index()]),
        None => None,
    }
}
