//! What is kept of a plan to count its nodes.

ghost use Rattle.std.specs.Prelude.{◌≡◌, ◌<◌, ◌≤◌, length, IfOk};
ghost use Rattle.descriptor.specs.Nodes.{IsTree, size};
ghost use Rattle.run_results.specs.Counts.{place_of, outline_of, FollowParents};

use descriptor::{Kind, NodeId, Tree};
use resource_locks::Plan;
use std::alloc::{AllocError, Global};

/// What is kept of a node to count it.
#[derive(Clone, Copy)]
pub struct NodePlace {
    /// For node 0, node 0 itself.
    pub parent: NodeId,
    pub kind: Kind,
    pub spare: bool,
}

/// What is kept of this node.
fn place_of(tree: &Tree, node: NodeId) -> NodePlace
    requires { node < size tree.now }
    ensures { result ≡ place_of tree.now node }
{
    NodePlace {
        parent: tree.parent(node).unwrap_or(NodeId::ROOT),
        kind: tree.kind(node),
        spare: tree.role(node).is_spare(),
    }
}

/// What is kept of the nodes of a plan, from node 0.
pub(crate) fn outline_of(alloc: Global, plan: &Plan) -> Result<Vec<NodePlace>, AllocError>
    ensures places { IfOk result (λ outline. outline.items ≡ outline_of plan.now.tree) }
    ensures parents { IfOk result (λ outline. FollowParents outline.items) }
    ensures few { IfOk result (λ outline. length outline.items ≤ 16384) }
    ensures tree { IfOk result (λ _. IsTree plan.now.tree) }
{
    let tree = plan.tree();
    let mut outline = Vec::with_capacity(alloc, tree.len())?;
    for number in 0..tree.len() {
        outline.push(place_of(tree, NodeId::new(number as u16)))?;
    }
    Ok(outline)
}
