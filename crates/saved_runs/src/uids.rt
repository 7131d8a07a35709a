//! The ids of a plan's nodes, looked at for the sake of the theorem.

ghost use Rattle.std.specs.Prelude.{◌<◌};
ghost use Rattle.descriptor.specs.Nodes.{size};
ghost use Rattle.saved_runs.specs.Histories.{HasUid, HasUids};

use descriptor::{NodeId, Tree};
use resource_locks::Plan;

/// The node of this number has a unique id.
fn has_uid(tree: &Tree, node: NodeId) -> usize
    requires above_zero { 0 < node }
    requires inside { node < size tree.now }
    ensures { HasUid tree.now node }
{
    let id = &tree.node(node).id;
    id.text().len() + id.segments().len()
}

/// Each node of a plan but the plan itself has a unique id. It only looks at them: its clause is what
/// the theorem of this crate asks of a plan.
pub fn has_uids(plan: &Plan)
    ensures { HasUids plan.now }
{
    let tree = plan.tree();
    for number in 1..tree.len() {
        let _ = has_uid(tree, NodeId::new(number as u16));
    }
}
