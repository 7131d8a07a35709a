//! What a plan says of a node, also of one that it lacks.

ghost use Rattle.std.specs.Prelude.{◌≡◌};
ghost use Rattle.descriptor.specs.Nodes.{kind_of, role_of};
ghost use Rattle.run_results.specs.Feed.{id_at, text_or};
ghost use Rattle.run_results.specs.TreeTexts.{name_at};
ghost use Rattle.plan_events.specs.Texts.{text_at};

use descriptor::{Kind, NodeId, Role, Tree};
use plan_events::Texts;
use resource_locks::Plan;

/// What a node may hold; one that the tree lacks may hold others, as the plan may.
pub fn kind_of(tree: &Tree, node: NodeId) -> Kind
    ensures { result ≡ kind_of tree.now node }
{
    if node.index() >= tree.len() {
        return Kind::Container;
    }
    tree.kind(node)
}

/// The role of a node; one that the tree lacks has no special one.
pub fn role_of(tree: &Tree, node: NodeId) -> Role
    ensures { result ≡ role_of tree.now node }
{
    if node.index() >= tree.len() {
        return Role::Plain;
    }
    tree.role(node)
}

/// The name of a node; nothing for node 0, and for a node that the tree lacks.
pub fn name_of(tree: &Tree, node: NodeId) -> &str
    ensures { result.now ≡ name_at tree.now node }
{
    if node == NodeId::ROOT || node.index() >= tree.len() {
        return "";
    }
    tree.node(node).name.as_str()
}

/// The canonical id of a node; nothing for node 0, and for a node that the plan lacks.
pub fn id_of(plan: &Plan, node: NodeId) -> &str
    ensures { result.now ≡ id_at plan.now node }
{
    if node == NodeId::ROOT || node.index() >= plan.tree().len() {
        return "";
    }
    plan.tree().node(node).id.text()
}

/// The text of a node; nothing where it has none.
pub fn text_of(texts: &Texts, node: NodeId) -> &str
    ensures { result.now ≡ text_or (text_at texts.now node) }
{
    texts.of(node).unwrap_or("")
}
