//! Plans and events for the tests.

use descriptor::{BodyId, Kind, Mode, Node, NodeId, NodeLimit, Role, Tree, TreeBuilder};
use plan_events::{Event, EventKind, Status};
use resource_locks::Plan;
use std::alloc::Global;
use suite_text::Suite;
use unique_id::{Text, UniqueId};

/// The plan of a tree whose nodes may all run side by side, as far as their locks let them.
fn side_by_side(alloc: Global, tree: Tree) -> Option<Plan> {
    let modes = vec![in alloc; Mode::Concurrent; tree.len()].ok()?;
    Plan::of(alloc, tree, modes).ok()
}

/// The plan of the suite of a text.
pub(crate) fn plan_of(alloc: Global, text: &str) -> Option<Plan> {
    let Suite {
        tree,
        scripts: _,
        properties: _,
    } = Suite::parse(alloc, None, text).ok()?;
    side_by_side(alloc, tree)
}

/// A node of this id, which has no body.
pub(crate) fn node_of(alloc: Global, id: UniqueId, name: &str, kind: Kind) -> Option<Node> {
    let name = Text::new(alloc, name).ok()?;
    Some(Node::plain(alloc, id, name, kind))
}

/// Adds a node where the tree may take it.
fn put(alloc: Global, builder: &mut TreeBuilder, parent: NodeId, node: Node) -> Option<()> {
    if !builder.may_take(parent) {
        return None;
    }
    builder.add(alloc, NodeLimit::usual(), parent, node).ok()?;
    Some(())
}

/// Adds a node of this name, kind and role, run by this body.
fn put_named(
    alloc: Global,
    builder: &mut TreeBuilder,
    parent: NodeId,
    name: &str,
    kind: Kind,
    role: Role,
    body: Option<BodyId>,
) -> Option<()> {
    let id = UniqueId::of(alloc, "engine", name).ok()?;
    let mut node = node_of(alloc, id, name, kind)?;
    node.role = role;
    node.body = body;
    put(alloc, builder, parent, node)
}

/// The tree of one node with this name.
fn tree_of_one(alloc: Global, name: &str, kind: Kind) -> Option<Tree> {
    let mut builder = TreeBuilder::new(alloc).ok()?;
    put_named(
        alloc,
        &mut builder,
        NodeId::ROOT,
        name,
        kind,
        Role::Plain,
        None,
    )?;
    Some(builder.finish())
}

/// The plan of one node with this name, which a suite's text may be unable to give.
pub(crate) fn plan_of_one(alloc: Global, name: &str, kind: Kind) -> Option<Plan> {
    side_by_side(alloc, tree_of_one(alloc, name, kind)?)
}

/// Adds a factory, node 1, which is run by body 1, and its only spare, node 2.
fn put_factory(alloc: Global, builder: &mut TreeBuilder) -> Option<()> {
    let (kind, body) = (Kind::Container, Some(BodyId::new(1)));
    put_named(
        alloc,
        builder,
        NodeId::ROOT,
        "makes",
        kind,
        Role::Factory,
        body,
    )?;
    let (factory, kind) = (NodeId::new(1), Kind::Test);
    put_named(alloc, builder, factory, "made", kind, Role::Spare, None)
}

/// The tree of a factory and its only spare.
fn factory_tree(alloc: Global) -> Option<Tree> {
    let mut builder = TreeBuilder::new(alloc).ok()?;
    put_factory(alloc, &mut builder)?;
    Some(builder.finish())
}

/// The plan of a factory, node 1, which is run by body 1, and of its only spare, node 2.
pub(crate) fn factory_plan(alloc: Global) -> Option<Plan> {
    side_by_side(alloc, factory_tree(alloc)?)
}

/// The event of this kind, by worker 1.
pub(crate) fn event(kind: EventKind, node: u16, status: Option<Status>) -> Event {
    Event {
        kind,
        node: NodeId::new(node),
        status,
        worker: 1,
    }
}

/// The start of a node, by worker 1.
pub(crate) fn started(node: u16) -> Event {
    event(EventKind::Started, node, None)
}

/// The finish of a node, by worker 1.
pub(crate) fn finished(node: u16, status: Status) -> Event {
    event(EventKind::Finished, node, Some(status))
}
