//! The nodes of a tree, a line each.

ghost use Rattle.std.specs.Prelude.{◌<◌};
ghost use Rattle.descriptor.specs.Nodes.{size};

use crate::suites::push_nodes;
use crate::words::{quote, say, show};
use descriptor::{BodyId, Kind, NodeId, Tree};
use tag_expr::TagSet;

fn kind_word(kind: Kind) -> &'static str {
    match kind {
        Kind::Container => "container",
        Kind::Test => "test",
        Kind::ContainerAndTest => "both",
    }
}

/// Adds a body behind a token, if there is one.
fn push_body(answer: &mut String, word: &str, body: Option<BodyId>) {
    if let Some(body) = body {
        show(answer, word, body.number())
    }
}

/// Adds what a node has of a body, an after-body and a reason.
fn push_declared(
    answer: &mut String,
    body: Option<BodyId>,
    after: Option<BodyId>,
    reason: Option<&str>,
) {
    push_body(answer, " body ", body);
    push_body(answer, " after ", after);
    if let Some(reason) = reason {
        quote(answer, " disabled ", reason)
    }
}

/// Adds a node's kind, and the parent, the id and the name of one that is not the plan.
fn push_place(answer: &mut String, tree: &Tree, node: NodeId)
    requires { node < size tree.now }
{
    show(answer, "\n", node.number());
    show(answer, " ", kind_word(tree.kind(node)));
    match tree.parent(node) {
        Some(parent) => {
            let node = tree.node(node);
            show(answer, " in ", parent.number());
            show(answer, " ", node.id.text());
            quote(answer, " ", node.name.as_str())
        }
        None => {},
    }
}

/// Adds the numbers of children.
fn push_children(answer: &mut String, children: &[NodeId]) {
    for child in children {
        show(answer, " >", child.number())
    }
}

/// Adds a line for each node: its kind, parent, id and name, and what it has of bodies, a reason and children.
fn push_each(answer: &mut String, tree: &Tree) {
    for number in 0..tree.len() {
        let node = NodeId::new(number as u16);
        push_place(answer, tree, node);
        push_declared(answer, tree.body(node), tree.after(node), tree.reason(node));
        push_children(answer, tree.children(node));
    }
}

/// Adds a line for each node, or how many there are where they are more than a hundred.
pub(crate) fn push_nodes_text(answer: &mut String, tree: &Tree) {
    if tree.len() > 100 {
        return push_nodes(answer, tree);
    }
    push_each(answer, tree)
}

/// Adds those of the tokens that are tags of a node, or that it has none.
fn push_tags(answer: &mut String, tags: &TagSet, words: &str) {
    if tags.is_empty() {
        return say(answer, " no tags");
    }
    for word in words.split(' ') {
        if tags.contains(word) {
            show(answer, " ", word)
        }
    }
}

/// Adds a line for each node, with those of the tokens that are its tags.
pub(crate) fn push_tags_text(answer: &mut String, tree: &Tree, words: &str) {
    for number in 0..tree.len() {
        show(answer, "\n", number);
        if let Some(tags) = tree.tags(NodeId::new(number as u16)) {
            push_tags(answer, tags, words);
        }
    }
}
