//! The nodes that a selector names.

ghost use Rattle.std.specs.Prelude.{◌≡◌, ◌<◌, Some};
ghost use Rattle.descriptor.specs.Nodes.{size, IsTree};
ghost use Rattle.selectors.specs.ClassNames.{method_name};
ghost use Rattle.selectors.specs.Names.{names, has_spare, is_match_of, is_method, is_class_in};

use crate::class_names::{has_class_name, last_segment};
use crate::name_end::{is_of_method, method_name};
use crate::pattern::matches;
use crate::selector::Selector;
use descriptor::{NodeId, Tree};
use unique_id::Segment;

/// Whether the selector names the node. Takes no memory.
pub(crate) fn names(tree: &Tree, selector: &Selector, node: NodeId) -> bool
    requires tree { IsTree tree.now }
    requires inside { node < size tree.now }
    ensures { result ≡ names tree.now selector.now node }
{
    let Some(parent) = tree.parent(node) else {
        return false;
    };
    let subject = tree.node(node);
    match selector {
        Selector::Uid(id) => subject.id.text() == id.text() || has_spare(tree, node, id.text()),
        Selector::Class(class) => has_class_name(tree, node, class.as_str().as_bytes()),
        Selector::Method { class, method } => {
            is_method(last_segment(subject), method.as_str())
                && has_class_name(tree, parent, class.as_str().as_bytes())
        }
        Selector::Package(name) => is_class_in(last_segment(subject), name.as_str()),
        Selector::Name(pattern) => has_name_like(tree, node, pattern.as_str()),
    }
}

/// Whether the node has a name, and the pattern matches it.
fn has_name_like(tree: &Tree, node: NodeId, pattern: &str) -> bool
    requires tree { IsTree tree.now }
    requires inside { node < size tree.now }
    ensures { result ≡ is_match_of pattern.now (method_name tree.now node) }
{
    match method_name(tree, node) {
        Some(name) => matches(tree, pattern.as_bytes(), name),
        None => false,
    }
}

/// Whether the node is a factory, and a spare of it has the unique id of this canonical text.
fn has_spare(tree: &Tree, node: NodeId, id: &str) -> bool
    requires tree { IsTree tree.now }
    requires inside { node < size tree.now }
    ensures { result ≡ has_spare tree.now id.now node }
{
    if !tree.role(node).is_factory() {
        return false;
    }
    for child in tree.children(node) {
        if tree.node(*child).id.text() == id {
            return true;
        }
    }
    false
}

/// Whether the segment is a method or a test factory with this value.
fn is_method(segment: &Segment, method: &str) -> bool
    ensures { result ≡ is_method method.now (Some segment.now) }
{
    is_of_method(segment) && segment.value() == method
}

/// Whether the segment is a class whose value begins with the name of a package and a dot.
fn is_class_in(segment: &Segment, name: &str) -> bool
    ensures { result ≡ is_class_in name.now (Some segment.now) }
{
    let value = segment.value().as_bytes();
    match segment.kind() {
        "class" => match value.strip_prefix(name.as_bytes()) {
            Some(rest) => rest.starts_with(b".".as_slice()),
            None => false,
        },
        _ => false,
    }
}
