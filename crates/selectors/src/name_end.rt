//! The names of methods, read from their ends, so that no name is made.

ghost use Rattle.std.specs.Prelude.{◌≡◌, ◌<◌, ◌∷◌, ◌++◌, List, ℕ, [], Some, None, MatchOption, reverse};
ghost use Rattle.std.specs.Option.{is_some};
ghost use Rattle.descriptor.specs.Nodes.{size, IsTree};
ghost use Rattle.unique_id.specs.declared.unique_id.Segment.{Segment};
ghost use Rattle.selectors.specs.ClassNames.{class_name, is_of_method, method_name};
ghost use Rattle.selectors.specs.ClassNames.{last_segment as segment_of};
ghost use Rattle.selectors.specs.NameEnds.{front_of, left_of, IsInName};

use crate::class_names::last_segment;
use descriptor::{NodeId, Tree};
use unique_id::Segment;

/// What is left of a name: these bytes of a node's own value, and all that stands before that value.
#[derive(Clone, Copy)]
pub(crate) struct NameEnd<'a> {
    pub(crate) number: usize,
    pub(crate) left: &'a [u8],
}

/// All of a name as far as to the end of this node's value.
fn name_to<'a>(tree: &'a Tree, node: NodeId) -> NameEnd<'a>
    requires tree { IsTree tree.now }
    requires above_zero { 0 < node }
    requires inside { node < size tree.now }
    ensures number { result.number ≡ node }
    ensures left { (segment : Segment) × (segment_of tree.now node ≡ Some segment)
        × (result.left.now ≡ segment.value) }
{
    NameEnd {
        number: node.index(),
        left: last_segment(tree.node(node)).value().as_bytes(),
    }
}

/// Whether the node has a class name. Takes at most 64 steps.
fn has_a_class_name(tree: &Tree, node: NodeId) -> bool
    requires tree { IsTree tree.now }
    requires inside { node < size tree.now }
    ensures { result ≡ is_some (class_name tree.now node) }
{
    let mut current = node;
    while let Some(parent) = tree.parent(current) {
        match last_segment(tree.node(current)).kind() {
            "class" => return true,
            "nested-class" => current = parent,
            _ => return false,
        }
    }
    false
}

/// Whether the segment is a method or a test factory.
pub(crate) fn is_of_method(segment: &Segment) -> bool
    ensures { result ≡ is_of_method segment.now }
{
    match segment.kind() {
        "method" | "test-factory" => true,
        _ => false,
    }
}

/// The name of the node, if it has one.
pub(crate) fn method_name<'a>(tree: &'a Tree, node: NodeId) -> Option<NameEnd<'a>>
    requires tree { IsTree tree.now }
    requires inside { node < size tree.now }
    ensures { MatchOption result (method_name tree.now node ≡ None) (λ name. IsInName tree.now name.number
        × (method_name tree.now node ≡ Some (reverse (left_of tree.now name)))) }
{
    let parent = tree.parent(node)?;
    if is_of_method(last_segment(tree.node(node))) && has_a_class_name(tree, parent) {
        Some(name_to(tree, node))
    } else {
        None
    }
}

/// The name of the class that this node stands in, and the sign that follows it in the node's own
/// name, if there is one.
fn sign_and_outer<'a>(tree: &'a Tree, node: NodeId) -> Option<(u8, NameEnd<'a>)>
    requires tree { IsTree tree.now }
    requires named { IsInName tree.now node }
    ensures { MatchOption result (front_of tree.now node ≡ Some []) (λ pair. IsInName tree.now pair.1.number
        × (front_of tree.now node ≡ Some (reverse (left_of tree.now pair.1) ++ pair.0 ∷ []))) }
{
    let parent = tree.parent(node)?;
    match last_segment(tree.node(node)).kind() {
        "class" => None,
        "nested-class" => Some((b'$', name_to(tree, parent))),
        _ => Some((b'#', name_to(tree, parent))),
    }
}

/// The last byte of what is left of a name, and what is left before it; nothing at the name's
/// beginning.
pub(crate) fn last_byte<'a>(tree: &'a Tree, name: NameEnd<'a>) -> Option<(u8, NameEnd<'a>)>
    requires tree { IsTree tree.now }
    requires named { IsInName tree.now name.number }
    ensures { MatchOption result (left_of tree.now name.entry ≡ []) (λ pair. IsInName tree.now pair.1.number
        × (left_of tree.now name.entry ≡ pair.0 ∷ left_of tree.now pair.1)) }
{
    match name.left.split_last() {
        Some((byte, left)) => Some((
            *byte,
            NameEnd {
                number: name.number,
                left,
            },
        )),
        None => sign_and_outer(tree, NodeId::new(name.number as u16)),
    }
}
