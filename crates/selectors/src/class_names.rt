//! Class names, told from the unique ids without making the names.

ghost use Rattle.std.specs.Prelude.{◌≡◌, ◌≢◌, ◌<◌, ◌++◌, ◌∷◌, ℕ, List, Some, MatchOption};
ghost use Rattle.descriptor.specs.Nodes.{size, IsTree};
ghost use Rattle.selectors.specs.ClassNames.{class_name, is_text, last_of};

use descriptor::{Node, NodeId, Tree};
use unique_id::Segment;

/// What the node's unique id ends in.
pub(crate) fn last_segment(node: &Node) -> &Segment
    ensures { last_of node.now.id ≡ Some result.now }
{
    let segments = node.id.segments();
    &segments[segments.len() - 1]
}

/// Whether the node has this class name. Takes at most 64 steps.
pub(crate) fn has_class_name(tree: &Tree, node: NodeId, name: &[u8]) -> bool
    requires tree { IsTree tree.now }
    requires inside { node < size tree.now }
    ensures { result ≡ is_text (class_name tree.now node) name.now }
{
    let mut current = node;
    let mut left = name;
    while let Some(parent) = tree.parent(current) {
        let last = last_segment(tree.node(current));
        let value = last.value().as_bytes();
        match last.kind() {
            "class" => return value == left,
            "nested-class" => match outer_name(left, value) {
                Some(outer) => {
                    current = parent;
                    left = outer;
                }
                None => return false,
            },
            _ => return false,
        }
    }
    false
}

/// What stands before the dollar sign and this value at the end of a name.
fn outer_name<'a>(name: &'a [u8], value: &[u8]) -> Option<&'a [u8]>
    ensures { MatchOption result ((outer : List ℕ) → name.now ≢ outer ++ 36 ∷ value.now)
        (λ outer. name.now ≡ outer.now ++ 36 ∷ value.now) }
{
    let before = name.strip_suffix(value)?;
    before.strip_suffix(b"$".as_slice())
}
