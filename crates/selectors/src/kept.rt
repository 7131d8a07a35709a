//! The nodes that stay: node 0, and what a node that is taken is at or below.

ghost use Rattle.std.specs.Prelude.{◌≡◌, ◌<◌, true, false, length, slice_index_or, slice_set, if◌then◌else◌};
ghost use Rattle.descriptor.specs.Nodes.{size, parent_of, IsTree};
ghost use Rattle.selectors.specs.Covered.{truths};
ghost use Rattle.selectors.specs.Keeping.{is_above};

use descriptor::{NodeId, Tree};

/// Marks the parent of a node that is marked.
fn mark_parent(tree: &Tree, marks: &mut [bool], node: NodeId)
    requires above_zero { 0 < node }
    requires inside { node < size tree.now }
    requires len { length marks.old ≡ size tree.now }
    ensures { marks.new ≡ (if slice_index_or marks.old node false then slice_set marks.old (parent_of tree.now node)
        true else marks.old) }
{
    if !marks[node.index()] {
        return;
    }
    if let Some(parent) = tree.parent(node) {
        marks[parent.index()] = true;
    }
}

/// For each node whether it stays, where it is known of each whether it is taken.
pub(crate) fn kept(tree: &Tree, taken: Vec<bool>) -> Vec<bool>
    requires tree { IsTree tree.now }
    requires len { length taken.items ≡ size tree.now }
    ensures { result.items ≡ truths (is_above tree.now (λ node. slice_index_or taken.items node false))
        (size tree.now) }
{
    let mut marks = taken;
    let mut number = marks.len();
    // each node after its children, which have greater numbers
    while number > 1 {
        number -= 1;
        mark_parent(tree, marks.as_mut_slice(), NodeId::new(number as u16));
    }
    marks[0] = true;
    marks
}
