//! Lists in which a node's first chosen child, and a child's next chosen sibling, are found at once.

ghost use Rattle.std.specs.Prelude.{◌≡◌, ◌<◌, suc, None, IfOk, length, replicate};
ghost use Rattle.descriptor.specs.Nodes.{size};
ghost use Rattle.scheduling.specs.LinkLists.{IsLinked, IsLinkedFrom, chosen_child};

use descriptor::{NodeId, Tree};
use std::alloc::{AllocError, Global};

/// Of the children of each node that are chosen the first, and for each node the next chosen child of its parent.
#[derive(Drop)]
pub(crate) struct Links {
    pub(crate) first: Vec<Option<NodeId>>,
    pub(crate) next: Vec<Option<NodeId>>,
}

/// A list of so many places, with no node in them.
fn no_nodes(alloc: Global, many: usize) -> Result<Vec<Option<NodeId>>, AllocError>
    ensures { IfOk result (λ nodes. nodes.items ≡ replicate many None) }
{
    vec![in alloc; None; many]
}

impl Links {
    /// The links between the chosen nodes of a tree: one place for each node says whether it is chosen.
    pub(crate) fn new(alloc: Global, tree: &Tree, chosen: &[bool]) -> Result<Links, AllocError>
        requires { length chosen.now ≡ size tree.now }
        ensures { IfOk result (λ links. IsLinked tree.now (chosen_child tree.now chosen.now) links) }
    {
        let mut links = Links {
            first: no_nodes(alloc, tree.len())?,
            next: no_nodes(alloc, tree.len())?,
        };
        let mut number = tree.len();
        while number > 0 {
            number -= 1;
            links.put(tree, NodeId::new(number as u16), chosen);
        }
        Ok(links)
    }

    /// Puts one more node before those that are linked, which all have greater numbers.
    fn put(&mut self, tree: &Tree, node: NodeId, chosen: &[bool])
        requires len { length chosen.now ≡ size tree.now }
        requires inside { node < size tree.now }
        requires linked { IsLinkedFrom tree.now (chosen_child tree.now chosen.now) (suc node) self.old }
        ensures { IsLinkedFrom tree.now (chosen_child tree.now chosen.now) node self.new }
    {
        let Some(parent) = tree.parent(node) else {
            return;
        };
        self.next[node.index()] = self.first[parent.index()];
        if chosen[node.index()] {
            self.first[parent.index()] = Some(node);
        }
    }
}
