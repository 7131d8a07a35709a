//! A tree of nodes.

ghost use Rattle.std.specs.Prelude.{◌≡◌, ℕ, ◌<◌, ◌≤◌, ◌-◌, ◌↔◌, length, IsTrue, None, Some, OnOk, OnErr, IfSome};
ghost use Rattle.std.specs.Prelude.{IfOk, IsNone, All, true};

use crate::body_id::BodyId;
use crate::kind::Kind;
use crate::lock::Lock;
use crate::mode::Mode;
use crate::node::Node;
use crate::node_id::NodeId;
use crate::role::Role;
use std::alloc::{AllocError, Global};
use std::marker::Model;
use tag_expr::TagSet;
use unique_id::{Text, both};

/// A tree of nodes, numbered in preorder. Node 0 is the plan.
#[derive(Debug)]
pub struct Tree {
    // one place for each node, the plan included
    parents: Vec<NodeId>,
    depths: Vec<u8>,
    children: Vec<Vec<NodeId>>,
    // from node 1
    nodes: Vec<Node>,
}

impl Drop for Tree {
    fn drop(self) {
        let Tree {
            parents: _,
            depths: _,
            children: _,
            nodes: _,
        } = self;
    }
}

impl Model for Tree {
    ghost use Rattle.descriptor.specs.Nodes.{Nodes};

    ghost Value = { Nodes };

    ghost use Rattle.descriptor.specs.Inside.Fields.{nodes_of, IsSound};

    ghost view = { nodes_of };

    ghost invariant = { IsSound };
}

impl Tree {
    ghost use Rattle.std.specs.Option.{is_some};
    ghost use Rattle.descriptor.specs.Children.{ListsChildren};
    ghost use Rattle.descriptor.specs.Pruned.{IsClosed, KeepsNodes, pruned};
    ghost use Rattle.descriptor.specs.Bodies.{with_after};
    ghost use Rattle.descriptor.specs.Refusals.{refusal, after_refusal, has_text};
    ghost use Rattle.descriptor.specs.Nodes.{size, plan_alone, parent_of, children_of, node_at, kind_of, role_of};
    ghost use Rattle.descriptor.specs.Nodes.{mode_of, locks_of, is_isolated_at, body_of, after_of, reason_of};
    ghost use Rattle.descriptor.specs.Nodes.{is_disabled, tags_of, depth_of, appended, Below, MayTake, IsTree};
    ghost use Rattle.descriptor.specs.Nodes.{IsChild};

    /// How many nodes there are, the plan included.
    pub fn len(&self) -> usize
        ensures len { result ≡ size self.now }
        ensures tree { IsTree self.now }
    {
        self.parents.len()
    }

    /// The node that a node is a child of; the plan has none.
    pub fn parent(&self, node: NodeId) -> Option<NodeId>
        requires { node < size self.now }
        ensures root { IsNone result ↔ (node ≡ 0) }
        ensures parent { IfSome result (λ parent. IsChild self.now parent node) }
        ensures value { IfSome result (λ parent. parent ≡ parent_of self.now node) }
        ensures smaller { IfSome result (λ parent. parent < node) }
    {
        if node == NodeId::ROOT {
            None
        } else {
            Some(self.parents[node.index()])
        }
    }

    /// The children of a node, in order.
    pub fn children(&self, node: NodeId) -> &[NodeId]
        requires { node < size self.now }
        ensures { result.now ≡ children_of self.now node }
    {
        &self.children[node.index()]
    }

    /// What the tree was given for a node; it was given nothing for the plan.
    pub fn node(&self, node: NodeId) -> &Node
        requires above_zero { 0 < node }
        requires inside { node < size self.now }
        ensures { node_at self.now node ≡ Some result.now }
    {
        &self.nodes[node.index() - 1]
    }

    /// What a node may hold; the plan is a container.
    pub fn kind(&self, node: NodeId) -> Kind
        requires { node < size self.now }
        ensures { result ≡ kind_of self.now node }
    {
        if node == NodeId::ROOT {
            Kind::Container
        } else {
            self.node(node).kind
        }
    }

    /// What a node does in a plan that grows while it runs; the plan itself has no special role.
    pub fn role(&self, node: NodeId) -> Role
        requires { node < size self.now }
        ensures { result ≡ role_of self.now node }
    {
        if node == NodeId::ROOT {
            Role::Plain
        } else {
            self.node(node).role
        }
    }

    /// The execution mode that a node declares, if any; the plan declares none.
    pub fn mode(&self, node: NodeId) -> Option<Mode>
        requires { node < size self.now }
        ensures { result ≡ mode_of self.now node }
    {
        if node == NodeId::ROOT {
            None
        } else {
            self.node(node).mode
        }
    }

    /// The locks that a node declares, in order; the plan declares none.
    pub fn locks(&self, node: NodeId) -> &[Lock]
        requires { node < size self.now }
        ensures { result.now ≡ locks_of self.now node }
    {
        if node == NodeId::ROOT {
            &[]
        } else {
            self.node(node).locks.as_slice()
        }
    }

    /// Whether a node is isolated; the plan is not.
    pub fn is_isolated(&self, node: NodeId) -> bool
        requires { node < size self.now }
        ensures { result ≡ is_isolated_at self.now node }
    {
        node != NodeId::ROOT && self.node(node).isolated
    }

    /// What runs for a node, if anything; nothing runs for the plan.
    pub fn body(&self, node: NodeId) -> Option<BodyId>
        requires { node < size self.now }
        ensures { result ≡ body_of self.now node }
    {
        if node == NodeId::ROOT {
            None
        } else {
            self.node(node).body
        }
    }

    /// What runs after the nodes below a node, if anything; nothing does for the plan.
    pub fn after(&self, node: NodeId) -> Option<BodyId>
        requires { node < size self.now }
        ensures { result ≡ after_of self.now node }
    {
        if node == NodeId::ROOT {
            None
        } else {
            self.node(node).after
        }
    }

    /// Why a node is disabled, if it is; the plan is not.
    pub fn reason(&self, node: NodeId) -> Option<&str>
        requires { node < size self.now }
        ensures some { IfSome result (λ reason. reason_of self.now node ≡ Some reason.now) }
        ensures none { IsNone result ↔ (reason_of self.now node ≡ None) }
        ensures disabled { is_some result ≡ is_disabled self.now node }
    {
        if node == NodeId::ROOT {
            None
        } else {
            self.node(node).disabled.as_ref().map(Text::as_str)
        }
    }

    /// The tags of the node itself, not of those above; the plan is given none.
    pub fn tags(&self, node: NodeId) -> Option<&TagSet>
        requires { node < size self.now }
        ensures tags { IfSome result (λ tags. tags.now ≡ tags_of self.now node) }
        ensures root { IsNone result ↔ (node ≡ 0) }
    {
        if node == NodeId::ROOT {
            None
        } else {
            Some(&self.node(node).tags)
        }
    }

    /// Whether the first node is reached from the second by one or more steps to a child. Takes at
    /// most 64 steps.
    pub fn below(&self, node: NodeId, ancestor: NodeId) -> bool
        requires { node < size self.now }
        ensures below { IsTrue result ↔ Below self.now ancestor node }
        ensures smaller { IsTrue result → ancestor < node }
    {
        let mut current = node;
        while let Some(parent) = self.parent(current) {
            if parent == ancestor {
                return true;
            }
            current = parent;
        }
        false
    }

    /// Whether a tree of the nodes that are kept can be made: the plan is kept, and so is the
    /// parent of each kept node.
    pub fn is_closed(&self, keep: &[bool]) -> bool
        requires { length keep.now ≡ size self.now }
        ensures { IsTrue result ↔ IsClosed self.now keep.now }
    {
        for node in 1..self.len() {
            if keep[node] && !keep[self.parents[node].index()] {
                return false;
            }
        }
        keep[0]
    }

    /// The tree of the nodes that are kept, numbered anew, with copies of what was told of them.
    pub fn pruned(&self, alloc: Global, keep: &[bool]) -> Result<Tree, AllocError>
        requires one_each { length keep.now ≡ size self.now }
        requires closed { IsClosed self.now keep.now }
        ensures same { IfOk result (λ tree. tree ≡ pruned self.now keep.now) }
        ensures kept { IfOk result (λ tree. KeepsNodes self.now keep.now tree) }
        ensures tree { IfOk result (λ tree. IsTree tree) }
        ensures children { IfOk result (λ tree. (n : ℕ) → ListsChildren tree n) }
    {
        let mut tree = Tree::new(alloc)?;
        match self.put_kept(alloc, keep, &mut tree) {
            Ok(()) => Ok(tree),
            Err(error) => {
                drop(tree);
                Err(error)
            }
        }
    }

    /// Adds copies of the nodes that are kept to a tree of the plan alone.
    fn put_kept(&self, alloc: Global, keep: &[bool], tree: &mut Tree) -> Result<(), AllocError>
        requires one_each { length keep.now ≡ size self.now }
        requires closed { IsClosed self.now keep.now }
        requires plan { tree.old ≡ plan_alone }
        ensures same { OnOk result (tree.new ≡ pruned self.now keep.now) }
        ensures kept { OnOk result (KeepsNodes self.now keep.now tree.new) }
        ensures tree { OnOk result (IsTree tree.new) }
        ensures children { OnOk result ((n : ℕ) → ListsChildren tree.new n) }
    {
        // the new number of each node; where a node is not kept, that of the next one that is
        let mut numbers = vec![in alloc; NodeId::ROOT]?;
        for node in 1..self.len() {
            numbers.push(NodeId::new(tree.len() as u16))?;
            if keep[node] {
                let parent = numbers[self.parents[node].index()];
                tree.push_copy(alloc, parent, &self.nodes[node - 1])?;
            }
        }
        Ok(())
    }

    /// The tree of the kept nodes, as `pruned` makes it; this very tree, without a copy, where every node is kept.
    pub fn into_pruned(self, alloc: Global, keep: &[bool]) -> Result<Tree, AllocError>
        requires one_each { length keep.now ≡ size self }
        requires closed { IsClosed self keep.now }
        ensures same { IfOk result (λ tree. tree ≡ pruned self keep.now) }
        ensures kept { IfOk result (λ tree. KeepsNodes self keep.now tree) }
        ensures tree { IfOk result (λ tree. IsTree tree) }
        ensures children { IfOk result (λ tree. (n : ℕ) → ListsChildren tree n) }
    {
        if self.keeps_all(keep) {
            return Ok(self);
        }
        let pruned = self.pruned(alloc, keep);
        drop(self);
        pruned
    }

    /// Whether every node is kept; the tree of the kept nodes is then this one.
    fn keeps_all(&self, keep: &[bool]) -> bool
        requires { length keep.now ≡ size self.now }
        ensures all { IsTrue result ↔ All (λ kept. kept ≡ true) keep.now }
        ensures same { IsTrue result → pruned self.now keep.now ≡ self.now }
        ensures tree { IsTree self.now }
    {
        // nothing else than the plan's own number stands for its parent
        let _ = &self.parents;
        are_all(keep)
    }

    /// A copy, which shares the locks of nodes and their long texts with this tree.
    pub fn copy(&self, alloc: Global) -> Result<Tree, AllocError>
        ensures { IfOk result (λ tree. tree ≡ self.now) }
    {
        let all = vec![in alloc; true; self.parents.len()]?;
        self.pruned(alloc, all.as_slice())
    }

    /// The tree of the plan alone.
    pub(crate) fn new(alloc: Global) -> Result<Tree, AllocError>
        ensures { IfOk result (λ t. t ≡ plan_alone) }
    {
        Tree::with_capacity(alloc, 0)
    }

    /// The tree of the plan alone, with room for so many nodes besides.
    pub(crate) fn with_capacity(alloc: Global, nodes: usize) -> Result<Tree, AllocError>
        requires { nodes ≤ 16384 }
        ensures { IfOk result (λ t. t ≡ plan_alone) }
    {
        let parents = list_of_one(alloc, nodes, NodeId::ROOT);
        let (parents, depths) = both(parents, list_of_one(alloc, nodes, 0u8))?;
        let children = list_of_one(alloc, nodes, Vec::new(alloc));
        let (children, nodes) = both(children, Vec::with_capacity(alloc, nodes))?;
        Ok(Tree {
            parents,
            depths,
            children,
            nodes,
        })
    }

    /// Adds a last node.
    pub(crate) fn push(
        &mut self,
        alloc: Global,
        parent: NodeId,
        node: Node,
    ) -> Result<NodeId, AllocError>
        requires may_take { MayTake self.old parent }
        requires accepted { refusal 16383 self.old parent node ≡ None }
        ensures number { IfOk result (λ number. number ≡ size self.old) }
        ensures ok { OnOk result (self.new ≡ appended self.old parent node) }
        ensures err { OnErr result (self.new ≡ self.old) }
    {
        let number = NodeId::new(self.parents.len() as u16);
        let place = add_place(
            alloc,
            parent,
            &mut self.parents,
            &mut self.depths,
            &mut self.children,
            &mut self.nodes,
        );
        match place {
            Ok(()) => {
                self.nodes.push_reserved(node);
                Ok(number)
            }
            Err(error) => {
                drop(node);
                Err(error)
            }
        }
    }

    /// Adds a copy of a node as the last node.
    fn push_copy(&mut self, alloc: Global, parent: NodeId, node: &Node) -> Result<(), AllocError>
        requires may_take { MayTake self.old parent }
        requires accepted { refusal 16383 self.old parent node.now ≡ None }
        ensures { OnOk result (self.new ≡ appended self.old parent node.now) }
    {
        let copy = node.copy(alloc)?;
        self.push(alloc, parent, copy)?;
        Ok(())
    }

    /// Whether a node has the unique id of this canonical text.
    pub(crate) fn has_id(&self, text: &str) -> bool
        ensures { result ≡ has_text self.now text.now }
    {
        self.nodes.iter().any(|node| node.id.text() == text)
    }

    /// Gives a node an after-body.
    pub(crate) fn set_after(&mut self, node: NodeId, body: BodyId)
        requires above_zero { 0 < node }
        requires inside { node < size self.old }
        requires accepted { after_refusal self.old node body ≡ None }
        ensures { self.new ≡ with_after self.old node body }
    {
        self.nodes[node.index() - 1].after = Some(body);
    }

    /// The last node.
    pub(crate) fn last(&self) -> NodeId
        ensures last { result ≡ size self.now - 1 }
        ensures inside { result < size self.now }
        ensures few { size self.now ≤ 16384 }
    {
        NodeId::new((self.parents.len() - 1) as u16)
    }

    /// How many steps lead from the plan to the node.
    pub(crate) fn depth(&self, node: NodeId) -> u8
        requires { node < size self.now }
        ensures { result ≡ depth_of self.now node }
    {
        self.depths[node.index()]
    }
}

/// Whether each of these is so.
fn are_all(values: &[bool]) -> bool
    ensures { IsTrue result ↔ All (λ value. value ≡ true) values.now }
{
    values.iter().all(|value| *value)
}

ghost use Rattle.std.specs.Prelude.{[], ◌∷◌, ◌++◌, ◌^◌, suc, slice_index_or, vec_len, vec_capacity};
ghost use Rattle.descriptor.specs.Inside.Fields.{numbers_in, with_child};

/// A list of one item, with room for so many besides.
fn list_of_one<T: Drop>(alloc: Global, more: usize, item: T) -> Result<Vec<T>, AllocError>
    requires { more ≤ 16384 }
    ensures { IfOk result (λ list. list.items ≡ item ∷ []) }
{
    let mut list = Vec::with_capacity(alloc, more + 1)?;
    list.push(item)?;
    Ok(list)
}

/// Adds a last place, for a child of a node, and makes room for what is told of it.
fn add_place(
    alloc: Global,
    parent: NodeId,
    parents: &mut Vec<NodeId>,
    depths: &mut Vec<u8>,
    children: &mut Vec<Vec<NodeId>>,
    nodes: &mut Vec<Node>,
) -> Result<(), AllocError>
    requires deep { parent < length depths.old.items }
    requires listed { parent < length children.old.items }
    requires few { length parents.old.items < 2 ^ 16 }
    requires shallow { slice_index_or depths.old.items parent 0 < 255 }
    ensures parents { OnOk result (parents.new.items ≡ parents.old.items ++ parent ∷ []) }
    ensures depths { OnOk result (depths.new.items ≡ depths.old.items ++ suc (slice_index_or depths.old.items parent 0) ∷ []) }
    ensures children { OnOk result (numbers_in children.new.items ≡ with_child (numbers_in children.old.items) parent (length parents.old.items)) }
    ensures nodes { nodes.new.items ≡ nodes.old.items }
    ensures room { OnOk result (vec_len nodes.new < vec_capacity nodes.new) }
    ensures err_parents { OnErr result (parents.new.items ≡ parents.old.items) }
    ensures err_depths { OnErr result (depths.new.items ≡ depths.old.items) }
    ensures err_children { OnErr result (numbers_in children.new.items ≡ numbers_in children.old.items) }
{
    let number = NodeId::new(parents.len() as u16);
    let depth = depths[parent.index()] + 1;
    // room first: from the last `?` on nothing can fail
    let counted = both(parents.reserve(1), depths.reserve(1));
    let _ = both(counted, both(children.reserve(1), nodes.reserve(1)))?;
    children[parent.index()].push(number)?;
    parents.push_reserved(parent);
    depths.push_reserved(depth);
    children.push_reserved(Vec::new(alloc));
    Ok(())
}
