//! Building a tree node by node.

ghost use Rattle.std.specs.Prelude.{◌≡◌, ◌≢◌, ℕ, ◌<◌, ◌≤◌, ◌↔◌, IsTrue, None, Some, OnOk, OnErr, IfOk, IfErr, IfSome};

use crate::body_id::BodyId;
use crate::body_marks::BodyMarks;
use crate::fault::TreeFault;
use crate::hash::hash_of;
use crate::node::Node;
use crate::node_id::NodeId;
use crate::node_limit::{MOST_NODES, NodeLimit};
use crate::tree::Tree;
use std::alloc::{AllocError, Global};
use std::collections::HashSet;
use std::marker::Model;
use unique_id::both;

/// The greatest depth of a node; the plan has depth 0.
const MOST_DEPTH: u8 = 64;

/// A tree that grows at its end: each node comes right after the nodes below its elder sibling.
pub struct TreeBuilder {
    tree: Tree,
    // the hashes of the nodes' unique ids: only if it has that of an id are the nodes looked through for it
    hashes: HashSet<u64>,
    // the bodies of the tree
    bodies: BodyMarks,
}

impl Drop for TreeBuilder {
    fn drop(self) {
        let TreeBuilder {
            tree: _,
            hashes: _,
            bodies: _,
        } = self;
    }
}

impl Model for TreeBuilder {
    ghost use Rattle.descriptor.specs.Nodes.{Nodes};

    ghost Value = { Nodes };

    ghost use Rattle.descriptor.specs.Inside.BuilderFields.{IsBuilderSound};

    ghost view = { λ b. b.tree };

    ghost invariant = { IsBuilderSound };
}

impl TreeBuilder {
    ghost use Rattle.descriptor.specs.Children.{ListsChildren};
    ghost use Rattle.descriptor.specs.Nodes.{size, plan_alone, appended, MayTake, IsTree};
    ghost use Rattle.descriptor.specs.Bodies.{with_after};
    ghost use Rattle.descriptor.specs.Refusals.{refusal, after_refusal, has_text, has_body, repeats_body};
    ghost use Rattle.descriptor.specs.Inside.Hashes.{hash_of};
    ghost use Rattle.unique_id.specs.Spelling.{spelling};

    /// The builder of a tree of the plan alone.
    pub fn new(alloc: Global) -> Result<TreeBuilder, AllocError>
        ensures { IfOk result (λ b. b ≡ plan_alone) }
    {
        TreeBuilder::with_capacity(alloc, 0)
    }

    /// The builder of a tree of the plan alone, with room for so many nodes besides, but for no more than a tree may
    /// have.
    pub fn with_capacity(alloc: Global, nodes: usize) -> Result<TreeBuilder, AllocError>
        ensures { IfOk result (λ b. b ≡ plan_alone) }
    {
        let nodes = nodes.min(MOST_NODES);
        let bodies = BodyMarks::none(alloc)?;
        let hashes = HashSet::with_capacity(alloc, nodes);
        let (tree, hashes) = both(Tree::with_capacity(alloc, nodes), hashes)?;
        Ok(TreeBuilder {
            tree,
            hashes,
            bodies,
        })
    }

    /// Whether the next node may be a child of this one, which is so for the last node and for
    /// each node that it is below.
    pub fn may_take(&self, parent: NodeId) -> bool
        ensures { IsTrue result ↔ MayTake self.now parent }
    {
        let last = self.tree.last();
        parent == last || self.tree.below(last, parent)
    }

    /// Adds the next node as the last child of a node that may take it, and returns its number. The tree has no more
    /// nodes than this limit then.
    ///
    /// Errors: the first of refusals 10 to 18 that holds, and else want of memory.
    pub fn add(
        &mut self,
        alloc: Global,
        limit: NodeLimit,
        parent: NodeId,
        node: Node,
    ) -> Result<NodeId, TreeFault>
        requires { MayTake self.old parent }
        ensures ok { IfOk result (λ number. (number ≡ size self.old) × (refusal limit self.old parent node ≡ None)) }
        ensures added { OnOk result (self.new ≡ appended self.old parent node) }
        ensures refused { IfErr result (λ fault. fault ≢ TreeFault.NoMemory →
            refusal limit self.old parent node ≡ Some fault) }
        ensures no_memory { IfErr result (λ fault. fault ≡ TreeFault.NoMemory →
            refusal limit self.old parent node ≡ None) }
        ensures err { OnErr result (self.new ≡ self.old) }
    {
        let hash = hash_of(node.id.text());
        if let Some(fault) = self.refusal(limit, parent, &node, hash) {
            drop(node);
            return Err(fault);
        }
        let (body, after) = (node.body, node.after);
        if self.hashes.reserve(1).is_err() {
            drop(node);
            return Err(TreeFault::NoMemory);
        }
        let number = self.tree.push(alloc, parent, node)?;
        // nothing below can fail, so that an `Err` leaves the builder as it was
        let Ok(_) = self.hashes.insert(hash) else {
            unreachable!()
        };
        self.bodies.put(body);
        self.bodies.put(after);
        Ok(number)
    }

    /// Gives a node of the tree an after-body, for a caller that learns of it after the nodes below.
    ///
    /// Errors: refusal 15 where the body is one already; else 18 where the node is the plan, a factory, or a test that
    /// holds no other node, or has an after-body.
    pub fn set_after(&mut self, node: NodeId, body: BodyId) -> Result<(), TreeFault>
        requires { node < size self.old }
        ensures ok { IfOk result (λ _. after_refusal self.old node body ≡ None) }
        ensures set { OnOk result (self.new ≡ with_after self.old node body) }
        ensures refused { IfErr result (λ fault. after_refusal self.old node body ≡ Some fault) }
        ensures err { OnErr result (self.new ≡ self.old) }
    {
        if let Some(fault) = self.after_refusal(node, body) {
            return Err(fault);
        }
        self.tree.set_after(node, body);
        self.bodies.put(Some(body));
        Ok(())
    }

    /// The tree so far.
    pub fn tree(&self) -> &Tree
        ensures same { result.now ≡ self.now }
        ensures tree { IsTree self.now }
    {
        // the contract of `len` tells that it is a tree
        let _ = self.tree.len();
        &self.tree
    }

    /// The tree as it is.
    pub fn finish(self) -> Tree
        ensures same { result ≡ self }
        ensures tree { IsTree result }
        ensures children { (n : ℕ) → ListsChildren result n }
    {
        // the contract of `len` tells that it is a tree
        let _ = self.tree.len();
        let TreeBuilder {
            tree,
            hashes: _,
            bodies: _,
        } = self;
        tree
    }

    /// Why a node is refused, whose unique id has this hash, if there may be no more nodes than the limit.
    fn refusal(&self, limit: NodeLimit, parent: NodeId, node: &Node, hash: u64) -> Option<TreeFault>
        requires inside { parent < size self.now }
        requires hashed { hash ≡ hash_of (spelling node.now.id) }
        ensures first { result ≡ refusal limit self.now parent node.now }
        ensures no_memory { IfSome result (λ fault. fault ≢ TreeFault.NoMemory) }
        ensures few { limit ≤ 16383 }
    {
        if self.tree.len() > limit.nodes() {
            Some(TreeFault::TooMany)
        } else if self.tree.depth(parent) == MOST_DEPTH {
            Some(TreeFault::TooDeep)
        } else if self.has_id(node.id.text(), hash) {
            Some(TreeFault::DoubleId)
        } else if !self.tree.kind(parent).is_container() {
            Some(TreeFault::ParentIsTest)
        } else if parent == NodeId::ROOT && node.declares() {
            Some(TreeFault::EngineLock)
        } else if self.repeats_body(node) {
            Some(TreeFault::BodyTwice)
        } else if node.is_misplaced(self.tree.role(parent)) {
            Some(TreeFault::SpareOutsideFactory)
        } else if node.is_over_limit() {
            Some(TreeFault::OverLimit)
        } else if node.has_misplaced_after() {
            Some(TreeFault::AfterMisplaced)
        } else {
            None
        }
    }

    /// Whether a node of the tree has the unique id of this canonical text, which has this hash.
    fn has_id(&self, text: &str, hash: u64) -> bool
        requires { hash ≡ hash_of text.now }
        ensures { result ≡ has_text self.now text.now }
    {
        self.hashes.contains(&hash) && self.tree.has_id(text)
    }

    fn after_refusal(&self, node: NodeId, body: BodyId) -> Option<TreeFault>
        requires { node < size self.now }
        ensures { result ≡ after_refusal self.now node body }
    {
        if self.has_body(Some(body)) {
            Some(TreeFault::BodyTwice)
        } else if node != NodeId::ROOT && self.tree.node(node).may_get_after() {
            None
        } else {
            Some(TreeFault::AfterMisplaced)
        }
    }

    fn repeats_body(&self, node: &Node) -> bool
        ensures { result ≡ repeats_body self.now node.now }
    {
        self.has_body(node.body) || self.has_body(node.after) || node.repeats_itself()
    }

    fn has_body(&self, body: Option<BodyId>) -> bool
        ensures { result ≡ has_body self.now body }
    {
        match body {
            Some(body) => self.bodies.has(body),
            None => false,
        }
    }
}
