//! The keys that a worker has found busy.

ghost use Rattle.std.specs.Prelude.{◌≡◌, ◌≢◌, [], true, IfOk};

use descriptor::{LockMode, NodeId};
use resource_locks::Plan;
use std::alloc::{AllocError, Global};
use std::marker::Model;

/// How many busy keys a worker remembers at most.
const MOST: usize = 8;

/// A key, and how it was wanted.
#[derive(Clone, Copy)]
struct BusyKey {
    key: usize,
    mode: LockMode,
}

/// The keys that were found busy since the last rest: nodes that hold them are not tried before the next one.
#[derive(Drop)]
pub(crate) struct BusyKeys {
    keys: Vec<BusyKey>,
}

impl Model for BusyKeys {
    ghost use Rattle.std.specs.Prelude.{List};
    ghost use Rattle.node_sources.specs.declared.busy.BusyKey.{BusyKey};

    ghost Value = { List BusyKey };

    ghost view = { λ b. b.keys.items };
}

impl BusyKeys {
    pub(crate) fn new(alloc: Global) -> Result<BusyKeys, AllocError>
        ensures { IfOk result (λ keys. keys ≡ []) }
    {
        Ok(BusyKeys {
            keys: Vec::with_capacity(alloc, MOST)?,
        })
    }

    /// All may be tried again.
    pub(crate) fn forget(&mut self)
        ensures { self.new ≡ [] }
    {
        self.keys.clear();
    }

    /// The node's key behind the first so many was busy.
    pub(crate) fn note(&mut self, plan: &Plan, node: NodeId, taken: usize) {
        if node.index() >= plan.tree().len() {
            return;
        }
        let locks = plan.held(node).locks();
        if taken < locks.len() && self.keys.len() < MOST {
            let key = plan.key_number(node, taken);
            let mode = locks[taken].mode;
            // There is room, so it takes no memory.
            let _ = self.keys.push(BusyKey { key, mode });
        }
    }

    /// Whether a key was busy for one who wants it so.
    fn has(&self, key: usize, mode: LockMode) -> bool {
        self.keys.iter().any(|busy| {
            busy.key == key && (busy.mode == LockMode::Read || mode == LockMode::ReadWrite)
        })
    }

    /// Whether a key of this node was busy.
    pub(crate) fn stop(&self, plan: &Plan, node: NodeId) -> bool
        ensures { result ≡ true → self.now ≢ [] }
    {
        if self.keys.is_empty() || node.index() >= plan.tree().len() {
            return false;
        }
        let locks = plan.held(node).locks();
        for place in 0..locks.len() {
            if self.has(plan.key_number(node, place), locks[place].mode) {
                return true;
            }
        }
        false
    }
}

/// Whether two nodes hold the same locks.
pub(crate) fn hold_alike(plan: &Plan, one: NodeId, other: NodeId) -> bool {
    let nodes = plan.tree().len();
    if one.index() >= nodes || other.index() >= nodes {
        return false;
    }
    let locks = plan.held(one).locks();
    let others = plan.held(other).locks();
    if locks.len() != others.len() {
        return false;
    }
    for place in 0..locks.len() {
        let is_same_key = plan.key_number(one, place) == plan.key_number(other, place);
        if !is_same_key || locks[place].mode != others[place].mode {
            return false;
        }
    }
    true
}
