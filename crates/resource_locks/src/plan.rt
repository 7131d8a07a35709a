//! Plans.

ghost use Rattle.std.specs.Prelude.{◌≡◌, ◌<◌, ◌≤◌, ◌==◌, ◌&&◌, ◌↔◌, not, ℕ, IfOk, IfErr, IsTrue, OnOk, length, map};
ghost use Rattle.std.specs.Prelude.{slice_index_or};
ghost use Rattle.descriptor.specs.Nodes.{size, IsChild, IsTree};
ghost use Rattle.descriptor.specs.declared.mode.Mode.{Mode as ModeValue};
ghost use Rattle.descriptor.specs.declared.mode.Mode.TheVariants.{SameThread};
ghost use Rattle.resource_locks.specs.Declarations.{declared_of};
ghost use Rattle.resource_locks.specs.Held.{plan_of};
ghost use Rattle.resource_locks.specs.Hoisted.{IsHoisted, IsGuarded};
ghost use Rattle.resource_locks.specs.Keys.{keys_of};
ghost use Rattle.resource_locks.specs.Limits.{with_limits, modes_with, IsLimited, ShareLimited};
ghost use Rattle.resource_locks.specs.Plans.{mode_of, numbers_of};
ghost use Rattle.resource_locks.specs.Spares.{HasBareSpares, HasFreeSpares};

use crate::fault::PlanFault;
use crate::hoisting::{held_sets, hoisted_modes};
use crate::keys::Keys;
use crate::limits::{KeyLimit, limit_at, limited_modes, limits_of, share_limited};
use crate::lock_set::LockSet;
use descriptor::{Mode, NodeId, Role, Tree};
use std::alloc::{AllocError, Global};
use std::marker::Model;
use unique_id::{Text, both};

/// A tree that is to be executed, the execution mode of each node, and the locks that it holds
/// while it runs. Node 0 is the plan itself.
pub struct Plan {
    tree: Tree,
    // one place for each node
    modes: Vec<Mode>,
    held: Vec<LockSet>,
    keys: Vec<Text>,
    // for each key how many nodes may hold it at once, and nothing of the last keys where that is not limited
    limits: Vec<u8>,
    // for each node the numbers of the keys that it holds, in the order of its set
    numbers: Vec<Vec<u8>>,
    fail_fast: bool,
    tolerated: u16,
}

impl Drop for Plan {
    fn drop(self) {
        let Plan {
            tree: _,
            modes: _,
            held: _,
            keys: _,
            limits: _,
            numbers: _,
            fail_fast: _,
            tolerated: _,
        } = self;
    }
}

impl Model for Plan {
    ghost use Rattle.std.specs.Prelude.{map};
    ghost use Rattle.resource_locks.specs.Inside.PlanFields.{IsSound};
    ghost use Rattle.resource_locks.specs.Plans.{PlanParts};

    ghost Value = { PlanParts };

    ghost view = { λ p. record {
      tree = p.tree;
      modes = p.modes.items;
      held = p.held.items;
      keys = p.keys.items;
      limits = p.limits.items;
      fail_fast = p.fail_fast;
      tolerated = p.tolerated;
    } };

    ghost invariant = { λ p. IsSound
        (record {
          tree = p.tree;
          modes = p.modes.items;
          held = p.held.items;
          keys = p.keys.items;
          limits = p.limits.items;
          fail_fast =
              p.fail_fast;
          tolerated =
              p.tolerated;
        }) (map (λ v. v.items) p.numbers.items) };
}

/// The plan of a tree whose nodes were given these modes, as `Plan::of` makes it of a copy of the tree.
/// Refused where there are more than 256 keys (50).
pub fn hoist(alloc: Global, tree: &Tree, modes: Vec<Mode>) -> Result<Plan, PlanFault>
    requires { length modes.items ≡ size tree.now }
    ensures same { IfOk result (λ plan. plan ≡ plan_of tree.now modes.items) }
    ensures few { OnOk result (length (keys_of (declared_of tree.now)) ≤ 256) }
    ensures refused { IfErr result (λ fault. fault ≡ PlanFault.TooManyKeys →
        256 < length (keys_of (declared_of tree.now))) }
    ensures hoisted { IfOk result (λ plan. IsHoisted (declared_of tree.now)
        (λ n. slice_index_or modes.items n SameThread) plan) }
    ensures guarded { IfOk result (λ plan. IsGuarded (declared_of tree.now) plan) }
    // An engine keeps the mode that it was given: nothing is held above it.
    ensures engines { IfOk result (λ plan. (e : ℕ) → IsChild tree.now 0 e →
        mode_of plan e ≡ slice_index_or modes.items e SameThread) }
    // Spares hold keys only by what they declare, or below an engine that is a factory.
    ensures free { IfOk result (λ plan. HasBareSpares tree.now → HasFreeSpares plan) }
{
    Plan::of(alloc, tree.copy(alloc)?, modes)
}

impl Plan {
    ghost use Rattle.descriptor.specs.Nodes.{IsTree, size, count_below, is_spare_at};
    ghost use Rattle.resource_locks.specs.Plans.{IsPlan, mode_of, held_of, key_number, limit_of, most_events};

    /// The plan of a tree whose nodes were given these modes. Locks are held by the nodes that they are
    /// hoisted to: where a node at or below the child of an engine is isolated, that child holds all
    /// that is declared at or below it, and the global lock in READ_WRITE; else it holds the global lock
    /// in READ, and the first node from it down that declares locks holds all that are declared at or
    /// below it. Below a node that holds a key in READ_WRITE every node is executed in the same thread
    /// as its parent. Refused where there are more than 256 keys (50); the tree is dropped then.
    pub fn of(alloc: Global, tree: Tree, modes: Vec<Mode>) -> Result<Plan, PlanFault>
        requires { length modes.items ≡ size tree }
        ensures same { IfOk result (λ plan. plan ≡ plan_of tree modes.items) }
        ensures few { OnOk result (length (keys_of (declared_of tree)) ≤ 256) }
        ensures refused { IfErr result (λ fault. fault ≡ PlanFault.TooManyKeys →
            256 < length (keys_of (declared_of tree))) }
        ensures hoisted { IfOk result (λ plan. IsHoisted (declared_of tree)
            (λ n. slice_index_or modes.items n SameThread) plan) }
        ensures guarded { IfOk result (λ plan. IsGuarded (declared_of tree) plan) }
        ensures engines { IfOk result (λ plan. (e : ℕ) → IsChild tree 0 e →
            mode_of plan e ≡ slice_index_or modes.items e SameThread) }
        ensures free { IfOk result (λ plan. HasBareSpares tree → HasFreeSpares plan) }
    {
        match parts_of(alloc, &tree, modes) {
            Ok(parts) => Ok(Plan {
                tree,
                modes: parts.modes,
                held: parts.held,
                keys: parts.keys,
                limits: Vec::new(alloc),
                numbers: parts.numbers,
                fail_fast: false,
                tolerated: 0,
            }),
            Err(fault) => {
                drop(tree);
                Err(fault)
            }
        }
    }

    /// The tree that is to be executed.
    pub fn tree(&self) -> &Tree
        ensures same { result.now ≡ self.now.tree }
        ensures tree { IsTree self.now.tree }
        ensures plan { IsPlan self.now }
    {
        &self.tree
    }

    /// The execution mode of a node.
    pub fn mode(&self, node: NodeId) -> Mode
        requires { node < size self.now.tree }
        ensures { result ≡ mode_of self.now node }
    {
        self.modes[node.index()]
    }

    /// The locks that a node holds while it runs.
    pub fn held(&self, node: NodeId) -> &LockSet
        requires { node < size self.now.tree }
        ensures { result.now ≡ held_of self.now node }
    {
        &self.held[node.index()]
    }

    /// How many keys the plan has; each key that is held has a number below this.
    pub fn key_count(&self) -> usize
        ensures { result ≡ length self.now.keys }
    {
        self.keys.len()
    }

    /// The number of the key at a place, counted from 0, of the set that a node holds.
    pub fn key_number(&self, node: NodeId, place: usize) -> usize
        requires node { node < size self.now.tree }
        requires place { place < length (held_of self.now node) }
        ensures value { result ≡ key_number self.now node place }
        ensures inside { result < length self.now.keys }
    {
        usize::from(self.numbers[node.index()][place])
    }

    /// How many nodes may hold the key with this number at once; 0 if that is not limited.
    pub fn limit(&self, key: usize) -> u8
        ensures { result ≡ limit_of self.now key }
    {
        limit_at(&self.limits, key)
    }

    /// Whether nothing more is to start once more nodes have failed than are tolerated.
    pub fn fail_fast(&self) -> bool
        ensures { result ≡ self.now.fail_fast }
    {
        self.fail_fast
    }

    /// How many failures a plan that fails fast tolerates: 0 if nothing more is to start once a node has failed.
    pub fn tolerated(&self) -> u16
        ensures { result ≡ self.now.tolerated }
    {
        self.tolerated
    }

    /// The plan with this answer to whether nothing more is to start once more nodes have failed than are tolerated.
    pub fn with_fail_fast(self, fail_fast: bool) -> Plan
        ensures same { result ≡ record self { fail_fast = fail_fast } }
        ensures hoisted { (given : ℕ → ModeValue) → IsHoisted (declared_of self.tree) given self →
            IsHoisted (declared_of self.tree) given result }
        ensures guarded { IsGuarded (declared_of self.tree) self → IsGuarded (declared_of self.tree) result }
    {
        let mut plan = self;
        plan.fail_fast = fail_fast;
        plan
    }

    /// The plan, which tolerates so many failures if it fails fast.
    pub fn with_tolerated(self, tolerated: u16) -> Plan
        ensures same { result ≡ record self { tolerated = tolerated } }
        ensures hoisted { (given : ℕ → ModeValue) → IsHoisted (declared_of self.tree) given self →
            IsHoisted (declared_of self.tree) given result }
        ensures guarded { IsGuarded (declared_of self.tree) self → IsGuarded (declared_of self.tree) result }
    {
        let mut plan = self;
        plan.tolerated = tolerated;
        plan
    }

    /// The plan, in which no more nodes hold a key at once than is given for it; a key that is not there has no
    /// limit, and neither has the global one. Below a node that holds a limited key every node is executed in the same
    /// thread as its parent.
    pub fn with_limits(self, alloc: Global, given: &[KeyLimit]) -> Result<Plan, AllocError>
        ensures same { IfOk result (λ plan. plan ≡ with_limits self given.now) }
        ensures limited { IfOk result (λ plan. IsLimited self plan) }
        ensures hoisted { (modes : ℕ → ModeValue) → IsHoisted (declared_of self.tree) modes self →
            IfOk result (λ plan. IsHoisted (declared_of self.tree) (modes_with self plan.limits modes) plan) }
        ensures guarded { IsGuarded (declared_of self.tree) self →
            IfOk result (λ plan. IsGuarded (declared_of self.tree) plan) }
    {
        let limits = limits_of(alloc, &self.keys, given)?;
        let modes = limited_modes(alloc, &self.tree, &limits, &self.numbers, &self.modes)?;
        let mut plan = self;
        plan.limits = limits;
        plan.modes = modes;
        Ok(plan)
    }

    /// Whether two nodes hold a key that is limited.
    pub fn share_limited(&self, one: NodeId, other: NodeId) -> bool
        requires one { one < size self.now.tree }
        requires other { other < size self.now.tree }
        ensures { IsTrue result ↔ ShareLimited self.now one other }
    {
        share_limited(
            &self.limits,
            &self.numbers[one.index()],
            &self.numbers[other.index()],
        )
    }

    /// Whether no spare holds a key. Whatever the workers of such a plan have done, it can still be
    /// brought to its end. A plan with a spare that holds a key can get stuck: the thread that has the
    /// spare's factory in hand waits for the spare, the spare for who has the key, and that node for a
    /// test that only this thread may run.
    pub fn has_free_spares(&self) -> bool
        ensures { IsTrue result ↔ HasFreeSpares self.now }
    {
        for node in 0..self.tree.len() {
            if self.is_locked_spare(NodeId::new(node as u16)) {
                return false;
            }
        }
        true
    }

    /// Whether a node is a spare that holds a key.
    fn is_locked_spare(&self, node: NodeId) -> bool
        requires { node < size self.now.tree }
        ensures { result ≡ (is_spare_at self.now.tree node && not (length (held_of self.now node) == 0)) }
    {
        self.tree.role(node).is_spare() && !self.held[node.index()].locks().is_empty()
    }

    /// The greatest number of events of an execution: two for each node, the plan's included, and
    /// one more for each spare, which is registered.
    pub fn most_events(&self) -> usize
        ensures { result ≡ most_events self.now }
    {
        2 * self.tree.len() + self.spares()
    }

    fn spares(&self) -> usize
        ensures few { result ≤ size self.now.tree }
        ensures count { result ≡ count_below (is_spare_at self.now.tree) (size self.now.tree) }
    {
        let mut spares = 0;
        for node in 0..self.tree.len() {
            if self.tree.role(NodeId::new(node as u16)).is_spare() {
                spares += 1;
            }
        }
        spares
    }

    /// A copy, which shares long texts and the locks that nodes declare with this plan.
    pub fn copy(&self, alloc: Global) -> Result<Plan, AllocError>
        ensures { IfOk result (λ plan. plan ≡ self.now) }
    {
        let mut modes = Vec::new(alloc);
        modes.extend_from_slice(&self.modes)?;
        let mut limits = Vec::new(alloc);
        limits.extend_from_slice(&self.limits)?;
        let held = copied_sets(alloc, &self.held);
        let keys = copied_texts(alloc, &self.keys);
        let rest = both(keys, copied_numbers(alloc, &self.numbers));
        let (tree, rest) = both(self.tree.copy(alloc), both(held, rest))?;
        let (held, rest) = rest;
        let (keys, numbers) = rest;
        Ok(Plan {
            tree,
            modes,
            held,
            keys,
            limits,
            numbers,
            fail_fast: self.fail_fast,
            tolerated: self.tolerated,
        })
    }
}

/// What a plan has beside its tree.
#[derive(Drop)]
struct Parts {
    modes: Vec<Mode>,
    held: Vec<LockSet>,
    keys: Vec<Text>,
    numbers: Vec<Vec<u8>>,
}

/// The parts of the plan of a tree whose nodes were given these modes.
fn parts_of(alloc: Global, tree: &Tree, given: Vec<Mode>) -> Result<Parts, PlanFault>
    requires { length given.items ≡ size tree.now }
    ensures modes { IfOk result (λ parts. parts.modes.items ≡ (plan_of tree.now given.items).modes) }
    ensures held { IfOk result (λ parts. parts.held.items ≡ (plan_of tree.now given.items).held) }
    ensures keys { IfOk result (λ parts. parts.keys.items ≡ (plan_of tree.now given.items).keys) }
    ensures numbers { IfOk result (λ parts. map (λ v. v.items) parts.numbers.items
        ≡ map (numbers_of (keys_of (declared_of tree.now))) (plan_of tree.now given.items).held) }
    ensures tree { OnOk result (IsTree tree.now) }
    ensures few { OnOk result (length (keys_of (declared_of tree.now)) ≤ 256) }
    ensures refused { IfErr result (λ fault. fault ≡ PlanFault.TooManyKeys →
        256 < length (keys_of (declared_of tree.now))) }
{
    let all = Keys::of(alloc, tree)?;
    let Ok(held) = held_sets(alloc, tree) else {
        drop(all);
        return Err(PlanFault::NoMemory);
    };
    let numbers = all.all_numbers(alloc, &held);
    let modes = hoisted_modes(alloc, tree, &held, given);
    let texts = all.texts(alloc);
    drop(all);
    let (modes, rest) = both(modes, both(numbers, texts))?;
    let (numbers, keys) = rest;
    Ok(Parts {
        modes,
        held,
        keys,
        numbers,
    })
}

/// Copies of these sets, in a list of their own.
fn copied_sets(alloc: Global, sets: &[LockSet]) -> Result<Vec<LockSet>, AllocError>
    ensures { IfOk result (λ copies. copies.items ≡ sets.now) }
{
    let mut copies = Vec::new(alloc);
    for set in sets {
        copies.push(set.copy(alloc)?)?;
    }
    Ok(copies)
}

/// Copies of these texts, in a list of their own; long ones are shared.
fn copied_texts(alloc: Global, texts: &[Text]) -> Result<Vec<Text>, AllocError>
    ensures { IfOk result (λ copies. copies.items ≡ texts.now) }
{
    let mut copies = Vec::new(alloc);
    for text in texts {
        copies.push(text.copy()?)?;
    }
    Ok(copies)
}

/// Copies of these lists of numbers.
fn copied_numbers(alloc: Global, lists: &[Vec<u8>]) -> Result<Vec<Vec<u8>>, AllocError>
    ensures { IfOk result (λ copies. map (λ v. v.items) copies.items ≡ map (λ v. v.items) lists.now) }
{
    let mut copies = Vec::new(alloc);
    for list in lists {
        let mut copy = Vec::new(alloc);
        copy.extend_from_slice(list)?;
        copies.push(copy)?;
    }
    Ok(copies)
}
