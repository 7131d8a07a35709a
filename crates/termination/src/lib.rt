//! How many steps a run takes at most, and plans of which every run ends, whatever its workers do and
//! in whatever order.

#![tactic(auto)]

ghost use Rattle.std.specs.Prelude.{◌≡◌, ◌<◌, ◌↔◌, ℕ, IsTrue};
ghost use Rattle.descriptor.specs.Nodes.{size};
ghost use Rattle.resource_locks.specs.Held.{plan_of};
ghost use Rattle.resource_locks.specs.Plans.{PlanParts, IsPlan};
ghost use Rattle.resource_locks.specs.Spares.{HasFreeSpares};
ghost use Rattle.termination.specs.Bounds.{most_steps};
ghost use Rattle.termination.specs.Conflicts.{IsFreeOfConflict, IsOnOneThread};
ghost use Rattle.termination.specs.Endings.{IsBounded, IsShort, RestsAtItsEnd, EveryRunEnds};
ghost use Rattle.termination.specs.Inside.Branches.{IsKeptApartFrom};
ghost use Rattle.termination.specs.LongRun.{Takes, long_tree, long_modes, long_plan};
ghost use Rattle.termination.specs.Round.{GetsRound, HasNoBound, disputed_tree, disputed_modes, disputed_plan};

mod turns;

use descriptor::NodeId;
use resource_locks::Plan;
use turns::are_kept_apart;

/// Of every plan a list of steps that each change the state is no longer than the plan, the number of
/// workers and the times that a worker is turned back at a key say. If no spare holds a key, such a
/// step can be taken as long as the run is not over.
pub fn steps_are_bounded()
    ensures bounded { (p : PlanParts) → IsPlan p → IsBounded p }
    ensures rests { (p : PlanParts) → IsPlan p → HasFreeSpares p → RestsAtItsEnd p }
{}

/// Whether no two nodes that may run side by side hold locks that conflict, or a limited key. Of such a plan every run
/// ends. Takes for each two nodes at most as many steps as one holds locks times those of the other, and for each two that
/// are in the way of one another at most 8,192 more.
pub fn is_free_of_conflict(plan: &Plan) -> bool
    ensures free { IsTrue result ↔ IsFreeOfConflict plan.now }
    ensures one_thread { IsOnOneThread plan.now → IsTrue result }
    ensures short { IsTrue result → IsShort plan.now }
    ensures ends { IsTrue result → HasFreeSpares plan.now → EveryRunEnds plan.now }
{
    for node in 0..plan.tree().len() {
        if !is_kept_apart(plan, NodeId::new(node as u16)) {
            return false;
        }
    }
    true
}

/// Whether a node takes turns with each node before it with whose locks its own conflict.
fn is_kept_apart(plan: &Plan, node: NodeId) -> bool
    requires { node < size plan.now.tree }
    ensures { IsTrue result ↔ IsKeptApartFrom plan.now node node }
{
    for other in 0..node.index() {
        if !are_kept_apart(plan, node, NodeId::new(other as u16)) {
            return false;
        }
    }
    true
}

/// A run can go round for ever of a plan with two nodes that want a key in READ_WRITE: one worker has the
/// key, and another one tries to take it again and again.
pub fn disputed_key()
    ensures disputed { IsFreeOfConflict disputed_plan → ⊥ }
    ensures round { GetsRound disputed_plan }
    ensures endless { HasNoBound disputed_plan }
    // `Plan::of` gives this plan of its tree, with these modes.
    ensures made { plan_of disputed_tree disputed_modes ≡ disputed_plan }
{}

/// The bound is nearly reached: of a plan of three classes, each with two keys, one worker and the
/// dispatcher take 73 steps, where it allows 82.
pub fn long_run()
    ensures taken { Takes long_plan 73 }
    ensures at_most { most_steps long_plan 1 ≡ 82 }
    // `Plan::of` gives this plan of its tree, with these modes.
    ensures made { plan_of long_tree long_modes ≡ long_plan }
{}
