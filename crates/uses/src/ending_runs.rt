//! Calls `config_params`, `resource_locks` and `termination`: the tree of a suite is asked whether each of its runs ends.

ghost use Rattle.std.specs.Prelude.{◌↔◌, IsTrue, IfOk};
ghost use Rattle.config_params.specs.GivenModes.{given_modes};
ghost use Rattle.resource_locks.specs.Held.{plan_of};
ghost use Rattle.resource_locks.specs.Spares.{HasBareSpares};
ghost use Rattle.termination.specs.Conflicts.{IsFreeOfConflict};
ghost use Rattle.termination.specs.Endings.{EveryRunEnds};

use config_params::{Settings, modes};
use descriptor::Tree;
use resource_locks::{Plan, PlanFault};
use std::alloc::Global;
use termination::is_free_of_conflict;

/// Whether no two nodes of a tree that may run side by side under these settings want a lock in conflict. Then each of
/// its runs ends, in whatever order workers and dispatcher take their steps, if no dynamic test declares a lock: that is
/// so of the tree of every suite, by the clause `bare` of `Suite::parse`.
pub fn every_run_ends(alloc: Global, tree: Tree, settings: &Settings) -> Result<bool, PlanFault>
    ensures exact { IfOk result (λ ends. IsTrue ends ↔ IsFreeOfConflict (plan_of tree (given_modes tree settings.now))) }
    ensures ends { IfOk result (λ ends. HasBareSpares tree → IsTrue ends →
        EveryRunEnds (plan_of tree (given_modes tree settings.now))) }
{
    let modes = modes(alloc, &tree, settings)?;
    let plan = Plan::of(alloc, tree, modes)?;
    Ok(is_free_of_conflict(&plan))
}
