//! The plan of a run.

ghost use Rattle.std.specs.Prelude.{◌≡◌, ◌≢◌, ◌≤◌, None, Some, IfOk, IfErr, OnOk};
ghost use Rattle.std.specs.Option.{option_or};
ghost use Rattle.resource_locks.specs.Spares.{HasBareSpares};
ghost use Rattle.never_stuck.specs.Reaching.{NeverStuck};
ghost use Rattle.run_outputs.specs.Missing.{is_missing as is_missing_in};
ghost use Rattle.ready_runs.specs.Ready.{keys_refusal, plan_in, plan_of, plan_refusal, selection_refusal, workers_refusal};
ghost use Rattle.resource_locks.specs.Declarations.{declared_of};
ghost use Rattle.resource_locks.specs.Hoisted.{IsGuarded};
ghost use Rattle.resource_locks.specs.Limits.{with_limits};
ghost use Rattle.launch_options.specs.Asked.{asked_by};

use config_params::{Params, Settings, lock_limits, modes};
use descriptor::Tree;
use launch_options::{LaunchFault, Options};
use plan_events::MOST_WORKERS;
use resource_locks::{KeyLimit, Plan};
use run_outputs::is_missing;
use selectors::{Found, discover};
use std::alloc::Global;

/// A plan, and whether something had to be selected and is not.
#[derive(Drop)]
pub(crate) struct SelectedPlan {
    pub(crate) plan: Plan,
    pub(crate) is_missing: bool,
}

/// The plan of a tree: modes by the settings, locks hoisted, failing fast where the options say so, after as many
/// failures as they say, and in which keys have these limits. Refused are more than 256 keys (50).
fn limited_plan(
    alloc: Global,
    options: &Options,
    settings: &Settings,
    tree: Tree,
    limits: &[KeyLimit],
) -> Result<Plan, LaunchFault>
    ensures plan { IfOk result (λ plan. plan ≡ with_limits (plan_of options.now.fail_fast options.now.tolerated
        settings.now tree) limits.now) }
    ensures guarded { IfOk result (λ plan. IsGuarded (declared_of plan.tree) plan) }
    ensures accepted { OnOk result (keys_refusal tree ≡ None) }
    ensures refused { IfErr result (λ fault. fault ≢ LaunchFault.NoMemory → keys_refusal tree ≡ Some fault) }
    // Whatever its workers do first, it can still be brought to its end.
    ensures never_stuck { IfOk result (λ plan. HasBareSpares tree → NeverStuck plan) }
{
    let modes = modes(alloc, &tree, settings)?;
    let plan = Plan::of(alloc, tree, modes)?;
    let plan = plan.with_fail_fast(options.fail_fast);
    let plan = plan.with_tolerated(options.tolerated);
    let plan = plan.with_limits(alloc, limits)?;
    // the contract of `tree` tells that this is a plan
    let _ = plan.tree();
    Ok(plan)
}

/// The plan of what the request selects of a tree, whose keys have the limits that the options say, and these properties
/// below them. Refused are a selector that covers nothing (41), which is judged before
/// any memory is taken, limits that are none (35, 36), by the whole tree, and more than 256 keys (50).
fn plan_of(
    alloc: Global,
    options: &Options,
    settings: &Settings,
    tree: Tree,
    properties: &Params,
) -> Result<SelectedPlan, LaunchFault>
    ensures plan { IfOk result (λ selected. selected.plan ≡ plan_in (asked_by options.now) tree properties.now
        settings.now) }
    ensures missing { IfOk result (λ selected. selected.is_missing ≡ is_missing_in (asked_by options.now) tree) }
    ensures guarded { IfOk result (λ selected. IsGuarded (declared_of selected.plan.tree) selected.plan) }
    ensures accepted { IfOk result (λ _. plan_refusal (asked_by options.now) tree properties.now ≡ None) }
    ensures refused { IfErr result (λ fault. fault ≢ LaunchFault.NoMemory →
        plan_refusal (asked_by options.now) tree properties.now ≡ Some fault) }
    ensures no_memory { IfErr result
        (λ fault. fault ≡ LaunchFault.NoMemory → selection_refusal tree options.now.request ≡ None) }
    // Whatever its workers do first, it can still be brought to its end.
    ensures never_stuck { IfOk result (λ selected. HasBareSpares tree → NeverStuck selected.plan) }
{
    // the contract of `len` tells that it is a tree
    let _ = tree.len();
    // asked for before the tree is cut, and judged after the selection
    let limits = lock_limits(alloc, &options.params, properties, &tree);
    let Found { tree, is_nothing } = discover(alloc, tree, &options.request)?;
    let limits = limits?;
    let plan = limited_plan(alloc, options, settings, tree, &limits)?;
    let is_missing = is_missing(options, is_nothing);
    Ok(SelectedPlan { plan, is_missing })
}

/// Refused are more than 64 workers (61).
fn judge_workers(workers: u32) -> Result<(), LaunchFault>
    ensures accepted { IfOk result (λ _. workers_refusal workers ≡ None) }
    ensures few { IfOk result (λ _. workers ≤ 64) }
    ensures refused { IfErr result (λ fault. (fault ≡ LaunchFault.TooManyWorkers)
        × (workers_refusal workers ≡ Some fault)) }
{
    if workers > u32::from(MOST_WORKERS) {
        return Err(LaunchFault::TooManyWorkers);
    }
    Ok(())
}

/// The plan that `plan_of` makes, for so many workers as may run it.
pub(crate) fn crewed_plan(
    alloc: Global,
    options: &Options,
    settings: &Settings,
    tree: Tree,
    properties: &Params,
) -> Result<SelectedPlan, LaunchFault>
    ensures plan { IfOk result (λ selected. selected.plan ≡ plan_in (asked_by options.now) tree properties.now
        settings.now) }
    ensures missing { IfOk result (λ selected. selected.is_missing ≡ is_missing_in (asked_by options.now) tree) }
    ensures guarded { IfOk result (λ selected. IsGuarded (declared_of selected.plan.tree) selected.plan) }
    ensures accepted { IfOk result (λ _. plan_refusal (asked_by options.now) tree properties.now ≡ None) }
    ensures count { IfOk result (λ _. workers_refusal settings.now.workers ≡ None) }
    ensures few { IfOk result (λ _. settings.now.workers ≤ 64) }
    ensures refused { IfErr result (λ fault. fault ≢ LaunchFault.NoMemory →
        option_or (plan_refusal (asked_by options.now) tree properties.now) (workers_refusal settings.now.workers) ≡ Some fault) }
    ensures no_memory { IfErr result
        (λ fault. fault ≡ LaunchFault.NoMemory → selection_refusal tree options.now.request ≡ None) }
    ensures never_stuck { IfOk result (λ selected. HasBareSpares tree → NeverStuck selected.plan) }
{
    let selected = plan_of(alloc, options, settings, tree, properties)?;
    judge_workers(settings.workers)?;
    Ok(selected)
}
