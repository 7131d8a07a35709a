//! A run of these jobs on a plan, which is handed out, and what is printed of it.

ghost use Rattle.std.specs.Prelude.{◌≡◌, ◌≤◌, ◌⊎◌, option_map, IfOk, IfErr, string_bytes};
ghost use Rattle.descriptor.specs.Nodes.{IsTree};
ghost use Rattle.job_times.specs.Timings.{times_of};
ghost use Rattle.listeners.specs.Listeners.{tellings_of};
ghost use Rattle.listeners.specs.Observing.{HasSeenMore};
ghost use Rattle.launch_options.specs.Asked.{asked_by};
ghost use Rattle.launcher.specs.Faults.{unrun_fault};
ghost use Rattle.launcher.specs.Programs.{HasRun, IsPrintedOf};
ghost use Rattle.launcher.specs.Watched.{LacksMeans};
ghost use Rattle.resource_locks.specs.Declarations.{declared_of};
ghost use Rattle.resource_locks.specs.Hoisted.{IsGuarded};
ghost use Rattle.table_contents.specs.Prepared.{HasAllJobs, IsRightRing};
ghost use Rattle.table_rule.specs.Picture.{given_by, replies_of};
ghost use Rattle.worker_pool.specs.Premises.{JobsMayAnswer};
ghost use Rattle.worker_pool.specs.Reports.{run_of, IsToldAsSaid};

use crate::timed_place::TimedPlace;
use crate::timed_run::run_timed;
use config_params::Settings;
use job_times::{Stopwatch, Timings};
use launch_options::{LaunchFault, Options};
use listeners::Observer;
use plan_events::Job;
use resource_locks::Plan;
use run_outputs::{Output, told_report};
use run_table::{Jobs, TableFault};
use sched_core::Answers;
use std::alloc::{AllocError, Global};
use std::sync::{Mutex, Wait};
use std::thread::Threads;
use worker_pool::{Report, RunCause};
use workers::Place;

/// The refusal of a run that was not begun.
fn unrun(cause: RunCause) -> LaunchFault
    requires { (cause ≡ RunCause.Table TableFault.NoMemory) ⊎ (cause ≡ RunCause.NoWorker) }
    ensures exact { result ≡ unrun_fault cause }
    ensures either { (result ≡ LaunchFault.NoMemory) ⊎ (result ≡ LaunchFault.NoWorker) }
{
    match cause {
        RunCause::Table(_) => LaunchFault::NoMemory,
        RunCause::NoWorker => LaunchFault::NoWorker,
    }
}

/// Runs these jobs on a plan by so many workers, on threads of their own, which is shown to whoever watches, and of which
/// the stopwatch takes note. The run that is over is handed out: each clause is of its own parts.
pub fn launch<
    B: Job + Send,
    K: Place<B> + Send,
    T: Threads + Wait + Sync,
    V: Observer,
    S: Stopwatch + Sync,
>(
    rt: &T,
    alloc: Global,
    plan: Plan,
    jobs: Jobs<B>,
    workers: u32,
    ring: u32,
    places: &[Mutex<TimedPlace<K>>],
    observer: &mut V,
    stopwatch: &S,
) -> Result<Report<B>, LaunchFault>
    requires some { 1 ≤ workers }
    requires few { workers ≤ 64 }
    requires ring { IsRightRing ring }
    requires guarded { IsGuarded (declared_of plan.tree) plan }
    requires tree { IsTree plan.tree }
    requires jobs { JobsMayAnswer B.answers (run_of plan workers ring jobs.items) }
    requires all { HasAllJobs plan jobs.items }
    ensures plan { IfOk result (λ ran. ran.plan ≡ plan) }
    ensures ran { IfOk result (λ ran. HasRun B.answers B.gives workers ring plan jobs.items ran.events.items ran.texts
        ran.unused_jobs.items) }
    ensures said { IfOk result (λ ran. IsToldAsSaid B.says (given_by B.gives (run_of plan workers ring jobs.items))
        (replies_of B.answers (run_of plan workers ring jobs.items)) plan workers ran.events.items ran.texts
        ran.used_jobs.items) }
    ensures seen { IfOk result (λ ran. HasSeenMore V.saw plan (tellings_of ran.texts ran.events.items) observer.old
        observer.new) }
    ensures unseen { IfErr result (λ _. observer.new ≡ observer.old) }
    ensures refused { IfErr result LacksMeans }
{
    match run_timed(
        rt, alloc, plan, jobs, workers, ring, places, observer, stopwatch,
    ) {
        Ok(ran) => Ok(ran),
        Err(fault) => Err(unrun(fault.cause)),
    }
}

/// What is printed of a run that is over, with these times if they are asked for.
pub(crate) fn printed<B: Job>(
    alloc: Global,
    options: &Options,
    settings: &Settings,
    known: Option<&Answers>,
    ran: &Report<B>,
    timings: &Timings,
) -> Result<Output, AllocError>
    ensures { IfOk result (λ report. IsPrintedOf (option_map (λ a. a.now) known.entry) (asked_by options.now) settings.now
        ran.now.plan ran.now.events.items ran.now.texts (times_of timings.now) (string_bytes report.text) report.status) }
{
    let history = ran.events.as_slice();
    told_report(
        alloc, options, settings, &ran.plan, known, history, &ran.texts, timings,
    )
}
