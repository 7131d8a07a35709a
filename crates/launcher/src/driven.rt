//! A run by the fixed schedule, without threads, which is handed out.

ghost use Rattle.std.specs.Prelude.{◌≡◌, true, IfOk, IfErr};
ghost use Rattle.std.specs.Option.{is_some};
ghost use Rattle.descriptor.specs.Nodes.{IsTree};
ghost use Rattle.job_times.specs.Timings.{times_of};
ghost use Rattle.listeners.specs.Listeners.{tellings_of};
ghost use Rattle.listeners.specs.Observing.{HasSeenMore};
ghost use Rattle.resource_locks.specs.Declarations.{declared_of};
ghost use Rattle.resource_locks.specs.Hoisted.{IsGuarded};
ghost use Rattle.resource_locks.specs.Spares.{HasFreeSpares};
ghost use Rattle.launch_options.specs.Asked.{asked_by};
ghost use Rattle.sched_core.specs.InTurns.{IsScheduled};
ghost use Rattle.sched_core.specs.Replies.{replies_of};
ghost use Rattle.sched_core.specs.declared.trace.Trace.{Trace as TraceParts};
ghost use Rattle.run_outputs.specs.WarningTexts.{head_of};
ghost use Rattle.worker_pool.specs.Reports.{AreTexts};
ghost use Rattle.launcher.specs.Launches.{Sees};
ghost use Rattle.launcher.specs.Reports.{IsHistory};
ghost use Rattle.launcher.specs.SuiteLaunches.{RunsSuite};
ghost use Rattle.launcher.specs.Watched.{form_by, outlet_by};

use crate::launched::{Launched, print_rest};
use config_params::Settings;
use job_times::Stopwatch;
use launch_options::{LaunchFault, Options};
use listeners::Observer;
use plan_events::{Event, Job, Texts};
use resource_locks::Plan;
use run_outputs::{WatchedFeed, show};
use sched_core::{Answers, Trace, drive_with, texts_of};
use std::alloc::{AllocError, Global};
use std::io::Write;
use worker_pool::Report;

/// The trace of the fixed schedule with so many workers, which were judged before.
fn fixed_trace(
    alloc: Global,
    plan: &Plan,
    answers: &Answers,
    workers: u32,
) -> Result<Trace, AllocError>
    requires guarded { IsGuarded (declared_of plan.now.tree) plan.now }
    requires free { HasFreeSpares plan.now }
    ensures history { IfOk result (λ trace. IsHistory workers plan.now answers.now trace.published.items) }
    ensures scheduled { IfOk result (λ trace. IsScheduled plan.now answers.now workers trace) }
    ensures tree { IfOk result (λ _. IsTree plan.now.tree) }
{
    // the contract of `tree` tells that it is one
    let _ = plan.tree();
    match drive_with(alloc, plan, answers, workers) {
        Ok(trace) => Ok(trace),
        Err(_) => Err(AllocError),
    }
}

/// Shows a observer these events of the plan, each with its text.
fn show_all<V: Observer>(observer: &mut V, plan: &Plan, texts: &Texts, events: &[Event])
    ensures { HasSeenMore V.saw plan.now (tellings_of texts.now events.now) observer.old observer.new }
{
    for event in events {
        show(&mut *observer, plan, texts, *event);
    }
}

/// A run of what a suite says on a plan, by the fixed schedule of so many workers, which whoever watches is shown. It runs
/// no job, so no job is left, and no time is known of any node.
fn drive<B: Job, V: Observer>(
    alloc: Global,
    plan: Plan,
    answers: &Answers,
    workers: u32,
    observer: &mut V,
) -> Result<Report<B>, LaunchFault>
    requires guarded { IsGuarded (declared_of plan.tree) plan }
    requires free { HasFreeSpares plan }
    ensures plan { IfOk result (λ ran. ran.plan ≡ plan) }
    ensures tree { IfOk result (λ _. IsTree plan.tree) }
    ensures history { IfOk result (λ ran. IsHistory workers plan answers.now ran.events.items) }
    ensures texts { IfOk result (λ ran. AreTexts plan (replies_of answers.now) ran.events.items ran.texts) }
    ensures scheduled { IfOk result (λ ran. (trace : TraceParts) × IsScheduled plan answers.now workers trace
        × (ran.events.items ≡ trace.published.items)) }
    ensures seen { IfOk result (λ ran. HasSeenMore V.saw plan (tellings_of ran.texts ran.events.items) observer.old
        observer.new) }
    ensures unseen { IfErr result (λ _. observer.new ≡ observer.old) }
    ensures refused { IfErr result (λ fault. fault ≡ LaunchFault.NoMemory) }
{
    let trace = fixed_trace(alloc, &plan, answers, workers)?;
    let Trace {
        published: events,
        given: _,
        mine: _,
        passed_over: _,
    } = trace;
    let texts = texts_of(alloc, &plan, answers, events.as_slice())?;
    show_all(observer, &plan, &texts, events.as_slice());
    Ok(Report {
        plan,
        events,
        mine: Vec::new(alloc),
        texts,
        unused_jobs: Vec::new(alloc),
        used_jobs: Vec::new(alloc),
    })
}

/// Launches what a suite says on a plan by the fixed schedule of the settings' workers, which is shown to this feed and to
/// who watches beside it, prints what is left, and hands the run out.
pub(crate) fn launch_driven<B: Job, W: Write, V: Observer, S: Stopwatch>(
    alloc: Global,
    options: &Options,
    settings: &Settings,
    plan: Plan,
    answers: &Answers,
    live: &mut WatchedFeed<'_, '_, '_, '_, W, V, S>,
) -> Launched<B>
    requires guarded { IsGuarded (declared_of plan.tree) plan }
    requires free { HasFreeSpares plan }
    requires driven { is_some options.now.drive ≡ true }
    requires head { live.old.feed.head.now ≡ head_of options.now.details settings.now.warnings }
    requires form { live.old.feed.form ≡ form_by options.now.details }
    requires outlet { live.old.feed.outlet ≡ outlet_by options.now.details (asked_by options.now).replay
        options.now.drive }
    requires timed { live.old.feed.timed ≡ options.now.times }
    requires none { live.old.feed.sent ≡ 0 }
    ensures same { live.new.feed.writer.ghost_name ≡ live.old.feed.writer.ghost_name }
    ensures same_timings { live.new.feed.timings.ghost_name ≡ live.old.feed.timings.ghost_name }
    ensures same_observer { live.new.observer.ghost_name ≡ live.old.observer.ghost_name }
    ensures runs { RunsSuite (asked_by options.now) (times_of live.new.feed.timings.now)
        (W.contents live.old.feed.writer.now) (W.contents live.new.feed.writer.now) settings.now plan answers.now
        result.ran result.answer }
    ensures seen { Sees V.saw live.old.observer.now live.new.observer.now result.ran }
{
    match drive(alloc, plan, answers, settings.workers, &mut *live) {
        Ok(ran) => {
            let answer = print_rest(alloc, options, settings, Some(answers), &ran, live);
            Launched {
                answer,
                ran: Some(ran),
            }
        }
        Err(fault) => Launched {
            answer: Err(fault),
            ran: None,
        },
    }
}
