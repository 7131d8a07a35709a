//! A launch: these jobs are run on a plan, what is printed of the run goes to a writer, and the run is handed out.

ghost use Rattle.std.specs.Prelude.{◌≡◌, ◌≤◌, ℕ, List, Option, option_map};
ghost use Rattle.descriptor.specs.Nodes.{IsTree};
ghost use Rattle.job_times.specs.Timings.{times_of};
ghost use Rattle.launch_options.specs.Asked.{asked_by};
ghost use Rattle.launcher.specs.Launches.{Fits, IsLaunched, IsPrintedTo, IsSentSo, Sees};
ghost use Rattle.launcher.specs.Programs.{IsPrintedOf};
ghost use Rattle.launcher.specs.Watched.{form_by, outlet_by};
ghost use Rattle.run_outputs.specs.WarningTexts.{head_of};
ghost use Rattle.resource_locks.specs.Declarations.{declared_of};
ghost use Rattle.resource_locks.specs.Hoisted.{IsGuarded};
ghost use Rattle.table_contents.specs.Prepared.{HasAllJobs};
ghost use Rattle.worker_pool.specs.Premises.{JobsMayAnswer};
ghost use Rattle.worker_pool.specs.Reports.{run_of};

use crate::feeds::{broken_off, form_for, outlet_for};
use crate::run::{launch, printed};
use crate::timed_place::TimedPlace;
use config_params::Settings;
use job_times::{RunTimes, Stopwatch};
use launch_options::{LaunchFault, Options};
use listeners::Observer;
use live::LiveFeed;
use plan_events::Job;
use resource_locks::Plan;
use run_outputs::{ExitStatus, NotesTimes, WatchedFeed};
use run_table::Jobs;
use sched_core::Answers;
use std::alloc::Global;
use std::io::Write;
use std::sync::{Mutex, Wait};
use std::thread::Threads;
use worker_pool::Report;
use workers::Place;

/// What a launch comes to: its answer, and the run, where one is over.
#[derive(Drop)]
pub struct Launched<B> {
    pub answer: Result<ExitStatus, LaunchFault>,
    pub ran: Option<Report<B>>,
}

/// Prints what is left of what is printed of a run that this feed was shown.
pub(crate) fn print_rest<B: Job, W: Write, V: Observer, S: Stopwatch>(
    alloc: Global,
    options: &Options,
    settings: &Settings,
    known: Option<&Answers>,
    ran: &Report<B>,
    live: &mut WatchedFeed<'_, '_, '_, '_, W, V, S>,
) -> Result<ExitStatus, LaunchFault>
    requires front { (text : List ℕ) (status : ExitStatus) → IsPrintedOf (option_map (λ a. a.now) known)
        (asked_by options.now) settings.now ran.now.plan ran.now.events.items ran.now.texts
        (times_of live.old.feed.timings.now) text status → Fits live.old.feed.outlet live.old.feed.sent text }
    ensures same { live.new.feed.writer.ghost_name ≡ live.old.feed.writer.ghost_name }
    ensures timings { live.new.feed.timings ≡ live.old.feed.timings }
    ensures observer { live.new.observer ≡ live.old.observer }
    ensures answer { (was : Option (List ℕ)) → IsSentSo (asked_by options.now) (IsPrintedOf (option_map (λ a. a.now)
        known.entry) (asked_by options.now) settings.now ran.now.plan ran.now.events.items ran.now.texts
        (times_of live.old.feed.timings.now)) live.old.feed.outlet live.old.feed.sent was
        (W.contents live.old.feed.writer.now) → IsPrintedTo (asked_by options.now) (IsPrintedOf
        (option_map (λ a. a.now) known.entry) (asked_by options.now) settings.now ran.now.plan ran.now.events.items
        ran.now.texts (times_of live.old.feed.timings.now)) was (W.contents live.new.feed.writer.now) result }
{
    match printed(alloc, options, settings, known, ran, live.timings()) {
        Ok(report) => {
            live.finish(report.text.as_bytes())?;
            Ok(report.status)
        }
        Err(_) => Err(broken_off(LaunchFault::NoMemory, live.outlet(), live.sent())),
    }
}

/// Runs these jobs on a plan by the settings' workers, which is shown to this feed and to who watches beside it, prints
/// what is left, and hands the run out.
pub(crate) fn launch_shown<
    B: Job + Send,
    K: Place<B> + Send,
    T: Threads + Wait + Sync,
    W: Write,
    V: Observer,
    S: Stopwatch + Sync,
>(
    rt: &T,
    alloc: Global,
    options: &Options,
    settings: &Settings,
    plan: Plan,
    jobs: Jobs<B>,
    known: Option<&Answers>,
    places: &[Mutex<TimedPlace<K>>],
    live: &mut WatchedFeed<'_, '_, '_, '_, W, V, S>,
    stopwatch: &S,
) -> Launched<B>
    requires some { 1 ≤ settings.now.workers }
    requires few { settings.now.workers ≤ 64 }
    requires guarded { IsGuarded (declared_of plan.tree) plan }
    requires tree { IsTree plan.tree }
    requires jobs { JobsMayAnswer B.answers (run_of plan settings.now.workers options.now.ring jobs.items) }
    requires all { HasAllJobs plan jobs.items }
    requires head { live.old.feed.head.now ≡ head_of options.now.details settings.now.warnings }
    requires form { live.old.feed.form ≡ form_by options.now.details }
    requires outlet { live.old.feed.outlet ≡ outlet_by options.now.details (asked_by options.now).replay
        options.now.drive }
    requires timed { live.old.feed.timed ≡ options.now.times }
    requires none { live.old.feed.sent ≡ 0 }
    ensures same { live.new.feed.writer.ghost_name ≡ live.old.feed.writer.ghost_name }
    ensures same_timings { live.new.feed.timings.ghost_name ≡ live.old.feed.timings.ghost_name }
    ensures same_observer { live.new.observer.ghost_name ≡ live.old.observer.ghost_name }
    ensures launched { IsLaunched B.answers B.gives B.says (option_map (λ a. a.now) known.entry)
        (times_of live.new.feed.timings.now) (asked_by options.now) settings.now plan jobs.items
        (W.contents live.old.feed.writer.now) (W.contents live.new.feed.writer.now) result.ran result.answer }
    ensures seen { Sees V.saw live.old.observer.now live.new.observer.now result.ran }
{
    let workers = settings.workers;
    let ring = options.ring;
    match launch(
        rt, alloc, plan, jobs, workers, ring, places, &mut *live, stopwatch,
    ) {
        Ok(ran) => {
            let answer = print_rest(alloc, options, settings, known, &ran, live);
            Launched {
                answer,
                ran: Some(ran),
            }
        }
        Err(fault) => Launched {
            answer: Err(fault),
            ran: None,
        },
    }
}

/// Runs these jobs on a plan by the settings' workers, on threads of their own, shows the run to whoever watches, prints
/// what the options print of it behind this text, and hands it out: the lines of events while the run goes on, and all
/// else when it is over. What is known of what the jobs answer is asked for a schedule alone.
pub fn launch_to<
    B: Job + Send,
    K: Place<B> + Send,
    T: Threads + Wait + Sync,
    W: Write,
    V: Observer,
    S: Stopwatch + Sync,
>(
    rt: &T,
    alloc: Global,
    options: &Options,
    settings: &Settings,
    plan: Plan,
    jobs: Jobs<B>,
    known: Option<&Answers>,
    places: &[Mutex<TimedPlace<K>>],
    head: &str,
    writer: &mut W,
    observer: &mut V,
    times: &mut RunTimes<'_, S>,
) -> Launched<B>
    requires some { 1 ≤ settings.now.workers }
    requires few { settings.now.workers ≤ 64 }
    requires guarded { IsGuarded (declared_of plan.tree) plan }
    requires tree { IsTree plan.tree }
    requires jobs { JobsMayAnswer B.answers (run_of plan settings.now.workers options.now.ring jobs.items) }
    requires all { HasAllJobs plan jobs.items }
    requires head { head.now ≡ head_of options.now.details settings.now.warnings }
    ensures launched { IsLaunched B.answers B.gives B.says (option_map (λ a. a.now) known.entry)
        (times_of times.new.timings) (asked_by options.now) settings.now plan jobs.items (W.contents writer.old)
        (W.contents writer.new) result.ran result.answer }
    ensures seen { Sees V.saw observer.old observer.new result.ran }
{
    let form = form_for(options.details);
    let outlet = outlet_for(options);
    let stopwatch = times.stopwatch;
    let timings = &mut times.timings;
    let timed = options.times;
    let mut lines = String::new(alloc);
    let pending = &mut lines;
    let feed = LiveFeed::new(
        alloc, writer, head, form, outlet, pending, timings, stopwatch, timed,
    );
    let mut live = WatchedFeed { feed, observer };
    launch_shown(
        rt, alloc, options, settings, plan, jobs, known, places, &mut live, stopwatch,
    )
}
