//! A launch of a suite: its text is read, what is selected of it is run, listed or replayed, and the run is handed out.

ghost use Rattle.std.specs.Prelude.{◌≡◌, ◌≤◌, true};
ghost use Rattle.std.specs.Option.{is_some};
ghost use Rattle.job_times.specs.Timings.{times_of};
ghost use Rattle.launch_options.specs.Asked.{asked_by};
ghost use Rattle.run_outputs.specs.WarningTexts.{head_of};
ghost use Rattle.resource_locks.specs.Declarations.{declared_of};
ghost use Rattle.resource_locks.specs.Hoisted.{IsGuarded};
ghost use Rattle.resource_locks.specs.Spares.{HasFreeSpares};
ghost use Rattle.suite_text.specs.Suites.{suite_parts};
ghost use Rattle.launcher.specs.Launches.{Sees};
ghost use Rattle.launcher.specs.PlannedLaunches.{DoesPlan};
ghost use Rattle.launcher.specs.SuiteLaunches.{DoesSuite, IsSameRun, IsSuiteLaunch, IsSuiteTextLaunch};
ghost use Rattle.launcher.specs.SuiteLaunches.{IsSuiteTextRun, RunsSuite};
ghost use Rattle.launcher.specs.Watched.{form_by, outlet_by};

use crate::driven::launch_driven;
use crate::feeds::{form_for, outlet_for};
use crate::launched::{Launched, launch_shown};
use crate::listed::{idle, print_list, print_nodes, print_replay};
use crate::timed_place::bare_places;
use config_params::Settings;
use job_times::{NoStopwatch, RunTimes, Stopwatch, Timings};
use launch_options::{Details, LaunchFault, Options};
use listeners::Observer;
use live::LiveFeed;
use plan_events::Job;
use ready_runs::{
    ReadyRun, ScriptedJob, read_suite, ready_run, scripted_jobs, set_default_limits,
    set_script_limits,
};
use resource_locks::Plan;
use run_outputs::{ExitStatus, WatchedFeed, answer_unless};
use sched_core::Answers;
use std::alloc::{AllocError, Global};
use std::io::{Read, Write};
use std::sync::Wait;
use std::thread::Threads;
use suite_text::Suite;
use worker_pool::Report;

/// The same run, of whose jobs nothing is kept.
fn report_without<B: Job>(alloc: Global, ran: Report<ScriptedJob>) -> Report<B>
    ensures plan { result.plan ≡ ran.plan }
    ensures events { result.events.items ≡ ran.events.items }
    ensures texts { result.texts ≡ ran.texts }
{
    let Report {
        plan,
        events,
        mine,
        texts,
        unused_jobs: _,
        used_jobs: _,
    } = ran;
    Report {
        plan,
        events,
        mine,
        texts,
        unused_jobs: Vec::new(alloc),
        used_jobs: Vec::new(alloc),
    }
}

/// What a launch comes to, of whose jobs nothing is kept.
fn without_jobs<B: Job>(alloc: Global, launched: Launched<ScriptedJob>) -> Launched<B>
    ensures answer { result.answer ≡ launched.answer }
    ensures same { IsSameRun launched.ran result.ran }
{
    let Launched { answer, ran } = launched;
    let ran = match ran {
        Some(ran) => Some(report_without(alloc, ran)),
        None => None,
    };
    Launched { answer, ran }
}

/// Launches what a suite says on a plan, on threads of its own, where no fixed schedule is asked for that the plan has.
fn launch_scripted<B: Job, T: Threads + Wait + Sync, W: Write, V: Observer, S: Stopwatch + Sync>(
    rt: &T,
    alloc: Global,
    options: &Options,
    settings: &Settings,
    plan: Plan,
    answers: &Answers,
    spins: &[u32],
    live: &mut WatchedFeed<'_, '_, '_, '_, W, V, S>,
    stopwatch: &S,
) -> Launched<B>
    requires some { 1 ≤ settings.now.workers }
    requires few { settings.now.workers ≤ 64 }
    requires guarded { IsGuarded (declared_of plan.tree) plan }
    requires head { live.old.feed.head.now ≡ head_of options.now.details settings.now.warnings }
    requires form { live.old.feed.form ≡ form_by options.now.details }
    requires outlet { live.old.feed.outlet ≡ outlet_by options.now.details (asked_by options.now).replay
        options.now.drive }
    requires timed { live.old.feed.timed ≡ options.now.times }
    requires none { live.old.feed.sent ≡ 0 }
    requires threads { is_some options.now.drive ≡ true → HasFreeSpares plan → ⊥ }
    ensures same { live.new.feed.writer.ghost_name ≡ live.old.feed.writer.ghost_name }
    ensures same_timings { live.new.feed.timings.ghost_name ≡ live.old.feed.timings.ghost_name }
    ensures same_observer { live.new.observer.ghost_name ≡ live.old.observer.ghost_name }
    ensures runs { RunsSuite (asked_by options.now) (times_of live.new.feed.timings.now)
        (W.contents live.old.feed.writer.now) (W.contents live.new.feed.writer.now) settings.now plan answers.now
        result.ran result.answer }
    ensures seen { Sees V.saw live.old.observer.now live.new.observer.now result.ran }
{
    // the contract of `tree` tells that it is one
    let _ = plan.tree();
    match scripted_jobs(alloc, &plan, answers, spins) {
        Ok(jobs) => {
            let known = Some(answers);
            let places = bare_places();
            let places = places.as_slice();
            let launched = launch_shown(
                rt, alloc, options, settings, plan, jobs, known, places, live, stopwatch,
            );
            without_jobs(alloc, launched)
        }
        Err(AllocError) => idle(Err(LaunchFault::NoMemory)),
    }
}

/// Launches what a suite says on a plan: with `--drive` by the fixed schedule, and else on threads; on threads also where
/// a dynamic test holds a key, which none of a suite's text does, since no schedule is known to end that.
fn launch_said<B: Job, T: Threads + Wait + Sync, W: Write, V: Observer, S: Stopwatch + Sync>(
    rt: &T,
    alloc: Global,
    options: &Options,
    settings: &Settings,
    plan: Plan,
    answers: &Answers,
    spins: &[u32],
    live: &mut WatchedFeed<'_, '_, '_, '_, W, V, S>,
    stopwatch: &S,
) -> Launched<B>
    requires some { 1 ≤ settings.now.workers }
    requires few { settings.now.workers ≤ 64 }
    requires guarded { IsGuarded (declared_of plan.tree) plan }
    requires head { live.old.feed.head.now ≡ head_of options.now.details settings.now.warnings }
    requires form { live.old.feed.form ≡ form_by options.now.details }
    requires outlet { live.old.feed.outlet ≡ outlet_by options.now.details (asked_by options.now).replay
        options.now.drive }
    requires timed { live.old.feed.timed ≡ options.now.times }
    requires none { live.old.feed.sent ≡ 0 }
    ensures same { live.new.feed.writer.ghost_name ≡ live.old.feed.writer.ghost_name }
    ensures same_timings { live.new.feed.timings.ghost_name ≡ live.old.feed.timings.ghost_name }
    ensures same_observer { live.new.observer.ghost_name ≡ live.old.observer.ghost_name }
    ensures runs { RunsSuite (asked_by options.now) (times_of live.new.feed.timings.now)
        (W.contents live.old.feed.writer.now) (W.contents live.new.feed.writer.now) settings.now plan answers.now
        result.ran result.answer }
    ensures seen { Sees V.saw live.old.observer.now live.new.observer.now result.ran }
{
    if options.drive.is_some() && plan.has_free_spares() {
        launch_driven(alloc, options, settings, plan, answers, live)
    } else {
        launch_scripted(
            rt, alloc, options, settings, plan, answers, spins, live, stopwatch,
        )
    }
}

/// Runs what a suite says on a plan, and prints what the options print of it behind this text: the lines of events while
/// the run goes on, and all else when it is over.
fn run_said<B: Job, T: Threads + Wait + Sync, W: Write, V: Observer, S: Stopwatch + Sync>(
    rt: &T,
    alloc: Global,
    options: &Options,
    settings: &Settings,
    plan: Plan,
    answers: &Answers,
    spins: &[u32],
    head: &str,
    writer: &mut W,
    observer: &mut V,
    times: &mut RunTimes<'_, S>,
) -> Launched<B>
    requires some { 1 ≤ settings.now.workers }
    requires few { settings.now.workers ≤ 64 }
    requires guarded { IsGuarded (declared_of plan.tree) plan }
    requires head { head.now ≡ head_of options.now.details settings.now.warnings }
    ensures runs { RunsSuite (asked_by options.now) (times_of times.new.timings) (W.contents writer.old)
        (W.contents writer.new) settings.now plan answers.now result.ran result.answer }
    ensures seen { Sees V.saw observer.old observer.new result.ran }
{
    let form = form_for(options.details);
    let outlet = outlet_for(options);
    let stopwatch = times.stopwatch;
    let timings = &mut times.timings;
    let timed = options.times;
    let mut lines = String::new(alloc);
    let pending = &mut lines;
    let feed = LiveFeed::new(
        alloc, writer, head, form, outlet, pending, timings, stopwatch, timed,
    );
    let mut live = WatchedFeed { feed, observer };
    launch_said(
        rt, alloc, options, settings, plan, answers, spins, &mut live, stopwatch,
    )
}

/// Does with a plan of which a suite says what its bodies answer what the options ask for: it is run, unless the list or
/// the nodes are asked for.
fn launch_unreplayed<B: Job, T: Threads + Wait + Sync, W: Write, V: Observer, S: Stopwatch + Sync>(
    rt: &T,
    alloc: Global,
    options: &Options,
    settings: &Settings,
    plan: Plan,
    answers: &Answers,
    spins: &[u32],
    head: &str,
    writer: &mut W,
    observer: &mut V,
    times: &mut RunTimes<'_, S>,
) -> Launched<B>
    requires some { 1 ≤ settings.now.workers }
    requires few { settings.now.workers ≤ 64 }
    requires guarded { IsGuarded (declared_of plan.tree) plan }
    requires head { head.now ≡ head_of options.now.details settings.now.warnings }
    ensures does { DoesPlan (asked_by options.now) (W.contents writer.old) (W.contents writer.new)
        (RunsSuite (asked_by options.now) (times_of times.new.timings) (W.contents writer.old) (W.contents writer.new)
        settings.now plan answers.now) options.now.details settings.now plan result.ran result.answer }
    ensures seen { Sees V.saw observer.old observer.new result.ran }
{
    match options.details {
        Details::List => idle(print_list(alloc, options, &plan, writer)),
        Details::Plan => idle(print_nodes(alloc, options, settings, &plan, writer)),
        Details::None
        | Details::Summary
        | Details::Tree
        | Details::Testfeed
        | Details::Json
        | Details::Xml => run_said(
            rt, alloc, options, settings, plan, answers, spins, head, writer, observer, times,
        ),
    }
}

/// Does with a plan what the options ask for; where there are steps to be replayed, the settings' workers take these.
fn launch_ready<B: Job, T: Threads + Wait + Sync, W: Write, V: Observer, S: Stopwatch + Sync>(
    rt: &T,
    alloc: Global,
    options: &Options,
    settings: &Settings,
    plan: Plan,
    answers: &Answers,
    spins: &[u32],
    head: &str,
    writer: &mut W,
    observer: &mut V,
    times: &mut RunTimes<'_, S>,
) -> Launched<B>
    requires some { 1 ≤ settings.now.workers }
    requires few { settings.now.workers ≤ 64 }
    requires guarded { IsGuarded (declared_of plan.tree) plan }
    requires head { head.now ≡ head_of options.now.details settings.now.warnings }
    ensures does { DoesSuite (asked_by options.now) (times_of times.new.timings) (W.contents writer.old)
        (W.contents writer.new) settings.now plan answers.now (asked_by options.now).replay result.ran result.answer }
    ensures seen { Sees V.saw observer.old observer.new result.ran }
{
    match &options.replay {
        Some(steps) => {
            let steps = steps.as_slice();
            idle(print_replay(alloc, options, settings, steps, &plan, answers, writer))
        }
        None => launch_unreplayed(
            rt, alloc, options, settings, plan, answers, spins, head, writer, observer, times,
        ),
    }
}

/// Runs what the request selects of a suite with its settings, on as many threads as these have workers, by the fixed
/// schedule of as many workers as are asked for, or by the steps of a replay, writes what the options ask for, and hands
/// the run out, where one is over: the lines of events while the run goes on, and all else when it is over. Refused are,
/// in this order, what gives no settings (37, 34, 32, 33) and a selector that covers nothing (41), which are judged before
/// any memory is taken; limits of locks that are none (35, 36), more than 256 keys (50), more than 64 workers (61), that no
/// thread could be started (90), and an output of which the writer has only the first bytes (81), since it failed or since
/// there was no memory for the rest of a feed. On any refusal but 81 nothing is written. Each event of a run is shown to
/// the observer, before its line is written if it has one; what is written when the run is over is written when the
/// observer has seen all. If it is to be told how long tests took, the time of each node is noted once, when its finish is
/// told, as the stopwatch has it then; what is printed tells these times, and they are left to the caller. No clause says
/// what they are. Of a run by the fixed schedule nothing is known, nor when or where it was.
pub fn launch_suite<B: Job, T: Threads + Wait + Sync, W: Write, V: Observer, S: Stopwatch + Sync>(
    rt: &T,
    alloc: Global,
    options: &Options,
    suite: Suite,
    writer: &mut W,
    observer: &mut V,
    times: &mut RunTimes<'_, S>,
) -> Launched<B>
    ensures launched { IsSuiteLaunch (asked_by options.now) (times_of times.new.timings) (W.contents writer.old)
        (W.contents writer.new) (suite_parts suite) result.ran result.answer }
    ensures seen { Sees V.saw observer.old observer.new result.ran }
{
    set_script_limits(times.stopwatch, suite.scripts.as_slice());
    match ready_run(alloc, options, suite, &mut *times) {
        Ok(ready) => {
            let ReadyRun {
                settings,
                plan,
                answers,
                spins,
                is_missing,
                head,
            } = ready;
            set_default_limits(times.stopwatch, &plan, settings.slow);
            let Launched { answer, ran } = launch_ready(
                rt,
                alloc,
                options,
                &settings,
                plan,
                &answers,
                spins.as_slice(),
                head.as_str(),
                writer,
                observer,
                times,
            );
            Launched {
                answer: answer_unless(is_missing, answer),
                ran,
            }
        }
        Err(fault) => idle(Err(fault)),
    }
}

/// Reads a suite and launches it, as `read_suite` and `launch_suite` say. The reading takes memory before anything is
/// judged, but want of memory never stands in place of a suite that is too large, nor, once the suite was read, of settings
/// that are none or of a selector that covers nothing. On any refusal but 81 nothing is written.
pub fn launch_text<
    B: Job,
    T: Threads + Wait + Sync,
    R: Read,
    W: Write,
    V: Observer,
    S: Stopwatch + Sync,
>(
    rt: &T,
    alloc: Global,
    options: &Options,
    reader: &mut R,
    writer: &mut W,
    observer: &mut V,
    times: &mut RunTimes<'_, S>,
) -> Launched<B>
    ensures launched { IsSuiteTextLaunch (asked_by options.now) (times_of times.new.timings) (R.remaining reader.old)
        (R.remaining reader.new) (W.contents writer.old) (W.contents writer.new) result.ran result.answer }
    ensures seen { Sees V.saw observer.old observer.new result.ran }
{
    match read_suite(alloc, options.most_nodes, reader) {
        Ok(suite) => launch_suite(rt, alloc, options, suite, writer, observer, times),
        Err(fault) => idle(Err(fault)),
    }
}

/// Reads a suite and runs it as `launch_text` does, where nobody watches, no time is known, and no run is kept.
pub fn run_options<T: Threads + Wait + Sync, R: Read, W: Write>(
    rt: &T,
    alloc: Global,
    options: &Options,
    reader: &mut R,
    writer: &mut W,
) -> Result<ExitStatus, LaunchFault>
    ensures { IsSuiteTextRun (asked_by options.now) (R.remaining reader.old) (R.remaining reader.new)
        (W.contents writer.old) (W.contents writer.new) result }
{
    let mut nobody = ();
    let stopwatch = NoStopwatch;
    let mut times = RunTimes::new(&stopwatch, Timings::none(alloc));
    let Launched { answer, ran: _ } = launch_text::<ScriptedJob, T, R, W, (), NoStopwatch>(
        rt,
        alloc,
        options,
        reader,
        writer,
        &mut nobody,
        &mut times,
    );
    answer
}
