//! A plan is run on threads, and a stopwatch takes note of when each of its jobs begins and ends.

ghost use Rattle.std.specs.Prelude.{◌≡◌, ◌≤◌, [], IfOk, IfErr, IsPermutation, length, map};
ghost use Rattle.std.specs.Prelude.{vec_capacity, vec_len};
ghost use Rattle.std.specs.List.{All};
ghost use Rattle.job_times.specs.TimedJobs.{untimed};
ghost use Rattle.listeners.specs.Listeners.{tellings_of};
ghost use Rattle.table_rule.specs.Moments.{KeepsApart};
ghost use Rattle.table_rule.specs.Picture.{given_by, replies_of};
ghost use Rattle.table_rule.specs.Slots.{slot_count};
ghost use Rattle.table_contents.specs.Prepared.{HasAllJobs, IsRightCount, IsRightRing};
ghost use Rattle.run_table.specs.Balance.{IsBalanced};
ghost use Rattle.worker_pool.specs.Premises.{JobsMayAnswer};
ghost use Rattle.worker_pool.specs.Reports.{run_of, AreParts, AreTexts, IsReport, IsRefusedRun};
ghost use Rattle.worker_pool.specs.Reports.{EndsAsReplied, IsLeft, IsToldAsGiven, IsToldAsSaid};
ghost use Rattle.listeners.specs.Observing.{HasSeenMore};

use crate::timed_place::TimedPlace;
use job_times::{Stopwatch, TimedJob, timed_jobs, untimed_jobs};
use listeners::Observer;
use plan_events::{Job, MOST_WORKERS};
use resource_locks::Plan;
use run_table::{Jobs, TableFault};
use std::alloc::Global;
use std::sync::{Mutex, Wait};
use std::thread::Threads;
use worker_pool::{Report, RunCause, RunFault, run_placed};
use workers::Place;

/// The most words that the ring of places may have.
const MOST_RING: u32 = 16_384;

/// A plan that is not run for this cause, with its jobs.
fn unrun<B: Job>(cause: TableFault, plan: Plan, jobs: Jobs<B>) -> RunFault<B>
    ensures cause { result.cause ≡ RunCause.Table cause }
    ensures plan { result.plan ≡ plan }
    ensures jobs { result.jobs ≡ jobs }
{
    RunFault {
        cause: RunCause::Table(cause),
        plan,
        jobs,
    }
}

/// A plan that is not run for want of memory, with its jobs; a wrong number of workers or size of the ring comes first.
fn without_memory<B: Job>(plan: Plan, jobs: Jobs<B>, workers: u32, ring: u32) -> RunFault<B>
    ensures refused { IsRefusedRun plan workers ring jobs.items result.cause }
    ensures plan { result.plan ≡ plan }
    ensures jobs { result.jobs ≡ jobs }
{
    if workers == 0 {
        return unrun(TableFault::NoWorkers, plan, jobs);
    }
    if workers > u32::from(MOST_WORKERS) {
        return unrun(TableFault::TooManyWorkers, plan, jobs);
    }
    if ring == 0 || ring > MOST_RING {
        return unrun(TableFault::BadRing, plan, jobs);
    }
    unrun(TableFault::NoMemory, plan, jobs)
}

/// The report with the caller's own jobs.
fn untimed_report<'s, B: Job, S: Stopwatch>(
    report: Report<TimedJob<'s, B, S>>,
    room: Jobs<B>,
    used_room: Jobs<B>,
) -> Report<B>
    requires empty { room.items ≡ [] }
    requires room { vec_len report.unused_jobs ≤ vec_capacity room }
    requires none_used { used_room.items ≡ [] }
    requires used_room { vec_len report.used_jobs ≤ vec_capacity used_room }
    ensures same { result ≡ record {
      plan = report.entry.plan;
      events = report.entry.events;
      mine = report.entry.mine;
      texts = report.entry.texts;
      unused_jobs = result.unused_jobs;
      used_jobs = result.used_jobs;
    } }
    ensures jobs { result.unused_jobs.items ≡ untimed report.entry.unused_jobs.items }
    ensures used { result.used_jobs.items ≡ untimed report.entry.used_jobs.items }
{
    let Report {
        plan,
        events,
        mine,
        texts,
        unused_jobs,
        used_jobs,
    } = report;
    Report {
        plan,
        events,
        mine,
        texts,
        unused_jobs: untimed_jobs(unused_jobs, room),
        used_jobs: untimed_jobs(used_jobs, used_room),
    }
}

/// The fault with the caller's own jobs.
fn untimed_fault<'s, B: Job, S: Stopwatch>(
    fault: RunFault<TimedJob<'s, B, S>>,
    room: Jobs<B>,
) -> RunFault<B>
    requires empty { room.items ≡ [] }
    requires room { vec_len fault.jobs ≤ vec_capacity room }
    ensures cause { result.cause ≡ fault.entry.cause }
    ensures plan { result.plan ≡ fault.entry.plan }
    ensures jobs { result.jobs.items ≡ untimed fault.entry.jobs.items }
{
    let RunFault { cause, plan, jobs } = fault;
    RunFault {
        cause,
        plan,
        jobs: untimed_jobs(jobs, room),
    }
}

/// Runs a plan as `run_placed` does, with these jobs that are timed, and puts them back into this room, and those that
/// have answered into the other.
fn run_noted<
    's,
    B: Job + Send,
    K: Place<B> + Send,
    O: Observer,
    R: Threads + Wait + Sync,
    S: Stopwatch + Sync,
>(
    rt: &R,
    alloc: Global,
    plan: Plan,
    timed: Jobs<TimedJob<'s, B, S>>,
    room: Jobs<B>,
    used_room: Jobs<B>,
    workers: u32,
    ring: u32,
    places: &[Mutex<TimedPlace<K>>],
    observer: &mut O,
) -> Result<Report<B>, RunFault<B>>
    requires empty { room.items ≡ [] }
    requires room { vec_len timed ≤ vec_capacity room }
    requires none_used { used_room.items ≡ [] }
    requires used_room { slot_count plan ≤ vec_capacity used_room }
    requires jobs { JobsMayAnswer B.answers (run_of plan workers ring (untimed timed.items)) }
    ensures plan { IfOk result (λ report. report.plan ≡ plan) }
    ensures report { IfOk result (λ report. IsReport (run_of plan workers ring (untimed timed.entry.items))
        (replies_of B.answers (run_of plan workers ring (untimed timed.entry.items))) report.events.items) }
    ensures apart { IfOk result (λ report. KeepsApart plan report.events.items) }
    ensures expected { IfOk result (λ report. EndsAsReplied plan
        (replies_of B.answers (run_of plan workers ring (untimed timed.entry.items))) workers report.events.items) }
    ensures mine { IfOk result (λ report. AreParts workers report.events.items (map (λ l. l.items) report.mine.items)) }
    ensures texts { IfOk result (λ report. AreTexts plan
        (replies_of B.answers (run_of plan workers ring (untimed timed.entry.items))) report.events.items report.texts) }
    ensures given { IfOk result (λ report. IsToldAsGiven (given_by B.gives (run_of plan workers ring (untimed timed.entry.items)))
        (replies_of B.answers (run_of plan workers ring (untimed timed.entry.items))) plan workers report.events.items
        report.texts) }
    ensures said { IfOk result (λ report. IsToldAsSaid B.says
        (given_by B.gives (run_of plan workers ring (untimed timed.entry.items)))
        (replies_of B.answers (run_of plan workers ring (untimed timed.entry.items))) plan workers report.events.items
        report.texts report.used_jobs.items) }
    ensures left { IfOk result (λ report. IsLeft (replies_of B.answers (run_of plan workers ring (untimed timed.entry.items)))
        (run_of plan workers ring (untimed timed.entry.items)) report.events.items report.unused_jobs.items) }
    ensures balanced { IfOk result (λ report. IsBalanced plan (untimed timed.entry.items) report.events.items
        report.unused_jobs.items) }
    ensures seen { IfOk result (λ report. HasSeenMore O.saw plan (tellings_of report.texts report.events.items)
        observer.old observer.new) }
    ensures accepted { IfOk result (λ _. IsRightCount workers × IsRightRing ring × HasAllJobs plan (untimed timed.entry.items)) }
    ensures refused { IfErr result (λ fault. IsRefusedRun plan workers ring (untimed timed.entry.items) fault.cause) }
    ensures plan_back { IfErr result (λ fault. fault.plan ≡ plan) }
    ensures jobs_back { IfErr result (λ fault. IsPermutation (untimed timed.entry.items) fault.jobs.items) }
    ensures unseen { IfErr result (λ _. observer.new ≡ observer.old) }
{
    match run_placed(rt, alloc, plan, timed, workers, ring, places, observer) {
        Ok(report) => Ok(untimed_report(report, room, used_room)),
        Err(fault) => Err(untimed_fault(fault, room)),
    }
}

/// Runs a plan as `run_placed` of worker_pool does, and a stopwatch takes note of when each job begins and ends. Each
/// clause is that of `run_placed`, and none speaks of the stopwatch.
pub fn run_timed<
    B: Job + Send,
    K: Place<B> + Send,
    O: Observer,
    R: Threads + Wait + Sync,
    S: Stopwatch + Sync,
>(
    rt: &R,
    alloc: Global,
    plan: Plan,
    jobs: Jobs<B>,
    workers: u32,
    ring: u32,
    places: &[Mutex<TimedPlace<K>>],
    observer: &mut O,
    stopwatch: &S,
) -> Result<Report<B>, RunFault<B>>
    requires jobs { JobsMayAnswer B.answers (run_of plan workers ring jobs.items) }
    ensures plan { IfOk result (λ report. report.plan ≡ plan) }
    ensures report { IfOk result (λ report. IsReport (run_of plan workers ring jobs.items)
        (replies_of B.answers (run_of plan workers ring jobs.items)) report.events.items) }
    ensures apart { IfOk result (λ report. KeepsApart plan report.events.items) }
    ensures expected { IfOk result (λ report. EndsAsReplied plan
        (replies_of B.answers (run_of plan workers ring jobs.items)) workers report.events.items) }
    ensures mine { IfOk result (λ report. AreParts workers report.events.items (map (λ l. l.items) report.mine.items)) }
    ensures texts { IfOk result (λ report. AreTexts plan (replies_of B.answers (run_of plan workers ring jobs.items))
        report.events.items report.texts) }
    ensures given { IfOk result (λ report. IsToldAsGiven (given_by B.gives (run_of plan workers ring jobs.items))
        (replies_of B.answers (run_of plan workers ring jobs.items)) plan workers report.events.items report.texts) }
    ensures said { IfOk result (λ report. IsToldAsSaid B.says (given_by B.gives (run_of plan workers ring jobs.items))
        (replies_of B.answers (run_of plan workers ring jobs.items)) plan workers report.events.items report.texts
        report.used_jobs.items) }
    ensures left { IfOk result (λ report. IsLeft (replies_of B.answers (run_of plan workers ring jobs.items))
        (run_of plan workers ring jobs.items) report.events.items report.unused_jobs.items) }
    ensures balanced { IfOk result (λ report. IsBalanced plan jobs.items report.events.items report.unused_jobs.items) }
    ensures seen { IfOk result (λ report. HasSeenMore O.saw plan (tellings_of report.texts report.events.items)
        observer.old observer.new) }
    ensures accepted { IfOk result (λ _. IsRightCount workers × IsRightRing ring × HasAllJobs plan jobs.items) }
    ensures refused { IfErr result (λ fault. IsRefusedRun plan workers ring jobs.items fault.cause) }
    ensures plan_back { IfErr result (λ fault. fault.plan ≡ plan) }
    ensures jobs_back { IfErr result (λ fault. IsPermutation jobs.items fault.jobs.items) }
    ensures unseen { IfErr result (λ _. observer.new ≡ observer.old) }
{
    let Ok(room) = Vec::with_capacity(alloc, jobs.len()) else {
        return Err(without_memory(plan, jobs, workers, ring));
    };
    let Ok(used_room) = Vec::with_capacity(alloc, 2 * plan.tree().len()) else {
        return Err(without_memory(plan, jobs, workers, ring));
    };
    match timed_jobs(alloc, jobs, stopwatch) {
        Ok(timed) => run_noted(
            rt, alloc, plan, timed, room, used_room, workers, ring, places, observer,
        ),
        Err(jobs) => Err(without_memory(plan, jobs, workers, ring)),
    }
}
