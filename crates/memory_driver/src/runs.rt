//! The call that runs a plan on threads.

ghost use Rattle.std.specs.Prelude.{ℕ, IfOk};
ghost use Rattle.test_jobs.specs.Acting.{replies_left};
ghost use Rattle.worker_pool.specs.Premises.{JobsMayAnswer};
ghost use Rattle.worker_pool.specs.Reports.{run_of};

use crate::inputs::plan_of;
use crate::printer::Printer;
use crate::said::Said;
use crate::tables::{jobs_of, push_handed, push_refused};
use listeners::{Audience, Listener, Recorder};
use plan_events::{Event, EventKind};
use resource_locks::Plan;
use run_results::Summary;
use run_table::Jobs;
use std::alloc::{AllocError, Global};
use std::io::Write;
use std::sync::Wait;
use std::thread::Threads;
use test_jobs::Actor;
use worker_pool::{Report, RunFault, run_plan};

/// How many of the last lists are empty.
fn idle(mine: &[Vec<Event>]) -> usize {
    let mut count: usize = 0;
    for list in mine {
        if list.is_empty() {
            count = count.saturating_add(1);
        } else {
            count = 0;
        }
    }
    count
}

/// How many of these events are of this kind.
fn count(events: &[Event], kind: EventKind) -> usize {
    let mut count: usize = 0;
    for event in events {
        if event.kind == kind {
            count = count.saturating_add(1);
        }
    }
    count
}

/// How many events the lists have together.
fn sum(mine: &[Vec<Event>]) -> usize {
    let mut sum: usize = 0;
    for list in mine {
        sum = sum.saturating_add(list.len());
    }
    sum
}

/// Adds how many events there are, and of each kind.
fn push_counts(said: &mut Said, events: &[Event]) {
    said.show("", events.len());
    said.add(" events:");
    for kind in [
        EventKind::Started,
        EventKind::Finished,
        EventKind::Skipped,
        EventKind::Registered,
    ] {
        said.show(" ", count(events, kind));
    }
    said.add("\n")
}

/// Adds what is said of a run whose order depends on the threads: how many events there are of each
/// kind, and how many in the lists of the workers; and on a line of its own how many of the last
/// workers had nothing to do.
fn push_report(said: &mut Said, report: &Report<Actor>) {
    push_counts(said, report.events.as_slice());
    let mine = report.mine.as_slice();
    said.show("", sum(mine));
    said.show(" of ", mine.len());
    said.add(" workers\n");
    said.quote("", &report.texts);
    said.show("\nidle ", idle(mine));
    said.add("\n")
}

/// Adds what is said of a run, and what came back; hands the plan on.
fn push_ended(said: &mut Said, report: Report<Actor>) -> Plan {
    push_report(said, &report);
    let Report {
        plan,
        unused_jobs: jobs,
        used_jobs,
        events,
        mine,
        texts,
    } = report;
    drop(used_jobs);
    drop(events);
    drop(mine);
    drop(texts);
    push_handed(said, &plan, jobs);
    plan
}

/// A run, or why it was refused.
type Ran = Result<Report<Actor>, RunFault<Actor>>;

/// Adds what is said of a run, or of its refusal, and what came back; hands the plan on.
fn push_ran(said: &mut Said, ran: Ran) -> Plan {
    match ran {
        Ok(report) => push_ended(said, report),
        Err(fault) => {
            let RunFault { cause, plan, jobs } = fault;
            push_refused(said, cause.number(), &plan, jobs);
            plan
        }
    }
}

/// How many events the listener at this place was told.
fn told(audience: &Audience, place: usize) -> usize {
    match audience.got(place) {
        Some(events) => events.len(),
        None => 0,
    }
}

/// Adds how many events each of two listeners was told.
fn push_told(said: &mut Said, audience: &Audience) {
    said.show("told ", told(audience, 0));
    said.show(" ", told(audience, 1));
    said.add("\n")
}

/// Says that this plan is handed in, and this audience; answers the plan's jobs.
fn show<W: Write>(
    alloc: Global,
    out: &mut Printer<W>,
    plan: &Plan,
    suite: &str,
    audience: &Audience,
) -> Result<Jobs<Actor>, AllocError>
    ensures { IfOk result (λ jobs. (workers ring : ℕ) →
        JobsMayAnswer replies_left (run_of plan.now workers ring jobs.items)) }
{
    let shown = jobs_of(alloc, plan, suite)?;
    let mut given = Said::new(alloc);
    push_handed(&mut given, plan, shown);
    push_told(&mut given, audience);
    out.given();
    out.say(given);
    jobs_of(alloc, plan, suite)
}

/// `run_plan`, of these jobs, before an audience that was told nothing; none before another one.
fn run<T: Threads + Wait + Sync, W: Write>(
    rt: &T,
    alloc: Global,
    out: &mut Printer<W>,
    audience: &mut Audience,
    plan: Plan,
    jobs: Jobs<Actor>,
    workers: u32,
) -> Option<Ran>
    requires { JobsMayAnswer replies_left (run_of plan workers 1024 jobs.items) }
{
    if !audience.fresh() {
        drop(plan);
        drop(jobs);
        return None;
    }
    out.call();
    let ran = run_plan(rt, alloc, plan, jobs, workers, 1024, audience);
    out.answered();
    Some(ran)
}

/// Tells of a run; hands the plan on.
fn tell_ran<W: Write>(alloc: Global, out: &mut Printer<W>, audience: &Audience, ran: Ran) -> Plan {
    let mut said = Said::new(alloc);
    let plan = push_ran(&mut said, ran);
    push_told(&mut said, audience);
    out.tell(said);
    plan
}

/// `run_plan`, for the plan of this suite, before an audience that was told nothing; answers the
/// plan that came back.
fn run_before<T: Threads + Wait + Sync, W: Write>(
    rt: &T,
    alloc: Global,
    out: &mut Printer<W>,
    audience: &mut Audience,
    plan: Plan,
    suite: &str,
    workers: u32,
) -> Result<Plan, AllocError> {
    let Ok(jobs) = show(alloc, out, &plan, suite, audience) else {
        drop(plan);
        return Err(AllocError);
    };
    match run(rt, alloc, out, audience, plan, jobs, workers) {
        Some(ran) => Ok(tell_ran(alloc, out, audience, ran)),
        None => Err(AllocError),
    }
}

/// `run_plan`, for the plan that stands here; the one that came back stands here then.
fn run_here<T: Threads + Wait + Sync, W: Write>(
    rt: &T,
    alloc: Global,
    out: &mut Printer<W>,
    audience: &mut Audience,
    here: &mut Option<Plan>,
    suite: &str,
    workers: u32,
) -> Result<(), AllocError> {
    let Some(plan) = here.take() else {
        return Err(AllocError);
    };
    let plan = run_before(rt, alloc, out, audience, plan, suite, workers)?;
    *here = Some(plan);
    Ok(())
}

/// `run_plan` before a recorder and a summary, and once more before the same ones where they were
/// told nothing; answers whether it was run twice.
fn run_before_two<T: Threads + Wait + Sync, W: Write>(
    rt: &T,
    alloc: Global,
    out: &mut Printer<W>,
    here: &mut Option<Plan>,
    suite: &str,
    workers: u32,
) -> Result<bool, AllocError> {
    let mut listeners: Vec<Box<dyn Listener>> = Vec::new(alloc);
    listeners.push(Box::new(alloc, Recorder::new(alloc))?)?;
    listeners.push(Box::new(alloc, Summary::new(alloc))?)?;
    let Ok(mut audience) = Audience::new(listeners) else {
        return Err(AllocError);
    };
    run_here(rt, alloc, out, &mut audience, here, suite, workers)?;
    let is_twice = audience.fresh();
    if is_twice {
        run_here(rt, alloc, out, &mut audience, here, suite, workers)?;
    }
    Ok(is_twice)
}

/// `run_plan` of this suite by so many workers, twice.
pub(crate) fn run_twice<T: Threads + Wait + Sync, W: Write>(
    rt: &T,
    alloc: Global,
    out: &mut Printer<W>,
    suite: &str,
    workers: u32,
) -> Result<(), AllocError> {
    let mut here = Some(plan_of(alloc, suite)?);
    let mut is_twice = run_before_two(rt, alloc, out, &mut here, suite, workers);
    if is_twice == Ok(false) {
        is_twice = run_before_two(rt, alloc, out, &mut here, suite, workers);
    }
    drop(here);
    is_twice?;
    Ok(())
}
