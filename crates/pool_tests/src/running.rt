//! Suites are run on threads, and what happened is said in one line.

ghost use Rattle.std.specs.Prelude.{◌≡◌, ℕ, IfSome, length};
ghost use Rattle.descriptor.specs.Nodes.{size};
ghost use Rattle.test_jobs.specs.Acting.{replies_left};
ghost use Rattle.worker_pool.specs.Premises.{JobsMayAnswer};
ghost use Rattle.worker_pool.specs.Reports.{run_of};

use crate::watching::{are_told_alike, board_of, one_watcher, roomy_watcher};
use config_params::{Params, Settings, modes};
use descriptor::{Mode, Tree};
use listeners::{Audience, Listener};
use plan_events::{Event, EventKind, Status};
use resource_locks::Plan;
use run_table::{Jobs, TableFault};
use std::alloc::Global;
use std::fmt::Display;
use std::sync::{Arc, Wait};
use std::thread::Threads;
use suite_text::{Script, Suite};
use test_jobs::{Act, Actor, Board, cast, no_jobs};
use worker_pool::{Report, RunCause, RunFault, run_plan};

/// A ring in which all events of a plan of these tests have room at once, but for the large ones.
pub(crate) const WIDE: u32 = 1024;

/// The modes of these nodes.
fn modes_of(alloc: Global, tree: &Tree, properties: &Params) -> Option<Vec<Mode>>
    ensures { IfSome result (λ modes. length modes.items ≡ size tree.now) }
{
    let settings = Settings::read(properties, 4).ok()?;
    modes(alloc, tree, &settings).ok()
}

/// Has each factory that asks for as many dynamic tests as a suite can say ask for as many as there
/// are numbers.
fn ask_for_more(scripts: &mut Vec<Script>) {
    for script in scripts.iter_mut() {
        if script.reply.pulls == 4096 {
            script.reply.pulls = u16::MAX;
        }
    }
}

/// The plan of a suite, whose property lines are handed over with its tree.
fn planned(alloc: Global, tree: Tree, properties: Params) -> Option<Plan> {
    let modes = modes_of(alloc, &tree, &properties);
    drop(properties);
    Plan::of(alloc, tree, modes?).ok()
}

/// A suite's plan, and the scripts of its bodies. A factory that asks for as many dynamic tests as
/// a suite can say asks for as many as there are numbers.
pub(crate) fn staged(alloc: Global, text: &str) -> Option<(Plan, Vec<Script>)> {
    let Suite {
        tree,
        mut scripts,
        properties,
    } = Suite::parse(alloc, None, text).ok()?;
    ask_for_more(&mut scripts);
    let plan = planned(alloc, tree, properties)?;
    Some((plan, scripts))
}

/// The sign of an event.
fn sign(event: &Event) -> &'static str {
    match event.kind {
        EventKind::Started => "+",
        EventKind::Finished => "-",
        EventKind::Skipped => "~",
        EventKind::Registered => "*",
    }
}

/// The mark of an event that did not end well.
fn mark(event: &Event) -> &'static str {
    match event.status {
        Some(Status::Failed) => "!",
        Some(Status::Aborted) => "?",
        _ => "",
    }
}

/// Adds a text.
pub(crate) fn say(text: &mut String, more: &str) {
    let _ = text.push_str(more);
}

/// Adds a text, and a value behind it.
pub(crate) fn show<T: Display + Copy>(text: &mut String, more: &str, value: T) {
    let _ = write!(text, "{more}{value}");
}

/// The events, whoever published them: each by its sign and its node, with a mark where that did
/// not end well.
pub fn push_events(text: &mut String, events: &[Event]) {
    for event in events {
        show(text, sign(event), event.node.index());
        show(text, mark(event), " ");
    }
}

/// The numbers of these jobs, from the least.
fn numbers_of(alloc: Global, jobs: &Jobs<Actor>) -> Vec<usize> {
    let mut numbers = Vec::new(alloc);
    for (number, _) in jobs.iter() {
        let _ = numbers.push(number.index());
    }
    let _ = numbers.sort();
    numbers
}

/// Adds the numbers of these jobs, from the least.
fn push_jobs(alloc: Global, text: &mut String, jobs: &Jobs<Actor>) {
    let numbers = numbers_of(alloc, jobs);
    for number in numbers.as_slice() {
        show(text, "", *number);
        say(text, " ");
    }
}

/// The number of the body that has no job, if a run is refused for that.
fn without_job(cause: RunCause) -> Option<usize> {
    let RunCause::Table(fault) = cause else {
        return None;
    };
    match fault {
        TableFault::JobsMissing(body) => Some(body.index()),
        _ => None,
    }
}

/// That a run was refused with this number, and the body that has no job, if it was for that.
fn push_refusal(text: &mut String, number: u8, missing: Option<usize>) {
    show(text, "refused ", number);
    if let Some(body) = missing {
        show(text, " at ", body);
    }
}

/// Adds what was reported, how often jobs were asked for a dynamic test, and how many bytes of
/// texts the first listener was told.
fn push_report(alloc: Global, text: &mut String, report: &Report<Actor>, board: &Board) {
    push_events(text, report.events.as_slice());
    say(text, "unused ");
    push_jobs(alloc, text, &report.unused_jobs);
    show(text, "asked ", board.asked());
    show(text, " told ", board.heard());
}

/// A run, or why it was refused.
type Ran = Result<Report<Actor>, RunFault<Actor>>;

/// Adds what was reported; and whether a body began too early.
fn push_ran(alloc: Global, text: &mut String, ran: &Ran, board: &Board) {
    match ran {
        Ok(report) => push_report(alloc, text, report, board),
        Err(fault) => push_refusal(text, fault.cause.number(), without_job(fault.cause)),
    }
    if board.is_early() {
        say(text, " early");
    }
}

/// The events of a run.
fn events_of(ran: &Ran) -> &[Event] {
    match ran {
        Ok(report) => report.events.as_slice(),
        Err(_) => &[],
    }
}

/// Adds what was reported, and whether the listeners, which were handed back, were told otherwise.
fn push_told(
    alloc: Global,
    text: &mut String,
    ran: &Ran,
    listeners: &[Box<dyn Listener>],
    board: &Board,
    other: &Board,
) {
    push_ran(alloc, text, ran, board);
    if !are_told_alike(listeners, events_of(ran), board, other) {
        say(text, " otherwise");
    }
}

/// What is said of a run, if there was one.
fn said(
    alloc: Global,
    ran: Option<Ran>,
    listeners: &[Box<dyn Listener>],
    board: &Board,
    other: &Board,
) -> Option<String> {
    let ran = ran?;
    let mut text = String::new(alloc);
    push_told(alloc, &mut text, &ran, listeners, board, other);
    Some(text)
}

/// How a suite is run.
#[derive(Clone, Copy)]
pub(crate) struct Setup {
    /// What all jobs do.
    pub(crate) act: Act,
    pub(crate) workers: u32,
    /// How many words the ring has.
    pub(crate) ring: u32,
    /// How many failures the run goes on after, if failures end it.
    pub(crate) tolerated: Option<u16>,
    /// Whether the plan is handed in with its jobs, and not without one.
    pub(crate) has_jobs: bool,
    /// Whose body the listener looks for while it is told the start before.
    pub(crate) looks_for: Option<usize>,
}

/// A run in which all jobs do this, by so many workers with a ring of so many words.
pub(crate) fn how(act: Act, workers: u32, ring: u32) -> Setup {
    Setup {
        act,
        workers,
        ring,
        tolerated: None,
        has_jobs: true,
        looks_for: None,
    }
}

/// The jobs that are handed in with a plan.
fn jobs_of(
    alloc: Global,
    plan: &Plan,
    scripts: &[Script],
    how: Setup,
    board: &Arc<Board>,
) -> Option<Jobs<Actor>>
    ensures { IfSome result (λ jobs. (workers ring : ℕ) →
        JobsMayAnswer replies_left (run_of plan.now workers ring jobs.items)) }
{
    if !how.has_jobs {
        return Some(no_jobs(alloc));
    }
    cast(alloc, plan, scripts, how.act, board).ok()
}

/// Runs a plan before this audience, which was told nothing.
fn run<R: Threads + Wait + Sync>(
    rt: &R,
    alloc: Global,
    plan: Plan,
    jobs: Jobs<Actor>,
    workers: u32,
    ring: u32,
    audience: &mut Audience,
) -> Option<Ran>
    requires { JobsMayAnswer replies_left (run_of plan workers ring jobs.items) }
{
    if !audience.fresh() {
        drop(plan);
        drop(jobs);
        return None;
    }
    Some(run_plan(rt, alloc, plan, jobs, workers, ring, audience))
}

/// Runs the plan of a suite before this audience.
fn run_before<R: Threads + Wait + Sync>(
    rt: &R,
    alloc: Global,
    text: &str,
    how: Setup,
    board: &Arc<Board>,
    audience: &mut Audience,
) -> Option<Ran> {
    let (plan, scripts) = staged(alloc, text)?;
    let plan = plan.with_fail_fast(how.tolerated.is_some());
    let plan = plan.with_tolerated(how.tolerated.unwrap_or(0));
    let jobs = jobs_of(alloc, &plan, scripts.as_slice(), how, board);
    drop(scripts);
    let Some(jobs) = jobs else {
        drop(plan);
        return None;
    };
    run(rt, alloc, plan, jobs, how.workers, how.ring, audience)
}

/// Runs a suite before a watcher of this board, and before another of the other board with more room, and says what
/// happened.
fn run_watched<R: Threads + Wait + Sync>(
    rt: &R,
    alloc: Global,
    text: &str,
    how: Setup,
    board: &Arc<Board>,
    other: &Arc<Board>,
) -> Option<String> {
    let watcher = one_watcher(alloc, how.act, board, how.looks_for)?;
    let roomy = roomy_watcher(alloc, other)?;
    let mut watchers: Vec<Box<dyn Listener>> = Vec::new(alloc);
    watchers.push(Box::new(alloc, watcher).ok()?).ok()?;
    watchers.push(Box::new(alloc, roomy).ok()?).ok()?;
    let mut audience = Audience::new(watchers).ok()?;
    let ran = run_before(rt, alloc, text, how, board, &mut audience);
    let listeners = audience.into_listeners();
    said(alloc, ran, listeners.as_slice(), board, other)
}

/// What happens in a run of this suite: the events, the numbers of the jobs that were not used, and
/// how often jobs were asked for a dynamic test.
pub(crate) fn run_of_suite<R: Threads + Wait + Sync>(
    rt: &R,
    alloc: Global,
    text: &str,
    how: Setup,
) -> Option<String> {
    let board = board_of(alloc)?;
    let other = board_of(alloc)?;
    run_watched(rt, alloc, text, how, &board, &other)
}

/// Whether just this is said of a run.
pub(crate) fn is_said(said: Option<String>, wanted: &str) -> bool {
    match said {
        Some(said) => said.as_str() == wanted,
        None => false,
    }
}
