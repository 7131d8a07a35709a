//! A run with jobs of two kinds, each in a box.

ghost use Rattle.std.specs.Prelude.{◌<◌, IfOk, length};
ghost use Rattle.plan_events.specs.Jobs.{unpulled};
ghost use Rattle.test_jobs.specs.Acting.{AreFresh, replies_left};

use crate::running::{push_events, staged};
use crate::watching::board_of;
use descriptor::BodyId;
use plan_events::{Event, Job};
use resource_locks::Plan;
use run_table::Jobs;
use std::alloc::{AllocError, Global};
use std::sync::{Arc, Wait};
use std::thread::Threads;
use suite_text::Script;
use test_jobs::{Act, Actor, Board, Counted, actor};
use worker_pool::run_watched;

/// Two tests that may run side by side, nodes 3 and 4.
const TWO: &str = "property junit.jupiter.execution.parallel.enabled=true
property junit.jupiter.execution.parallel.mode.default=concurrent
engine e
  class a.B
    test t() pass
    test u() pass
";

/// A list of two jobs, each under the number of its body.
fn two_boxed(
    alloc: Global,
    first: BodyId,
    one: Box<dyn Job + Send>,
    second: BodyId,
    other: Box<dyn Job + Send>,
) -> Result<Jobs<Box<dyn Job + Send>>, AllocError>
    requires one { 0 < length (unpulled (answers one)) }
    requires other { 0 < length (unpulled (answers other)) }
    ensures { IfOk result (λ jobs. AreFresh (λ b. answers b) jobs.items) }
{
    let mut jobs = Vec::new(alloc);
    jobs.push((first, one))?;
    jobs.push((second, other))?;
    Ok(jobs)
}

/// The events of a run of this plan on two threads, whose only bodies these are: one's job is an actor,
/// and the other's counts how often it is run.
fn run_both<R: Threads + Wait + Sync>(
    rt: &R,
    alloc: Global,
    plan: Plan,
    first: BodyId,
    one: Actor,
    second: BodyId,
    other: Actor,
) -> Option<Vec<Event>>
    requires one { 0 < length (unpulled (replies_left one)) }
    requires other { 0 < length (unpulled (replies_left other)) }
{
    let Ok(one) = Box::new(alloc, one) else {
        return None;
    };
    let Ok(other) = Box::new(alloc, Counted::new(other)) else {
        return None;
    };
    let Ok(jobs) = two_boxed(alloc, first, one, second, other) else {
        return None;
    };
    match run_watched(rt, alloc, plan, jobs, 2, 1, &mut ()) {
        Ok(report) => Some(report.events),
        Err(_) => None,
    }
}

/// The bodies of the first two scripts.
fn two_bodies(scripts: &[Script]) -> Option<(BodyId, BodyId)> {
    let first = scripts.first()?;
    let second = scripts.get(1)?;
    Some((first.body, second.body))
}

/// The events of a run of this plan, whose only bodies are the two of the scripts, of nodes 3 and 4, which end well
/// once each sees the other at work.
fn run_meeting<R: Threads + Wait + Sync>(
    rt: &R,
    alloc: Global,
    plan: Plan,
    scripts: &[Script],
    board: &Arc<Board>,
) -> Option<Vec<Event>> {
    let (first, second) = two_bodies(scripts)?;
    let one = actor(alloc, scripts, first, 3, Act::Meets(3, 4), board).ok()?;
    let other = actor(alloc, scripts, second, 4, Act::Meets(3, 4), board).ok()?;
    run_both(rt, alloc, plan, first, one, second, other)
}

/// Whether these are so many events, and each node ended well.
fn all_end_well(alloc: Global, events: &[Event], wanted: usize) -> bool {
    let mut text = String::new(alloc);
    push_events(&mut text, events);
    text.split_whitespace().count() == wanted && !text.contains('!')
}

/// Whether two jobs of two kinds, each in a box, meet, and the one that counts was run once.
pub(crate) fn jobs_of_two_kinds_run_side_by_side_in_boxes<R: Threads + Wait + Sync>(
    rt: &R,
    alloc: Global,
) -> Option<bool> {
    let board = board_of(alloc)?;
    let (plan, scripts) = staged(alloc, TWO)?;
    let events = run_meeting(rt, alloc, plan, scripts.as_slice(), &board)?;
    Some(all_end_well(alloc, events.as_slice(), 10) && board.runs() == 1)
}
