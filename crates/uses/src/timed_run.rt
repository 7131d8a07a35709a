//! Calls `run_timed` of `launcher`: two threads run a plan with two jobs of one's own, and a clock says how long its
//! nodes took.

ghost use Rattle.std.specs.Prelude.{◌≡◌, ◌<◌, IfOk, IfSome, ℕ, true};
ghost use Rattle.descriptor.specs.Nodes.{size};
ghost use Rattle.event_history.specs.History.{IsComplete};
ghost use Rattle.job_times.specs.Timings.{is_noted};

use crate::threaded_run::two_jobs;
use descriptor::{BodyId, MOST_NODES, NodeId, Tree};
use job_times::{JobTimes, RunTimes, Stopwatch, Timings};
use launcher::{bare_places, run_timed};
use plan_events::Event;
use resource_locks::Plan;
use std::alloc::{AllocError, Global};
use std::sync::Wait;
use std::thread::Threads;
use std::time::Clock;

/// How long each node of a tree took, as this stopwatch has it now.
fn noted<S: Stopwatch>(alloc: Global, tree: &Tree, stopwatch: &S) -> Result<Timings, AllocError>
    ensures { IfOk result (λ timings. (n : ℕ) → n < size tree.now → is_noted timings.took.items n ≡ true) }
{
    let mut times = RunTimes::new(stopwatch, Timings::none(alloc));
    times.prepare(alloc, true, tree.len())?;
    for number in 0..tree.len() {
        times
            .timings
            .note(stopwatch, tree, NodeId::new(number as u16));
    }
    let RunTimes {
        stopwatch: _,
        timings,
    } = times;
    Ok(timings)
}

/// What happens where two threads run this plan, whose only bodies are these two, and how long its nodes took; or None,
/// if it is not run.
pub fn run_two_timed<R: Threads + Wait + Sync + Clock>(
    rt: &R,
    alloc: Global,
    plan: Plan,
    first: BodyId,
    second: BodyId,
) -> Option<(Vec<Event>, Timings)>
    ensures complete { IfSome result (λ told. IsComplete plan told.0.items) }
    ensures each { IfSome result (λ told. (n : ℕ) → n < size plan.tree → is_noted told.1.took.items n ≡ true) }
{
    let Ok(jobs) = two_jobs(alloc, first, second) else {
        return None;
    };
    let stopwatch = JobTimes::off(alloc, rt, MOST_NODES);
    stopwatch.turn_on();
    let places = bare_places();
    match run_timed(
        rt,
        alloc,
        plan,
        jobs,
        2,
        1024,
        places.as_slice(),
        &mut (),
        &stopwatch,
    ) {
        Ok(report) => match noted(alloc, report.plan.tree(), &stopwatch) {
            Ok(timings) => Some((report.events, timings)),
            Err(_) => None,
        },
        Err(_) => None,
    }
}
