//! The schedule of a history.

ghost use Rattle.std.specs.Prelude.{◌≡◌, IfOk, IfSome, IsTrue};
ghost use Rattle.schedules.specs.Schedules.{IsSchedule};

use crate::same::are_same;
use crate::search::steps_toward;
use plan_events::Event;
use resource_locks::Plan;
use sched_core::{Answers, CoreFault, Trace, run_steps};
use scheduling::Step;
use std::alloc::{AllocError, Global};

/// Whether none of a run's steps was passed over, and the run published this history and gave all of it.
fn leads_to(trace: &Trace, history: &[Event]) -> bool
    ensures possible { IsTrue result → trace.now.passed_over ≡ 0 }
    ensures published { IsTrue result → trace.now.published.items ≡ history.now }
    ensures given { IsTrue result → trace.now.given.items ≡ history.now }
{
    trace.passed_over == 0
        && are_same(trace.published.as_slice(), history)
        && are_same(trace.given.as_slice(), history)
}

/// Steps which, taken by so many workers of the plan, publish this history and give all of it; none
/// where none were found.
pub fn schedule_of(
    alloc: Global,
    plan: &Plan,
    answers: &Answers,
    workers: u32,
    history: &[Event],
) -> Result<Option<Vec<Step>>, AllocError>
    ensures found { IfOk result (λ found. IfSome found
        (λ steps. IsSchedule plan.now answers.now workers history.now steps.items)) }
{
    let steps = steps_toward(alloc, plan, answers, workers, history)?;
    let trace = match run_steps(alloc, plan, answers, workers, steps.as_slice()) {
        Ok(trace) => trace,
        Err(CoreFault::NoMemory) => return Err(AllocError),
        // there are no runs by so many workers
        Err(CoreFault::NoWorkers | CoreFault::TooManyWorkers) => return Ok(None),
    };
    if leads_to(&trace, history) {
        Ok(Some(steps))
    } else {
        Ok(None)
    }
}
