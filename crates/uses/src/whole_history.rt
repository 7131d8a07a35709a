//! Calls `sched_core`: a plan is run to its end by the fixed schedule.

ghost use Rattle.std.specs.Prelude.{IfOk};
ghost use Rattle.event_history.specs.History.{IsComplete, IsLegal};
ghost use Rattle.event_history.specs.Parts.{EndsInPlan};
ghost use Rattle.sched_core.specs.Replies.{replies_of};

use plan_events::Event;
use resource_locks::Plan;
use sched_core::{Answers, Trace, drive};
use std::alloc::{AllocError, Global};

/// The history of one worker: legal and complete, and the plan's finish is its last event.
pub fn history(alloc: Global, plan: &Plan, answers: &Answers) -> Result<Vec<Event>, AllocError>
    ensures legal { IfOk result (λ h. IsLegal plan.now (replies_of answers.now) 1 h.items) }
    ensures complete { IfOk result (λ h. IsComplete plan.now h.items) }
    ensures ends { IfOk result (λ h. EndsInPlan h.items) }
{
    let Trace { published, .. } = drive(alloc, plan, answers)?;
    Ok(published)
}
