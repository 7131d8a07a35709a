//! Calls `sched_core` for what `event_history` says: what workers publish is a legal history, in which
//! nodes that hold conflicting locks never overlap.

ghost use Rattle.std.specs.Prelude.{◌≢◌, ℕ, IfOk};
ghost use Rattle.event_history.specs.Exclusion.{HeldConflict, Overlaps};
ghost use Rattle.event_history.specs.History.{IsLegal};
ghost use Rattle.sched_core.specs.Replies.{replies_of};

use plan_events::Event;
use resource_locks::Plan;
use sched_core::{Answers, CoreFault, Trace, run_steps};
use scheduling::Step;
use std::alloc::Global;

/// What so many workers publish by these steps, in whatever order the steps stand.
pub fn published_by(
    alloc: Global,
    plan: &Plan,
    answers: &Answers,
    workers: u32,
    steps: &[Step],
) -> Result<Vec<Event>, CoreFault>
    ensures legal { IfOk result (λ h. IsLegal plan.now (replies_of answers.now) workers h.items) }
    ensures apart { IfOk result (λ h. (m n : ℕ) → m ≢ n → HeldConflict plan.now m n → Overlaps h.items m n → ⊥) }
{
    let Trace { published, .. } = run_steps(alloc, plan, answers, workers, steps)?;
    Ok(published)
}
