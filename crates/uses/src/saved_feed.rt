//! Calls `saved_runs`: what is read from the feed of a history is what its events tell.

ghost use Rattle.std.specs.Prelude.{◌≡◌, ℕ, List, IfOk, map};
ghost use Rattle.event_history.specs.History.{IsLegal};
ghost use Rattle.plan_events.specs.declared.outcome.Reply.{Reply};
ghost use Rattle.saved_runs.specs.Histories.{HasFlatIds, event_told};

use plan_events::{Event, Texts};
use resource_locks::Plan;
use run_results::feed_text;
use saved_runs::{SavedFault, SavedRun, has_uids};
use std::alloc::Global;

/// The run that is read from the feed of a history.
pub fn feed_again(
    alloc: Global,
    plan: &Plan,
    history: &[Event],
    texts: &Texts,
) -> Result<SavedRun, SavedFault>
    ensures { (replies : ℕ → List Reply) (workers : ℕ) → HasFlatIds plan.now →
        IsLegal plan.now replies workers history.now →
        IfOk result (λ run. run ≡ map (event_told plan.now) history.now) }
{
    has_uids(plan);
    let feed = feed_text(alloc, plan, history, texts)?;
    SavedRun::read(alloc, feed.as_str())
}
