//! Calls `run_results`: what is printed of a run.

ghost use Rattle.std.specs.Prelude.{◌≡◌, IfOk, MatchOption, false, string_bytes};
ghost use Rattle.run_results.specs.Counts.{counts_of};
ghost use Rattle.run_results.specs.Results.{has_failed};
ghost use Rattle.run_results.specs.SummaryTexts.{summary_of};

use plan_events::Event;
use resource_locks::Plan;
use run_results::Results;
use std::alloc::{AllocError, Global};

/// The summary of a run in which a container or a test failed, and none of another.
pub fn failed_summary(
    alloc: Global,
    plan: &Plan,
    events: &[Event],
) -> Result<Option<String>, AllocError>
    ensures { IfOk result (λ summary. MatchOption summary (has_failed plan.now events.now ≡ false)
        (λ text. string_bytes text ≡ summary_of (counts_of plan.now events.now))) }
{
    let results = Results::of(alloc, plan, events)?;
    if !results.failed() {
        return Ok(None);
    }
    Ok(Some(results.summary_text(alloc)?))
}
