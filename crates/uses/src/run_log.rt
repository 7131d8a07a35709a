//! Calls `reports`: how a plan would be run, and what its run told.

ghost use Rattle.std.specs.Prelude.{◌≡◌, ◌++◌, IfOk, string_bytes};
ghost use Rattle.reports.specs.Json.{json_of};
ghost use Rattle.reports.specs.PlanNodes.{plan_lines};

use plan_events::{Event, Texts};
use reports::{json_text, plan_text};
use resource_locks::Plan;
use std::alloc::{AllocError, Global};

/// A log of a run as JSON: an object for each node, and then one for each event.
pub fn log_text(
    alloc: Global,
    plan: &Plan,
    events: &[Event],
    texts: &Texts,
) -> Result<String, AllocError>
    ensures { IfOk result (λ log. string_bytes log ≡ plan_lines plan.now ++ json_of plan.now texts.now events.now) }
{
    let mut log = plan_text(alloc, plan)?;
    let json = json_text(alloc, plan, events, texts)?;
    log.push_str(json.as_str())?;
    Ok(log)
}
