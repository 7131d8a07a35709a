//! Calls `run_table`: on the calling thread a worker's seat is dealt and goes on until the plan's start is shown and read.

ghost use Rattle.std.specs.Prelude.{◌≡◌, true, IfSome};
ghost use Rattle.plan_events.specs.Words.{is_lawful};

use descriptor::NodeId;
use plan_events::{Event, Job};
use resource_locks::Plan;
use run_table::{Jobs, RunTable};
use std::alloc::Global;

/// The first event of a run of this plan by one worker; or None, if no run is prepared.
pub fn first_event<B: Job>(alloc: Global, plan: Plan, jobs: Jobs<B>) -> Option<Event>
    ensures lawful { IfSome result (λ event. is_lawful event ≡ true) }
{
    // refused are 0, 60, 61, 70 and 71; plan and jobs stand in the error
    let Ok((table, mut dispatcher_seat)) = RunTable::prepare(alloc, plan, jobs, 1, 1024) else {
        return None;
    };
    let mut worker = dispatcher_seat.split(&table)?;
    // node 0 is offered to any at the start
    let _ = worker.claim(&table, NodeId::ROOT);
    // of a plan that fails fast; it is refused (62) of another
    let _ = worker.notice(&table);
    let _ = worker.draw(&table);
    // the first 1,024 events have room
    let _ = worker.show(&table);
    let start = dispatcher_seat.read(&table);
    dispatcher_seat.advance(&table);
    start
}
