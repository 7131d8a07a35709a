//! Summaries of what no suite's text gives: a node that is a container and a test, a dynamic test,
//! and a change of plans.

use crate::plans::{event, factory_plan, finished, plan_of, plan_of_one, started};
use descriptor::Kind;
use listeners::Listener;
use plan_events::{Event, EventKind, Status};
use resource_locks::Plan;
use run_results::Summary;
use std::alloc::Global;

/// Tells a summary these events, as far as it has room.
fn tell_all(summary: &mut Summary, events: &[Event]) {
    for event in events {
        if summary.room() > 0 {
            summary.told(*event, None);
        }
    }
}

/// Whether these are the counts on the plan last prepared, where a summary is told events between two plans.
fn counts(
    alloc: Global,
    first: &Plan,
    events: &[Event],
    last: &Plan,
    wanted: [u32; 12],
) -> Option<bool> {
    let mut summary = Summary::new(alloc);
    summary.prepare(first).ok()?;
    tell_all(&mut summary, events);
    summary.prepare(last).ok()?;
    Some(summary.counts() == wanted)
}

pub(crate) fn counts_nothing_before_it_is_prepared(alloc: Global) -> bool {
    Summary::new(alloc).counts() == [0; 12]
}

/// Whether a node that is a container and a test counts twice, and its start, told twice, once.
pub(crate) fn counts_a_node_that_is_both_twice_and_a_double_event_once(
    alloc: Global,
) -> Option<bool> {
    let plan = plan_of_one(alloc, "f()", Kind::ContainerAndTest)?;
    let events = [started(1), started(1), finished(1, Status::Aborted)];
    let wanted = [1, 0, 1, 1, 0, 0, 1, 0, 1, 1, 0, 0];
    counts(alloc, &plan, events.as_slice(), &plan, wanted)
}

/// Whether the only spare of a factory is not found where the factory was skipped, and is found and
/// counts as skipped where it was registered and skipped itself.
pub(crate) fn counts_a_spare_where_it_was_registered_or_skipped_itself(
    alloc: Global,
) -> Option<bool> {
    let plan = factory_plan(alloc)?;
    let never = [event(EventKind::Skipped, 1, None)];
    let without = [1, 1, 0, 0, 0, 0, 0, 0, 0, 0, 0, 0];
    let itself = [
        started(1),
        event(EventKind::Registered, 2, None),
        event(EventKind::Skipped, 2, None),
    ];
    let with = [1, 0, 1, 0, 0, 0, 1, 1, 0, 0, 0, 0];
    let never = counts(alloc, &plan, never.as_slice(), &plan, without);
    let itself = counts(alloc, &plan, itself.as_slice(), &plan, with);
    Some(never == Some(true) && itself == Some(true))
}

/// Whether what a summary is told of the first plan counts for the nodes of a plan of one disabled class.
fn counts_on_last(alloc: Global, first: &Plan) -> Option<bool> {
    let events = [
        started(0),
        started(1),
        started(2),
        started(3),
        finished(3, Status::Successful),
        started(4),
        finished(4, Status::Failed),
        finished(2, Status::Successful),
        finished(1, Status::Successful),
        finished(0, Status::Successful),
    ];
    let wanted = [2, 0, 2, 0, 2, 0, 1, 0, 1, 0, 1, 0];
    let one = "engine e\n  class a.B disabled later\n    test t() fail never run\n";
    let last = plan_of(alloc, one)?;
    counts(alloc, first, events.as_slice(), &last, wanted)
}

/// Whether it is so where the first plan is one of a class of two tests.
pub(crate) fn counts_what_it_was_told_on_the_plan_last_prepared(alloc: Global) -> Option<bool> {
    let two = "engine e\n  class a.B\n    test t() pass\n    test u() fail no\n";
    let first = plan_of(alloc, two)?;
    counts_on_last(alloc, &first)
}
