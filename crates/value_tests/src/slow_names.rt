//! Which tests are named since they run longer than their limit.

use crate::plans::{finished, plan_of, started};
use crate::progress_lines::Ticking;
use descriptor::BodyId;
use job_times::{JobTimes, Stopwatch};
use listeners::Observer;
use live::{SlowLines, SlowTests};
use plan_events::{Event, Status, Texts};
use std::alloc::Global;

/// A suite whose nodes 3 and 4 are tests.
const SUITE: &str = "engine e\n  class a.B\n    test t() pass\n    test u() pass\n";

/// What is written where the job of node 3, whose limit is 900 milliseconds, began before these events, and each reading
/// of the clock is half a second after the one before.
fn written(alloc: Global, events: &[Event]) -> Option<Vec<u8>> {
    let clock = Ticking::by(500);
    let times = JobTimes::off(alloc, &clock, 5);
    times.turn_on();
    let plan = plan_of(alloc, SUITE)?;
    let texts = Texts::new(alloc, plan.tree()).ok()?;
    let body = BodyId::new(3);
    times.set_limit(body, 900);
    times.begin(body);
    let mut taken = Vec::new(alloc);
    let mut tests = SlowTests::new(alloc);
    let mut nobody = ();
    let mut lines = SlowLines::new(&mut taken, &times, &mut tests, &mut nobody);
    for event in events {
        lines.see(&plan, &texts, *event);
    }
    for _ in 0..4 {
        lines.idle();
    }
    Some(taken)
}

/// Whether this is what is written of these events.
fn says(alloc: Global, events: &[Event], text: &str) -> bool {
    match written(alloc, events) {
        Some(taken) => taken.as_slice() == text.as_bytes(),
        None => false,
    }
}

pub(crate) fn a_test_is_named_once_while_it_runs_over_its_limit(alloc: Global) -> bool {
    let line = "slow: t() in a.B has been running for 1.000 s (limit 900 ms)\n";
    let ended = [started(3), finished(3, Status::Successful)];
    // node 4 has no limit
    says(alloc, &[started(3)], line) && says(alloc, &ended, "") && says(alloc, &[started(4)], "")
}
