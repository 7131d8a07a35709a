//! Who watches a run is left moments while a test runs, so what changes with the time can be drawn.

ghost use Rattle.std.specs.Prelude.{ℕ};
ghost use Rattle.test_jobs.specs.Acting.{replies_left};
ghost use Rattle.worker_pool.specs.Premises.{JobsMayAnswer};
ghost use Rattle.worker_pool.specs.Reports.{run_of};

use crate::running::{WIDE, push_events, staged};
use crate::watching::board_of;
use listeners::Observer;
use plan_events::{Event, Texts};
use resource_locks::Plan;
use run_table::Jobs;
use std::alloc::Global;
use std::sync::{Arc, Wait};
use std::thread::Threads;
use test_jobs::{Act, Actor, Board, cast};
use worker_pool::run_watched;

/// A test, node 3, that ends once it is seen to.
const ONE: &str = "engine e
  class a.B
    test t() pass
";

/// The number of its node.
const TEST: usize = 3;

/// How many moments come before the test may end.
const MOMENTS: u32 = 20;

/// Counts the moments that it is left once the test was told to start, and then lets the test end.
#[derive(Drop)]
struct Patient {
    board: Arc<Board>,
    has_started: bool,
    moments: u32,
}

impl Observer for Patient {
    ghost saw = { λ _ _ _ _. Unit {0} };

    fn see(&mut self, _plan: &Plan, _texts: &Texts, event: Event) {
        self.has_started = self.has_started || event.node.index() == TEST;
    }

    fn idle(&mut self) {
        if !self.has_started {
            return;
        }
        self.moments = self.moments.saturating_add(1);
        if self.moments == MOMENTS {
            self.board.set(TEST);
        }
    }
}

/// The events of a run of these jobs before this observer alone.
fn run_before<R: Threads + Wait + Sync>(
    rt: &R,
    alloc: Global,
    plan: Plan,
    jobs: Jobs<Actor>,
    observer: &mut Patient,
) -> Option<Vec<Event>>
    requires { (workers ring : ℕ) → JobsMayAnswer replies_left (run_of plan workers ring jobs.items) }
{
    match run_watched(rt, alloc, plan, jobs, 1, WIDE, observer) {
        Ok(report) => Some(report.events),
        Err(_) => None,
    }
}

/// What is said of the events of a run whose test ends well once its observer was left moments.
fn events_of_patience<R: Threads + Wait + Sync>(rt: &R, alloc: Global) -> Option<String> {
    let board = board_of(alloc)?;
    let (plan, scripts) = staged(alloc, ONE)?;
    let jobs = cast(alloc, &plan, scripts.as_slice(), Act::Waits, &board).ok()?;
    let mut observer = Patient {
        board,
        has_started: false,
        moments: 0,
    };
    let events = run_before(rt, alloc, plan, jobs, &mut observer)?;
    let mut text = String::new(alloc);
    push_events(&mut text, events.as_slice());
    Some(text)
}

/// Whether the test ended well.
pub(crate) fn a_long_test_is_watched<R: Threads + Wait + Sync>(rt: &R, alloc: Global) -> bool {
    match events_of_patience(rt, alloc) {
        Some(text) => text.as_str() == "+0 +1 +2 +3 -3 -2 -1 -0 ",
        None => false,
    }
}
