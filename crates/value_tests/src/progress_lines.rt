//! When the line is drawn that says how far a run has come.

use crate::failing::{Failing, Full};
use job_times::JobTimes;
use listeners::Observer;
use live::{Failures, Progress, Running, SlowTests};
use run_results::Summary;
use std::alloc::Global;
use std::cell::Cell;
use std::io::{Result as IoResult, Write};
use std::time::{Clock, Duration};

/// The line before anything has happened.
const LINE: &str = "\r\x1b[K\x1b[?7l0 found, 0 running, 0 done, 0 failed, 0 s\x1b[?7h";

/// A clock that each reading moves on by so many milliseconds.
#[derive(Drop)]
pub(crate) struct Ticking {
    now: Cell<u64>,
    step: u64,
}

impl Ticking {
    pub(crate) fn by(step: u64) -> Ticking {
        Ticking {
            now: Cell::new(0),
            step,
        }
    }
}

impl Clock for Ticking {
    fn monotonic(&self) -> IoResult<Duration> {
        self.now.set(self.now.get().saturating_add(self.step));
        Ok(Duration::from_millis(self.now.get()))
    }

    fn since_1970(&self) -> IoResult<Duration> {
        self.monotonic()
    }
}

/// Leaves a observer with this terminal six moments, between which so many milliseconds pass.
fn leave_moments<E: Write>(alloc: Global, terminal: &mut E, step: u64) {
    let clock = Ticking::by(step);
    let mut summary = Summary::new(alloc);
    let mut failures = Failures::new(alloc);
    let mut running = Running::new(alloc);
    let times = JobTimes::off(alloc, &clock, 1);
    let mut slow = SlowTests::new(alloc);
    let mut progress = Progress::new(
        alloc,
        terminal,
        &clock,
        false,
        &mut summary,
        &mut failures,
        &mut running,
        &times,
        &mut slow,
    );
    for _ in 0..6 {
        progress.idle();
    }
}

/// Whether what was taken is the line so many times.
fn is_drawn(taken: &[u8], times: usize) -> bool {
    taken.len() == LINE.len().saturating_mul(times)
        && taken
            .chunks(LINE.len())
            .all(|drawn| drawn == LINE.as_bytes())
}

/// Whether in six moments, so many milliseconds one behind the other, the line is drawn so often.
fn is_drawn_in_six(alloc: Global, step: u64, times: usize) -> bool {
    let mut taken = Vec::new(alloc);
    leave_moments(alloc, &mut taken, step);
    is_drawn(taken.as_slice(), times)
}

pub(crate) fn a_line_stands_a_tenth_of_a_second_before_it_is_drawn_anew(alloc: Global) -> bool {
    is_drawn_in_six(alloc, 100, 6)
        && is_drawn_in_six(alloc, 99, 3)
        && is_drawn_in_six(alloc, 30, 1)
        && is_drawn_in_six(alloc, 16, 0)
}

/// Whether a terminal that takes one line, and then fails, is left alone.
pub(crate) fn a_terminal_that_fails_is_left_alone(alloc: Global) -> bool {
    let mut terminal = Failing {
        taken: Vec::new(alloc),
        room: LINE.len(),
        step: LINE.len(),
        full: Full::Fails,
    };
    leave_moments(alloc, &mut terminal, 100);
    is_drawn(terminal.taken.as_slice(), 1)
}
