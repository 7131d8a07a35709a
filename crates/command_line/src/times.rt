//! What takes note of when tests begin and end, and the table of times of a run.

use job_times::{JobTimes, RunTimes, Stopwatch, Timings, moment_by};
use std::alloc::Global;
use std::time::Clock;

/// What takes note, by this clock, of when the tests of a tree of so many nodes at most begin and end, if that is asked for,
/// or once a limit is set, if there is memory for it; else it takes none, and knows nothing.
pub fn times_by<C: Clock>(
    alloc: Global,
    clock: &C,
    nodes: usize,
    is_asked: bool,
) -> JobTimes<'_, C> {
    let times = JobTimes::off(alloc, clock, nodes);
    if is_asked {
        times.turn_on();
    }
    times
}

/// A text of its own, if there is one and there is memory for it.
fn owned(alloc: Global, text: Option<&str>) -> Option<String> {
    String::from_str(alloc, text?).ok()
}

/// What is known of a run before it: when it begins by this clock, and on which machine; and nothing where times are not
/// asked for.
fn timings_asked<C: Clock>(
    alloc: Global,
    clock: &C,
    host: Option<&str>,
    is_asked: bool,
) -> Timings {
    if is_asked {
        Timings::stamped(alloc, moment_by(alloc, clock), owned(alloc, host))
    } else {
        Timings::none(alloc)
    }
}

/// The table of times of a run that begins now by this clock, on the machine of this name. What this stopwatch says of
/// each test is noted there. Where times are not asked for nothing stands there.
pub fn times_for<'s, C: Clock, S: Stopwatch>(
    alloc: Global,
    clock: &C,
    host: Option<&str>,
    is_asked: bool,
    stopwatch: &'s S,
) -> RunTimes<'s, S> {
    RunTimes::new(stopwatch, timings_asked(alloc, clock, host, is_asked))
}
