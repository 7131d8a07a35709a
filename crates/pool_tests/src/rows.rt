//! Runs whose events stand in one order, whoever takes the nodes.

use crate::meeting::tests_end_well;
use crate::running::{WIDE, how, is_said, run_of_suite};
use std::alloc::Global;
use std::sync::Wait;
use std::thread::Threads;
use test_jobs::Act;

/// What is to happen, and below it the suite: nothing; a test; a test that is aborted; a class
/// whose body fails, and the same before an after-body; a disabled class; a test that fails; a
/// factory, one that asks for too many dynamic tests, and one that does so without end; nodes below
/// one that writes; a run that fails fast; an after-body that fails; a plan that is handed in
/// without its jobs.
const ROWS: &str = "+0 -0 unused asked 0 told 0
==
+0 +1 +2 +3 -3 -2 -1 -0 unused asked 0 told 0
engine e
  class a.B
    test t() pass
==
+0 +1 +2 +3 -3? -2 -1 -0 unused asked 0 told 12
engine e
  class a.B
    test t() abort closed today
==
+0 +1 +2 -2! -1 -0 unused 3 4 asked 0 told 4
engine e
  class a.B fail boom
    test t() pass
    test u() pass
==
+0 +1 +2 -2! -1 -0 unused 3 4 16386 asked 0 told 4
engine e
  class a.B fail boom
    test t() pass
    test u() pass
    after pass
==
+0 +1 ~2 -1 -0 unused 3 asked 0 told 5
engine e
  class a.B disabled later
    test t() fail x
==
+0 +1 +2 +3 -3 +4 -4! -2 -1 -0 unused asked 0 told 2
engine e
  class a.B
    test t() pass
    test u() fail no
==
+0 +1 +2 +3 *4 +4 -4 *5 +5 -5 -3 -2 -1 -0 unused 6 asked 3 told 0
engine e
  class a.B
    factory f() pulls=2 pass
      dyn one pass
      dyn two pass
      dyn three pass
==
+0 +1 +2 +3 *4 +4 -4 *5 +5 -5 *6 +6 -6 -3! -2 -1 -0 unused asked 4 told 22
engine e
  class a.B
    factory f() pulls=4 pass
      dyn one pass
      dyn two pass
      dyn three pass
==
+0 +1 +2 +3 *4 +4 -4 *5 +5 -5 *6 +6 -6 -3! -2 -1 -0 unused asked 4 told 22
engine e
  class a.B
    factory f() pulls=4096 pass
      dyn one pass
      dyn two pass
      dyn three pass
==
+0 +1 +2 +3 -3 +4 -4 -2 -1 -0 unused asked 0 told 0
property junit.jupiter.execution.parallel.enabled=true
property junit.jupiter.execution.parallel.mode.default=concurrent
engine e
  class a.B lock=log:r lock=db:r
    test t() lock=db:rw pass
    test u() pass
==
fail-fast +0 +1 +2 +3 -3! ~4 -2 -1 -0 unused 4 asked 0 told 10
engine e
  class a.B
    test t() fail x
    test u() pass
==
two failures +0 +1 +2 +3 -3! +4 -4! ~5 -2 -1 -0 unused 5 asked 0 told 11
engine e
  class a.B
    test t() fail x
    test u() fail y
    test v() fail z
==
+0 +1 +2 +3 -3 -2! -1 -0 unused asked 0 told 4
engine e
  class a.B
    test t() pass
    after fail late
==
without jobs refused 70 at 3
engine e
  class a.B
    test t() pass
";

/// Whether this row's suite, run by so many workers with a ring of so many words, does what stands in its first line.
fn goes_as_wanted<R: Threads + Wait + Sync>(
    rt: &R,
    alloc: Global,
    row: &str,
    workers: u32,
    ring: u32,
) -> bool {
    let mut how = how(Act::Ends, workers, ring);
    let (mut wanted, suite) = row.split_once('\n').unwrap_or((row, ""));
    if let Some(refusal) = wanted.strip_prefix("without jobs ") {
        how.has_jobs = false;
        wanted = refusal;
    } else if let Some(events) = wanted.strip_prefix("fail-fast ") {
        how.tolerated = Some(0);
        wanted = events;
    } else if let Some(events) = wanted.strip_prefix("two failures ") {
        how.tolerated = Some(1);
        wanted = events;
    }
    is_said(run_of_suite(rt, alloc, suite, how), wanted)
}

/// Whether all rows do so.
fn all_go_as_wanted<R: Threads + Wait + Sync>(
    rt: &R,
    alloc: Global,
    workers: u32,
    ring: u32,
) -> bool {
    for row in ROWS.split("==\n") {
        if !goes_as_wanted(rt, alloc, row, workers, ring) {
            return false;
        }
    }
    true
}

/// Whether all rows do so in each of so many rounds, whoever takes the nodes, with a ring of so many words.
fn all_go_alike<R: Threads + Wait + Sync>(rt: &R, alloc: Global, ring: u32, rounds: u32) -> bool {
    for _round in 0..rounds {
        for workers in [1, 2, 4] {
            if !all_go_as_wanted(rt, alloc, workers, ring) {
                return false;
            }
        }
    }
    true
}

/// Whether a plan of so many tests and three nodes above them runs to its end, with a ring of so many words.
fn large_ends_well<R: Threads + Wait + Sync>(rt: &R, alloc: Global, tests: u16, ring: u32) -> bool {
    let events = 2 * (usize::from(tests) + 3);
    tests_end_well(rt, alloc, u32::from(tests), how(Act::Ends, 4, ring), events)
}

pub(crate) fn runs_go_alike_whatever_the_number_of_workers<R: Threads + Wait + Sync>(
    rt: &R,
    alloc: Global,
) -> bool {
    all_go_alike(rt, alloc, WIDE, 20)
        && large_ends_well(rt, alloc, 4093, WIDE)
        && large_ends_well(rt, alloc, 4093, 16_384)
}

pub(crate) fn runs_go_alike_in_a_ring_of_one_word<R: Threads + Wait + Sync>(
    rt: &R,
    alloc: Global,
) -> bool {
    // more events than 12 bits count; in one word each waits for the dispatcher, on a busy machine long
    all_go_alike(rt, alloc, 1, 3) && large_ends_well(rt, alloc, 2100, 4)
}
