//! How many tests of a run have come how far, and the line that says so.

ghost use Rattle.std.specs.Prelude.{◌≡◌, IfOk, string_bytes};
ghost use Rattle.live.specs.Lines.{are_done, are_running, count_at, line_of};

use std::alloc::{AllocError, Global};

/// Tests of a run.
#[derive(Clone, Copy)]
pub struct TestCounts {
    /// Those of the plan, and the dynamic tests that were registered.
    pub found: u32,
    /// Those that have started and not ended.
    pub running: u64,
    /// Those that have ended or were skipped.
    pub done: u64,
    /// Those that failed.
    pub failed: u32,
}

impl TestCounts {
    /// The tests of the twelve counts of a summary, as `Summary::counts` of run_results gives them.
    pub fn of(counts: [u32; 12]) -> TestCounts
        ensures found { result.found ≡ count_at counts 6 }
        ensures running { result.running ≡ are_running counts }
        ensures done { result.done ≡ are_done counts }
        ensures failed { result.failed ≡ count_at counts 11 }
    {
        let ended = u64::from(counts[9]) + u64::from(counts[10]) + u64::from(counts[11]);
        TestCounts {
            found: counts[6],
            running: u64::from(counts[8]).saturating_sub(ended),
            done: u64::from(counts[7]) + ended,
            failed: counts[11],
        }
    }
}

/// The line of these tests after so many seconds, without an end of line.
pub fn progress_line(alloc: Global, tests: TestCounts, seconds: u64) -> Result<String, AllocError>
    ensures { IfOk result (λ text. string_bytes text ≡ line_of tests seconds) }
{
    let TestCounts {
        found,
        running,
        done,
        failed,
    } = tests;
    format!(in alloc; "{found} found, {running} running, {done} done, {failed} failed, {seconds} s")
}
