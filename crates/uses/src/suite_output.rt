//! Calls `launcher`: a suite in memory is run, and what is printed is appended to a vector.

ghost use Rattle.std.specs.Prelude.{List, Option, Some, ℕ};
ghost use Rattle.launch_options.specs.Asked.{asked_by};
ghost use Rattle.launcher.specs.SuiteLaunches.{IsSuiteTextRun};

use launcher::{ExitStatus, LaunchFault, Options, run_options};
use std::alloc::Global;
use std::sync::Wait;
use std::thread::Threads;

/// Appends to `output` what the options print of a suite.
pub fn run_text<T: Threads + Wait + Sync>(
    rt: &T,
    alloc: Global,
    options: &Options,
    suite: &[u8],
    output: &mut Vec<u8>,
) -> Result<ExitStatus, LaunchFault>
    ensures { (left : Option (List ℕ)) × IsSuiteTextRun (asked_by options.now) (Some suite.now) left
        (Some output.old.items) (Some output.new.items) result }
{
    let mut left = suite;
    run_options(rt, alloc, options, &mut left, output)
}
