//! Of which times a run tells.

ghost use Rattle.std.specs.Prelude.{◌≡◌, IfOk, string_bytes};
ghost use Rattle.job_times.specs.Timings.{no_times, times_asked, times_of};
ghost use Rattle.run_outputs.specs.WarningTexts.{head_of};

use crate::warning_lines::head_text;
use config_params::Warnings;
use job_times::{RunTimes, Stopwatch, Timings};
use launch_options::Options;
use resource_locks::Plan;
use std::alloc::{AllocError, Global};

/// What was noted of a run's times, if they are asked for; else this, in which none is known.
pub(crate) fn asked_timings<'t>(times: bool, noted: &'t Timings, none: &'t Timings) -> &'t Timings
    requires { times_of none.now ≡ no_times }
    ensures { times_of result.now ≡ times_asked times (times_of noted.now) }
{
    if times { noted } else { none }
}

/// Makes a place for the time of each node of a plan, if times are asked for. A run by the fixed schedule took place at
/// no moment and on no machine, since it runs no job.
fn make_places<S: Stopwatch>(
    alloc: Global,
    options: &Options,
    plan: &Plan,
    times: &mut RunTimes<'_, S>,
) -> Result<(), AllocError> {
    if options.drive.is_some() {
        times.unstamp();
    }
    times.prepare(alloc, options.times, plan.tree().len())
}

/// What the output of a run of this plan begins with, and a line for each warning. The plan is known now, so each of
/// its nodes gets a place for its time, if times are asked for.
pub fn head_of_run<S: Stopwatch>(
    alloc: Global,
    options: &Options,
    warnings: Warnings,
    plan: &Plan,
    times: &mut RunTimes<'_, S>,
) -> Result<String, AllocError>
    ensures { IfOk result (λ text. string_bytes text ≡ head_of options.now.details warnings) }
{
    make_places(alloc, options, plan, times)?;
    head_text(alloc, options.details, warnings)
}
