//! What is told of the run that a launch hands out, besides what is printed: reports, and the list of its slowest tests.

ghost use Rattle.std.specs.Prelude.{◌≡◌, length, option_map, string_bytes};
ghost use Rattle.job_times.specs.Timings.{times_asked, times_of};
ghost use Rattle.launcher.specs.RunReports.{AreReportsBy, IsSlowestBy};

use crate::launched::Launched;
use job_times::Timings;
use launch_options::Options;
use live::slowest_text;
use plan_events::Job;
use report_files::{Report, report_run};
use std::alloc::Global;
use std::io::Write;

/// Writes each report of the run that was handed out, if all of it was printed.
pub(crate) fn report_launched<B: Job, F: Write + Drop>(
    alloc: Global,
    options: &Options,
    launched: &Launched<B>,
    timings: &Timings,
    reports: &mut [Report<F>],
)
    ensures reported { AreReportsBy F.contents options.now.theme (times_asked options.now.times (times_of timings.now))
        launched.now.ran launched.now.answer reports.old reports.new }
    ensures many { length reports.new ≡ length reports.old }
{
    match &launched.ran {
        Some(ran) => match launched.answer {
            Ok(_) => report_run(
                alloc,
                options,
                &ran.plan,
                ran.events.as_slice(),
                &ran.texts,
                timings,
                reports,
            ),
            Err(_) => {}
        },
        None => {}
    }
}

/// The list of the slowest tests of the run that was handed out, where that is asked for, if there is memory for it.
pub(crate) fn slowest_launched<B: Job>(
    alloc: Global,
    is_asked: bool,
    launched: &Launched<B>,
    timings: &Timings,
) -> Option<String>
    ensures { IsSlowestBy is_asked (times_of timings.now) launched.now.ran (option_map string_bytes result) }
{
    match &launched.ran {
        Some(ran) => {
            if !is_asked {
                return None;
            }
            match slowest_text(alloc, &ran.plan, timings) {
                Ok(text) => Some(text),
                Err(_) => None,
            }
        }
        None => None,
    }
}
