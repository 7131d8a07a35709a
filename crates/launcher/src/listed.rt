//! What is printed in place of a run: a list, the nodes of a plan, or what a replay gives.

ghost use Rattle.std.specs.Prelude.{◌≡◌, None};
ghost use Rattle.launch_options.specs.Asked.{asked_by};
ghost use Rattle.launcher.specs.Launches.{IsPrintedTo};
ghost use Rattle.run_outputs.specs.Outputs.{IsListing, IsPlanned, IsReplayOutput};

use crate::launched::Launched;
use config_params::Settings;
use launch_options::{LaunchFault, Options};
use plan_events::Job;
use resource_locks::Plan;
use run_outputs::{ExitStatus, listing, planned, replay_report};
use run_results::print_to;
use sched_core::Answers;
use scheduling::Step;
use std::alloc::Global;
use std::io::Write;

/// Prints the list of what would be run.
pub(crate) fn print_list<W: Write>(
    alloc: Global,
    options: &Options,
    plan: &Plan,
    writer: &mut W,
) -> Result<ExitStatus, LaunchFault>
    ensures { IsPrintedTo (asked_by options.now) (IsListing options.now.fail_if_no_tests plan.now)
        (W.contents writer.old) (W.contents writer.new) result }
{
    let report = listing(alloc, options.fail_if_no_tests, plan)?;
    print_to(writer, report.text.as_bytes())?;
    Ok(report.status)
}

/// Prints the nodes of a plan.
pub(crate) fn print_nodes<W: Write>(
    alloc: Global,
    options: &Options,
    settings: &Settings,
    plan: &Plan,
    writer: &mut W,
) -> Result<ExitStatus, LaunchFault>
    ensures { IsPrintedTo (asked_by options.now) (IsPlanned options.now.fail_if_no_tests settings.now.warnings plan.now)
        (W.contents writer.old) (W.contents writer.new) result }
{
    let report = planned(alloc, options, settings, plan)?;
    print_to(writer, report.text.as_bytes())?;
    Ok(report.status)
}

/// Prints what a replay of these steps by the settings' workers gives.
pub(crate) fn print_replay<W: Write>(
    alloc: Global,
    options: &Options,
    settings: &Settings,
    steps: &[Step],
    plan: &Plan,
    answers: &Answers,
    writer: &mut W,
) -> Result<ExitStatus, LaunchFault>
    ensures { IsPrintedTo (asked_by options.now) (IsReplayOutput options.now.fail_if_passed_over steps.now
        settings.now.workers plan.now answers.now) (W.contents writer.old) (W.contents writer.new) result }
{
    let fails = options.fail_if_passed_over;
    let report = replay_report(alloc, fails, steps, plan, answers, settings.workers)?;
    print_to(writer, report.text.as_bytes())?;
    Ok(report.status)
}

/// What a launch comes to that runs nothing.
pub(crate) fn idle<B: Job>(answer: Result<ExitStatus, LaunchFault>) -> Launched<B>
    ensures answer { result.answer ≡ answer }
    ensures none { result.ran ≡ None }
{
    Launched { answer, ran: None }
}
