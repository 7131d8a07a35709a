//! What is printed of a history, of a replay, of a list and of a plan's nodes, each with its exit status.

ghost use Rattle.std.specs.Prelude.{◌≡◌, ℕ, List, ◌++◌, option_map, IfOk, string_bytes};
ghost use Rattle.job_times.specs.Timings.{times_asked, times_of};
ghost use Rattle.run_results.specs.Counts.{counts_of};
ghost use Rattle.run_results.specs.Results.{tests_found, has_failed};
ghost use Rattle.run_results.specs.SummaryTexts.{summary_of};
ghost use Rattle.run_results.specs.TreeTexts.{tree_of};
ghost use Rattle.run_outputs.specs.ExitStatuses.{status_of_run};
ghost use Rattle.run_outputs.specs.Outputs.{IsListing, IsPlanned, IsReplayOutput, details_of};
ghost use Rattle.run_outputs.specs.ScheduleLines.{IsBehindRun};
ghost use Rattle.run_outputs.specs.WarningTexts.{head_of};

use crate::asked_times::asked_timings;
use crate::exit_status::ExitStatus;
use crate::replay::{ReplayCounts, push_replay_line};
use crate::schedule_line::behind_run;
use crate::warning_lines::head_text;
use config_params::{Settings, Warnings};
use job_times::Timings;
use junit_report::timed_junit_text;
use launch_options::{Details, Options};
use plan_events::{Event, Texts};
use reports::{list_text, plan_text, timed_json_text};
use resource_locks::Plan;
use run_results::{Results, Theme, feed_text};
use sched_core::{Answers, run_steps, texts_of};
use scheduling::Step;
use std::alloc::{AllocError, Global};

/// What is printed, and the status.
#[derive(Drop)]
pub struct Output {
    pub text: String,
    pub status: ExitStatus,
}

/// The tree of these results, and the summary behind it.
fn tree_and_summary(
    alloc: Global,
    theme: Theme,
    results: &Results<'_>,
    texts: &Texts,
) -> Result<String, AllocError>
    ensures { IfOk result (λ text. string_bytes text ≡ tree_of theme results.now.plan texts.now results.now.events
        ++ summary_of (counts_of results.now.plan results.now.events)) }
{
    let mut text = results.tree_text(alloc, texts, theme)?;
    let summary = results.summary_text(alloc)?;
    text.push_str(summary.as_str())?;
    Ok(text)
}

/// What is printed of these results, which are those of this history on the plan, with these times.
fn details_text(
    alloc: Global,
    options: &Options,
    plan: &Plan,
    history: &[Event],
    results: &Results<'_>,
    texts: &Texts,
    timings: &Timings,
) -> Result<String, AllocError>
    requires plan { plan.now ≡ results.now.plan }
    requires events { history.now ≡ results.now.events }
    ensures { IfOk result (λ text. string_bytes text ≡ details_of options.now.details options.now.theme
        results.now.plan texts.now (times_of timings.now) results.now.events) }
{
    match options.details {
        Details::None => Ok(String::new(alloc)),
        Details::Summary => results.summary_text(alloc),
        Details::Tree => tree_and_summary(alloc, options.theme, results, texts),
        Details::Testfeed => results.feed_text(alloc, texts),
        Details::Json => timed_json_text(alloc, plan, history, texts, timings),
        Details::Xml => timed_junit_text(alloc, plan, history, texts, timings),
        Details::List => list_text(alloc, plan),
        Details::Plan => plan_text(alloc, plan),
    }
}

/// The second text behind the first. It is not copied if the first is empty.
fn put_behind(first: String, second: String) -> Result<String, AllocError>
    ensures { IfOk result (λ text. string_bytes text ≡ string_bytes first ++ string_bytes second) }
{
    if first.is_empty() {
        return Ok(second);
    }
    let mut text = first;
    text.push_str(second.as_str())?;
    Ok(text)
}

/// What is printed of a run: what the output begins with and a line for each warning, what is printed of its results, and the
/// schedule behind it.
fn run_text(
    alloc: Global,
    options: &Options,
    warnings: Warnings,
    plan: &Plan,
    history: &[Event],
    results: &Results<'_>,
    texts: &Texts,
    timings: &Timings,
    schedule: &str,
) -> Result<String, AllocError>
    requires plan { plan.now ≡ results.now.plan }
    requires events { history.now ≡ results.now.events }
    ensures { IfOk result (λ text. string_bytes text ≡ head_of options.now.details warnings
        ++ (details_of options.now.details options.now.theme results.now.plan texts.now (times_of timings.now)
        results.now.events ++ schedule.now)) }
{
    let head = head_text(alloc, options.details, warnings)?;
    let details = details_text(alloc, options, plan, history, results, texts, timings)?;
    let mut text = put_behind(head, details)?;
    text.push_str(schedule)?;
    Ok(text)
}

/// The report of this history.
fn history_report(
    alloc: Global,
    options: &Options,
    warnings: Warnings,
    plan: &Plan,
    texts: &Texts,
    timings: &Timings,
    history: &[Event],
    schedule: &str,
) -> Result<Output, AllocError>
    ensures text { IfOk result (λ report. string_bytes report.text ≡ head_of options.now.details warnings
        ++ (details_of options.now.details options.now.theme plan.now texts.now (times_of timings.now) history.now
        ++ schedule.now)) }
    ensures status { IfOk result (λ report. report.status ≡ status_of_run options.now.fail_if_no_tests
        (tests_found plan.now history.now) (has_failed plan.now history.now)) }
{
    let results = Results::of(alloc, plan, history)?;
    let text = run_text(
        alloc, options, warnings, plan, history, &results, texts, timings, schedule,
    )?;
    let needs_tests = options.fail_if_no_tests;
    // a pass over the nodes, which is spared where the number says nothing
    let tests = if needs_tests {
        results.tests_found()
    } else {
        0
    };
    let status = ExitStatus::of_run(needs_tests, tests, results.failed());
    Ok(Output { text, status })
}

/// The report of this history, with these times if they are asked for, and with its schedule if one is.
pub fn told_report(
    alloc: Global,
    options: &Options,
    settings: &Settings,
    plan: &Plan,
    known: Option<&Answers>,
    history: &[Event],
    texts: &Texts,
    timings: &Timings,
) -> Result<Output, AllocError>
    ensures text { IfOk result (λ report. (schedule : List ℕ) × IsBehindRun options.now.details options.now.schedule
        settings.now.workers plan.now (option_map (λ a. a.now) known.entry) history.now texts.now schedule
        × (string_bytes report.text ≡ head_of options.now.details settings.now.warnings
        ++ (details_of options.now.details options.now.theme plan.now texts.now
        (times_asked options.now.times (times_of timings.now)) history.now ++ schedule))) }
    ensures status { IfOk result (λ report. report.status ≡ status_of_run options.now.fail_if_no_tests
        (tests_found plan.now history.now) (has_failed plan.now history.now)) }
{
    let schedule = behind_run(
        alloc,
        options.details,
        options.schedule,
        plan,
        known,
        settings.workers,
        history,
        texts,
    )?;
    let none = Timings::none(alloc);
    history_report(
        alloc,
        options,
        settings.warnings,
        plan,
        texts,
        asked_timings(options.times, timings, &none),
        history,
        schedule.as_str(),
    )
}

/// The report of these steps, taken by so many workers. It may be asked that steps which are passed over make it fail.
pub fn replay_report(
    alloc: Global,
    fails: bool,
    steps: &[Step],
    plan: &Plan,
    answers: &Answers,
    workers: u32,
) -> Result<Output, AllocError>
    ensures { IfOk result (λ report. IsReplayOutput fails steps.now workers plan.now answers.now (string_bytes report.text)
        report.status) }
{
    // The number of workers was judged before.
    let Ok(trace) = run_steps(alloc, plan, answers, workers, steps) else {
        return Err(AllocError);
    };
    let given = trace.given.as_slice();
    let texts = texts_of(alloc, plan, answers, given)?;
    let mut text = feed_text(alloc, plan, given, &texts)?;
    let counts = ReplayCounts {
        steps: steps.len(),
        passed_over: trace.passed_over,
        published: trace.published.len(),
        given: given.len(),
    };
    push_replay_line(&mut text, counts)?;
    Ok(Output {
        text,
        status: ExitStatus::of_replay(fails, trace.passed_over),
    })
}

/// The list of what would be run, and whether there had to be something.
pub fn listing(alloc: Global, needs_tests: bool, plan: &Plan) -> Result<Output, AllocError>
    ensures { IfOk result (λ report. IsListing needs_tests plan.now (string_bytes report.text) report.status) }
{
    let text = list_text(alloc, plan)?;
    let status = ExitStatus::of_run(needs_tests, text.len(), false);
    Ok(Output { text, status })
}

/// The nodes of a plan, behind what its configuration is warned of, and whether there had to be something to run.
pub fn planned(
    alloc: Global,
    options: &Options,
    settings: &Settings,
    plan: &Plan,
) -> Result<Output, AllocError>
    ensures { IfOk result (λ report. IsPlanned options.now.fail_if_no_tests settings.now.warnings plan.now
        (string_bytes report.text) report.status) }
{
    let status = listing(alloc, options.fail_if_no_tests, plan)?.status;
    let mut text = head_text(alloc, Details::Plan, settings.warnings)?;
    let nodes = plan_text(alloc, plan)?;
    text.push_str(nodes.as_str())?;
    Ok(Output { text, status })
}
