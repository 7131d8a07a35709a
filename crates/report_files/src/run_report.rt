//! Reports of a run that is over: each is a function of its plan, its events, its texts and its times.

ghost use Rattle.std.specs.Prelude.{◌≡◌, ◌++◌, IfOk, length, string_bytes};
ghost use Rattle.job_times.specs.Timings.{times_asked, times_of};
ghost use Rattle.listeners.specs.Listeners.{EachPlace};
ghost use Rattle.run_outputs.specs.Outputs.{details_of};
ghost use Rattle.run_results.specs.Counts.{counts_of};
ghost use Rattle.run_results.specs.SummaryTexts.{summary_of};
ghost use Rattle.run_results.specs.TreeTexts.{tree_of};
ghost use Rattle.run_outputs.specs.WarningTexts.{beginning};
ghost use Rattle.report_files.specs.Reports.{IsReported};

use crate::report::{Outcome, Report};
use job_times::Timings;
use junit_report::timed_junit_text;
use launch_options::{CutCause, Details, Options};
use plan_events::{Event, Texts};
use reports::{list_text, plan_text, timed_json_text};
use resource_locks::Plan;
use run_outputs::beginning;
use run_results::{Results, Theme, feed_text, print_to};
use std::alloc::{AllocError, Global};
use std::io::Write;

/// The counts of a run.
fn run_summary(alloc: Global, plan: &Plan, events: &[Event]) -> Result<String, AllocError>
    ensures { IfOk result (λ text. string_bytes text ≡ summary_of (counts_of plan.now events.now)) }
{
    let results = Results::of(alloc, plan, events)?;
    results.summary_text(alloc)
}

/// The tree of these results, and the summary behind it.
fn tree_and_summary(
    alloc: Global,
    theme: Theme,
    results: &Results<'_>,
    texts: &Texts,
) -> Result<String, AllocError>
    ensures { IfOk result (λ text. string_bytes text ≡ tree_of theme results.now.plan texts.now results.now.events
        ++ summary_of (counts_of results.now.plan results.now.events)) }
{
    let mut text = results.tree_text(alloc, texts, theme)?;
    let summary = results.summary_text(alloc)?;
    text.push_str(summary.as_str())?;
    Ok(text)
}

/// The tree of a run, and the summary behind it.
fn run_tree(
    alloc: Global,
    theme: Theme,
    plan: &Plan,
    events: &[Event],
    texts: &Texts,
) -> Result<String, AllocError>
    ensures { IfOk result (λ text. string_bytes text ≡ tree_of theme plan.now texts.now events.now
        ++ summary_of (counts_of plan.now events.now)) }
{
    let results = Results::of(alloc, plan, events)?;
    tree_and_summary(alloc, theme, &results, texts)
}

/// A run in this form, with these times.
fn run_details(
    alloc: Global,
    form: Details,
    theme: Theme,
    plan: &Plan,
    events: &[Event],
    texts: &Texts,
    timings: &Timings,
) -> Result<String, AllocError>
    ensures { IfOk result (λ text. string_bytes text ≡ details_of form theme plan.now texts.now (times_of timings.now)
        events.now) }
{
    match form {
        Details::None => Ok(String::new(alloc)),
        Details::Summary => run_summary(alloc, plan, events),
        Details::Tree => run_tree(alloc, theme, plan, events, texts),
        Details::Testfeed => feed_text(alloc, plan, events, texts),
        Details::Json => timed_json_text(alloc, plan, events, texts, timings),
        Details::Xml => timed_junit_text(alloc, plan, events, texts, timings),
        Details::List => list_text(alloc, plan),
        Details::Plan => plan_text(alloc, plan),
    }
}

/// The report of this form of a run, with these times.
fn run_text(
    alloc: Global,
    form: Details,
    theme: Theme,
    plan: &Plan,
    events: &[Event],
    texts: &Texts,
    timings: &Timings,
) -> Result<String, AllocError>
    ensures { IfOk result (λ text. string_bytes text ≡ beginning form ++ details_of form theme plan.now texts.now
        (times_of timings.now) events.now) }
{
    let details = run_details(alloc, form, theme, plan, events, texts, timings)?;
    let mut text = String::from_str(alloc, beginning(form))?;
    text.push_str(details.as_str())?;
    Ok(text)
}

/// Writes a report of this run, with these times.
fn write_one<F: Write + Drop>(
    alloc: Global,
    theme: Theme,
    plan: &Plan,
    events: &[Event],
    texts: &Texts,
    timings: &Timings,
    report: &mut Report<F>,
)
    ensures { IsReported F.contents theme (record { plan = plan.now; events = events.now; texts = texts.now })
        (times_of timings.now) report.old report.new }
{
    match run_text(alloc, report.form, theme, plan, events, texts, timings) {
        Ok(text) => match print_to(&mut report.file, text.as_bytes()) {
            Ok(()) => report.outcome = Outcome::Whole,
            Err(_) => report.outcome = Outcome::Cut(CutCause::Writer),
        },
        Err(_) => report.outcome = Outcome::Cut(CutCause::Memory),
    }
}

/// Writes each report of this run, with these times.
fn write_each<F: Write + Drop>(
    alloc: Global,
    theme: Theme,
    plan: &Plan,
    events: &[Event],
    texts: &Texts,
    timings: &Timings,
    reports: &mut [Report<F>],
)
    ensures each { EachPlace (IsReported F.contents theme (record { plan = plan.now; events = events.now; texts = texts.now })
        (times_of timings.now)) reports.old reports.new }
    ensures many { length reports.new ≡ length reports.old }
{
    for index in 0..reports.len() {
        write_one(
            alloc,
            theme,
            plan,
            events,
            texts,
            timings,
            &mut reports[index],
        );
    }
}

/// Writes each report of this run, with these times if they are asked for, and else with none.
pub fn report_run<F: Write + Drop>(
    alloc: Global,
    options: &Options,
    plan: &Plan,
    events: &[Event],
    texts: &Texts,
    timings: &Timings,
    reports: &mut [Report<F>],
)
    ensures each { EachPlace (IsReported F.contents options.now.theme (record {
      plan = plan.now;
      events = events.now;
      texts = texts.now;
    }) (times_asked options.now.times (times_of timings.now))) reports.old reports.new }
    ensures many { length reports.new ≡ length reports.old }
{
    if options.times {
        write_each(alloc, options.theme, plan, events, texts, timings, reports)
    } else {
        write_each(
            alloc,
            options.theme,
            plan,
            events,
            texts,
            &Timings::none(alloc),
            reports,
        )
    }
}
