//! What a suite comes to, before it is run.

ghost use Rattle.std.specs.Prelude.{◌≡◌, IfOk, IfErr, string_bytes};
ghost use Rattle.suite_text.specs.Suites.{suite_parts};
ghost use Rattle.ready_runs.specs.Ready.{FailsSuite, IsReady, answers_of as answers_in};
ghost use Rattle.run_outputs.specs.Missing.{is_missing as is_missing_in};
ghost use Rattle.launch_options.specs.Asked.{asked_by};
ghost use Rattle.run_outputs.specs.WarningTexts.{head_of};

use crate::plan::{SelectedPlan, crewed_plan};
use crate::scripted::spins_of;
use crate::settings::settings_over;
use config_params::Settings;
use job_times::{RunTimes, Stopwatch};
use launch_options::{LaunchFault, Options};
use resource_locks::Plan;
use run_outputs::head_of_run;
use sched_core::Answers;
use std::alloc::{AllocError, Global};
use suite_text::{Script, Suite};

/// The answers that the scripts give.
fn answers_of(alloc: Global, scripts: Vec<Script>) -> Result<Answers, AllocError>
    ensures { IfOk result (λ answers. answers ≡ answers_in scripts.items) }
{
    let mut replies = Vec::with_capacity(alloc, scripts.len())?;
    for script in scripts {
        replies.push((script.body, script.reply))?;
    }
    Ok(Answers::of(replies))
}

/// What a suite comes to by the options: the settings of its run, its plan, what its bodies answer, how far they count,
/// whether something had to be selected and is not, and the lines of the settings' warnings.
#[derive(Drop)]
pub struct ReadyRun {
    pub settings: Settings,
    pub plan: Plan,
    pub answers: Answers,
    pub spins: Vec<u32>,
    pub is_missing: bool,
    pub head: String,
}

/// What the scripts say goes with settings and a plan.
fn with_scripts(
    alloc: Global,
    settings: Settings,
    selected: SelectedPlan,
    scripts: Vec<Script>,
    head: String,
) -> Result<ReadyRun, AllocError>
    ensures settings { IfOk result (λ ready. ready.settings ≡ settings) }
    ensures plan { IfOk result (λ ready. ready.plan ≡ selected.plan) }
    ensures missing { IfOk result (λ ready. ready.is_missing ≡ selected.is_missing) }
    ensures answers { IfOk result (λ ready. ready.answers ≡ answers_in scripts.items) }
    ensures head { IfOk result (λ ready. ready.head ≡ head) }
{
    let SelectedPlan { plan, is_missing } = selected;
    let spins = spins_of(alloc, scripts.as_slice())?;
    let answers = answers_of(alloc, scripts)?;
    Ok(ReadyRun {
        settings,
        plan,
        answers,
        spins,
        is_missing,
        head,
    })
}

/// Makes a suite ready to be run, and a place for the time of each of its nodes.
pub fn ready_run<S: Stopwatch>(
    alloc: Global,
    options: &Options,
    suite: Suite,
    times: &mut RunTimes<'_, S>,
) -> Result<ReadyRun, LaunchFault>
    ensures ready { IfOk result (λ ready. IsReady (asked_by options.now) (suite_parts suite) ready.settings ready.plan
        ready.answers) }
    ensures missing { IfOk result (λ ready. ready.is_missing ≡ is_missing_in (asked_by options.now) (suite_parts suite).tree) }
    ensures head { IfOk result (λ ready. string_bytes ready.head ≡ head_of options.now.details ready.settings.warnings) }
    ensures refused { IfErr result (FailsSuite (asked_by options.now) (suite_parts suite)) }
{
    // taken apart, so that each part ends where it is used
    let Suite {
        tree,
        scripts,
        properties,
    } = suite;
    let settings = settings_over(options, &properties)?;
    let selected = crewed_plan(alloc, options, &settings, tree, &properties)?;
    drop(properties);
    let head = head_of_run(alloc, options, settings.warnings, &selected.plan, times)?;
    Ok(with_scripts(alloc, settings, selected, scripts, head)?)
}
