//! What a program's own tests come to, before they are run.

ghost use Rattle.std.specs.Prelude.{◌≡◌, [], None, Some, IfOk, IfErr, string_bytes};
ghost use Rattle.launch_options.specs.Asked.{asked_by};
ghost use Rattle.run_outputs.specs.Missing.{is_missing};
ghost use Rattle.ready_runs.specs.Ready.{IsReady};
ghost use Rattle.ready_runs.specs.ReadyPrograms.{FailsProgram, program_parts, suite_option_refusal};
ghost use Rattle.run_outputs.specs.WarningTexts.{head_of};

use crate::plan::{SelectedPlan, crewed_plan};
use crate::settings::settings_over;
use config_params::{Params, Settings};
use descriptor::Tree;
use job_times::{RunTimes, Stopwatch};
use launch_options::{LaunchFault, Options};
use resource_locks::Plan;
use run_outputs::head_of_run;
use std::alloc::Global;

/// The settings and the plan of a program, whether something had to be selected and is not, and the lines of the
/// settings' warnings.
#[derive(Drop)]
pub struct PlannedProgram {
    pub settings: Settings,
    pub plan: Plan,
    pub is_missing: bool,
    pub head: String,
}

/// Refused is that steps are to be replayed, that they are to be those of the fixed schedule, or that a suite may have
/// so many nodes (105).
fn refuse_suite_options(options: &Options) -> Result<(), LaunchFault>
    ensures accepted { IfOk result (λ _. suite_option_refusal (asked_by options.now).replay options.now.drive
        options.now.most_nodes ≡ None) }
    ensures refused { IfErr result (λ fault. (fault ≡ LaunchFault.BadWords)
        × (suite_option_refusal (asked_by options.now).replay options.now.drive options.now.most_nodes ≡ Some fault)) }
{
    match &options.replay {
        Some(_) => Err(LaunchFault::BadWords),
        None => match options.drive {
            Some(_) => Err(LaunchFault::BadWords),
            None => match options.most_nodes {
                Some(_limit) => Err(LaunchFault::BadWords),
                None => Ok(()),
            },
        },
    }
}

/// Makes the settings and the plan of what the request selects of a program's tree, and a place for the time of each of
/// its nodes.
pub fn planned_program<S: Stopwatch>(
    alloc: Global,
    options: &Options,
    properties: Params,
    tree: Tree,
    times: &mut RunTimes<'_, S>,
) -> Result<PlannedProgram, LaunchFault>
    ensures options { IfOk result (λ _. suite_option_refusal (asked_by options.now).replay options.now.drive
        options.now.most_nodes ≡ None) }
    ensures ready { IfOk result (λ planned. IsReady (asked_by options.now) (program_parts tree properties)
        planned.settings planned.plan []) }
    ensures missing { IfOk result (λ planned. planned.is_missing ≡ is_missing (asked_by options.now) tree) }
    ensures head { IfOk result (λ planned. string_bytes planned.head ≡ head_of options.now.details planned.settings.warnings) }
    ensures refused { IfErr result (FailsProgram (asked_by options.now) (program_parts tree properties)) }
{
    refuse_suite_options(options)?;
    let settings = settings_over(options, &properties)?;
    let selected = crewed_plan(alloc, options, &settings, tree, &properties)?;
    drop(properties);
    let head = head_of_run(alloc, options, settings.warnings, &selected.plan, times)?;
    let SelectedPlan { plan, is_missing } = selected;
    Ok(PlannedProgram {
        settings,
        plan,
        is_missing,
        head,
    })
}
