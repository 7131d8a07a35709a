//! A launch of a program: what is selected of its tree is run, or listed, and the run is handed out.

ghost use Rattle.std.specs.Prelude.{◌≡◌, ◌≤◌};
ghost use Rattle.descriptor.specs.Nodes.{IsTree};
ghost use Rattle.job_times.specs.Timings.{times_of};
ghost use Rattle.launch_options.specs.Asked.{asked_by};
ghost use Rattle.launcher.specs.Launches.{Sees};
ghost use Rattle.launcher.specs.PlannedLaunches.{DoesJobs, IsProgramLaunch};
ghost use Rattle.launcher.specs.Sources.{MayRun};
ghost use Rattle.ready_runs.specs.ReadyPrograms.{program_parts};
ghost use Rattle.run_outputs.specs.WarningTexts.{head_of};
ghost use Rattle.resource_locks.specs.Declarations.{declared_of};
ghost use Rattle.resource_locks.specs.Hoisted.{IsGuarded};
ghost use Rattle.table_contents.specs.Prepared.{HasAllJobs};
ghost use Rattle.worker_pool.specs.Premises.{JobsMayAnswer};
ghost use Rattle.worker_pool.specs.Reports.{run_of};

use crate::launched::{Launched, launch_to};
use crate::listed::{idle, print_list, print_nodes};
use crate::program::Program;
use crate::timed_place::TimedPlace;
use config_params::Settings;
use job_times::{RunTimes, Stopwatch};
use launch_options::{Details, Options};
use listeners::Observer;
use plan_events::Job;
use ready_runs::{PlannedProgram, planned_program, set_default_limits, set_limits};
use resource_locks::Plan;
use run_outputs::answer_unless;
use run_table::Jobs;
use std::alloc::Global;
use std::io::Write;
use std::sync::{Mutex, Wait};
use std::thread::Threads;
use workers::Place;

/// Does with a plan and these jobs what the options ask for: they are run, unless the list or the nodes are asked for.
fn launch_planned<
    B: Job + Send,
    K: Place<B> + Send,
    T: Threads + Wait + Sync,
    W: Write,
    V: Observer,
    S: Stopwatch + Sync,
>(
    rt: &T,
    alloc: Global,
    options: &Options,
    settings: &Settings,
    plan: Plan,
    jobs: Jobs<B>,
    places: &[Mutex<TimedPlace<K>>],
    head: &str,
    writer: &mut W,
    observer: &mut V,
    times: &mut RunTimes<'_, S>,
) -> Launched<B>
    requires some { 1 ≤ settings.now.workers }
    requires few { settings.now.workers ≤ 64 }
    requires guarded { IsGuarded (declared_of plan.tree) plan }
    requires tree { IsTree plan.tree }
    requires jobs { JobsMayAnswer B.answers (run_of plan settings.now.workers options.now.ring jobs.items) }
    requires all { HasAllJobs plan jobs.items }
    requires head { head.now ≡ head_of options.now.details settings.now.warnings }
    ensures does { DoesJobs B.answers B.gives B.says (asked_by options.now) (times_of times.new.timings) jobs.items
        (W.contents writer.old) (W.contents writer.new) settings.now plan result.ran result.answer }
    ensures seen { Sees V.saw observer.old observer.new result.ran }
{
    match options.details {
        Details::List => idle(print_list(alloc, options, &plan, writer)),
        Details::Plan => idle(print_nodes(alloc, options, settings, &plan, writer)),
        Details::None
        | Details::Summary
        | Details::Tree
        | Details::Testfeed
        | Details::Json
        | Details::Xml => launch_to(
            rt, alloc, options, settings, plan, jobs, None, places, head, writer, observer, times,
        ),
    }
}

/// Runs what the request selects of a program's jobs, each at the place of its worker, prints what the options ask for,
/// and hands the run out, where one is over. Refused are, in this order, `--replay`, `--drive` and `--most-nodes` (105),
/// what gives no settings (37, 34, 32, 33) and a selector that covers nothing (41), which are judged before any memory is
/// taken; limits of locks that are none (35, 36), more than 256 keys (50), more than 64 workers (61), that no thread could
/// be started (90), and an output of which the writer has only the first bytes (81), since it failed or since there was no
/// memory for the rest of a feed. On any refusal but 81 nothing is written.
pub fn launch_program<
    B: Job + Send,
    K: Place<B> + Send,
    T: Threads + Wait + Sync,
    W: Write,
    V: Observer,
    S: Stopwatch + Sync,
>(
    rt: &T,
    alloc: Global,
    options: &Options,
    program: Program<B>,
    places: &[Mutex<TimedPlace<K>>],
    writer: &mut W,
    observer: &mut V,
    times: &mut RunTimes<'_, S>,
) -> Launched<B>
    requires may { MayRun B.answers program.tree program.jobs.items }
    ensures launched { IsProgramLaunch B.answers B.gives B.says (asked_by options.now) (times_of times.new.timings)
        program.jobs.items (W.contents writer.old) (W.contents writer.new)
        (program_parts program.tree program.properties) result.ran result.answer }
    ensures seen { Sees V.saw observer.old observer.new result.ran }
{
    let Program {
        tree,
        properties,
        jobs,
        slow,
    } = program;
    set_limits(times.stopwatch, slow.as_slice());
    drop(slow);
    // the contract of `len` tells that it is a tree
    let _ = tree.len();
    match planned_program(alloc, options, properties, tree, &mut *times) {
        Ok(ready) => {
            let PlannedProgram {
                settings,
                plan,
                is_missing,
                head,
            } = ready;
            // and that of `tree`, that what is selected is one
            let _ = plan.tree();
            set_default_limits(times.stopwatch, &plan, settings.slow);
            let Launched { answer, ran } = launch_planned(
                rt,
                alloc,
                options,
                &settings,
                plan,
                jobs,
                places,
                head.as_str(),
                writer,
                observer,
                times,
            );
            Launched {
                answer: answer_unless(is_missing, answer),
                ran,
            }
        }
        Err(fault) => idle(Err(fault)),
    }
}
