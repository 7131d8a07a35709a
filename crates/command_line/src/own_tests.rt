//! The program that runs tests of its own.

ghost use Rattle.std.specs.Prelude.{◌≡◌, map};
ghost use Rattle.launch_options.specs.Given.{maybe_behind};
ghost use Rattle.launch_options.specs.ReportTexts.{parts_of};
ghost use Rattle.launcher.specs.Sources.{MayRun};
ghost use Rattle.ready_runs.specs.ReadyPrograms.{program_parts};
ghost use Rattle.command_line.specs.OwnTests.{ConductsTests, IsTestsRun};

use crate::closing::{Ending, close_run, close_with_failures};
use crate::meanwhile::launch_told;
use command_words::Launch;
use launcher::{LaunchFault, LaunchSource, Launched, Program};
use listeners::Observer;
use live::Failures;
use messages::{Subject, said_of_settings};
use plan_events::Job;
use report_files::ReportFiles;
use std::alloc::Global;
use std::io::{Read, Write};
use std::sync::Wait;
use std::thread::Threads;
use std::time::Clock;

/// Launches these tests as the arguments ask for, and says what there is to say of the answer and of what failed.
fn run_launch<
    B: Job + Send,
    T: Threads + Wait + Sync,
    C: Clock + Sync + Drop,
    R: Read,
    V: Observer,
    W: Write,
    E: Write,
    K: ReportFiles,
>(
    rt: &T,
    clock: C,
    alloc: Global,
    launch: Launch<'_>,
    words: &[String],
    host: Option<&str>,
    is_terminal: bool,
    program: Program<B>,
    reader: &mut R,
    observer: &mut V,
    writer: &mut W,
    errors: &mut E,
    files: &mut K,
) -> Ending
    requires may { MayRun B.answers program.tree program.jobs.items }
    ensures { IsTestsRun B.answers B.gives B.says (program_parts program.tree program.properties) program.jobs.items V.saw
        observer.old observer.new W.contents E.contents is_terminal launch.entry.options
        (map parts_of launch.entry.reports.items) (R.remaining reader.old) (R.remaining reader.new) writer.old writer.new
        errors.old errors.new (K.deeds files.old) (K.deeds files.new) result }
{
    let said = said_of_settings(alloc, &launch.options, &program.properties, &program.tree);
    let mut failures = Failures::new(alloc);
    let mut slowest = None;
    let Launched { answer, ran: _ } = launch_told(
        rt,
        &clock,
        alloc,
        &launch,
        host,
        is_terminal,
        LaunchSource::Program(program),
        reader,
        &mut *writer,
        &mut *errors,
        files,
        &mut failures,
        observer,
        &mut slowest,
    );
    let tests = Subject::Tests(said.as_str());
    let options = &launch.options;
    let ending = close_with_failures(
        alloc, answer, options, words, tests, &failures, slowest, writer, errors,
    );
    drop(launch);
    ending
}

/// Does with the tests of a program, which has built their tree, what the arguments ask for: they cannot name a suite (105),
/// nor ask for `--replay` or `--drive`, since nobody knows beforehand what the tests answer. All else is as of a suite.
pub(crate) fn conduct_tests<
    B: Job + Send,
    T: Threads + Wait + Sync,
    C: Clock + Sync + Drop,
    R: Read,
    V: Observer,
    W: Write,
    E: Write,
    K: ReportFiles,
>(
    rt: &T,
    clock: C,
    alloc: Global,
    launch: Launch<'_>,
    words: &[String],
    host: Option<&str>,
    is_terminal: bool,
    program: Program<B>,
    reader: &mut R,
    observer: &mut V,
    writer: &mut W,
    errors: &mut E,
    files: &mut K,
) -> Ending
    requires may { MayRun B.answers program.tree program.jobs.items }
    ensures { ConductsTests B.answers B.gives B.says (program_parts program.tree program.properties) program.jobs.items
        V.saw observer.old observer.new W.contents E.contents K.deeds R.remaining is_terminal launch.entry.options
        (maybe_behind launch.entry.suite) (map parts_of launch.entry.reports.items) reader.old reader.new writer.old
        writer.new errors.old errors.new files.old files.new result }
{
    match launch.suite {
        None => run_launch(
            rt,
            clock,
            alloc,
            launch,
            words,
            host,
            is_terminal,
            program,
            reader,
            observer,
            writer,
            errors,
            files,
        ),
        Some(_) => {
            let refused = Err(LaunchFault::BadWords);
            close_run(alloc, refused, words, Subject::Tests(""), writer, errors)
        }
    }
}
