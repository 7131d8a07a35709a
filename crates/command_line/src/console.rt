//! The program that runs suites.

ghost use Rattle.std.specs.Prelude.{◌≡◌, Ok, Some, map, string_bytes};
ghost use Rattle.launch_options.specs.Asked.{asked_by};
ghost use Rattle.launch_options.specs.Given.{maybe_behind};
ghost use Rattle.launch_options.specs.ReportTexts.{parts_of};
ghost use Rattle.ready_runs.specs.Reading.{most_read as most_read_of};
ghost use Rattle.command_line.specs.Consoles.{ConductsSuite, IsConsoleRun, IsFileRun, IsSourceRun};
ghost use Rattle.command_line.specs.Runs.{waiting_said};
ghost use Rattle.command_line.specs.Sources.{source_remaining};

use crate::closing::{Ending, close_run, close_with_failures, say_waiting};
use crate::kept::{Kept, SuiteSource};
use crate::meanwhile::launch_told;
use command_words::{Launch, read_options};
use launch_options::Options;
use launcher::{
    ExitStatus, LaunchFault, LaunchSource, Launched, ScriptedJob, most_read, run_options,
};
use listeners::Observer;
use live::Failures;
use messages::Subject;
use report_files::ReportFiles;
use std::alloc::{AllocError, Global};
use std::io::{Read, Write};
use std::sync::Wait;
use std::thread::Threads;
use std::time::Clock;
use word_files::{Facts, TextFiles};

/// Runs the suite that the reader holds, with the options that the arguments give; the first argument is
/// the program's name. Arguments that give no options are refused as `read_options` says, and then
/// nothing is read and nothing is written. Everything else is as `run_options` says. Reports that the arguments ask for
/// are not written, no file that they name is read, and how long tests took is not told, since there is no clock.
pub fn run_console<T: Threads + Wait + Sync, R: Read, W: Write>(
    rt: &T,
    alloc: Global,
    words: &[String],
    reader: &mut R,
    writer: &mut W,
) -> Result<ExitStatus, LaunchFault>
    ensures { IsConsoleRun R.remaining W.contents (map string_bytes words.now) reader.old reader.new
        (R.remaining reader.new) writer.old writer.new result }
{
    let options = read_options(alloc, words)?;
    let answer = run_options(rt, alloc, &options, reader, writer);
    drop(options);
    answer
}

/// Launches the suite of this source, of which nothing is kept yet, and says what there is to say of the answer and of
/// what failed.
fn run_source<
    T: Threads + Wait + Sync,
    C: Clock + Sync + Drop,
    R: Read,
    V: Observer,
    W: Write,
    E: Write,
    K: ReportFiles,
>(
    rt: &T,
    clock: C,
    alloc: Global,
    launch: Launch<'_>,
    words: &[String],
    facts: &Facts<'_>,
    is_terminal: bool,
    kept: &mut Kept<'_, R>,
    observer: &mut V,
    writer: &mut W,
    errors: &mut E,
    files: &mut K,
) -> Ending
    ensures { IsSourceRun V.saw observer.old observer.new W.contents E.contents is_terminal
        (waiting_said facts.now.is_typed (maybe_behind launch.entry.suite)) (asked_by launch.entry.options)
        (map parts_of launch.entry.reports.items) (source_remaining R.remaining kept.old.source) writer.old writer.new
        errors.old errors.new (K.deeds files.old) (K.deeds files.new) result }
{
    say_waiting(facts.is_typed, launch.suite, &mut *errors);
    let mut failures = Failures::new(alloc);
    let mut slowest = None;
    let Launched { answer, ran: _ } = launch_told(
        rt,
        &clock,
        alloc,
        &launch,
        facts.host,
        is_terminal,
        LaunchSource::<ScriptedJob>::Text,
        &mut *kept,
        &mut *writer,
        &mut *errors,
        files,
        &mut failures,
        observer,
        &mut slowest,
    );
    let suite = Subject::Suite(kept.bytes.as_slice());
    let options = &launch.options;
    let ending = close_with_failures(
        alloc, answer, options, words, suite, &failures, slowest, writer, errors,
    );
    drop(launch);
    ending
}

/// How many bytes are read of a file that has a suite: one more than it may have by these options.
fn bytes_wanted(options: &Options) -> usize
    ensures { result ≡ most_read_of options.now.most_nodes }
{
    most_read(options.most_nodes)
}

/// Runs what these arguments asked for of the suite that this file has; a file that cannot be read is refusal 106.
fn run_file<
    T: Threads + Wait + Sync,
    C: Clock + Sync + Drop,
    F: TextFiles,
    R: Read,
    V: Observer,
    W: Write,
    E: Write,
    K: ReportFiles,
>(
    rt: &T,
    clock: C,
    alloc: Global,
    launch: Launch<'_>,
    name: &str,
    words: &[String],
    texts: &mut F,
    facts: &Facts<'_>,
    is_terminal: bool,
    reader: &mut R,
    observer: &mut V,
    writer: &mut W,
    errors: &mut E,
    files: &mut K,
) -> Ending
    requires named { maybe_behind launch.suite ≡ Some name.now }
    ensures same { reader.new ≡ reader.old }
    ensures run { IsFileRun V.saw observer.old observer.new W.contents E.contents K.deeds is_terminal
        (asked_by launch.entry.options) (map parts_of launch.entry.reports.items) writer.old writer.new errors.old
        errors.new files.old files.new result }
{
    let subject = Subject::Suite(&[]);
    match texts.bytes(alloc, name, bytes_wanted(&launch.options)) {
        Ok(Some(bytes)) => {
            let mut kept = Kept::<R> {
                source: SuiteSource::File(bytes.as_slice()),
                bytes: Vec::new(alloc),
            };
            run_source(
                rt,
                clock,
                alloc,
                launch,
                words,
                facts,
                is_terminal,
                &mut kept,
                observer,
                writer,
                errors,
                files,
            )
        }
        Ok(None) => {
            let refused = Err(LaunchFault::Reading);
            close_run(alloc, refused, words, subject, writer, errors)
        }
        Err(AllocError) => {
            let refused = Err(LaunchFault::NoMemory);
            close_run(alloc, refused, words, subject, writer, errors)
        }
    }
}

/// Runs a suite, which is read from a file, if the arguments name one, and else from the reader; reports that the
/// arguments ask for are kept. Meanwhile it is told on the other writer, if that is a terminal, how far the run has come,
/// and else which tests run longer than their limit; and before it, where standard input is a terminal, that a suite is
/// waited for. Then the line of a refusal is printed, unless the writer failed, and its message on the other writer. Behind
/// a tree or a summary it is said there what of the arguments and the suite has no effect, and what failed, with arguments
/// that select it; behind a replay whether steps were passed over; and behind any run, if times are asked for, which tests
/// were the slowest by this clock.
pub(crate) fn conduct_suite<
    T: Threads + Wait + Sync,
    C: Clock + Sync + Drop,
    F: TextFiles,
    R: Read,
    V: Observer,
    W: Write,
    E: Write,
    K: ReportFiles,
>(
    rt: &T,
    clock: C,
    alloc: Global,
    launch: Launch<'_>,
    words: &[String],
    texts: &mut F,
    facts: &Facts<'_>,
    is_terminal: bool,
    reader: &mut R,
    observer: &mut V,
    writer: &mut W,
    errors: &mut E,
    files: &mut K,
) -> Ending
    ensures { ConductsSuite V.saw observer.old observer.new W.contents E.contents K.deeds R.remaining is_terminal
        facts.now.is_typed launch.entry.options (maybe_behind launch.entry.suite)
        (map parts_of launch.entry.reports.items) reader.old reader.new writer.old writer.new errors.old errors.new
        files.old files.new result }
{
    match launch.suite {
        Some(name) => run_file(
            rt,
            clock,
            alloc,
            launch,
            name,
            words,
            texts,
            facts,
            is_terminal,
            reader,
            observer,
            writer,
            errors,
            files,
        ),
        None => {
            let mut kept = Kept {
                source: SuiteSource::Reader(reader),
                bytes: Vec::new(alloc),
            };
            run_source(
                rt,
                clock,
                alloc,
                launch,
                words,
                facts,
                is_terminal,
                &mut kept,
                observer,
                writer,
                errors,
                files,
            )
        }
    }
}
