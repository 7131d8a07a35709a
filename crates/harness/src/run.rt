//! The program of one who has tests of its own.

ghost use Rattle.std.specs.Prelude.{◌≡◌, ◌⊎◌, IfOk, IfErr, Err, map, string_bytes};
ghost use Rattle.std.specs.IoError.{error_kind};
ghost use Rattle.std.specs.Vec.Iter.{into_iter_items};
ghost use Rattle.harness.specs.Jobs.{gives_left, jobs_by, replies_left, says_kept};
ghost use Rattle.resource_locks.specs.Spares.{HasBareSpares};
ghost use Rattle.launch_options.specs.declared.fault.LaunchFault.{LaunchFault};
ghost use Rattle.ready_runs.specs.ReadyPrograms.{program_parts};
ghost use Rattle.command_words.specs.GivenWords.{IsGivenFault};
ghost use Rattle.harness.specs.TestRuns.{IsTestsMain, IsUngiven};
ghost use Rattle.test_tree.specs.Building.{held, properties_of};
ghost use Rattle.test_tree.specs.Growing.{IsPending};
ghost use Rattle.test_tree.specs.declared.cause.BuildCause.TheVariants.{NoMemory};

use crate::job::jobs_of;
use command_line::{Ending, run_main};
use launcher::{LaunchSource, Program};
use listeners::Observer;
use report_files::ReportFiles;
use std::alloc::Global;
use std::env::Args;
use std::io::{self, Write};
use std::sync::Wait;
use std::thread::Threads;
use std::time::Clock;
use test_tree::{BuildFault, Tests};
use word_files::{Facts, TextFiles};

/// Runs of these tests what the arguments that the system gave ask for, and says how the program ends: all that is left
/// to do is to end with the status. It has all that `console` has but `--replay` and `--drive`, which are refused with
/// 105: what the arguments ask for that those stand for which the system gave, by the texts of files and by what the
/// system tells; and the reports that they ask for are kept in these files. What they ask for goes to the writer; what
/// a refusal is for goes to the other. If that is a terminal that can be drawn on, how far the run has come is drawn
/// there meanwhile. A refusal, also that of arguments which are no text, is status 255. Tests of which something was
/// declared that never came are handed back as a fault, and nothing is run or written. How long the tests took is told
/// by this clock, if that is asked for. Each event of the run is shown to the observer, in order and with its text;
/// nothing where nothing is run. It may be any type with `see`, an `Audience` of listeners or `()`, and may borrow what
/// it fills. `run_tests_here` asks a system for all that this is handed.
pub fn run_tests<
    T: Threads + Wait + Sync,
    C: Clock + Sync + Drop,
    F: TextFiles,
    W: Write,
    E: Write,
    K: ReportFiles,
    V: Observer,
>(
    rt: &T,
    clock: C,
    alloc: Global,
    words: io::Result<Args>,
    texts: &mut F,
    facts: &Facts<'_>,
    is_terminal: bool,
    tests: Box<Tests>,
    writer: &mut W,
    errors: &mut E,
    files: &mut K,
    observer: &mut V,
) -> Result<Ending, BuildFault>
    ensures run { IfOk result (λ ending. IfOk words (λ given. IsTestsMain replies_left gives_left says_kept V.saw W.contents
        E.contents K.deeds (program_parts (held tests.value).tree (properties_of tests.value))
        (jobs_by (held tests.value).jobs) observer.old observer.new is_terminal facts.now
        (map string_bytes (into_iter_items given)) writer.old writer.new errors.old errors.new files.old files.new
        ending)) }
    ensures refused { IfOk result (λ ending. IfErr words (λ error. (fault : LaunchFault)
        × IsGivenFault (error_kind error) fault × IsUngiven replies_left gives_left says_kept V.saw W.contents E.contents
        K.deeds (program_parts (held tests.value).tree (properties_of tests.value)) (jobs_by (held tests.value).jobs)
        observer.old observer.new fault writer.old writer.new errors.old errors.new files.old files.new ending)) }
    // No dynamic test holds a key, so a run never gets stuck.
    ensures bare { IfOk result (λ _. HasBareSpares (held tests.value).tree) }
    ensures unbuilt { IfErr result (λ fault. (IsPending (held tests.value) fault.cause ⊎ (fault.cause ≡ NoMemory))
        × (writer.new ≡ writer.old) × (errors.new ≡ errors.old) × (files.new ≡ files.old)
        × (observer.new ≡ observer.old)) }
{
    let (tree, properties, bodies, slow) = Box::into_inner(tests).into_parts()?;
    let jobs = jobs_of(alloc, bodies)?;
    let program = Program {
        tree,
        properties,
        jobs,
        slow,
    };
    // nothing is read
    let mut nothing: &[u8] = &[];
    Ok(run_main(
        rt,
        clock,
        alloc,
        words,
        texts,
        facts,
        is_terminal,
        LaunchSource::Program(program),
        &mut nothing,
        observer,
        writer,
        errors,
        files,
    ))
}
