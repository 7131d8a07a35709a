//! The program of one who has tests of its own, on a system that is asked for all that it tells.

ghost use Rattle.std.specs.Prelude.{◌≡◌, ◌⊎◌, IfOk, IfErr};
ghost use Rattle.harness.specs.Jobs.{gives_left, jobs_by, replies_left, says_kept};
ghost use Rattle.harness.specs.SystemRuns.{IsRunHere};
ghost use Rattle.ready_runs.specs.ReadyPrograms.{program_parts};
ghost use Rattle.resource_locks.specs.Spares.{HasBareSpares};
ghost use Rattle.test_tree.specs.Building.{held, properties_of};
ghost use Rattle.test_tree.specs.Growing.{IsPending};
ghost use Rattle.test_tree.specs.declared.cause.BuildCause.TheVariants.{NoMemory};

use crate::run::run_tests;
use command_line::{Ending, is_drawn_on};
use listeners::Observer;
use report_files::SystemFiles;
use std::env::{Env, args};
use std::fs::Files;
use std::io::{IsTerminal, Write};
use std::sync::Wait;
use std::thread::Threads;
use std::time::Clock;
use test_tree::{BuildFault, Tests};
use word_files::{SystemFacts, SystemTexts};

/// What a program of tests asks of the system: `main` has it.
pub trait System: Threads + Wait + Sync + Clock + Env + Files + AllocGlobal {}

impl<S: Threads + Wait + Sync + Clock + Env + Files + AllocGlobal> System for S {}

/// What `run_tests` does with what this system gives and tells: the arguments of the command line, the files that they
/// name, how many processors there are, a build server's shard, and whether the other writer is a terminal that can be
/// drawn on.
pub fn run_tests_here<S: System, W: Write, E: Write + IsTerminal, V: Observer>(
    system: &S,
    tests: Box<Tests>,
    writer: &mut W,
    errors: &mut E,
    observer: &mut V,
) -> Result<Ending, BuildFault>
    // By some arguments, or for some reason by none: no clause can say what a system gives.
    ensures run { IfOk result (λ ending. IsRunHere replies_left gives_left says_kept V.saw W.contents E.contents
        (program_parts (held tests.value).tree (properties_of tests.value)) (jobs_by (held tests.value).jobs)
        observer.old observer.new writer.old writer.new errors.old errors.new ending) }
    ensures bare { IfOk result (λ _. HasBareSpares (held tests.value).tree) }
    ensures unbuilt { IfErr result (λ fault. (IsPending (held tests.value) fault.cause ⊎ (fault.cause ≡ NoMemory))
        × (writer.new ≡ writer.old) × (errors.new ≡ errors.old) × (observer.new ≡ observer.old)) }
{
    let words = args(system);
    // nothing is read from standard input
    let told = SystemFacts::of(system, false);
    let facts = told.facts();
    let is_terminal = is_drawn_on(system, &*errors);
    let mut texts = SystemTexts::new(system);
    let mut files = SystemFiles::new(system.alloc(), system);
    run_tests(
        system,
        system,
        system.alloc(),
        words,
        &mut texts,
        &facts,
        is_terminal,
        tests,
        writer,
        errors,
        &mut files,
        observer,
    )
}
