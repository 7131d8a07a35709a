//! A command line over any reader and writers: all of a program but the handles that `main` gets of the system.

ghost use Rattle.std.specs.Prelude.{◌≡◌, IfOk, IfErr, map, string_bytes};
ghost use Rattle.std.specs.IoError.{error_kind};
ghost use Rattle.std.specs.Vec.Iter.{into_iter_items};
ghost use Rattle.command_words.specs.GivenWords.{IsGivenFault};
ghost use Rattle.launch_options.specs.declared.fault.LaunchFault.{LaunchFault};
ghost use Rattle.launch_options.specs.Given.{maybe_behind};
ghost use Rattle.launch_options.specs.ReportTexts.{parts_of};
ghost use Rattle.launcher.specs.Sources.{MayLaunch};
ghost use Rattle.messages.specs.Sentences.{sentence_by};
ghost use Rattle.command_line.specs.Commands.{AnswersWords, IsCommandRun, RefusesCommand};
ghost use Rattle.command_line.specs.Conducting.{Conducts, sentences_of};

use crate::closing::{Ending, close_run, close_unread, refuse};
use crate::console::conduct_suite;
use crate::own_tests::conduct_tests;
use command_words::{Launch, all_words, given_words, read_launch};
use launcher::LaunchSource;
use listeners::Observer;
use messages::Subject;
use plan_events::Job;
use report_files::ReportFiles;
use std::alloc::Global;
use std::env::Args;
use std::io::{self, Read, Write};
use std::sync::Wait;
use std::thread::Threads;
use std::time::Clock;
use word_files::{Facts, TextFiles};

/// What refusals are about before anything is launched.
fn subject_of<B>(source: &LaunchSource<B>) -> Subject<'static>
    ensures { sentence_by result ≡ sentences_of source.now }
{
    match source {
        LaunchSource::Text => Subject::Suite(&[]),
        LaunchSource::Program(_) => Subject::Tests(""),
    }
}

/// Does with a suite, or with the tests of a program, what these arguments ask for, which were read.
fn conduct<
    B: Job + Send,
    T: Threads + Wait + Sync,
    C: Clock + Sync + Drop,
    F: TextFiles,
    R: Read,
    V: Observer,
    W: Write,
    E: Write,
    K: ReportFiles,
>(
    rt: &T,
    clock: C,
    alloc: Global,
    launch: Launch<'_>,
    words: &[String],
    texts: &mut F,
    facts: &Facts<'_>,
    is_terminal: bool,
    source: LaunchSource<B>,
    reader: &mut R,
    observer: &mut V,
    writer: &mut W,
    errors: &mut E,
    files: &mut K,
) -> Ending
    requires may { MayLaunch B.answers source }
    ensures { Conducts B.answers B.gives B.says R.remaining V.saw W.contents E.contents K.deeds is_terminal facts.now source
        launch.entry.options (maybe_behind launch.entry.suite) (map parts_of launch.entry.reports.items) reader.old
        reader.new observer.old observer.new writer.old writer.new errors.old errors.new files.old files.new result }
{
    match source {
        LaunchSource::Text => conduct_suite(
            rt,
            clock,
            alloc,
            launch,
            words,
            texts,
            facts,
            is_terminal,
            reader,
            observer,
            writer,
            errors,
            files,
        ),
        LaunchSource::Program(program) => conduct_tests(
            rt,
            clock,
            alloc,
            launch,
            words,
            facts.host,
            is_terminal,
            program,
            reader,
            observer,
            writer,
            errors,
            files,
        ),
    }
}

/// Does what these arguments ask for; the first is the program's name. Arguments that give no options are refused as
/// `read_launch` says, and then nothing is done; those that ask for help, or for the version, are told it.
pub fn run_words<
    B: Job + Send,
    T: Threads + Wait + Sync,
    C: Clock + Sync + Drop,
    F: TextFiles,
    R: Read,
    V: Observer,
    W: Write,
    E: Write,
    K: ReportFiles,
>(
    rt: &T,
    clock: C,
    alloc: Global,
    words: &[String],
    texts: &mut F,
    facts: &Facts<'_>,
    is_terminal: bool,
    source: LaunchSource<B>,
    reader: &mut R,
    observer: &mut V,
    writer: &mut W,
    errors: &mut E,
    files: &mut K,
) -> Ending
    requires may { MayLaunch B.answers source }
    ensures { AnswersWords (sentences_of source) W.contents E.contents (Conducts B.answers B.gives B.says R.remaining V.saw
        W.contents E.contents K.deeds is_terminal facts.now source) (map string_bytes words.now) reader.old reader.new observer.old observer.new
        writer.old writer.new errors.old errors.new files.old files.new result }
{
    let subject = subject_of(&source);
    match read_launch(alloc, words) {
        Ok(launch) => conduct(
            rt,
            clock,
            alloc,
            launch,
            words,
            texts,
            facts,
            is_terminal,
            source,
            reader,
            observer,
            writer,
            errors,
            files,
        ),
        Err(fault) => close_unread(alloc, fault, words, subject, writer, errors),
    }
}

/// Does what the arguments ask for that these stand for, by the files that they name and by what the system tells. Where
/// a file of arguments or a saved run cannot be read, that is what is refused.
fn run_given<
    B: Job + Send,
    T: Threads + Wait + Sync,
    C: Clock + Sync + Drop,
    F: TextFiles,
    R: Read,
    V: Observer,
    W: Write,
    E: Write,
    K: ReportFiles,
>(
    rt: &T,
    clock: C,
    alloc: Global,
    words: &[String],
    texts: &mut F,
    facts: &Facts<'_>,
    is_terminal: bool,
    source: LaunchSource<B>,
    reader: &mut R,
    observer: &mut V,
    writer: &mut W,
    errors: &mut E,
    files: &mut K,
) -> Ending
    requires may { MayLaunch B.answers source }
    ensures { IsCommandRun (sentences_of source) W.contents E.contents (Conducts B.answers B.gives B.says R.remaining V.saw
        W.contents E.contents K.deeds is_terminal facts.now source) facts.now (map string_bytes words.now) reader.old reader.new observer.old
        observer.new writer.old writer.new errors.old errors.new files.old files.new result }
{
    let subject = subject_of(&source);
    match all_words(alloc, words, texts, facts) {
        Ok(expanded) => run_words(
            rt,
            clock,
            alloc,
            expanded.as_slice(),
            texts,
            facts,
            is_terminal,
            source,
            reader,
            observer,
            writer,
            errors,
            files,
        ),
        Err(fault) => close_run(alloc, Err(fault), words, subject, writer, errors),
    }
}

/// What `main` does with what the system gives and tells it: what `run_words` does with the arguments that those stand for
/// which the system gave. Where it gave none, that is what is refused. All that is left to do is to end with the status.
pub fn run_main<
    B: Job + Send,
    T: Threads + Wait + Sync,
    C: Clock + Sync + Drop,
    F: TextFiles,
    R: Read,
    V: Observer,
    W: Write,
    E: Write,
    K: ReportFiles,
>(
    rt: &T,
    clock: C,
    alloc: Global,
    words: io::Result<Args>,
    texts: &mut F,
    facts: &Facts<'_>,
    is_terminal: bool,
    source: LaunchSource<B>,
    reader: &mut R,
    observer: &mut V,
    writer: &mut W,
    errors: &mut E,
    files: &mut K,
) -> Ending
    requires may { MayLaunch B.answers source }
    ensures run { IfOk words (λ given. IsCommandRun (sentences_of source) W.contents E.contents (Conducts B.answers B.gives B.says R.remaining V.saw
        W.contents E.contents K.deeds is_terminal facts.now source) facts.now
        (map string_bytes (into_iter_items given)) reader.old reader.new observer.old observer.new writer.old writer.new
        errors.old errors.new files.old files.new result) }
    ensures refused { IfErr words (λ error. (fault : LaunchFault) × IsGivenFault (error_kind error) fault
        × RefusesCommand (sentences_of source) W.contents E.contents fault reader.old reader.new observer.old observer.new
        writer.old writer.new errors.old errors.new files.old files.new result) }
{
    let subject = subject_of(&source);
    match given_words(alloc, words) {
        Ok(words) => run_given(
            rt,
            clock,
            alloc,
            words.as_slice(),
            texts,
            facts,
            is_terminal,
            source,
            reader,
            observer,
            writer,
            errors,
            files,
        ),
        Err(fault) => refuse(alloc, fault, subject, writer, errors),
    }
}
