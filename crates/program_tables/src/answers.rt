//! What the program does with a row.

use crate::memory_files::MemoryFiles;
use crate::output::Output;
use crate::own_tests::run_own_tests;
use crate::rows::push_line;
use crate::table_clock::TableClock;
use crate::texts::{RowFiles, Texts};
use command_line::{Ending, run_main, run_words};
use example_tests::{FailuresByClass, run_semver_tests};
use harness::BuildFault;
use launcher::{LaunchSource, ScriptedJob};
use std::alloc::{AllocError, Global};
use std::sync::Wait;
use std::thread::Threads;

/// What a row asks for besides what the program writes and how it ends.
#[derive(Clone, Copy, PartialEq, Eq)]
enum Asks {
    Nothing,
    /// What stands on standard error.
    Errors,
    /// What stands on standard error, where that is a terminal.
    Terminal,
    /// What stands on standard error, where the output takes so many bytes, and then fails.
    Cut(usize),
    /// Whether a second worker does something, in one of a hundred runs.
    SecondWorker,
    /// What stands on standard error, where tests of the table's own are run.
    OwnTests,
    /// What stands on standard error, where the tests of semver are run.
    SemverTests,
}

impl Asks {
    /// How many bytes the output takes.
    fn room(self) -> usize {
        match self {
            Asks::Cut(room) => room,
            _ => usize::MAX,
        }
    }

    /// Whether what stands on standard error follows.
    fn shows_errors(self) -> bool {
        match self {
            Asks::Nothing | Asks::SecondWorker => false,
            Asks::Errors | Asks::Terminal | Asks::Cut(_) | Asks::OwnTests | Asks::SemverTests =>
                true,
        }
    }
}

/// The arguments of a row, and what it asks for, if the line begins one.
fn row_of(line: &str) -> Option<(&str, Asks)> {
    let (mark, words) = line.split_once(' ')?;
    let asks = match mark {
        "==" => Asks::Nothing,
        "=?" => Asks::Errors,
        "=!" => Asks::Terminal,
        "=2" => Asks::SecondWorker,
        "=t" => Asks::OwnTests,
        "=v" => Asks::SemverTests,
        "=<" => {
            let (room, words) = words.split_once(' ')?;
            return Some((words, Asks::Cut(room.parse().unwrap_or(0))));
        }
        _ => return None,
    };
    Some((words, asks))
}

/// Whether a line begins a row.
pub(crate) fn begins_row(line: &str) -> bool {
    row_of(line).is_some()
}

/// The line that says how a run ended. A refusal has printed its own, unless the output failed.
fn end_line(alloc: Global, ending: Ending) -> Result<String, AllocError> {
    let Ending {
        status,
        is_printed,
        is_told,
    } = ending;
    if !is_printed || !is_told {
        return String::from_str(alloc, "not all was said\n");
    }
    format!(in alloc; "status {status}\n")
}

/// Appends how a run ended, where no line of a refusal says so.
fn push_end(alloc: Global, answers: &mut Output, ending: Ending) -> Result<(), AllocError> {
    if ending.status == 255 && ending.is_printed && ending.is_told {
        return Ok(());
    }
    answers.push(end_line(alloc, ending)?.as_bytes())
}

/// Runs the program with these arguments on a suite, as `main` does where standard error is a terminal or
/// is none, and appends what it writes, and how it ends. On a terminal nothing is drawn by the time, and no test takes
/// any. Behind an output that takes so many bytes stands how it ended in any case.
fn push_run<T: Threads + Wait + Sync>(
    rt: &T,
    alloc: Global,
    answers: &mut Output,
    errors: &mut Vec<u8>,
    words: Vec<String>,
    texts: &Texts,
    mut suite: &[u8],
    asks: Asks,
) -> Result<(), AllocError> {
    let is_terminal = asks == Asks::Terminal;
    let clock = if is_terminal {
        TableClock::still()
    } else {
        TableClock::of(words.as_slice())
    };
    answers.room = asks.room();
    let mut files = MemoryFiles::new(alloc);
    let ending = run_main(
        rt,
        &clock,
        alloc,
        Ok(words.into_iter()),
        &mut RowFiles { texts },
        &texts.facts(),
        is_terminal,
        LaunchSource::<ScriptedJob>::Text,
        &mut suite,
        &mut (),
        answers,
        errors,
        &mut files,
    );
    match asks {
        Asks::Cut(_) => answers.push(end_line(alloc, ending)?.as_bytes())?,
        _ => push_end(alloc, answers, ending)?,
    }
    answers.push(files.kept.as_slice())
}

/// Appends how a run of tests that were built ended.
fn push_built(
    alloc: Global,
    answers: &mut Output,
    run: Result<Ending, BuildFault>,
) -> Result<(), AllocError> {
    match run {
        Ok(ending) => push_end(alloc, answers, ending),
        Err(_) => answers.push(b"not built\n"),
    }
}

/// What `push_run` does, with tests of the table's own in place of a suite, or with those of semver, below which stands how
/// many of each class failed. Both are watched by one type and take the same clock, so that the program has what runs them
/// once.
fn push_tests<T: Threads + Wait + Sync>(
    rt: &T,
    alloc: Global,
    answers: &mut Output,
    errors: &mut Vec<u8>,
    words: &mut Vec<String>,
    texts: &Texts,
    asks: Asks,
) -> Result<(), AllocError> {
    answers.room = usize::MAX;
    let clock = &TableClock::of(words.as_slice());
    let files = &mut MemoryFiles::new(alloc);
    let failures = &mut FailuresByClass::new(alloc);
    let (texts, facts) = (&mut RowFiles { texts }, &texts.facts());
    let run = if asks == Asks::OwnTests {
        run_own_tests(
            rt, clock, alloc, words, texts, facts, answers, errors, files, failures,
        )
    } else {
        run_semver_tests(
            rt, clock, alloc, words, texts, facts, answers, errors, files, failures,
        )
    };
    if asks == Asks::SemverTests {
        failures.print(answers);
    }
    push_built(alloc, answers, run)?;
    answers.push(files.kept.as_slice())
}

/// Whether a line of the feed is of the second worker.
fn is_of_second(feed: &[u8]) -> bool {
    match std::str::from_utf8(feed) {
        Ok(text) => text.lines().any(|line| line.starts_with("w2 ")),
        Err(_) => false,
    }
}

/// Whether the feed of one of a hundred runs has a line of the second worker.
fn has_second<T: Threads + Wait + Sync>(
    rt: &T,
    alloc: Global,
    words: &[String],
    texts: &Texts,
    suite: &[u8],
) -> bool {
    for _ in 0..100 {
        let mut feed = Output::new(alloc);
        let mut errors = Vec::new(alloc);
        let files = &mut MemoryFiles::new(alloc);
        run_words(
            rt,
            &TableClock::still(),
            alloc,
            words,
            &mut RowFiles { texts },
            &texts.facts(),
            false,
            LaunchSource::<ScriptedJob>::Text,
            &mut &*suite,
            &mut (),
            &mut feed,
            &mut errors,
            files,
        );
        if is_of_second(feed.taken.as_slice()) {
            return true;
        }
    }
    false
}

/// Appends whether a second worker does something.
fn push_second<T: Threads + Wait + Sync>(
    rt: &T,
    alloc: Global,
    answers: &mut Output,
    words: &[String],
    texts: &Texts,
    suite: &[u8],
) -> Result<(), AllocError> {
    let said = if has_second(rt, alloc, words, texts, suite) {
        "a second worker\n"
    } else {
        "no second worker\n"
    };
    answers.push(said.as_bytes())
}

/// Appends what a row asks for.
fn push_asked<T: Threads + Wait + Sync>(
    rt: &T,
    alloc: Global,
    answers: &mut Output,
    mut words: Vec<String>,
    texts: &Texts,
    suite: &[u8],
    asks: Asks,
) -> Result<(), AllocError> {
    let mut errors = Vec::new(alloc);
    match asks {
        Asks::SecondWorker => push_second(rt, alloc, answers, words.as_slice(), texts, suite)?,
        Asks::OwnTests | Asks::SemverTests => {
            push_tests(rt, alloc, answers, &mut errors, &mut words, texts, asks)?
        }
        _ => push_run(rt, alloc, answers, &mut errors, words, texts, suite, asks)?,
    }
    if asks.shows_errors() {
        answers.push(errors.as_slice())?;
    }
    Ok(())
}

/// Appends a row's line, and what it asks for.
pub(crate) fn push_answer<T: Threads + Wait + Sync>(
    rt: &T,
    alloc: Global,
    answers: &mut Output,
    line: &str,
    texts: &Texts,
    suite: &[u8],
) -> Result<(), AllocError> {
    let Some((said, asks)) = row_of(line) else {
        return Ok(());
    };
    answers.push(line.as_bytes())?;
    answers.push(b"\n")?;
    let mut words = Vec::new(alloc);
    push_line(alloc, &mut words, said)?;
    push_asked(rt, alloc, answers, words, texts, suite, asks)
}
