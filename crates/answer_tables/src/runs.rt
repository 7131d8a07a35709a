//! Questions about the runs of a suite.

use crate::event_words::push_events;
use crate::histories::{push_driven, push_stepped};
use crate::run::Run;
use crate::told::push_told;
use crate::traces::{WORKERS, push_core, push_workers};
use crate::words::{say, show};
use std::alloc::Global;

/// Adds the answer to what is asked of what is told of a run: of the events of these tokens, or of the fixed schedule.
fn push_asked(alloc: Global, answer: &mut String, run: &Run, asked: &str, words: &str) {
    let parts = (&run.plan, &run.answers);
    match words.strip_prefix("of") {
        Some(words) => {
            let mut events = Vec::new(alloc);
            push_events(&mut events, words);
            push_told(alloc, answer, parts, events.as_slice(), asked)
        }
        None => push_driven(alloc, answer, parts, asked),
    }
}

/// Adds the answer to what is asked of a run that is left as it is.
fn push_kept(alloc: Global, answer: &mut String, run: &Run, asked: &str, words: &str) {
    match asked {
        "most" => {
            show(answer, " => ", run.plan.most_events());
            say(answer, " events")
        }
        "steps" => {
            let parts = (&run.plan, &run.answers);
            push_stepped(alloc, answer, parts, WORKERS, words, "trace")
        }
        _ => push_asked(alloc, answer, run, asked, words),
    }
}

/// Adds the answer to what is asked of a run.
fn push_answer(alloc: Global, answer: &mut String, run: Run, asked: &str, words: &str) {
    match asked {
        "core" => push_core(alloc, answer, run, words),
        "workers" => push_workers(alloc, answer, run, words),
        _ => {
            push_kept(alloc, answer, &run, asked, words);
            drop(run)
        }
    }
}

/// Adds the answer to what is asked of the runs of the suite of a text.
pub(crate) fn push_run_answer(
    alloc: Global,
    answer: &mut String,
    suite: &str,
    asked: &str,
    words: &str,
) {
    match Run::of(alloc, suite) {
        Some(run) => push_answer(alloc, answer, run, asked, words),
        None => say(answer, " => no suite"),
    }
}
