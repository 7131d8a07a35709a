//! What a run of a plan leaves: the fixed schedule, or steps by so many workers. A token `fail-fast`
//! or `max-fail:2` says after how many failures the run stops. `3=fail:late` says that body 3 fails with the text `late`, `3=2*pass`
//! that it is pulled twice before it passes.

use crate::told::push_told;
use crate::traces::push_trace;
use crate::words::{cut, say, show, text_of};
use descriptor::BodyId;
use plan_events::{Outcome, Reply, Status};
use resource_locks::Plan;
use sched_core::{Answers, Trace, drive, run_steps};
use scheduling::Step;
use std::alloc::Global;
use step_text::parse_steps;

fn status_of(word: &str) -> Status {
    match word {
        "fail" => Status::Failed,
        "abort" => Status::Aborted,
        _ => Status::Successful,
    }
}

/// The reply of a value such as `fail:late` or `2*pass`.
fn reply_of(alloc: Global, value: &str) -> Reply {
    let (pulls, value) = value.split_once('*').unwrap_or(("0", value));
    let (verdict, said) = value.split_once(':').unwrap_or((value, ""));
    Reply {
        pulls: pulls.parse().unwrap_or(0),
        outcome: Outcome {
            status: status_of(verdict),
            text: text_of(alloc, said),
        },
    }
}

/// The body whose reply a token gives, and the reply's text. The number of workers, which may stand before, is no
/// body's.
fn body_and_value(word: &str) -> Option<(BodyId, &str)> {
    let (body, value) = word.split_once('=')?;
    Some((BodyId::new(body.parse().ok()?), value))
}

/// What the bodies answer by these tokens.
fn answers_of(alloc: Global, words: &str) -> Answers {
    let mut replies = Vec::new(alloc);
    for word in words.split(' ') {
        if let Some((body, value)) = body_and_value(word) {
            let _ = replies.push((body, reply_of(alloc, value)));
        }
    }
    Answers::of(replies)
}

/// What stands before the steps, and the steps.
pub(crate) fn cut_steps(words: &str) -> (&str, &str) {
    words.split_once(" : ").unwrap_or((words, ""))
}

/// How many failures a run goes on after, if one of these tokens says after how many it stops.
pub(crate) fn tolerated_by(words: &str) -> Option<u16> {
    for word in words.split(' ') {
        if word == "fail-fast" {
            return Some(0);
        }
        if let Some(most) = word.strip_prefix("max-fail:") {
            let most: u16 = most.parse().unwrap_or(1);
            return Some(most.saturating_sub(1));
        }
    }
    None
}

/// Adds how many steps there were, and what became of them.
fn push_tally(answer: &mut String, trace: &Trace, steps: usize) {
    show(answer, "\nsteps ", steps);
    show(answer, " passed-over ", trace.passed_over);
    show(answer, " published ", trace.published.len());
    show(answer, " given ", trace.given.len())
}

/// Adds what so many steps left.
fn push_left(
    alloc: Global,
    answer: &mut String,
    parts: (&Plan, &Answers),
    (trace, steps): (&Trace, usize),
    way: &str,
) {
    match way {
        "drive" | "trace" => push_trace(answer, trace),
        "replay" => {
            push_told(alloc, answer, parts, &trace.given, "history");
            push_tally(answer, trace, steps)
        }
        _ => push_told(alloc, answer, parts, &trace.published, way),
    }
}

/// Adds what is told in this way of what the fixed schedule leaves.
pub(crate) fn push_driven(
    alloc: Global,
    answer: &mut String,
    (plan, answers): (&Plan, &Answers),
    way: &str,
) {
    if let Ok(trace) = drive(alloc, plan, answers) {
        push_left(alloc, answer, (plan, answers), (&trace, 0), way);
        drop(trace)
    }
}

/// Adds what is told in this way of what these steps leave, taken by so many workers.
fn push_run(
    alloc: Global,
    answer: &mut String,
    (plan, answers): (&Plan, &Answers),
    workers: u32,
    steps: &[Step],
    way: &str,
) {
    match run_steps(alloc, plan, answers, workers, steps) {
        Ok(trace) => {
            push_left(alloc, answer, (plan, answers), (&trace, steps.len()), way);
            drop(trace)
        }
        Err(fault) => show(answer, " => ", fault),
    }
}

/// Adds what is told in this way of what the steps of a text leave, taken by so many workers.
pub(crate) fn push_stepped(
    alloc: Global,
    answer: &mut String,
    parts: (&Plan, &Answers),
    workers: u32,
    text: &str,
    way: &str,
) {
    match parse_steps(alloc, text) {
        Ok(steps) => {
            push_run(alloc, answer, parts, workers, &steps, way);
            drop(steps)
        }
        Err(_) => say(answer, " => no steps"),
    }
}

/// Adds what a run of the plan leaves whose bodies answer by the tokens; steps are taken by as many workers as the
/// first of them says.
pub(crate) fn push_history(
    alloc: Global,
    answer: &mut String,
    plan: &Plan,
    asked: &str,
    words: &str,
) {
    let (replies, steps) = cut_steps(words);
    let answers = answers_of(alloc, replies);
    match asked {
        "drive" => push_driven(alloc, answer, (plan, &answers), "history"),
        _ => {
            let workers = cut(words).0.parse().unwrap_or(0);
            push_stepped(alloc, answer, (plan, &answers), workers, steps, "replay")
        }
    }
    drop(answers)
}
