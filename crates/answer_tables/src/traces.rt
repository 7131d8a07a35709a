//! What runs leave.

use crate::event_words::push_words;
use crate::run::Run;
use crate::words::{quote, say, show};
use plan_events::Event;
use sched_core::{Core, Trace, run_steps};
use scheduling::Step;
use std::alloc::Global;
use step_text::parse_steps;

/// The number of workers that a replay has.
pub(crate) const WORKERS: u32 = 64;

/// Adds each worker's own events, if it has some.
fn push_own(answer: &mut String, mine: &[Vec<Event>]) {
    let workers = mine.len();
    for (place, events) in mine.iter().enumerate() {
        if !events.is_empty() {
            show(answer, "\nworker ", place.saturating_add(1));
            show(answer, " of ", workers);
            push_words(answer, events);
        }
    }
}

/// Adds what was published and given, each worker's own events, and how many steps were passed over.
pub(crate) fn push_trace(answer: &mut String, trace: &Trace) {
    say(answer, "\npublished");
    push_words(answer, &trace.published);
    say(answer, "\ngiven");
    push_words(answer, &trace.given);
    push_own(answer, &trace.mine);
    show(answer, "\npassed over ", trace.passed_over)
}

/// Adds each of these steps, and what the core answers to it.
fn push_each(answer: &mut String, core: &mut Core, steps: &[Step]) {
    for step in steps {
        quote(answer, "\n", *step);
        match core.step(*step) {
            Ok(()) => say(answer, " done"),
            Err(fault) => show(answer, " ", fault),
        }
    }
}

/// Adds what the core has done.
fn push_done(alloc: Global, answer: &mut String, core: &Core) {
    if let Ok(trace) = core.trace(alloc) {
        push_trace(answer, &trace);
        drop(trace)
    }
}

/// Adds what a core answers to each step of these tokens, and what they leave.
fn push_taken(alloc: Global, answer: &mut String, core: &mut Core, text: &str) {
    match parse_steps(alloc, text) {
        Ok(steps) => {
            push_each(answer, core, &steps);
            push_done(alloc, answer, core);
            drop(steps)
        }
        Err(_) => say(answer, " => no steps"),
    }
}

/// Adds what a core of this run answers to each step of these tokens, and what they leave.
pub(crate) fn push_core(alloc: Global, answer: &mut String, run: Run, text: &str) {
    let Run { plan, answers } = run;
    match Core::new(alloc, plan, answers, WORKERS) {
        Ok(mut core) => {
            push_taken(alloc, answer, &mut core, text);
            drop(core)
        }
        Err(_) => say(answer, " => no core"),
    }
}

/// Adds whether so many workers can run steps, and have a core.
pub(crate) fn push_workers(alloc: Global, answer: &mut String, run: Run, text: &str) {
    let workers = text.parse().unwrap_or(0);
    let steps = run_steps(alloc, &run.plan, &run.answers, workers, &[]).err();
    let Run { plan, answers } = run;
    match (steps, Core::new(alloc, plan, answers, workers).err()) {
        (None, None) => say(answer, " => steps and a core"),
        (Some(steps), Some(core)) => {
            show(answer, " => ", steps);
            show(answer, ", ", core)
        }
        _ => say(answer, " => one of both"),
    }
}
