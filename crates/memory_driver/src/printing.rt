//! Calls that print what happened, and the one that finds steps for it.

use crate::calls::{Call, note};
use crate::inputs::{Run, SHOP, run_of};
use crate::printer::Printer;
use crate::said::Said;
use plan_events::{Event, Texts};
use run_results::{Theme, feed_text, summary_text, tree_text};
use sched_core::{drive, texts_of};
use schedules::schedule_of;
use scheduling::Step;
use std::alloc::{AllocError, Global};
use std::io::Write;

/// What happened in a run, and the texts of its nodes.
#[derive(Drop)]
struct History {
    events: Vec<Event>,
    texts: Texts,
}

/// What happens in a run by the fixed schedule.
fn history_of(alloc: Global, run: &Run) -> Result<History, AllocError> {
    let events = drive(alloc, &run.plan, &run.answers)?.published;
    let texts = texts_of(alloc, &run.plan, &run.answers, events.as_slice())?;
    Ok(History { events, texts })
}

/// A run, and what happened in it.
#[derive(Drop)]
pub(crate) struct Past {
    run: Run,
    history: History,
}

/// The run of a suite with all that a line may declare, by the fixed schedule.
fn past_of_shop(alloc: Global) -> Result<Past, AllocError> {
    let run = run_of(alloc, SHOP)?;
    let Ok(history) = history_of(alloc, &run) else {
        drop(run);
        return Err(AllocError);
    };
    Ok(Past { run, history })
}

/// `feed_text`, `tree_text` or `summary_text`.
#[derive(Clone, Copy)]
pub(crate) enum Print {
    Feed,
    Tree,
    Summary,
}

impl Call for Print {
    type Input = Past;

    type Answer = Result<String, AllocError>;

    fn make(self, alloc: Global, past: &Past) -> Result<String, AllocError> {
        let (plan, history) = (&past.run.plan, &past.history);
        match self {
            Print::Feed => feed_text(alloc, plan, &history.events, &history.texts),
            Print::Tree => tree_text(alloc, plan, &history.events, &history.texts, Theme::Unicode),
            Print::Summary => summary_text(alloc, plan, &history.events),
        }
    }

    fn push(said: &mut Said, printed: &Result<String, AllocError>) {
        match printed {
            Ok(printed) => said.add(printed.as_str()),
            Err(_) => said.refuse(0),
        }
    }
}

/// `schedule_of`, of the history that the fixed schedule publishes.
#[derive(Drop)]
pub(crate) struct Schedules;

impl Call for Schedules {
    type Input = Past;

    type Answer = Result<Option<Vec<Step>>, AllocError>;

    fn make(self, alloc: Global, past: &Past) -> Result<Option<Vec<Step>>, AllocError> {
        let run = &past.run;
        let events = past.history.events.as_slice();
        schedule_of(alloc, &run.plan, &run.answers, 1, events)
    }

    fn push(said: &mut Said, steps: &Result<Option<Vec<Step>>, AllocError>) {
        match steps {
            Ok(steps) => said.quote("", steps),
            Err(_) => said.refuse(0),
        }
    }
}

/// Makes a call that reads what happened.
pub(crate) fn looks_back<C: Call<Input = Past> + Drop, W: Write>(
    alloc: Global,
    out: &mut Printer<W>,
    call: C,
) -> Result<(), AllocError> {
    let past = past_of_shop(alloc)?;
    note(alloc, out, &past, call);
    drop(past);
    Ok(())
}
