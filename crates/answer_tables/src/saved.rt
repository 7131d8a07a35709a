//! Questions about saved runs.

use crate::words::{push_refusal, say};
use saved_runs::{Again, SavedRun};
use std::alloc::Global;
use unique_id::UniqueId;

/// Adds the ids, a blank before each.
fn push_ids(answer: &mut String, ids: &[UniqueId]) {
    for id in ids {
        say(answer, " ");
        say(answer, id.text());
    }
}

/// Adds what of a suite is to be run again.
fn push_what(alloc: Global, answer: &mut String, run: &SavedRun) {
    match run.again(alloc) {
        Ok(Again::Only(ids)) => {
            say(answer, " => only");
            push_ids(answer, ids.as_slice());
            drop(ids)
        }
        Ok(Again::AllBut(ids)) => {
            say(answer, " => all but");
            push_ids(answer, ids.as_slice());
            drop(ids)
        }
        Err(_) => say(answer, " => no memory"),
    }
}

/// Adds what is to be run again after the run that a text tells, or the refusal.
pub(crate) fn push_again(alloc: Global, answer: &mut String, text: &str) {
    match SavedRun::read(alloc, text) {
        Ok(run) => {
            push_what(alloc, answer, &run);
            drop(run)
        }
        Err(fault) => push_refusal(answer, fault.number(), fault.place(), &fault),
    }
}
