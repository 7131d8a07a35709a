//! Writers that fail, and texts whose characters no line of a suite can have.

use crate::failing::{Failing, Full};
use crate::plans::{event, finished, plan_of_one, started};
use descriptor::{Kind, NodeId};
use plan_events::{EventKind, Note, Status, Texts};
use resource_locks::Plan;
use run_results::{Theme, feed_text, print_to, tree_text};
use std::alloc::Global;
use unique_id::Text;

/// What is printed.
const BYTES: &[u8] = b"w1 plan started\nw1 ";

/// The place at which printing to a writer of this room is refused, where it took what stands before that place.
fn refused(alloc: Global, room: usize, step: usize) -> Option<usize> {
    let mut writer = Failing {
        taken: Vec::new(alloc),
        room,
        step,
        full: Full::IsInterrupted,
    };
    let fault = print_to(&mut writer, BYTES).err()?;
    let is_front = BYTES.starts_with(writer.taken.as_slice());
    (is_front && writer.taken.len() == fault.sent).then_some(fault.sent)
}

/// Whether printing is refused at each place at which a writer fails, and at 0 where it takes nothing.
pub(crate) fn a_writer_that_fails_ends_the_printing(alloc: Global) -> bool {
    for room in 0..19 {
        for step in [1, 5, 99] {
            if refused(alloc, room, step) != Some(room) {
                return false;
            }
        }
    }
    refused(alloc, 9, 0) == Some(0)
}

/// Whether a writer with just the room, which takes one byte at a time, takes all.
pub(crate) fn a_writer_that_takes_all_is_no_fault(alloc: Global) -> bool {
    let mut writer = Failing {
        taken: Vec::new(alloc),
        room: 19,
        step: 1,
        full: Full::Fails,
    };
    print_to(&mut writer, BYTES).is_ok() && writer.taken.as_slice() == BYTES
}

/// The texts of a plan of one node, which has this text of its own.
fn texts_of_one(alloc: Global, plan: &Plan, text: &str) -> Option<Texts> {
    if plan.tree().len() <= 1 {
        return None;
    }
    let text = Text::new(alloc, text).ok()?;
    let mut texts = Texts::new(alloc, plan.tree()).ok()?;
    texts.set(NodeId::new(1), Note::Own(text));
    Some(texts)
}

/// Whether the feed of the node of a plan, with these texts, is these lines.
fn is_fed(alloc: Global, plan: &Plan, texts: &Texts, lines: &str) -> Option<bool> {
    let events = [
        event(EventKind::Registered, 1, None),
        event(EventKind::Skipped, 1, None),
        finished(1, Status::Failed),
        finished(1, Status::Successful),
    ];
    let feed = feed_text(alloc, plan, events.as_slice(), texts).ok()?;
    Some(feed.as_str() == lines)
}

/// Whether the feed of the plan of one node with this name and this text of its own is these lines.
fn feeds(alloc: Global, name: &str, text: &str, lines: &str) -> Option<bool> {
    let plan = plan_of_one(alloc, name, Kind::Container)?;
    let texts = texts_of_one(alloc, &plan, text)?;
    is_fed(alloc, &plan, &texts, lines)
}

pub(crate) fn a_feed_has_spaces_for_control_bytes_of_texts_alone(alloc: Global) -> bool {
    let lines = "w1 registered [engine:a\tb]
w1 skipped [engine:a\tb] no file  x\u{e9}
w1 finished [engine:a\tb] FAILED no file  x\u{e9}
w1 finished [engine:a\tb] SUCCESSFUL\n";
    let text = "no\tfile\u{7f}\nx\u{e9}";
    feeds(alloc, "a\tb", text, lines) == Some(true)
}

/// Whether the tree of the failed node of a plan, with these texts, is this line.
fn is_drawn(alloc: Global, plan: &Plan, texts: &Texts, line: &str) -> Option<bool> {
    let events = [started(1), finished(1, Status::Failed)];
    let tree = tree_text(alloc, plan, events.as_slice(), texts, Theme::Ascii).ok()?;
    Some(tree.as_str() == line)
}

/// Whether the tree of the plan of one node with this name and this text of its own is this line.
fn draws(alloc: Global, name: &str, text: &str, line: &str) -> Option<bool> {
    let plan = plan_of_one(alloc, name, Kind::Container)?;
    let texts = texts_of_one(alloc, &plan, text)?;
    is_drawn(alloc, &plan, &texts, line)
}

pub(crate) fn a_tree_has_spaces_for_control_bytes_and_other_characters_stay(alloc: Global) -> bool {
    let name = "a\tb\u{7f}\u{e9}\u{6f22}e\u{301}";
    let line = "'-- a b \u{e9}\u{6f22}e\u{301} [X] no file\u{1f600} \n";
    let text = "no\nfile\u{1f600}\u{0}";
    draws(alloc, name, text, line) == Some(true)
}
