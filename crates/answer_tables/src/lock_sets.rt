//! Questions about the locks that two nodes hold, and the text of locks.

use crate::words::{cut, node_of, say, show};
use descriptor::{Lock, LockMode};
use resource_locks::{LockSet, Plan};
use std::alloc::Global;

fn lock_word(mode: LockMode) -> &'static str {
    match mode {
        LockMode::Read => "r",
        LockMode::ReadWrite => "rw",
    }
}

/// Adds the key and the mode of each lock.
pub(crate) fn push_locks(answer: &mut String, locks: &[Lock]) {
    for lock in locks {
        show(answer, " ", lock.key.as_str());
        show(answer, ":", lock_word(lock.mode))
    }
}

/// Adds whether two sets conflict, or the locks of both together.
fn push_sets_answer(
    alloc: Global,
    answer: &mut String,
    asked: &str,
    one: &LockSet,
    other: &LockSet,
) {
    if asked == "conflicts" {
        show(answer, " => ", one.conflicts(other))
    } else if let Ok(joined) = LockSet::join(alloc, one, other) {
        say(answer, " =>");
        push_locks(answer, joined.locks());
        drop(joined)
    }
}

/// Adds what is asked of the locks that two nodes hold, if there are such nodes.
pub(crate) fn push_locks_answer(
    alloc: Global,
    answer: &mut String,
    plan: &Plan,
    asked: &str,
    numbers: &str,
) {
    let (one, other) = cut(numbers);
    let (one, other) = (node_of(one), node_of(other));
    if one.index().max(other.index()) >= plan.tree().len() {
        return say(answer, " => no node");
    }
    push_sets_answer(alloc, answer, asked, plan.held(one), plan.held(other))
}
