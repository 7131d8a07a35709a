//! A suite that is to be run.

use descriptor::{Mode, Tree};
use resource_locks::Plan;
use sched_core::Answers;
use std::alloc::Global;
use suite_text::{Script, Suite};

/// The plan of a suite, and what its bodies answer.
#[derive(Drop)]
pub(crate) struct Run {
    pub(crate) plan: Plan,
    pub(crate) answers: Answers,
}

/// What the bodies of scripts answer.
fn answers_of(alloc: Global, scripts: Vec<Script>) -> Answers {
    let mut replies = Vec::new(alloc);
    for script in scripts {
        let _ = replies.push((script.body, script.reply));
    }
    Answers::of(replies)
}

/// The plan of a tree whose nodes may all run side by side, as far as their locks let them.
fn plan_of(alloc: Global, tree: Tree) -> Option<Plan> {
    let modes = vec![in alloc; Mode::Concurrent; tree.len()].ok()?;
    Plan::of(alloc, tree, modes).ok()
}

impl Run {
    /// The run of the suite of a text, if it is one.
    pub(crate) fn of(alloc: Global, text: &str) -> Option<Run> {
        let Suite {
            tree,
            scripts,
            properties,
        } = Suite::parse(alloc, None, text).ok()?;
        drop(properties);
        let answers = answers_of(alloc, scripts);
        let plan = plan_of(alloc, tree)?;
        Some(Run { plan, answers })
    }
}
