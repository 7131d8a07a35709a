//! The plan of a tree under a configuration: how each node is executed, which locks it holds meanwhile, and its runs.

use crate::configuration::requested;
use crate::histories::{cut_steps, push_history, tolerated_by};
use crate::lock_sets::{push_locks, push_locks_answer};
use crate::words::{push_fault, say, show};
use config_params::{Settings, modes};
use descriptor::{Mode, Node, NodeId, Tree};
use resource_locks::{Plan, hoist};
use std::alloc::Global;

fn mode_word(mode: Mode) -> &'static str {
    match mode {
        Mode::SameThread => "same_thread",
        Mode::Concurrent => "concurrent",
    }
}

/// Adds what a node declares of how it is executed.
fn push_declared(answer: &mut String, node: &Node) {
    if let Some(mode) = node.mode {
        show(answer, " ", mode_word(mode))
    }
    push_locks(answer, node.locks.as_slice());
    say(answer, if node.isolated { " isolated" } else { "" });
}

/// Adds a line for each node, with the mode, the locks and the isolation that it declares where it is not the plan.
pub(crate) fn push_declarations(answer: &mut String, tree: &Tree) {
    for number in 0..tree.len() {
        let node = NodeId::new(number as u16);
        show(answer, "\n", number);
        match tree.parent(node) {
            Some(_) => push_declared(answer, tree.node(node)),
            None => {},
        }
    }
}

/// Adds a line for each node, with its mode and the locks that it holds.
fn push_nodes(answer: &mut String, plan: &Plan) {
    for number in 0..plan.tree().len() {
        let node = NodeId::new(number as u16);
        show(answer, "\n", number);
        show(answer, " ", mode_word(plan.mode(node)));
        push_locks(answer, plan.held(node).locks())
    }
}

/// Adds how many keys and events there are, and a line for each node.
fn push_plan(answer: &mut String, plan: &Plan) {
    show(answer, " => ", plan.key_count());
    show(answer, " keys, ", plan.most_events());
    say(answer, " events at most");
    push_nodes(answer, plan)
}

/// Adds the text of a plan, if its copy has the same.
fn push_copied(alloc: Global, answer: &mut String, plan: &Plan) {
    let mut again = String::new(alloc);
    if let Ok(copied) = plan.copy(alloc) {
        push_plan(&mut again, &copied);
        drop(copied)
    }
    push_plan(answer, plan);
    if again.as_str() != answer.as_str() {
        say(answer, " => the copy differs");
    }
    drop(again)
}

/// Adds what is asked of a plan: how it executes its nodes, whether no spare holds a key, which locks two nodes
/// hold, or what a run of it leaves.
fn push_plan_answer(alloc: Global, answer: &mut String, plan: &Plan, asked: &str, words: &str) {
    match asked {
        "plan" => push_copied(alloc, answer, plan),
        "free-spares" => show(answer, " => ", plan.has_free_spares()),
        "conflicts" | "joined" => push_locks_answer(alloc, answer, plan, asked, words),
        "drive" | "steps" => push_history(alloc, answer, plan, asked, words),
        _ => say(answer, " => ?"),
    }
}

/// Adds what is asked of the plan of a tree under these settings.
fn push_hoisted(
    alloc: Global,
    answer: &mut String,
    (tree, settings): (&Tree, &Settings),
    asked: &str,
    words: &str,
) {
    let Ok(modes) = modes(alloc, tree, settings) else {
        return;
    };
    match hoist(alloc, tree, modes) {
        Ok(plan) => {
            let tolerated = tolerated_by(words);
            let plan = plan.with_fail_fast(tolerated.is_some());
            let plan = plan.with_tolerated(tolerated.unwrap_or(0));
            push_plan_answer(alloc, answer, &plan, asked, words);
            drop(plan)
        }
        Err(fault) => push_fault(answer, fault.number(), &fault),
    }
}

/// Adds what is asked of the plan of a tree where the request has these tokens, before the steps. The numbers of nodes
/// are no keys of it.
pub(crate) fn push_planned(
    alloc: Global,
    answer: &mut String,
    tree: &Tree,
    asked: &str,
    words: &str,
) {
    let (request, _) = cut_steps(words);
    match requested(alloc, request) {
        Ok(settings) => push_hoisted(alloc, answer, (tree, &settings), asked, words),
        Err(fault) => push_fault(answer, fault.number(), &fault),
    }
}
