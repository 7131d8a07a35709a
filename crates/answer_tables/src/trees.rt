//! Questions about trees.

use crate::adding::meant;
use crate::nodes::{push_nodes_text, push_tags_text};
use crate::plans::{push_declarations, push_planned};
use crate::selection::push_found;
use crate::suites::{push_nodes, push_value};
use crate::words::{cut, node_of, push_refusal, quote, say, show};
use descriptor::Tree;
use std::alloc::Global;
use suite_text::{Script, Suite};

/// Adds a line for each script.
fn push_scripts(answer: &mut String, scripts: &[Script]) {
    for script in scripts {
        let outcome = &script.reply.outcome;
        show(answer, "\nbody ", script.body.number());
        show(answer, " spin ", script.spin);
        if let Some(limit) = script.slow {
            show(answer, " slow ", limit)
        }
        show(answer, " pulls ", script.reply.pulls);
        show(answer, " ", outcome.status);
        quote(answer, " ", outcome.text.as_str())
    }
}

/// Adds whether each of these digits is a 1.
fn push_marks(marks: &mut Vec<bool>, digits: &str) {
    for digit in digits.chars() {
        let _ = marks.push(digit == '1');
    }
}

/// Adds what is left of the tree where the marks are true.
fn push_left(alloc: Global, answer: &mut String, tree: &Tree, keep: &[bool]) {
    if keep.len() != tree.len() {
        say(answer, " => another length");
        return;
    }
    if !tree.is_closed(keep) {
        say(answer, " => not closed");
        return;
    }
    if let Ok(tree) = tree.pruned(alloc, keep) {
        push_nodes_text(answer, &tree);
        drop(tree)
    }
}

/// Adds what is left of the tree where these digits have a 1.
fn push_kept(alloc: Global, answer: &mut String, tree: &Tree, digits: &str) {
    let digits = meant(alloc, digits);
    let mut keep = Vec::new(alloc);
    push_marks(&mut keep, digits.as_str());
    push_left(alloc, answer, tree, keep.as_slice());
    drop(digits)
}

/// Adds whether the first of two nodes is below the second.
fn push_below(answer: &mut String, tree: &Tree, numbers: &str) {
    let (node, ancestor) = cut(numbers);
    let node = node_of(node);
    if node.index() >= tree.len() {
        say(answer, " => no node");
        return;
    }
    show(answer, " => ", tree.below(node, node_of(ancestor)))
}

/// Adds the answer to what is asked of a tree or of its plan.
fn push_tree_answer(alloc: Global, answer: &mut String, tree: &Tree, asked: &str, words: &str) {
    match asked {
        "tags" => push_tags_text(answer, tree, words),
        "below" => push_below(answer, tree, words),
        "keep" => push_kept(alloc, answer, tree, words),
        "select" => push_found(alloc, answer, tree, words),
        _ => push_planned(alloc, answer, tree, asked, words),
    }
}

/// Adds the answer to what is asked of a tree.
pub(crate) fn push_answer(
    alloc: Global,
    answer: &mut String,
    tree: &Tree,
    asked: &str,
    words: &str,
) {
    match asked {
        "size" => push_nodes(answer, tree),
        "nodes" => push_nodes_text(answer, tree),
        "declared" => push_declarations(answer, tree),
        _ => push_tree_answer(alloc, answer, tree, asked, words),
    }
}

/// Adds the answer to what is asked of a suite.
fn push_suite_asked(alloc: Global, answer: &mut String, suite: &Suite, asked: &str, words: &str) {
    match asked {
        "scripts" => push_scripts(answer, &suite.scripts),
        "said" => {
            say(answer, " => ");
            push_value(answer, &suite.properties, words)
        }
        _ => push_answer(alloc, answer, &suite.tree, asked, words),
    }
}

/// Adds the answer to what is asked of the suite of a text.
pub(crate) fn push_suite_answer(
    alloc: Global,
    answer: &mut String,
    text: &str,
    asked: &str,
    words: &str,
) {
    match Suite::parse(alloc, None, text) {
        Ok(suite) => {
            push_suite_asked(alloc, answer, &suite, asked, words);
            drop(suite)
        }
        Err(fault) => push_refusal(answer, fault.number(), fault.place(), &fault),
    }
}
