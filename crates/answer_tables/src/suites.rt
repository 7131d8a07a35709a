//! Questions about the texts of suites, selectors and steps.

use crate::selection::selector_kind;
use crate::trees::push_suite_answer;
use crate::words::{key_and_value, push_fault, push_refusal, quote, say, show};
use config_params::Params;
use descriptor::Tree;
use scheduling::Step;
use selectors::Selector;
use std::alloc::Global;
use step_text::parse_steps;

/// Adds how many nodes a tree has.
pub(crate) fn push_nodes(answer: &mut String, tree: &Tree) {
    show(answer, " => ", tree.len());
    say(answer, " nodes")
}

/// Adds the value of a key.
pub(crate) fn push_value(answer: &mut String, params: &Params, key: &str) {
    match params.get(key) {
        Some(value) => quote(answer, "", value),
        None => say(answer, "none"),
    }
}

/// Adds how many nodes a suite has whose third line is a test with this end.
pub(crate) fn push_test_line(alloc: Global, answer: &mut String, end: &str) {
    let mut text = String::new(alloc);
    show(&mut text, "engine e\n  class A\n    test t ", end);
    push_suite_answer(alloc, answer, text.as_str(), "size", "");
    drop(text)
}

/// Adds what a selector names.
fn push_named(answer: &mut String, selector: &Selector) {
    match selector {
        Selector::Uid(id) => quote(answer, " => id ", id.text()),
        Selector::Class(name) => quote(answer, " => class ", name.as_str()),
        Selector::Method { class, method } => {
            quote(answer, " => method ", method.as_str());
            quote(answer, " of ", class.as_str())
        }
        Selector::Package(name) => quote(answer, " => package ", name.as_str()),
        Selector::Name(pattern) => quote(answer, " => name ", pattern.as_str()),
    }
}

/// Adds the selector of `KIND=TEXT`.
pub(crate) fn push_selector(alloc: Global, answer: &mut String, text: &str) {
    let (kind, text) = key_and_value(text);
    match Selector::parse(alloc, selector_kind(kind), text) {
        Ok(selector) => {
            push_named(answer, &selector);
            drop(selector)
        }
        Err(fault) => push_fault(answer, fault.number(), &fault),
    }
}

/// Adds how many steps there are, and each of them.
fn push_each(answer: &mut String, steps: &[Step]) {
    show(answer, " => ", steps.len());
    say(answer, " steps");
    for step in steps {
        quote(answer, "; ", *step)
    }
}

/// Adds the steps that a text spells.
pub(crate) fn push_steps(alloc: Global, answer: &mut String, text: &str) {
    match parse_steps(alloc, text) {
        Ok(steps) => {
            push_each(answer, &steps);
            drop(steps)
        }
        Err(fault) => push_refusal(answer, fault.number(), fault.place(), &fault),
    }
}
