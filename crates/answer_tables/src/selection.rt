//! What a request finds in a tree.

use crate::words::{key_and_value, push_refusal, say, show};
use descriptor::{NodeId, Tree};
use selectors::{Request, Selector, SelectorKind, discover};
use std::alloc::Global;
use tag_expr::TagExpr;

/// The kind of a selector, by its name.
pub(crate) fn selector_kind(word: &str) -> SelectorKind {
    match word {
        "id" => SelectorKind::UniqueId,
        "method" => SelectorKind::Method,
        "package" => SelectorKind::Package,
        "name" => SelectorKind::Name,
        _ => SelectorKind::Class,
    }
}

/// Adds what was read, and tells whether it could be read.
fn keep<T: Drop, F: Drop>(list: &mut Vec<T>, read: Result<T, F>) -> bool {
    match read {
        Ok(item) => list.push(item).is_ok(),
        Err(_) => false,
    }
}

/// Adds what a token such as `class=a.B` or `include=a & b` asks for, and tells whether it could be read.
fn add(alloc: Global, request: &mut Request, word: &str) -> bool {
    match key_and_value(word) {
        ("", "") => true,
        ("include", text) => keep(&mut request.include, TagExpr::parse(alloc, text)),
        ("exclude", text) => keep(&mut request.exclude, TagExpr::parse(alloc, text)),
        (kind, text) => {
            let selector = Selector::parse(alloc, selector_kind(kind), text);
            keep(&mut request.selectors, selector)
        }
    }
}

/// Adds what tokens between semicolons ask for, and tells whether each could be read.
fn add_all(alloc: Global, request: &mut Request, words: &str) -> bool {
    for word in words.split("; ") {
        if !add(alloc, request, word) {
            return false;
        }
    }
    true
}

/// Adds the names of a tree's nodes but the plan.
fn push_names(answer: &mut String, tree: &Tree) {
    say(answer, " =>");
    for number in 1..tree.len() {
        let node = tree.node(NodeId::new(number as u16));
        show(answer, " ", node.name.as_str())
    }
}

/// Adds the names of what a request asks for, or the refusal.
fn push_answered(alloc: Global, answer: &mut String, tree: &Tree, request: &Request) {
    let Ok(tree) = tree.copy(alloc) else {
        return;
    };
    match discover(alloc, tree, request) {
        Ok(found) => {
            push_names(answer, &found.tree);
            drop(found)
        }
        Err(fault) => push_refusal(answer, fault.number(), fault.place(), &fault),
    }
}

/// Adds the names of what tokens between semicolons ask for, or the refusal.
pub(crate) fn push_found(alloc: Global, answer: &mut String, tree: &Tree, words: &str) {
    let mut request = Request {
        selectors: Vec::new(alloc),
        names: Vec::new(alloc),
        rerun: Vec::new(alloc),
        exclusions: Vec::new(alloc),
        include: Vec::new(alloc),
        exclude: Vec::new(alloc),
        shard: None,
        seed: None,
    };
    if add_all(alloc, &mut request, words) {
        push_answered(alloc, answer, tree, &request);
    } else {
        say(answer, " => no request");
    }
}
