//! Questions about tags and tag expressions.

use crate::words::{push_refusal, quote, show};
use std::alloc::Global;
use tag_expr::{TagExpr, TagSet, tag_of};

/// Adds the tag that a text is.
pub(crate) fn push_tag(alloc: Global, answer: &mut String, text: &str) {
    match tag_of(alloc, text) {
        Ok(tag) => {
            quote(answer, " => ", tag.as_str());
            drop(tag)
        }
        Err(fault) => push_refusal(answer, fault.number(), fault.place(), &fault),
    }
}

/// Adds a tag to a set, if the text is one.
pub(crate) fn add_tag(alloc: Global, set: &mut TagSet, text: &str) {
    if let Ok(tag) = tag_of(alloc, text) {
        let _ = set.add(tag);
    }
}

/// The set of the tags between commas.
fn set_of(alloc: Global, tags: &str) -> TagSet {
    let mut set = TagSet::new(alloc);
    for tag in tags.split(',') {
        add_tag(alloc, &mut set, tag);
    }
    set
}

/// Whether an expression is true of the tags of tokens, or of those of two sets with `~` between them together.
fn holds(alloc: Global, expression: &TagExpr, tags: &str) -> bool {
    match tags.split_once('~') {
        Some((one, other)) => {
            expression.matches_together(&[&set_of(alloc, one), &set_of(alloc, other)])
        }
        None => expression.matches(&set_of(alloc, tags)),
    }
}

/// Adds whether an expression is true of what stands behind the first `~`.
pub(crate) fn push_truth(alloc: Global, answer: &mut String, text: &str) {
    let (text, tags) = text.split_once('~').unwrap_or((text, ""));
    match TagExpr::parse(alloc, text) {
        Ok(expression) => {
            show(answer, " => ", holds(alloc, &expression, tags));
            drop(expression)
        }
        Err(fault) => push_refusal(answer, fault.number(), fault.place(), &fault),
    }
}
