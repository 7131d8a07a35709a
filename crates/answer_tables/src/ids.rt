//! Questions about unique ids.

use crate::words::{cut, key_and_value, push_refusal, quote, say, show};
use std::alloc::Global;
use unique_id::{Segment, UidFault, UniqueId};

/// Adds the canonical text of an id that was read or made, or the refusal.
pub(crate) fn push_id(answer: &mut String, id: Result<UniqueId, UidFault>) {
    match id {
        Ok(id) => {
            quote(answer, " => ", id.text());
            drop(id)
        }
        Err(fault) => push_refusal(answer, fault.number(), fault.place(), &fault),
    }
}

/// Adds how many segments there are, and the kind and the value of each, as they are meant.
fn push_each(answer: &mut String, segments: &[Segment]) {
    show(answer, " => ", segments.len());
    say(answer, " segments");
    for segment in segments {
        quote(answer, "; ", segment.kind());
        quote(answer, " ", segment.value());
    }
}

/// Adds the segments of the id that is read.
pub(crate) fn push_segments(alloc: Global, answer: &mut String, text: &str) {
    match UniqueId::parse(alloc, text) {
        Ok(id) => {
            push_each(answer, id.segments());
            drop(id)
        }
        Err(_) => say(answer, " => no id"),
    }
}

/// The id to which each of the segments is appended, or the first refusal.
fn joined(alloc: Global, first: UniqueId, pairs: &str) -> Result<UniqueId, UidFault> {
    let mut id = first;
    for pair in pairs.split(" / ") {
        let (kind, value) = key_and_value(pair);
        id = id.append(alloc, kind, value)?;
    }
    Ok(id)
}

/// The id of one segment, `KIND=VALUE`.
fn short(alloc: Global, pair: &str) -> Result<UniqueId, UidFault> {
    let (kind, value) = key_and_value(pair);
    UniqueId::of(alloc, kind, value)
}

/// The id of `KIND=VALUE / KIND=VALUE`.
pub(crate) fn made(alloc: Global, text: &str) -> Result<UniqueId, UidFault> {
    match text.split_once(" / ") {
        Some((first, more)) => joined(alloc, short(alloc, first)?, more),
        None => short(alloc, text),
    }
}

/// Adds how an id stands to that of a text: whether it begins that one, and whether they are the same.
fn push_beside(alloc: Global, answer: &mut String, one: &UniqueId, other: &str) {
    match UniqueId::parse(alloc, other) {
        Ok(other) => {
            show(answer, " => begins ", one.is_prefix_of(&other));
            show(answer, ", same ", one.same(&other));
            drop(other)
        }
        Err(_) => say(answer, " => no ids"),
    }
}

/// Adds how two ids with a blank between them stand to each other.
pub(crate) fn push_pair(alloc: Global, answer: &mut String, text: &str) {
    let (one, other) = cut(text);
    match UniqueId::parse(alloc, one) {
        Ok(one) => {
            push_beside(alloc, answer, &one, other);
            drop(one)
        }
        Err(_) => say(answer, " => no ids"),
    }
}
