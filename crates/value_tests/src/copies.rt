//! Copies say what they are copies of.

use crate::plans::node_of;
use descriptor::{Kind, Node};
use plan_events::{Outcome, Status};
use std::alloc::Global;
use tag_expr::{TagSet, tag_of};
use unique_id::{Segment, Text, UniqueId};

/// Whether a segment that is made of the copy of this one is the class a/b.
fn copies_class(alloc: Global, segment: &Segment) -> Option<bool> {
    let copy = segment.copy().ok()?;
    let made = Segment::new(alloc, copy.kind(), copy.value()).ok()?;
    Some(made.kind() == "class" && made.value() == "a/b")
}

/// Whether the copy of an id, of its last segment and of that one's value are the same.
fn copies_id(alloc: Global, id: &UniqueId) -> Option<bool> {
    let copy = id.copy(alloc).ok()?;
    let is_same = copy.same(id);
    let is_class = copies_class(alloc, copy.segments().last()?)?;
    Some(is_same && is_class)
}

/// Whether the copy of the id of a class, and of its parts, are the same.
fn copies_ids(alloc: Global) -> Option<bool> {
    let id = UniqueId::parse(alloc, "[engine:e]/[class:a%2Fb]").ok()?;
    copies_id(alloc, &id)
}

/// Adds the copy of a tag.
fn add_copy(alloc: Global, set: &mut TagSet, name: &str) -> Option<()> {
    let tag = tag_of(alloc, name).ok()?;
    let copy = tag.copy(alloc).ok()?;
    set.add(copy).ok()?;
    Some(())
}

/// Whether the copy of this set has the tag a alone.
fn copies_set(alloc: Global, set: &TagSet) -> Option<bool> {
    let copy = set.copy(alloc).ok()?;
    Some(copy.contains("a") && !copy.contains("b") && !copy.is_empty())
}

/// Whether the copy of a set to which a tag is added has that tag alone.
fn copies_sets(alloc: Global) -> Option<bool> {
    let mut set = TagSet::new(alloc);
    let was_empty = set.is_empty();
    add_copy(alloc, &mut set, "a")?;
    let is_copied = copies_set(alloc, &set)?;
    Some(was_empty && is_copied)
}

/// Disables a node for no reason, and gives it the tag slow.
fn declare(alloc: Global, node: &mut Node) -> Option<()> {
    node.disabled = Some(Text::new(alloc, "").ok()?);
    let slow = tag_of(alloc, "slow").ok()?;
    node.tags.add(slow).ok()?;
    Some(())
}

/// Whether the copy of a node has its id, its reason and its tag.
fn copies_declared(alloc: Global, node: &Node) -> Option<bool> {
    let copy = node.copy(alloc).ok()?;
    let reason = copy.disabled.as_ref().map(Text::as_str);
    Some(copy.id.text() == "[d:test]" && reason == Some("") && copy.tags.contains("slow"))
}

/// Whether the copy of a disabled node has its id, its reason and its tag.
fn copies_nodes(alloc: Global) -> Option<bool> {
    let id = UniqueId::of(alloc, "d", "test").ok()?;
    let mut node = node_of(alloc, id, "test", Kind::Test)?;
    declare(alloc, &mut node)?;
    copies_declared(alloc, &node)
}

/// Whether the copy of an outcome has its status and its text.
fn copies_outcome(outcome: &Outcome) -> Option<bool> {
    let copy = outcome.copy().ok()?;
    Some(copy.status == Status::Aborted && copy.text.as_str() == "no service")
}

/// Whether the copy of an aborted outcome has its status and its text.
fn copies_outcomes(alloc: Global) -> Option<bool> {
    let text = Text::new(alloc, "no service").ok()?;
    let status = Status::Aborted;
    copies_outcome(&Outcome { status, text })
}

pub(crate) fn copies_say_the_same(alloc: Global) -> bool {
    copies_ids(alloc) == Some(true)
        && copies_sets(alloc) == Some(true)
        && copies_nodes(alloc) == Some(true)
        && copies_outcomes(alloc) == Some(true)
}
