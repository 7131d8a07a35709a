//! Adding a node to a tree: `PARENT KIND ID`, and behind it `body=N`, `after=N`, `role=ROLE`,
//! `mode=MODE`, `lock=KEY`, `isolated=yes`, `tag=TAG`, `name=TEXT` and `disabled=TEXT` as wanted. A
//! TEXT or a KEY such as `r*1024` is an `r` so many times. A lock is wanted in READ behind `KEY:r`,
//! else in READ_WRITE.

use crate::tags::add_tag;
use crate::words::{cut, key_and_value, node_of, push_fault, say, show, text_of};
use descriptor::{
    BodyId, Kind, Lock, LockMode, Mode, Node, NodeId, NodeLimit, Role, TreeBuilder, TreeFault,
};
use std::alloc::Global;
use unique_id::{Text, UniqueId};

fn kind_of(word: &str) -> Kind {
    match word {
        "test" => Kind::Test,
        "both" => Kind::ContainerAndTest,
        _ => Kind::Container,
    }
}

fn role_of(word: &str) -> Role {
    match word {
        "factory" => Role::Factory,
        "spare" => Role::Spare,
        _ => Role::Plain,
    }
}

fn mode_of(word: &str) -> Mode {
    match word {
        "concurrent" => Mode::Concurrent,
        _ => Mode::SameThread,
    }
}

fn body_of(digits: &str) -> Option<BodyId> {
    Some(BodyId::new(digits.parse().ok()?))
}

/// A text so many times.
fn repeated(alloc: Global, item: &str, times: &str) -> Text {
    match item.repeat(alloc, times.parse().unwrap_or(0)) {
        Ok(text) => {
            let meant = text_of(alloc, text.as_str());
            drop(text);
            meant
        }
        Err(_) => Text::empty(),
    }
}

/// A text, or so many times one.
pub(crate) fn meant(alloc: Global, text: &str) -> Text {
    match text.split_once('*') {
        Some((item, times)) => repeated(alloc, item, times),
        None => text_of(alloc, text),
    }
}

/// Adds a lock.
fn add_lock(alloc: Global, node: &mut Node, word: &str) {
    let (key, end) = word.split_once(':').unwrap_or((word, ""));
    let mode = match end {
        "r" => LockMode::Read,
        _ => LockMode::ReadWrite,
    };
    let key = meant(alloc, key);
    let _ = node.locks.push(Lock { key, mode });
}

/// Gives a node what a token says for which no memory is taken, and tells whether it says that.
fn is_set(node: &mut Node, key: &str, value: &str) -> bool {
    match key {
        "body" => node.body = body_of(value),
        "after" => node.after = body_of(value),
        "role" => node.role = role_of(value),
        "mode" => node.mode = Some(mode_of(value)),
        "isolated" => node.isolated = true,
        _ => return false,
    }
    true
}

/// Gives a node what a token says.
fn attribute(alloc: Global, node: &mut Node, word: &str) {
    let (key, value) = key_and_value(word);
    match key {
        "name" => node.name = meant(alloc, value),
        "disabled" => node.disabled = Some(meant(alloc, value)),
        "lock" => add_lock(alloc, node, value),
        _ if is_set(node, key, value) => {}
        _ => add_tag(alloc, &mut node.tags, value),
    }
}

/// A node of this kind, named by its id, of which the tokens say more.
fn made(alloc: Global, kind: &str, id: UniqueId, words: &str) -> Node {
    let name = text_of(alloc, id.text());
    let mut node = Node::plain(alloc, id, name, kind_of(kind));
    for word in words.split(' ') {
        attribute(alloc, &mut node, word);
    }
    node
}

/// Adds the number of a node, or the refusal, to the answer.
fn push_number(answer: &mut String, number: Result<NodeId, TreeFault>) {
    match number {
        Ok(number) => show(answer, " => ", number.number()),
        Err(fault) => push_fault(answer, fault.number(), &fault),
    }
}

/// Adds a node with this id, and its number, or the refusal, to the answer.
fn push_identified(
    alloc: Global,
    answer: &mut String,
    builder: &mut TreeBuilder,
    parent: NodeId,
    (kind, id): (&str, UniqueId),
    words: &str,
) {
    if builder.may_take(parent) {
        let node = made(alloc, kind, id, words);
        push_number(answer, builder.add(alloc, NodeLimit::usual(), parent, node))
    } else {
        say(answer, " => closed");
        drop(id)
    }
}

/// Adds the number of the node that a line adds, or the refusal.
pub(crate) fn push_added(
    alloc: Global,
    answer: &mut String,
    builder: &mut TreeBuilder,
    line: &str,
) {
    let (parent, line) = cut(line);
    let (kind, line) = cut(line);
    let (id, words) = cut(line);
    match UniqueId::parse(alloc, id) {
        Ok(id) => push_identified(alloc, answer, builder, node_of(parent), (kind, id), words),
        Err(_) => say(answer, " => no id"),
    }
}
