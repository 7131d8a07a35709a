//! Reads a line of a feed.

ghost use Rattle.std.specs.Prelude.{◌≡◌, take, drop, IfOk};
ghost use Rattle.std.specs.List.{list_any};
ghost use Rattle.saved_runs.specs.FeedLines.{first_word, after_word, is_worker, begins_with_slash, ends_id, id_len, is_colon};
ghost use Rattle.saved_runs.specs.FeedLines.{node_ended, node_line, behind_worker, is_note, note_line, feed_line};

use crate::told::{Told, node_told, plan_told};
use std::alloc::{AllocError, Global};
use suite_words::is_number;

/// The text up to its first space, and what follows that space.
fn cut_at_space(text: &str) -> (&str, &str)
    ensures word { result.0.now ≡ first_word text.now }
    ensures rest { result.1.now ≡ after_word text.now }
{
    match text.split_once(' ') {
        Some((word, rest)) => (word, rest),
        None => (text, ""),
    }
}

/// Whether a token is a worker's.
fn is_worker(word: &str) -> bool
    ensures { result ≡ is_worker word.now }
{
    match word.strip_prefix('w') {
        Some(digits) => is_number(digits),
        None => false,
    }
}

fn begins_with_slash(text: &[u8]) -> bool
    ensures { result ≡ begins_with_slash text.now }
{
    match text.split_first() {
        Some((byte, _)) => *byte == b'/',
        None => false,
    }
}

/// Whether an id ends with this byte, before these.
fn ends_id(byte: u8, rest: &[u8]) -> bool
    ensures { result ≡ ends_id byte rest.now }
{
    byte == b']' && !begins_with_slash(rest)
}

/// How many bytes an id at the front of a text takes.
fn id_len(text: &[u8]) -> usize
    ensures { result ≡ id_len text.now }
{
    let mut len = 0;
    let mut left = text;
    while let Some((byte, rest)) = left.split_first() {
        len += 1;
        if ends_id(*byte, rest) {
            return len;
        }
        left = rest;
    }
    len
}

/// The id that a text begins with, as it is written, and what stands behind it.
fn cut_behind_id(text: &str) -> (&str, &str)
    ensures id { result.0.now ≡ take (id_len text.now) text.now }
    ensures behind { result.1.now ≡ drop (id_len text.now) text.now }
{
    text.split_at(id_len(text.as_bytes()))
}

/// What is told of a node with this id, if only a space stands between the id and how it ended.
fn node_ended(alloc: Global, word: &str, id: &str, behind: &str) -> Result<Option<Told>, AllocError>
    ensures { IfOk result (λ told. told ≡ node_ended word.now id.now behind.now) }
{
    let (between, ending) = cut_at_space(behind);
    if !between.is_empty() {
        return Ok(None);
    }
    let (status, _) = cut_at_space(ending);
    node_told(alloc, word, id, status)
}

/// What is told of a node behind the name of what happened.
fn node_line(alloc: Global, word: &str, rest: &str) -> Result<Option<Told>, AllocError>
    ensures { IfOk result (λ told. told ≡ node_line word.now rest.now) }
{
    let (id, behind) = cut_behind_id(rest);
    node_ended(alloc, word, id, behind)
}

/// What a line tells behind its worker's token.
fn behind_worker(alloc: Global, rest: &str) -> Result<Option<Told>, AllocError>
    ensures { IfOk result (λ told. told ≡ behind_worker rest.now) }
{
    let (word, rest) = cut_at_space(rest);
    if word == "plan" {
        return Ok(plan_told(rest));
    }
    node_line(alloc, word, rest)
}

fn has_colon(word: &str) -> bool
    ensures { result ≡ list_any is_colon word.now }
{
    word.as_bytes().contains(&b':')
}

/// Whether a line is a warning or a schedule.
fn is_note(line: &str) -> bool
    ensures { result ≡ is_note line.now }
{
    let (word, _) = cut_at_space(line);
    word == "WARNING" || line == "no schedule was found" || has_colon(word)
}

/// A warning or a schedule.
fn note_line(line: &str) -> Option<Told>
    ensures { result ≡ note_line line.now }
{
    if is_note(line) {
        Some(Told::Note)
    } else {
        None
    }
}

/// What a line of a feed tells, if it is one.
pub(crate) fn feed_line(alloc: Global, line: &str) -> Result<Option<Told>, AllocError>
    ensures { IfOk result (λ told. told ≡ feed_line line.now) }
{
    let (word, rest) = cut_at_space(line);
    if is_worker(word) {
        return behind_worker(alloc, rest);
    }
    Ok(note_line(line))
}
