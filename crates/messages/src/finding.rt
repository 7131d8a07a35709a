//! What of a configuration and of a suite has another effect than it seems to have.

use crate::hint::{Cause, Hints, Place};
use crate::keys::{ENABLED, cause_of_key};
use config_params::{pair_of, property_of};
use launch_options::{Given, Options};
use std::alloc::{AllocError, Global};
use suite_messages::{cut, text_of, without_front};
use suite_text::{Attribute, LineWord, Word, key_and_mode, key_and_value};

/// The key and the value of a property, if this line of a suite is one.
fn property_in(line: &str) -> Option<(&str, &str)> {
    let (first, _) = cut(line);
    if first != LineWord::Property.spelling() {
        return None;
    }
    match property_of(1, line.strip_prefix(first).unwrap_or("")) {
        Ok(Some(pair)) => Some((pair.key, pair.value)),
        _ => None,
    }
}

/// Whether this line of a suite declares an engine. A property stands before the first of these.
fn is_engine(line: &str) -> bool {
    matches!(Word::spelled(cut(line).0), Some(Word::Engine))
}

/// The value that the last of these lines has for a key.
fn value_in<'a>(lines: &'a str, key: &str) -> Option<&'a str> {
    let mut found = None;
    for line in lines.lines() {
        if is_engine(line) {
            return found;
        }
        if let Some((other, value)) = property_in(line) {
            if other == key {
                found = Some(value);
            }
        }
    }
    found
}

/// Whether parallel execution is off and nobody says so: no value of its key is `true`, nor `false`.
fn is_off(options: &Options, lines: &str) -> bool {
    let value = match options.params.get(ENABLED) {
        Some(value) => Some(value),
        None => value_in(lines, ENABLED),
    };
    match value {
        Some(value) => {
            !value.eq_ignore_ascii_case("true") && !value.eq_ignore_ascii_case("false")
        }
        None => true,
    }
}

/// Adds a hint about a key, if it is worth one.
fn add_key<'a>(
    alloc: Global,
    hints: &mut Hints<'a>,
    place: Place,
    is_off: bool,
    key: &'a str,
) -> Result<(), AllocError> {
    match cause_of_key(is_off, key) {
        Some(cause) => hints.add(alloc, place, cause, key),
        None => Ok(()),
    }
}

/// Adds the hints about the keys of these arguments.
fn add_words<'a>(
    alloc: Global,
    hints: &mut Hints<'a>,
    place: Place,
    is_off: bool,
    words: &[&'a str],
) -> Result<(), AllocError> {
    for word in words {
        if let Ok(pair) = pair_of(1, word) {
            add_key(alloc, &mut *hints, place, is_off, pair.key)?;
        }
    }
    Ok(())
}

/// The key of a lock without a mode whose last part, behind a colon, is none, if the word is one.
fn key_without_mode(word: &str) -> Option<&str> {
    let (_, value) = key_and_value(word);
    let (key, _) = key_and_mode(value);
    if key.len() == value.len() && key.contains(':') {
        Some(key)
    } else {
        None
    }
}

/// Adds the hints about the locks of a line that declares a node.
fn add_locks<'a>(
    alloc: Global,
    hints: &mut Hints<'a>,
    number: usize,
    line: &'a str,
) -> Result<(), AllocError> {
    let (first, rest) = cut(without_front(line));
    let Some(word) = Word::spelled(first) else {
        return Ok(());
    };
    let (_, mut left) = cut(rest);
    for _ in 0..left.len() {
        let (said, behind) = cut(left);
        match Attribute::of(word, said) {
            None => return Ok(()),
            Some(Attribute::Lock) => {
                if let Some(key) = key_without_mode(said) {
                    hints.add(alloc, Place::Line(number), Cause::LockKey, key)?;
                }
            }
            Some(_) => {}
        }
        left = behind;
    }
    Ok(())
}

/// Adds the hints about a line.
fn add_line<'a>(
    alloc: Global,
    hints: &mut Hints<'a>,
    number: usize,
    is_off: bool,
    line: &'a str,
) -> Result<(), AllocError> {
    if line.contains('\r') {
        hints.add(alloc, Place::Line(number), Cause::InnerReturn, "")?;
    }
    if let Some((key, _)) = property_in(line) {
        add_key(alloc, &mut *hints, Place::Line(number), is_off, key)?;
    }
    add_locks(alloc, hints, number, line)
}

/// Whether no line of a suite's text declares a node: a node stands below an engine.
fn has_no_engine(lines: &str) -> bool {
    !lines.lines().any(is_engine)
}

/// Whether a hint may be about a line behind the first engine: one of its locks, or a return in it.
fn has_locks_or_returns(lines: &str) -> bool {
    // mostly there is no equals sign, which is found sooner than a word
    lines.contains('=') && lines.contains("lock=") || lines.contains('\r')
}

/// Whether the suite of these bytes, which is read, names no node.
pub fn names_no_node(suite: &[u8]) -> bool {
    has_no_engine(text_of(suite).0)
}

/// What these values, of which these options were made, and the suite of these bytes, which is read,
/// say that has another effect than it seems to have: first what `--config` says, then `--system`,
/// then the suite, line by line, and at last that it names no node.
pub fn hints_of<'a>(
    alloc: Global,
    given: &Given<'a>,
    options: &Options,
    suite: &'a [u8],
) -> Result<Hints<'a>, AllocError> {
    let (lines, _) = text_of(suite);
    let is_off = is_off(options, lines);
    let mut hints = Hints::new(alloc);
    add_words(
        alloc,
        &mut hints,
        Place::Config,
        is_off,
        given.config.as_slice(),
    )?;
    add_words(
        alloc,
        &mut hints,
        Place::System,
        is_off,
        given.system.as_slice(),
    )?;
    let is_whole = has_locks_or_returns(lines);
    for (index, line) in lines.lines().enumerate() {
        if !is_whole && is_engine(line) {
            break;
        }
        let number = index.saturating_add(1);
        add_line(alloc, &mut hints, number, is_off, line)?;
    }
    if has_no_engine(lines) {
        hints.add(alloc, Place::Suite, Cause::NoNode, "")?;
    }
    Ok(hints)
}
