//! A hint: something that a configuration or a suite says, and that has another effect than it seems to have.

use crate::keys::read_keys;
use std::alloc::{AllocError, Global};
use suite_messages::nearest_known;

/// How many hints are kept at most.
const MOST_KEPT: usize = 10;

/// How many bytes of a text are kept at most.
const MOST_SHOWN: usize = 100;

/// Where a hint is about.
#[derive(Clone, Copy, Drop)]
pub enum Place {
    /// An argument of `--config`.
    Config,
    /// An argument of `--system`.
    System,
    /// A line of the suite, from 1.
    Line(usize),
    /// The whole suite.
    Suite,
}

/// Why a hint is given.
#[derive(Clone, Copy, Drop)]
pub enum Cause {
    /// Nobody reads the key.
    UnreadKey,
    /// The key changes nothing but where parallel execution is enabled.
    IdleSetting,
    /// The key of a lock ends in a part behind a colon that is no mode.
    LockKey,
    /// A carriage return stands inside a line.
    InnerReturn,
    /// No line declares a node.
    NoNode,
}

/// A hint: where it is about, why it is given, the key that it is about, and the key that may have
/// been meant.
#[derive(Clone, Copy, Drop)]
pub struct Hint<'a> {
    pub place: Place,
    pub cause: Cause,
    pub text: &'a str,
    pub meant: Option<&'a str>,
}

/// The first hints, ten at most, and how many others there are.
#[derive(Drop)]
pub struct Hints<'a> {
    pub kept: Vec<Hint<'a>>,
    pub more: u32,
}

/// The front of a text, as much of it as is kept.
fn shortened(text: &str) -> &str {
    match text.split_at_checked(text.floor_char_boundary(MOST_SHOWN)) {
        Some((front, _)) => front,
        None => "",
    }
}

/// The key that may have been meant, where nobody reads this one.
fn meant<'a>(alloc: Global, cause: Cause, text: &str) -> Result<Option<&'a str>, AllocError> {
    match cause {
        Cause::UnreadKey => nearest_known(alloc, read_keys().as_slice(), text),
        _ => Ok(None),
    }
}

impl<'a> Hints<'a> {
    /// Before the first hint.
    pub(crate) fn new(alloc: Global) -> Hints<'a> {
        Hints {
            kept: Vec::new(alloc),
            more: 0,
        }
    }

    /// Adds a hint.
    pub(crate) fn add(
        &mut self,
        alloc: Global,
        place: Place,
        cause: Cause,
        text: &'a str,
    ) -> Result<(), AllocError> {
        if self.kept.len() >= MOST_KEPT {
            self.more = self.more.saturating_add(1);
            return Ok(());
        }
        self.kept.push(Hint {
            place,
            cause,
            text: shortened(text),
            meant: meant(alloc, cause, text)?,
        })?;
        Ok(())
    }

    /// Whether there is no hint.
    pub fn are_none(&self) -> bool {
        self.kept.is_empty()
    }
}
