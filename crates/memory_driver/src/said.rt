//! What is said of values: a text, and whether there was memory for all of it.

use std::alloc::Global;
use std::fmt::{Debug, Display};

/// A text that is put together. Behind a piece for which there was no memory nothing is added.
#[derive(Drop)]
pub(crate) struct Said {
    text: String,
    is_cut: bool,
}

impl Said {
    /// No text yet.
    pub(crate) fn new(alloc: Global) -> Said {
        Said {
            text: String::new(alloc),
            is_cut: false,
        }
    }

    /// Adds a text.
    pub(crate) fn add(&mut self, text: &str) {
        if !self.is_cut {
            self.is_cut = self.text.push_str(text).is_err();
        }
    }

    /// Adds a text, and a value behind it.
    pub(crate) fn show<T: Display + Copy>(&mut self, text: &str, value: T) {
        if !self.is_cut {
            self.is_cut = write!(self.text, "{text}{value}").is_err();
        }
    }

    /// Adds a text, and behind it a value as it would be written in a program.
    pub(crate) fn quote<T: Debug>(&mut self, text: &str, value: &T) {
        if !self.is_cut {
            self.is_cut = write!(self.text, "{text}{value:?}").is_err();
        }
    }

    /// Adds that a call was refused, with this number.
    pub(crate) fn refuse(&mut self, number: u8) {
        self.show("refused ", number)
    }

    /// The text.
    pub(crate) fn text(&self) -> &str {
        self.text.as_str()
    }

    /// Whether memory was wanting for a part of it.
    pub(crate) fn is_cut(&self) -> bool {
        self.is_cut
    }
}
