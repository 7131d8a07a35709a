//! What all subjects share: how a line is cut, and how a refusal is told.

use descriptor::NodeId;
use std::alloc::Global;
use std::fmt::{Debug, Display};
use unique_id::Text;

/// What the keys of a configuration begin with.
pub(crate) const PREFIX: &str = "junit.jupiter.execution.parallel.";

/// What stands before the first blank, and what behind it.
pub(crate) fn cut(text: &str) -> (&str, &str) {
    text.split_once(' ').unwrap_or((text, ""))
}

/// The two sides of an assignment.
pub(crate) fn key_and_value(word: &str) -> (&str, &str) {
    word.split_once('=').unwrap_or((word, ""))
}

/// What stands before the first bar, and what behind it.
pub(crate) fn subject_and_text(text: &str) -> (&str, &str) {
    text.split_once('|').unwrap_or((text, ""))
}

/// The node of this number.
pub(crate) fn node_of(digits: &str) -> NodeId {
    NodeId::new(digits.parse().unwrap_or(0))
}

/// Adds a text.
pub(crate) fn say(answer: &mut String, text: &str) {
    let _ = answer.push_str(text);
}

/// The text of these characters.
pub(crate) fn text_of(alloc: Global, said: &str) -> Text {
    Text::new(alloc, said).unwrap_or(Text::empty())
}

/// Adds a text, and a value behind it.
pub(crate) fn show<T: Display + Copy>(answer: &mut String, text: &str, value: T) {
    let _ = write!(answer, "{text}{value}");
}

/// Adds a text, and behind it a value as it would be written in a program.
pub(crate) fn quote<T: Debug + Copy>(answer: &mut String, text: &str, value: T) {
    let _ = write!(answer, "{text}{value:?}");
}

/// Adds a refusal: its number, where it is about a place that place, and what it says.
pub(crate) fn push_refusal<F: Display, P: Display + Copy>(
    answer: &mut String,
    number: u8,
    place: Option<P>,
    fault: &F,
) {
    show(answer, " => error ", number);
    if let Some(place) = place {
        show(answer, " at ", place);
    }
    let _ = write!(answer, ": {fault}");
}

/// Adds a refusal that is about no place.
pub(crate) fn push_fault<F: Display>(answer: &mut String, number: u8, fault: &F) {
    push_refusal(answer, number, None::<u8>, fault)
}
