//! Questions about texts: what is asked, a blank and the text.

use crate::escapes::push_plain;
use crate::events::push_event;
use crate::trees::push_suite_answer;
use crate::words::{cut, say, subject_and_text};
use crate::{ids, moments, saved, settings, suites, tags};
use std::alloc::Global;
use unique_id::UniqueId;

/// Adds the answer to what is asked of the text of an id, a tag or a selector.
fn push_named(alloc: Global, answer: &mut String, asked: &str, text: &str) {
    match asked {
        "id" => ids::push_id(answer, UniqueId::parse(alloc, text)),
        "make" => ids::push_id(answer, ids::made(alloc, text)),
        "segments" => ids::push_segments(alloc, answer, text),
        "pair" => ids::push_pair(alloc, answer, text),
        "tag" => tags::push_tag(alloc, answer, text),
        "expr" => tags::push_truth(alloc, answer, text),
        "selector" => suites::push_selector(alloc, answer, text),
        _ => say(answer, " => ?"),
    }
}

/// Adds the answer to what is asked of a text.
fn push_asked(alloc: Global, answer: &mut String, asked: &str, text: &str) {
    match asked {
        "suite" => push_suite_answer(alloc, answer, text, "size", ""),
        "said" => {
            let (key, text) = subject_and_text(text);
            push_suite_answer(alloc, answer, text, "said", key)
        }
        "test" => suites::push_test_line(alloc, answer, text),
        "steps" => suites::push_steps(alloc, answer, text),
        "word" => push_event(answer, text),
        "again" => saved::push_again(alloc, answer, text),
        "moment" => moments::push_moment(alloc, answer, text),
        "get" | "settings" => settings::push_settings_row(alloc, answer, asked, text),
        _ => push_named(alloc, answer, asked, text),
    }
}

/// Adds the answer to a line, where it asks: an empty one does not, and one that begins with `#` is a heading.
pub(crate) fn push_answer(alloc: Global, answer: &mut String, line: &str) {
    if line.is_empty() || line.starts_with('#') {
        return;
    }
    let (asked, text) = cut(line);
    let mut plain = String::new(alloc);
    push_plain(alloc, &mut plain, text);
    push_asked(alloc, answer, asked, plain.as_str());
    drop(plain)
}
