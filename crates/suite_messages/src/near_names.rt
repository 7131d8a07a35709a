//! The name in a suite that is nearest to that of a selector that covers nothing.

use crate::bytes::text_of;
use crate::line::{indentation, is_node};
use crate::lines::{class_names, named};
use crate::nearest::push_nearest;
use selectors::SelectorKind;
use std::alloc::{AllocError, Global};
use suite_words::Word;

/// The names of the tests and factories right below the classes of this name.
fn methods_of<'a>(
    alloc: Global,
    lines: &[&'a str],
    class: &str,
) -> Result<Vec<&'a str>, AllocError> {
    let mut methods = Vec::new(alloc);
    let mut inside = None;
    for line in lines {
        let (word, name) = named(line);
        if !is_node(word) {
            continue;
        }
        let indent = indentation(line);
        match Word::spelled(word) {
            Some(Word::Test) | Some(Word::Factory) if inside == Some(indent) => {
                methods.push(name)?
            }
            Some(Word::Class) if name == class => inside = Some(indent.saturating_add(2)),
            _ if inside.is_some_and(|below| indent < below) => inside = None,
            _ => {}
        }
    }
    Ok(methods)
}

/// Appends the class whose name ends in this one behind a dot, and else that whose name is nearest.
fn push_class(
    alloc: Global,
    text: &mut String,
    lines: &[&str],
    class: &str,
) -> Result<(), AllocError> {
    let names = class_names(alloc, lines)?;
    for name in names.as_slice() {
        if let Some(package) = name.strip_suffix(class) {
            if package.ends_with('.') {
                return write!(text, "; did you mean '{name}'?");
            }
        }
    }
    push_nearest(alloc, text, names.as_slice(), class)
}

/// Appends the name that is nearest to that of a selector of this kind, where one is near enough.
pub fn push_nearest_name(
    alloc: Global,
    text: &mut String,
    kind: SelectorKind,
    value: &str,
    suite: &[u8],
) -> Result<(), AllocError> {
    let lines: Vec<&str> = text_of(suite).0.lines().collect(alloc)?;
    match kind {
        SelectorKind::Class => push_class(alloc, text, lines.as_slice(), value),
        SelectorKind::Method => {
            let (class, method) = value.split_once('#').unwrap_or((value, ""));
            let methods = methods_of(alloc, lines.as_slice(), class)?;
            if methods.is_empty() {
                return push_class(alloc, text, lines.as_slice(), class);
            }
            push_nearest(alloc, text, methods.as_slice(), method)
        }
        SelectorKind::UniqueId | SelectorKind::Package | SelectorKind::Name => Ok(()),
    }
}
