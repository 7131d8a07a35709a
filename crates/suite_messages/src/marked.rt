//! A text with a mark below one of its places.

ghost use Rattle.std.specs.Prelude.{◌≡◌, ◌≤◌, ◌++◌, IfOk, OnOk, length, string_bytes};
ghost use Rattle.suite_messages.specs.Marks.{marked_of, shown, shown_char};

use std::alloc::{AllocError, Global};
use unicode_width::UnicodeWidthStr;

/// How many bytes of a text are shown at most on either side of its mark.
const MOST_SHOWN: usize = 60;

/// Appends a character as it is shown: a control character as a question mark.
fn push_shown_char(text: &mut String, c: char) -> Result<(), AllocError>
    ensures { OnOk result (string_bytes text.new ≡ string_bytes text.old ++ shown_char c) }
{
    text.push(if c.is_control() { '?' } else { c })
}

/// Appends a text as it is shown.
pub fn push_shown(text: &mut String, piece: &str) -> Result<(), AllocError>
    ensures { OnOk result (string_bytes text.new ≡ string_bytes text.old ++ shown piece.now) }
{
    for c in piece.chars() {
        push_shown_char(text, c)?;
    }
    Ok(())
}

/// A text as it is shown.
fn shown(alloc: Global, text: &str) -> Result<String, AllocError>
    ensures { IfOk result (λ shown_text. string_bytes shown_text ≡ shown text.now) }
{
    let mut shown_text = String::new(alloc);
    push_shown(&mut shown_text, text)?;
    Ok(shown_text)
}

/// What stands before the mark and behind it, with the mark below the place between them: below the
/// column at which a terminal shows what stands behind.
fn marked(alloc: Global, before: &str, behind: &str) -> Result<String, AllocError>
    ensures { IfOk result (λ text. string_bytes text ≡ marked_of before.now behind.now) }
{
    let front = shown(alloc, before)?;
    let back = shown(alloc, behind)?;
    let spaces = " ".repeat(alloc, front.as_str().width())?;
    format!(in alloc; "    {front}{back}\n    {spaces}^\n")
}

/// The end of a text, as much of it as is shown.
fn end_shown(text: &str) -> &str
    ensures { length result.now ≤ 60 }
{
    match text.split_at_checked(text.ceil_char_boundary(text.len().saturating_sub(MOST_SHOWN))) {
        Some((_, end)) => end,
        None => "",
    }
}

/// The front of a text, as much of it as is shown.
fn front_shown(text: &str) -> &str
    ensures { length result.now ≤ 60 }
{
    match text.split_at_checked(text.floor_char_boundary(MOST_SHOWN)) {
        Some((front, _)) => front,
        None => "",
    }
}

/// Appends a text, or what of it is near to this byte, and a mark below the byte. Where no
/// character begins there, the mark stands behind the text.
pub fn push_marked(
    alloc: Global,
    text: &mut String,
    line: &str,
    at: usize,
) -> Result<(), AllocError> {
    let (before, behind) = line.split_at_checked(at).unwrap_or((line, ""));
    let marked = marked(alloc, end_shown(before), front_shown(behind))?;
    text.push_str(marked.as_str())
}

/// Appends a text with a mark below the place from which on it is this rest.
pub(crate) fn push_marked_rest(
    alloc: Global,
    text: &mut String,
    line: &str,
    rest: &str,
) -> Result<(), AllocError> {
    push_marked(alloc, text, line, line.len().saturating_sub(rest.len()))
}
