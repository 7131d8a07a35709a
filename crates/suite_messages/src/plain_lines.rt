//! Lines without what a terminal would take for more than text.

ghost use Rattle.std.specs.Prelude.{◌≡◌, string_bytes, true};
ghost use Rattle.suite_messages.specs.Printable.{HasNoControl, is_of_lines};

use std::alloc::{AllocError, Global};

/// A character of a line: a control character as a question mark, but an end of line as it is.
fn line_char(c: char) -> char
    ensures { is_of_lines result ≡ true }
{
    if c == '\n' || !c.is_control() { c } else { '?' }
}

/// Appends lines as they are printed.
fn push_printable(text: &mut String, lines: &str) -> Result<(), AllocError>
    ensures { HasNoControl (string_bytes text.old) → HasNoControl (string_bytes text.new) }
{
    for c in lines.chars() {
        text.push(line_char(c))?;
    }
    Ok(())
}

/// Lines as they are printed, with a question mark for each control character but the ends of lines;
/// as much of them as there is memory for.
pub fn printable(alloc: Global, lines: &str) -> String
    ensures { HasNoControl (string_bytes result) }
{
    let mut text = String::new(alloc);
    let _ = push_printable(&mut text, lines);
    text
}
