//! A text as a terminal is shown it.

ghost use Rattle.std.specs.Prelude.{◌≡◌, ◌++◌, OnOk, string_bytes};
ghost use Rattle.live.specs.Shown.{shown, shown_char};

use std::alloc::AllocError;

/// Appends a character as it is shown: a control character as a space.
fn push_shown_char(text: &mut String, c: char) -> Result<(), AllocError>
    ensures { OnOk result (string_bytes text.new ≡ string_bytes text.old ++ shown_char c) }
{
    if c.is_control() {
        text.push_str(" ")
    } else {
        text.push(c)
    }
}

/// Appends a text as it is shown.
pub(crate) fn push_shown(text: &mut String, piece: &str) -> Result<(), AllocError>
    ensures { OnOk result (string_bytes text.new ≡ string_bytes text.old ++ shown piece.now) }
{
    for c in piece.chars() {
        push_shown_char(text, c)?;
    }
    Ok(())
}
