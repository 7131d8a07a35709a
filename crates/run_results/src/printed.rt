//! How texts are printed.

ghost use Rattle.std.specs.Prelude.{◌≡◌, ◌++◌, ◌↔◌, IsTrue, All, OnOk, string_bytes, encode_utf8};
ghost use Rattle.run_results.specs.Printed.{printed_byte, cleaned, text_after};

use std::alloc::AllocError;

/// A character as it is printed: a control character as a space.
fn printed_char(c: char) -> char
    ensures { encode_utf8 result ≡ cleaned (encode_utf8 c) }
{
    if c.is_ascii_control() { ' ' } else { c }
}

/// Appends a text character by character.
fn push_chars(printed: &mut String, text: &str) -> Result<(), AllocError>
    ensures { OnOk result (string_bytes printed.new ≡ string_bytes printed.old ++ cleaned text.now) }
{
    for c in text.chars() {
        printed.push(printed_char(c))?;
    }
    Ok(())
}

/// Whether a text has no control byte.
fn is_clean(text: &[u8]) -> bool
    ensures { IsTrue result ↔ All (λ byte. printed_byte byte ≡ byte) text.now }
{
    text.iter().all(|byte| !byte.is_ascii_control())
}

/// Appends a text with each control byte as a space. One that has none is appended at once.
pub(crate) fn push_cleaned(printed: &mut String, text: &str) -> Result<(), AllocError>
    ensures { OnOk result (string_bytes printed.new ≡ string_bytes printed.old ++ cleaned text.now) }
{
    if is_clean(text.as_bytes()) {
        return printed.push_str(text);
    }
    push_chars(printed, text)
}

/// Appends a text after one space, with each control byte as a space; nothing for an empty text.
pub(crate) fn push_text(printed: &mut String, text: &str) -> Result<(), AllocError>
    ensures { OnOk result (string_bytes printed.new ≡ string_bytes printed.old ++ text_after text.now) }
{
    if text.is_empty() {
        return Ok(());
    }
    printed.push_str(" ")?;
    push_cleaned(printed, text)
}
