//! The nodes that failed, once more, and the arguments that select them.

ghost use Rattle.std.specs.Prelude.{◌≡◌, ◌<◌, ◌++◌, OnOk, IfOk, codes, string_bytes, true};
ghost use Rattle.std.specs.Fmt.{digit_glyph};
ghost use Rattle.std.specs.List.{flat_map, list_any};
ghost use Rattle.std.specs.Str.{chars};
ghost use Rattle.live.specs.FailedTexts.{escape_of, escapes_of};
ghost use Rattle.live.specs.FailedTexts.{failed_of, failure_lines, failure_word, heading, hint_of, more_line};
ghost use Rattle.live.specs.FailedTexts.{reason_line, selecting, selects_below, shell_char, title_of, word_of};

use crate::failure::Failure;
use crate::failures::Failures;
use crate::shown::push_shown;
use std::alloc::{AllocError, Global};

/// A hexadecimal digit, in upper case.
fn hex_digit(digit: u32) -> char
    requires { digit < 16 }
    ensures { result ≡ digit_glyph true digit }
{
    match char::from_digit(digit, 16) {
        Some(letter) => letter.to_ascii_uppercase(),
        None => '0',
    }
}

/// Appends a byte as a percent escape.
fn push_escape(text: &mut String, byte: u32) -> Result<(), AllocError>
    ensures { OnOk result (string_bytes text.new ≡ string_bytes text.old ++ escape_of byte) }
{
    text.push_str("%")?;
    text.push(hex_digit(byte / 16 % 16))?;
    text.push(hex_digit(byte % 16))
}

/// Appends a control character as the percent escapes of its bytes.
fn push_escapes(text: &mut String, c: char) -> Result<(), AllocError>
    ensures { OnOk result (string_bytes text.new ≡ string_bytes text.old ++ escapes_of c) }
{
    if !c.is_ascii() {
        text.push_str("%C2")?;
    }
    push_escape(text, u32::from(c))
}

/// Appends a character of an id as it stands between the quotes of a shell's argument.
fn push_char(text: &mut String, c: char) -> Result<(), AllocError>
    ensures { OnOk result (string_bytes text.new ≡ string_bytes text.old ++ shell_char c) }
{
    match c {
        '\'' => text.push_str("'\\''"),
        _ if c.is_control() => push_escapes(text, c),
        _ => text.push(c),
    }
}

/// Appends the characters of an id as they stand between the quotes of a shell's argument.
fn push_escaped(text: &mut String, id: &str) -> Result<(), AllocError>
    ensures { OnOk result (string_bytes text.new ≡ string_bytes text.old ++ flat_map shell_char (chars id.now)) }
{
    for c in id.chars() {
        push_char(text, c)?;
    }
    Ok(())
}

/// Appends the arguments that select the node with this id.
fn push_word(text: &mut String, option: &str, id: &str) -> Result<(), AllocError>
    ensures { OnOk result (string_bytes text.new ≡ string_bytes text.old ++ word_of option.now id.now) }
{
    write!(text, " --{option} '")?;
    push_escaped(text, id)?;
    text.push_str("'")
}

/// Appends the line of a reason, if it is not empty.
fn push_reason(text: &mut String, reason: &str) -> Result<(), AllocError>
    ensures { OnOk result (string_bytes text.new ≡ string_bytes text.old ++ reason_line reason.now) }
{
    if reason.is_empty() {
        return Ok(());
    }
    text.push_str("    => ")?;
    push_shown(text, reason)?;
    text.push_str("\n")
}

/// Appends the lines of a node that failed.
fn push_failure(text: &mut String, failure: &Failure) -> Result<(), AllocError>
    ensures { OnOk result (string_bytes text.new ≡ string_bytes text.old ++ failure_lines failure.now) }
{
    text.push_str("  ")?;
    push_shown(text, failure.name.as_str())?;
    text.push_str("\n    ")?;
    push_shown(text, failure.id.as_str())?;
    text.push_str("\n")?;
    push_reason(text, failure.text.as_str())
}

/// Appends the lines of the nodes that are kept.
fn push_failures(text: &mut String, failures: &[Failure]) -> Result<(), AllocError>
    ensures { OnOk result (string_bytes text.new ≡ string_bytes text.old ++ flat_map failure_lines failures.now) }
{
    for failure in failures {
        push_failure(text, failure)?;
    }
    Ok(())
}

/// Appends the line that says how many others failed, if some did.
fn push_more(text: &mut String, more: u32) -> Result<(), AllocError>
    ensures { OnOk result (string_bytes text.new ≡ string_bytes text.old ++ more_line more) }
{
    if more == 0 {
        return Ok(());
    }
    writeln!(text, "  and {more} more")
}

/// Appends the arguments that select the node, if they name it.
fn push_failure_word(text: &mut String, option: &str, failure: &Failure) -> Result<(), AllocError>
    ensures { OnOk result (string_bytes text.new ≡ string_bytes text.old ++ failure_word option.now failure.now) }
{
    if failure.naming.is_named() {
        push_word(text, option, failure.id.as_str())?;
    }
    Ok(())
}

/// Appends the arguments that select these nodes.
fn push_words(text: &mut String, option: &str, failures: &[Failure]) -> Result<(), AllocError>
    ensures { OnOk result (string_bytes text.new ≡ string_bytes text.old
        ++ flat_map (failure_word option.now) failures.now) }
{
    for failure in failures {
        push_failure_word(text, option, failure)?;
    }
    Ok(())
}

/// What the arguments select.
fn heading(are_some: bool, selects_below: bool) -> &'static str
    ensures { result.now ≡ heading are_some selects_below }
{
    match (are_some, selects_below) {
        (false, false) => "To select just these, a dynamic test with its factory:\n ",
        (false, true) => {
            "To select these and what is below them, a dynamic test with its factory:\n "
        }
        (true, false) => "To select just the first of these, a dynamic test with its factory:\n ",
        (true, true) => {
            "To select the first of these and what is below them, a dynamic test with its factory:\n "
        }
    }
}

/// Whether more is selected than the nodes that the arguments name.
fn any_selects_below(failures: &[Failure]) -> bool
    ensures { result ≡ list_any selects_below failures.now }
{
    failures.iter().any(|failure| failure.selects_below())
}

/// Appends the arguments that select what failed, and what they select.
fn push_selecting(text: &mut String, option: &str, failures: &Failures) -> Result<(), AllocError>
    ensures { OnOk result (string_bytes text.new ≡ string_bytes text.old ++ selecting option.now failures.now) }
{
    let kept = failures.kept.as_slice();
    let what = heading(failures.are_some(), any_selects_below(kept));
    text.push_str(what)?;
    push_words(text, option, kept)?;
    text.push_str("\n")?;
    Ok(())
}

/// Appends what is said behind the failures.
fn push_hint(text: &mut String, option: &str, failures: &Failures) -> Result<(), AllocError>
    ensures { OnOk result (string_bytes text.new ≡ string_bytes text.old ++ hint_of option.now failures.now) }
{
    if failures.kept.is_empty() {
        return Ok(());
    }
    push_selecting(text, option, failures)
}

/// Appends how many nodes failed.
fn push_title(text: &mut String, failures: &Failures) -> Result<(), AllocError>
    ensures { OnOk result (string_bytes text.new ≡ string_bytes text.old ++ title_of failures.now) }
{
    let count = failures.kept.len() as u64 + u64::from(failures.more);
    writeln!(text, "Failures ({count}):")
}

/// How many nodes failed; of those that are kept the name, the unique id and the reason; how many
/// others there are; and the arguments, with an option that has ids, which select them.
pub fn failed_text(alloc: Global, option: &str, failures: &Failures) -> Result<String, AllocError>
    ensures { IfOk result (λ text. string_bytes text ≡ failed_of option.now failures.now) }
{
    let mut text = String::new(alloc);
    push_title(&mut text, failures)?;
    push_failures(&mut text, failures.kept.as_slice())?;
    push_more(&mut text, failures.more)?;
    push_hint(&mut text, option, failures)?;
    Ok(text)
}
