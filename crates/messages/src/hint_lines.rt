//! The lines of hints.

ghost use Rattle.std.specs.Prelude.{◌≡◌, ◌+◌, ◌++◌, IfOk, OnOk, codes, length, option_map, string_bytes};
ghost use Rattle.std.specs.Fmt.{decimal};
ghost use Rattle.std.specs.List.{flat_map};
ghost use Rattle.messages.specs.Hints.{hint_line, hints_text, meant_text, more_line, place_text, quoted, said_text};

use crate::hint::{Cause, Hint, Hints, Place};
use std::alloc::{AllocError, Global};
use suite_messages::push_shown;

/// Appends a text between quotes, as it is shown.
fn push_quoted(text: &mut String, piece: &str) -> Result<(), AllocError>
    ensures { OnOk result (string_bytes text.new ≡ string_bytes text.old ++ quoted piece.now) }
{
    text.push_str("'")?;
    push_shown(text, piece)?;
    text.push_str("'")
}

/// Appends where a hint is about.
fn push_place(text: &mut String, place: Place) -> Result<(), AllocError>
    ensures { OnOk result (string_bytes text.new ≡ string_bytes text.old ++ place_text place) }
{
    match place {
        Place::Config => text.push_str("--config"),
        Place::System => text.push_str("--system"),
        Place::Line(number) => write!(text, "line {number}"),
        Place::Suite => text.push_str("the suite"),
    }
}

/// Appends the key that may have been meant, if there is one.
fn push_meant(text: &mut String, meant: Option<&str>) -> Result<(), AllocError>
    ensures { OnOk result (string_bytes text.new ≡ string_bytes text.old
        ++ meant_text (option_map (λ key. key.now) meant.entry)) }
{
    match meant {
        Some(key) => write!(text, "; did you mean '{key}'?"),
        None => Ok(()),
    }
}

/// Appends that nobody reads a key.
fn push_unread(text: &mut String, key: &str, meant: Option<&str>) -> Result<(), AllocError>
    ensures { OnOk result (string_bytes text.new ≡ string_bytes text.old ++ (codes "nobody reads the key "
        ++ (quoted key.now ++ meant_text (option_map (λ key. key.now) meant.entry)))) }
{
    text.push_str("nobody reads the key ")?;
    push_quoted(text, key)?;
    push_meant(text, meant)
}

/// Appends that a setting changes nothing.
fn push_idle(text: &mut String, key: &str) -> Result<(), AllocError>
    ensures { OnOk result (string_bytes text.new ≡ string_bytes text.old ++ (quoted key.now
        ++ codes " changes nothing, since parallel execution is off: it is on with --workers N, or with junit.jupiter.execution.parallel.enabled=true")) }
{
    push_quoted(text, key)?;
    text.push_str(
        " changes nothing, since parallel execution is off: it is on with --workers N, or with junit.jupiter.execution.parallel.enabled=true",
    )
}

/// Appends which key a lock has.
fn push_lock(text: &mut String, key: &str) -> Result<(), AllocError>
    ensures { OnOk result (string_bytes text.new ≡ string_bytes text.old ++ (codes "the key of this lock is "
        ++ (quoted key.now ++ codes ", since no mode stands behind it: a lock is lock=KEY, lock=KEY:r or lock=KEY:rw"))) }
{
    text.push_str("the key of this lock is ")?;
    push_quoted(text, key)?;
    text.push_str(", since no mode stands behind it: a lock is lock=KEY, lock=KEY:r or lock=KEY:rw")
}

/// Appends what is said for this cause.
fn push_said(text: &mut String, hint: &Hint<'_>) -> Result<(), AllocError>
    ensures { OnOk result (string_bytes text.new ≡ string_bytes text.old ++ said_text hint.now.cause hint.now.text.now
        (option_map (λ key. key.now) hint.now.meant)) }
{
    match hint.cause {
        Cause::UnreadKey => push_unread(text, hint.text, hint.meant),
        Cause::IdleSetting => push_idle(text, hint.text),
        Cause::LockKey => push_lock(text, hint.text),
        Cause::InnerReturn => text.push_str(
            "a carriage return stands inside the line, and does not end it: a line ends in LF or CR LF",
        ),
        Cause::NoNode => text.push_str(
            "it is empty, so nothing was run: a suite begins with a line as 'engine NAME', and --suite FILE reads one from a file",
        ),
    }
}

/// Appends the line of a hint.
fn push_hint(text: &mut String, hint: &Hint<'_>) -> Result<(), AllocError>
    ensures { OnOk result (string_bytes text.new ≡ string_bytes text.old ++ hint_line hint.now) }
{
    text.push_str("  ")?;
    push_place(text, hint.place)?;
    text.push_str(": ")?;
    push_said(text, hint)?;
    text.push_str("\n")
}

/// Appends the lines of hints.
fn push_hints(text: &mut String, hints: &[Hint<'_>]) -> Result<(), AllocError>
    ensures { OnOk result (string_bytes text.new ≡ string_bytes text.old ++ flat_map hint_line hints.now) }
{
    for hint in hints {
        push_hint(text, hint)?;
    }
    Ok(())
}

/// Appends the line that says how many others there are, if there are some.
fn push_more(text: &mut String, more: u32) -> Result<(), AllocError>
    ensures { OnOk result (string_bytes text.new ≡ string_bytes text.old ++ more_line more) }
{
    if more == 0 {
        return Ok(());
    }
    writeln!(text, "  and {more} more")
}

/// Appends how many hints there are.
fn push_title(text: &mut String, hints: &Hints<'_>) -> Result<(), AllocError>
    ensures { OnOk result (string_bytes text.new ≡ string_bytes text.old
        ++ (codes "Hints (" ++ (decimal (length hints.now.kept.items + hints.now.more) ++ codes "):\n"))) }
{
    let count = hints.kept.len() as u64 + u64::from(hints.more);
    writeln!(text, "Hints ({count}):")
}

/// How many hints there are, a line for each of the first, and how many others there are.
pub fn hints_text(alloc: Global, hints: &Hints<'_>) -> Result<String, AllocError>
    ensures { IfOk result (λ text. string_bytes text ≡ hints_text hints.now) }
{
    let mut text = String::new(alloc);
    push_title(&mut text, hints)?;
    push_hints(&mut text, hints.kept.as_slice())?;
    push_more(&mut text, hints.more)?;
    Ok(text)
}
