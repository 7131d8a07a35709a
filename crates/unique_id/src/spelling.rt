//! Writes segments in the canonical spelling.

ghost use Rattle.std.specs.Prelude.{◌≡◌, ◌≤◌, ◌+◌, ◌↔◌, IsTrue, All, OnOk, ◌++◌, ◌∷◌, [], length, string_bytes, encode_utf8};
ghost use Rattle.unique_id.specs.Spelling.{spelled_byte, spelled_part, spelled_segment};

use std::alloc::AllocError;

/// Writes a character of a part, with an escape where it needs one.
fn push_char(text: &mut String, c: char) -> Result<(), AllocError>
    ensures { OnOk result (string_bytes text.new ≡ string_bytes text.old ++ spelled_part (encode_utf8 c)) }
{
    match c {
        '%' => text.push_str("%25"),
        '+' => text.push_str("%2B"),
        '[' => text.push_str("%5B"),
        ']' => text.push_str("%5D"),
        ':' => text.push_str("%3A"),
        '/' => text.push_str("%2F"),
        _ => text.push(c),
    }
}

/// Writes a part character by character.
fn push_chars(text: &mut String, part: &str) -> Result<(), AllocError>
    ensures { OnOk result (string_bytes text.new ≡ string_bytes text.old ++ spelled_part part.now) }
{
    for c in part.chars() {
        push_char(text, c)?;
    }
    Ok(())
}

/// Whether a part needs no escape.
fn is_plain(part: &[u8]) -> bool
    ensures { IsTrue result ↔ All (λ byte. spelled_byte byte ≡ byte ∷ []) part.now }
{
    part.iter().all(|byte| byte_len(*byte) == 1)
}

/// Writes a part with its escapes. One that needs none is written at once.
fn push_part(text: &mut String, part: &str) -> Result<(), AllocError>
    ensures { OnOk result (string_bytes text.new ≡ string_bytes text.old ++ spelled_part part.now) }
{
    if is_plain(part.as_bytes()) {
        return text.push_str(part);
    }
    push_chars(text, part)
}

/// Writes a segment.
pub fn push_segment(text: &mut String, kind: &str, value: &str) -> Result<(), AllocError>
    ensures { OnOk result (string_bytes text.new ≡ string_bytes text.old ++ spelled_segment kind.now value.now) }
{
    text.push_str("[")?;
    push_part(text, kind)?;
    text.push_str(":")?;
    push_part(text, value)?;
    text.push_str("]")
}

/// Writes a segment, no part of which needs an escape.
fn push_plain_segment(text: &mut String, kind: &str, value: &str) -> Result<(), AllocError>
    requires kind { spelled_part kind.now ≡ kind.now }
    requires value { spelled_part value.now ≡ value.now }
    ensures { OnOk result (string_bytes text.new ≡ string_bytes text.old ++ spelled_segment kind.now value.now) }
{
    text.push_str("[")?;
    text.push_str(kind)?;
    text.push_str(":")?;
    text.push_str(value)?;
    text.push_str("]")
}

/// Writes a segment, with which the text has so many bytes. They tell whether a part needs an escape.
pub fn push_segment_up_to(
    text: &mut String,
    kind: &str,
    value: &str,
    len: usize,
) -> Result<(), AllocError>
    requires len { len ≡ length (string_bytes text.old) + length (spelled_segment kind.now value.now) }
    requires short { len ≤ 1024 }
    ensures { OnOk result (string_bytes text.new ≡ string_bytes text.old ++ spelled_segment kind.now value.now) }
{
    if text.len() + kind.len() + value.len() + 3 == len {
        push_plain_segment(text, kind, value)
    } else {
        push_segment(text, kind, value)
    }
}

/// How many bytes a byte of a part is written in.
fn byte_len(byte: u8) -> usize
    ensures { result ≡ length (spelled_byte byte) }
{
    match byte {
        b'%' | b'+' | b'[' | b']' | b':' | b'/' => 3,
        _ => 1,
    }
}

/// How many bytes a part is written in.
fn part_len(part: &[u8]) -> usize
    requires { length part.now ≤ 1024 }
    ensures spelled { result ≡ length (spelled_part part.now) }
    ensures bounded { result ≤ 3072 }
{
    let mut written = 0;
    for byte in part {
        written += byte_len(*byte);
    }
    written
}

/// How many bytes a segment is written in.
pub fn segment_len(kind: &[u8], value: &[u8]) -> usize
    requires kind_fits { length kind.now ≤ 1024 }
    requires value_fits { length value.now ≤ 1024 }
    ensures spelled { result ≡ length (spelled_segment kind.now value.now) }
    ensures bounded { result ≤ 6147 }
{
    part_len(kind) + part_len(value) + 3
}
