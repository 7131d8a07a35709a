//! Strings and members of JSON.

ghost use Rattle.std.specs.Prelude.{◌≡◌, ◌<◌, ◌++◌, ◌↔◌, IsTrue, All, true, OnOk, codes, string_bytes, encode_utf8};
ghost use Rattle.std.specs.Char.{digit_char};
ghost use Rattle.std.specs.Fmt.{decimal};
ghost use Rattle.json.specs.Print.{escape, quoted};
ghost use Rattle.reports.specs.JsonStrings.{code_escape, is_plain, json_char};

use std::alloc::AllocError;

/// The base of hexadecimal digits.
const BASE: u32 = 16;

/// The hexadecimal digit of this value.
fn hex_digit(value: u32) -> char
    requires { value < 16 }
    ensures { result ≡ digit_char value }
{
    char::from_digit(value, BASE).unwrap_or('0')
}

/// Appends a control character by its number.
fn push_code(json: &mut String, c: char) -> Result<(), AllocError>
    requires { c < 32 }
    ensures { OnOk result (string_bytes json.new ≡ string_bytes json.old ++ code_escape c) }
{
    let code = c as u32;
    json.push_str("\\u00")?;
    json.push(hex_digit(code / BASE))?;
    json.push(hex_digit(code % BASE))
}

/// Appends a character as it stands in a string.
fn push_char(json: &mut String, c: char) -> Result<(), AllocError>
    ensures { OnOk result (string_bytes json.new ≡ string_bytes json.old ++ json_char c) }
{
    match c {
        '"' => json.push_str("\\\""),
        '\\' => json.push_str("\\\\"),
        '\u{8}' => json.push_str("\\b"),
        '\t' => json.push_str("\\t"),
        '\n' => json.push_str("\\n"),
        '\u{c}' => json.push_str("\\f"),
        '\r' => json.push_str("\\r"),
        _ if c < ' ' => push_code(json, c),
        _ => json.push(c),
    }
}

/// Appends the characters of a text one by one, as they stand in a string.
fn push_chars(json: &mut String, text: &str) -> Result<(), AllocError>
    ensures { OnOk result (string_bytes json.new ≡ string_bytes json.old ++ escape text.now) }
{
    for c in text.chars() {
        push_char(json, c)?;
    }
    Ok(())
}

/// Whether a byte stands in a string as it is.
fn is_plain(byte: u8) -> bool
    ensures { result ≡ is_plain byte }
{
    if byte == b'"' {
        return false;
    }
    if byte == b'\\' {
        return false;
    }
    byte >= b' '
}

/// Whether each byte of a text stands in a string as it is.
fn are_plain(text: &[u8]) -> bool
    ensures { IsTrue result ↔ All (λ byte. is_plain byte ≡ true) text.now }
{
    text.iter().all(|byte| is_plain(*byte))
}

/// Appends a text as it stands in a string: at once, if none of it is escaped.
fn push_escaped(json: &mut String, text: &str) -> Result<(), AllocError>
    ensures { OnOk result (string_bytes json.new ≡ string_bytes json.old ++ escape text.now) }
{
    if are_plain(text.as_bytes()) {
        return json.push_str(text);
    }
    push_chars(json, text)
}

/// Appends a text as a string.
pub(crate) fn push_quoted(json: &mut String, text: &str) -> Result<(), AllocError>
    ensures { OnOk result (string_bytes json.new ≡ string_bytes json.old ++ quoted text.now) }
{
    json.push_str("\"")?;
    push_escaped(json, text)?;
    json.push_str("\"")
}

/// Appends a member whose value is a text.
pub(crate) fn push_member(json: &mut String, name: &str, text: &str) -> Result<(), AllocError>
    ensures { OnOk result (string_bytes json.new ≡ string_bytes json.old
        ++ (quoted name.now ++ (codes ":" ++ quoted text.now))) }
{
    push_quoted(json, name)?;
    json.push_str(":")?;
    push_quoted(json, text)
}

/// Appends a member whose value is a text, behind another one.
pub(crate) fn push_further(json: &mut String, name: &str, text: &str) -> Result<(), AllocError>
    ensures { OnOk result (string_bytes json.new ≡ string_bytes json.old
        ++ (codes "," ++ (quoted name.now ++ (codes ":" ++ quoted text.now)))) }
{
    json.push_str(",")?;
    push_member(json, name, text)
}

/// Appends a member whose value is a number, behind another one.
pub(crate) fn push_number(json: &mut String, name: &str, number: u64) -> Result<(), AllocError>
    ensures { OnOk result (string_bytes json.new ≡ string_bytes json.old
        ++ (codes "," ++ (quoted name.now ++ (codes ":" ++ decimal number)))) }
{
    json.push_str(",")?;
    push_quoted(json, name)?;
    write!(json, ":{number}")
}
