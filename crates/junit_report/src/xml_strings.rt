//! Values and attributes of XML.

ghost use Rattle.std.specs.Prelude.{◌≡◌, ◌++◌, OnOk, codes, string_bytes};
ghost use Rattle.junit_report.specs.XmlStrings.{is_barred, xml_char, escaped, attribute, number_attribute};

use std::alloc::AllocError;

/// Whether XML 1.0 cannot carry the character, if it is not a tab or an end of a line.
fn is_barred(c: char) -> bool
    ensures { result ≡ is_barred c }
{
    c < ' ' || c == '\u{fffe}' || c == '\u{ffff}'
}

/// Appends a character as it stands in a value.
fn push_char(xml: &mut String, c: char) -> Result<(), AllocError>
    ensures { OnOk result (string_bytes xml.new ≡ string_bytes xml.old ++ xml_char c) }
{
    match c {
        '&' => xml.push_str("&amp;"),
        '<' => xml.push_str("&lt;"),
        '>' => xml.push_str("&gt;"),
        '"' => xml.push_str("&quot;"),
        '\'' => xml.push_str("&apos;"),
        '\t' => xml.push_str("&#9;"),
        '\n' => xml.push_str("&#10;"),
        '\r' => xml.push_str("&#13;"),
        _ if is_barred(c) => xml.push('\u{fffd}'),
        _ => xml.push(c),
    }
}

/// Appends a text as a value.
pub(crate) fn push_escaped(xml: &mut String, text: &str) -> Result<(), AllocError>
    ensures { OnOk result (string_bytes xml.new ≡ string_bytes xml.old ++ escaped text.now) }
{
    for c in text.chars() {
        push_char(xml, c)?;
    }
    Ok(())
}

/// Appends an attribute whose value is a text.
pub(crate) fn push_attribute(xml: &mut String, name: &str, value: &str) -> Result<(), AllocError>
    ensures { OnOk result (string_bytes xml.new ≡ string_bytes xml.old ++ attribute name.now value.now) }
{
    write!(xml, " {name}=\"")?;
    push_escaped(xml, value)?;
    xml.push_str("\"")
}

/// Appends an attribute whose value is a number.
pub(crate) fn push_number(xml: &mut String, name: &str, number: usize) -> Result<(), AllocError>
    ensures { OnOk result (string_bytes xml.new ≡ string_bytes xml.old ++ number_attribute name.now number) }
{
    write!(xml, " {name}=\"{number}\"")
}
