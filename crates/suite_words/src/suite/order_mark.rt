//! The byte order mark that a text may begin with.

ghost use Rattle.std.specs.Prelude.{◌≡◌};
ghost use Rattle.suite_words.specs.Reading.Bytes.{without_mark};

/// The character U+FEFF, which some editors write in front of a text to say that it is UTF-8.
const ORDER_MARK: &str = "\u{feff}";

/// A text without the byte order mark that it begins with, if it does.
pub fn without_mark(text: &str) -> &str
    ensures { result.now ≡ without_mark text.now }
{
    text.strip_prefix(ORDER_MARK).unwrap_or(text)
}
