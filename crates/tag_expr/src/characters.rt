//! The characters of a tag.

ghost use Rattle.std.specs.Prelude.{◌≡◌, ◌+◌, ◌^◌, ◌<◌, length};
ghost use Rattle.std.specs.Str.{chars};
ghost use Rattle.tag_expr.specs.Tags.{is_sign, is_bad, first_bad};

/// Whether the character is a sign of the expressions.
pub(crate) fn is_sign(c: char) -> bool
    ensures { result ≡ is_sign c }
{
    c == '(' || c == ')' || c == '!' || c == '&' || c == '|'
}

/// Whether no tag has the character.
fn is_bad(c: char) -> bool
    ensures { result ≡ is_bad c }
{
    c.is_whitespace() || c.is_control() || c == ',' || is_sign(c)
}

/// The place of the text's first bad character, where the text stands at `from`.
pub(crate) fn first_bad(from: usize, text: &str) -> Option<usize>
    requires { from + length text.now < 2 ^ 64 }
    ensures { result ≡ first_bad from (chars text.now) }
{
    let mut place = from;
    let mut left = text.chars();
    while let Some(c) = left.next() {
        if is_bad(c) {
            return Some(place);
        }
        place += c.len_utf8();
    }
    None
}
