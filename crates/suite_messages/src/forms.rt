//! Lines of texts that are no suites.

/// A suite, shown to who gave a text of another form.
pub(crate) const EXAMPLE: &str = "As in
    engine e
      class a.B
        test t() pass
";

/// What begins a comment: in a suite, where spaces stand before it, and in other texts.
const COMMENT_SIGNS: [&str; 5] = ["#", "//", "--", ";", "/*"];

/// What begins a line of JSON, XML, YAML or Markdown.
const OTHER_SIGNS: [&str; 6] = ["{", "[", "<", "---", "- ", "* "];

/// Whether a text begins with one of these signs.
fn begins_with(signs: &[&str], text: &str) -> bool {
    signs.iter().any(|sign| text.starts_with(*sign))
}

/// Whether a line, without the spaces in front, looks like a line of JSON, XML, YAML or Markdown.
pub(crate) fn is_of_other_form(line: &str) -> bool {
    begins_with(OTHER_SIGNS.as_slice(), line)
}

/// Whether a line, without the spaces in front, looks like a comment.
pub(crate) fn is_comment(line: &str) -> bool {
    begins_with(COMMENT_SIGNS.as_slice(), line) && !is_of_other_form(line)
}
