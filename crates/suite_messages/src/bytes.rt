//! The text of a suite's bytes.

use suite_words::without_mark;

/// The lines of a suite's bytes before the first that is no text, without a byte order mark, and
/// whether all are text.
pub fn text_of(bytes: &[u8]) -> (&str, bool) {
    match std::str::from_utf8(bytes) {
        Ok(text) => (without_mark(text), true),
        Err(fault) => {
            let front = bytes.get(..fault.valid_up_to()).unwrap_or(&[]);
            let front = std::str::from_utf8(front).unwrap_or("");
            (without_mark(front), false)
        }
    }
}

/// The last line of a text, which has no end.
pub(crate) fn last_line(text: &str) -> &str {
    match text.rsplit_once('\n') {
        Some((_, line)) => line,
        None => text,
    }
}
