//! The lines of a saved run, and what each tells.

ghost use Rattle.std.specs.Prelude.{◌≡◌, IfOk};
ghost use Rattle.saved_runs.specs.Lines.{pieces_of, whole_lines, is_object, line_told};
ghost use Rattle.unique_id.specs.Answers.{texts};

use crate::feed_line::feed_line;
use crate::json_line::json_line;
use crate::told::Told;
use std::alloc::{AllocError, Global};

/// What stands between line feeds.
fn pieces_of(alloc: Global, text: &str) -> Result<Vec<&str>, AllocError>
    ensures { IfOk result (λ pieces. texts pieces.items ≡ pieces_of text.now) }
{
    text.split('\n').collect(alloc)
}

/// The lines that a line feed ends: a last line that was cut off is none.
pub(crate) fn whole_lines(alloc: Global, text: &str) -> Result<Vec<&str>, AllocError>
    ensures { IfOk result (λ lines. texts lines.items ≡ whole_lines text.now) }
{
    let mut pieces = pieces_of(alloc, text)?;
    pieces.pop();
    Ok(pieces)
}

/// Whether a line is an object of JSON, by its first character.
fn is_object(line: &[u8]) -> bool
    ensures { result ≡ is_object line.now }
{
    match line.split_first() {
        Some((byte, _)) => *byte == b'{',
        None => false,
    }
}

/// What a line tells, if it is one of a feed or of the JSON of a run.
pub(crate) fn line_told(alloc: Global, line: &str) -> Result<Option<Told>, AllocError>
    ensures { IfOk result (λ told. told ≡ line_told line.now) }
{
    if is_object(line.as_bytes()) {
        json_line(alloc, line)
    } else {
        feed_line(alloc, line)
    }
}
