//! Which ids are above others, and which are those of tests.

ghost use Rattle.std.specs.Prelude.{◌≡◌, nat_eq, ◌++◌, ◌∷◌, [], Some};
ghost use Rattle.std.specs.List.{list_any, starts_with};
ghost use Rattle.saved_runs.specs.RunAgain.{is_above, are_in_line, last_of, is_unit_end, is_unit, is_done};

use unique_id::{Segment, UniqueId};

/// Whether a text goes on with a slash behind another one.
fn goes_on(text: &[u8], front: &[u8]) -> bool
    ensures { result ≡ starts_with nat_eq text.now (front.now ++ 47 ∷ []) }
{
    match text.strip_prefix(front) {
        Some(rest) => rest.starts_with(b"/".as_slice()),
        None => false,
    }
}

/// Whether the first id is above the second.
fn is_above(above: &UniqueId, id: &UniqueId) -> bool
    ensures { result ≡ is_above above.now id.now }
{
    goes_on(id.text().as_bytes(), above.text().as_bytes())
}

/// Whether both are the same id, or the one is above the other.
fn are_in_line(first: &UniqueId, second: &UniqueId) -> bool
    ensures { result ≡ are_in_line first.now second.now }
{
    first.text() == second.text() || is_above(first, second) || is_above(second, first)
}

/// Whether one of these is in line with an id.
fn has_in_line(ids: &[UniqueId], id: &UniqueId) -> bool
    ensures { result ≡ list_any (are_in_line id.now) ids.now }
{
    for other in ids {
        if are_in_line(id, other) {
            return true;
        }
    }
    false
}

/// What an id ends in.
fn last_segment(id: &UniqueId) -> &Segment
    ensures { last_of id.now ≡ Some result.now }
{
    let segments = id.segments();
    &segments[segments.len() - 1]
}

/// Whether this is the segment of a test or of a factory.
fn is_unit_end(segment: &Segment) -> bool
    ensures { result ≡ is_unit_end (Some segment.now) }
{
    match segment.kind() {
        "method" | "test-factory" => true,
        _ => false,
    }
}

/// Whether an id is that of a test or a factory.
fn is_unit(id: &UniqueId) -> bool
    ensures { result ≡ is_unit id.now }
{
    is_unit_end(last_segment(id))
}

/// Whether a node need not run again after a run that was cut off, in which these nodes failed.
pub(crate) fn is_done(failed: &[UniqueId], id: &UniqueId) -> bool
    ensures { result ≡ is_done failed.now id.now }
{
    is_unit(id) && !has_in_line(failed, id)
}
