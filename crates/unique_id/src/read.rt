//! The segments of a text while it is read.

ghost use Rattle.std.specs.Prelude.{◌≡◌, ◌+◌, ◌*◌, ◌≤◌, List, [], ◌∷◌, ◌++◌, IfSome, IsSomeAnd};
ghost use Rattle.unique_id.specs.Reads.{IsReadOf};
ghost use Rattle.unique_id.specs.declared.unique_id.Segment.{Segment};

use crate::decoded::Decoded;
use crate::spelling::segment_len;
use crate::unique_id::Segment;
use std::alloc::Global;

/// The segments that were read.
#[derive(Drop)]
pub struct Read {
    /// None where the memory ran out. Reading goes on, so that a fault that comes later is found.
    pub segments: Option<Vec<Segment>>,
    /// How many were read.
    pub count: usize,
    /// The length of their spelling.
    pub spelled: usize,
}

impl Read {
    /// No segment yet.
    pub fn new(alloc: Global) -> Read
        ensures read { IsReadOf result [] }
        ensures count { result.count ≡ 0 }
        ensures spelled { result.spelled ≡ 0 }
    {
        Read {
            segments: Some(Vec::new(alloc)),
            count: 0,
            spelled: 0,
        }
    }

    /// One more segment.
    pub fn with(self, alloc: Global, kind: &Decoded, value: &Decoded) -> Read
        requires few { self.count ≤ 1024 }
        requires short { self.spelled ≤ 6148 * self.count }
        ensures read { (segments : List Segment) → IsReadOf self segments →
            IsReadOf result (segments ++ record { kind = kind.now; value = value.now } ∷ []) }
        ensures count { result.count ≡ self.count + 1 }
        ensures spelled { result.spelled ≤ 6148 * result.count }
    {
        let slash = usize::from(self.count > 0);
        Read {
            segments: longer(alloc, self.segments, kind, value),
            count: self.count + 1,
            spelled: self.spelled + slash + segment_len(kind.as_slice(), value.as_slice()),
        }
    }
}

/// The segments that are kept and one more, unless memory ran out.
fn longer(
    alloc: Global,
    segments: Option<Vec<Segment>>,
    kind: &Decoded,
    value: &Decoded,
) -> Option<Vec<Segment>>
    ensures { IfSome result (λ new. IsSomeAnd segments
        (λ old. new.items ≡ old.items ++ record { kind = kind.now; value = value.now } ∷ [])) }
{
    let (mut segments, segment) = segments.zip(segment_of(alloc, kind, value))?;
    segments.push(segment).ok()?;
    Some(segments)
}

/// The segment of this kind and this value, unless they are no text or memory ran out.
fn segment_of(alloc: Global, kind: &Decoded, value: &Decoded) -> Option<Segment>
    ensures { IfSome result (λ segment. segment ≡ record { kind = kind.now; value = value.now }) }
{
    Segment::new(alloc, kind.text()?, value.text()?).ok()
}
