//! The segments of a unique id.

ghost use Rattle.std.specs.Prelude.{◌≡◌, ◌≤◌, ◌++◌, ◌∷◌, [], length, IfOk};

use crate::both_of::both;
use crate::unique_id::Segment;
use std::alloc::{AllocError, Global};
use std::marker::Model;

/// The segments from the root down.
#[derive(Drop)]
enum Steps {
    One([Segment; 1]),
    Two([Segment; 2]),
    Three([Segment; 3]),
    Four([Segment; 4]),
    Many(Vec<Segment>),
}

/// The segments of a unique id, from the root down. Up to four take no memory of their own.
#[derive(Drop)]
pub struct Path {
    steps: Steps,
}

impl Model for Path {
    ghost use Rattle.std.specs.Prelude.{List};
    ghost use Rattle.unique_id.specs.Paths.{steps_of};
    ghost use Rattle.unique_id.specs.declared.unique_id.Segment.{Segment};

    ghost Value = { List Segment };

    ghost view = { λ p. steps_of p.steps };
}

impl Path {
    /// The path of these segments, which stay in their list.
    pub fn of(segments: Vec<Segment>) -> Path
        ensures { result ≡ segments.items }
    {
        Path {
            steps: Steps::Many(segments),
        }
    }

    /// The path of these segments, of which copies are taken, and one more behind them; up to four stand in place.
    pub fn longer(alloc: Global, front: &[Segment], last: Segment) -> Result<Path, AllocError>
        requires { length front.now ≤ 64 }
        ensures { IfOk result (λ path. path ≡ front.now ++ last ∷ []) }
    {
        let steps = match front {
            [] => Steps::One([last]),
            [one] => {
                let (one, last) = both(one.copy(), Ok(last))?;
                Steps::Two([one, last])
            }
            [one, two] => {
                let (front, last) = both(both(one.copy(), two.copy()), Ok(last))?;
                Steps::Three([front.0, front.1, last])
            }
            [one, two, three] => {
                let back = both(three.copy(), Ok(last));
                let (front, back) = both(both(one.copy(), two.copy()), back)?;
                Steps::Four([front.0, front.1, back.0, back.1])
            }
            _ => Steps::Many(with_last(alloc, front, last)?),
        };
        Ok(Path { steps })
    }

    /// The segments, from the root down.
    pub fn as_slice(&self) -> &[Segment]
        ensures { result.now ≡ self.now }
    {
        match &self.steps {
            Steps::One(segments) => segments,
            Steps::Two(segments) => segments,
            Steps::Three(segments) => segments,
            Steps::Four(segments) => segments,
            Steps::Many(segments) => segments.as_slice(),
        }
    }
}

/// Copies of these segments, with room for one more behind them.
fn copied(alloc: Global, segments: &[Segment]) -> Result<Vec<Segment>, AllocError>
    requires { length segments.now ≤ 64 }
    ensures { IfOk result (λ v. v.items ≡ segments.now) }
{
    let mut copies = Vec::with_capacity(alloc, segments.len() + 1)?;
    for segment in segments {
        copies.push(segment.copy()?)?;
    }
    Ok(copies)
}

/// Copies of these segments, and one more behind them.
fn with_last(alloc: Global, front: &[Segment], last: Segment) -> Result<Vec<Segment>, AllocError>
    requires { length front.now ≤ 64 }
    ensures { IfOk result (λ v. v.items ≡ front.now ++ last ∷ []) }
{
    let mut segments = copied(alloc, front)?;
    segments.push(last)?;
    Ok(segments)
}
