//! Who takes note of when jobs begin and end.

use descriptor::BodyId;

/// Takes note of when jobs begin and end, by the numbers of their bodies. All threads of a run share it. Nothing is
/// promised of what it says.
pub trait Stopwatch {
    /// The job of this number begins now.
    fn begin(&self, number: BodyId);

    /// The job of this number has ended now.
    fn end(&self, number: BodyId);

    /// For how many microseconds the job of this number ran, if it is known when it began and ended.
    fn took(&self, number: BodyId) -> Option<u64>;

    /// The job of this number is slow once it has run longer than so many milliseconds.
    fn set_limit(&self, number: BodyId, milliseconds: u32);
}

/// Takes note of nothing, and reads no clock.
#[derive(Drop)]
pub struct NoStopwatch;

impl Stopwatch for NoStopwatch {
    fn begin(&self, _number: BodyId) {}

    fn end(&self, _number: BodyId) {}

    fn took(&self, _number: BodyId) -> Option<u64> {
        None
    }

    fn set_limit(&self, _number: BodyId, _milliseconds: u32) {}
}
