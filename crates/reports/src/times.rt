//! How long nodes took, as it is written.

ghost use Rattle.std.specs.Prelude.{◌≡◌, ◌++◌, OnOk, string_bytes};
ghost use Rattle.reports.specs.TimeTexts.{seconds_text, time_or_none};

use descriptor::NodeId;
use job_times::Timings;
use std::alloc::AllocError;

/// Appends so many microseconds in seconds with three places.
pub fn push_seconds(text: &mut String, micros: u128) -> Result<(), AllocError>
    ensures { OnOk result (string_bytes text.new ≡ string_bytes text.old ++ seconds_text micros) }
{
    let seconds = micros / 1_000_000;
    let tenths = micros / 100_000 % 10;
    let hundredths = micros / 10_000 % 10;
    let thousandths = micros / 1_000 % 10;
    write!(text, "{seconds}.{tenths}{hundredths}{thousandths}")
}

/// The microseconds of a node, and none where they are not known.
pub fn time_or_none(timings: &Timings, node: NodeId) -> u64
    ensures { result ≡ time_or_none timings.now.took.items node }
{
    timings.of_node(node).unwrap_or(0)
}
