//! The last line of a replay.

ghost use Rattle.std.specs.Prelude.{◌≡◌, ◌++◌, OnOk, string_bytes};
ghost use Rattle.run_outputs.specs.ReplayTexts.{replay_line};

use std::alloc::AllocError;

/// What a replay counted.
#[derive(Clone, Copy)]
pub struct ReplayCounts {
    /// The steps of the text.
    pub steps: usize,
    /// The steps that were not possible in their turn.
    pub passed_over: usize,
    /// The events of the history.
    pub published: usize,
    /// The events that the dispatcher gave.
    pub given: usize,
}

/// Appends the line that ends a replay's output.
pub fn push_replay_line(text: &mut String, counts: ReplayCounts) -> Result<(), AllocError>
    ensures { OnOk result (string_bytes text.new ≡ string_bytes text.old ++ replay_line counts) }
{
    let ReplayCounts {
        steps,
        passed_over,
        published,
        given,
    } = counts;
    writeln!(
        text,
        "steps {steps} passed-over {passed_over} published {published} given {given}"
    )
}
