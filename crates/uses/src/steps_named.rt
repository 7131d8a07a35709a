//! Calls `step_text`: the steps of a text are read.

ghost use Rattle.std.specs.Prelude.{◌≡◌, IfOk, length};
ghost use Rattle.suite_words.specs.Words.{words_in};

use std::alloc::Global;
use step_text::{StepsFault, parse_steps};

/// How many steps a text names: as many as it has tokens.
pub fn step_count(alloc: Global, text: &str) -> Result<usize, StepsFault>
    ensures { IfOk result (λ count. count ≡ length (words_in text.now)) }
{
    let steps = parse_steps(alloc, text)?;
    Ok(steps.len())
}
