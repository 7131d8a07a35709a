//! The lines of a summary.

ghost use Rattle.std.specs.Prelude.{◌≡◌, ◌++◌, ◌<◌, [], OnOk, string_bytes, slice_index_or};
ghost use Rattle.run_results.specs.SummaryTexts.{bracketed, count_lines, phrases, left_in};

use std::alloc::AllocError;

/// How many counts there are.
const COUNTS: usize = 12;

/// What the count at this place counts, which fills its places.
fn phrase(place: usize) -> &'static str
    requires { place < 12 }
    ensures { result.now ≡ left_in 21 (slice_index_or phrases place []) }
{
    match place {
        0 => "containers found     ",
        1 => "containers skipped   ",
        2 => "containers started   ",
        3 => "containers aborted   ",
        4 => "containers successful",
        5 => "containers failed    ",
        6 => "tests found          ",
        7 => "tests skipped        ",
        8 => "tests started        ",
        9 => "tests aborted        ",
        10 => "tests successful     ",
        _ => "tests failed         ",
    }
}

/// Appends a line with a count and what it counts, which fills its places.
#[tactic(auto, using(crate::proofs::Printing::right_decimal))]
fn push_line(text: &mut String, count: u32, phrase: &str) -> Result<(), AllocError>
    ensures { OnOk result (string_bytes text.new ≡ string_bytes text.old ++ bracketed count phrase.now) }
{
    writeln!(text, "[{count:>10} {phrase} ]")
}

/// Appends a line for each of the twelve counts.
pub(crate) fn push_counts(text: &mut String, counts: [u32; 12]) -> Result<(), AllocError>
    ensures { OnOk result (string_bytes text.new ≡ string_bytes text.old ++ count_lines counts phrases) }
{
    for place in 0..COUNTS {
        push_line(text, counts[place], phrase(place))?;
    }
    Ok(())
}
