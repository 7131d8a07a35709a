//! The line `after`: what the after-body of a class answers.

ghost use Rattle.std.specs.Prelude.{◌≡◌, ◌≢◌, IfErr};
ghost use Rattle.suite_words.specs.Reading.After.{after_said};
ghost use Rattle.suite_words.specs.Reading.Faults.{Gives};

use crate::suite::fault::SuiteFault;
use crate::suite::lines::{between_spaces, next_word};
use crate::suite::verdicts::{status_of, verdict_in};
use crate::suite::words::Word;
use plan_events::Status;

/// The status and the text that the body ends with, by what follows the keyword `after`: a verdict as
/// that of a test, but not `disabled`.
pub fn after_in<'a>(number: usize, rest: &'a str) -> Result<(Status, &'a str), SuiteFault>
    ensures exact { Gives (λ said. (said.0, said.1.now)) result (after_said number rest.now) }
    ensures real { IfErr result (λ fault. fault ≢ SuiteFault.NoMemory) }
{
    let (first, rest) = next_word(rest);
    let text = between_spaces(rest);
    match status_of(verdict_in(number, Word::Test, first, text)?) {
        Some(status) => Ok((status, text)),
        None => Err(SuiteFault::BadLine(number)),
    }
}
