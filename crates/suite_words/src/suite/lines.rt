//! The lines of a suite text, and the indentation, the tokens and the end of one.

ghost use Rattle.std.specs.Prelude.{◌≡◌, ◌≢◌, ◌≤◌, ◌==◌, IfOk, IfErr, length};
ghost use Rattle.std.specs.List.{before_first, after_first};
ghost use Rattle.std.specs.Str.Lines.{lines};
ghost use Rattle.suite_words.specs.Words.{is_space};
ghost use Rattle.suite_words.specs.Reading.Lines.{without_front, without_end, first_word, after_word};
ghost use Rattle.suite_words.specs.Reading.Lines.{indentation_of, level_by, says_nothing};
ghost use Rattle.unique_id.specs.Answers.{texts};
ghost use Rattle.suite_words.specs.Reading.Faults.{Gives};

use crate::suite::fault::SuiteFault;
use std::alloc::{AllocError, Global};

/// The lines of a text.
pub fn lines_in(alloc: Global, text: &str) -> Result<Vec<&str>, AllocError>
    ensures { IfOk result (λ v. texts v.items ≡ lines text.now) }
{
    text.lines().collect(alloc)
}

/// The text without the spaces in front.
fn without_front(text: &str) -> &str
    ensures { result.now ≡ without_front text.now }
{
    let mut left = text;
    while let Some(shorter) = left.strip_prefix(' ') {
        left = shorter;
    }
    left
}

/// The text without the spaces at its end.
fn without_end(text: &str) -> &str
    ensures { result.now ≡ without_end text.now }
{
    let mut left = text;
    while let Some(shorter) = left.strip_suffix(' ') {
        left = shorter;
    }
    left
}

/// The text without the spaces at its ends.
pub(crate) fn between_spaces(text: &str) -> &str
    ensures { result.now ≡ without_end (without_front text.now) }
{
    without_end(without_front(text))
}

/// The text up to its first space, and what follows that space.
fn cut_at_space(text: &str) -> (&str, &str)
    ensures front { result.0.now ≡ before_first is_space text.now }
    ensures back { result.1.now ≡ after_first is_space text.now }
{
    match text.split_once(' ') {
        Some((word, rest)) => (word, rest),
        None => (text, ""),
    }
}

/// The first token of a text, empty where there is none, and what follows it.
pub fn next_word(text: &str) -> (&str, &str)
    ensures word { result.0.now ≡ first_word text.now }
    ensures rest { result.1.now ≡ after_word text.now }
{
    cut_at_space(without_front(text))
}

/// The number of spaces that a line begins with.
pub fn indentation(line: &str) -> usize
    ensures { result ≡ indentation_of line.now }
{
    line.as_bytes()
        .iter()
        .take_while(|byte| **byte == b' ')
        .count()
}

/// Whether a line with so many spaces in front has nothing behind them.
fn is_blank(indentation: usize, line: &str) -> bool
    requires { indentation ≡ indentation_of line.now }
    ensures { result ≡ (length (without_front line.now) == 0) }
{
    indentation == line.len()
}

/// Whether a line with so many spaces in front is passed over.
pub fn says_nothing(indentation: usize, line: &str) -> bool
    requires { indentation ≡ indentation_of line.now }
    ensures { result ≡ says_nothing line.now }
{
    line.starts_with('#') || is_blank(indentation, line)
}

/// The level of a line with so many spaces in front, of which no more than this one may stand there.
pub fn level_at(number: usize, deepest: usize, indentation: usize) -> Result<usize, SuiteFault>
    ensures exact { Gives (λ level. level) result (level_by number deepest indentation) }
    ensures within { IfOk result (λ level. level ≤ deepest) }
    ensures real { IfErr result (λ fault. fault ≢ SuiteFault.NoMemory) }
{
    if indentation % 2 != 0 || deepest < indentation / 2 {
        return Err(SuiteFault::BadIndent(number));
    }
    Ok(indentation / 2)
}
