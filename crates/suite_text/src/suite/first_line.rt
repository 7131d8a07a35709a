//! The first line that says something, which is judged before any memory is taken.

ghost use Rattle.std.specs.Prelude.{◌≡◌, ◌≢◌, ℕ, IfOk, IfErr, Err, None};
ghost use Rattle.std.specs.Str.Lines.{lines};
ghost use Rattle.suite_words.specs.Reading.Judged.{judged_property, judged_node};
ghost use Rattle.suite_text.specs.Reading.Judged.{judged_words, MayRunOut};
ghost use Rattle.suite_words.specs.Reading.Lines.{indentation_of};
ghost use Rattle.suite_text.specs.Reading.Parts.{no_lines};
ghost use Rattle.suite_text.specs.Suites.{suite_of_lines};

use config_params::property_of;
use suite_words::{
    LineWord, SuiteFault, Word, indentation, is_property, level_at, next_word, placed, says_nothing,
};

/// Judges what a property's line says.
fn judge_property(number: usize, line: &str) -> Result<(), SuiteFault>
    ensures { result ≡ judged_property number line.now }
{
    match property_of(number, next_word(line).1) {
        Ok(_) => Ok(()),
        Err(fault) => Err(SuiteFault::of_property(fault)),
    }
}

/// Judges a line below no node: its keyword, and what follows that.
fn judge_node(number: usize, first: &str, rest: &str) -> Result<(), SuiteFault>
    ensures { result ≡ judged_node number None first.now rest.now }
{
    placed(number, None, Word::spelled(first))?;
    if next_word(rest).0.is_empty() {
        Err(SuiteFault::BadLine(number))
    } else {
        Ok(())
    }
}

/// Judges a line that says something, with so many spaces in front, before which nothing was said.
fn judge_words(number: usize, indentation: usize, line: &str) -> Result<(), SuiteFault>
    requires { indentation ≡ indentation_of line.now }
    ensures { (limit : ℕ) → result ≡ judged_words number (no_lines limit) line.now }
{
    level_at(number, 0, indentation)?;
    if is_property(line) {
        return judge_property(number, line);
    }
    let (first, rest) = next_word(line);
    if first == LineWord::After.spelling() {
        return Err(SuiteFault::BadLine(number));
    }
    judge_node(number, first, rest)
}

/// Judges the first line that says something: a property's as a whole, a node's up to its name. How many nodes there may
/// be does not matter to it.
pub(crate) fn judge_first(text: &str) -> Result<(), SuiteFault>
    ensures refused { IfErr result (λ fault. (limit : ℕ) → suite_of_lines limit (lines text.now) ≡ Err fault) }
    ensures real { IfErr result (λ fault. fault ≢ SuiteFault.NoMemory) }
    ensures judged { IfOk result (λ _. (limit : ℕ) → MayRunOut 1 (no_lines limit) (lines text.now)) }
{
    let mut number = 1;
    for line in text.lines() {
        let indentation = indentation(line);
        if !says_nothing(indentation, line) {
            return judge_words(number, indentation, line);
        }
        number += 1;
    }
    Ok(())
}
