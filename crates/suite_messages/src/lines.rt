//! The lines of a suite, by their numbers from 1.

ghost use Rattle.std.specs.Prelude.{◌≡◌, ◌-◌, [], get_or};
ghost use Rattle.unique_id.specs.Answers.{texts};

use crate::line::{cut, first_word, indentation, is_node, stands_below, without_front};
use std::alloc::{AllocError, Global};
use suite_words::{LineWord, Word};

/// The line of this number; empty where there is none.
pub(crate) fn line_at<'a>(lines: &[&'a str], number: usize) -> &'a str
    ensures { result.now ≡ get_or (texts lines.now) (number - 1) [] }
{
    match lines.get(number.saturating_sub(1)) {
        Some(line) => *line,
        None => "",
    }
}

/// Whether the line of this number may begin with this keyword, by the line that it stands right below.
pub(crate) fn may_stand(lines: &[&str], number: usize, first: LineWord) -> bool {
    let indent = indentation(line_at(lines, number));
    let mut stands = stands_below(None, first);
    for line in lines.iter().take(number.saturating_sub(1)) {
        let above = Word::spelled(first_word(line));
        if above.is_some() && indentation(line).saturating_add(2) == indent {
            stands = stands_below(above, first);
        }
    }
    stands
}

/// The greatest number of spaces that the line of this number may begin with.
pub(crate) fn deepest(lines: &[&str], number: usize) -> usize {
    let mut most = 0;
    for line in lines.iter().take(number.saturating_sub(1)) {
        if is_node(first_word(line)) {
            most = indentation(line).saturating_add(2);
        }
    }
    most
}

/// The keyword and the name that a line begins with.
pub(crate) fn named(line: &str) -> (&str, &str) {
    let (word, rest) = cut(without_front(line));
    (word, cut(rest).0)
}

/// The names of the classes of a suite.
pub(crate) fn class_names<'a>(
    alloc: Global,
    lines: &[&'a str],
) -> Result<Vec<&'a str>, AllocError> {
    let mut names = Vec::new(alloc);
    for line in lines {
        let (word, name) = named(line);
        if matches!(Word::spelled(word), Some(Word::Class)) {
            names.push(name)?;
        }
    }
    Ok(names)
}

/// The number of the first line that declares the same node as that of this number, below the same
/// parent; 0 where there is none.
pub(crate) fn same_node(lines: &[&str], number: usize) -> usize {
    let line = line_at(lines, number);
    let (word, name) = named(line);
    let mut same = 0;
    for (index, other) in lines.iter().take(number.saturating_sub(1)).enumerate() {
        let (other_word, other_name) = named(other);
        if is_node(other_word) && indentation(other) < indentation(line) {
            same = 0;
        } else if same == 0
            && other_word == word
            && other_name == name
            && indentation(other) == indentation(line)
        {
            same = index.saturating_add(1);
        }
    }
    same
}
