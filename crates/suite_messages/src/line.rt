//! The tokens of a line of a suite, and which keyword may stand where.

use std::alloc::{AllocError, Global};
use suite_words::{LineWord, Verdict, Word};

/// The keywords that a line may begin with.
pub(crate) fn line_words() -> [&'static str; 7] {
    let [engine, class, test, factory, dynamic, after, property] = LineWord::all();
    [
        engine.spelling(),
        class.spelling(),
        test.spelling(),
        factory.spelling(),
        dynamic.spelling(),
        after.spelling(),
        property.spelling(),
    ]
}

/// The verdicts of an `after` line.
pub(crate) fn after_verdicts() -> [&'static str; 3] {
    let [pass, fail, abort] = Verdict::of_bodies();
    [pass.spelling(), fail.spelling(), abort.spelling()]
}

/// What stands before the word of this index in a list whose last is this one.
fn separator(index: usize, last: usize) -> &'static str {
    if index == 0 {
        ""
    } else if index == last {
        " or "
    } else {
        ", "
    }
}

/// Appends these words, as one is chosen of them.
pub(crate) fn push_choices(text: &mut String, words: &[&str]) -> Result<(), AllocError> {
    let last = words.len().saturating_sub(1);
    for (index, word) in words.iter().enumerate() {
        text.push_str(separator(index, last))?;
        text.push_str(word)?;
    }
    Ok(())
}

/// How these verdicts are written: each but `pass` with a text behind it.
pub(crate) fn verdict_forms(alloc: Global, verdicts: &[Verdict]) -> Result<String, AllocError> {
    let mut forms = String::new(alloc);
    let last = verdicts.len().saturating_sub(1);
    for (index, verdict) in verdicts.iter().enumerate() {
        forms.push_str(separator(index, last))?;
        forms.push_str(verdict.spelling())?;
        if !matches!(verdict, Verdict::Pass) {
            forms.push_str(" TEXT")?;
        }
    }
    Ok(forms)
}

/// A line without the spaces in front.
pub fn without_front(line: &str) -> &str {
    line.trim_start_matches(' ')
}

/// How many spaces a line begins with.
pub(crate) fn indentation(line: &str) -> usize {
    line.len().saturating_sub(without_front(line).len())
}

/// The first token of a text, and what follows it, from its next token on.
pub fn cut(text: &str) -> (&str, &str) {
    match text.split_once(' ') {
        Some((word, rest)) => (word, without_front(rest)),
        None => (text, ""),
    }
}

/// The keyword that a line begins with.
pub(crate) fn first_word(line: &str) -> &str {
    cut(without_front(line)).0
}

/// Whether a line with this keyword declares a node.
pub(crate) fn is_node(word: &str) -> bool {
    Word::spelled(word).is_some()
}

/// Whether a line with this keyword may stand right below a node with the keyword above, or at level 0
/// where there is none.
pub(crate) fn stands_below(above: Option<Word>, word: LineWord) -> bool {
    match word {
        LineWord::Node(word) => word.stands_below(above),
        LineWord::After => matches!(above, Some(Word::Class)),
        LineWord::Property => false,
    }
}

/// Where a line with this keyword may stand.
pub(crate) fn where_stands(word: LineWord) -> &'static str {
    match word {
        LineWord::Node(Word::Engine) => "an engine stands at level 0, with no spaces in front",
        LineWord::Node(Word::Class) => "a class stands one level below an engine or a class",
        LineWord::Node(Word::Test) => "a test stands one level below a class",
        LineWord::Node(Word::Factory) => "a factory stands one level below a class",
        LineWord::Node(Word::Dyn) => "a dyn stands one level below a factory",
        LineWord::After => "an after line stands one level below a class",
        LineWord::Property => "a property stands at level 0, before the first engine",
    }
}
