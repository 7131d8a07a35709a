//! A name that was written in several tokens.

use crate::attributes::looks_like_attribute;
use crate::line::cut;
use std::alloc::{AllocError, Global};
use suite_words::Verdict;

/// How many bytes of a name are shown at most.
const MOST_SHOWN: usize = 60;

/// Whether one of the tokens of a text is a verdict.
pub(crate) fn has_verdict(text: &str) -> bool {
    text.split(' ').any(|word| Verdict::spelled(word).is_some())
}

/// A name and the tokens behind it up to an attribute or a verdict, as one token; only the first of them,
/// if they are many.
fn joined(alloc: Global, name: &str, rest: &str) -> Result<String, AllocError> {
    let mut whole = String::from_str(alloc, name)?;
    let mut left = rest;
    for _ in 0..rest.len() {
        let (word, behind) = cut(left);
        let is_over = word.is_empty()
            || looks_like_attribute(word)
            || Verdict::spelled(word).is_some()
            || whole.len().saturating_add(word.len()) >= MOST_SHOWN;
        if is_over {
            return Ok(whole);
        }
        write!(whole, "_{word}")?;
        left = behind;
    }
    Ok(whole)
}

/// Appends that this name is one word, where these tokens stand behind it.
pub(crate) fn push_whole_name(
    alloc: Global,
    text: &mut String,
    name: &str,
    rest: &str,
) -> Result<(), AllocError> {
    if name.len() > MOST_SHOWN {
        return text.push_str("A name is one word.\n");
    }
    let whole = joined(alloc, name, rest)?;
    write!(text, "A name is one word, as in {whole}\n")
}
