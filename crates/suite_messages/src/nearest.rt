//! The known word that is nearest to one that is not known.

ghost use Rattle.std.specs.Prelude.{◌≡◌, IfOk, option_map};
ghost use Rattle.unique_id.specs.Answers.{texts};
ghost use Rattle.suite_messages.specs.Near.{IsNearest, apart, most_apart};

use std::alloc::{AllocError, Global};
use strsim::levenshtein;

/// The longest word, in bytes, for which a known one is looked for.
const LONGEST_WORD: usize = 64;

/// How far apart a word and the known one may be that is offered for it: two edits, or a third of the word's bytes.
fn most_apart(word: &str) -> usize
    ensures { result ≡ most_apart word.now }
{
    (word.len() / 3).max(2)
}

/// How many edits lead from a word to a known one, without regard to the case of ASCII letters.
fn edits_between(alloc: Global, word: &str, name: &str) -> Result<usize, AllocError>
    ensures { IfOk result (λ edits. edits ≡ apart word.now name.now) }
{
    let word = word.to_ascii_lowercase(alloc)?;
    let name = name.to_ascii_lowercase(alloc)?;
    levenshtein(alloc, word.as_str(), name.as_str())
}

/// The known word that is nearest to this one, where one is near enough: the first of several.
pub(crate) fn nearest<'a>(
    alloc: Global,
    known: &[&'a str],
    word: &str,
) -> Result<Option<&'a str>, AllocError>
    ensures { IfOk result (λ found. IsNearest (texts known.now) word.now (option_map (λ name. name.now) found)) }
{
    let mut found = None;
    let mut least = most_apart(word) + 1;
    for name in known {
        let apart = edits_between(alloc, word, name)?;
        if apart < least {
            least = apart;
            found = Some(*name);
        }
    }
    Ok(found)
}

/// Whether a word is one of the known ones.
pub(crate) fn is_known(known: &[&str], word: &str) -> bool {
    for name in known {
        if *name == word {
            return true;
        }
    }
    false
}

/// The known word that is nearest, where one is near enough; for a long word none is looked for.
pub fn nearest_known<'a>(
    alloc: Global,
    known: &[&'a str],
    word: &str,
) -> Result<Option<&'a str>, AllocError> {
    if word.len() > LONGEST_WORD {
        return Ok(None);
    }
    nearest(alloc, known, word)
}

/// Appends the known word that is nearest, where one is near enough.
pub fn push_nearest(
    alloc: Global,
    text: &mut String,
    known: &[&str],
    word: &str,
) -> Result<(), AllocError> {
    match nearest_known(alloc, known, word)? {
        Some(name) => write!(text, "; did you mean '{name}'?"),
        None => Ok(()),
    }
}
