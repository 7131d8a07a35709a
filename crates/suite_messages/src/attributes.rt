//! What is wrong with the attributes and the verdict of a line.

ghost use Rattle.std.specs.Prelude.{◌≡◌};
ghost use Rattle.std.specs.Option.{is_some};
ghost use Rattle.tag_expr.specs.Tags.{tag_refusal};

use crate::line::{cut, push_choices};
use crate::nearest::is_known;
use descriptor::Mode;
use std::alloc::{AllocError, Global};
use suite_words::{
    Attribute, LONGEST_LIMIT, LONGEST_SPIN, MOST_PULLS, Verdict, Word, key_and_mode, key_and_value,
    number_up_to,
};
use tag_expr::{TagFault, tag_of};

/// One key of locks more than a line may have: where so many were found, further ones change nothing.
const MOST_COUNTED: usize = 17;

/// The verdicts, and the tokens and keys of the attributes but tags that a line with this keyword may have.
pub(crate) fn known(alloc: Global, first: Word) -> Result<Vec<&'static str>, AllocError> {
    let mut words = Vec::new(alloc);
    for verdict in Verdict::all() {
        words.push(verdict.spelling())?;
    }
    for attribute in Attribute::all() {
        let key = attribute.key();
        if !matches!(attribute, Attribute::Tag) && Attribute::of(first, key).is_some() {
            words.push(key)?;
        }
    }
    Ok(words)
}

/// How an attribute is written.
fn form_of(attribute: Attribute) -> &'static str {
    match attribute {
        Attribute::Tag => "#TAG",
        Attribute::Spin => "spin=N",
        Attribute::Pulls => "pulls=N",
        Attribute::Lock => "lock=KEY",
        Attribute::Slow => "@slow=MS",
        Attribute::Runs(_) | Attribute::Isolated => attribute.key(),
    }
}

/// How the attributes are written that a line with this keyword may have.
pub(crate) fn attribute_forms(alloc: Global, first: Word) -> Result<String, AllocError> {
    let mut forms = Vec::new(alloc);
    for attribute in Attribute::all() {
        if Attribute::of(first, attribute.key()).is_some() {
            forms.push(form_of(attribute))?;
        }
    }
    let mut text = String::new(alloc);
    push_choices(&mut text, forms.as_slice())?;
    Ok(text)
}

/// The keywords of the lines that may have this attribute, as one is chosen of them; empty where it is none.
pub(crate) fn lines_with(alloc: Global, attribute: &str) -> Result<String, AllocError> {
    let mut lines = Vec::new(alloc);
    for word in Word::all() {
        if Attribute::of(word, attribute).is_some() {
            lines.push(word.spelling())?;
        }
    }
    let mut text = String::new(alloc);
    push_choices(&mut text, lines.as_slice())?;
    Ok(text)
}

/// What stands before the first equals sign of a token.
pub(crate) fn key_of(word: &str) -> &str {
    key_and_value(word).0
}

/// Whether a token looks like an attribute.
pub(crate) fn looks_like_attribute(word: &str) -> bool {
    word.starts_with('#')
        || word.starts_with('@')
        || word.contains('=')
        || word == Attribute::Isolated.key()
}

/// Whether one of the tokens of a text has this key.
fn is_among(text: &str, key: &str) -> bool {
    let mut found = false;
    for word in text.split(' ') {
        if key_of(word) == key {
            found = true;
        }
    }
    found
}

/// The key of a lock, if the token is one.
fn lock_key(word: &str) -> Option<&str> {
    let (key, value) = key_and_value(word);
    if key == Attribute::Lock.key() {
        Some(key_and_mode(value).0)
    } else {
        None
    }
}

/// Counts a key of these, of which so many were counted: where it is another, and none of the
/// places is left, nothing changes.
fn counted<'a>(seen: &mut [&'a str; MOST_COUNTED], keys: usize, key: &'a str) -> usize {
    let before = seen.get(..keys).unwrap_or(&[]);
    if is_known(before, key) {
        return keys;
    }
    match seen.get_mut(keys) {
        Some(place) => {
            *place = key;
            keys.saturating_add(1)
        }
        None => keys,
    }
}

/// How many keys the tokens of a text lock, counted up to one more than a line may have, and how
/// many bytes the longest has.
pub(crate) fn locks_in(text: &str) -> (usize, usize) {
    let mut seen = [""; MOST_COUNTED];
    let mut keys: usize = 0;
    let mut longest = 0;
    for word in text.split(' ') {
        if let Some(key) = lock_key(word) {
            longest = key.len().max(longest);
            keys = counted(&mut seen, keys, key);
        }
    }
    (keys, longest)
}

/// What is wrong with a number up to this, and not below the least.
fn trouble_of_number(
    front: &str,
    word: &str,
    (least, most): (u32, u32),
    said: &'static str,
) -> Option<&'static str> {
    let (key, value) = key_and_value(word);
    if is_among(front, key) {
        return Some("it stands twice");
    }
    match number_up_to(most, value) {
        Some(number) if number >= least => None,
        _ => Some(said),
    }
}

/// Whether a text is refused as a tag. Want of memory hides no refusal: so then it is none.
fn is_refused(alloc: Global, text: &str) -> bool
    ensures { result ≡ is_some (tag_refusal text.now) }
{
    match tag_of(alloc, text) {
        Ok(_) | Err(TagFault::NoMemory) => false,
        Err(_) => true,
    }
}

/// What is wrong with a tag, which stands behind its sign.
fn trouble_of_tag(alloc: Global, word: &str) -> Option<&'static str> {
    if is_refused(alloc, word.strip_prefix('#').unwrap_or(word)) {
        return Some("a tag is not empty, and has no control character and none of , ( ) & | !");
    }
    None
}

/// What is wrong with a lock.
fn trouble_of_lock(word: &str) -> Option<&'static str> {
    if key_and_mode(key_and_value(word).1).0.is_empty() {
        return Some("a lock is lock=KEY, lock=KEY:r or lock=KEY:rw, with a KEY that is not empty");
    }
    None
}

/// What is wrong with a mode behind these tokens.
fn trouble_of_mode(front: &str) -> Option<&'static str> {
    if is_among(front, Attribute::Runs(Mode::Concurrent).key())
        || is_among(front, Attribute::Runs(Mode::SameThread).key())
    {
        return Some("a line has one mode at most");
    }
    None
}

/// What is wrong with this attribute, behind these tokens, if something is.
fn trouble_of(
    alloc: Global,
    front: &str,
    word: &str,
    attribute: Attribute,
) -> Option<&'static str> {
    match attribute {
        Attribute::Tag => trouble_of_tag(alloc, word),
        Attribute::Spin => {
            let said = "spin=N has an N from 0 to 1,000,000";
            trouble_of_number(front, word, (0, LONGEST_SPIN), said)
        }
        Attribute::Pulls => {
            let said = "pulls=N has an N from 0 to 4,096";
            trouble_of_number(front, word, (0, MOST_PULLS), said)
        }
        Attribute::Slow => {
            let said = "@slow=MS has an MS from 1 to 86,400,000";
            trouble_of_number(front, word, (1, LONGEST_LIMIT), said)
        }
        Attribute::Lock => trouble_of_lock(word),
        Attribute::Runs(_) => trouble_of_mode(front),
        Attribute::Isolated => None,
    }
}

/// What stands in a text before this rest of it, whose length alone is looked at, so that a long
/// line is not read again for each token.
fn front_of<'a>(text: &'a str, rest: &str) -> &'a str {
    let at = text.len().saturating_sub(rest.len());
    match text.split_at_checked(at) {
        Some((front, _)) => front,
        None => "",
    }
}

/// What follows the attributes that are in order, of a line with this keyword, whose attributes
/// and verdict are this text; and what is wrong with the attribute that stands there, if one does.
pub(crate) fn first_trouble<'a>(
    alloc: Global,
    first: Word,
    text: &'a str,
) -> (&'a str, Option<&'static str>) {
    let mut left = text;
    for _ in 0..text.len() {
        let (word, rest) = cut(left);
        let Some(attribute) = Attribute::of(first, word) else {
            return (left, None);
        };
        let trouble = trouble_of(alloc, front_of(text, left), word, attribute);
        if trouble.is_some() {
            return (left, trouble);
        }
        left = rest;
    }
    (left, None)
}
