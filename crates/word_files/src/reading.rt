//! The arguments of a text.

ghost use Rattle.std.specs.Prelude.{◌≡◌, ◌++◌, ◌∷◌, [], List, Some, map, string_bytes, IfOk, IfSome, OnOk};
ghost use Rattle.std.specs.List.{AllByRecursion};
ghost use Rattle.std.specs.Str.{chars};
ghost use Rattle.word_files.specs.Grammar.{Item, End, IsItem, IsEnd, IsWritten, written, words_written};
ghost use Rattle.word_files.specs.Reading.{word_after, words_after, words_at, words_in, texts_in};

use crate::place::{Place, ends_word, keeps, next_place};
use std::alloc::{AllocError, Global};

/// Puts the argument that has ended behind the others, and begins another.
fn end_word(alloc: Global, word: &mut String, words: &mut Vec<String>) -> Result<(), AllocError>
    ensures word { OnOk result (string_bytes word.new ≡ []) }
    ensures words { OnOk result (map string_bytes words.new.items ≡ map string_bytes words.old.items
        ++ string_bytes word.old ∷ []) }
{
    words.push(std::mem::replace(word, String::new(alloc)))?;
    Ok(())
}

/// Takes a character into the argument, where it is one of the argument's, and puts the argument behind the others
/// where the character ends it.
fn take_char(
    alloc: Global,
    place: Place,
    c: char,
    word: &mut String,
    words: &mut Vec<String>,
) -> Result<(), AllocError>
    ensures word { OnOk result (string_bytes word.new ≡ word_after place c (string_bytes word.old)) }
    ensures words { OnOk result (map string_bytes words.new.items ≡ words_after place c (string_bytes word.old)
        (map string_bytes words.old.items)) }
{
    if ends_word(place, c) {
        return end_word(alloc, word, words);
    }
    if keeps(place, c) {
        return word.push(c);
    }
    Ok(())
}

/// The arguments of a text that ends at this place.
fn words_at_end(
    place: Place,
    word: String,
    mut words: Vec<String>,
) -> Result<Option<Vec<String>>, AllocError>
    ensures { IfOk result (λ all. texts_in all ≡ words_at place (string_bytes word) (map string_bytes words.items)) }
{
    match place {
        Place::Between | Place::Comment => Ok(Some(words)),
        Place::Word => {
            words.push(word)?;
            Ok(Some(words))
        }
        Place::Escape | Place::SingleQuotes | Place::DoubleQuotes | Place::DoubleEscape => Ok(None),
    }
}

/// The arguments of a text, read character by character.
fn read_words(alloc: Global, text: &str) -> Result<Option<Vec<String>>, AllocError>
    ensures { IfOk result (λ words. texts_in words ≡ words_in text.now) }
{
    let mut place = Place::Between;
    let mut word = String::new(alloc);
    let mut words = Vec::new(alloc);
    for c in text.chars() {
        take_char(alloc, place, c, &mut word, &mut words)?;
        place = next_place(place, c);
    }
    words_at_end(place, word, words)
}

/// The arguments of a text, or None where a quote is not closed in it, or nothing stands behind its last
/// backslash.
pub fn words_in(alloc: Global, text: &str) -> Result<Option<Vec<String>>, AllocError>
    ensures exact { IfOk result (λ words. texts_in words ≡ words_in text.now) }
    // However arguments are written, they are read.
    ensures written { IfOk result (λ words. (items : List Item) (end : End) → AllByRecursion IsItem items → IsEnd end
        → chars text.now ≡ written items end → texts_in words ≡ Some (words_written items end)) }
    // And what is read was written so.
    ensures only { IfOk result (λ words. IfSome (texts_in words) (λ all. IsWritten (chars text.now) all)) }
{
    read_words(alloc, text)
}
