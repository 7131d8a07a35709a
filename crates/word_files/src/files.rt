//! Reading the files that arguments name.

ghost use Rattle.std.specs.Prelude.{◌≡◌, ◌∷◌, [], Option, map, string_bytes, IfOk, option_map};
ghost use Rattle.word_files.specs.Expansions.{joined_behind, pieces, words_of};
ghost use Rattle.word_files.specs.Reading.{Text, texts_in};
ghost use Rattle.word_files.specs.Roles.{meaning_of};

use crate::reading::words_in;
use crate::role::Role;
use std::alloc::{AllocError, Global};

/// Files of text, by their names.
pub trait TextFiles {
    /// The text of the file of this name, or None where it cannot be read or is not UTF-8.
    fn text(&mut self, alloc: Global, name: &str) -> Result<Option<String>, AllocError>;

    /// The first so many bytes of the file of this name, or None where it cannot be read.
    fn bytes(
        &mut self,
        alloc: Global,
        name: &str,
        most: usize,
    ) -> Result<Option<Vec<u8>>, AllocError>;
}

/// The arguments of the file of this name, if it can be read and is one of arguments.
fn words_of_file<F: TextFiles>(
    alloc: Global,
    files: &mut F,
    name: &str,
) -> Result<Option<Vec<String>>, AllocError>
    ensures { IfOk result (λ words. (text : Option Text) × (texts_in words ≡ words_of text)) }
{
    match files.text(alloc, name)? {
        Some(text) => words_in(alloc, text.as_str()),
        None => Ok(None),
    }
}

/// One argument: this text, and behind it these arguments, with a blank between each two.
fn joined(alloc: Global, front: &str, words: &[String]) -> Result<Vec<String>, AllocError>
    ensures { IfOk result (λ all. map string_bytes all.items ≡ joined_behind front.now (map string_bytes words.now)) }
{
    let mut word = String::from_str(alloc, front)?;
    word.push_str(words.join(alloc, " ")?.as_str())?;
    let mut all = Vec::new(alloc);
    all.push(word)?;
    Ok(all)
}

/// The one argument that `joined` makes of this text and these arguments, if there are arguments.
fn maybe_joined(
    alloc: Global,
    front: &str,
    words: Option<Vec<String>>,
) -> Result<Option<Vec<String>>, AllocError>
    ensures { IfOk result (λ all. texts_in all ≡ option_map (joined_behind front.now) (texts_in words)) }
{
    match words {
        Some(words) => Ok(Some(joined(alloc, front, words.as_slice())?)),
        None => Ok(None),
    }
}

/// This argument alone.
fn alone(alloc: Global, word: &str) -> Result<Vec<String>, AllocError>
    ensures { IfOk result (λ all. map string_bytes all.items ≡ word.now ∷ []) }
{
    let mut all = Vec::new(alloc);
    all.push(String::from_str(alloc, word)?)?;
    Ok(all)
}

/// The arguments that an argument of this role stands for, if the file that it names can be read and is one of
/// arguments.
pub(crate) fn pieces_of<F: TextFiles>(
    alloc: Global,
    files: &mut F,
    role: Role<'_>,
) -> Result<Option<Vec<String>>, AllocError>
    ensures { IfOk result (λ all. (text : Option Text) × (texts_in all ≡ pieces (meaning_of role.entry) text)) }
{
    match role {
        Role::Itself(word) => Ok(Some(alone(alloc, word)?)),
        Role::WordsOf(file) => words_of_file(alloc, files, file),
        Role::Joined(front, file) => {
            let words = words_of_file(alloc, files, file)?;
            maybe_joined(alloc, front, words)
        }
    }
}
