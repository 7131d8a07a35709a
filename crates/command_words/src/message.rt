//! What is said of a refusal, by the arguments that were given and what was to be run.

ghost use Rattle.std.specs.Prelude.{◌≡◌};
ghost use Rattle.messages.specs.Sentences.{sentence_by};

use crate::option_names::command;
use crate::unexpected::{said_of_unexpected, unexpected_word};
use crate::words::given_by;
use launch_options::LaunchFault;
use messages::{Message, Subject};
use std::alloc::{AllocError, Global};
use word_files::file_named;

/// What there is to say of arguments that are not UTF-8, none of which is known.
const OF_NO_TEXT: &str = "A word of the command line is not UTF-8.\n";

/// What there is to say of a file that is no saved run.
const OF_SAVED_RUN: &str =
    "--rerun-failed names a file that --details testfeed or json has printed.\n";

/// What there is to say of an argument that is no option: where that comes from which is run.
fn said_of_no_option(subject: Subject<'_>) -> &'static str {
    match subject {
        Subject::Suite(_) => {
            "\nThe suite is read from standard input, or from FILE with --suite FILE.\n"
        }
        Subject::Tests(_) => "\nThe tests are the program's own, and no suite is read.\n",
    }
}

/// What clap says of arguments that it refuses; where that is one that it does not expect, with what is meant by it.
fn with_cure(
    alloc: Global,
    words: &[String],
    subject: Subject<'_>,
    said: String,
) -> Result<String, AllocError> {
    let Some(word) = unexpected_word(said.as_str()) else {
        return Ok(said);
    };
    let command = command(alloc, subject)?;
    let mut cured = said_of_unexpected(alloc, &command, words, word, said.as_str())?;
    if !word.starts_with('-') {
        cured.push_str(said_of_no_option(subject))?;
    }
    Ok(cured)
}

/// What clap says of arguments that it refuses: what is wrong with them.
fn said_by_clap(
    alloc: Global,
    words: &[String],
    subject: Subject<'_>,
) -> Result<String, AllocError> {
    match command(alloc, subject)?.try_get_matches_from(words) {
        Ok(_) => Ok(String::new(alloc)),
        Err(error) => {
            let said = format!(in alloc; "{error}")?;
            with_cure(alloc, words, subject, said)
        }
    }
}

/// What there is to say of the file of this number, which is no file of arguments.
fn said_of_file(alloc: Global, words: &[String], number: usize) -> Result<String, AllocError> {
    let Some(file) = file_named(words, number) else {
        return Ok(String::new(alloc));
    };
    format!(in alloc;
        "The file is {file}. It is text in UTF-8: words between white space, in which each quote is closed.\n\
        A word @FILE stands for the words of FILE; write @@NAME for the word @NAME.\n"
    )
}

/// The message of a refusal of arguments that ask for something, or that clap refuses.
fn message_by_words(
    alloc: Global,
    fault: LaunchFault,
    words: &[String],
    subject: Subject<'_>,
) -> Message
    ensures { result.sentence.now ≡ sentence_by subject.entry fault }
{
    match given_by(alloc, words) {
        Ok(given) => messages::message_of(alloc, fault, &given, subject),
        Err(_) => match said_by_clap(alloc, words, subject) {
            Ok(said) => Message::with_details(alloc, fault, subject, said.as_str()),
            Err(_) => Message::with_details(alloc, fault, subject, ""),
        },
    }
}

/// The message of a refusal of these arguments, of a file that they name, or of what they were to run. It
/// begins with the refusal's sentence; below it is as much as there was memory for.
pub fn message_of(
    alloc: Global,
    fault: LaunchFault,
    words: &[String],
    subject: Subject<'_>,
) -> Message
    ensures { result.sentence.now ≡ sentence_by subject.entry fault }
{
    match fault {
        LaunchFault::UnreadWords(number) => match said_of_file(alloc, words, number) {
            Ok(said) => Message::with_details(alloc, fault, subject, said.as_str()),
            Err(_) => Message::with_details(alloc, fault, subject, ""),
        },
        LaunchFault::BadWords if words.is_empty() => {
            Message::with_details(alloc, fault, subject, OF_NO_TEXT)
        }
        LaunchFault::UnreadRun | LaunchFault::BadSavedLine(_) => {
            Message::with_details(alloc, fault, subject, OF_SAVED_RUN)
        }
        _ => message_by_words(alloc, fault, words, subject),
    }
}
