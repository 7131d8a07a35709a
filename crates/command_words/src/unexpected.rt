//! What is said of an argument that clap does not expect.

use crate::foreign_options::meant_by_option;
use clap::Command;
use std::alloc::{AllocError, Global};
use suite_messages::nearest_known;

/// What clap says before an argument that it does not expect.
const UNEXPECTED: &str = "error: unexpected argument '";

/// What clap says behind all else.
const HELP: &str = "\nFor more information, try '--help'.\n";

/// How many bytes a line of the options has at most.
const LONGEST_LINE: usize = 100;

/// The argument that clap does not expect, if that is what it says.
pub(crate) fn unexpected_word(said: &str) -> Option<&str> {
    let (word, _) = said.strip_prefix(UNEXPECTED)?.split_once("' found")?;
    Some(word)
}

/// The names of a command's options.
fn names_of<'a>(alloc: Global, command: &Command<'a>) -> Result<Vec<&'a str>, AllocError> {
    let mut names = Vec::new(alloc);
    for option in command.get_arguments() {
        if let Some(name) = option.get_long() {
            names.push(name)?;
        }
    }
    Ok(names)
}

/// What clap says, with this tip.
fn with_tip(alloc: Global, word: &str, tip: &str) -> Result<String, AllocError> {
    format!(in alloc; "{UNEXPECTED}{word}' found\n\n  tip: {tip}\n{HELP}")
}

/// Appends the names of options, in lines.
fn push_names(text: &mut String, names: &[&str]) -> Result<(), AllocError> {
    text.push_str("\nOptions:")?;
    let mut column = LONGEST_LINE;
    for name in names {
        let width = name.len().saturating_add(3);
        if column.saturating_add(width) > LONGEST_LINE {
            text.push_str("\n ")?;
            column = 1;
        }
        write!(text, " --{name}")?;
        column = column.saturating_add(width);
    }
    text.push_str("\n")
}

/// The whole of an argument of which clap says one dash and a letter, if these have a longer one.
fn whole_word<'a>(words: &'a [String], word: &'a str) -> &'a str {
    if word.len() != 2 || !word.starts_with('-') {
        return word;
    }
    match words.iter().find(|given| given.as_str().starts_with(word)) {
        Some(given) => given.as_str(),
        None => word,
    }
}

/// The name of the option that an argument is meant to be: without dashes, and what stands behind an `=`.
fn name_in(word: &str) -> &str {
    let name = word.trim_start_matches('-');
    name.split_once('=').unwrap_or((name, "")).0
}

/// An argument with a dash as the long option of this name, and any other as it is.
fn long_option(alloc: Global, word: &str, name: &str) -> Result<String, AllocError> {
    if word.starts_with('-') {
        format!(in alloc; "--{name}")
    } else {
        String::from_str(alloc, word)
    }
}

/// What is said of an argument that is like none of these options, and of which clap says this: which options
/// there are, if the argument has a dash.
fn said_of_unknown(
    alloc: Global,
    names: &[&str],
    word: &str,
    said: &str,
) -> Result<String, AllocError> {
    if !word.starts_with('-') {
        return String::from_str(alloc, said);
    }
    let mut text = format!(in alloc; "{UNEXPECTED}{word}' found\n")?;
    push_names(&mut text, names)?;
    text.push_str(HELP)?;
    Ok(text)
}

/// What is said of an argument that is like the option of this name, and of which clap says this.
fn said_of_near(alloc: Global, near: &str, word: &str, said: &str) -> Result<String, AllocError> {
    let tip = format!(in alloc; "a similar argument exists: '--{near}'")?;
    if said.contains(tip.as_str()) {
        return String::from_str(alloc, said);
    }
    with_tip(alloc, word, tip.as_str())
}

/// What is said of this argument, which clap does not expect among these, and of which it says this.
pub(crate) fn said_of_unexpected(
    alloc: Global,
    command: &Command<'_>,
    words: &[String],
    word: &str,
    said: &str,
) -> Result<String, AllocError> {
    if !word.starts_with('-') && word.contains('#') {
        let tip = format!(in alloc; "write --select-method '{word}'")?;
        return with_tip(alloc, word, tip.as_str());
    }
    let name = name_in(whole_word(words, word));
    let long = long_option(alloc, word, name)?;
    if let Some(meant) = meant_by_option(long.as_str()) {
        return with_tip(alloc, word, meant);
    }
    let names = names_of(alloc, command)?;
    if let Some(near) = nearest_known(alloc, names.as_slice(), name)? {
        return said_of_near(alloc, near, word, said);
    }
    match meant_by_option(word) {
        Some(meant) => with_tip(alloc, word, meant),
        None => said_of_unknown(alloc, names.as_slice(), word, said),
    }
}
