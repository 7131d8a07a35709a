//! The arguments that the arguments of a command line stand for.

ghost use Rattle.std.specs.Prelude.{◌≡◌, ◌≢◌, ℕ, List, map, string_bytes, MatchResult};
ghost use Rattle.launch_options.specs.declared.fault.LaunchFault.TheVariants.{NoMemory};
ghost use Rattle.word_files.specs.Expansions.{StandFor, IsExpansion, IsUnread};
ghost use Rattle.word_files.specs.declared.role.Before.{Before};

use crate::facts::{Facts, with_told};
use crate::files::{TextFiles, pieces_of};
use crate::role::{Before, before_of, files_of, role_of};
use launch_options::LaunchFault;
use std::alloc::Global;

/// The arguments that these stand for by the files that they name.
fn by_files<F: TextFiles>(
    alloc: Global,
    words: &[String],
    files: &mut F,
) -> Result<Vec<String>, LaunchFault>
    ensures { MatchResult result (λ all. (last : Before) × (number : ℕ) × StandFor (map string_bytes words.now) last
        (map string_bytes all.items) number)
        (λ fault. fault ≢ NoMemory → IsUnread (map string_bytes words.now) fault) }
{
    let mut all = Vec::new(alloc);
    let mut before = Before::Nothing;
    let mut number = 0usize;
    for word in words {
        let role = role_of(before, word.as_str());
        number += files_of(role);
        let Some(mut pieces) = pieces_of(alloc, files, role)? else {
            return Err(LaunchFault::UnreadWords(number));
        };
        all.append(&mut pieces)?;
        before = before_of(word.as_str());
    }
    Ok(all)
}

/// The arguments that these stand for, of which the first is the program's name: those of the files that
/// they name, and behind them what the system tells where they ask for it. A file that cannot be read,
/// or is none of arguments, is refusal 110 at its number, from 1.
pub fn expanded_words<F: TextFiles>(
    alloc: Global,
    words: &[String],
    files: &mut F,
    facts: &Facts<'_>,
) -> Result<Vec<String>, LaunchFault>
    ensures { MatchResult result (λ all. IsExpansion facts.now (map string_bytes words.now) (map string_bytes all.items))
        (λ fault. fault ≢ NoMemory → IsUnread (map string_bytes words.now) fault) }
{
    let all = by_files(alloc, words, files)?;
    Ok(with_told(alloc, all, facts)?)
}

/// The name of the file of this number, from 1, among those that the arguments name.
pub fn file_named(words: &[String], number: usize) -> Option<&str> {
    let mut before = Before::Nothing;
    let mut named = 0usize;
    for word in words {
        let role = role_of(before, word.as_str());
        if let Some(file) = role.into_file() {
            if named + 1 == number {
                return Some(file);
            }
            named += 1;
        }
        before = before_of(word.as_str());
    }
    None
}
