//! The arguments that the arguments of a command line stand for, of which some name saved runs.

ghost use Rattle.std.specs.Prelude.{◌≡◌, ◌≢◌, ◌++◌, ◌∷◌, [], List, map, string_bytes, IfOk, IfErr, MatchResult, OnOk};
ghost use Rattle.launch_options.specs.declared.fault.LaunchFault.TheVariants.{NoMemory};
ghost use Rattle.command_words.specs.Expansions.{with_last, ArePieces, IsNoRun, IsRerun, IsUnreadFile, IsUnreadRun};
ghost use Rattle.command_words.specs.Expansions.{IsWhole, MeansWords};
ghost use Rattle.command_words.specs.Roles.{meaning_of, Saved};
ghost use Rattle.word_files.specs.Reading.{Text};

use crate::rerun::rerun_words;
use crate::rerun_role::{Before, RERUN_FAILED, Role, before_of, role_of};
use launch_options::LaunchFault;
use std::alloc::{AllocError, Global};
use word_files::{Facts, TextFiles, expanded_words};

/// The arguments that the saved run of this file stands for.
fn saved_words<F: TextFiles>(
    alloc: Global,
    files: &mut F,
    name: &str,
) -> Result<Vec<String>, LaunchFault>
    ensures words { IfOk result (λ words. ArePieces (map string_bytes words.items)) }
    ensures refused { IfErr result (λ fault. fault ≢ NoMemory → IsNoRun fault) }
{
    match files.text(alloc, name)? {
        Some(text) => rerun_words(alloc, text.as_str()),
        None => Err(LaunchFault::UnreadRun),
    }
}

/// Appends an argument.
fn push_word(alloc: Global, all: &mut Vec<String>, word: &str) -> Result<(), AllocError>
    ensures { OnOk result (map string_bytes all.new.items ≡ map string_bytes all.old.items ++ word.now ∷ []) }
{
    all.push(String::from_str(alloc, word)?)?;
    Ok(())
}

/// Appends the arguments that the saved run of this file stands for.
fn push_saved<F: TextFiles>(
    alloc: Global,
    all: &mut Vec<String>,
    files: &mut F,
    name: &str,
) -> Result<(), LaunchFault>
    ensures words { OnOk result ((more : List Text) × ArePieces more
        × (map string_bytes all.new.items ≡ map string_bytes all.old.items ++ more)) }
    ensures refused { IfErr result (λ fault. fault ≢ NoMemory → IsNoRun fault) }
{
    let mut words = saved_words(alloc, files, name)?;
    all.append(&mut words)?;
    Ok(())
}

/// Appends the arguments that an argument of this role stands for.
fn push_pieces<F: TextFiles>(
    alloc: Global,
    all: &mut Vec<String>,
    files: &mut F,
    role: Role<'_>,
) -> Result<(), LaunchFault>
    ensures words { OnOk result ((more : List Text) × MeansWords (meaning_of role.entry) more
        × (map string_bytes all.new.items ≡ map string_bytes all.old.items ++ more)) }
    ensures refused { IfErr result (λ fault. fault ≢ NoMemory → (file : Text) × (meaning_of role.entry ≡ Saved file)
        × IsNoRun fault) }
{
    match role {
        Role::Itself(word) => Ok(push_word(alloc, all, word)?),
        Role::Naming => Ok(()),
        Role::Saved(file) => push_saved(alloc, all, files, file),
    }
}

/// Appends the option again where its file is missing.
fn push_last(alloc: Global, all: &mut Vec<String>, last: Before) -> Result<(), AllocError>
    ensures { OnOk result (map string_bytes all.new.items ≡ with_last last (map string_bytes all.old.items)) }
{
    match last {
        Before::RerunFailed => push_word(alloc, all, RERUN_FAILED),
        Before::Nothing | Before::Other => Ok(()),
    }
}

/// The arguments that these stand for, of which the first is the program's name: in place of `--rerun-failed`
/// and its file those by which what failed in that run is run again. A file that cannot be read is
/// refusal 108, and a line that is none of a saved run 109 at its number.
fn words_again<F: TextFiles>(
    alloc: Global,
    words: &[String],
    files: &mut F,
) -> Result<Vec<String>, LaunchFault>
    ensures { MatchResult result (λ all. IsRerun (map string_bytes words.now) (map string_bytes all.items))
        (λ fault. fault ≢ NoMemory → IsUnreadRun (map string_bytes words.now) fault) }
{
    let mut all = Vec::new(alloc);
    let mut before = Before::Nothing;
    for word in words {
        push_pieces(alloc, &mut all, files, role_of(before, word.as_str()))?;
        before = before_of(before, word.as_str());
    }
    push_last(alloc, &mut all, before)?;
    Ok(all)
}

/// The arguments that these stand for, of which the first is the program's name: those of the files that
/// they name, behind them what the system tells where they ask for it (`expanded_words` of `word_files`),
/// and in these in place of `--rerun-failed` and its file the arguments by which what failed in that run is
/// run again. Refusals: 110 of a file of arguments, and then 108 and 109 of a saved run.
pub fn all_words<F: TextFiles>(
    alloc: Global,
    words: &[String],
    files: &mut F,
    facts: &Facts<'_>,
) -> Result<Vec<String>, LaunchFault>
    ensures { MatchResult result (λ all. IsWhole facts.now (map string_bytes words.now) (map string_bytes all.items))
        (λ fault. fault ≢ NoMemory → IsUnreadFile facts.now (map string_bytes words.now) fault) }
{
    let between = expanded_words(alloc, words, files, facts)?;
    words_again(alloc, between.as_slice(), files)
}
