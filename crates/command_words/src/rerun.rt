//! The arguments that a saved run stands for.

ghost use Rattle.std.specs.Prelude.{◌≡◌, ◌⊎◌, ◌++◌, ◌∷◌, [], ℕ, List, IfOk, IfErr, OnOk, map, string_bytes};
ghost use Rattle.command_words.specs.RerunWords.{option_word, words_with, words_only, words_of};
ghost use Rattle.saved_runs.specs.Lines.{Tell, IsFirstBad, whole_lines};
ghost use Rattle.saved_runs.specs.declared.told.Told.{Told};

use launch_options::LaunchFault;
use launch_options::option_names::{EXCLUDE_NAME, EXCLUDE_UNIQUE_ID, RERUN};
use saved_runs::{Again, SavedFault, SavedRun};
use std::alloc::{AllocError, Global};
use unique_id::UniqueId;

/// The pattern that each name matches.
const ANY_NAME: &str = "*";

/// The argument of an option with its value.
fn option_word(alloc: Global, name: &str, value: &str) -> Result<String, AllocError>
    ensures { IfOk result (λ word. string_bytes word ≡ option_word name.now value.now) }
{
    format!(in alloc; "--{name}={value}")
}

/// The arguments of an option that is given with each of these ids.
fn words_with(alloc: Global, name: &str, ids: &[UniqueId]) -> Result<Vec<String>, AllocError>
    ensures { IfOk result (λ words. map string_bytes words.items ≡ words_with name.now ids.now) }
{
    let mut words = Vec::new(alloc);
    for id in ids {
        words.push(option_word(alloc, name, id.text())?)?;
    }
    Ok(words)
}

/// The arguments by which just these are run again; where there is none, nothing is.
fn words_only(alloc: Global, ids: &[UniqueId]) -> Result<Vec<String>, AllocError>
    ensures { IfOk result (λ words. map string_bytes words.items ≡ words_only ids.now) }
{
    if !ids.is_empty() {
        return words_with(alloc, RERUN, ids);
    }
    let mut words = Vec::new(alloc);
    words.push(option_word(alloc, EXCLUDE_NAME, ANY_NAME)?)?;
    Ok(words)
}

/// The arguments by which a run is made again.
fn words_of(alloc: Global, run: &SavedRun) -> Result<Vec<String>, AllocError>
    ensures { IfOk result (λ words. map string_bytes words.items ≡ words_of run.now) }
{
    match run.again(alloc)? {
        Again::Only(ids) => words_only(alloc, ids.as_slice()),
        Again::AllBut(ids) => words_with(alloc, EXCLUDE_UNIQUE_ID, ids.as_slice()),
    }
}

/// The run that was saved, or the line that is none of one.
fn saved_run(alloc: Global, text: &str) -> Result<SavedRun, LaunchFault>
    ensures told { IfOk result (λ run. Tell (whole_lines text.now) run) }
    ensures bad { IfErr result (λ fault. (number : ℕ) → fault ≡ LaunchFault.BadSavedLine number →
        IsFirstBad number (whole_lines text.now)) }
    ensures real { IfErr result (λ fault. (fault ≡ LaunchFault.NoMemory)
        ⊎ ((number : ℕ) × (fault ≡ LaunchFault.BadSavedLine number))) }
{
    match SavedRun::read(alloc, text) {
        Ok(run) => Ok(run),
        Err(SavedFault::NoMemory) => Err(LaunchFault::NoMemory),
        Err(SavedFault::BadLine(number)) => Err(LaunchFault::BadSavedLine(number)),
    }
}

/// The arguments that `--rerun-failed` with a file of this text stands for: those by which what failed in
/// it is run again, and, after a run that was cut off, what had not ended. Refused (109, at its
/// number) is a line that is neither one of a feed nor one of the JSON of a run.
pub fn rerun_words(alloc: Global, text: &str) -> Result<Vec<String>, LaunchFault>
    ensures words { IfOk result (λ words. (told : List Told) × Tell (whole_lines text.now) told
        × (map string_bytes words.items ≡ words_of told)) }
    ensures bad { IfErr result (λ fault. (number : ℕ) → fault ≡ LaunchFault.BadSavedLine number →
        IsFirstBad number (whole_lines text.now)) }
    ensures real { IfErr result (λ fault. (fault ≡ LaunchFault.NoMemory)
        ⊎ ((number : ℕ) × (fault ≡ LaunchFault.BadSavedLine number))) }
{
    let run = saved_run(alloc, text)?;
    Ok(words_of(alloc, &run)?)
}
