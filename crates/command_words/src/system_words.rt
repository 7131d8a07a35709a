//! The arguments that the system gives the program.

ghost use Rattle.std.specs.Prelude.{◌≡◌, IfOk, IfErr, MatchResult};
ghost use Rattle.std.specs.IoError.{error_kind};
ghost use Rattle.std.specs.Vec.Iter.{into_iter_items};
ghost use Rattle.launch_options.specs.declared.fault.LaunchFault.TheVariants.{NoMemory};
ghost use Rattle.command_words.specs.GivenWords.{IsGivenFault};

use launch_options::LaunchFault;
use std::alloc::{AllocError, Global};
use std::env::Args;
use std::io::{self, ErrorKind};

/// What it means that the system gave no arguments: 105, since some of them are not UTF-8, but for want
/// of memory.
fn given_fault(error: &io::Error) -> LaunchFault
    ensures { IsGivenFault (error_kind error.now) result }
{
    match error.kind() {
        ErrorKind::OutOfMemory => LaunchFault::NoMemory,
        _ => LaunchFault::BadWords,
    }
}

/// The arguments that a system hands out one by one, in a list.
fn listed(alloc: Global, words: Args) -> Result<Vec<String>, AllocError>
    ensures { IfOk result (λ all. all.items ≡ into_iter_items words) }
{
    words.collect(alloc)
}

/// The arguments that the system gave, all of them, the program's own name first. Arguments that are not
/// UTF-8 are refusal 105.
pub fn given_words(alloc: Global, words: io::Result<Args>) -> Result<Vec<String>, LaunchFault>
    ensures all { IfOk words (λ given. MatchResult result (λ all. all.items ≡ into_iter_items given)
        (λ fault. fault ≡ NoMemory)) }
    ensures refused { IfErr words (λ error. MatchResult result (λ _. ⊥)
        (λ fault. IsGivenFault (error_kind error) fault)) }
{
    match words {
        Ok(words) => Ok(listed(alloc, words)?),
        Err(error) => Err(given_fault(&error)),
    }
}
