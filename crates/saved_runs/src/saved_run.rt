//! A saved run, read back.

ghost use Rattle.std.specs.Prelude.{◌≡◌, ℕ, IfOk, IfErr};
ghost use Rattle.saved_runs.specs.RunAgain.{IsAgain};
ghost use Rattle.saved_runs.specs.Lines.{Tell, IsFirstBad, whole_lines};
ghost use Rattle.unique_id.specs.Answers.{texts};

use crate::again::{Again, done_ids, failed_ids, is_whole};
use crate::fault::SavedFault;
use crate::lines::{line_told, whole_lines};
use crate::told::Told;
use std::alloc::{AllocError, Global};
use std::marker::Model;

/// A run that was saved, as its feed or as JSON: what its lines tell, in their order. It may have been
/// cut off anywhere.
#[derive(Drop)]
pub struct SavedRun {
    told: Vec<Told>,
}

impl Model for SavedRun {
    ghost use Rattle.std.specs.Prelude.{List};
    ghost use Rattle.saved_runs.specs.declared.told.Told.{Told};

    ghost Value = { List Told };

    ghost view = { λ run. run.told.items };
}

/// What these lines tell.
fn all_told(alloc: Global, lines: &[&str]) -> Result<Vec<Told>, SavedFault>
    ensures told { IfOk result (λ told. Tell (texts lines.now) told.items) }
    ensures bad { IfErr result (λ fault. (number : ℕ) → fault ≡ SavedFault.BadLine number →
        IsFirstBad number (texts lines.now)) }
{
    let mut told = Vec::new(alloc);
    let mut number = 1;
    for line in lines {
        let Some(one) = line_told(alloc, line)? else {
            return Err(SavedFault::BadLine(number));
        };
        told.push(one)?;
        number += 1;
    }
    Ok(told)
}

impl SavedRun {
    /// What the lines of a text tell. A last line that no line feed ends was cut off, and is passed over.
    /// Refused is a text with a line that is neither one of a feed nor one of the JSON of a run.
    pub fn read(alloc: Global, text: &str) -> Result<SavedRun, SavedFault>
        ensures told { IfOk result (λ run. Tell (whole_lines text.now) run) }
        ensures bad { IfErr result (λ fault. (number : ℕ) → fault ≡ SavedFault.BadLine number →
            IsFirstBad number (whole_lines text.now)) }
    {
        let lines = whole_lines(alloc, text)?;
        let told = all_told(alloc, lines.as_slice())?;
        Ok(SavedRun { told })
    }

    /// What its lines tell, in their order.
    pub fn told(&self) -> &[Told]
        ensures { result.now ≡ self.now }
    {
        self.told.as_slice()
    }

    /// What is to be run again: what failed, and, after a run that was cut off, what had not ended.
    pub fn again(&self, alloc: Global) -> Result<Again, AllocError>
        ensures { IfOk result (λ again. IsAgain again self.now) }
    {
        let told = self.told();
        if is_whole(told) {
            Ok(Again::Only(failed_ids(alloc, told)?))
        } else {
            Ok(Again::AllBut(done_ids(alloc, told)?))
        }
    }
}
