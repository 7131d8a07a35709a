//! The steps of a replay, by their text.

ghost use Rattle.std.specs.Prelude.{◌≡◌, ◌≤◌, ◌≢◌, List, IfOk, IfErr, IfSome, length, map};
ghost use Rattle.std.specs.List.{position, filter_map};
ghost use Rattle.suite_words.specs.Words.{words_in};
ghost use Rattle.step_text.specs.StepTexts.{step_of, is_bad_word, steps_of};
ghost use Rattle.step_text.specs.StepSpelling.{spelled_step, AreNamable};
ghost use Rattle.scheduling.specs.declared.step.Step.{Step};
ghost use Rattle.step_text.specs.StepAnswers.{GivesSteps};
ghost use Rattle.step_text.specs.StepFaults.{number_of, place_of};
ghost use Rattle.step_text.specs.declared.steps.StepsFault.TheVariants.{NoMemory};

use crate::step_words::step_of;
use scheduling::Step;
use std::alloc::{AllocError, Global};
use thiserror::Error;

/// Why a text of steps was not read.
#[derive(Clone, Copy, Debug, Error)]
pub enum StepsFault {
    #[error("no memory")]
    NoMemory,
    /// The token of this number, from 1, names no step.
    #[error("no step at {0}")]
    BadStep(usize),
}

impl From<AllocError> for StepsFault {
    ghost from_gives = { λ _ e. e ≡ NoMemory };

    fn from(_error: AllocError) -> StepsFault {
        StepsFault::NoMemory
    }
}

impl StepsFault {
    /// The refusal's number.
    pub fn number(&self) -> u8
        ensures { result ≡ number_of self.now }
    {
        match self {
            StepsFault::NoMemory => 0,
            StepsFault::BadStep(_) => 104,
        }
    }

    /// The number of the step, from 1, that the refusal is about, where it is about one.
    pub fn place(&self) -> Option<u64>
        ensures { result ≡ place_of self.now }
    {
        match self {
            StepsFault::NoMemory => None,
            StepsFault::BadStep(number) => Some(*number as u64),
        }
    }
}

/// The place, from 0, of the first token that names no step.
fn bad_word(text: &str) -> Option<usize>
    ensures first { result ≡ position is_bad_word (words_in text.now) }
    ensures few { IfSome result (λ place. place ≤ length text.now) }
{
    text.split(' ')
        .filter(|word| !word.is_empty())
        .position(|word| step_of(word).is_none())
}

/// The steps of the tokens that name one.
fn named_steps(alloc: Global, text: &str) -> Result<Vec<Step>, AllocError>
    ensures { IfOk result (λ steps. steps.items ≡ filter_map step_of (words_in text.now)) }
{
    text.split(' ')
        .filter(|word| !word.is_empty())
        .filter_map(|word| step_of(word))
        .collect(alloc)
}

/// The steps of a text, in order. Errors: the number, from 1, of the first token that names no step.
pub fn parse_steps(alloc: Global, text: &str) -> Result<Vec<Step>, StepsFault>
    ensures exact { GivesSteps result (steps_of text.now) }
    ensures spelled { IfOk result (λ steps. map spelled_step steps.items ≡ words_in text.now) }
    // What spells steps is not refused.
    ensures refused { IfErr result (λ fault. fault ≢ NoMemory → (steps : List Step) → AreNamable steps →
        map spelled_step steps ≢ words_in text.now) }
{
    if let Some(place) = bad_word(text) {
        return Err(StepsFault::BadStep(place + 1));
    }
    Ok(named_steps(alloc, text)?)
}
