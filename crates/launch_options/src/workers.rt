//! What `--workers` asks for: the workers that its arguments of `--config` ask for, and nodes that are
//! concurrent where nobody says what they are.

ghost use Rattle.std.specs.Prelude.{◌≡◌, ◌≢◌, ℕ, List, None, Some, IfOk, IfErr, OnOk, fold};
ghost use Rattle.config_params.specs.Pairs.{pair_of};
ghost use Rattle.std.specs.Option.{option_or};
ghost use Rattle.config_params.specs.Parameters.{answer, answer_over, with_value};
ghost use Rattle.launch_options.specs.declared.fault.LaunchFault.TheVariants.{NoMemory};
ghost use Rattle.launch_options.specs.Asked.{unless_named, workers_refusal};
ghost use Rattle.launch_options.specs.Given.{behind, maybe_behind, values_of};
ghost use Rattle.launch_options.specs.Parameters.{pairs_in, processors_named};
ghost use Rattle.launch_options.specs.Workers.{crew_named as crew_of_name, workers_named as workers_of_name};
ghost use Rattle.launch_options.specs.Workers.{answer_with, has_long_key, is_long_key, params_said, says_long_key};
ghost use Rattle.launch_options.specs.Workers.{usual_answer, words_for, workers_asked, IsSpread};

use crate::asked::Options;
use crate::fault::LaunchFault;
use crate::given::Given;
use crate::parameters::{add_pairs, number_named, params_given};
use crate::setting_keys::{ENABLED, MODE, PARALLELISM, STRATEGY};
use config_params::{Params, Source, pair_of};
use std::alloc::{AllocError, Global};

/// The greatest number of workers.
const MOST_WORKERS: u32 = 64;

/// The value that asks for a worker for each processor.
const AUTO: &str = "auto";

/// The arguments of `--config` that `--workers` stands for; the last lacks its number.
const IS_ENABLED: &str = "junit.jupiter.execution.parallel.enabled=true";

const IS_FIXED: &str = "junit.jupiter.execution.parallel.config.strategy=fixed";

const HAS_WORKERS: &str = "junit.jupiter.execution.parallel.config.fixed.parallelism=";

/// The mode of nodes where `--workers` is given and nobody says another.
const CONCURRENT: &str = "concurrent";

/// How many workers a text asks for where there are so many processors.
fn crew_named(processors: u32, text: &str) -> Result<u32, LaunchFault>
    ensures named { IfOk result (λ crew. crew_of_name processors text.now ≡ Some crew) }
    ensures refused { IfErr result (λ fault. unless_named (crew_of_name processors text.now) ≡ Some fault) }
{
    if text == AUTO {
        return Ok(processors.min(MOST_WORKERS));
    }
    number_named(MOST_WORKERS, MOST_WORKERS, Some(text))
}

/// What `--workers` asks for where there are so many processors, if it is given: a number from 1 to
/// 64, or by `auto` a worker for each processor, but 64 at most.
pub fn workers_named(processors: u32, text: Option<&str>) -> Result<Option<u32>, LaunchFault>
    ensures named { IfOk result (λ workers. workers_of_name processors (maybe_behind text.entry) ≡ Some workers) }
    ensures refused { IfErr result (λ fault. unless_named (workers_of_name processors (maybe_behind text.entry)) ≡ Some
        fault) }
{
    match text {
        Some(text) => Ok(Some(crew_named(processors, text)?)),
        None => Ok(None),
    }
}

/// Whether `--workers` stands for an argument of this key.
fn is_long_key(key: &str) -> bool
    ensures { result ≡ is_long_key key.now }
{
    key == ENABLED || key == STRATEGY || key == PARALLELISM
}

/// Whether an argument of `--config` says a key that `--workers` says.
pub fn has_long_key(word: &str) -> bool
    ensures { result ≡ has_long_key (pair_of 1 word.now) }
{
    match pair_of(1, word) {
        Ok(pair) => is_long_key(pair.key),
        Err(_) => false,
    }
}

/// Whether one of these arguments says a key that `--workers` says.
fn says_long_key(words: &[&str]) -> bool
    ensures { result ≡ says_long_key (behind words.now) }
{
    for word in words {
        if has_long_key(word) {
            return true;
        }
    }
    false
}

/// What `--workers` asks for where there are so many processors. Refused are what is no number of
/// workers, and that `--config` says one of its keys too.
pub(crate) fn workers_given(given: &Given<'_>, processors: u32) -> Result<Option<u32>, LaunchFault>
    requires { processors_named (maybe_behind given.now.processors) ≡ Some processors }
    ensures asked { IfOk result (λ workers. workers_asked (values_of given.now) ≡ Some workers) }
    ensures accepted { IfOk result (λ _. workers_refusal (values_of given.now) ≡ None) }
    ensures refused { IfErr result (λ fault. workers_refusal (values_of given.now) ≡ Some fault) }
    ensures real { IfErr result (λ fault. fault ≢ NoMemory) }
{
    let workers = workers_named(processors, given.workers)?;
    if given.workers.is_some() && says_long_key(given.config.as_slice()) {
        return Err(LaunchFault::BadWords);
    }
    Ok(workers)
}

/// Puts what `--workers` asks for into what the request says, as its arguments of `--config` do.
pub(crate) fn add_workers(
    alloc: Global,
    params: &mut Params,
    workers: Option<u32>,
) -> Result<(), AllocError>
    ensures { OnOk result (params.new ≡ fold (λ all pair. with_value all Source.Request pair) params.old
        (pairs_in (words_for workers))) }
{
    let Some(number) = workers else {
        return Ok(());
    };
    let has_workers = format!(in alloc; "{HAS_WORKERS}{number}")?;
    let words = [IS_ENABLED, IS_FIXED, has_workers.as_str()];
    add_pairs(alloc, params, Source::Request, words.as_slice())
}

/// Parameters that answer what those of the options do with so many workers, and below it that nodes
/// are concurrent.
fn spread_of(alloc: Global, given: &Given<'_>, number: u32) -> Result<Params, AllocError>
    ensures { IfOk result (λ spread. (key : List ℕ) → answer spread key ≡ option_or
        (answer (params_said (Some number) (values_of given.now)) key) (usual_answer (Some number) key)) }
{
    let mut spread = params_given(alloc, given, Some(number))?;
    spread.add(alloc, Source::File, MODE, CONCURRENT)?;
    Ok(spread)
}

/// The parameters that `spread_of` makes with the number of `--workers`; none where that is not given.
pub(crate) fn spread_given(
    alloc: Global,
    given: &Given<'_>,
    workers: Option<u32>,
) -> Result<Option<Params>, AllocError>
    ensures { IfOk result (λ spread. IsSpread (params_said workers (values_of given.now)) workers spread) }
{
    match workers {
        Some(number) => Ok(Some(spread_of(alloc, given, number)?)),
        None => Ok(None),
    }
}

impl Options {
    /// What stands over these properties of a suite or a program: `params`; but with `--workers`, where
    /// the properties say no mode, `spread`.
    pub fn params_over(&self, properties: &Params) -> &Params
        ensures { (key : List ℕ) → answer_over result.now properties.now key ≡ answer_with self.now.workers
            self.now.params properties.now key }
    {
        match &self.spread {
            None => &self.params,
            Some(spread) => match properties.get(MODE) {
                Some(_) => &self.params,
                None => spread,
            },
        }
    }
}
