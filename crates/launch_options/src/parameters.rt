//! What `--config`, `--system`, `--processors`, `--ring` and `--drive` ask for, and with `--config` `--workers`.

ghost use Rattle.std.specs.Prelude.{◌≡◌, ◌≢◌, ◌+◌, ◌++◌, ◌^◌, ◌<◌, ◌≤◌, Some, None, fold, length, IfOk, IfErr, OnOk};
ghost use Rattle.config_params.specs.Pairs.{key_of, value_of};
ghost use Rattle.config_params.specs.Parameters.{nothing_said, with_value};
ghost use Rattle.launch_options.specs.declared.fault.LaunchFault.TheVariants.{NoMemory};
ghost use Rattle.launch_options.specs.Asked.{unless_named};
ghost use Rattle.launch_options.specs.Given.{behind, maybe_behind, values_of};
ghost use Rattle.launch_options.specs.Parameters.{without_plus, number_named as number_of_name};
ghost use Rattle.launch_options.specs.Parameters.{processors_named as processors_of_name, ring_named as ring_of_name};
ghost use Rattle.launch_options.specs.Parameters.{drive_named as drive_of_name, IsRightDrive};
ghost use Rattle.launch_options.specs.Parameters.{pairs_in, pairs_refusal, params_refusal};
ghost use Rattle.launch_options.specs.Workers.{params_said, words_for};
ghost use Rattle.table_rule.specs.Limits.{IsRightRing};

use crate::fault::LaunchFault;
use crate::given::Given;
use crate::workers::add_workers;
use config_params::{Params, Source, pair_of};
use std::alloc::{AllocError, Global};
use suite_words::number_up_to;

/// The greatest number of processors.
const MOST_PROCESSORS: u32 = 1024;

/// The number of processors where none is asked for.
const USUAL_PROCESSORS: u32 = 1;

/// The greatest number of places of the ring.
const MOST_PLACES: u32 = 16_384;

/// The number of places of the ring where none is asked for.
const USUAL_PLACES: u32 = 1024;

/// The greatest number of workers of the fixed schedule.
const MOST_DRIVEN: u32 = 64;

/// The text without the plus that it may begin with.
fn without_plus(text: &str) -> &str
    ensures { result.now ≡ without_plus text.now }
{
    match text.strip_prefix('+') {
        Some(rest) => rest,
        None => text,
    }
}

/// What an option asks for that is a number from 1 to this most, and this one where it is not given.
pub(crate) fn number_named(
    most: u32,
    otherwise: u32,
    text: Option<&str>,
) -> Result<u32, LaunchFault>
    requires some { 0 < otherwise }
    requires few { otherwise ≤ most }
    ensures named { IfOk result (λ number. number_of_name most otherwise (maybe_behind text.entry) ≡ Some number) }
    ensures refused { IfErr result (λ fault. unless_named (number_of_name most otherwise (maybe_behind text.entry))
        ≡ Some fault) }
    ensures some { IfOk result (λ number. 0 < number) }
    ensures few { IfOk result (λ number. number ≤ most) }
{
    let Some(text) = text else {
        return Ok(otherwise);
    };
    match number_up_to(most, without_plus(text)) {
        None | Some(0) => Err(LaunchFault::BadWords),
        Some(number) => Ok(number),
    }
}

/// What `--processors` asks for.
pub fn processors_named(text: Option<&str>) -> Result<u32, LaunchFault>
    ensures named { IfOk result (λ processors. processors_of_name (maybe_behind text.entry) ≡ Some processors) }
    ensures refused { IfErr result (λ fault. unless_named (processors_of_name (maybe_behind text.entry)) ≡ Some fault) }
{
    number_named(MOST_PROCESSORS, USUAL_PROCESSORS, text)
}

/// What `--ring` asks for.
pub fn ring_named(text: Option<&str>) -> Result<u32, LaunchFault>
    ensures named { IfOk result (λ ring. ring_of_name (maybe_behind text.entry) ≡ Some ring) }
    ensures refused { IfErr result (λ fault. unless_named (ring_of_name (maybe_behind text.entry)) ≡ Some fault) }
    ensures right { IfOk result IsRightRing }
{
    number_named(MOST_PLACES, USUAL_PLACES, text)
}

/// What `--drive` asks for, if it is given.
pub fn drive_named(text: Option<&str>) -> Result<Option<u32>, LaunchFault>
    ensures named { IfOk result (λ drive. drive_of_name (maybe_behind text.entry) ≡ Some drive) }
    ensures refused { IfErr result (λ fault. unless_named (drive_of_name (maybe_behind text.entry)) ≡ Some fault) }
    ensures right { IfOk result IsRightDrive }
{
    match text {
        Some(text) => Ok(Some(number_named(MOST_DRIVEN, MOST_DRIVEN, Some(text))?)),
        None => Ok(None),
    }
}

/// Judges arguments, which stand behind so many others: each says a pair.
fn judge_pairs(before: usize, words: &[&str]) -> Result<(), LaunchFault>
    requires few { before + length words.now < 2 ^ 64 }
    ensures accepted { OnOk result (pairs_refusal (before + 1) (behind words.now) ≡ None) }
    ensures refused { IfErr result (λ fault. pairs_refusal (before + 1) (behind words.now) ≡ Some fault) }
    ensures real { IfErr result (λ fault. fault ≢ NoMemory) }
{
    for (index, word) in words.iter().enumerate() {
        if let Err(fault) = pair_of(before + index + 1, word) {
            return Err(LaunchFault::BadPair(fault));
        }
    }
    Ok(())
}

/// Judges the arguments of `--config` and `--system`.
pub(crate) fn judge_params(given: &Given<'_>) -> Result<(), LaunchFault>
    ensures accepted { OnOk result (params_refusal (values_of given.now) ≡ None) }
    ensures refused { IfErr result (λ fault. params_refusal (values_of given.now) ≡ Some fault) }
    ensures real { IfErr result (λ fault. fault ≢ NoMemory) }
{
    let config = given.config.as_slice();
    let system = given.system.as_slice();
    judge_pairs(0, config)?;
    judge_pairs(config.len(), system)
}

/// Puts the pair that an argument says into a source.
fn add_pair(
    alloc: Global,
    params: &mut Params,
    source: Source,
    word: &str,
) -> Result<(), AllocError>
    ensures { OnOk result (params.new ≡ with_value params.old source (key_of word.now, value_of word.now)) }
{
    // every argument was judged
    let Ok(pair) = pair_of(1, word) else {
        return Err(AllocError);
    };
    params.add(alloc, source, pair.key, pair.value)
}

/// Puts the pairs that arguments say into a source.
pub(crate) fn add_pairs(
    alloc: Global,
    params: &mut Params,
    source: Source,
    words: &[&str],
) -> Result<(), AllocError>
    ensures said { OnOk result (params.new ≡ fold (λ all pair. with_value all source pair) params.old
        (pairs_in (behind words.now))) }
{
    for word in words {
        add_pair(alloc, params, source, word)?;
    }
    Ok(())
}

/// Puts into what the request says the arguments of `--config`, and behind them those that `--workers`
/// stands for.
fn add_request(
    alloc: Global,
    params: &mut Params,
    given: &Given<'_>,
    workers: Option<u32>,
) -> Result<(), AllocError>
    ensures said { OnOk result (params.new ≡ fold (λ all pair. with_value all Source.Request pair) params.old
        (pairs_in (behind given.now.config.items ++ words_for workers))) }
{
    add_pairs(alloc, params, Source::Request, given.config.as_slice())?;
    add_workers(alloc, params, workers)
}

/// Puts what `--config`, `--workers` and `--system` say into parameters that say nothing yet.
fn add_given(
    alloc: Global,
    params: &mut Params,
    given: &Given<'_>,
    workers: Option<u32>,
) -> Result<(), AllocError>
    requires none { params.old ≡ nothing_said }
    ensures said { OnOk result (params.new ≡ params_said workers (values_of given.now)) }
{
    add_request(alloc, params, given, workers)?;
    add_pairs(alloc, params, Source::System, given.system.as_slice())
}

/// What `--config`, `--workers` and `--system` say.
pub(crate) fn params_given(
    alloc: Global,
    given: &Given<'_>,
    workers: Option<u32>,
) -> Result<Params, AllocError>
    ensures said { IfOk result (λ params. params ≡ params_said workers (values_of given.now)) }
{
    let mut params = Params::new(alloc);
    add_given(alloc, &mut params, given, workers)?;
    Ok(params)
}
