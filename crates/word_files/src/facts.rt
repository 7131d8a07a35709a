//! What the system tells, as arguments of options.

ghost use Rattle.std.specs.Prelude.{◌≡◌, ◌++◌, ◌∷◌, [], false, map, string_bytes, IfOk, OnOk};
ghost use Rattle.launch_options.specs.Given.{maybe_behind};
ghost use Rattle.word_files.specs.Told.{asks_for_all, asks_here, awaits_workers, has_option, index_text};
ghost use Rattle.word_files.specs.Told.{is_letter_with_auto, name_of, shard_text};
ghost use Rattle.word_files.specs.Told.{seeded_word, seeded_words, with_processors, with_seed, with_shard, with_told};

use std::alloc::{AllocError, Global};
use suite_words::number_up_to;

/// The option for which the system tells how many processors there are.
const WORKERS: &str = "--workers";

/// Its value that asks for a worker for each processor.
const AUTO: &str = "auto";

/// Both in one argument.
const WORKERS_AUTO: &str = "--workers=auto";

/// The option that says how many processors there are.
const PROCESSORS: &str = "--processors";

/// The option that says which part of the tests is run.
const SHARD: &str = "--shard";

/// The option that says in which order tests are run.
const SEED: &str = "--seed";

/// Its value that asks for any seed.
const RANDOM: &str = "random";

/// Both in one argument.
const SEED_RANDOM: &str = "--seed=random";

/// The greatest number of processors that the option takes.
const MOST_PROCESSORS: u32 = 1024;

/// The greatest index of a shard.
const GREATEST_INDEX: u32 = 4094;

/// What the system tells.
#[derive(Clone, Copy)]
pub struct Facts<'a> {
    /// How many processors there are.
    pub processors: Option<u32>,
    /// In how many shards a build server has the tests run: Bazel's `TEST_TOTAL_SHARDS`.
    pub total_shards: Option<&'a str>,
    /// Which of these is run, from 0: Bazel's `TEST_SHARD_INDEX`.
    pub shard_index: Option<&'a str>,
    /// A seed for arguments that ask for any.
    pub seed: Option<u64>,
    /// The name of the machine. No argument stands for it.
    pub host: Option<&'a str>,
    /// Whether standard input is a terminal, at which somebody may wait. No argument stands for it.
    pub is_typed: bool,
}

/// What stands before the first equals sign of an argument, or all of it.
fn name_of(word: &str) -> &str
    ensures { result.now ≡ name_of word.now }
{
    match word.split_once('=') {
        Some((name, _)) => name,
        None => word,
    }
}

/// Whether this option is among the arguments, with its value in the same argument or in the next one.
fn has_option(words: &[String], name: &str) -> bool
    ensures { result ≡ has_option name.now (map string_bytes words.now) }
{
    for word in words {
        if name_of(word.as_str()) == name {
            return true;
        }
    }
    false
}

/// Whether the value of `--workers` is the next argument: behind the option, or behind its letter, which may stand
/// behind those of flags.
fn awaits_workers(word: &str) -> bool
    ensures { result ≡ awaits_workers word.now }
{
    word == WORKERS
        || word == "-j"
        || word == "-xj"
        || word == "-qj"
        || word == "-xqj"
        || word == "-qxj"
}

/// Whether option and value in one argument ask for a worker for each processor, by the option's letter.
fn is_letter_with_auto(word: &str) -> bool
    ensures { result ≡ is_letter_with_auto word.now }
{
    word == "-jauto"
        || word == "-xjauto"
        || word == "-qjauto"
        || word == "-xqjauto"
        || word == "-qxjauto"
        || word == "-j=auto"
        || word == "-xj=auto"
        || word == "-qj=auto"
        || word == "-xqj=auto"
        || word == "-qxj=auto"
}

/// Whether an argument asks for a worker for each processor; before it may stand the option that has its value
/// in this argument.
fn asks_here(is_value: bool, word: &str) -> bool
    ensures { result ≡ asks_here is_value word.now }
{
    word == WORKERS_AUTO || is_letter_with_auto(word) || is_value && word == AUTO
}

/// Whether the arguments ask for a worker for each processor.
fn asks_for_all(words: &[String]) -> bool
    ensures { result ≡ asks_for_all false (map string_bytes words.now) }
{
    let mut is_value = false;
    for word in words {
        if asks_here(is_value, word.as_str()) {
            return true;
        }
        is_value = awaits_workers(word.as_str());
    }
    false
}

/// Puts an option and its value behind these arguments.
fn push_option(
    alloc: Global,
    words: &mut Vec<String>,
    name: &str,
    value: String,
) -> Result<(), AllocError>
    ensures { OnOk result (map string_bytes words.new.items ≡ map string_bytes words.old.items
        ++ name.now ∷ string_bytes value ∷ []) }
{
    words.push(String::from_str(alloc, name)?)?;
    words.push(value)?;
    Ok(())
}

/// Puts behind these arguments how many processors there are, where they ask for a worker for each, and
/// do not say that themselves.
fn push_processors(
    alloc: Global,
    words: &mut Vec<String>,
    processors: Option<u32>,
) -> Result<(), AllocError>
    ensures { OnOk result (map string_bytes words.new.items ≡ with_processors processors
        (map string_bytes words.old.items)) }
{
    let Some(number) = processors else {
        return Ok(());
    };
    if !asks_for_all(words.as_slice()) || has_option(words.as_slice(), PROCESSORS) {
        return Ok(());
    }
    let number = number.min(MOST_PROCESSORS);
    push_option(alloc, words, PROCESSORS, format!(in alloc; "{number}")?)
}

/// The number of the shard of this index: one more; and of a text that is no index a text that is no
/// number.
fn index_text(alloc: Global, index: &str) -> Result<String, AllocError>
    ensures { IfOk result (λ text. string_bytes text ≡ index_text index.now) }
{
    match number_up_to(GREATEST_INDEX, index) {
        Some(number) => {
            let next = number + 1;
            format!(in alloc; "{next}")
        }
        None => format!(in alloc; "TEST_SHARD_INDEX={index}"),
    }
}

/// The value of the option for the shard of this index among so many.
fn shard_text(alloc: Global, index: &str, total: &str) -> Result<String, AllocError>
    ensures { IfOk result (λ text. string_bytes text ≡ shard_text index.now total.now) }
{
    let number = index_text(alloc, index)?;
    format!(in alloc; "{number}/{total}")
}

/// Puts behind these arguments which shard is run, where a build server says it, and they do not.
fn push_shard(
    alloc: Global,
    words: &mut Vec<String>,
    index: Option<&str>,
    total: Option<&str>,
) -> Result<(), AllocError>
    ensures { OnOk result (map string_bytes words.new.items ≡ with_shard (maybe_behind index.entry)
        (maybe_behind total.entry) (map string_bytes words.old.items)) }
{
    let (Some(index), Some(total)) = (index, total) else {
        return Ok(());
    };
    if has_option(words.as_slice(), SHARD) {
        return Ok(());
    }
    let value = shard_text(alloc, index, total)?;
    push_option(alloc, words, SHARD, value)
}

/// An argument, or what stands for it where it asks for any seed; before it may stand the option that has its
/// value in this argument.
fn seeded_word(alloc: Global, seed: u64, is_value: bool, word: &str) -> Result<String, AllocError>
    ensures { IfOk result (λ text. string_bytes text ≡ seeded_word seed is_value word.now) }
{
    if word == SEED_RANDOM {
        format!(in alloc; "{SEED}={seed}")
    } else if is_value && word == RANDOM {
        format!(in alloc; "{seed}")
    } else {
        String::from_str(alloc, word)
    }
}

/// These arguments, with this seed for each that asks for any.
fn seeded_words(alloc: Global, words: &[String], seed: u64) -> Result<Vec<String>, AllocError>
    ensures { IfOk result (λ all. map string_bytes all.items ≡ seeded_words seed false
        (map string_bytes words.now)) }
{
    let mut all = Vec::new(alloc);
    let mut is_value = false;
    for word in words {
        all.push(seeded_word(alloc, seed, is_value, word.as_str())?)?;
        is_value = word.as_str() == SEED;
    }
    Ok(all)
}

/// These arguments, with this seed for each that asks for any; as they stand where there is no seed.
fn with_seed(
    alloc: Global,
    words: Vec<String>,
    seed: Option<u64>,
) -> Result<Vec<String>, AllocError>
    ensures { IfOk result (λ all. map string_bytes all.items ≡ with_seed seed
        (map string_bytes words.items)) }
{
    match seed {
        Some(seed) => seeded_words(alloc, words.as_slice(), seed),
        None => Ok(words),
    }
}

/// Puts behind these arguments what the system tells, where they ask for it.
fn push_told(alloc: Global, words: &mut Vec<String>, facts: &Facts<'_>) -> Result<(), AllocError>
    ensures { OnOk result (map string_bytes words.new.items ≡ with_shard (maybe_behind facts.now.shard_index)
        (maybe_behind facts.now.total_shards) (with_processors facts.now.processors
        (map string_bytes words.old.items))) }
{
    push_processors(alloc, words, facts.processors)?;
    push_shard(alloc, words, facts.shard_index, facts.total_shards)
}

/// These arguments, and behind them what the system tells, where they ask for it; and a seed where they ask
/// for any.
pub(crate) fn with_told(
    alloc: Global,
    words: Vec<String>,
    facts: &Facts<'_>,
) -> Result<Vec<String>, AllocError>
    ensures { IfOk result (λ all. map string_bytes all.items ≡ with_told facts.now (map string_bytes words.items)) }
{
    let mut words = words;
    push_told(alloc, &mut words, facts)?;
    with_seed(alloc, words, facts.seed)
}
