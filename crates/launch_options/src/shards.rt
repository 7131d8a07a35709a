//! What `--shard` asks for.

ghost use Rattle.std.specs.Prelude.{◌≡◌, ◌≢◌, Some, IfOk, IfErr};
ghost use Rattle.launch_options.specs.declared.fault.LaunchFault.TheVariants.{NoMemory};
ghost use Rattle.launch_options.specs.Asked.{unless_named};
ghost use Rattle.launch_options.specs.Given.{maybe_behind};
ghost use Rattle.launch_options.specs.ShardTexts.{dealt_in, shard_by, shard_in, shard_named as shard_of_name};

use crate::fault::LaunchFault;
use selectors::{Dealing, MOST_SHARDS, Shard};
use suite_words::number_up_to;

/// What is said before the numbers of a shard that has the units by the hash of their ids.
const HASH: &str = "hash";

/// The shard of these two numbers, if there is one.
fn shard_by(dealing: Dealing, number: Option<u32>, count: Option<u32>) -> Option<Shard>
    ensures { result ≡ shard_by dealing number count }
{
    let (Some(number), Some(count)) = (number, count) else {
        return None;
    };
    let (Ok(number), Ok(count)) = (u16::try_from(number), u16::try_from(count)) else {
        return None;
    };
    Shard::of(number, count, dealing)
}

/// The shard that a text K/N names, if there is one.
fn dealt_in(dealing: Dealing, text: &str) -> Option<Shard>
    ensures { result ≡ dealt_in dealing text.now }
{
    let (number, count) = text.split_once('/')?;
    let most = u32::from(MOST_SHARDS);
    shard_by(
        dealing,
        number_up_to(most, number),
        number_up_to(most, count),
    )
}

/// The shard that a text K/N or hash:K/N names, if there is one.
fn shard_in(text: &str) -> Option<Shard>
    ensures { result ≡ shard_in text.now }
{
    match text.split_once(':') {
        Some((word, numbers)) => {
            if word == HASH {
                dealt_in(Dealing::ByHash, numbers)
            } else {
                None
            }
        }
        None => dealt_in(Dealing::InTurn, text),
    }
}

/// What `--shard` asks for, if it is given: shard K of N, as `K/N` says, with N from 1 to 4,095 and K
/// from 1 to N, or as `hash:K/N` does.
pub fn shard_named(text: Option<&str>) -> Result<Option<Shard>, LaunchFault>
    ensures named { IfOk result (λ shard. shard_of_name (maybe_behind text.entry) ≡ Some shard) }
    ensures refused { IfErr result (λ fault. unless_named (shard_of_name (maybe_behind text.entry)) ≡ Some fault) }
    ensures real { IfErr result (λ fault. fault ≢ NoMemory) }
{
    let Some(text) = text else {
        return Ok(None);
    };
    match shard_in(text) {
        Some(shard) => Ok(Some(shard)),
        None => Err(LaunchFault::BadWords),
    }
}
