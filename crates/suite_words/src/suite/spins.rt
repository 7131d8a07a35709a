//! Attributes that say a number: `spin=N` and `pulls=N`.

ghost use Rattle.std.specs.Prelude.{◌≡◌, ◌≢◌, ◌≤◌, IfOk, IfErr};
ghost use Rattle.suite_words.specs.Reading.Spins.{key_of, value_of, count_of};
ghost use Rattle.suite_words.specs.Reading.Faults.{Gives};

use crate::number::number_up_to;
use crate::suite::fault::SuiteFault;

/// The key of a token, which is what stands before its first equals sign, and its value, which
/// follows that sign.
pub fn key_and_value(word: &str) -> (&str, &str)
    ensures key { result.0.now ≡ key_of word.now }
    ensures value { result.1.now ≡ value_of word.now }
{
    match word.split_once('=') {
        Some((key, value)) => (key, value),
        None => (word, ""),
    }
}

/// The number that a value says, up to `most`.
pub(crate) fn count_in(number: usize, most: u32, value: &str) -> Result<u32, SuiteFault>
    ensures exact { Gives (λ count. count) result (count_of number most value.now) }
    ensures within { IfOk result (λ count. count ≤ most) }
    ensures real { IfErr result (λ fault. fault ≢ SuiteFault.NoMemory) }
{
    match number_up_to(most, value) {
        Some(count) => Ok(count),
        None => Err(SuiteFault::BadLine(number)),
    }
}
