//! The attribute `@slow=MS`: from how many milliseconds on a body is slow.

ghost use Rattle.std.specs.Prelude.{◌≡◌, ◌≢◌, IfErr};
ghost use Rattle.suite_words.specs.Reading.Faults.{Gives};
ghost use Rattle.suite_words.specs.Reading.Slow.{limit_of};

use crate::suite::fault::SuiteFault;
use crate::suite::spins::count_in;

/// The most milliseconds that a line may say, which are a day.
pub const LONGEST_LIMIT: u32 = 86_400_000;

/// The milliseconds that a value says, one at least.
pub(crate) fn limit_in(number: usize, value: &str) -> Result<u32, SuiteFault>
    ensures exact { Gives (λ limit. limit) result (limit_of number value.now) }
    ensures real { IfErr result (λ fault. fault ≢ SuiteFault.NoMemory) }
{
    let limit = count_in(number, LONGEST_LIMIT, value)?;
    if limit == 0 {
        return Err(SuiteFault::BadLine(number));
    }
    Ok(limit)
}
