//! What `--fail-fast` and `--max-fail` ask for.

ghost use Rattle.std.specs.Prelude.{◌≡◌, ◌≢◌, ◌<◌, Some, IfOk, IfErr, IfSome};
ghost use Rattle.launch_options.specs.declared.fault.LaunchFault.TheVariants.{NoMemory};
ghost use Rattle.launch_options.specs.Asked.{failures_refusal, unless_named};
ghost use Rattle.launch_options.specs.Failures.{fails_fast, max_fail_named as max_fail_of_name, tolerated_asked};
ghost use Rattle.launch_options.specs.Failures.{tolerated_by};
ghost use Rattle.launch_options.specs.Given.{maybe_behind, values_of};

use crate::fault::LaunchFault;
use crate::given::Given;
use suite_words::number_up_to;

/// The greatest number of failures after which a run may be asked to stop.
const MOST_FAILURES: u32 = 4095;

/// What `--max-fail` asks for, if it is given: a number of failures from 1 to 4,095, in digits alone.
pub fn max_fail_named(text: Option<&str>) -> Result<Option<u16>, LaunchFault>
    ensures named { IfOk result (λ most. max_fail_of_name (maybe_behind text.entry) ≡ Some most) }
    ensures refused { IfErr result (λ fault. unless_named (max_fail_of_name (maybe_behind text.entry)) ≡ Some fault) }
    ensures some { IfOk result (λ most. IfSome most (λ number. 0 < number)) }
    ensures real { IfErr result (λ fault. fault ≢ NoMemory) }
{
    let Some(text) = text else {
        return Ok(None);
    };
    match number_up_to(MOST_FAILURES, text) {
        None | Some(0) => Err(LaunchFault::BadWords),
        Some(number) => Ok(Some(number as u16)),
    }
}

/// How many failures a run goes on after that is to stop after so many: all but the last of them.
fn tolerated_by(most: Option<u16>) -> u16
    requires { IfSome most (λ number. 0 < number) }
    ensures { result ≡ tolerated_by most }
{
    match most {
        None => 0,
        Some(number) => number - 1,
    }
}

/// Whether failures are to end a run.
pub(crate) fn fails_fast(given: &Given<'_>) -> bool
    ensures { result ≡ fails_fast (values_of given.now) }
{
    given.fail_fast || given.max_fail.is_some()
}

/// How many failures a run is to go on after. Refused are what is no number of failures, and that
/// both options are given.
pub(crate) fn tolerated_given(given: &Given<'_>) -> Result<u16, LaunchFault>
    ensures asked { IfOk result (λ tolerated. tolerated_asked (values_of given.now) ≡ Some tolerated) }
    ensures accepted { IfOk result (λ _. failures_refusal (values_of given.now) ≡ None) }
    ensures refused { IfErr result (λ fault. failures_refusal (values_of given.now) ≡ Some fault) }
    ensures real { IfErr result (λ fault. fault ≢ NoMemory) }
{
    let most = max_fail_named(given.max_fail)?;
    if given.fail_fast && given.max_fail.is_some() {
        return Err(LaunchFault::BadWords);
    }
    Ok(tolerated_by(most))
}
