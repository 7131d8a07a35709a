//! What `--seed` asks for.

ghost use Rattle.std.specs.Prelude.{◌≡◌, ◌≢◌, Some, IfOk, IfErr};
ghost use Rattle.launch_options.specs.declared.fault.LaunchFault.TheVariants.{NoMemory};
ghost use Rattle.launch_options.specs.Asked.{unless_named};
ghost use Rattle.launch_options.specs.Given.{maybe_behind};
ghost use Rattle.launch_options.specs.SeedTexts.{seed_named as seed_of_name};
ghost use Rattle.suite_words.specs.Numbers.{number_up_to};

use crate::fault::LaunchFault;
use suite_words::is_number;

/// The number that a text of digits is in decimal, if it is below 2 to the 64th.
fn seed_in(text: &str) -> Option<u64>
    ensures { result ≡ number_up_to 18446744073709551615 text.now }
{
    if !is_number(text) {
        return None;
    }
    match text.parse::<u64>() {
        Ok(number) => Some(number),
        Err(_) => None,
    }
}

/// What `--seed` asks for, if it is given: a number below 2 to the 64th.
pub fn seed_named(text: Option<&str>) -> Result<Option<u64>, LaunchFault>
    ensures named { IfOk result (λ seed. seed_of_name (maybe_behind text.entry) ≡ Some seed) }
    ensures refused { IfErr result (λ fault. unless_named (seed_of_name (maybe_behind text.entry)) ≡ Some fault) }
    ensures real { IfErr result (λ fault. fault ≢ NoMemory) }
{
    let Some(text) = text else {
        return Ok(None);
    };
    match seed_in(text) {
        Some(seed) => Ok(Some(seed)),
        None => Err(LaunchFault::BadWords),
    }
}
