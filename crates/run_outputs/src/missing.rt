//! Whether something had to be selected, and what the status says then.

ghost use Rattle.std.specs.Prelude.{◌≡◌};
ghost use Rattle.launch_options.specs.Asked.{asked_by};
ghost use Rattle.run_outputs.specs.Missing.{answer_unless as judged_answer, is_missing_by};

use crate::exit_status::ExitStatus;
use launch_options::{LaunchFault, Options};

/// Whether something had to be selected, of which a shard is run, where nothing is or something.
pub fn is_missing(options: &Options, is_nothing: bool) -> bool
    ensures { result ≡ is_missing_by (asked_by options.now) is_nothing }
{
    if !options.fail_if_nothing_selected {
        return false;
    }
    match &options.replay {
        Some(_) => false,
        None => is_nothing,
    }
}

/// The answer of a run, whose status says too that something is missing.
pub fn answer_unless(
    is_missing: bool,
    answer: Result<ExitStatus, LaunchFault>,
) -> Result<ExitStatus, LaunchFault>
    ensures { result ≡ judged_answer is_missing answer }
{
    match answer {
        Ok(status) => {
            if is_missing {
                Ok(ExitStatus::NoTestsFound)
            } else {
                Ok(status)
            }
        }
        Err(fault) => Err(fault),
    }
}
