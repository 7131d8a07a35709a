//! What the program does after a run.

ghost use Rattle.std.specs.Prelude.{◌≡◌};
ghost use Rattle.run_outputs.specs.AfterRuns.{line_after};
ghost use Rattle.run_outputs.specs.ExitStatuses.{status_after};

use crate::exit_status::ExitStatus;
use launch_options::LaunchFault;

/// What the program does after a run: it prints a line or none, and ends.
#[derive(Clone, Copy)]
pub struct AfterRun {
    /// The refusal whose line is printed. Where the output failed there is none, since a line on it
    /// is of no use; and where a report did, since the output is whole.
    pub line: Option<LaunchFault>,
    pub status: ExitStatus,
}

impl AfterRun {
    /// What is done after a run with this answer.
    pub fn of(answer: Result<ExitStatus, LaunchFault>) -> AfterRun
        ensures line { result.line ≡ line_after answer }
        ensures status { result.status ≡ status_after answer }
    {
        let line = match answer {
            Ok(_) | Err(LaunchFault::Writing(_)) | Err(LaunchFault::CutReport(_)) => None,
            Err(fault) => Some(fault),
        };
        AfterRun {
            line,
            status: ExitStatus::after(answer),
        }
    }
}
