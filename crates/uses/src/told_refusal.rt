//! Calls `messages`: a suite in memory is run, and if the run is refused its message comes back.

ghost use Rattle.std.specs.Prelude.{◌≡◌, List, Option, Some, Err, IfErr, ℕ};
ghost use Rattle.launch_options.specs.Asked.{asked_by};
ghost use Rattle.launcher.specs.SuiteLaunches.{IsSuiteTextRun};
ghost use Rattle.launch_options.specs.declared.fault.LaunchFault.{LaunchFault as Fault};
ghost use Rattle.messages.specs.Sentences.{sentence_of};

use crate::suite_output::run_text;
use launcher::{ExitStatus, Given, Options};
use messages::{Message, Subject, message_of};
use std::alloc::Global;
use std::sync::Wait;
use std::thread::Threads;

/// Appends to `output` what the options print of a suite; or says why they do not. The values of the
/// options are `given`, as the details of a message name them.
pub fn run_or_say<T: Threads + Wait + Sync>(
    rt: &T,
    alloc: Global,
    options: &Options,
    given: &Given<'_>,
    suite: &[u8],
    output: &mut Vec<u8>,
) -> Result<ExitStatus, Message>
    ensures said { IfErr result (λ message. (fault : Fault) × (message.sentence.now ≡ sentence_of fault)
        × ((left : Option (List ℕ)) × IsSuiteTextRun (asked_by options.now) (Some suite.now) left (Some output.old.items)
        (Some output.new.items) (Err fault))) }
{
    match run_text(rt, alloc, options, suite, output) {
        Ok(status) => Ok(status),
        Err(fault) => Err(message_of(alloc, fault, given, Subject::Suite(suite))),
    }
}
