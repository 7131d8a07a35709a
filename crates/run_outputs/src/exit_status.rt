//! The exit status, and what decides it.

ghost use Rattle.std.specs.Prelude.{◌≡◌};
ghost use Rattle.run_outputs.specs.ExitStatuses.{number_of, status_after, status_of_replay, status_of_run};

use launch_options::LaunchFault;

/// How the program ended.
#[derive(Clone, Copy, PartialEq, Eq)]
pub enum ExitStatus {
    /// 0.
    Success,
    /// 1: a node other than the plan failed.
    TestsFailed,
    /// 2: there had to be tests, and none was found.
    NoTestsFound,
    /// A replay passed steps over that were not possible in their turn: 1 if that is to fail, else 0.
    StepsPassedOver { fails: bool },
    /// 255: a refusal.
    Refused,
}

impl ExitStatus {
    /// The number that the system is told.
    pub fn number(self) -> u8
        ensures { result ≡ number_of self }
    {
        match self {
            ExitStatus::Success => 0,
            ExitStatus::TestsFailed => 1,
            ExitStatus::NoTestsFound => 2,
            ExitStatus::StepsPassedOver { fails } => u8::from(fails),
            ExitStatus::Refused => 255,
        }
    }

    /// The status of a run that found so many tests, in which a node other than the plan failed or
    /// none did; and that of a list, with its length for the tests.
    pub fn of_run(needs_tests: bool, tests: usize, has_failure: bool) -> ExitStatus
        ensures { result ≡ status_of_run needs_tests tests has_failure }
    {
        if needs_tests && tests == 0 {
            ExitStatus::NoTestsFound
        } else if has_failure {
            ExitStatus::TestsFailed
        } else {
            ExitStatus::Success
        }
    }

    /// The status of a replay that passed so many steps over, which is to fail or not. It tells what the steps do, and not
    /// whether the suite passes.
    pub fn of_replay(fails: bool, passed_over: usize) -> ExitStatus
        ensures { result ≡ status_of_replay fails passed_over }
    {
        if passed_over == 0 {
            ExitStatus::Success
        } else {
            ExitStatus::StepsPassedOver { fails }
        }
    }

    /// The status that the program ends with after this answer.
    pub fn after(answer: Result<ExitStatus, LaunchFault>) -> ExitStatus
        ensures { result ≡ status_after answer }
    {
        match answer {
            Ok(status) => status,
            Err(_) => ExitStatus::Refused,
        }
    }
}
