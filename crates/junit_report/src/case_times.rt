//! How long the cases of a report took.

ghost use Rattle.std.specs.Prelude.{◌≡◌};
ghost use Rattle.junit_report.specs.CaseTimes.{time_of_cases};

use crate::cases::Case;
use job_times::Timings;
use reports::time_or_none;

/// The microseconds of the nodes of these cases.
pub(crate) fn time_of_cases(timings: &Timings, cases: &[Case]) -> u128
    ensures { result ≡ time_of_cases timings.now.took.items cases.now }
{
    let mut micros = 0;
    for case in cases {
        micros += u128::from(time_or_none(timings, case.node));
    }
    micros
}
