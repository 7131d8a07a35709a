//! The times of a run by a clock: when it begins, when its jobs begin and end, and how long each node's took.
#![tactic(auto)]

mod job_times;
mod moments;
mod run_times;
mod stopwatch;
mod timed_job;
mod timings;

pub use job_times::JobTimes;
pub use moments::moment_by;
pub use run_times::RunTimes;
pub use stopwatch::{NoStopwatch, Stopwatch};
pub use timed_job::{TimedJob, timed_jobs, untimed_jobs};
pub use timings::{Noted, Timings};
