//! Jobs of which a stopwatch takes note.

ghost use Rattle.std.specs.Prelude.{◌≡◌, ◌≤◌, [], IfOk, IfErr, vec_len, vec_capacity};
ghost use Rattle.std.specs.List.{All};
ghost use Rattle.job_times.specs.TimedJobs.{untimed};

use crate::stopwatch::Stopwatch;
use descriptor::BodyId;
use plan_events::{Job, Outcome, Pull};
use std::alloc::Global;

/// A job, its number, and the stopwatch that takes note of it when it is run. It answers what the job answers.
pub struct TimedJob<'s, B: Job, S: Stopwatch> {
    pub job: B,
    pub number: BodyId,
    pub stopwatch: &'s S,
}

impl<'s, B: Job, S: Stopwatch> TimedJob<'s, B, S> {
    /// The job alone.
    pub fn into_job(self) -> B
        ensures { result ≡ self.entry.job }
    {
        let Self {
            job,
            number: _,
            stopwatch: _,
        } = self;
        job
    }
}

impl<'s, B: Job, S: Stopwatch> Drop for TimedJob<'s, B, S> {
    fn drop(self) {
        drop(self.into_job());
    }
}

impl<'s, B: Job, S: Stopwatch> Job for TimedJob<'s, B, S> {
    ghost answers = { λ timed. B.answers timed.job };

    ghost gives = { λ timed. B.gives timed.job };

    ghost says = { λ timed. B.says timed.job };

    fn next(&mut self) -> Pull {
        self.job.next()
    }

    fn run(&mut self) -> Outcome {
        self.stopwatch.begin(self.number);
        let outcome = self.job.run();
        self.stopwatch.end(self.number);
        outcome
    }
}

/// These jobs in the same order, each noted by this stopwatch under its number.
fn noted_jobs<'s, B: Job, S: Stopwatch>(
    jobs: Vec<(BodyId, B)>,
    stopwatch: &'s S,
    mut room: Vec<(BodyId, TimedJob<'s, B, S>)>,
) -> Vec<(BodyId, TimedJob<'s, B, S>)>
    requires empty { room.items ≡ [] }
    requires room { vec_len jobs ≤ vec_capacity room }
    ensures jobs { untimed result.items ≡ jobs.items }
    ensures numbers { All (λ x. x.1.number ≡ x.0) result.items }
{
    for (number, job) in jobs {
        room.push_reserved((
            number,
            TimedJob {
                job,
                number,
                stopwatch,
            },
        ));
    }
    room
}

/// These jobs in the same order, each noted by this stopwatch under its number. For want of memory they come back.
pub fn timed_jobs<'s, B: Job, S: Stopwatch>(
    alloc: Global,
    jobs: Vec<(BodyId, B)>,
    stopwatch: &'s S,
) -> Result<Vec<(BodyId, TimedJob<'s, B, S>)>, Vec<(BodyId, B)>>
    ensures jobs { IfOk result (λ timed. untimed timed.items ≡ jobs.items) }
    ensures numbers { IfOk result (λ timed. All (λ x. x.1.number ≡ x.0) timed.items) }
    ensures back { IfErr result (λ back. back ≡ jobs) }
{
    match Vec::with_capacity(alloc, jobs.len()) {
        Ok(room) => Ok(noted_jobs(jobs, stopwatch, room)),
        Err(_) => Err(jobs),
    }
}

/// The jobs that were timed, in the same order. It takes no memory.
pub fn untimed_jobs<'s, B: Job, S: Stopwatch>(
    timed: Vec<(BodyId, TimedJob<'s, B, S>)>,
    mut room: Vec<(BodyId, B)>,
) -> Vec<(BodyId, B)>
    requires empty { room.items ≡ [] }
    requires room { vec_len timed ≤ vec_capacity room }
    ensures { result.items ≡ untimed timed.entry.items }
{
    for (number, noted) in timed {
        room.push_reserved((number, noted.into_job()));
    }
    room
}
