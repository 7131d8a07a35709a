//! A place at which jobs are run that a stopwatch takes note of.

use descriptor::NodeId;
use job_times::{Stopwatch, TimedJob};
use plan_events::{Job, Outcome};
use std::sync::Mutex;
use workers::Place;

/// A place of a worker: jobs that are timed are run there as the jobs are without their stopwatch.
#[derive(Drop)]
pub struct TimedPlace<K> {
    pub place: K,
}

impl<'s, B: Job, S: Stopwatch, K: Place<B>> Place<TimedJob<'s, B, S>> for TimedPlace<K> {
    ghost led = { λ first now. K.led first.place now.place };

    ghost unasked = { λ timed. K.unasked timed.place };

    fn run(&mut self, node: NodeId, job: &mut TimedJob<'s, B, S>) -> Outcome {
        job.stopwatch.begin(job.number);
        let outcome = self.place.run(node, &mut job.job);
        job.stopwatch.end(job.number);
        outcome
    }

    fn is_open(&self) -> bool {
        self.place.is_open()
    }
}

/// A place for each worker that a run may have, for jobs that need none.
pub fn bare_places() -> [Mutex<TimedPlace<()>>; 64] {
    std::array::from_fn(|_place| Mutex::new(TimedPlace { place: () }))
}
