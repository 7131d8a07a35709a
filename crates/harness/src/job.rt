//! The jobs of a program's own tests.

ghost use Rattle.std.specs.Prelude.{◌≡◌, ℕ, IfOk};
ghost use Rattle.descriptor.specs.Nodes.{Nodes};
ghost use Rattle.harness.specs.Jobs.{gives_left, jobs_by, replies_left, says_kept};
ghost use Rattle.launcher.specs.Programs.{HasJobs};
ghost use Rattle.resource_locks.specs.Plans.{PlanParts};
ghost use Rattle.test_bodies.specs.Bodies.{is_spent, tests_left};
ghost use Rattle.test_bodies.specs.Replies.{replies_by};
ghost use Rattle.worker_pool.specs.Premises.{JobsMayAnswer};
ghost use Rattle.worker_pool.specs.Reports.{run_of};

use plan_events::{Job, Outcome, Pull};
use run_table::Jobs;
use std::alloc::{AllocError, Global};
use test_bodies::Body;

/// A test's body as a job. It is a type of this crate, since a job asks something of who runs it, and the prover
/// lets nobody hand a body that holds closures to such a call of another crate.
#[derive(Drop)]
pub struct TestJob {
    pub(crate) body: Body,
}

impl Job for TestJob {
    ghost answers = { replies_left };

    ghost gives = { gives_left };

    ghost says = { says_kept };

    fn next(&mut self) -> Pull {
        self.body.next_test()
    }

    fn run(&mut self) -> Outcome {
        self.body.finish()
    }
}

/// The jobs of these bodies, with their numbers.
fn collected(alloc: Global, bodies: Jobs<Body>) -> Result<Jobs<TestJob>, AllocError>
    ensures { IfOk result (λ jobs. jobs.items ≡ jobs_by bodies.items) }
{
    let mut jobs = Vec::with_capacity(alloc, bodies.len())?;
    for (number, body) in bodies {
        jobs.push((number, TestJob { body }))?;
    }
    Ok(jobs)
}

/// The jobs of these bodies, with their numbers. A tree that had a body for each number has a job for it, and the jobs
/// may answer if the bodies may.
pub(crate) fn jobs_of(alloc: Global, bodies: Jobs<Body>) -> Result<Jobs<TestJob>, AllocError>
    ensures items { IfOk result (λ jobs. jobs.items ≡ jobs_by bodies.items) }
    ensures has { IfOk result (λ jobs. (t : Nodes) → HasJobs t bodies.items → HasJobs t jobs.items) }
    ensures may_answer { IfOk result (λ jobs. (plan : PlanParts) (workers ring : ℕ) →
        JobsMayAnswer (λ b. replies_by (is_spent b) (tests_left b)) (run_of plan workers ring bodies.items) →
        JobsMayAnswer replies_left (run_of plan workers ring jobs.items)) }
{
    collected(alloc, bodies)
}
