//! The jobs of a tree of tests that hosts run.

ghost use Rattle.std.specs.Prelude.{◌≡◌, ℕ, true, IfOk, OnOk};
ghost use Rattle.resource_locks.specs.Plans.{PlanParts};
ghost use Rattle.worker_pool.specs.Premises.{JobsMayAnswer};
ghost use Rattle.worker_pool.specs.Reports.{run_of};
ghost use Rattle.host_bodies.specs.HostJobs.{replies_left};
ghost use Rattle.host_bodies.specs.Fresh.{are_fresh};

use crate::host_job::HostJob;
use descriptor::{BodyId, Kind, NodeId, Tree};
use run_table::Jobs;
use std::alloc::{AllocError, Global};

/// What a host is asked for to run the body of a test.
const RUN: &str = "run";

/// What a host is asked for to run the before-body of a container.
const BEFORE: &str = "before";

/// What a host is asked for to run the after-body of a container.
const AFTER: &str = "after";

/// Appends the job of this number, if there is one, which asks a host for this, of the node of this id.
fn push_job(
    alloc: Global,
    jobs: &mut Jobs<HostJob>,
    number: Option<BodyId>,
    what: &str,
    id: &str,
) -> Result<(), AllocError>
    ensures { OnOk result (are_fresh jobs.old.items ≡ true → are_fresh jobs.new.items ≡ true) }
{
    let Some(number) = number else {
        return Ok(());
    };
    let job = HostJob::new(alloc, what, id)?;
    jobs.push((number, job))?;
    Ok(())
}

/// What a host is asked for to run the body of a node of this kind.
fn body_word(kind: Kind) -> &'static str {
    match kind {
        Kind::Test => RUN,
        Kind::Container | Kind::ContainerAndTest => BEFORE,
    }
}

/// A job for each body and each after-body of the tree, none of which was run.
fn fresh_jobs(alloc: Global, tree: &Tree) -> Result<Jobs<HostJob>, AllocError>
    ensures { IfOk result (λ jobs. are_fresh jobs.items ≡ true) }
{
    let mut jobs: Jobs<HostJob> = Vec::new(alloc);
    for number in 1..tree.len() {
        let node = NodeId::new(number as u16);
        let id = tree.node(node).id.text();
        push_job(
            alloc,
            &mut jobs,
            tree.body(node),
            body_word(tree.kind(node)),
            id,
        )?;
        push_job(alloc, &mut jobs, tree.after(node), AFTER, id)?;
    }
    Ok(jobs)
}

/// A job for each body and each after-body of the tree, which asks a host. Whatever plan is made of it, the jobs may answer.
pub fn host_jobs(alloc: Global, tree: &Tree) -> Result<Jobs<HostJob>, AllocError>
    ensures may_answer { IfOk result (λ jobs. (plan : PlanParts) (workers ring : ℕ) →
        JobsMayAnswer replies_left (run_of plan workers ring jobs.items)) }
{
    fresh_jobs(alloc, tree)
}
