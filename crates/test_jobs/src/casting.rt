//! The jobs of a plan: one for each body and each after-body.

ghost use Rattle.std.specs.Prelude.{◌<◌, ℕ, IfOk, OnOk, length};
ghost use Rattle.plan_events.specs.Jobs.{unpulled};
ghost use Rattle.resource_locks.specs.Plans.{PlanParts};
ghost use Rattle.table_rule.specs.Slots.{slot_count};
ghost use Rattle.worker_pool.specs.Premises.{JobsMayAnswer};
ghost use Rattle.worker_pool.specs.Reports.{run_of};
ghost use Rattle.test_jobs.specs.Acting.{replies_left, AreFresh};

use crate::acting::{Act, Actor, Ends};
use crate::board::Board;
use descriptor::BodyId;
use plan_events::{Outcome, Status};
use resource_locks::Plan;
use run_table::{Jobs, job_number};
use std::alloc::{AllocError, Global};
use std::sync::Arc;
use suite_text::Script;
use unique_id::Text;

/// How a job ends that is told how: as its script says, and well where it has none.
fn told(scripts: &[Script], number: BodyId) -> Result<(u16, Outcome), AllocError> {
    for script in scripts {
        if script.body == number {
            return Ok((script.reply.pulls, script.reply.outcome.copy()?));
        }
    }
    let text = Text::empty();
    let status = Status::Successful;
    Ok((0, Outcome { status, text }))
}

/// The job of this number, of this node.
pub fn actor(
    alloc: Global,
    scripts: &[Script],
    number: BodyId,
    node: usize,
    act: Act,
    board: &Arc<Board>,
) -> Result<Actor, AllocError>
    ensures { IfOk result (λ job. 0 < length (unpulled (replies_left job))) }
{
    let (pulls, well) = told(scripts, number)?;
    let badly = Outcome {
        status: Status::Failed,
        text: Text::new(alloc, "alone")?,
    };
    let board = Arc::try_clone(board)?;
    Ok(Actor {
        act,
        node,
        board,
        pulls,
        fresh: true,
        ends: Some(Ends { well, badly }),
    })
}

/// Puts the job in a slot of the plan behind the others, if the slot has one.
#[tactic(auto, using(crate::proofs::Replying::fresh_push))]
fn put(
    alloc: Global,
    jobs: &mut Jobs<Actor>,
    plan: &Plan,
    scripts: &[Script],
    slot: usize,
    act: Act,
    board: &Arc<Board>,
) -> Result<(), AllocError>
    requires { slot < slot_count plan.now }
    ensures { OnOk result (AreFresh replies_left jobs.old.items → AreFresh replies_left jobs.new.items) }
{
    let Some(number) = job_number(plan, slot) else {
        return Ok(());
    };
    let job = actor(alloc, scripts, number, slot, act, board)?;
    jobs.push((number, job))?;
    Ok(())
}

/// One job for each slot of the plan that has one.
#[tactic(auto, using(crate::proofs::Replying::none_fresh))]
fn filled(
    alloc: Global,
    plan: &Plan,
    scripts: &[Script],
    act: Act,
    board: &Arc<Board>,
) -> Result<Jobs<Actor>, AllocError>
    ensures { IfOk result (λ jobs. AreFresh replies_left jobs.items) }
{
    let mut jobs = Vec::new(alloc);
    let nodes = plan.tree().len();
    for slot in 0..2 * nodes {
        put(alloc, &mut jobs, plan, scripts, slot, act, board)?;
    }
    Ok(jobs)
}

/// The jobs of a plan, each of which does this and ends as its script says.
#[tactic(auto, using(crate::proofs::Replying::may_answer))]
pub fn cast(
    alloc: Global,
    plan: &Plan,
    scripts: &[Script],
    act: Act,
    board: &Arc<Board>,
) -> Result<Jobs<Actor>, AllocError>
    ensures { IfOk result (λ jobs. (workers ring : ℕ) →
        JobsMayAnswer replies_left (run_of plan.now workers ring jobs.items)) }
{
    filled(alloc, plan, scripts, act, board)
}

/// No job of any plan.
#[tactic(auto, using(crate::proofs::Replying::none_fresh, crate::proofs::Replying::may_answer))]
pub fn no_jobs(alloc: Global) -> Jobs<Actor>
    ensures { (plan : PlanParts) (workers ring : ℕ) →
        JobsMayAnswer replies_left (run_of plan workers ring result.items) }
{
    Vec::new(alloc)
}
