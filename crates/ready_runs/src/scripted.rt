//! The jobs of a plan, as the scripts of a suite have them answer.

ghost use Rattle.std.specs.Prelude.{◌≡◌, ◌<◌, ◌==◌, ◌∷◌, [], ℕ, Some, IfOk, OnOk, if◌then◌else◌, get_or, length};
ghost use Rattle.resource_locks.specs.Plans.{PlanParts};
ghost use Rattle.event_history.specs.Plans.{pulls_job};
ghost use Rattle.sched_core.specs.Replies.{reply_of};
ghost use Rattle.table_rule.specs.Slots.{slot_count, job_at};
ghost use Rattle.table_contents.specs.Prepared.{HasAllJobs};
ghost use Rattle.ready_runs.specs.Scripted.{gives_left, replies_left, says_nothing, asked_reply, is_pulled_slot, spin_of, AreScripted};

use descriptor::{BodyId, NodeId, Role};
use plan_events::{Job, Outcome, Pull, Reply, Status};
use resource_locks::Plan;
use run_table::{Jobs, job_number};
use sched_core::Answers;
use std::alloc::{AllocError, Global};
use std::hint::spin_loop;
use suite_text::Script;
use unique_id::Text;

/// A body or an after-body, which counts, and then ends as its line of the suite says.
#[derive(Drop)]
pub struct ScriptedJob {
    spin: u32,
    // none once it was run
    reply: Option<Reply>,
}

/// Counts so far. The processor is told that it waits, so no compiler drops the loop.
fn count_to(spin: u32) {
    for _turn in 0..spin {
        spin_loop();
    }
}

impl Job for ScriptedJob {
    ghost answers = { replies_left };

    ghost gives = { gives_left };

    ghost says = { λ job. says_nothing };

    fn next(&mut self) -> Pull {
        let Some(reply) = &mut self.reply else {
            return Pull::End;
        };
        if reply.pulls == 0 {
            return Pull::End;
        }
        reply.pulls -= 1;
        Pull::More
    }

    fn run(&mut self) -> Outcome {
        count_to(self.spin);
        match self.reply.take() {
            Some(reply) => reply.outcome,
            None => Outcome {
                status: Status::Successful,
                text: Text::empty(),
            },
        }
    }
}

/// Makes a place for a body; at a new place it does not count.
fn make_place(spins: &mut Vec<u32>, place: usize) -> Result<(), AllocError>
    ensures room { OnOk result (place < length spins.new.items) }
    ensures same { OnOk result ((body : ℕ) → get_or spins.new.items body 0 ≡ get_or spins.old.items body 0) }
{
    while spins.len() <= place {
        spins.push(0)?;
    }
    Ok(())
}

/// Keeps how far the body at this place counts.
fn put_spin(spins: &mut Vec<u32>, place: usize, spin: u32) -> Result<(), AllocError>
    ensures { OnOk result ((body : ℕ) →
        get_or spins.new.items body 0 ≡ (if place == body then spin else get_or spins.old.items body 0)) }
{
    make_place(spins, place)?;
    spins[place] = spin;
    Ok(())
}

/// How far each body counts, at the place of its number.
pub fn spins_of(alloc: Global, scripts: &[Script]) -> Result<Vec<u32>, AllocError>
    ensures { IfOk result (λ spins. (body : ℕ) → get_or spins.items body 0 ≡ spin_of scripts.now body) }
{
    let mut spins = Vec::with_capacity(alloc, scripts.len())?;
    for script in scripts {
        put_spin(&mut spins, script.body.index(), script.spin)?;
    }
    Ok(spins)
}

/// How far the body of this number counts.
fn spin_at(spins: &[u32], number: BodyId) -> u32
    ensures { result ≡ get_or spins.now number 0 }
{
    match spins.get(number.index()) {
        Some(spin) => *spin,
        None => 0,
    }
}

/// The reply of a body, as the suite says it; without one it is successful, and says nothing. It is looked for first
/// at this place.
fn reply_to(answers: &Answers, place: usize, body: BodyId) -> Result<Reply, AllocError>
    ensures { IfOk result (λ reply. reply ≡ reply_of answers.now body) }
{
    let Some(reply) = answers.reply_near(place, body) else {
        return Ok(Reply {
            pulls: 0,
            outcome: Outcome {
                status: Status::Successful,
                text: Text::empty(),
            },
        });
    };
    Ok(Reply {
        pulls: reply.pulls,
        outcome: reply.outcome.copy()?,
    })
}

/// Whether the body of a factory stands in a slot that has a job.
fn is_pulled(plan: &Plan, slot: usize) -> bool
    requires inside { slot < slot_count plan.now }
    requires job { (number : ℕ) × (job_at plan.now slot ≡ Some number) }
    ensures { result ≡ is_pulled_slot plan.now slot }
{
    let tree = plan.tree();
    slot < tree.len() && tree.role(NodeId::new(slot as u16)) == Role::Factory
}

/// The job of this number in this slot, at this place among the jobs.
fn job_for(
    plan: &Plan,
    answers: &Answers,
    place: usize,
    spins: &[u32],
    slot: usize,
    number: BodyId,
) -> Result<ScriptedJob, AllocError>
    requires inside { slot < slot_count plan.now }
    requires is { job_at plan.now slot ≡ Some number }
    ensures reply { IfOk result (λ job. replies_left job ≡ asked_reply (is_pulled_slot plan.now slot)
        (reply_of answers.now number) ∷ []) }
    ensures spin { IfOk result (λ job. job.spin ≡ get_or spins.now number 0) }
{
    let mut reply = reply_to(answers, place, number)?;
    if !is_pulled(plan, slot) {
        reply.pulls = 0;
    }
    Ok(ScriptedJob {
        spin: spin_at(spins, number),
        reply: Some(reply),
    })
}

/// The jobs of a plan, which answer what the suite says, and count so far before that.
pub fn scripted_jobs(
    alloc: Global,
    plan: &Plan,
    answers: &Answers,
    spins: &[u32],
) -> Result<Jobs<ScriptedJob>, AllocError>
    ensures { IfOk result (λ jobs. AreScripted plan.now answers.now (slot_count plan.now) jobs.items) }
{
    let mut jobs = Vec::with_capacity(alloc, plan.tree().len())?;
    for slot in 0..2 * plan.tree().len() {
        if let Some(number) = job_number(plan, slot) {
            let place = jobs.len();
            jobs.push((number, job_for(plan, answers, place, spins, slot, number)?))?;
        }
    }
    Ok(jobs)
}
