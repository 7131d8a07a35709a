//! What is left in the slots of a table that was taken apart: jobs, jobs that have answered, and notes.

ghost use Rattle.std.specs.Prelude.{◌≡◌, ◌+◌, ◌<◌, ◌≤◌, ◌++◌, [], Some, vec_len, vec_capacity};
ghost use Rattle.std.specs.Mem.Slots.{slots_items, slots_len, IsFull};
ghost use Rattle.table_rule.specs.Slots.{slot_count};
ghost use Rattle.table_contents.specs.Prepared.{job_in, jobs_from};
ghost use Rattle.table_contents.specs.Remains.{note_at, notes_from, used_at, used_from, with_number};

use crate::jobs::{Jobs, job_number, keep};
use descriptor::BodyId;
use plan_events::{Job, Note};
use resource_locks::Plan;
use std::alloc::Global;
use table_rule::Slot;

/// Notes of slots, each with the number of its slot.
pub type Notes = Vec<(usize, Note)>;

/// What is left of a run: its plan, the jobs that never left, those that no slot had among them, those that have
/// answered, and the notes that are still in slots.
#[derive(Drop)]
pub struct Closed<B> {
    pub plan: Plan,
    pub jobs: Jobs<B>,
    pub used: Jobs<B>,
    pub notes: Notes,
}

/// Keeps a job that has answered.
fn keep_used<B: Job>(used: &mut Jobs<B>, number: Option<BodyId>, job: B)
    requires { vec_len used.old < vec_capacity used.old }
    ensures used { used.new.items ≡ used.old.items ++ with_number number (Some job) }
    ensures room { vec_len used.new ≤ vec_len used.old + 1 }
    ensures capacity { vec_capacity used.new ≡ vec_capacity used.old }
{
    if let Some(number) = number {
        used.push_reserved((number, job));
    }
}

/// Keeps what is in a slot: its job, and the note of the job's answer.
fn keep_all<B: Job>(
    jobs: &mut Jobs<B>,
    used: &mut Jobs<B>,
    notes: &mut Notes,
    number: Option<BodyId>,
    slot: usize,
    held: Slot<B>,
)
    requires jobs { vec_len jobs.old < vec_capacity jobs.old }
    requires used { vec_len used.old < vec_capacity used.old }
    requires notes { vec_len notes.old < vec_capacity notes.old }
    ensures jobs { jobs.new.items ≡ jobs.old.items ++ job_in number held }
    ensures used { used.new.items ≡ used.old.items ++ used_at number held }
    ensures notes { notes.new.items ≡ notes.old.items ++ note_at slot held }
    ensures jobs_room { vec_len jobs.new ≤ vec_len jobs.old + 1 }
    ensures used_room { vec_len used.new ≤ vec_len used.old + 1 }
    ensures notes_room { vec_len notes.new ≤ vec_len notes.old + 1 }
    ensures jobs_capacity { vec_capacity jobs.new ≡ vec_capacity jobs.old }
    ensures used_capacity { vec_capacity used.new ≡ vec_capacity used.old }
    ensures notes_capacity { vec_capacity notes.new ≡ vec_capacity notes.old }
{
    match held {
        Slot::Answered(_, _, note, job) => {
            notes.push_reserved((slot, note));
            keep_used(used, number, job);
        }
        Slot::Used(job) => keep_used(used, number, job),
        held => keep(jobs, number, held),
    }
}

/// Takes what the slots still have out of them: the jobs, behind the others, those that have answered, and the notes.
/// There is room for all.
pub fn taken_out<B: Job>(
    plan: Plan,
    mut closed: atomic_table::Closed<Slot<B>, Global>,
    mut jobs: Jobs<B>,
    mut used: Jobs<B>,
    mut notes: Notes,
) -> Closed<B>
    requires full { IsFull closed.slots }
    requires many { slots_len closed.slots ≡ slot_count plan }
    requires room { vec_len jobs + slot_count plan ≤ vec_capacity jobs }
    requires no_used { used.items ≡ [] }
    requires used_room { slot_count plan ≤ vec_capacity used }
    requires no_notes { notes.items ≡ [] }
    requires notes_room { slot_count plan ≤ vec_capacity notes }
    ensures plan { result.plan ≡ plan }
    ensures jobs { result.jobs.items ≡ jobs.items ++ jobs_from plan 0 (slots_items closed.slots) }
    ensures used { result.used.items ≡ used_from plan 0 (slots_items closed.slots) }
    ensures notes { result.notes.items ≡ notes_from 0 (slots_items closed.slots) }
{
    for slot in 0..closed.slot_count() {
        let held = closed.take(slot);
        let number = job_number(&plan, slot);
        keep_all(&mut jobs, &mut used, &mut notes, number, slot, held);
    }
    closed.free();
    Closed {
        plan,
        jobs,
        used,
        notes,
    }
}
