//! Room for what stands in a running table, and what is there before any job is.

ghost use Rattle.std.specs.Prelude.{◌≡◌, ◌+◌, ◌≤◌, ℕ, [], false, IfOk, OnOk, replicate, vec_len, vec_capacity};
ghost use Rattle.descriptor.specs.Nodes.{size};
ghost use Rattle.resource_locks.specs.Plans.{IsPlan};
ghost use Rattle.scheduling.specs.LinkLists.{AreTurns};
ghost use Rattle.scheduling.specs.Runs.{opening};
ghost use Rattle.table_rule.specs.Slots.{slot_count};
ghost use Rattle.table_rule.specs.Rings.{empty_ring};
ghost use Rattle.table_rule.specs.Words.{words_of};
ghost use Rattle.table_contents.specs.Filling.{IsIndex, IsFilled};

use crate::jobs::{Jobs, empty_slots, slots_by_number};
use crate::marks::SeatMarks;
use crate::remains::Notes;
use crate::start::words_at_start;
use plan_events::Job;
use resource_locks::Plan;
use scheduling::Turns;
use std::alloc::{AllocError, Global};
use table_rule::Slot;

/// What a run has memory for, but for the table itself.
#[derive(Drop)]
pub struct RunMemory<B> {
    pub turns: Turns,
    pub marks: SeatMarks,
    pub words: Vec<u64>,
    pub index: Vec<Option<u16>>,
    pub slots: Vec<Slot<B>>,
    pub unused: Jobs<B>,
    pub used: Jobs<B>,
    pub notes: Notes,
}

impl<B: Job> RunMemory<B> {
    /// Room for the slots of a plan, with nothing in them, for their notes and used jobs, for a ring of so many
    /// words, and beside them for so many jobs; and the marks of the seats of so many workers and the dispatcher.
    pub fn new(
        alloc: Global,
        plan: &Plan,
        ring: usize,
        workers: u8,
        jobs: usize,
    ) -> Result<RunMemory<B>, AllocError>
        ensures plan { IfOk result (λ memory. IsPlan plan.now) }
        ensures turns { IfOk result (λ memory. AreTurns plan.now memory.turns) }
        ensures ended { IfOk result (λ memory. memory.marks.ended ≡ replicate (size plan.now.tree) false) }
        ensures taken { IfOk result (λ memory. memory.marks.taken ≡ replicate (slot_count plan.now) false) }
        ensures moved { IfOk result (λ memory. memory.marks.moved.items ≡ replicate workers
            (replicate (slot_count plan.now) false)) }
        ensures words { IfOk result (λ memory. (count : ℕ) → memory.words.items ≡ words_of (empty_ring ring)
            (opening plan.now count)) }
        ensures index { IfOk result (λ memory. IsIndex plan.now memory.index.items) }
        ensures slots { IfOk result (λ memory. IsFilled plan.now [] memory.slots.items memory.unused.items) }
        ensures unused { IfOk result (λ memory. vec_len memory.unused ≡ 0) }
        ensures room { IfOk result (λ memory. jobs + slot_count plan.now ≤ vec_capacity memory.unused) }
        ensures no_used { IfOk result (λ memory. memory.used.items ≡ []) }
        ensures used { IfOk result (λ memory. slot_count plan.now ≤ vec_capacity memory.used) }
        ensures no_notes { IfOk result (λ memory. memory.notes.items ≡ []) }
        ensures notes { IfOk result (λ memory. slot_count plan.now ≤ vec_capacity memory.notes) }
    {
        let count = 2 * plan.tree().len();
        let Some(most) = jobs.checked_add(count) else {
            return Err(AllocError);
        };
        let marks = SeatMarks::none(alloc, plan.tree().len(), workers)?;
        let mut memory = RunMemory::bare(alloc, Turns::new(alloc, plan)?, marks);
        memory.reserve(alloc, plan, ring, most)?;
        Ok(memory)
    }

    /// No memory yet but for these turns and marks.
    fn bare(alloc: Global, turns: Turns, marks: SeatMarks) -> RunMemory<B>
        ensures turns { result.turns ≡ turns }
        ensures marks { result.marks ≡ marks }
    {
        RunMemory {
            turns,
            marks,
            words: Vec::new(alloc),
            index: Vec::new(alloc),
            slots: Vec::new(alloc),
            unused: Vec::new(alloc),
            used: Vec::new(alloc),
            notes: Vec::new(alloc),
        }
    }

    /// Reserves it, beside the slots for so many jobs in all. Here no value is owned that an early return would have
    /// to drop.
    fn reserve(
        &mut self,
        alloc: Global,
        plan: &Plan,
        ring: usize,
        most: usize,
    ) -> Result<(), AllocError>
        ensures turns { self.new.turns ≡ self.old.turns }
        ensures marks { self.new.marks ≡ self.old.marks }
        ensures words { OnOk result ((workers : ℕ) → self.new.words.items ≡ words_of (empty_ring ring)
            (opening plan.now workers)) }
        ensures index { OnOk result (IsIndex plan.now self.new.index.items) }
        ensures slots { OnOk result (IsFilled plan.now [] self.new.slots.items self.new.unused.items) }
        ensures unused { OnOk result (vec_len self.new.unused ≡ 0) }
        ensures room { OnOk result (most ≤ vec_capacity self.new.unused) }
        ensures no_used { OnOk result (self.new.used.items ≡ []) }
        ensures used { OnOk result (slot_count plan.now ≤ vec_capacity self.new.used) }
        ensures no_notes { OnOk result (self.new.notes.items ≡ []) }
        ensures notes { OnOk result (slot_count plan.now ≤ vec_capacity self.new.notes) }
    {
        let count = 2 * plan.tree().len();
        self.words = words_at_start(alloc, plan, ring)?;
        self.index = slots_by_number(alloc, plan)?;
        self.slots = empty_slots(alloc, count)?;
        self.unused = Vec::with_capacity(alloc, most)?;
        self.used = Vec::with_capacity(alloc, count)?;
        self.notes = Vec::with_capacity(alloc, count)?;
        Ok(())
    }
}
