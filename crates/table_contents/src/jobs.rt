//! The slots at the start: each job goes into the slot of its body, and a job that has none is kept beside.

ghost use Rattle.std.specs.Prelude.{◌≡◌, ◌+◌, ◌<◌, ◌≤◌, ◌∷◌, ◌++◌, ◌⊎◌, ℕ, [], List, Some, None, IfOk, IfSome};
ghost use Rattle.std.specs.Prelude.{IfNone, length, replicate, get_or, vec_len, vec_capacity};
ghost use mathlib.Core.Option.{some};
ghost use lib.ListN.{get_elem?};
ghost use Rattle.descriptor.specs.Nodes.{IsTree};
ghost use Rattle.resource_locks.specs.Plans.{PlanParts};
ghost use Rattle.table_rule.specs.declared.view.Slot.TheVariants.{Empty};
ghost use Rattle.table_rule.specs.Slots.{slot_count, job_at};
ghost use Rattle.table_contents.specs.Prepared.{job_in, jobs_from};
ghost use Rattle.table_contents.specs.Filling.{IsIndex, IsFilled, IsLeastBare, is_bare};

use descriptor::{BodyId, NodeId};
use plan_events::Job;
use resource_locks::Plan;
use std::alloc::{AllocError, Global};
use table_rule::Slot;

/// The jobs of a run, each with the number of its body.
pub type Jobs<B> = Vec<(BodyId, B)>;

/// The number of the job of a slot of the plan, if it has one: slot n is for the body of node n,
/// and behind the slots of all nodes come those of their after-bodies, in the same order.
pub fn job_number(plan: &Plan, slot: usize) -> Option<BodyId>
    requires { slot < slot_count plan.now }
    ensures { result ≡ job_at plan.now slot }
{
    let tree = plan.tree();
    let nodes = tree.len();
    if slot < nodes {
        tree.body(NodeId::new(slot as u16))
    } else {
        tree.after(NodeId::new((slot - nodes) as u16))
    }
}

/// How many places a list has that had so many and is to have one for this number, counted from 0.
fn with_place(places: usize, number: BodyId) -> usize
    ensures more { places ≤ result }
    ensures place { number < result }
{
    places.max(number.index() + 1)
}

/// How many places there have to be for the numbers of the plan's jobs.
fn places_for(plan: &Plan) -> usize
    ensures { (k number : ℕ) → k < slot_count plan.now → job_at plan.now k ≡ Some number → number < result }
{
    let mut places = 0;
    for slot in 0..2 * plan.tree().len() {
        if let Some(number) = job_number(plan, slot) {
            places = with_place(places, number);
        }
    }
    places
}

/// A list of so many places, with no slot in them.
fn no_slots(alloc: Global, many: usize) -> Result<Vec<Option<u16>>, AllocError>
    ensures { IfOk result (λ index. index.items ≡ replicate many None) }
{
    vec![in alloc; None; many]
}

/// The slot of each job, at the place of the job's number.
pub(crate) fn slots_by_number(alloc: Global, plan: &Plan) -> Result<Vec<Option<u16>>, AllocError>
    ensures { IfOk result (λ index. IsIndex plan.now index.items) }
{
    let many = places_for(plan);
    let mut index = no_slots(alloc, many)?;
    for slot in 0..2 * plan.tree().len() {
        if let Some(number) = job_number(plan, slot) {
            index[number.index()] = Some(slot as u16);
        }
    }
    Ok(index)
}

/// The slots, with nothing in them.
pub(crate) fn empty_slots<B: Job>(alloc: Global, count: usize) -> Result<Vec<Slot<B>>, AllocError>
    ensures many { IfOk result (λ slots. length slots.items ≡ count) }
    ensures empty { IfOk result (λ slots. (k : ℕ) → k < count → get_elem? slots.items k ≡ some Empty) }
{
    let mut slots = Vec::with_capacity(alloc, count)?;
    for _slot in 0..count {
        slots.push_reserved(Slot::Empty);
    }
    Ok(slots)
}

/// Whether nothing stands in a slot.
fn is_empty<B: Job>(slot: &Slot<B>) -> bool
    ensures { result ≡ is_bare slot.now }
{
    matches!(slot, Slot::Empty)
}

/// The slot at the place of this number, if there is one.
fn slot_at(index: &[Option<u16>], number: BodyId) -> Option<u16>
    ensures { result ≡ get_or index.now number None }
{
    let place = number.index();
    if place < index.len() {
        index[place]
    } else {
        None
    }
}

/// The slot of this number, if it is empty.
fn empty_slot<B: Job>(index: &[Option<u16>], slots: &[Slot<B>], number: BodyId) -> Option<usize>
    ensures some { IfSome result (λ k. (get_or index.now number None ≡ Some k) × (k < length slots.now)
        × (get_elem? slots.now k ≡ some Empty)) }
    ensures none { IfNone result ((k : ℕ) → get_or index.now number None ≡ Some k →
        get_elem? slots.now k ≡ some Empty → ⊥) }
{
    let Some(slot) = slot_at(index, number) else {
        return None;
    };
    let slot = usize::from(slot);
    if slot >= slots.len() {
        return None;
    }
    if !is_empty(&slots[slot]) {
        return None;
    }
    Some(slot)
}

/// Puts a job into its slot, if it has one that is empty; else it is one of the unused.
fn put_in<B: Job>(
    index: &[Option<u16>],
    slots: &mut [Slot<B>],
    unused: &mut Jobs<B>,
    number: BodyId,
    job: B,
)
    requires room { vec_len unused.old < vec_capacity unused.old }
    ensures put { (p : PlanParts) → IsTree p.tree → IsIndex p index.now → (before : List (ℕ × B)) →
        IsFilled p before slots.old unused.old.items → IsFilled p (before ++ (number, job) ∷ []) slots.new
        unused.new.items }
    ensures many { length slots.new ≡ length slots.old }
    ensures room { vec_len unused.new ≤ vec_len unused.old + 1 }
    ensures capacity { vec_capacity unused.new ≡ vec_capacity unused.old }
{
    match empty_slot(index, slots, number) {
        Some(slot) => slots[slot] = Slot::Body(job),
        None => unused.push_reserved((number, job)),
    }
}

/// Puts each job into its slot. Of two jobs of one number the first goes in.
pub fn fill<B: Job>(
    index: &[Option<u16>],
    slots: &mut [Slot<B>],
    unused: &mut Jobs<B>,
    jobs: Jobs<B>,
)
    requires room { vec_len unused.old + vec_len jobs ≤ vec_capacity unused.old }
    ensures many { length slots.new ≡ length slots.old }
    ensures filled { (p : PlanParts) → IsTree p.tree → IsIndex p index.now →
        IsFilled p [] slots.old unused.old.items → IsFilled p jobs.items slots.new unused.new.items }
    ensures room { vec_len unused.new ≤ vec_len unused.old + vec_len jobs }
    ensures capacity { vec_capacity unused.new ≡ vec_capacity unused.old }
{
    for (number, job) in jobs {
        put_in(index, slots, unused, number, job);
    }
}

/// The lesser of two numbers, where there is a first.
fn lesser(least: Option<BodyId>, number: BodyId) -> BodyId
    ensures some { (n : ℕ) → least ≡ Some n → (result ≤ n) × (result ≤ number) × ((result ≡ n) ⊎ (result ≡ number)) }
    ensures none { least ≡ None → result ≡ number }
{
    match least {
        Some(least) if least.number() < number.number() => least,
        _ => number,
    }
}

/// The least number of a job of the plan whose slot is empty.
pub fn least_bare<B: Job>(plan: &Plan, slots: &[Slot<B>]) -> Option<BodyId>
    requires { length slots.now ≡ slot_count plan.now }
    ensures { IsLeastBare plan.now slots.now (slot_count plan.now) result }
{
    let mut least = None;
    for slot in 0..slots.len() {
        if let Some(number) = job_number(plan, slot) {
            if is_empty(&slots[slot]) {
                least = Some(lesser(least, number));
            }
        }
    }
    least
}

/// Keeps the job of a slot, if one is in it.
pub(crate) fn keep<B: Job>(jobs: &mut Jobs<B>, number: Option<BodyId>, slot: Slot<B>)
    requires { vec_len jobs.old < vec_capacity jobs.old }
    ensures items { jobs.new.items ≡ jobs.old.items ++ job_in number slot }
    ensures room { vec_len jobs.new ≤ vec_len jobs.old + 1 }
    ensures capacity { vec_capacity jobs.new ≡ vec_capacity jobs.old }
{
    let Some(number) = number else {
        return;
    };
    let Slot::Body(job) = slot else {
        return;
    };
    jobs.push_reserved((number, job));
}

/// The jobs in these slots, behind those that are in none.
pub fn emptied<B: Job>(plan: &Plan, slots: Vec<Slot<B>>, mut jobs: Jobs<B>) -> Jobs<B>
    requires many { length slots.items ≡ slot_count plan.now }
    requires room { vec_len jobs + vec_len slots ≤ vec_capacity jobs }
    ensures { result.items ≡ jobs.items ++ jobs_from plan.now 0 slots.items }
{
    let mut number = 0;
    for slot in slots {
        keep(&mut jobs, job_number(plan, number), slot);
        number += 1;
    }
    jobs
}
