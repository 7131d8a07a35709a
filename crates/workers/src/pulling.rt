//! The dynamic tests that a factory's job asks for.

ghost use Rattle.std.specs.Prelude.{◌≡◌, ◌≢◌, ◌<◌, ◌≤◌, ◌+◌, ℕ, Some, None, length};
ghost use Rattle.descriptor.specs.Nodes.{IsTree, body_of};
ghost use Rattle.event_history.specs.Plans.{spare_count};
ghost use Rattle.plan_events.specs.Jobs.{unpulled};
ghost use Rattle.scheduling.specs.declared.seat.Hand.{Hand as HandValue};
ghost use Rattle.scheduling.specs.declared.task.Task.TheVariants.{Free};
ghost use Rattle.table_rule.specs.Picture.{gives_in, replies_in};
ghost use Rattle.run_table.specs.Handles.{about_at, about_in, guard_due_at, plan_at};
ghost use Rattle.run_table.specs.Seats.{IsSeatOf};
ghost use Rattle.plan_events.specs.declared.outcome.Reply.{Reply as ReplyValue};
ghost use Rattle.workers.specs.Leading.{GoesOnFrom};
ghost use Rattle.workers.specs.Inside.Answering.{GivesAfter, LeftAfter};
ghost use Rattle.workers.specs.Going.{GoesOn};
ghost use Rattle.workers.specs.Premises.{MayAnswer};
ghost use Rattle.workers.specs.Inside.Steady.{Steady, AtNodes, AtTests};

use crate::answering::run;
use crate::place::Place;
use crate::working::run_tasks;
use descriptor::NodeId;
use node_sources::Sources;
use plan_events::{Job, Note, Pull, Status};
use run_table::{RunTable, WorkerSeat};
use scheduling::Hand;
use std::sync::Wait;

/// The dynamic test that a factory in hand waits for.
fn waited_for(hand: Option<Hand>) -> Option<NodeId>
    ensures { (h : HandValue) → hand ≡ Some h → result ≡ h.waiting }
{
    hand?.waiting
}

/// Takes this dynamic test of the factory in hand, and says whether it did.
fn take_test<B: Job>(table: &RunTable<B>, seat: &mut WorkerSeat<B>, test: NodeId) -> bool
    requires table { IsSeatOf table.now.table seat.old.seat }
    requires tree { IsTree table.now.plan.tree }
    requires free { seat.old.task ≡ Free }
    ensures goes_on { GoesOn seat.old.seat seat.new.seat }
    ensures steady { (factory asked : ℕ) → Steady (AtTests factory asked) seat.old.seat →
        Steady (AtTests factory asked) seat.new.seat }
{
    let Ok(_) = seat.own(table, test) else {
        return false;
    };
    true
}

/// Sees the dynamic test through that was asked for last, and each that the factory waits for.
fn see_tests_through<B: Job, K: Place<B>, R: Wait>(
    rt: &R,
    table: &RunTable<B>,
    seat: &mut WorkerSeat<B>,
    place: &mut K,
    sources: &mut Sources,
)
    requires table { IsSeatOf table.now.table seat.old.seat }
    requires tree { IsTree table.now.plan.tree }
    requires jobs { MayAnswer B.answers (about_in table.now.table) }
    requires steady { (factory asked : ℕ) × Steady (AtTests factory asked) seat.old.seat }
    ensures goes_on { GoesOn seat.old.seat seat.new.seat }
    ensures steady { (factory asked : ℕ) → Steady (AtTests factory asked) seat.old.seat →
        Steady (AtTests factory asked) seat.new.seat }
    ensures free { seat.new.task ≡ Free }
    ensures idle { (h : HandValue) → seat.new.hand ≡ Some h → h.waiting ≡ None }
    ensures led { GoesOnFrom K.led place.old place.new }
{
    for _ in rt.forever() {
        let gave_up = run_tasks(rt, table, seat, place, sources);
        let Some(test) = waited_for(seat.hand()) else {
            return;
        };
        if gave_up {
            sources.wait(rt);
        }
        if !take_test(table, seat, test) {
            sources.wait(rt);
        }
    }
    unreachable!()
}

/// Takes the job of the factory that it has just taken in hand.
fn take_job<B: Job>(table: &RunTable<B>, seat: &mut WorkerSeat<B>, factory: NodeId) -> B
    requires table { IsSeatOf table.now.table seat.old.seat }
    requires free { seat.old.task ≡ Free }
    requires in_hand { (h : HandValue) × (seat.old.hand ≡ Some h) × (h.factory ≡ factory) }
    requires steady { Steady AtNodes seat.old.seat }
    ensures goes_on { GoesOn seat.old.seat seat.new.seat }
    ensures steady { Steady (AtTests factory 0) seat.new.seat }
    ensures free { seat.new.task ≡ Free }
    ensures idle { (h : HandValue) → seat.new.hand ≡ Some h → h.waiting ≡ None }
    ensures job { (number : ℕ) × (body_of (plan_at seat.old.seat).tree factory ≡ Some number)
        × (replies_in B.answers (about_at seat.old.seat).jobs number ≡ B.answers result)
        × ((reply : ReplyValue) → B.gives result reply → gives_in B.gives (about_at seat.old.seat).jobs number reply) }
{
    let Some(job) = seat.body_out(table, factory) else {
        unreachable!()
    };
    job
}

/// Asks for one more dynamic test of the factory in hand, which has so many.
fn add_test<B: Job>(table: &RunTable<B>, seat: &mut WorkerSeat<B>, factory: NodeId, asked: usize)
    requires table { IsSeatOf table.now.table seat.old.seat }
    requires tree { IsTree table.now.plan.tree }
    requires free { seat.old.task ≡ Free }
    requires idle { (h : HandValue) → seat.old.hand ≡ Some h → h.waiting ≡ None }
    requires steady { Steady (AtTests factory asked) seat.old.seat }
    requires more { asked < spare_count table.now.plan factory }
    ensures goes_on { GoesOn seat.old.seat seat.new.seat }
    ensures steady { Steady (AtTests factory (asked + 1)) seat.new.seat }
{
    seat.add_child_due(table);
}

/// Gives up the guard of the factory in hand, whose job has answered.
fn let_go<B: Job>(table: &RunTable<B>, seat: &mut WorkerSeat<B>)
    requires table { IsSeatOf table.now.table seat.old.seat }
    requires free { seat.old.task ≡ Free }
    requires due { guard_due_at seat.old.seat ≢ None }
    ensures goes_on { GoesOn seat.old.seat seat.new.seat }
    ensures steady { Steady AtNodes seat.new.seat }
{
    seat.give_guard_due(table);
}

/// Puts in that the factory's job, which is out, asks for more dynamic tests than the factory has,
/// and gives up the factory's guard.
fn tell_too_many<B: Job>(
    table: &RunTable<B>,
    seat: &mut WorkerSeat<B>,
    factory: NodeId,
    asked: usize,
    job: B,
)
    requires table { IsSeatOf table.now.table seat.old.seat }
    requires tree { IsTree table.now.plan.tree }
    requires free { seat.old.task ≡ Free }
    requires steady { Steady (AtTests factory asked) seat.old.seat }
    requires idle { (h : HandValue) → seat.old.hand ≡ Some h → h.waiting ≡ None }
    requires all { spare_count table.now.plan factory ≤ asked }
    requires some { 0 < length (B.answers job) }
    requires job { (number : ℕ) × (body_of (plan_at seat.old.seat).tree factory ≡ Some number)
        × LeftAfter (asked + 1) (replies_in B.answers (about_at seat.old.seat).jobs number) (B.answers job) }
    ensures goes_on { GoesOn seat.old.seat seat.new.seat }
    ensures steady { Steady AtNodes seat.new.seat }
{
    let Ok(()) = seat.text_in(table, factory, Status::Failed, Note::TooMany, job) else {
        unreachable!()
    };
    let_go(table, seat);
}

/// Runs the job of the factory in hand, which has asked for so many dynamic tests, puts its answer
/// in, and gives up the factory's guard.
fn run_factory<B: Job, K: Place<B>>(
    table: &RunTable<B>,
    seat: &mut WorkerSeat<B>,
    place: &mut K,
    factory: NodeId,
    asked: usize,
    job: B,
)
    requires table { IsSeatOf table.now.table seat.old.seat }
    requires free { seat.old.task ≡ Free }
    requires steady { Steady (AtTests factory asked) seat.old.seat }
    requires idle { (h : HandValue) → seat.old.hand ≡ Some h → h.waiting ≡ None }
    requires some { 0 < length (unpulled (B.answers job)) }
    requires job { (number : ℕ) × (body_of (plan_at seat.old.seat).tree factory ≡ Some number)
        × LeftAfter asked (replies_in B.answers (about_at seat.old.seat).jobs number) (B.answers job)
        × GivesAfter asked (gives_in B.gives (about_at seat.old.seat).jobs number) (B.gives job) }
    ensures goes_on { GoesOn seat.old.seat seat.new.seat }
    ensures steady { Steady AtNodes seat.new.seat }
    ensures led { GoesOnFrom K.led place.old place.new }
{
    run(table, seat, place, factory, job);
    let_go(table, seat);
}

/// Asks the job of the factory in hand for dynamic tests, and sees each through, until there are no
/// more or more than the factory has; then it puts the job's answer in, and gives up the factory's
/// guard.
pub(crate) fn pull_tests<B: Job, K: Place<B>, R: Wait>(
    rt: &R,
    table: &RunTable<B>,
    seat: &mut WorkerSeat<B>,
    place: &mut K,
    sources: &mut Sources,
    held: Hand,
)
    requires table { IsSeatOf table.now.table seat.old.seat }
    requires jobs { MayAnswer B.answers (about_in table.now.table) }
    requires free { seat.old.task ≡ Free }
    requires in_hand { seat.old.hand ≡ Some held }
    requires steady { Steady AtNodes seat.old.seat }
    ensures goes_on { GoesOn seat.old.seat seat.new.seat }
    ensures steady { Steady AtNodes seat.new.seat }
    ensures led { GoesOnFrom K.led place.old place.new }
{
    let factory = held.factory;
    let tests = table.plan().tree().children(factory).len();
    let mut job = take_job(table, seat, factory);
    let mut asked = 0;
    for _ in rt.forever() {
        match job.next() {
            Pull::More if asked < tests => {
                add_test(table, seat, factory, asked);
                asked += 1;
                see_tests_through(rt, table, seat, place, sources);
            }
            Pull::More => {
                return tell_too_many(table, seat, factory, asked, job);
            }
            Pull::End => {
                return run_factory(table, seat, place, factory, asked, job);
            }
        }
    }
    unreachable!()
}
