//! What a worker does.

ghost use Rattle.std.specs.Prelude.{◌≡◌, true, None};
ghost use Rattle.scheduling.specs.declared.task.Task.TheVariants.{Free};
ghost use Rattle.run_table.specs.Handles.{about_in, worker_at};
ghost use Rattle.run_table.specs.Seats.{IsSeatOf, SameSeat};
ghost use Rattle.workers.specs.Going.{Continues, GoesOn};
ghost use Rattle.workers.specs.Leading.{GoesOnFrom};
ghost use Rattle.workers.specs.Premises.{MayAnswer};
ghost use Rattle.workers.specs.Inside.Steady.{Phase, Steady, AtNodes};

use crate::place::Place;
use crate::pulling::pull_tests;
use crate::scan::{is_over, take_node};
use crate::task_steps::{go_on_closing, go_on_opening};
use node_sources::Sources;
use plan_events::Job;
use run_table::{RunTable, WorkerSeat};
use scheduling::{Opening, Task};
use std::sync::Wait;

/// Takes one step after the other, until there is no task, and says whether it gave its node up, a
/// key of which was busy.
pub(crate) fn run_tasks<B: Job, K: Place<B>, R: Wait>(
    rt: &R,
    table: &RunTable<B>,
    seat: &mut WorkerSeat<B>,
    place: &mut K,
    sources: &mut Sources,
) -> bool
    requires table { IsSeatOf table.now.table seat.old.seat }
    requires jobs { MayAnswer B.answers (about_in table.now.table) }
    requires steady { (phase : Phase) × Steady phase seat.old.seat }
    ensures goes_on { GoesOn seat.old.seat seat.new.seat }
    ensures steady { (phase : Phase) → Steady phase seat.old.seat → Steady phase seat.new.seat }
    ensures free { seat.new.task ≡ Free }
    ensures led { GoesOnFrom K.led place.old place.new }
{
    let mut gave_up = false;
    for _ in rt.forever() {
        match seat.task() {
            Task::Free => return gave_up,
            Task::Opens(node, opening) => {
                gave_up = matches!(opening, Opening::Backing(0));
                go_on_opening(rt, table, seat, place, sources, node, opening)
            }
            Task::Closes(node, closing) => {
                go_on_closing(rt, table, seat, place, sources, node, closing)
            }
        }
    }
    unreachable!()
}

/// Sees the node that it has taken through, or gives it up; and, of a factory, the dynamic tests that its job asks for.
fn see_through<B: Job, K: Place<B>, R: Wait>(
    rt: &R,
    table: &RunTable<B>,
    seat: &mut WorkerSeat<B>,
    place: &mut K,
    sources: &mut Sources,
)
    requires table { IsSeatOf table.now.table seat.old.seat }
    requires jobs { MayAnswer B.answers (about_in table.now.table) }
    requires steady { Steady AtNodes seat.old.seat }
    ensures goes_on { GoesOn seat.old.seat seat.new.seat }
    ensures steady { Steady AtNodes seat.new.seat }
    ensures free { seat.new.task ≡ Free }
    ensures empty { seat.new.hand ≡ None }
    ensures led { GoesOnFrom K.led place.old place.new }
{
    for _ in rt.forever() {
        run_tasks(rt, table, seat, place, sources);
        match seat.hand() {
            None => return,
            Some(held) => pull_tests(rt, table, seat, place, sources, held),
        }
    }
    unreachable!()
}

/// Whether a worker takes nodes that are offered to any: its place is open, or no worker's is.
fn takes_any<B: Job, K: Place<B>>(place: &K, sources: &mut Sources) -> bool {
    if place.is_open() {
        return true;
    }
    sources.close();
    sources.are_all_closed()
}

/// Takes a node, if it finds one, and sees it through. While its place is closed, and another's is open, it takes only
/// what is offered to it alone.
fn take_and_see_through<B: Job, K: Place<B>, R: Wait>(
    rt: &R,
    table: &RunTable<B>,
    seat: &mut WorkerSeat<B>,
    place: &mut K,
    sources: &mut Sources,
)
    requires table { IsSeatOf table.now.table seat.old.seat }
    requires jobs { MayAnswer B.answers (about_in table.now.table) }
    requires free { seat.old.task ≡ Free }
    requires empty { seat.old.hand ≡ None }
    ensures goes_on { GoesOn seat.old.seat seat.new.seat }
    ensures free { seat.new.task ≡ Free }
    ensures empty { seat.new.hand ≡ None }
    ensures led { GoesOnFrom K.led place.old place.new }
{
    let takes_any = takes_any(place, sources);
    if take_node(table, seat, sources, takes_any) {
        see_through(rt, table, seat, place, sources);
    } else if !takes_any {
        sources.nap(rt, table.plan());
    }
}

/// Works until node 0 is settled, and runs jobs at this place. A worker that is free takes the node that it has offered to
/// itself, or else the first one of its lane, or else of another's. Where it has begun none so for
/// many rounds, it looks round the circle of nodes, behind the one that it took there last, and
/// takes what is offered to any or to it. Once it came round and has begun none, it rests, longer
/// each time, until it is woken or has slept long enough.
pub fn work<B: Job, K: Place<B>, R: Wait>(
    rt: &R,
    table: &RunTable<B>,
    seat: &mut WorkerSeat<B>,
    place: &mut K,
    sources: &mut Sources,
)
    requires table { IsSeatOf table.now.table seat.old.seat }
    requires jobs { MayAnswer B.answers (about_in table.now.table) }
    requires free { seat.old.task ≡ Free }
    requires empty { seat.old.hand ≡ None }
    ensures same { SameSeat seat.old.seat seat.new.seat }
    ensures mine { Continues (worker_at seat.old.seat).mine (worker_at seat.new.seat).mine }
    ensures free { seat.new.task ≡ Free }
    ensures empty { seat.new.hand ≡ None }
    ensures over { (worker_at seat.new.seat).over ≡ true }
    ensures led { GoesOnFrom K.led place.old place.new }
{
    sources.attach(seat.place());
    for _ in rt.forever() {
        if is_over(table, seat) {
            return;
        }
        take_and_see_through(rt, table, seat, place, sources);
        sources.rest(rt);
    }
    unreachable!()
}
