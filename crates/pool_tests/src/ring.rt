//! One worker and the dispatcher, both on the calling thread, at a ring of one word; a body that
//! waits for it; and rings that are refused.

ghost use Rattle.run_table.specs.Seats.{IsSeatOf};

use crate::running::{how, is_said, run_of_suite, staged};
use crate::stepping::{ONE, comes_to_the_engine, is_start};
use descriptor::NodeId;
use run_table::{DispatcherSeat, RunTable, WorkerSeat};
use std::alloc::Global;
use std::sync::Wait;
use std::thread::Threads;
use test_jobs::{Act, Actor};

/// A suite of one engine, with nothing below it.
const ENGINE: &str = "engine e\n";

/// Whether the engine's start has room once the plan's start is read and that is told, and not before.
fn room_is_made(
    table: &RunTable<Actor>,
    worker: &mut WorkerSeat<Actor>,
    dispatcher_seat: &mut DispatcherSeat<Actor>,
) -> bool
    requires worker { IsSeatOf table.now.table worker.old.seat }
    requires dispatcher_seat { IsSeatOf table.now.table dispatcher_seat.old.seat }
{
    let came = worker.claim(table, NodeId::ROOT).is_ok()
        && worker.draw(table).is_ok()
        && worker.show(table).is_ok()
        && comes_to_the_engine(table, worker);
    let full = worker.room(table) == Ok(false);
    let early = worker.show(table).is_err();
    let first = is_start(dispatcher_seat.read(table), 0);
    let untold = worker.room(table) == Ok(false);
    let again = dispatcher_seat.read(table).is_none();
    dispatcher_seat.advance(table);
    let free = worker.room(table) == Ok(true);
    let shown = worker.show(table).is_ok();
    let second = is_start(dispatcher_seat.read(table), 1);
    let last = dispatcher_seat.read(table).is_none();
    came && full && early && first && untold && again && free && shown && second && last
}

/// Whether it is so at this table, which nobody has used.
fn room_is_made_at(table: &RunTable<Actor>, dispatcher_seat: &mut DispatcherSeat<Actor>) -> bool
    requires { IsSeatOf table.now.table dispatcher_seat.old.seat }
{
    match dispatcher_seat.split(table) {
        Some(mut worker) => room_is_made(table, &mut worker, dispatcher_seat),
        None => false,
    }
}

/// Whether it is so at a table with a ring of one word.
fn room_is_made_in_one_word(alloc: Global) -> Option<bool> {
    let (plan, scripts) = staged(alloc, ENGINE)?;
    drop(scripts);
    match RunTable::<Actor>::prepare(alloc, plan, Vec::new(alloc), 1, 1) {
        Ok((table, mut dispatcher_seat)) => Some(room_is_made_at(&table, &mut dispatcher_seat)),
        Err(_) => None,
    }
}

/// Whether a run by so many workers with a ring of so many words is refused so.
fn is_refused<R: Threads + Wait + Sync>(
    rt: &R,
    alloc: Global,
    workers: u32,
    ring: u32,
    wanted: &str,
) -> bool {
    let said = run_of_suite(rt, alloc, ENGINE, how(Act::Ends, workers, ring));
    is_said(said, wanted)
}

/// Whether other numbers of workers and other rings are refused, the workers first.
fn others_are_refused<R: Threads + Wait + Sync>(rt: &R, alloc: Global) -> bool {
    is_refused(rt, alloc, 0, 0, "refused 60")
        && is_refused(rt, alloc, 65, 0, "refused 61")
        && is_refused(rt, alloc, 1, 0, "refused 71")
        && is_refused(rt, alloc, 1, 16_385, "refused 71")
}

/// Whether the body of the test has not begun while the listener is still told the start of its class.
fn body_waits<R: Threads + Wait + Sync>(rt: &R, alloc: Global, workers: u32) -> bool {
    let mut how = how(Act::Meets(3, 3), workers, 1);
    how.looks_for = Some(3);
    let said = run_of_suite(rt, alloc, ONE, how);
    is_said(said, "+0 +1 +2 +3 -3 -2 -1 -0 unused asked 0 told 0")
}

pub(crate) fn room_is_made_by_reading<R: Threads + Wait + Sync>(rt: &R, alloc: Global) -> bool {
    room_is_made_in_one_word(alloc).unwrap_or(false)
        && others_are_refused(rt, alloc)
        && body_waits(rt, alloc, 1)
        && body_waits(rt, alloc, 2)
        && body_waits(rt, alloc, 3)
}
