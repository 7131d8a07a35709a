//! One worker and the dispatcher, both on the calling thread: when an event is told.

ghost use Rattle.std.specs.Prelude.{◌≡◌, ℕ, List, [], None, IfOk};
ghost use Rattle.descriptor.specs.Nodes.{IsTree};
ghost use Rattle.plan_events.specs.declared.outcome.Reply.{Reply};
ghost use Rattle.scheduling.specs.declared.task.Task.TheVariants.{Free};
ghost use Rattle.run_table.specs.Handles.{about_in, view_at};
ghost use Rattle.run_table.specs.Seats.{IsSeatOf};
ghost use Rattle.test_jobs.specs.Acting.{replies_left};
ghost use Rattle.workers.specs.Premises.{MayAnswer};
ghost use Rattle.worker_pool.specs.Premises.{JobsMayAnswer};
ghost use Rattle.worker_pool.specs.Reports.{run_of};
ghost use Rattle.thread_pool.specs.Telling.{AreTextsRead, KeepsTexts};

use crate::running::{WIDE, push_events, staged};
use crate::watching::{board_of, one_watcher};
use descriptor::NodeId;
use listeners::{Audience, Listener};
use plan_events::{Event, EventKind, Texts};
use resource_locks::Plan;
use run_table::{DispatcherSeat, Jobs, RunTable, WorkerSeat};
use std::alloc::{AllocError, Global};
use std::sync::{Arc, Wait};
use suite_text::Script;
use test_jobs::{Act, Actor, Board, cast};
use worker_pool::{Parkers, Sources, dispatch_one, work};

/// One test.
pub(crate) const ONE: &str = "engine e
  class a.B
    test t() pass
";

/// What is told of it.
const EVENTS: &str = "+0 +1 +2 +3 -3 -2 -1 -0 ";

/// What the worker does before the dispatcher is called.
#[derive(Clone, Copy)]
enum Course {
    /// Its steps up to the second event, with a ring of one word, and the dispatcher is called between them.
    Begins,
    /// All its work; and then the dispatcher is called so often.
    Works(usize),
}

impl Course {
    /// How many words the ring has.
    fn ring(self) -> u32 {
        match self {
            Course::Begins => 1,
            Course::Works(_) => WIDE,
        }
    }
}

/// Whether this is the start of this node, by the only worker.
pub(crate) fn is_start(event: Option<Event>, node: u16) -> bool {
    let start = Event {
        kind: EventKind::Started,
        node: NodeId::new(node),
        status: None,
        worker: 1,
    };
    event == Some(start)
}

/// Whether the worker, which has shown the plan's start, comes to the engine's.
pub(crate) fn comes_to_the_engine(table: &RunTable<Actor>, worker: &mut WorkerSeat<Actor>) -> bool
    requires { IsSeatOf table.now.table worker.old.seat }
    ensures { IsSeatOf table.now.table worker.new.seat }
{
    worker.admit(table).is_ok()
        && worker.done(table).is_ok()
        && worker.own(table, NodeId::new(1)).is_ok()
        && worker.draw(table).is_ok()
}

/// Whether nothing is told as long as the plan's start is not shown, to which the worker comes; it shows it then, and
/// comes to the engine's.
fn nothing_is_told_before(
    table: &RunTable<Actor>,
    worker: &mut WorkerSeat<Actor>,
    dispatcher_seat: &mut DispatcherSeat<Actor>,
    audience: &mut Audience,
    texts: &mut Texts,
) -> bool
    requires worker { IsSeatOf table.now.table worker.old.seat }
    requires dispatcher_seat { IsSeatOf table.now.table dispatcher_seat.old.seat }
    requires texts { KeepsTexts replies_left (view_at dispatcher_seat.old.seat) texts.old }
    ensures worker { IsSeatOf table.now.table worker.new.seat }
    ensures dispatcher_seat { IsSeatOf table.now.table dispatcher_seat.new.seat }
    ensures texts { KeepsTexts replies_left (view_at dispatcher_seat.new.seat) texts.new }
{
    let is_drawn = worker.claim(table, NodeId::ROOT).is_ok() && worker.draw(table).is_ok();
    let early = dispatch_one(table, dispatcher_seat, audience, texts);
    let is_shown = worker.show(table).is_ok() && comes_to_the_engine(table, worker);
    is_drawn && early.is_none() && is_shown
}

/// Whether the plan's start, which is shown, is told, and nothing behind it; and whether the engine's start has room in
/// a ring of one word once that is told, and not before.
fn room_is_free_once_told(
    table: &RunTable<Actor>,
    worker: &mut WorkerSeat<Actor>,
    dispatcher_seat: &mut DispatcherSeat<Actor>,
    audience: &mut Audience,
    texts: &mut Texts,
) -> bool
    requires worker { IsSeatOf table.now.table worker.old.seat }
    requires dispatcher_seat { IsSeatOf table.now.table dispatcher_seat.old.seat }
    requires texts { KeepsTexts replies_left (view_at dispatcher_seat.old.seat) texts.old }
{
    let is_full = worker.room(table) == Ok(false);
    let start = dispatch_one(table, dispatcher_seat, audience, texts);
    let late = dispatch_one(table, dispatcher_seat, audience, texts);
    let is_free = worker.room(table) == Ok(true) && worker.show(table).is_ok();
    let next = dispatch_one(table, dispatcher_seat, audience, texts);
    is_full && is_start(start, 0) && late.is_none() && is_free && is_start(next, 1)
}

/// Calls the dispatcher so often, and says whether the last call told an event.
fn tells_at_last(
    table: &RunTable<Actor>,
    dispatcher_seat: &mut DispatcherSeat<Actor>,
    audience: &mut Audience,
    texts: &mut Texts,
    calls: usize,
) -> bool
    requires dispatcher_seat { IsSeatOf table.now.table dispatcher_seat.old.seat }
    requires texts { KeepsTexts replies_left (view_at dispatcher_seat.old.seat) texts.old }
{
    let mut is_told = false;
    for _call in 0..calls {
        is_told = dispatch_one(table, dispatcher_seat, audience, texts).is_some();
    }
    is_told
}

/// Whether the listener was told just the first events, one a call, and no more than there are.
fn has_first(alloc: Global, audience: &Audience, calls: usize, is_told: bool) -> bool {
    let mut told = String::new(alloc);
    push_events(&mut told, audience.got(0).unwrap_or(&[]));
    let wanted = EVENTS.get(..3 * calls.min(8)).unwrap_or("");
    told.as_str() == wanted && is_told == (calls > 0 && calls <= 8)
}

/// Whether the only worker did all its work at the table.
fn is_worked<R: Wait>(
    rt: &R,
    alloc: Global,
    table: &RunTable<Actor>,
    worker: &mut WorkerSeat<Actor>,
) -> Option<()>
    requires jobs { MayAnswer replies_left (about_in table.now.table) }
    requires worker { IsSeatOf table.now.table worker.old.seat }
    requires free { worker.old.task ≡ Free }
    requires empty { worker.old.hand ≡ None }
{
    let parkers = Arc::new(alloc, Parkers::new(alloc, 1).ok()?).ok()?;
    let mut sources = Sources::new(alloc, &parkers, 0).ok()?;
    work(rt, table, worker, &mut (), &mut sources);
    Some(())
}

/// Whether the listener is told what it should be, where the only worker does this at the table.
fn is_told_at<R: Wait>(
    rt: &R,
    alloc: Global,
    table: &RunTable<Actor>,
    worker: &mut WorkerSeat<Actor>,
    dispatcher_seat: &mut DispatcherSeat<Actor>,
    audience: &mut Audience,
    texts: &mut Texts,
    course: Course,
) -> bool
    requires jobs { MayAnswer replies_left (about_in table.now.table) }
    requires worker { IsSeatOf table.now.table worker.old.seat }
    requires free { worker.old.task ≡ Free }
    requires empty { worker.old.hand ≡ None }
    requires dispatcher_seat { IsSeatOf table.now.table dispatcher_seat.old.seat }
    requires texts { KeepsTexts replies_left (view_at dispatcher_seat.old.seat) texts.old }
{
    match course {
        Course::Begins => {
            nothing_is_told_before(table, worker, dispatcher_seat, audience, texts)
                && room_is_free_once_told(table, worker, dispatcher_seat, audience, texts)
        }
        Course::Works(calls) => {
            let is_worked = is_worked(rt, alloc, table, worker).is_some();
            let is_told = tells_at_last(table, dispatcher_seat, audience, texts, calls);
            is_worked && has_first(alloc, audience, calls, is_told)
        }
    }
}

/// The texts of a plan of which nothing was told.
fn texts_at_first(alloc: Global, plan: &Plan) -> Result<Texts, AllocError>
    ensures tree { IfOk result (λ _. IsTree plan.now.tree) }
    ensures texts { IfOk result (λ texts. (replies : ℕ → List Reply) → AreTextsRead plan.now replies [] [] texts) }
{
    Texts::new(alloc, plan.tree())
}

/// Whether it is so at a table of this plan.
fn is_told_of<R: Wait>(
    rt: &R,
    alloc: Global,
    plan: Plan,
    jobs: Jobs<Actor>,
    audience: &mut Audience,
    course: Course,
    ring: u32,
) -> Result<bool, AllocError>
    requires { JobsMayAnswer replies_left (run_of plan 1 ring jobs.items) }
{
    if !audience.fresh() {
        return Ok(false);
    }
    audience.prepare(&plan)?;
    let mut texts = texts_at_first(alloc, &plan)?;
    let Ok((table, mut dispatcher_seat)) = RunTable::prepare(alloc, plan, jobs, 1, ring) else {
        return Ok(false);
    };
    let Some(mut worker) = dispatcher_seat.split(&table) else {
        return Ok(false);
    };
    Ok(is_told_at(
        rt,
        alloc,
        &table,
        &mut worker,
        &mut dispatcher_seat,
        audience,
        &mut texts,
        course,
    ))
}

/// Whether an audience is told so of this plan, whose bodies end as they are told.
fn is_told_by<R: Wait>(
    rt: &R,
    alloc: Global,
    plan: Plan,
    scripts: &[Script],
    board: &Arc<Board>,
    audience: &mut Audience,
    course: Course,
) -> Option<bool> {
    let Ok(jobs) = cast(alloc, &plan, scripts, Act::Ends, board) else {
        drop(plan);
        return None;
    };
    is_told_of(rt, alloc, plan, jobs, audience, course, course.ring()).ok()
}

/// Whether an audience is told so of the suite with one test.
fn is_told_to<R: Wait>(
    rt: &R,
    alloc: Global,
    board: &Arc<Board>,
    audience: &mut Audience,
    course: Course,
) -> Option<bool> {
    let (plan, scripts) = staged(alloc, ONE)?;
    is_told_by(rt, alloc, plan, scripts.as_slice(), board, audience, course)
}

/// Whether a watcher is told so.
fn is_told<R: Wait>(rt: &R, alloc: Global, course: Course) -> Option<bool> {
    let board = board_of(alloc)?;
    let watcher = one_watcher(alloc, Act::Ends, &board, None)?;
    let mut watchers: Vec<Box<dyn Listener>> = Vec::new(alloc);
    watchers.push(Box::new(alloc, watcher).ok()?).ok()?;
    let mut audience = Audience::new(watchers).ok()?;
    is_told_to(rt, alloc, &board, &mut audience, course)
}

/// Whether it is so where the dispatcher is called so often once all is done, for each number of calls up to ten.
fn all_are_told<R: Wait>(rt: &R, alloc: Global) -> bool {
    for calls in 0..10 {
        if is_told(rt, alloc, Course::Works(calls)) != Some(true) {
            return false;
        }
    }
    true
}

pub(crate) fn events_are_told_one_by_one_once_they_are_shown<R: Wait>(
    rt: &R,
    alloc: Global,
) -> bool {
    is_told(rt, alloc, Course::Begins) == Some(true) && all_are_told(rt, alloc)
}
