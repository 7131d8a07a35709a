//! The dispatcher: it reads what workers show, keeps the texts of nodes, and shows both to the observer of the run.

ghost use Rattle.std.specs.Prelude.{◌≡◌, ◌≢◌, ℕ, ◌<◌, ◌++◌, ◌∷◌, [], List, IfSome, IfNone, length};
ghost use Rattle.std.specs.Prelude.{vec_capacity};
ghost use Rattle.plan_events.specs.declared.event.Event.{Event as EventValue};
ghost use Rattle.plan_events.specs.declared.event.EventKind.TheVariants.{Finished, Skipped};
ghost use Rattle.plan_events.specs.Texts.{text_at};
ghost use Rattle.resource_locks.specs.Plans.{most_events};
ghost use Rattle.listeners.specs.Listeners.{telling, tellings_of};
ghost use Rattle.listeners.specs.Observing.{HasSeenMore};
ghost use Rattle.table_rule.specs.Moments.{IsMomentAt};
ghost use Rattle.table_rule.specs.Picture.{replies_of};
ghost use Rattle.run_table.specs.Handles.{about_at, dispatcher_at, plan_at, view_at, IsUnchanged};
ghost use Rattle.run_table.specs.Notes.{IsUntaken};
ghost use Rattle.run_table.specs.Seats.{IsSeatOf, IsOf};
ghost use Rattle.thread_pool.specs.Seeing.{HasSeenSince};
ghost use Rattle.thread_pool.specs.Telling.{AreTextsRead, IsNoted, IsOver, KeepsTexts};

use crate::gate::{SharedTable, TableBrand};
use crate::pool::Pool;
use crate::running::DispatcherState;
use listeners::{Observer, ends_plan};
use node_sources::{IdleRounds, Parkers};
use plan_events::{Event, EventKind, Job, Texts};
use run_table::{DispatcherSeat, RunTable};
use scheduling::skip_note;
use std::sync::Wait;
use std::thread::Threads;
use workers::Place;

/// Keeps the text of the event that was read last, if its node has one by it. It takes no memory.
fn keep_text<B: Job>(
    table: &RunTable<B>,
    dispatcher_seat: &mut DispatcherSeat<B>,
    event: Event,
    texts: &mut Texts,
)
    requires seat { IsSeatOf table.now.table dispatcher_seat.old.seat }
    requires untaken { event.kind ≡ Finished → IsUntaken (plan_at dispatcher_seat.old.seat)
        (dispatcher_at dispatcher_seat.old.seat) event.node }
    requires last { (before : List EventValue) × ((dispatcher_at dispatcher_seat.old.seat).read ≡ before ++ event ∷ [])
        × AreTextsRead (plan_at dispatcher_seat.old.seat) (replies_of B.answers (about_at dispatcher_seat.old.seat))
        (dispatcher_at dispatcher_seat.old.seat).slots before texts.old }
    ensures same { IsOf dispatcher_seat.old.seat dispatcher_seat.new.seat }
    ensures dealt { (dispatcher_at dispatcher_seat.new.seat).dealt ≡ (dispatcher_at dispatcher_seat.old.seat).dealt }
    ensures read { (dispatcher_at dispatcher_seat.new.seat).read ≡ (dispatcher_at dispatcher_seat.old.seat).read }
    ensures texts { KeepsTexts B.answers (view_at dispatcher_seat.new.seat) texts.new }
    ensures others { (n : ℕ) → n ≢ event.node → text_at texts.new n ≡ text_at texts.old n }
    ensures silent { event.kind ≢ Finished → event.kind ≢ Skipped → texts.new ≡ texts.old }
{
    // No event is of a node that the plan lacks.
    if event.node.index() >= table.plan().tree().len() {
        return;
    }
    match event.kind {
        EventKind::Started | EventKind::Registered => {}
        EventKind::Skipped => texts.set(event.node, skip_note(table.plan(), event.node)),
        EventKind::Finished => {
            if let Some(note) = dispatcher_seat.text_out(table, event.node) {
                texts.set(event.node, note);
            }
        }
    }
}

/// Reads the next event, if it is shown, keeps its text, and shows both to the observer; then it
/// tells that its word of the ring is free. What goes with the events that were read before stays.
/// At some moment of it, shown or not, the table is the picture of a state of the core in which
/// just what was read is given, and from which the run can still end.
pub fn dispatch_one<B: Job, O: Observer>(
    table: &RunTable<B>,
    dispatcher_seat: &mut DispatcherSeat<B>,
    observer: &mut O,
    texts: &mut Texts,
) -> Option<Event>
    requires seat { IsSeatOf table.now.table dispatcher_seat.old.seat }
    requires texts { KeepsTexts B.answers (view_at dispatcher_seat.old.seat) texts.old }
    ensures same { IsOf dispatcher_seat.old.seat dispatcher_seat.new.seat }
    ensures texts { KeepsTexts B.answers (view_at dispatcher_seat.new.seat) texts.new }
    ensures some { IfSome result (λ e. (dispatcher_at dispatcher_seat.new.seat).read
        ≡ (dispatcher_at dispatcher_seat.old.seat).read ++ e ∷ []) }
    ensures inside { IfSome result (λ e. length (dispatcher_at dispatcher_seat.old.seat).read < most_events
        (plan_at dispatcher_seat.old.seat)) }
    ensures told_so { IfSome result
        (λ e. (dispatcher_at dispatcher_seat.new.seat).advanced
        ≡ length (dispatcher_at dispatcher_seat.new.seat).read) }
    ensures seen { IfSome result (λ e. HasSeenMore O.saw (plan_at dispatcher_seat.old.seat) (telling texts.new e ∷ [])
        observer.old observer.new) }
    ensures kept { tellings_of texts.new (dispatcher_at dispatcher_seat.old.seat).read
        ≡ tellings_of texts.old (dispatcher_at dispatcher_seat.old.seat).read }
    ensures moment { IsMomentAt B.answers (view_at dispatcher_seat.new.seat) }
    ensures none { IfNone result (IsUnchanged dispatcher_seat.old.seat dispatcher_seat.new.seat
        × (observer.new ≡ observer.old) × (texts.new ≡ texts.old)) }
{
    let read = dispatcher_seat.read(table)?;
    let event = &read;
    keep_text(table, dispatcher_seat, *event, texts);
    observer.see(table.plan(), texts, *event);
    dispatcher_seat.advance(table);
    Some(*event)
}

/// So often workers that wait for room in the ring are woken while there is something to read.
const ROOM_TOLD: usize = 64;

/// There is nothing to read: who waits for room is woken, one more thread is started where all that
/// were started are busy, and the dispatcher rests. It comes to that only where processors are free,
/// since before it sleeps it gives its own up to whoever works.
fn rest<
    E,
    B: Job + Send,
    K: Place<B> + Send,
    M: TableBrand<B> + Send + Sync,
    R: Threads + Wait + Sync,
>(
    rt: &R,
    shared: &SharedTable<B, M>,
    pool: &mut Pool<'_, E, B, K, M, R>,
    dispatcher_seat: &mut DispatcherSeat<B>,
    idle: &mut IdleRounds,
)
    requires { IsSeatOf shared.now.table.table dispatcher_seat.old.seat }
    ensures same { IsOf dispatcher_seat.old.seat dispatcher_seat.new.seat }
    ensures read { (dispatcher_at dispatcher_seat.new.seat).read ≡ (dispatcher_at dispatcher_seat.old.seat).read }
    ensures slots { (dispatcher_at dispatcher_seat.new.seat).slots ≡ (dispatcher_at dispatcher_seat.old.seat).slots }
{
    shared.parkers.make_room();
    if idle.is_tired() && shared.parkers.are_empty() {
        pool.start_next(shared, dispatcher_seat);
    }
    idle.rest_dispatcher(rt, &shared.parkers);
}

/// Of so many events that were read: once in a while, who waits for room is woken.
fn make_room_behind(parkers: &Parkers, read: usize) {
    if read % ROOM_TOLD == 0 {
        parkers.make_room();
    }
}

/// Reads what is shown, keeps the texts, shows it to the observer and puts it into the list, until
/// the plan is finished. It wakes workers that wait for room in the ring, and is woken by them and,
/// once it has slept for long, by an event.
pub fn dispatch<
    E,
    B: Job + Send,
    K: Place<B> + Send,
    M: TableBrand<B> + Send + Sync,
    O: Observer,
    R: Threads + Wait + Sync,
>(
    rt: &R,
    shared: &SharedTable<B, M>,
    pool: &mut Pool<'_, E, B, K, M, R>,
    state: &mut DispatcherState<B>,
    observer: &mut O,
)
    requires seat { IsSeatOf shared.now.table.table state.old.seat.seat }
    requires texts { KeepsTexts B.answers (view_at state.old.seat.seat) state.old.texts }
    requires noted { IsNoted (view_at state.old.seat.seat) state.old.events.items (vec_capacity state.old.events) }
    ensures same { IsOf state.old.seat.seat state.new.seat.seat }
    ensures seen { HasSeenSince O.saw (plan_at state.old.seat.seat) state.new.texts
        (dispatcher_at state.old.seat.seat).read (dispatcher_at state.new.seat.seat).read observer.old observer.new }
    ensures texts { KeepsTexts B.answers (view_at state.new.seat.seat) state.new.texts }
    ensures noted { IsNoted (view_at state.new.seat.seat) state.new.events.items (vec_capacity state.new.events) }
    ensures over { IsOver (dispatcher_at state.new.seat.seat).read }
    ensures moment { IsMomentAt B.answers (view_at state.new.seat.seat) }
{
    let table = &shared.table;
    let parkers = shared.parkers.as_ref();
    let mut idle = IdleRounds::new();
    for _ in rt.forever() {
        idle.look_dispatcher(parkers);
        match dispatch_one(table, &mut state.seat, observer, &mut state.texts) {
            Some(read) => {
                let event = &read;
                state.events.push_reserved(*event);
                if ends_plan(*event) {
                    return;
                }
                idle.reset();
                make_room_behind(parkers, state.events.len());
            }
            None => {
                observer.idle();
                rest(rt, shared, pool, &mut state.seat, &mut idle);
            }
        }
    }
    unreachable!()
}
