//! A run on threads: one for each gate, and the dispatcher on the calling thread.

ghost use Rattle.std.specs.Prelude.{◌≡◌, ◌<◌, IfOk, IfErr, length, vec_len};
ghost use Rattle.run_table.specs.Handles.{about_in, IsUnchanged};
ghost use Rattle.run_table.specs.Seats.{IsSeatOf, IsOf};
ghost use Rattle.workers.specs.Premises.{MayAnswer};
ghost use Rattle.thread_pool.specs.Runs.{HasRun, IsReady};

use crate::dispatching::dispatch;
use crate::gate::{FinishedSeat, Gate, SharedTable, TableBrand};
use crate::pool::Pool;
use listeners::Observer;
use plan_events::{Event, Job, Texts};
use run_table::DispatcherSeat;
use std::alloc::Global;
use std::sync::{Mutex, Wait};
use std::thread;
use std::thread::{JoinHandle, Threads};
use workers::Place;

/// The dispatcher's seat, the texts of the nodes, and what it has read, with room for all events.
#[derive(Drop)]
pub struct DispatcherState<B> {
    pub seat: DispatcherSeat<B>,
    pub texts: Texts,
    pub events: Vec<Event>,
}

/// Why no thread works at a table.
#[derive(Clone, Copy)]
pub enum NotBegun {
    /// There was no memory for the list of the threads.
    NoMemory,
    /// None could be started.
    NoThread,
}

/// A run that was not begun, and the dispatcher's state as it was.
#[derive(Drop)]
pub struct Unrun<B> {
    pub cause: NotBegun,
    pub state: DispatcherState<B>,
}

/// Whether a run was begun, and what was lent for it: the dispatcher's state, and who is shown the events.
#[derive(Drop)]
struct Lent<'d, 'o, B, O> {
    ran: Result<(), NotBegun>,
    state: &'d mut DispatcherState<B>,
    observer: &'o mut O,
}

/// Waits until each thread has ended, and takes its seat back.
fn take_back<B: Job + Send, M: TableBrand<B> + Send + Sync, R: Threads + Wait>(
    rt: &R,
    shared: &SharedTable<B, M>,
    started: Vec<JoinHandle<Option<FinishedSeat<B, M>>>>,
    seat: &mut DispatcherSeat<B>,
)
    requires { IsSeatOf shared.now.table.table seat.old.seat }
    ensures same { IsOf seat.old.seat seat.new.seat }
    ensures kept { IsUnchanged seat.old.seat seat.new.seat }
{
    for handle in started {
        if let Some(worked) = handle.join(rt) {
            let FinishedSeat {
                seat: worker,
                brand: _,
            } = worked;
            seat.join(&shared.table, worker);
        }
    }
}

/// Tells what the threads do that were started, until the run is over, and takes their seats back;
/// or, where none was started, leaves the dispatcher's state as it is.
fn tell_run<
    E,
    B: Job + Send,
    K: Place<B> + Send,
    M: TableBrand<B> + Send + Sync,
    O: Observer,
    R: Threads + Wait + Sync,
>(
    rt: &R,
    shared: &SharedTable<B, M>,
    mut pool: Pool<'_, E, B, K, M, R>,
    state: &mut DispatcherState<B>,
    observer: &mut O,
) -> Result<(), NotBegun>
    requires seat { IsSeatOf shared.now.table.table state.old.seat.seat }
    requires ready { IsReady B.answers state.old }
    ensures run { IfOk result (λ _. HasRun B.answers O.saw state.old state.new
        observer.old observer.new) }
    ensures some { IfOk result (λ _. 0 < vec_len pool.entry.started) }
    ensures none { IfErr result (λ _. vec_len pool.entry.started ≡ 0) }
    ensures back { IfErr result (λ _. state.new ≡ state.old) }
    ensures unseen { IfErr result (λ _. observer.new ≡ observer.old) }
{
    if pool.is_empty() {
        return Err(NotBegun::NoThread);
    }
    shared.parkers.begin();
    dispatch(rt, shared, &mut pool, state, observer);
    take_back(rt, shared, pool.into_started(), &mut state.seat);
    Ok(())
}

/// Does what `run_in` says in a scope of threads, and hands back what was lent for it.
fn run_scoped<
    'd,
    'o,
    B: Job + Send,
    K: Place<B> + Send,
    M: TableBrand<B> + Send + Sync,
    O: Observer,
    R: Threads + Wait + Sync,
>(
    rt: &R,
    alloc: Global,
    shared: &SharedTable<B, M>,
    gates: &[Gate<B, M>],
    places: &[Mutex<K>],
    state: &'d mut DispatcherState<B>,
    observer: &'o mut O,
) -> Lent<'d, 'o, B, O>
    requires seat { IsSeatOf shared.now.table.table state.old.seat.seat }
    requires gates { length gates.now ≡ (about_in shared.now.table.table).workers }
    requires jobs { MayAnswer B.answers (about_in shared.now.table.table) }
    requires ready { IsReady B.answers state.old }
    ensures run { IfOk result.ran (λ _. HasRun B.answers O.saw state.old result.state.now
        observer.old result.observer.now) }
    ensures back { IfErr result.ran (λ _. result.state.now ≡ state.old) }
    ensures unseen { IfErr result.ran (λ _. result.observer.now ≡ observer.old) }
    ensures same_state { result.state.ghost_name ≡ state.entry.ghost_name }
    ensures same_observer { result.observer.ghost_name ≡ observer.entry.ghost_name }
{
    thread::scope(
        thread::scope_env(),
        rt,
        move |scope| -> Lent<'_, '_, B, O>
            requires seat { IsSeatOf shared.now.table.table state.now.seat.seat }
            requires jobs { MayAnswer B.answers (about_in shared.now.table.table) }
            requires ready { IsReady B.answers state.now }
            ensures run { IfOk result.ran (λ _. HasRun B.answers O.saw state.entry.now result.state.now
                observer.entry.now result.observer.now) }
            ensures back { IfErr result.ran (λ _. result.state.now ≡ state.entry.now) }
            ensures unseen { IfErr result.ran (λ _. result.observer.now ≡ observer.entry.now) }
            ensures same_state { result.state.ghost_name ≡ state.entry.ghost_name }
            ensures same_observer { result.observer.ghost_name ≡ observer.entry.ghost_name }
        {
            let state = state;
            let observer = observer;
            let Ok(mut pool) = Pool::new(rt, alloc, scope, shared, gates, places) else {
                let ran = Err(NotBegun::NoMemory);
                return Lent {
                    ran,
                    state,
                    observer,
                };
            };
            pool.start_first(shared, &mut state.seat);
            let ran = tell_run(rt, shared, pool, &mut *state, &mut *observer);
            Lent {
                ran,
                state,
                observer,
            }
        },
    )
}

/// Starts the threads of these gates, of which there is one for each worker, each of which runs its jobs at the
/// place of the same index, deals each that was started a seat at once, and tells what they do until the run is over. Not all are started in the
/// beginning (`Pool`). Where none can be started, or there is no memory for the list of those that are,
/// the dispatcher's state is as it was, and nothing was told.
pub fn run_in<
    B: Job + Send,
    K: Place<B> + Send,
    M: TableBrand<B> + Send + Sync,
    O: Observer,
    R: Threads + Wait + Sync,
>(
    rt: &R,
    alloc: Global,
    shared: &SharedTable<B, M>,
    gates: &[Gate<B, M>],
    places: &[Mutex<K>],
    mut state: DispatcherState<B>,
    observer: &mut O,
) -> Result<DispatcherState<B>, Unrun<B>>
    requires seat { IsSeatOf shared.now.table.table state.seat.seat }
    requires gates { length gates.now ≡ (about_in shared.now.table.table).workers }
    requires jobs { MayAnswer B.answers (about_in shared.now.table.table) }
    requires ready { IsReady B.answers state }
    ensures run { IfOk result (λ d. HasRun B.answers O.saw state d
        observer.old observer.new) }
    ensures back { IfErr result (λ unrun. unrun.state ≡ state) }
    ensures unseen { IfErr result (λ _. observer.new ≡ observer.old) }
{
    let Lent {
        ran,
        state: _,
        observer: _,
    } = run_scoped(rt, alloc, shared, gates, places, &mut state, observer);
    match ran {
        Ok(()) => Ok(state),
        Err(cause) => Err(Unrun { cause, state }),
    }
}
