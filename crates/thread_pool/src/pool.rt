//! The threads of a run: those that were started, and the gates of those that were not started yet.

ghost use Rattle.std.specs.Prelude.{◌≡◌, ◌<◌, ◌≤◌, ◌+◌, ◌↔◌, true, false, IfOk, length, vec_len};
ghost use Rattle.std.specs.Prelude.{vec_capacity};
ghost use Rattle.run_table.specs.Handles.{about_at, about_in, dispatcher_at};
ghost use Rattle.run_table.specs.Seats.{IsSeatOf, IsOf};
ghost use Rattle.workers.specs.Premises.{MayAnswer};

use crate::gate::{FinishedSeat, FreeSeat, Gate, SharedTable, TableBrand};
use crate::serving::serve;
use node_sources::FEW_WORKERS;
use plan_events::Job;
use run_table::DispatcherSeat;
use std::alloc::{AllocError, Global};
use std::sync::{Mutex, Wait};
use std::thread;
use std::thread::{JoinHandle, Scope, Threads};
use workers::Place;

/// How many threads of so many are started before there is anything to do: one for each processor,
/// and a few at least; all, where the system does not say how many processors there are.
fn first_of<R: Threads>(rt: &R, workers: usize) -> usize
    ensures some { 0 < workers → 0 < result }
{
    if workers <= FEW_WORKERS {
        return workers;
    }
    match thread::available_parallelism(rt) {
        Ok(processors) => processors.get().max(FEW_WORKERS),
        Err(_) => workers,
    }
}

/// Deals the thread that waits at this gate a seat, and opens the gate; or opens it for none, where
/// there are no more seats.
fn deal_seat<B: Job, M: TableBrand<B>, R: Wait>(
    rt: &R,
    shared: &SharedTable<B, M>,
    gate: &Gate<B, M>,
    seat: &mut DispatcherSeat<B>,
)
    requires { IsSeatOf shared.now.table.table seat.old.seat }
    ensures same { IsOf seat.old.seat seat.new.seat }
    ensures read { (dispatcher_at seat.new.seat).read ≡ (dispatcher_at seat.old.seat).read }
    ensures slots { (dispatcher_at seat.new.seat).slots ≡ (dispatcher_at seat.old.seat).slots }
    ensures deals { (dispatcher_at seat.old.seat).dealt < (about_at seat.old.seat).workers
        → (dispatcher_at seat.new.seat).dealt ≡ (dispatcher_at seat.old.seat).dealt + 1 }
{
    let idle = match seat.split(&shared.table) {
        Some(dealt) => Some(FreeSeat::new(dealt)),
        None => None,
    };
    gate.open(rt, idle);
}

/// The threads of one scope that work at a table of this brand, and the gates at which they get
/// their seats: that of each thread has its place. The first are started at once, and one more
/// whenever the dispatcher has nothing to read while all of them are busy. A thread that could not be
/// started is tried again when one more is wanted.
#[derive(Drop)]
pub struct Pool<'s, E, B: Job, K, M: TableBrand<B>, R> {
    rt: &'s R,
    scope: &'s Scope<'s, E>,
    shared: &'s SharedTable<B, M>,
    // one for each worker
    gates: &'s [Gate<B, M>],
    // that at which each of their workers runs jobs
    places: &'s [Mutex<K>],
    /// The threads that were started, in order.
    pub started: Vec<JoinHandle<Option<FinishedSeat<B, M>>>>,
    ghost jobs: { MayAnswer B.answers (about_in shared.now.table.table) },
    ghost enough: { length gates.now ≤ vec_capacity started },
}

impl<
    's,
    E,
    B: Job + Send,
    K: Place<B> + Send,
    M: TableBrand<B> + Send + Sync,
    R: Threads + Wait + Sync,
> Pool<'s, E, B, K, M, R> {
    /// No thread is started yet.
    pub fn new(
        rt: &'s R,
        alloc: Global,
        scope: &'s Scope<'s, E>,
        shared: &'s SharedTable<B, M>,
        gates: &'s [Gate<B, M>],
        places: &'s [Mutex<K>],
    ) -> Result<Pool<'s, E, B, K, M, R>, AllocError>
        requires { MayAnswer B.answers (about_in shared.now.table.table) }
        ensures none { IfOk result (λ p. vec_len p.started ≡ 0) }
    {
        let started = Vec::with_capacity(alloc, gates.len())?;
        Ok(Pool {
            rt,
            scope,
            shared,
            gates,
            places,
            started,
        })
    }

    /// Starts the thread of the next gate, if there is one, deals it a seat at once, and says whether
    /// it did. Where the thread could not be started its gate is the next one still. There are no more
    /// threads than places.
    pub fn start_next(&mut self, shared: &SharedTable<B, M>, seat: &mut DispatcherSeat<B>) -> bool
        requires { IsSeatOf shared.now.table.table seat.old.seat }
        ensures same { IsOf seat.old.seat seat.new.seat }
        ensures read { (dispatcher_at seat.new.seat).read ≡ (dispatcher_at seat.old.seat).read }
        ensures slots { (dispatcher_at seat.new.seat).slots ≡ (dispatcher_at seat.old.seat).slots }
        ensures more { vec_len self.old.started ≤ vec_len self.new.started }
        ensures none { vec_len self.new.started ≡ 0 → seat.new ≡ seat.old }
        ensures one { result ≡ true → vec_len self.new.started ≡ vec_len self.old.started + 1 }
        ensures deals { result ≡ true → (dispatcher_at seat.old.seat).dealt < (about_at seat.old.seat).workers
            → (dispatcher_at seat.new.seat).dealt ≡ (dispatcher_at seat.old.seat).dealt + 1 }
        ensures failed { result ≡ false → (self.new ≡ self.old) × (seat.new ≡ seat.old) }
        ensures gates { self.new.gates ≡ self.old.gates }
    {
        let Some(gate) = self.gates.get(self.started.len()) else {
            return false;
        };
        let Some(place) = self.places.get(self.started.len()) else {
            return false;
        };
        let rt = self.rt;
        let its = self.shared;
        let Ok(handle) = self.scope.spawn(
            move || -> Option<FinishedSeat<B, M>>
                requires { MayAnswer B.answers (about_in its.now.table.table) }
            { serve(rt, its, gate, place) },
        )
        else {
            return false;
        };
        self.started.push_reserved(handle);
        shared.parkers.open_place();
        deal_seat(rt, shared, gate, seat);
        true
    }

    /// Starts the threads that are to be there from the beginning, and says how often that failed.
    /// It tries as often as there are gates at most; so often, where none could be started.
    pub fn start_first(&mut self, shared: &SharedTable<B, M>, seat: &mut DispatcherSeat<B>) -> usize
        requires { IsSeatOf shared.now.table.table seat.old.seat }
        ensures same { IsOf seat.old.seat seat.new.seat }
        ensures read { (dispatcher_at seat.new.seat).read ≡ (dispatcher_at seat.old.seat).read }
        ensures slots { (dispatcher_at seat.new.seat).slots ≡ (dispatcher_at seat.old.seat).slots }
        ensures none { vec_len self.new.started ≡ 0 → seat.new ≡ seat.old }
        ensures all_failed { vec_len self.new.started ≡ 0 → result ≡ length self.old.gates.now }
    {
        let gates = self.gates.len();
        let wanted = first_of(self.rt, gates);
        let mut failed = 0;
        for _tried in 0..gates {
            if self.started.len() >= wanted {
                return failed;
            }
            if !self.start_next(shared, seat) {
                failed += 1;
            }
        }
        failed
    }

    /// Whether no thread could be started.
    pub fn is_empty(&self) -> bool
        ensures { result ≡ true ↔ vec_len self.now.started ≡ 0 }
    {
        self.started.is_empty()
    }

    /// The threads that were started.
    pub fn into_started(self) -> Vec<JoinHandle<Option<FinishedSeat<B, M>>>>
        ensures { result ≡ self.entry.started }
    {
        let Pool {
            rt: _,
            scope: _,
            shared: _,
            gates: _,
            places: _,
            started,
        } = self;
        started
    }
}
