//! A gate at which a thread waits for its seat.

ghost use Rattle.std.specs.Prelude.{◌≡◌, true};
ghost use Rattle.run_table.specs.Handles.{worker_at};
ghost use Rattle.thread_pool.specs.Brands.{no_table, no_about, HasTable, HasSeat};

use node_sources::{Parkers, Sources};
use plan_events::Job;
use run_table::{RunTable, WorkerSeat};
use std::marker::{Brand, PhantomData};
use std::sync::{Arc, Condvar, Mutex, Wait};

/// Which table it is, with the plan and the jobs that it was made for.
pub trait TableBrand<B> {
    ghost use Rattle.atomic_table.specs.Seated.{TableId};
    ghost use Rattle.table_rule.specs.declared.view.About.{About};

    ghost table: { TableId };

    ghost about: { About B };
}

impl<B> TableBrand<B> for Brand {
    ghost table = { no_table };

    ghost about = { no_about };
}

/// A table of this brand, and the parkers of those who work at it.
pub struct SharedTable<B: Job, M: TableBrand<B>> {
    pub table: RunTable<B>,
    pub parkers: Arc<Parkers>,
    pub brand: PhantomData<M>,
    pub ghost is: { HasTable M.table M.about table },
}

impl<B: Job, M: TableBrand<B>> SharedTable<B, M> {
    pub fn new(table: RunTable<B>, parkers: Arc<Parkers>) -> SharedTable<B, M>
        requires { HasTable M.table M.about table }
        ensures { result.table ≡ table }
    {
        SharedTable {
            table,
            parkers,
            brand: PhantomData,
        }
    }
}

/// A seat at this brand's table, of a worker that is free and has no factory in hand.
#[derive(Drop)]
pub struct FreeSeat<B: Job, M: TableBrand<B>> {
    pub seat: WorkerSeat<B>,
    pub brand: PhantomData<M>,
    pub ghost is: { HasSeat M.table M.about seat },
}

impl<B: Job, M: TableBrand<B>> FreeSeat<B, M> {
    pub fn new(seat: WorkerSeat<B>) -> FreeSeat<B, M>
        requires { HasSeat M.table M.about seat }
    {
        FreeSeat {
            seat,
            brand: PhantomData,
        }
    }
}

/// A seat at this brand's table whose worker has worked until the run was over.
#[derive(Drop)]
pub struct FinishedSeat<B: Job, M: TableBrand<B>> {
    pub seat: WorkerSeat<B>,
    pub brand: PhantomData<M>,
    pub ghost is: { HasSeat M.table M.about seat },
    pub ghost over: { (worker_at seat.seat).over ≡ true },
}

impl<B: Job, M: TableBrand<B>> FinishedSeat<B, M> {
    pub fn new(seat: WorkerSeat<B>) -> FinishedSeat<B, M>
        requires seat { HasSeat M.table M.about seat }
        requires over { (worker_at seat.seat).over ≡ true }
    {
        FinishedSeat {
            seat,
            brand: PhantomData,
        }
    }
}

/// What a gate hands to its thread.
#[derive(Drop)]
enum Handoff<B: Job, M: TableBrand<B>> {
    Waiting,
    Given(FreeSeat<B, M>),
    Shut,
}

/// A gate at which one thread waits, until it is opened for a seat or for none. By what the thread
/// will come to nodes is kept there.
#[derive(Drop)]
pub struct Gate<B: Job, M: TableBrand<B>> {
    handoff: Mutex<Handoff<B, M>>,
    opened: Condvar,
    sources: Mutex<Option<Sources>>,
}

impl<B: Job, M: TableBrand<B>> Gate<B, M> {
    pub fn new(sources: Sources) -> Gate<B, M> {
        Gate {
            handoff: Mutex::new(Handoff::Waiting),
            opened: Condvar::new(),
            sources: Mutex::new(Some(sources)),
        }
    }

    /// Opens the gate, for this seat or for none.
    pub fn open<R: Wait>(&self, rt: &R, seat: Option<FreeSeat<B, M>>) {
        *self.handoff.lock(rt) = match seat {
            Some(idle) => Handoff::Given(idle),
            None => Handoff::Shut,
        };
        self.opened.notify_all();
    }

    /// Waits for the gate to be opened.
    pub fn pass<R: Wait>(&self, rt: &R) -> Option<(FreeSeat<B, M>, Sources)> {
        let sources = self.sources.lock(rt).take()?;
        let mut handoff = self
            .opened
            .wait_while(rt, self.handoff.lock(rt), |handoff| {
                matches!(handoff, Handoff::Waiting)
            });
        match std::mem::replace(&mut *handoff, Handoff::Shut) {
            Handoff::Given(idle) => Some((idle, sources)),
            _ => None,
        }
    }
}
