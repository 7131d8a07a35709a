//! A parker for each worker and for the dispatcher: who has nothing to do sleeps there until somebody wakes it.

ghost use Rattle.std.specs.Prelude.{◌≡◌, ◌<◌, ◌^◌};

use std::alloc::{AllocError, Global};
use std::sync::Wait;
use std::sync::atomic::{AtomicU64, Ordering};
use std::thread::Parker;
use std::time::Duration;

/// The bit of the worker of this slot.
fn bit_of(slot: usize) -> u64
    ensures { slot < 64 → result ≡ 2 ^ slot }
{
    1 << (slot % 64)
}

/// A parker for each worker and one for the dispatcher. Who is about to park says so before it looks
/// for the last time whether there is something to do: so whoever makes something to do either sees
/// that it parks, or is seen. Each sleep ends by itself too.
pub struct Parkers {
    // a bit for each worker that parks for want of a node
    idle: AtomicU64,
    // of those, who gave a node up, a key of which was busy
    waiting_for_keys: AtomicU64,
    // a bit for each worker that waits for room in the ring
    waiting_for_room: AtomicU64,
    // not 0: the dispatcher parks
    waiting_for_events: AtomicU64,
    // how many workers have a place that is open; until the first threads are started as many more as there are workers
    open: AtomicU64,
    workers: Vec<Parker>,
    state: Parker,
}

impl Drop for Parkers {
    fn drop(self) {
        let Parkers {
            idle: _,
            waiting_for_keys: _,
            waiting_for_room: _,
            waiting_for_events: _,
            open: _,
            workers: _,
            state: _,
        } = self;
    }
}

impl Parkers {
    /// Parkers for this number of workers.
    pub fn new(alloc: Global, workers: u32) -> Result<Parkers, AllocError> {
        let mut parkers = Vec::new(alloc);
        for _worker in 0..workers {
            parkers.push(Parker::new())?;
        }
        Ok(Parkers {
            idle: AtomicU64::new(0),
            waiting_for_keys: AtomicU64::new(0),
            waiting_for_room: AtomicU64::new(0),
            waiting_for_events: AtomicU64::new(0),
            open: AtomicU64::new(u64::from(workers)),
            workers: parkers,
            state: Parker::new(),
        })
    }

    /// Wakes the first of these workers that still parks for want of a node.
    fn wake_first(&self, who: u64) {
        for (place, slot) in self.workers.iter().enumerate() {
            let bit = bit_of(place);
            if who & bit != 0 && self.idle.fetch_and(!bit, Ordering::SeqCst) & bit != 0 {
                slot.unpark();
                return;
            }
        }
    }

    /// Wakes all these workers.
    fn wake_all(&self, who: u64) {
        for (place, slot) in self.workers.iter().enumerate() {
            if who & bit_of(place) != 0 {
                slot.unpark();
            }
        }
    }

    /// A node was offered to any.
    pub(crate) fn offer(&self) {
        let idle = self.idle.load(Ordering::SeqCst);
        if idle != 0 {
            self.wake_first(idle);
        }
    }

    /// A node was offered to the worker of this slot.
    pub(crate) fn offer_to(&self, slot: usize) {
        let idle = self.idle.load(Ordering::SeqCst);
        self.wake_first(idle & bit_of(slot));
    }

    /// Keys were given back that their last holder takes no more.
    pub(crate) fn give_back(&self) {
        let waiting_for_keys = self.waiting_for_keys.load(Ordering::SeqCst);
        if waiting_for_keys != 0 {
            self.wake_first(waiting_for_keys & self.idle.load(Ordering::SeqCst));
        }
    }

    /// Whether no worker parks for want of a node.
    pub fn are_empty(&self) -> bool {
        self.idle.load(Ordering::SeqCst) == 0
    }

    /// The thread of one worker more is started, and its place is open.
    pub fn open_place(&self) {
        self.open.fetch_add(1, Ordering::SeqCst);
    }

    /// The first threads are started: from now on no place counts whose thread is not.
    pub fn begin(&self) {
        self.open
            .fetch_sub(self.workers.len() as u64, Ordering::SeqCst);
    }

    /// The place of one worker is closed.
    pub(crate) fn close_place(&self) {
        self.open.fetch_sub(1, Ordering::SeqCst);
    }

    /// Whether the places of all workers are closed.
    pub(crate) fn are_all_closed(&self) -> bool {
        self.open.load(Ordering::SeqCst) == 0
    }

    /// There will be no more nodes.
    pub(crate) fn end(&self) {
        self.wake_all(self.idle.swap(0, Ordering::SeqCst));
    }

    /// Words of the ring are free.
    pub fn make_room(&self) {
        if self.waiting_for_room.load(Ordering::SeqCst) != 0 {
            self.wake_all(self.waiting_for_room.swap(0, Ordering::SeqCst));
        }
    }

    /// An event was shown.
    pub(crate) fn show(&self) {
        if self.waiting_for_events.load(Ordering::SeqCst) != 0 {
            self.waiting_for_events.store(0, Ordering::SeqCst);
            self.state.unpark();
        }
    }

    /// The dispatcher is waited for.
    pub(crate) fn wake_dispatcher(&self) {
        self.state.unpark();
    }

    /// The worker of this slot is about to park for want of a node, and says whether it gave one up.
    pub(crate) fn begin_park(&self, slot: usize, has_given_up: bool) {
        let bit = bit_of(slot);
        if has_given_up {
            self.waiting_for_keys.fetch_or(bit, Ordering::SeqCst);
        }
        self.idle.fetch_or(bit, Ordering::SeqCst);
    }

    /// The worker of this slot parks no more.
    pub(crate) fn end_park(&self, slot: usize) {
        let others = !bit_of(slot);
        self.idle.fetch_and(others, Ordering::SeqCst);
        self.waiting_for_keys.fetch_and(others, Ordering::SeqCst);
    }

    /// The worker of this slot is about to park for want of room in the ring.
    pub(crate) fn wait_for_room(&self, slot: usize) {
        self.waiting_for_room
            .fetch_or(bit_of(slot), Ordering::SeqCst);
        self.wake_dispatcher();
    }

    /// The dispatcher is about to park.
    pub(crate) fn wait_for_event(&self) {
        self.waiting_for_events.store(1, Ordering::SeqCst);
    }

    /// The worker of this slot sleeps, for this time at most.
    pub(crate) fn sleep<R: Wait>(&self, rt: &R, slot: usize, time: Duration) {
        if let Some(parker) = self.workers.get(slot) {
            parker.park_timeout(rt, time);
        }
    }

    /// The dispatcher sleeps, for this time at most.
    pub(crate) fn park_dispatcher<R: Wait>(&self, rt: &R, time: Duration) {
        self.state.park_timeout(rt, time);
    }
}
