//! Sets of locks.

ghost use Rattle.std.specs.Prelude.{◌≡◌, ◌↔◌, ◌||◌, [], List, IsTrue, OnOk, OnErr, IfOk, IfErr};
ghost use Rattle.descriptor.specs.declared.lock.Lock.{Lock as LockValue};
ghost use Rattle.resource_locks.specs.Conflicts.{AreInConflict};
ghost use Rattle.resource_locks.specs.LockSets.{IsLockSet, put, join, of};
ghost use Rattle.resource_locks.specs.Inside.Places.{IsHere, IsBefore};
ghost use Rattle.resource_locks.specs.Wants.{is_write, stronger, mode_for, writes, WantsBoth, WantSame};

use descriptor::{Lock, LockMode};
use std::alloc::{AllocError, Global};
use std::cmp::Ordering;
use std::marker::Model;

/// Locks with each key once, in byte order of the keys.
#[derive(Debug, Drop)]
pub struct LockSet {
    locks: Vec<Lock>,
}

impl Model for LockSet {
    ghost Value = { List LockValue };

    ghost view = { λ s. s.locks.items };

    ghost invariant = { λ s. IsLockSet s.locks.items };
}

impl LockSet {
    /// The set without locks.
    pub fn new(alloc: Global) -> LockSet
        ensures { result ≡ [] }
    {
        LockSet {
            locks: Vec::new(alloc),
        }
    }

    /// The set of the locks of a list. Where a key stands more than once, READ_WRITE wins.
    pub fn of(alloc: Global, locks: &[Lock]) -> Result<LockSet, AllocError>
        ensures same { IfOk result (λ set. set ≡ of locks.now) }
        ensures wants { IfOk result (λ set. WantSame set locks.now) }
    {
        let mut set = LockSet::new(alloc);
        set.put_all(locks)?;
        Ok(set)
    }

    /// The locks of both sets. Where a key stands in both, READ_WRITE wins.
    pub fn join(alloc: Global, a: &LockSet, b: &LockSet) -> Result<LockSet, AllocError>
        ensures same { IfOk result (λ set. set ≡ join a.now b.now) }
        ensures wants { IfOk result (λ set. WantsBoth a.now b.now set) }
        ensures commutative { IfOk result (λ set. set ≡ join b.now a.now) }
        ensures associative { IfOk result (λ set. (c : List LockValue) → join set c ≡ join a.now (join b.now c)) }
        ensures idempotent { IfOk result (λ set. a.now ≡ b.now → set ≡ a.now) }
    {
        let mut set = a.copy(alloc)?;
        set.put_all(&b.locks)?;
        Ok(set)
    }

    /// A copy, in a list of its own, which shares the texts of long keys with this set.
    pub fn copy(&self, alloc: Global) -> Result<LockSet, AllocError>
        ensures same { IfOk result (λ set. set ≡ self.now) }
        ensures set { IsLockSet self.now }
    {
        Ok(LockSet {
            locks: Lock::copy_all(alloc, &self.locks)?,
        })
    }

    /// The locks, in byte order of the keys.
    pub fn locks(&self) -> &[Lock]
        ensures same { result.now ≡ self.now }
        ensures set { IsLockSet self.now }
    {
        &self.locks
    }

    /// The mode in which the set wants a key, if it has the key.
    pub fn mode_of(&self, key: &str) -> Option<LockMode>
        ensures { result ≡ mode_for key.now self.now }
    {
        match self.place(key) {
            Ok(place) => Some(self.locks[place].mode),
            Err(_) => None,
        }
    }

    /// Whether the set wants some key in READ_WRITE.
    pub fn writes(&self) -> bool
        ensures { result ≡ writes self.now }
    {
        self.locks.iter().any(|lock| is_writing(lock.mode))
    }

    /// Whether some key stands in both sets, in one of them in READ_WRITE. Takes as many steps as both have locks.
    pub fn conflicts(&self, other: &LockSet) -> bool
        ensures shared { IsTrue result ↔ AreInConflict self.now other.now }
        ensures symmetric { IsTrue result ↔ AreInConflict other.now self.now }
    {
        are_in_conflict(&self.locks, &other.locks)
    }

    /// The set with one more lock. Where the key stands there, READ_WRITE wins. An `Err` leaves it as it was.
    pub fn put(&mut self, key: &str, mode: LockMode) -> Result<(), AllocError>
        ensures ok { OnOk result (self.new ≡ put (record { key = key.now; mode = mode }) self.old) }
        ensures err { OnErr result (self.new ≡ self.old) }
    {
        let lock = Lock::new(*self.locks.allocator(), key, mode)?;
        self.put_copy(&lock)
    }

    /// The set with a lock that is there, which is copied only where its key is new. Where the key stands there,
    /// READ_WRITE wins. An `Err` leaves the set as it was.
    pub fn put_copy(&mut self, lock: &Lock) -> Result<(), AllocError>
        ensures ok { OnOk result (self.new ≡ put lock.now self.old) }
        ensures err { OnErr result (self.new ≡ self.old) }
    {
        match self.place(lock.key.as_str()) {
            Ok(place) => strengthen(&mut self.locks[place], lock.mode),
            Err(place) => self.locks.insert(place, lock.copy()?)?,
        }
        Ok(())
    }

    /// The set with the locks of a list. An `Err` may leave some of them in it.
    pub fn put_all(&mut self, locks: &[Lock]) -> Result<(), AllocError>
        ensures { OnOk result (self.new ≡ join self.old locks.now) }
    {
        self.locks.reserve(locks.len())?;
        for lock in locks {
            self.put_copy(lock)?;
        }
        Ok(())
    }

    /// The place where the key stands, or else the one where it would have to stand.
    fn place(&self, key: &str) -> Result<usize, usize>
        ensures here { IfOk result (λ place. IsHere self.now key.now place) }
        ensures before { IfErr result (λ place. IsBefore self.now key.now place) }
    {
        self.locks
            .binary_search_by(|lock| lock.key.as_str().cmp(key))
    }
}

/// Whether a mode excludes every other holder of the key.
pub(crate) fn is_writing(mode: LockMode) -> bool
    ensures { result ≡ is_write mode }
{
    match mode {
        LockMode::Read => false,
        LockMode::ReadWrite => true,
    }
}

/// Whether one of two modes does.
fn one_writes(one: LockMode, other: LockMode) -> bool
    ensures { result ≡ (is_write one || is_write other) }
{
    is_writing(one) || is_writing(other)
}

/// The lock wants its key in this mode too.
fn strengthen(lock: &mut Lock, mode: LockMode)
    ensures { lock.new ≡ record { key = lock.old.key; mode = stronger lock.old.mode mode } }
{
    match mode {
        LockMode::Read => {}
        LockMode::ReadWrite => lock.mode = mode,
    }
}

/// Whether some key stands in both sets, in one of them in READ_WRITE: in each turn the lesser of the first keys is
/// passed.
fn are_in_conflict(one: &[Lock], other: &[Lock]) -> bool
    requires one { IsLockSet one.now }
    requires other { IsLockSet other.now }
    ensures { IsTrue result ↔ AreInConflict one.now other.now }
{
    let mut mine = one;
    let mut theirs = other;
    while let (Some((lock, later)), Some((rival, rivals))) = (
        mine.split_first(),
        theirs.split_first(),
    ) {
        match lock.key.as_str().cmp(rival.key.as_str()) {
            Ordering::Less => mine = later,
            Ordering::Greater => theirs = rivals,
            Ordering::Equal => {
                if one_writes(lock.mode, rival.mode) {
                    return true;
                }
                mine = later;
                theirs = rivals;
            }
        }
    }
    false
}
