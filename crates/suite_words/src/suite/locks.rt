//! The attribute `lock=KEY`: a resource that a node uses, and how.

ghost use Rattle.std.specs.Prelude.{◌≡◌, ◌≢◌, ◌++◌, ◌∷◌, [], OnOk, IfOk, IfErr, Ok};
ghost use Rattle.resource_locks.specs.LockSets.{put, of};
ghost use Rattle.suite_words.specs.Reading.Locks.{StandFor, lock_of, with_lock_of};
ghost use Rattle.suite_words.specs.Reading.Faults.{Fails};

use crate::suite::fault::SuiteFault;
use descriptor::{Lock, LockMode, Locks};
use resource_locks::LockSet;
use std::alloc::{AllocError, Global};
use std::marker::Model;

/// The greatest number of locks that a node may declare.
const MOST_LOCKS: usize = 16;

/// The locks that a line names, in its order, so that one more costs the same however many there
/// are: they are put in order once the line is read. What they stand for has each key once.
#[derive(Drop)]
pub struct NamedLocks {
    named: Vec<Lock>,
}

impl Model for NamedLocks {
    ghost use Rattle.std.specs.Prelude.{List};
    ghost use Rattle.descriptor.specs.declared.lock.Lock.{Lock};
    ghost use Rattle.resource_locks.specs.LockSets.{of};

    ghost Value = { List Lock };

    ghost view = { λ l. of l.named.items };
}

impl NamedLocks {
    /// Before the first lock.
    pub(crate) fn new(alloc: Global) -> NamedLocks
        ensures { result ≡ [] }
    {
        NamedLocks {
            named: Vec::new(alloc),
        }
    }

    /// Adds a lock. Where its key stands there, READ_WRITE wins.
    fn put(&mut self, alloc: Global, key: &str, mode: LockMode) -> Result<(), AllocError>
        ensures { OnOk result (self.new ≡ put (record { key = key.now; mode = mode }) self.old) }
    {
        self.named.push(Lock::new(alloc, key, mode)?)?;
        Ok(())
    }

    /// The locks in byte order of their keys, as a node has them. Of more than it may have, no more
    /// than show that are put in order.
    pub fn in_order(&self, alloc: Global) -> Result<Locks, AllocError>
        ensures { IfOk result (λ locks. StandFor locks self.now) }
    {
        locks_of(alloc, &few_of(alloc, &self.named)?)
    }
}

/// The key that a value of `lock` names, and how it is used.
pub fn key_and_mode(value: &str) -> (&str, LockMode)
    ensures { record { key = result.0.now; mode = result.1 } ≡ lock_of value.now }
{
    if let Some(key) = value.strip_suffix(":r") {
        return (key, LockMode::Read);
    }
    match value.strip_suffix(":rw") {
        Some(key) => (key, LockMode::ReadWrite),
        None => (value, LockMode::ReadWrite),
    }
}

/// Adds the lock that a value of `lock` names.
pub(crate) fn put_lock(
    alloc: Global,
    locks: &mut NamedLocks,
    number: usize,
    value: &str,
) -> Result<(), SuiteFault>
    ensures added { OnOk result (with_lock_of number locks.old value.now ≡ Ok locks.new) }
    ensures refused { IfErr result (λ fault. Fails fault (with_lock_of number locks.old value.now)) }
    // Memory is taken only for a lock that has a key.
    ensures no_memory { IfErr result (λ fault. fault ≡ SuiteFault.NoMemory → (lock_of value.now).key ≢ []) }
{
    let (key, mode) = key_and_mode(value);
    if key.is_empty() {
        return Err(SuiteFault::BadLine(number));
    }
    Ok(locks.put(alloc, key, mode)?)
}

/// The set of these locks, or of the first of them, where their keys are more than a node may have.
fn few_of(alloc: Global, locks: &[Lock]) -> Result<LockSet, AllocError>
    ensures { IfOk result (λ set. StandFor set (of locks.now)) }
{
    let mut set = LockSet::new(alloc);
    for lock in locks {
        set.put_copy(lock)?;
        if set.locks().len() > MOST_LOCKS {
            return Ok(set);
        }
    }
    Ok(set)
}

/// Adds a copy of a lock.
fn push_copy(locks: &mut Locks, lock: &Lock) -> Result<(), AllocError>
    ensures { OnOk result (locks.new ≡ locks.old ++ lock.now ∷ []) }
{
    locks.push(lock.copy()?)?;
    Ok(())
}

/// The locks of a set, as a node has them.
fn locks_of(alloc: Global, set: &LockSet) -> Result<Locks, AllocError>
    ensures { IfOk result (λ locks. locks ≡ set.now) }
{
    let mut locks = Locks::new(alloc);
    for lock in set.locks() {
        push_copy(&mut locks, lock)?;
    }
    Ok(locks)
}
