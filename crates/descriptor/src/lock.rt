//! Resource locks.

ghost use Rattle.std.specs.Prelude.{◌≡◌, IfOk};

use crate::lock_mode::LockMode;
use std::alloc::{AllocError, Global};
use unique_id::Text;

/// A declaration that a node uses a shared resource, which is named by a key, and how it uses it.
#[derive(Debug)]
pub struct Lock {
    /// What the resource is called.
    pub key: Text,
    /// Whether the resource is only read.
    pub mode: LockMode,
}

impl Drop for Lock {
    fn drop(self) {
        let Lock { key: _, mode: _ } = self;
    }
}

impl Lock {
    /// The lock of this key.
    pub fn new(alloc: Global, key: &str, mode: LockMode) -> Result<Lock, AllocError>
        ensures { IfOk result (λ lock. lock ≡ record { key = key.now; mode = mode }) }
    {
        Ok(Lock {
            key: Text::new(alloc, key)?,
            mode,
        })
    }

    /// A copy of the lock. It takes no memory; an `Err` says that no more copies of its key can be counted.
    pub fn copy(&self) -> Result<Lock, AllocError>
        ensures { IfOk result (λ lock. lock ≡ self.now) }
    {
        Ok(Lock {
            key: self.key.copy()?,
            mode: self.mode,
        })
    }

    /// Copies of these locks, in a list of their own.
    pub fn copy_all(alloc: Global, locks: &[Lock]) -> Result<Vec<Lock>, AllocError>
        ensures { IfOk result (λ copies. copies.items ≡ locks.now) }
    {
        let mut copies = Vec::new(alloc);
        for lock in locks {
            copies.push(lock.copy()?)?;
        }
        Ok(copies)
    }
}
