//! The locks that a node declares.

ghost use Rattle.std.specs.Prelude.{◌≡◌, [], ◌∷◌, ◌++◌, OnOk, OnErr, IfOk};

use crate::lock::Lock;
use std::alloc::{AllocError, Global};
use std::marker::Model;
use std::sync::Arc;

/// The resource locks that a node declares, in the order of their declaration. All copies share them until one gets a
/// further lock.
#[derive(Debug)]
pub struct Locks {
    alloc: Global,
    // None: no locks
    shared: Option<Arc<Vec<Lock>>>,
}

impl Drop for Locks {
    fn drop(self) {
        let Locks {
            alloc: _,
            shared: _,
        } = self;
    }
}

impl Model for Locks {
    ghost use Rattle.std.specs.Prelude.{List};
    ghost use Rattle.descriptor.specs.Locks.{locks_in};
    ghost use Rattle.descriptor.specs.declared.lock.Lock.{Lock};

    ghost Value = { List Lock };

    ghost view = { λ l. locks_in l.shared };
}

impl Locks {
    /// The empty list. It takes no memory.
    pub fn new(alloc: Global) -> Locks
        ensures { result ≡ [] }
    {
        Locks {
            alloc,
            shared: None,
        }
    }

    /// Adds a last lock. An `Err` leaves the locks as they were.
    pub fn push(&mut self, lock: Lock) -> Result<(), AllocError>
        ensures ok { OnOk result (self.new ≡ self.old ++ lock ∷ []) }
        ensures err { OnErr result (self.new ≡ self.old) }
    {
        if let Some(shared) = &mut self.shared {
            if let Some(locks) = Arc::get_mut(shared) {
                locks.push(lock)?;
                return Ok(());
            }
        }
        let mut locks = Lock::copy_all(self.alloc, self.as_slice())?;
        locks.push(lock)?;
        self.shared = Some(Arc::new(self.alloc, locks)?);
        Ok(())
    }

    /// The locks in order.
    pub fn as_slice(&self) -> &[Lock]
        ensures { result.now ≡ self.now }
    {
        match &self.shared {
            Some(locks) => locks.as_slice(),
            None => &[],
        }
    }

    /// A copy, which shares the list. It takes no memory; an `Err` says that no more copies can be counted.
    pub fn copy(&self) -> Result<Locks, AllocError>
        ensures { IfOk result (λ locks. locks ≡ self.now) }
    {
        let shared = match &self.shared {
            Some(locks) => Some(Arc::try_clone(locks)?),
            None => None,
        };
        Ok(Locks {
            alloc: self.alloc,
            shared,
        })
    }
}
