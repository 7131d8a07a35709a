//! The keys of a plan and their numbers.

ghost use Rattle.std.specs.Prelude.{◌≡◌, ◌<◌, ◌≤◌, ℕ, List, [], IfOk, IfErr, OnOk, IfSome, IsNone, length, map};
ghost use Rattle.std.specs.Prelude.{slice_index_or};
ghost use Rattle.descriptor.specs.Nodes.{IsTree};
ghost use Rattle.resource_locks.specs.Declarations.{declared_of};
ghost use Rattle.resource_locks.specs.Keys.{keys_of};
ghost use Rattle.descriptor.specs.declared.lock_mode.LockMode.{LockMode as ModeValue};
ghost use Rattle.resource_locks.specs.Plans.{number_of, numbers_of};
ghost use Rattle.resource_locks.specs.Wants.{HasLock};

use crate::fault::PlanFault;
use crate::lock_names::LockNames;
use crate::lock_set::LockSet;
use descriptor::{Lock, Tree};
use std::alloc::{AllocError, Global};
use std::marker::Model;
use unique_id::Text;

/// The greatest number of keys of a plan, the global one included.
const MOST_KEYS: usize = 256;

/// The keys of a plan, which are the locks that its tree names; the number of a key is its place.
#[derive(Drop)]
pub(crate) struct Keys {
    names: LockNames,
}

impl Model for Keys {
    ghost use Rattle.std.specs.Prelude.{List, ℕ, ◌≤◌, length};

    ghost Value = { List (List ℕ) };

    ghost view = { λ k. k.names };

    ghost invariant = { λ k. length k.names ≤ 256 };
}

impl Keys {
    /// The keys of the plan of a tree: the global one, and then those that its nodes declare. Refused where these are
    /// more than 256.
    pub(crate) fn of(alloc: Global, tree: &Tree) -> Result<Keys, PlanFault>
        ensures keys { IfOk result (λ keys. keys ≡ keys_of (declared_of tree.now)) }
        ensures tree { OnOk result (IsTree tree.now) }
        ensures refused { IfErr result (λ fault. fault ≡ PlanFault.TooManyKeys →
            256 < length (keys_of (declared_of tree.now))) }
    {
        let names = LockNames::of(alloc, tree)?;
        if names.len() > MOST_KEYS {
            drop(names);
            return Err(PlanFault::TooManyKeys);
        }
        Ok(Keys { names })
    }

    /// The number of a key, if it is one of these.
    pub(crate) fn number(&self, key: &str) -> Option<u8>
        ensures value { IfSome result (λ number. number ≡ number_of self.now key.now) }
        ensures none { IsNone result → length self.now ≤ number_of self.now key.now }
    {
        match self.names.number(key) {
            Some(number) => Some(number as u8),
            None => None,
        }
    }

    /// The numbers of the keys of locks, all of which are among these.
    fn numbers(&self, alloc: Global, locks: &[Lock]) -> Result<Vec<u8>, AllocError>
        requires { (key : List ℕ) (mode : ModeValue) → HasLock locks.now key mode →
            number_of self.now key < length self.now }
        ensures { IfOk result (λ numbers. numbers.items ≡ numbers_of self.now locks.now) }
    {
        let mut numbers = Vec::with_capacity(alloc, locks.len())?;
        for lock in locks {
            let Some(number) = self.number(lock.key.as_str()) else {
                unreachable!()
            };
            numbers.push(number)?;
        }
        Ok(numbers)
    }

    /// For each set the numbers of the keys of its locks, all of which are among these.
    pub(crate) fn all_numbers(
        &self,
        alloc: Global,
        sets: &[LockSet],
    ) -> Result<Vec<Vec<u8>>, AllocError>
        requires { (n : ℕ) (key : List ℕ) (mode : ModeValue) → HasLock (slice_index_or sets.now n []) key mode →
            number_of self.now key < length self.now }
        ensures { IfOk result (λ lists. map (λ v. v.items) lists.items ≡ map (numbers_of self.now) sets.now) }
    {
        let mut lists = Vec::with_capacity(alloc, sets.len())?;
        for set in sets {
            lists.push(self.numbers(alloc, set.locks())?)?;
        }
        Ok(lists)
    }

    /// The keys, as texts.
    pub(crate) fn texts(&self, alloc: Global) -> Result<Vec<Text>, AllocError>
        ensures same { IfOk result (λ texts. texts.items ≡ self.now) }
        ensures few { length self.now ≤ 256 }
    {
        self.names.texts(alloc)
    }
}
