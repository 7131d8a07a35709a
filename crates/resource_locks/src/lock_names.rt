//! The locks that a tree names.

ghost use Rattle.std.specs.Prelude.{◌≡◌, ◌<◌, ◌≤◌, ◌++◌, ◌∷◌, [], false, IfOk, OnOk, IfSome, IsNone, length};
ghost use Rattle.std.specs.List.{list_any};
ghost use Rattle.std.specs.Str.{bytes_eq};
ghost use Rattle.descriptor.specs.Nodes.{IsTree};
ghost use Rattle.resource_locks.specs.Declarations.{declared_of};
ghost use Rattle.resource_locks.specs.Keys.{with_key, with_keys, keys_of};
ghost use Rattle.resource_locks.specs.NamePlaces.{place_in};
ghost use Rattle.resource_locks.specs.Plans.{number_of};

use descriptor::{Lock, NodeId, Tree};
use std::alloc::{AllocError, Global};
use std::collections::HashMap;
use std::marker::Model;
use unique_id::Text;

/// The lock that each child of an engine holds, for all that is below it.
pub const GLOBAL: &str = "GLOBAL";

/// The global lock, and then those that the nodes of a tree declare, each once.
pub struct LockNames {
    names: Vec<Text>,
    // where each name is among them, so that no search goes over all of them
    places: HashMap<String, usize>,
}

impl Drop for LockNames {
    fn drop(self) {
        let LockNames {
            names: _,
            places: _,
        } = self;
    }
}

impl Model for LockNames {
    ghost use Rattle.std.specs.Prelude.{List, ℕ};
    ghost use Rattle.resource_locks.specs.NamePlaces.{HasPlaces};

    ghost Value = { List (List ℕ) };

    ghost view = { λ n. n.names.items };

    ghost invariant = { λ n. HasPlaces n.names.items n.places };
}

impl LockNames {
    /// The name of the global lock, and those of the locks that the nodes of a tree declare, each once, in their order.
    pub fn of(alloc: Global, tree: &Tree) -> Result<LockNames, AllocError>
        ensures names { IfOk result (λ names. names ≡ keys_of (declared_of tree.now)) }
        ensures tree { OnOk result (IsTree tree.now) }
    {
        let mut names = LockNames {
            names: Vec::new(alloc),
            places: HashMap::new(alloc),
        };
        names.add(alloc, GLOBAL)?;
        for node in 0..tree.len() {
            names.add_all(alloc, tree.locks(NodeId::new(node as u16)))?;
        }
        Ok(names)
    }

    fn add_all(&mut self, alloc: Global, locks: &[Lock]) -> Result<(), AllocError>
        ensures { OnOk result (self.new ≡ with_keys self.old locks.now) }
    {
        for lock in locks {
            self.add(alloc, lock.key.as_str())?;
        }
        Ok(())
    }

    fn add(&mut self, alloc: Global, name: &str) -> Result<(), AllocError>
        ensures { OnOk result (self.new ≡ with_key self.old name.now) }
    {
        if self.has(name) {
            return Ok(());
        }
        self.append(alloc, name)
    }

    /// Adds a last name, which is none of these.
    fn append(&mut self, alloc: Global, name: &str) -> Result<(), AllocError>
        requires { list_any (bytes_eq name.now) self.old ≡ false }
        ensures { OnOk result (self.new ≡ self.old ++ name.now ∷ []) }
    {
        let place = self.names.len();
        let key = String::from_str(alloc, name)?;
        self.names.push(Text::new(alloc, name)?)?;
        match self.places.insert(key, place) {
            Ok(_) => Ok(()),
            Err(_) => {
                self.names.pop();
                Err(AllocError)
            }
        }
    }

    /// Where a name is among these.
    fn place_of(&self, name: &str) -> Option<usize>
        ensures { result ≡ place_in self.now name.now }
    {
        match self.places.get(name) {
            Some(place) => Some(*place),
            None => None,
        }
    }

    /// Whether a lock is one of these.
    pub fn has(&self, name: &str) -> bool
        ensures { result ≡ list_any (bytes_eq name.now) self.now }
    {
        self.place_of(name).is_some()
    }

    /// How many these are.
    pub(crate) fn len(&self) -> usize
        ensures { result ≡ length self.now }
    {
        self.names.len()
    }

    /// Which of these a lock is, from 0, if it is one.
    pub(crate) fn number(&self, name: &str) -> Option<usize>
        ensures value { IfSome result (λ number. number ≡ number_of self.now name.now) }
        ensures inside { IfSome result (λ number. number < length self.now) }
        ensures none { IsNone result → length self.now ≤ number_of self.now name.now }
    {
        self.place_of(name)
    }

    /// The names as texts, in the order of their numbers.
    pub(crate) fn texts(&self, alloc: Global) -> Result<Vec<Text>, AllocError>
        ensures { IfOk result (λ texts. texts.items ≡ self.now) }
    {
        let mut texts = Vec::new(alloc);
        for name in self.names.as_slice() {
            texts.push(name.copy()?)?;
        }
        Ok(texts)
    }
}
