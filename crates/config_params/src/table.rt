//! A table of keys and values.

ghost use Rattle.std.specs.Prelude.{◌≡◌, ◌∷◌, ◌++◌, [], None, OnOk, OnErr, length, string_bytes};
ghost use Rattle.std.specs.List.{slice_get};
ghost use Rattle.std.specs.Option.{option_map};
ghost use Rattle.config_params.specs.Places.{place_in, with_value_at};
ghost use Rattle.config_params.specs.Tables.{with_pair, value_in};

use std::alloc::{AllocError, Global};
use std::collections::HashMap;
use std::marker::Model;

/// Keys with their values, in the order in which the keys came. (The map of a crate beside the standard library would be
/// read again, with all that it offers, by each crate that can see one of these.)
pub(crate) struct Table {
    pairs: Vec<(String, String)>,
    // where the pair of a key is, so that no search goes over all of them
    places: HashMap<String, usize>,
}

impl Drop for Table {
    fn drop(self) {
        let Table {
            pairs: _,
            places: _,
        } = self;
    }
}

impl Model for Table {
    ghost use Rattle.std.specs.Prelude.{List, map};
    ghost use Rattle.config_params.specs.Pairs.{Pair};
    ghost use Rattle.config_params.specs.Places.{HasPlaces, bytes_of};

    ghost Value = { List Pair };

    ghost view = { λ t. map bytes_of t.pairs.items };

    ghost invariant = { λ t. HasPlaces (map bytes_of t.pairs.items) t.places };
}

impl Table {
    /// The empty table.
    pub(crate) fn new(alloc: Global) -> Table
        ensures { result ≡ [] }
    {
        Table {
            pairs: Vec::new(alloc),
            places: HashMap::new(alloc),
        }
    }

    /// How many pairs there are.
    pub(crate) fn len(&self) -> usize
        ensures { result ≡ length self.now }
    {
        self.pairs.len()
    }

    /// The key at a place.
    pub(crate) fn key_at(&self, place: usize) -> Option<&str>
        ensures { option_map (λ key. key.now) result ≡ option_map (λ pair. pair.0) (slice_get self.now place) }
    {
        match self.pairs.get(place) {
            Some((key, _)) => Some(key.as_str()),
            None => None,
        }
    }

    /// The value at a place.
    fn value_at(&self, place: usize) -> Option<&str>
        ensures { option_map (λ value. value.now) result ≡ option_map (λ pair. pair.1) (slice_get self.now place) }
    {
        match self.pairs.get(place) {
            Some((_, value)) => Some(value.as_str()),
            None => None,
        }
    }

    /// Where the pair of a key is.
    fn place_of(&self, key: &str) -> Option<usize>
        ensures { result ≡ place_in self.now key.now }
    {
        match self.places.get(key) {
            Some(place) => Some(*place),
            None => None,
        }
    }

    /// The value of a key.
    pub(crate) fn value_of(&self, key: &str) -> Option<&str>
        ensures { option_map (λ value. value.now) result ≡ value_in self.now key.now }
    {
        match self.place_of(key) {
            Some(place) => self.value_at(place),
            None => None,
        }
    }

    /// Gives the key at a place another value.
    fn set(&mut self, place: usize, value: String)
        ensures { self.new ≡ with_value_at self.old place (string_bytes value) }
    {
        if let Some(pair) = self.pairs.get_mut(place) {
            pair.1 = value;
        }
    }

    /// Adds a pair whose key is new.
    fn append(&mut self, alloc: Global, key: &str, value: String) -> Result<(), AllocError>
        requires { place_in self.old key.now ≡ None }
        ensures ok { OnOk result (self.new ≡ self.old ++ (key.now, string_bytes value) ∷ []) }
        ensures err { OnErr result (self.new ≡ self.old) }
    {
        let place = self.pairs.len();
        let name = String::from_str(alloc, key)?;
        self.pairs.push((String::from_str(alloc, key)?, value))?;
        match self.places.insert(name, place) {
            Ok(_) => Ok(()),
            Err(_) => {
                self.pairs.pop();
                Err(AllocError)
            }
        }
    }

    /// Puts a pair into the table; a key that is there takes the new value.
    pub(crate) fn put(&mut self, alloc: Global, key: &str, value: &str) -> Result<(), AllocError>
        ensures ok { OnOk result (self.new ≡ with_pair self.old (key.now, value.now)) }
        ensures err { OnErr result (self.new ≡ self.old) }
    {
        let value = String::from_str(alloc, value)?;
        match self.place_of(key) {
            Some(place) => self.set(place, value),
            None => self.append(alloc, key, value)?,
        }
        Ok(())
    }
}
