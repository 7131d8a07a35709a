//! Which of so many shards.

ghost use Rattle.std.specs.Prelude.{◌≡◌, ◌<◌};
ghost use Rattle.selectors.specs.Shards.{gets, lot_of, part_of};

use crate::dealing::Dealing;
use crate::id_hash::hash_of;
use descriptor::Node;
use std::marker::Model;

/// How many shards there are at most: one for each node of the largest tree.
pub const MOST_SHARDS: u16 = 4095;

/// Shard K of N, and how the units of a tree are dealt out to the N. In turn the first goes to shard 1.
#[derive(Drop)]
pub struct Shard {
    number: u16,
    count: u16,
    dealing: Dealing,
}

impl Model for Shard {
    ghost use Rattle.std.specs.Prelude.{◌<◌, ◌≤◌};
    ghost use Rattle.selectors.specs.Shards.{Part};

    ghost Value = { Part };

    ghost view = { λ s. record { number = s.number; count = s.count; dealing = s.dealing } };

    ghost invariant = { λ s. (0 < s.number) × (s.number ≤ s.count) };
}

impl Shard {
    /// Shard `number` of `count`, if there is one: `number` is from 1 to `count`, and that is 4,095 at
    /// most.
    pub fn of(number: u16, count: u16, dealing: Dealing) -> Option<Shard>
        ensures { result ≡ part_of number count dealing }
    {
        if number >= 1 && number <= count && count <= MOST_SHARDS {
            Some(Shard {
                number,
                count,
                dealing,
            })
        } else {
            None
        }
    }

    /// Of how many shards it is one.
    pub fn count(&self) -> u16
        ensures count { result ≡ self.now.count }
        ensures some { 0 < self.now.count }
    {
        self.count
    }

    /// The number by which a unit is dealt out that has this place, counted from 0.
    fn lot(&self, place: usize, unit: &Node) -> u64
        ensures { result ≡ lot_of self.now.dealing place unit.now }
    {
        match self.dealing {
            Dealing::InTurn => place as u64,
            Dealing::ByHash => hash_of(unit.id.text().as_bytes()),
        }
    }

    /// Whether the shard gets a unit that has this place, counted from 0.
    pub fn gets(&self, place: usize, unit: &Node) -> bool
        ensures { result ≡ gets self.now place unit.now }
    {
        self.lot(place, unit) % u64::from(self.count) == u64::from(self.number) - 1
    }
}
