//! The two parts of a segment, and what ends each in a text.

ghost use Rattle.std.specs.Prelude.{◌≡◌};
ghost use Rattle.unique_id.specs.Reading.{end_of, unended};

use crate::fault::UidFault;

/// A part of a segment.
#[derive(Clone, Copy)]
pub enum Part {
    Kind,
    Value,
}

impl Part {
    /// The byte that ends the part.
    pub fn end(self) -> u8
        ensures { result ≡ end_of self }
    {
        match self {
            Part::Kind => b':',
            Part::Value => b']',
        }
    }

    /// The fault where the part isn't ended at this place.
    pub fn unended(self, place: usize) -> UidFault
        ensures { result ≡ unended self place }
    {
        match self {
            Part::Kind => UidFault::NoColon(place),
            Part::Value => UidFault::NoBracket(place),
        }
    }
}
