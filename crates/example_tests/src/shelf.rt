//! A shelf with so many places.

ghost use Rattle.std.specs.Prelude.{◌≡◌, ◌+◌, true, false};

/// A shelf with so many places, of which some are taken.
#[derive(Clone, Copy)]
pub(crate) struct Shelf {
    pub(crate) places: u32,
    pub(crate) taken: u32,
}

impl Shelf {
    /// An empty shelf.
    pub(crate) fn with_places(places: u32) -> Shelf
        ensures places { result.places ≡ places }
        ensures empty { result.taken ≡ 0 }
    {
        Shelf { places, taken: 0 }
    }

    /// Puts so many books on it, where there is room for all of them; whether there was.
    pub(crate) fn put(&mut self, books: u32) -> bool
        ensures same { self.new.places ≡ self.old.places }
        ensures put { result ≡ true → self.new.taken ≡ self.old.taken + books }
        ensures full { result ≡ false → self.new ≡ self.old }
    {
        let room = self.places.saturating_sub(self.taken);
        if books > room {
            return false;
        }
        self.taken = self.taken.saturating_add(books);
        true
    }
}
