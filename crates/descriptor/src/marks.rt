//! Marks of numbers, a bit each.

ghost use Rattle.std.specs.Prelude.{◌≡◌, IfOk, true, false, get_or, replicate, set};

use std::alloc::{AllocError, Global};
use std::marker::Model;

/// How many marks stand in a word.
const MARKS_IN_WORD: usize = 64;

/// A mark for each number below a bound.
#[derive(Drop)]
pub struct Marks {
    many: usize,
    words: Vec<u64>,
}

impl Model for Marks {
    ghost use Rattle.std.specs.Prelude.{◌≤◌, ◌*◌, List, Bool, length};
    ghost use Rattle.descriptor.specs.Inside.Marks.{marks_in};

    ghost Value = { List Bool };

    ghost view = { λ m. marks_in m.many m.words.items };

    ghost invariant = { λ m. m.many ≤ length m.words.items * 64 };
}

impl Marks {
    /// A mark for each number below this one, none of which is set.
    pub fn none(alloc: Global, many: usize) -> Result<Marks, AllocError>
        ensures { IfOk result (λ marks. marks ≡ replicate many false) }
    {
        let words = vec![in alloc; 0; many / MARKS_IN_WORD + 1]?;
        Ok(Marks { many, words })
    }

    /// Whether this number is marked; one that is not below the bound never is.
    pub fn has(&self, number: usize) -> bool
        ensures { result ≡ get_or self.now number false }
    {
        if number >= self.many {
            return false;
        }
        (self.words[number / MARKS_IN_WORD] >> (number % MARKS_IN_WORD)) % 2 == 1
    }

    /// Marks this number, if it is below the bound.
    pub fn put(&mut self, number: usize)
        ensures { self.new ≡ set self.old number true }
    {
        if number >= self.many {
            return;
        }
        self.words[number / MARKS_IN_WORD] |= 1 << (number % MARKS_IN_WORD);
    }
}
