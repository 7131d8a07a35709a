//! Which numbers are those of bodies of a tree.

ghost use Rattle.std.specs.Prelude.{◌≡◌, ◌<◌, ℕ, true, false, IfOk, cond, get_or, replicate};
ghost use Rattle.descriptor.specs.Bodies.{is_body};

use crate::body_id::BodyId;
use crate::marks::Marks;
use std::alloc::{AllocError, Global};
use std::marker::Model;

/// How many numbers a body may have.
const NUMBERS: usize = 65_536;

/// A mark for each number that a body may have. They stand in bits, since each suite begins with all of them.
#[derive(Drop)]
pub(crate) struct BodyMarks {
    marks: Marks,
}

impl Model for BodyMarks {
    ghost use Rattle.std.specs.Prelude.{◌≡◌, List, Bool, length};

    ghost Value = { List Bool };

    ghost view = { λ m. m.marks };

    ghost invariant = { λ m. length m.marks ≡ 65536 };
}

impl BodyMarks {
    /// The marks where no number is marked.
    pub(crate) fn none(alloc: Global) -> Result<BodyMarks, AllocError>
        ensures { IfOk result (λ marks. marks ≡ replicate 65536 false) }
    {
        Ok(BodyMarks {
            marks: Marks::none(alloc, NUMBERS)?,
        })
    }

    /// Whether this body is marked.
    pub(crate) fn has(&self, body: BodyId) -> bool
        ensures { result ≡ get_or self.now body false }
    {
        self.marks.has(body.index())
    }

    /// Marks a body, if there is one.
    pub(crate) fn put(&mut self, body: Option<BodyId>)
        ensures { (b : ℕ) → b < 65536 → get_or self.new b false ≡ cond (is_body b body) true (get_or self.old b
            false) }
    {
        if let Some(body) = body {
            self.marks.put(body.index());
        }
    }
}
