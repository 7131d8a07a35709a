//! What a node does in a plan that grows while it runs.

ghost use Rattle.std.specs.Prelude.{◌≡◌};

/// Whether a node makes further tests while the plan runs, is one of these tests, or neither.
#[derive(Clone, Copy, PartialEq, Eq, Debug)]
pub enum Role {
    /// Neither a factory nor a spare.
    Plain,
    /// Its body may register the spares below it, in their order, while the plan runs.
    Factory,
    /// A test that its factory may register while the plan runs. A spare that holds a key and is executed in the same
    /// thread can wait for ever: its factory's thread waits for it, while what has the key waits for that thread.
    Spare,
}

impl Role {
    ghost use Rattle.descriptor.specs.Roles.{is_factory, is_spare};

    /// Whether it is that of a factory.
    pub fn is_factory(self) -> bool
        ensures { result ≡ is_factory self }
    {
        matches!(self, Role::Factory)
    }

    /// Whether it is that of a spare.
    pub fn is_spare(self) -> bool
        ensures { result ≡ is_spare self }
    {
        matches!(self, Role::Spare)
    }
}
