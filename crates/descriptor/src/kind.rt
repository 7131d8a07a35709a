//! What a node may hold.

ghost use Rattle.std.specs.Prelude.{◌≡◌};

/// Whether a node holds other nodes, is a test, or both.
#[derive(Clone, Copy, PartialEq, Eq, Debug)]
pub enum Kind {
    /// Holds other nodes and is no test.
    Container,
    /// A test, which holds no other node.
    Test,
    /// A test that may hold other nodes.
    ContainerAndTest,
}

impl Kind {
    ghost use Rattle.descriptor.specs.Kinds.{is_test, is_container};

    /// Whether it is a test, as one is that may hold other nodes.
    pub fn is_test(self) -> bool
        ensures { result ≡ is_test self }
    {
        matches!(self, Kind::Test | Kind::ContainerAndTest)
    }

    /// Whether it may hold other nodes, as a test may that is both.
    pub fn is_container(self) -> bool
        ensures { result ≡ is_container self }
    {
        matches!(self, Kind::Container | Kind::ContainerAndTest)
    }
}
