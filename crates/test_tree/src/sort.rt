//! What a node is, by the call that adds it.

ghost use Rattle.std.specs.Prelude.{◌≡◌};
ghost use Rattle.test_tree.specs.Sorts.{kind_of, role_of, type_of};

use descriptor::{Kind, Role};

/// What a node is, by the call that adds it.
#[derive(Clone, Copy)]
pub(crate) enum Sort {
    Engine,
    Class,
    Nested,
    Test,
    Factory,
    Dynamic,
}

impl Sort {
    /// The type of its segment in a unique id.
    pub(crate) fn segment_type(self) -> &'static str
        ensures { result.now ≡ type_of self }
    {
        match self {
            Sort::Engine => "engine",
            Sort::Class => "class",
            Sort::Nested => "nested-class",
            Sort::Test => "method",
            Sort::Factory => "test-factory",
            Sort::Dynamic => "dynamic-test",
        }
    }

    /// What it may hold.
    pub(crate) fn kind(self) -> Kind
        ensures { result ≡ kind_of self }
    {
        match self {
            Sort::Test | Sort::Dynamic => Kind::Test,
            Sort::Engine | Sort::Class | Sort::Nested | Sort::Factory => Kind::Container,
        }
    }

    /// Whether it is a factory, or a spare of one.
    pub(crate) fn role(self) -> Role
        ensures { result ≡ role_of self }
    {
        match self {
            Sort::Engine | Sort::Class | Sort::Nested | Sort::Test => Role::Plain,
            Sort::Factory => Role::Factory,
            Sort::Dynamic => Role::Spare,
        }
    }
}
