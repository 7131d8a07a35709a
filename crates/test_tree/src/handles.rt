//! Which node a call speaks of.

ghost use Rattle.std.specs.Prelude.{◌<◌};

/// An engine of tests that are built.
#[derive(Clone, Copy)]
pub struct EngineId {
    pub(crate) number: u16,
    ghost below: { 0 < number },
}

/// A class of tests that are built.
#[derive(Clone, Copy)]
pub struct ClassId {
    pub(crate) number: u16,
    ghost below: { 0 < number },
}

/// A factory of tests that are built.
#[derive(Clone, Copy)]
pub struct FactoryId {
    pub(crate) number: u16,
    ghost below: { 0 < number },
}
