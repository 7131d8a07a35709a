//! A tree of tests that a program builds, with the functions and closures that they run.
#![tactic(auto)]

mod adding;
mod cause;
mod declaring;
mod fault;
mod functions;
mod growing;
mod handles;
mod marks;
mod named_test;
mod nodes;
mod parts;
mod sort;
mod tests;

pub use cause::BuildCause;
pub use fault::BuildFault;
pub use functions::named;
pub use handles::{ClassId, EngineId, FactoryId};
pub use named_test::NamedTest;
pub use tests::Tests;
