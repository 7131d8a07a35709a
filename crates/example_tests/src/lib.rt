//! Examples of tests of one's own, for a program that runs them: of a shelf, and of the kit's crate `semver`.
#![tactic(auto)]

mod failures;
mod semver_tests;
mod shelf;
mod shelf_tests;

pub use failures::FailuresByClass;
pub use semver_tests::run_semver_tests;
pub use shelf_tests::run_shelf_tests;
