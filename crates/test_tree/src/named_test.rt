//! A test function with its name.

use test_bodies::TestFn;

/// A test function with its name, for a list of them.
#[derive(Clone, Copy)]
pub struct NamedTest<'a> {
    pub(crate) name: &'a str,
    pub(crate) run: TestFn,
    // so a list of them asks nothing of its caller
    ghost ready: { TestFn.IsAlwaysCallable run },
}
