//! What a body runs: a function, or a closure in a box.

ghost use Rattle.std.specs.Prelude.{◌≡◌};

use crate::stop::Checked;
use std::alloc::Global;

/// A test function.
pub type TestFn = fn(Global) -> Checked;

/// A test that has something of its own.
pub type TestBox = Box<dyn FnOnce(Global) -> Checked + Send>;

/// A function that may be called.
#[derive(Drop)]
pub(crate) struct Plain {
    pub(crate) run: TestFn,
    ghost ready: { TestFn.IsAlwaysCallable run },
}

/// A closure that may be called.
#[derive(Drop)]
pub(crate) struct Boxed {
    pub(crate) run: TestBox,
    ghost ready: { TestBox.IsAlwaysCallable run },
}

/// What is still to be run.
#[derive(Drop)]
pub(crate) enum Code {
    /// Nothing: it was run.
    Spent,
    Plain(Plain),
    Boxed(Boxed),
}

impl Plain {
    /// This function, with the proof that it may always be called.
    pub(crate) fn new(run: TestFn) -> Plain
        requires { TestFn.IsAlwaysCallable run }
        ensures { result.run ≡ run }
    {
        Plain { run }
    }

    /// Calls it.
    pub(crate) fn call(self, alloc: Global) -> Checked
        ensures { TestFn.post self.run alloc result }
    {
        let Plain { run } = self;
        run(alloc)
    }
}

impl Boxed {
    /// This closure, with the proof that it may always be called.
    pub(crate) fn new(run: TestBox) -> Boxed
        requires { TestBox.IsAlwaysCallable run }
        ensures { result.run ≡ run }
    {
        Boxed { run }
    }

    /// Calls it.
    pub(crate) fn call(self, alloc: Global) -> Checked
        ensures { TestBox.post self.run alloc result }
    {
        let Boxed { run } = self;
        run(alloc)
    }
}
